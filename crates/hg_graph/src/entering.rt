//! Where a thread comes behind a segment of another one.

ghost use Rattle.std.specs.Prelude.{◌≡◌, ◌<◌, ◌≤◌, length, false, slice_index_or, IfOk};
ghost use Rattle.hg_model.specs.Paths.{IsRising};
ghost use Rattle.hg_graph.specs.Entering as spec;

use hg_model::segment::Segment;
use std::alloc::{AllocError, Global};

/// The first segment of the thread of `to` that segment `from` reaches: `to` itself where none before it is. It goes forward from
/// `from`, and meanwhile takes a byte for each segment between the two.
pub(crate) fn find_entry(
    alloc: Global,
    segments: &[Segment],
    from: usize,
    to: usize,
) -> Result<usize, AllocError>
    requires within { to < length segments.now }
    requires rising { IsRising segments.now }
    ensures value { IfOk result (λ h. h ≡ spec.entry segments.now from to) }
    ensures upto { IfOk result (λ h. h ≤ to) }
{
    if to <= from {
        return Ok(to);
    }
    let thread = segments[to].thread;
    let mut reached = Vec::with_capacity(alloc, to - from)?;
    for at in from..to {
        let is_reached = goes_on(&reached, from, segments[at].before.as_slice());
        if is_reached && segments[at].thread == thread {
            return Ok(at);
        }
        reached.push(is_reached)?;
    }
    Ok(to)
}

/// Whether a segment is reached that stands right behind these. The row says it of each one from `from` on, and before that segment.
fn goes_on(reached: &[bool], from: usize, before: &[u32]) -> bool
    ensures { result ≡ spec.goes_on reached.now from before.now }
{
    if reached.is_empty() {
        return true;
    }
    for x in before {
        let place = *x as usize;
        if from <= place && is_set(reached, place - from) {
            return true;
        }
    }
    false
}

/// What a row says of a place; false where there is none.
fn is_set(row: &[bool], place: usize) -> bool
    ensures { result ≡ slice_index_or row.now place false }
{
    match row.get(place) {
        Some(set) => *set,
        None => false,
    }
}
