//! The segments of a body: whether each may follow those before it, and the last one of each thread.
ghost use Rattle.std.specs.Prelude.{◌≡◌, ◌<◌, ◌≤◌, ◌==◌, ◌&&◌, Option, length, IfErr, IfOk, IsErrOf};
ghost use Rattle.std.specs.List.{list_any};
ghost use Rattle.hg_model.specs.Messages.{Agrees};
ghost use Rattle.hg_model.specs.Restoring.{is_behind_own};
ghost use Rattle.hg_model.specs.Segments.{thread_at};
ghost use Rattle.hg_graph.specs.Restoring.{AreSegments, are_predecessors, has_former};
ghost use Rattle.hg_root.specs.Fault.{IsDamagedOrMemory};
ghost use Rattle.hg_root.specs.Last.{AreNoSegments, IsLastTable, may_stand, sends_lawfully};

use crate::fault::RootFault;
use hg_model::limits::{MOST_SEGMENTS, THREAD_NUMBERS};
use hg_model::segment::{Mark, Segment};
use hg_rules::messages::MessageTable;
use std::alloc::Global;

/// Whether these are the predecessors of a segment.
fn are_predecessors(place: u32, before: &[u32]) -> bool
    ensures { result ≡ are_predecessors place before.now }
{
    match before {
        [] => place == 0,
        [one] => *one < place,
        [one, other] => *one < *other && *other < place,
        _ => false,
    }
}

/// Whether the former segment of the thread, if there is one, is among the predecessors.
fn has_former(former: Option<u32>, before: &[u32]) -> bool
    ensures { result ≡ has_former former before.now }
{
    match former {
        None => true,
        Some(former) => is_among(former, before),
    }
}

/// Whether the number is among these.
fn is_among(number: u32, numbers: &[u32]) -> bool
    ensures { result ≡ list_any (λ x. x == number) numbers.now }
{
    numbers.iter().any(|x| *x == number)
}

/// The thread of a segment, 0 if there is no such segment.
fn thread_at(segments: &[Segment], number: u32) -> u16
    ensures { result ≡ thread_at segments.now number }
{
    match segments.get(number as usize) {
        Some(segment) => segment.thread,
        None => 0,
    }
}

/// Whether there is one predecessor, and it is of this thread.
fn is_behind_own(earlier: &[Segment], thread: u16, before: &[u32]) -> bool
    ensures { result ≡ is_behind_own earlier.now thread before.now }
{
    match before {
        [one] => thread_at(earlier, *one) == thread,
        _ => false,
    }
}

/// Whether a segment with the mark of a send stands behind one of its own thread alone.
fn sends_lawfully(earlier: &[Segment], segment: &Segment) -> bool
    ensures { result ≡ sends_lawfully earlier.now segment.now.mark segment.now }
{
    match segment.mark {
        Mark::Plain | Mark::Got(_) => true,
        Mark::Sent(_) => is_behind_own(earlier, segment.thread, segment.before.as_slice()),
    }
}

/// Whether a segment may stand behind these, if `former` is the former segment of its thread. The number of its message is
/// not looked at.
fn fits(earlier: &[Segment], segment: &Segment, former: Option<u32>) -> bool
    requires { length earlier.now < MOST_SEGMENTS }
    ensures { result ≡ may_stand earlier.now segment.now former }
{
    let place = earlier.len() as u32;
    let most = if place == 0 { 1 } else { THREAD_NUMBERS };
    let before = segment.before.as_slice();
    usize::from(segment.thread) < most
        && are_predecessors(place, before)
        && has_former(former, before)
        && sends_lawfully(earlier, segment)
}

/// The last segment of each of the 1,024 threads, or none, and the messages that the marks tell. Damaged if there are no
/// segments or more than 1,048,576, or if one of them may not follow those before it.
pub(crate) fn lasts_of(
    alloc: Global,
    segments: &[Segment],
) -> Result<(Vec<Option<u32>>, MessageTable), RootFault>
    ensures table { IfOk result (λ x. IsLastTable segments.now x.0.items) }
    ensures messages { IfOk result (λ x. Agrees segments.now x.1) }
    ensures lawful { IfOk result (λ x. AreSegments segments.now) }
    ensures count { IfOk result (λ x. (1 ≤ length segments.now) × (length segments.now ≤ MOST_SEGMENTS)) }
    ensures damaged { IsErrOf result RootFault.Damaged → AreNoSegments MOST_SEGMENTS segments.now }
    ensures fault { IfErr result IsDamagedOrMemory }
{
    if segments.len() == 0 || segments.len() > MOST_SEGMENTS as usize {
        return Err(RootFault::Damaged);
    }
    let mut lasts = vec![in alloc; None; THREAD_NUMBERS]?;
    let mut messages = MessageTable::new(alloc);
    for k in 0..segments.len() {
        let segment = &segments[k];
        let thread = usize::from(segment.thread);
        if thread >= THREAD_NUMBERS {
            return Err(RootFault::Damaged);
        }
        if !fits(&segments[..k], segment, lasts[thread]) {
            return Err(RootFault::Damaged);
        }
        if !messages.may_note(segment.mark) {
            return Err(RootFault::Damaged);
        }
        messages.make_room()?;
        messages.note(segment.mark);
        lasts[thread] = Some(k as u32);
    }
    Ok((lasts, messages))
}
