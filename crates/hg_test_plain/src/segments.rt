//! The segments of threads.

ghost use Rattle.std.specs.Prelude.{◌≡◌, ◌+◌, ◌*◌, ◌^◌, ◌<◌, ◌≤◌, ◌∷◌, [], IfOk, length, slice_index};
ghost use Rattle.hg_model.specs.Messages as messages;
ghost use Rattle.hg_model.specs.Segments as segs;

use hg_model::event::Event;
use hg_model::segment::{Mark, Predecessors, Segment};
use std::alloc::{AllocError, Global};

fn last_of(thread: u16, found: u32, place: u32, segments: &[Segment]) -> u32
    requires place { place + length segments.now < 2 ^ 32 }
    ensures { result ≡ segs.last_of thread found place segments.now }
{
    let Some((first, others)) = segments.split_first() else {
        return found;
    };
    if first.thread == thread {
        return last_of(thread, place, place + 1, others);
    }
    last_of(thread, found, place + 1, others)
}

/// The present segment of a thread.
pub fn present(segments: &[Segment], thread: u16) -> u32
    requires { length segments.now < 2 ^ 32 }
    ensures { result ≡ segs.present segments.now thread }
{
    last_of(thread, 0, 0, segments)
}

fn is_sent(message: u32, mark: Mark) -> bool
    ensures { result ≡ messages.is_sent message mark }
{
    match mark {
        Mark::Sent(sent) => sent == message,
        _ => false,
    }
}

fn first_number(numbers: &[u32]) -> u32
    ensures { result ≡ slice_index numbers.now 0 }
{
    match numbers.first() {
        Some(number) => *number,
        None => 0,
    }
}

/// The segment that the send of a message ended, 0 where it was not sent.
fn sent_in(segments: &[Segment], message: u32) -> u32
    ensures { result ≡ messages.sent_in segments.now message }
{
    let Some((first, others)) = segments.split_first() else {
        return 0;
    };
    if is_sent(message, first.mark) {
        return first_number(first.before.as_slice());
    }
    sent_in(others, message)
}

fn segment(thread: u16, before: Predecessors, mark: Mark) -> Segment
    ensures { result ≡ segs.of_message mark thread before }
{
    Segment {
        thread,
        before,
        mark,
    }
}

fn rising(a: u32, b: u32) -> Predecessors
    ensures { result ≡ segs.rising a b }
{
    if a < b {
        Predecessors::two(a, b)
    } else {
        Predecessors::two(b, a)
    }
}

fn root(alloc: Global) -> Result<Vec<Segment>, AllocError>
    ensures { IfOk result (λ v. v.items ≡ segs.of_thread 0 [] ∷ []) }
{
    let mut all = Vec::new(alloc);
    all.push(segment(0, Predecessors::none(), Mark::Plain))?;
    Ok(all)
}

/// All segments, in the order of opening.
pub fn segments_of(alloc: Global, past: &[Event]) -> Result<Vec<Segment>, AllocError>
    requires { length past.now < 2 ^ 20 }
    ensures value { IfOk result (λ v. v.items ≡ segs.segments_of past.now) }
    ensures few { IfOk result (λ v. length v.items ≤ 2 * length past.now + 1) }
{
    let Some((event, earlier)) = past.split_first() else {
        return root(alloc);
    };
    let mut all = segments_of(alloc, earlier)?;
    match *event {
        Event::Fork { p, c } => {
            let now = present(&all, p);
            all.push(segment(c, Predecessors::one(now), Mark::Plain))?;
            all.push(segment(p, Predecessors::one(now), Mark::Plain))?;
            Ok(all)
        }
        Event::Join { p, c } => {
            let before = rising(present(&all, p), present(&all, c));
            all.push(segment(p, before, Mark::Plain))?;
            Ok(all)
        }
        Event::Send { t, k } => {
            let before = Predecessors::one(present(&all, t));
            all.push(segment(t, before, Mark::Sent(k)))?;
            Ok(all)
        }
        Event::Recv { t, k } => {
            let before = rising(present(&all, t), sent_in(&all, k));
            all.push(segment(t, before, Mark::Got(k)))?;
            Ok(all)
        }
        _ => Ok(all),
    }
}
