//! The threads of a body, each with the locks that it holds.
ghost use Rattle.std.specs.Prelude.{◌≡◌, ◌↔◌, ◌<◌, Some, None, length, map, slice_index_or, IsTrue, MatchOption};
ghost use Rattle.std.specs.List.Sorted.{IsStrictlyIncreasing};
ghost use Rattle.hg_root.specs.Lawful.{AreHeld};
ghost use Rattle.hg_root.specs.Last.{ForTable};
ghost use Rattle.hg_root.specs.Reading.{Gives, thread_at, threads_at};

use crate::fault::RootFault;
use crate::piece::{alive_of, take_times, u8_at, u16_at, u32_at};
use hg_model::held::{HeldLock, HeldLocks};
use hg_model::limits::{MOST_HELD, THREAD_NUMBERS};
use hg_model::thread::ThreadState;
use std::alloc::Global;

/// Whether the locks rise.
fn do_rise(locks: &[HeldLock]) -> bool
    ensures { IsTrue result ↔ IsStrictlyIncreasing (map (λ h. h.lock) locks.now) }
{
    for i in 1..locks.len() {
        if locks[i - 1].lock >= locks[i].lock {
            return false;
        }
    }
    true
}

/// The locks of a thread, if they rise and are no more than it may hold.
fn held_of(locks: &[HeldLock]) -> Option<HeldLocks>
    ensures { MatchOption result (¬ AreHeld locks.now) (λ held. (held ≡ locks.now) × AreHeld locks.now) }
{
    if locks.len() > MOST_HELD || !do_rise(locks) {
        return None;
    }
    let mut held = HeldLocks::new();
    for i in 0..locks.len() {
        held.add(locks[i]);
    }
    Some(held)
}

/// Whether this is the last segment of that thread.
fn is_last(lasts: &[Option<u32>], thread: u16, last: u32) -> bool
    requires { length lasts.now ≡ THREAD_NUMBERS }
    ensures { IsTrue result ↔ ((thread < THREAD_NUMBERS) × (slice_index_or lasts.now thread None ≡ Some last)) }
{
    let place = usize::from(thread);
    place < THREAD_NUMBERS && lasts[place] == Some(last)
}

/// A thread. Its last segment has to be the one in the table.
fn thread_of<'a>(
    alloc: Global,
    lasts: &[Option<u32>],
    bytes: &'a [u8],
) -> Result<(ThreadState, &'a [u8]), RootFault>
    requires { length lasts.now ≡ THREAD_NUMBERS }
    ensures { ForTable lasts.now (λ segments. Gives (λ x. (x.0, x.1.now)) result (thread_at segments bytes.now)) }
{
    let (number, rest) = u16_at(bytes)?;
    let (alive, rest) = alive_of(rest)?;
    let (last, rest) = u32_at(rest)?;
    let (count, rest) = u8_at(rest)?;
    let (locks, rest) = take_times(alloc, count as u32, rest)?;
    if !is_last(lasts, number, last) {
        return Err(RootFault::Damaged);
    }
    match held_of(&locks) {
        Some(held) => Ok((
            ThreadState {
                number,
                alive,
                held,
            },
            rest,
        )),
        None => Err(RootFault::Damaged),
    }
}

/// So many threads, one after the other.
pub(crate) fn threads_of<'a>(
    alloc: Global,
    lasts: &[Option<u32>],
    count: u16,
    bytes: &'a [u8],
) -> Result<(Vec<ThreadState>, &'a [u8]), RootFault>
    requires { length lasts.now ≡ THREAD_NUMBERS }
    ensures { ForTable lasts.now (λ s. Gives (λ x. (x.0.items, x.1.now)) result (threads_at s count bytes.now)) }
{
    let mut threads = Vec::new(alloc);
    let mut rest = bytes;
    for _ in 0..count {
        let (thread, after) = thread_of(alloc, lasts, rest)?;
        threads.push(thread)?;
        rest = after;
    }
    Ok((threads, rest))
}
