//! Roots that were read, written again.

ghost use Rattle.std.specs.Prelude.{◌≡◌, ◌<◌, ◌≤◌, IfOk, length};
ghost use Rattle.std.specs.List.{AllByRecursion};
ghost use Rattle.hg_model.specs.declared.limits.TheConstants.{THREAD_NUMBERS};
ghost use Rattle.hg_root.specs.Grammar.{LockFits, ThreadFits};
ghost use Rattle.hg_root.specs.Lawful.{IsLawful};
ghost use Rattle.hg_root.specs.Roots.{parts_of};

use crate::threads::{is_alive, is_among, last_of};
use hg_graph::Graph;
use hg_model::held::{HeldLock, HeldLocks};
use hg_model::limits::{GREATEST_THREAD, MOST_HELD};
use hg_model::segment::Segment;
use hg_model::thread::ThreadState;
use hg_root::{HeadParts, Root, RootFault, RootHead};
use hg_rules::state::TraceState;
use hg_test_kit::digits::bytes_of;
use hg_test_kit::text::Text;
use std::alloc::{AllocError, Global};

/// Adds a lock, where the thread does not hold it and holds less than 64.
fn add_lock(lock: u16, write: bool, held: &mut HeldLocks)
    requires { AllByRecursion LockFits held.old }
    ensures { AllByRecursion LockFits held.new }
{
    if held.as_slice().len() < MOST_HELD && !held.has(lock) {
        held.add(HeldLock { lock, write });
    }
}

/// The locks that a thread holds, as the trace state shows them.
fn held_of(state: &TraceState, thread: u16) -> HeldLocks
    ensures { AllByRecursion LockFits result }
{
    let mut held = HeldLocks::new();
    let writing = state.counted(thread, true);
    for lock in state.counted(thread, false) {
        add_lock(*lock, is_among(*lock, writing), &mut held);
    }
    held
}

/// A thread, as the trace state shows it.
fn thread_of(state: &TraceState, number: u16) -> ThreadState
    ensures number { result.number ≡ number }
    ensures fits { ThreadFits result }
{
    let held = held_of(state, number);
    let _holds = held.as_slice();
    ThreadState {
        number,
        alive: is_alive(state, number),
        held,
    }
}

/// The threads that segments name, as the trace state shows them.
fn threads_of(
    alloc: Global,
    state: &TraceState,
    segments: &[Segment],
) -> Result<Vec<ThreadState>, AllocError>
    ensures count { IfOk result (λ threads. length threads.items ≤ THREAD_NUMBERS) }
    ensures numbers { IfOk result (λ threads. AllByRecursion (λ t. t.number < THREAD_NUMBERS) threads.items) }
    ensures fits { IfOk result (λ threads. AllByRecursion ThreadFits threads.items) }
{
    let mut threads = Vec::new(alloc);
    for number in 0..GREATEST_THREAD + 1 {
        if last_of(segments, number).is_some() {
            threads.push(thread_of(state, number))?;
        }
    }
    Ok(threads)
}

/// The body of a root with the parts of this one, made of a graph that is restored.
fn write_again(alloc: Global, root: Root) -> Result<Vec<u8>, AllocError>
    requires { IsLawful (parts_of root) }
{
    let threads = threads_of(alloc, &root.state, &root.segments)?;
    let Root {
        number,
        state,
        segments,
        sets,
        total,
        reports,
        sources,
        pages,
    } = root;
    let graph = Graph::restore(alloc, segments)?;
    let parts = HeadParts {
        number,
        events: state.events(),
        graph: &graph,
        threads: &threads,
        sets: &sets,
        total,
        reports: &reports,
        sources: &sources,
    };
    RootHead::encode(alloc, &parts)?.with_pages(alloc, &pages)
}

fn put_again(alloc: Global, root: Root, out: &mut Text)
    requires { IsLawful (parts_of root) }
{
    match write_again(alloc, root) {
        Ok(body) => out.put_hex(&body),
        Err(_) => out.put(b"no memory"),
    }
}

/// Reads a root from these bytes, and tells its bytes written again.
pub fn tell_again(alloc: Global, digits: &str, out: &mut Text) {
    let Some(body) = bytes_of(alloc, digits) else {
        out.put(b"no bytes");
        return;
    };
    match Root::decode(alloc, &body) {
        Ok(root) => put_again(alloc, root, out),
        Err(RootFault::Damaged) => out.put(b"damaged"),
        Err(_) => out.put(b"no memory"),
    }
}
