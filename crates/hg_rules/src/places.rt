//! The places of a table of threads. Each has a thread or none.

ghost use Rattle.std.specs.Prelude.{◌≡◌, ◌<◌, ◌∷◌, ◌++◌, [], None, false, length, slice_index_or, IfOk, IfSome, OnOk, is_some, not, replicate};
ghost use Rattle.std.specs.Option.{option_copied, option_map};
ghost use Rattle.std.specs.List.{list_all};
ghost use Rattle.hg_model.specs.declared.limits.TheConstants.{MOST_HELD};
ghost use Rattle.hg_model.specs.Locks.{has_lock, with_hold, without_lock};
ghost use Rattle.hg_model.specs.Change.{dead, with_held};
ghost use Rattle.hg_rules.specs.Tables.{started};

use hg_model::held::HeldLock;
use hg_model::limits::THREAD_NUMBERS;
use hg_model::thread::ThreadState;
use std::alloc::{AllocError, Global};

/// The places of a table with no thread.
pub(crate) fn empty_slots(alloc: Global) -> Result<Vec<Option<ThreadState>>, AllocError>
    ensures { IfOk result (λ v. v.items ≡ replicate THREAD_NUMBERS None) }
{
    let mut slots = Vec::with_capacity(alloc, THREAD_NUMBERS)?;
    for _ in 0..THREAD_NUMBERS {
        slots.push(None)?;
    }
    Ok(slots)
}

/// The thread of that number, if it was started.
#[inline]
pub(crate) fn slot(slots: &[Option<ThreadState>], t: u16) -> Option<&ThreadState>
    ensures { option_copied result ≡ slice_index_or slots.now t None }
{
    match slots.get(usize::from(t)) {
        Some(Some(x)) => Some(x),
        _ => None,
    }
}

/// Whether no thread stands at these places.
pub(crate) fn are_empty(slots: &[Option<ThreadState>]) -> bool
    ensures { result ≡ list_all (λ slot. not (is_some slot)) slots.now }
{
    slots.iter().all(|slot| slot.is_none())
}

/// Appends a copy of the thread of a place, if there is one.
fn push_started(
    slot: &Option<ThreadState>,
    threads: &mut Vec<ThreadState>,
) -> Result<(), AllocError>
    ensures { OnOk result (threads.new.items ≡ threads.old.items ++ started (slot.now ∷ [])) }
{
    match slot {
        Some(thread) => {
            threads.push(thread.copy())?;
            Ok(())
        }
        None => Ok(()),
    }
}

/// The threads that stand at these places.
pub(crate) fn started_in(
    alloc: Global,
    slots: &[Option<ThreadState>],
) -> Result<Vec<ThreadState>, AllocError>
    ensures { IfOk result (λ threads. threads.items ≡ started slots.now) }
{
    let mut threads = Vec::new(alloc);
    for slot in slots {
        push_started(slot, &mut threads)?;
    }
    Ok(threads)
}

/// Ends the thread of a place.
pub(crate) fn end_at(slot: &mut Option<ThreadState>)
    ensures { slot.new ≡ option_map dead slot.old }
{
    if let Some(x) = slot {
        x.alive = false;
    }
}

/// Gives the thread of a place a lock.
pub(crate) fn add_at(slot: &mut Option<ThreadState>, lock: HeldLock)
    requires { IfSome slot.old (λ x. (length x.held < MOST_HELD) × (has_lock x.held lock.lock ≡ false)) }
    ensures { slot.new ≡ option_map (λ x. with_held x (with_hold lock x.held)) slot.old }
{
    if let Some(x) = slot {
        x.held.add(lock);
    }
}

/// Takes a lock from the thread of a place.
pub(crate) fn remove_at(slot: &mut Option<ThreadState>, lock: u16)
    ensures { slot.new ≡ option_map (λ x. with_held x (without_lock lock x.held)) slot.old }
{
    if let Some(x) = slot {
        x.held.remove(lock);
    }
}
