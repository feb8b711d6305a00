//! The locks that a thread holds, and those that count for an access.

ghost use Rattle.std.specs.Prelude.{◌≡◌, IfOk, map, filter};
ghost use Rattle.hg_model.specs.Locks as locks;

use hg_model::event::Event;
use hg_model::held::HeldLock;
use std::alloc::{AllocError, Global};

/// The holds with one more, by rising lock number.
fn with_hold(alloc: Global, hold: HeldLock, holds: &[HeldLock]) -> Result<Vec<HeldLock>, AllocError>
    ensures { IfOk result (λ v. v.items ≡ locks.with_hold hold holds.now) }
{
    let Some((first, others)) = holds.split_first() else {
        let mut one = Vec::new(alloc);
        one.push(hold)?;
        return Ok(one);
    };
    if hold.lock < first.lock {
        let mut more = holds.to_vec(alloc)?;
        more.insert(0, hold)?;
        return Ok(more);
    }
    if hold.lock == first.lock {
        let mut more = others.to_vec(alloc)?;
        more.insert(0, hold)?;
        return Ok(more);
    }
    let mut more = with_hold(alloc, hold, others)?;
    more.insert(0, *first)?;
    Ok(more)
}

/// All locks that a thread holds, by rising lock number.
pub fn held(alloc: Global, past: &[Event], thread: u16) -> Result<Vec<HeldLock>, AllocError>
    ensures { IfOk result (λ v. v.items ≡ locks.held past.now thread) }
{
    let Some((event, earlier)) = past.split_first() else {
        return Ok(Vec::new(alloc));
    };
    let before = held(alloc, earlier, thread)?;
    match *event {
        Event::Lock { t, l } if t == thread => with_hold(
            alloc,
            HeldLock {
                lock: l,
                write: true,
            },
            &before,
        ),
        Event::RdLock { t, l } if t == thread => with_hold(
            alloc,
            HeldLock {
                lock: l,
                write: false,
            },
            &before,
        ),
        Event::Unlock { t, l } if t == thread => {
            Ok(
                before
                    .iter()
                    .copied()
                    .filter(|h| h.lock != l)
                    .collect(alloc)?,
            )
        }
        _ => Ok(before),
    }
}

/// The locks that count for an access.
pub fn counted(alloc: Global, write: bool, holds: &[HeldLock]) -> Result<Vec<u16>, AllocError>
    ensures { IfOk result (λ v. v.items ≡ locks.counted write holds.now) }
{
    if write {
        return locks_for_writing(alloc, holds);
    }
    all_locks(alloc, holds)
}

fn locks_for_writing(alloc: Global, holds: &[HeldLock]) -> Result<Vec<u16>, AllocError>
    ensures { IfOk result (λ v. v.items ≡ map (λ h. h.lock) (filter (λ h. h.write) holds.now)) }
{
    holds
        .iter()
        .filter(|h| h.write)
        .map(|h| h.lock)
        .collect(alloc)
}

fn all_locks(alloc: Global, holds: &[HeldLock]) -> Result<Vec<u16>, AllocError>
    ensures { IfOk result (λ v. v.items ≡ map (λ h. h.lock) holds.now) }
{
    holds.iter().map(|h| h.lock).collect(alloc)
}
