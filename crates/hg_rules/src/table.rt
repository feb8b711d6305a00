//! The threads of a trace in a table by number, with the use of each lock.

ghost use Rattle.std.specs.Prelude.{◌≡◌, ◌<◌, ◌==◌, true, false, length, IfOk, nat_lt, nat_le, [], ◌∷◌, not};
ghost use Rattle.std.specs.Option.{option_copied};
ghost use Rattle.std.specs.List.{list_any};
ghost use Rattle.std.specs.List.Sorted.{IsStrictlyIncreasing};
ghost use Rattle.hg_model.specs.Locks.{has_lock, has_lock_for_writing};
ghost use Rattle.hg_model.specs.Verdicts.{has_thread, MayFollow};
ghost use Rattle.hg_model.specs.Change.{change, dead, locks_of, threads_after, with_thread};
ghost use Rattle.hg_model.specs.Holding.{hold_event};
ghost use Rattle.hg_model.specs.Restoring.{is_next};
ghost use Rattle.hg_rules.specs.Tables.{readers_in};

use crate::places::{add_at, are_empty, empty_slots, end_at, remove_at, slot, started_in};
use hg_model::event::{Event, Hold, HoldKind};
use hg_model::held::{HeldLock, HeldLocks};
use hg_model::limits::{LOCK_NUMBERS, MOST_HELD, THREAD_NUMBERS};
use hg_model::thread::ThreadState;
use std::alloc::{AllocError, Global};
use std::marker::Model;

/// Who holds a lock: so many threads for reading (none where it is free), or one for writing.
#[derive(Clone, Copy, Debug, PartialEq, Eq)]
pub(crate) enum LockUse {
    Reading(u16),
    Writing,
}

/// The threads that were started. A contract sees the list of them, by rising number.
///
/// Threads stand at their numbers and each lock has an entry, so that a look-up takes one step, however many
/// threads there are. The tables are made at once (some 800 KiB), and no later call takes memory.
#[derive(Drop)]
pub(crate) struct ThreadTable {
    slots: Vec<Option<ThreadState>>,
    uses: Vec<LockUse>,
}

impl Model for ThreadTable {
    ghost use Rattle.std.specs.Prelude.{List};
    ghost use Rattle.hg_model.specs.declared.thread.ThreadState.{ThreadState};

    ghost Value = { List ThreadState };

    ghost use Rattle.hg_rules.specs.Tables.{started, TablesAgree};

    ghost view = { λ s. started s.slots.items };

    ghost invariant = { λ s. TablesAgree s.slots.items s.uses.items };
}

impl ThreadTable {
    ghost use Rattle.std.specs.Prelude.{Bool};
    ghost use Rattle.hg_model.specs.declared.thread.ThreadState.{ThreadState};
    ghost use Rattle.hg_rules.specs.Tables.{test_at, counted_at, use_of};

    /// No thread.
    pub(crate) fn empty(alloc: Global) -> Result<Self, AllocError>
        ensures { IfOk result (λ s. s ≡ []) }
    {
        Ok(ThreadTable {
            slots: empty_slots(alloc)?,
            uses: vec![in alloc; LockUse::Reading(0); LOCK_NUMBERS]?,
        })
    }

    /// Thread 0 alone, alive.
    pub(crate) fn new(alloc: Global) -> Result<Self, AllocError>
        ensures { IfOk result (λ s. s ≡ record { number = 0; alive = true; held = [] } ∷ []) }
    {
        let mut table = ThreadTable::empty(alloc)?;
        table.start(0);
        Ok(table)
    }

    /// A copy of the threads.
    pub(crate) fn list(&self, alloc: Global) -> Result<Vec<ThreadState>, AllocError>
        ensures { IfOk result (λ threads. threads.items ≡ self.now) }
    {
        started_in(alloc, &self.slots)
    }

    /// Whether that number is up to 1,023 and above those of all threads in the table.
    pub(crate) fn is_next(&self, t: u16) -> bool
        ensures { result ≡ is_next self.now t }
    {
        let place = usize::from(t);
        place < THREAD_NUMBERS && are_empty(&self.slots[place..])
    }

    /// Changes the threads by an event that was accepted.
    #[inline(always)]
    pub(crate) fn follow(&mut self, event: Event)
        requires { MayFollow self.old event }
        ensures { self.new ≡ threads_after event self.old }
    {
        match event {
            Event::Fork { p: _, c } => self.start(c),
            Event::Join { p: _, c } => self.end(c),
            Event::Lock { t, l } => self.lock(t, l),
            Event::RdLock { t, l } => self.read_lock(t, l),
            Event::Unlock { t, l } => self.unlock(t, l),
            Event::Read(_) | Event::Write(_) | Event::Alloc(_) | Event::Free(_) => {}
            Event::Send { t: _, k: _ } | Event::Recv { t: _, k: _ } => {}
        }
    }

    /// Changes the locks of a thread by an accepted hold.
    #[inline(always)]
    pub(crate) fn follow_hold(&mut self, hold: Hold)
        requires { MayFollow self.old (hold_event hold) }
        ensures { self.new ≡ threads_after (hold_event hold) self.old }
    {
        match hold.kind {
            HoldKind::Lock => self.lock(hold.t, hold.l),
            HoldKind::RdLock => self.read_lock(hold.t, hold.l),
            HoldKind::Unlock => self.unlock(hold.t, hold.l),
        }
    }

    /// The thread of that number, where it was started.
    #[inline]
    fn thread(&self, t: u16) -> Option<&ThreadState>
        ensures test { (test : ThreadState → Bool) → has_thread self.now t test ≡ test_at test (option_copied result) }
        ensures counted { (write : Bool) → locks_of self.now t write ≡ counted_at write (option_copied result) }
    {
        slot(&self.slots, t)
    }

    #[inline]
    pub(crate) fn is_alive(&self, t: u16) -> bool
        ensures { result ≡ has_thread self.now t (λ x. x.alive) }
    {
        match self.thread(t) {
            Some(x) => x.alive,
            None => false,
        }
    }

    pub(crate) fn is_used(&self, t: u16) -> bool
        ensures { result ≡ list_any (λ x. x.number == t) self.now }
    {
        self.thread(t).is_some()
    }

    /// Whether the thread holds that lock, in any mode. Where no thread holds the lock, the thread is not looked at.
    pub(crate) fn holds(&self, t: u16, l: u16) -> bool
        ensures { result ≡ has_thread self.now t (λ x. has_lock x.held l) }
    {
        if !self.is_held(l) {
            return false;
        }
        match self.thread(t) {
            Some(x) => x.held.has(l),
            None => false,
        }
    }

    pub(crate) fn holds_some(&self, t: u16) -> bool
        ensures { result ≡ has_thread self.now t (λ x. nat_lt 0 (length x.held)) }
    {
        match self.thread(t) {
            Some(x) => x.held.as_slice().len() > 0,
            None => false,
        }
    }

    /// Whether the thread holds as many locks as a thread may.
    pub(crate) fn holds_most(&self, t: u16) -> bool
        ensures { result ≡ has_thread self.now t (λ x. nat_le MOST_HELD (length x.held)) }
    {
        match self.thread(t) {
            Some(x) => x.held.as_slice().len() >= MOST_HELD,
            None => false,
        }
    }

    fn lock_use(&self, l: u16) -> LockUse
        ensures { result ≡ use_of self.now l }
    {
        self.uses[usize::from(l)]
    }

    /// Whether some thread holds the lock.
    pub(crate) fn is_held(&self, l: u16) -> bool
        ensures { result ≡ list_any (λ x. has_lock x.held l) self.now }
    {
        match self.lock_use(l) {
            LockUse::Reading(readers) => readers > 0,
            LockUse::Writing => true,
        }
    }

    /// Whether some thread holds the lock for writing.
    pub(crate) fn is_held_for_writing(&self, l: u16) -> bool
        ensures { result ≡ list_any (λ x. has_lock_for_writing x.held l) self.now }
    {
        match self.lock_use(l) {
            LockUse::Reading(_) => false,
            LockUse::Writing => true,
        }
    }

    /// The locks that count for an access by that thread.
    #[inline]
    pub(crate) fn counted(&self, t: u16, write: bool) -> &[u16]
        ensures value { result.now ≡ locks_of self.now t write }
        ensures rising { IsStrictlyIncreasing result.now }
    {
        match self.thread(t) {
            Some(x) => x.held.counted(write),
            None => &[],
        }
    }

    /// Starts a thread.
    pub(crate) fn start(&mut self, c: u16)
        requires number { c < THREAD_NUMBERS }
        requires fresh { list_any (λ x. x.number == c) self.old ≡ false }
        ensures { self.new ≡ with_thread (record { number = c; alive = true; held = [] }) self.old }
    {
        self.slots[usize::from(c)] = Some(ThreadState {
            number: c,
            alive: true,
            held: HeldLocks::new(),
        });
    }

    /// Ends a thread.
    pub(crate) fn end(&mut self, c: u16)
        requires { has_thread self.old c (λ x. x.alive) ≡ true }
        ensures { self.new ≡ change c dead self.old }
    {
        end_at(&mut self.slots[usize::from(c)]);
    }

    /// Gives a thread a lock for writing.
    pub(crate) fn lock(&mut self, t: u16, l: u16)
        requires used { has_thread self.old t (λ x. not (nat_le MOST_HELD (length x.held))) ≡ true }
        requires is_free { list_any (λ x. has_lock x.held l) self.old ≡ false }
        ensures { self.new ≡ threads_after (Event.Lock t l) self.old }
    {
        add_at(
            &mut self.slots[usize::from(t)],
            HeldLock {
                lock: l,
                write: true,
            },
        );
        self.uses[usize::from(l)] = LockUse::Writing;
    }

    /// Gives a thread a lock for reading.
    pub(crate) fn read_lock(&mut self, t: u16, l: u16)
        requires used { has_thread self.old t (λ x. not (nat_le MOST_HELD (length x.held))) ≡ true }
        requires absent { has_thread self.old t (λ x. has_lock x.held l) ≡ false }
        requires no_writer { list_any (λ x. has_lock_for_writing x.held l) self.old ≡ false }
        ensures { self.new ≡ threads_after (Event.RdLock t l) self.old }
    {
        let lock = HeldLock {
            lock: l,
            write: false,
        };
        add_at(&mut self.slots[usize::from(t)], lock);
        let readers = readers_of(self.uses[usize::from(l)]);
        self.uses[usize::from(l)] = LockUse::Reading(readers + 1);
    }

    /// Takes a lock from a thread.
    fn unlock(&mut self, t: u16, l: u16)
        requires { has_thread self.old t (λ x. has_lock x.held l) ≡ true }
        ensures { self.new ≡ threads_after (Event.Unlock t l) self.old }
    {
        remove_at(&mut self.slots[usize::from(t)], l);
        let readers = readers_of(self.uses[usize::from(l)]);
        self.uses[usize::from(l)] = LockUse::Reading(readers.saturating_sub(1));
    }
}

/// How many threads hold a lock for reading.
fn readers_of(lock_use: LockUse) -> u16
    ensures { result ≡ readers_in lock_use }
{
    match lock_use {
        LockUse::Reading(readers) => readers,
        LockUse::Writing => 0,
    }
}
