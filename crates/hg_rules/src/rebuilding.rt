//! Rebuilding a table from its threads.

ghost use Rattle.std.specs.Prelude.{◌≡◌, ◌↔◌, ◌++◌, ◌∷◌, [], true, false, length, nat_le, not, IsTrue, IfOk, IfErr};
ghost use Rattle.std.specs.List.{list_any};
ghost use Rattle.hg_model.specs.declared.limits.TheConstants.{MOST_HELD};
ghost use Rattle.hg_model.specs.Locks.{has_lock, with_hold};
ghost use Rattle.hg_model.specs.Verdicts.{has_thread};
ghost use Rattle.hg_model.specs.Change.{change, with_held};
ghost use Rattle.hg_model.specs.Restoring.{AreThreads, RefusesUnless, excludes, fits, holds_alive};

use crate::table::ThreadTable;
use hg_model::held::HeldLock;
use hg_model::thread::ThreadState;
use hg_model::verdict::Refusal;
use std::alloc::Global;

impl ThreadTable {
    /// The table of these threads. Damaged where one of them may not come after those before it. Its memory is taken
    /// before the first of them is looked at.
    pub(crate) fn restore(alloc: Global, threads: &[ThreadState]) -> Result<Self, Refusal>
        ensures value { IfOk result (λ s. (s ≡ threads.now) × AreThreads threads.now) }
        ensures refusal { IfErr result (RefusesUnless (AreThreads threads.now)) }
    {
        let mut table = ThreadTable::empty(alloc)?;
        if !table.fill(threads) {
            return Err(Refusal::Damaged);
        }
        Ok(table)
    }

    /// Adds these threads to an empty table. `false` where one of them may not come after those before it. Takes no memory.
    fn fill(&mut self, threads: &[ThreadState]) -> bool
        requires empty { self.old ≡ [] }
        ensures answer { IsTrue result ↔ AreThreads threads.now }
        ensures filled { IsTrue result → self.new ≡ threads.now }
    {
        for thread in threads {
            if !self.add(thread) {
                return false;
            }
        }
        true
    }

    /// Adds a thread with its locks, where it may come after the others.
    fn add(&mut self, thread: &ThreadState) -> bool
        ensures answer { result ≡ fits self.old thread.now }
        ensures added { result ≡ true → self.new ≡ self.old ++ thread.now ∷ [] }
    {
        if !self.is_next(thread.number) || !holds_alive_locks(thread) {
            return false;
        }
        self.start(thread.number);
        for hold in thread.held.as_slice() {
            if !self.hold(thread.number, *hold) {
                return false;
            }
        }
        if !thread.alive {
            self.end(thread.number);
        }
        true
    }

    /// Gives a thread a lock that it does not hold, unless a thread's hold excludes that.
    fn hold(&mut self, t: u16, hold: HeldLock) -> bool
        requires used { has_thread self.old t (λ x. not (nat_le MOST_HELD (length x.held))) ≡ true }
        requires absent { has_thread self.old t (λ x. has_lock x.held hold.lock) ≡ false }
        ensures answer { result ≡ not (list_any (excludes hold) self.old) }
        ensures held { result ≡ true → self.new ≡ change t (λ x. with_held x (with_hold hold x.held)) self.old }
    {
        if hold.write {
            if self.is_held(hold.lock) {
                return false;
            }
            self.lock(t, hold.lock);
        } else {
            if self.is_held_for_writing(hold.lock) {
                return false;
            }
            self.read_lock(t, hold.lock);
        }
        true
    }
}

/// Whether a thread is alive, or holds no lock.
fn holds_alive_locks(thread: &ThreadState) -> bool
    ensures { result ≡ holds_alive thread.now }
{
    thread.alive || thread.held.as_slice().len() == 0
}
