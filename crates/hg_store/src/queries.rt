//! The queries of a store.

ghost use Rattle.std.specs.Prelude.{◌≡◌, ◌≢◌, ◌⊎◌, ◌+◌, Ok, Err, false, length, IsTrue, OnOk, IfOk, IfErr};
ghost use Rattle.hg_model.specs.ThreadSets.{HasThreadSets};
ghost use Rattle.hg_journal.specs.Journal.{IsOfReading, failed_after};
ghost use Rattle.hg_store.specs.Shown.{HasCounted, IsSameButJournal, broken_or_no_memory, live, most_reads, phase_of, unless_broken};
ghost use Rattle.hg_store.specs.Store.{Backs, HasFoundEvents, HasItsEvents, HasItsNumber, JournalCallsAtMost};
ghost use Rattle.hg_store.specs.Images.{FailuresBecome, KeepImages};

use crate::steps::StorePhase;
use crate::store::{MOST_PENDING, Store};
use hg_disk::Disk;
use hg_model::event::Named;
use hg_model::report::Report;
use hg_model::segment::Segment;
use hg_model::verdict::Refusal;
use std::alloc::Global;

impl<D: Disk> Store<D> {
    /// Does nothing: its contract says what the store stands for.
    pub fn stands(&self)
        ensures backs { IsTrue D.is_honest → Backs ⟦<D as Disk>⟧ self.now }
        ensures count { IsTrue D.is_honest → HasCounted ⟦<D as Disk>⟧ self.now }
        ensures sets { IsTrue D.is_honest → HasThreadSets (live ⟦<D as Disk>⟧ self.now) }
        ensures newest { IsTrue D.is_honest → self.now.is_broken ≡ false → HasItsNumber ⟦<D as Disk>⟧ self.now }
        ensures kept { IsTrue D.is_honest → self.now.is_broken ≡ false → HasItsEvents ⟦<D as Disk>⟧ self.now }
    {
        let _ = &self.pending;
    }

    /// The count of the accepted events.
    pub fn events(&self) -> Result<u64, Refusal>
        ensures { result ≡ unless_broken self.now (live ⟦<D as Disk>⟧ self.now).events }
    {
        if self.is_broken {
            return Err(Refusal::Broken);
        }
        Ok(self.detector.state().events())
    }

    /// The count of the durable events.
    pub fn durable(&self) -> Result<u64, Refusal>
        ensures { result ≡ unless_broken self.now self.now.durable }
    {
        if self.is_broken {
            return Err(Refusal::Broken);
        }
        Ok(self.durable)
    }

    /// How many more events may be accepted before a commit.
    pub fn room(&self) -> usize
        ensures { result + length self.now.pending ≡ MOST_PENDING }
    {
        MOST_PENDING - self.pending.len()
    }

    /// The last accepted number of a source, 0 if it sent nothing.
    pub fn last(&self, source: u16) -> Result<u64, Refusal>
        ensures { result ≡ unless_broken self.now ((live ⟦<D as Disk>⟧ self.now).last source) }
    {
        if self.is_broken {
            return Err(Refusal::Broken);
        }
        Ok(self.detector.last(source))
    }

    /// How many reports there were, kept or not.
    pub fn total(&self) -> Result<u64, Refusal>
        ensures { result ≡ unless_broken self.now (live ⟦<D as Disk>⟧ self.now).total }
    {
        if self.is_broken {
            return Err(Refusal::Broken);
        }
        Ok(self.detector.total())
    }

    /// The phase of the store: its events and its next checkpoint.
    pub fn phase(&self) -> Result<StorePhase, Refusal>
        ensures { result ≡ unless_broken self.now (phase_of self.now) }
    {
        if self.is_broken {
            return Err(Refusal::Broken);
        }
        Ok(self.phase_now())
    }

    /// The kept reports, at most 65,536.
    pub fn reports(&self, alloc: Global) -> Result<Vec<Report>, Refusal>
        ensures reports { IfOk result (λ reports. reports.items ≡ (live ⟦<D as Disk>⟧ self.now).reports) }
        ensures refusal { IfErr result (λ refusal. refusal ≡ broken_or_no_memory self.now) }
        ensures broken { IsTrue self.now.is_broken → result ≡ Err Refusal.Broken }
    {
        if self.is_broken {
            return Err(Refusal::Broken);
        }
        Ok(self.detector.reports(alloc)?)
    }

    /// The thread segments in the order of opening.
    pub fn graph(&self) -> Result<&[Segment], Refusal>
        ensures segments { IfOk result (λ segments. segments.now ≡ (live ⟦<D as Disk>⟧ self.now).segments) }
        ensures works { OnOk result (self.now.is_broken ≡ false) }
        ensures broken { IfErr result (λ refusal. (refusal ≡ Refusal.Broken) × IsTrue self.now.is_broken) }
    {
        if self.is_broken {
            return Err(Refusal::Broken);
        }
        Ok(self.detector.segments())
    }

    /// The number of the first event that the journals keep; where they keep none, that is the count of the durable events
    /// and 1. It takes no memory.
    pub fn first_kept(&self) -> Result<u64, Refusal>
        ensures { result ≡ unless_broken self.now (self.now.turns.base + 1) }
    {
        if self.is_broken {
            return Err(Refusal::Broken);
        }
        Ok(self.journals.first_kept())
    }

    /// Durable events that the journals keep, at most `max`, from number `from` on; it begins with the first kept one where
    /// `from` is lower. Events are numbered from 1 on, whatever was given up. It calls each journal at most once for each
    /// kept event up to the last one that it finds, and takes memory for the answer and for one batch.
    pub fn durable_events(
        &mut self,
        alloc: Global,
        from: u64,
        max: usize,
    ) -> Result<Vec<Named>, Refusal>
        ensures events { HasFoundEvents ⟦<D as Disk>⟧ self.old from max result }
        ensures whole { IsTrue D.is_honest → IfErr result (λ refusal. refusal ≢ Refusal.Damaged) }
        ensures broken { IsTrue self.old.is_broken → (result ≡ Err Refusal.Broken) × (self.new ≡ self.old) }
        ensures works { IfErr result (λ refusal. refusal ≡ Refusal.Broken → IsTrue self.old.is_broken) }
        ensures refusal { IfErr result (λ refusal. IsOfReading refusal ⊎ (refusal ≡ Refusal.Broken)) }
        ensures device { FailuresBecome ⟦<D as Disk>⟧ self.old.devices self.new.devices (failed_after result) }
        ensures rest { IsSameButJournal self.old self.new }
        ensures calls { JournalCallsAtMost ⟦<D as Disk>⟧ (most_reads from max self.old) self.old self.new }
        ensures images { KeepImages ⟦<D as Disk>⟧ self.old.devices self.new.devices }
    {
        if self.is_broken {
            return Err(Refusal::Broken);
        }
        self.journals.collect(alloc, from, max)
    }
}
