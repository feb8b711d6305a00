//! The store.

ghost use Rattle.std.specs.Prelude.{◌≡◌, ◌≤◌, Ok, Err, true, IsTrue};
ghost use Rattle.hg_journal.specs.Journal.{failed_after};
ghost use Rattle.hg_store.specs.Steps.{CommitDone};
ghost use Rattle.hg_store.specs.Store.{CommitCalls, StandMeanwhile};
ghost use Rattle.hg_store.specs.Images.{FailuresBecome};

use crate::devices::Devices;
use crate::steps::StorePhase;
use hg_checkpoint::{Checkpointer, Phase};
use hg_detect::detector::Detector;
use hg_disk::Disk;
use hg_journal::journal::MAX_BATCH_EVENTS;
use hg_journals::JournalPair;
use hg_model::event::Named;
use hg_model::report::Report;
use hg_model::segment::Segment;
use hg_model::verdict::Refusal;
use hg_pool::Pool;
use std::alloc::Global;
use std::marker::Model;
use std::snapshot::Snapshot;

/// The most accepted events that may wait for a commit: as many as a batch of a journal may have.
pub const MOST_PENDING: usize = MAX_BATCH_EVENTS;

/// A store: all accepted events, and which of them are durable.
///
/// After a failed write, cut or sync each call answers `Broken`. To go on, take the devices back and recover the store.
pub struct Store<D: Disk> {
    pub(crate) journals: JournalPair<D>,
    pub(crate) detector: Detector<Pool<D>>,
    pub(crate) checkpointer: Checkpointer<D>,
    /// The detector with the durable events only. A snapshot: only contracts see it.
    pub(crate) committed: Snapshot<Detector<Pool<D>>>,
    /// The detector at the last freeze. A snapshot: only contracts see it.
    pub(crate) frozen: Snapshot<Detector<Pool<D>>>,
    pub(crate) pending: Vec<Named>,
    pub(crate) durable: u64,
    /// How many events the newest open root counts.
    pub(crate) counted: u64,
    /// How many events there were at the last freeze: the next root counts these.
    pub(crate) counting: u64,
    pub(crate) is_broken: bool,
    pub(crate) in_doubt: bool,
}

impl<D: Disk + Drop> Drop for Store<D> {
    fn drop(self) {
        let Store {
            journals,
            detector,
            checkpointer,
            committed: _,
            frozen: _,
            pending,
            durable: _,
            counted: _,
            counting: _,
            is_broken: _,
            in_doubt: _,
        } = self;
        drop(journals);
        drop(detector);
        drop(checkpointer);
        drop(pending);
    }
}

impl<D: Disk> Model for Store<D> {
    ghost use Rattle.std.specs.Prelude.{vec_capacity};
    ghost use Rattle.hg_store.specs.Kept.{IsSound, shown_of};
    ghost use Rattle.hg_store.specs.Shown.{ShownStore};

    ghost Value = { ShownStore D };

    ghost view = { λ s. shown_of ⟦<D as Disk>⟧ (record { journals = s.journals; detector = s.detector; checkpointer = s.checkpointer; committed = s.committed.value; frozen = s.frozen.value; pending = s.pending.items; durable = s.durable; counted = s.counted; counting = s.counting; is_broken = s.is_broken; in_doubt = s.in_doubt }) };

    ghost invariant = { λ s. IsSound ⟦<D as Disk>⟧ (record { journals = s.journals; detector = s.detector; checkpointer = s.checkpointer; committed = s.committed.value; frozen = s.frozen.value; pending = s.pending.items; durable = s.durable; counted = s.counted; counting = s.counting; is_broken = s.is_broken; in_doubt = s.in_doubt }) (vec_capacity s.pending) };
}

impl<D: Disk> Store<D> {
    /// Makes all accepted events durable, and answers their count. It makes at most four calls of the current journal, and calls
    /// no other device, and none if no event is pending. It takes no memory. A crash during it leaves the events of the last commit, or all
    /// accepted ones.
    pub fn commit(&mut self) -> Result<u64, Refusal>
        ensures done { CommitDone ⟦<D as Disk>⟧ self.old self.new result }
        ensures calls { CommitCalls ⟦<D as Disk>⟧ 4 self.old self.new }
        ensures device { FailuresBecome ⟦<D as Disk>⟧ self.old.devices self.new.devices (failed_after result) }
        ensures images { IsTrue D.is_honest → StandMeanwhile ⟦<D as Disk>⟧ self.old self.new true }
    {
        if self.is_broken {
            return Err(Refusal::Broken);
        }
        let events = self.detector.state().events();
        if self.pending.is_empty() {
            self.durable = events;
            self.committed = Snapshot::of(&self.detector);
            return Ok(events);
        }
        match self.journals.append(&self.pending) {
            Ok(()) => {
                self.pending.clear();
                self.durable = events;
                self.committed = Snapshot::of(&self.detector);
                Ok(events)
            }
            Err(refusal) => {
                self.is_broken = true;
                self.in_doubt = true;
                Err(refusal)
            }
        }
    }

    /// The devices as they are. The pending events are lost.
    pub fn into_devices(self) -> Devices<D>
        ensures { result ≡ self.devices }
    {
        let Store {
            journals,
            detector,
            checkpointer,
            committed: _,
            frozen: _,
            pending,
            durable: _,
            counted: _,
            counting: _,
            is_broken: _,
            in_doubt: _,
        } = self;
        drop(pending);
        let (journal0, journal1) = journals.into_disks();
        let (root0, root1) = checkpointer.into_roots().into_disks();
        Devices {
            journal0,
            journal1,
            slots: detector.into_words().into_disks().into_disks(),
            root0,
            root1,
        }
    }
}
