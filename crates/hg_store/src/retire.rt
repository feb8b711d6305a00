//! Giving up the events that the newest root counts.

ghost use Rattle.std.specs.Prelude.{◌≡◌, IsTrue};
ghost use Rattle.hg_disk.specs.Calls.{CallsAtMost};
ghost use Rattle.hg_journal.specs.Journal.{failed_after};
ghost use Rattle.hg_store.specs.Images.{FailuresBecome};
ghost use Rattle.hg_store.specs.Shown.{KeepsLimits, other};
ghost use Rattle.hg_store.specs.Steps.{RetireDone};
ghost use Rattle.hg_store.specs.Store.{StandMeanwhile};

use crate::store::Store;
use hg_disk::Disk;
use hg_model::verdict::Refusal;

impl<D: Disk> Store<D> {
    /// If both journals are open, and the newest open root counts the events up to the first one of the current journal,
    /// closes the older one, and answers true: its events are no longer kept. Else does nothing, and answers false. Any
    /// phase allows it. It makes at most two calls of the older journal, calls no other device, and takes no memory. After
    /// a failed call the store is broken.
    pub fn retire(&mut self) -> Result<bool, Refusal>
        ensures done { RetireDone self.old self.new result }
        ensures calls { CallsAtMost ⟦<D as Disk>⟧ 2 (other self.old) (other self.new) }
        ensures device { FailuresBecome ⟦<D as Disk>⟧ self.old.devices self.new.devices (failed_after result) }
        ensures images { IsTrue D.is_honest → StandMeanwhile ⟦<D as Disk>⟧ self.old self.new self.old.in_doubt }
        ensures limits { KeepsLimits self.old self.new }
    {
        if self.is_broken {
            return Err(Refusal::Broken);
        }
        match self.journals.retire(self.counted) {
            Ok(retired) => Ok(retired),
            Err(refusal) => {
                self.is_broken = true;
                Err(refusal)
            }
        }
    }
}
