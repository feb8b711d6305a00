//! The steps of a checkpoint.

ghost use Rattle.std.specs.Prelude.{◌≡◌, ◌≢◌, ◌⊎◌, ◌+◌, ◌<◌, ◌≤◌, ◌^◌, Err, true, false, IsTrue, OnOk, OnErr, IfOk};
ghost use Rattle.hg_disk.specs.Calls.{CallsAtMost};
ghost use Rattle.hg_pool.specs.Calls.{HasWaited, IsNextJob, IsStale, LosesWritten};
ghost use Rattle.hg_checkpoint.specs.Phases.{Never};
ghost use Rattle.hg_checkpoint.specs.declared.phase.Phase.TheVariants as phase;
ghost use Rattle.hg_store.specs.Answers.{IfRefused, IsAllowed, breaks, breaks_by, failed_by, step_fault};
ghost use Rattle.hg_store.specs.Shown.{HasNextNumber, IsIn, KeepsLimits, live, other, phase_of, words};
ghost use Rattle.hg_store.specs.Store.{HasOpenedFrozen, StandMeanwhile};
ghost use Rattle.hg_store.specs.Images.{FailuresGrowBy, RootCallsAtMost};
ghost use Rattle.hg_store.specs.Steps.{SameButJournals, SameJournals};
ghost use Rattle.hg_store.specs.Doing.{BeginsWhenIdle, CountsFrozen, LeavesCurrent, OpensWhenWritten, PreparesWhenSealed, PutsInAnyPhase, SameNumbers, SameRoots, SameWords, SealsWhenFlushed, TakesTurns, TurnAnswers, WritesWhenPrepared, other_since};

use crate::steps::{StepFault, StorePhase};
use crate::store::Store;
use hg_checkpoint::{Cause, CheckpointFault, Phase, head_of};
use hg_disk::Disk;
use hg_pages::EncodedPage;
use hg_pool::{Job, Put};
use hg_root::MOST_CHECKPOINTS;
use std::alloc::Global;
use std::snapshot::Snapshot;

// Whether a step that was refused for this cause breaks the store: a device failed.
fn is_of_device(cause: Cause) -> bool
    ensures { result ≡ breaks cause }
{
    match cause {
        Cause::Broken => true,
        Cause::Damaged => false,
        Cause::DeviceFault => true,
        Cause::FullEvents => false,
        Cause::FullSlots => false,
        Cause::OutOfMemory => false,
    }
}

// Why a step was not made, by the fault of the checkpointer of a store that works and is in this phase. A device that
// failed breaks the store.
fn not_made(fault: CheckpointFault, phase: StorePhase, is_broken: &mut bool) -> StepFault
    requires { is_broken.old ≡ false }
    ensures told { result ≡ step_fault phase fault }
    ensures broken { is_broken.new ≡ breaks_by fault }
{
    match fault {
        CheckpointFault::WrongPhase(_) => StepFault::WrongPhase(phase),
        CheckpointFault::Refused(cause) => {
            *is_broken = is_of_device(cause);
            StepFault::Refused(cause)
        }
    }
}

impl<D: Disk> Store<D> {
    // The phase of the store: its events and its next checkpoint.
    pub(crate) fn phase_now(&self) -> StorePhase
        ensures { result ≡ phase_of self.now }
    {
        match self.checkpointer.phase() {
            Phase::Idle => {
                if self.pending.is_empty() {
                    StorePhase::Idle
                } else {
                    StorePhase::Pending
                }
            }
            Phase::Flushing => StorePhase::Flushing,
            Phase::Sealed => StorePhase::Sealed,
            Phase::Prepared => StorePhase::Prepared,
            Phase::Written => StorePhase::Written,
        }
    }

    // Begins a checkpoint of the durable events. It calls no device.
    fn begin(&mut self, alloc: Global) -> Result<(), StepFault>
        ensures done { BeginsWhenIdle self.old self.new result }
        ensures refused { OnErr result (self.new ≡ self.old) }
        ensures last { OnOk result (self.old.progress.number < MOST_CHECKPOINTS) }
        ensures no_call { failed_by result ≡ 0 }
        ensures undamaged { IsTrue D.is_honest → IfRefused (λ r. r ≢ Cause.Damaged) result }
        ensures number { OnOk result (HasNextNumber self.old self.new) }
        ensures devices { self.new.devices ≡ self.old.devices }
        ensures turns { self.new.turns ≡ self.old.turns }
        ensures counted { self.new.counted ≡ self.old.counted }
        ensures frozen { OnOk result (self.new.frozen ≡ self.old.detector) }
        ensures live { IsTrue D.is_honest → live ⟦<D as Disk>⟧ self.new ≡ live ⟦<D as Disk>⟧ self.old }
        ensures limits { KeepsLimits self.old self.new }
    {
        if self.is_broken {
            return Err(StepFault::Refused(Cause::Broken));
        }
        let phase = self.phase_now();
        if phase != StorePhase::Idle {
            return Err(StepFault::WrongPhase(phase));
        }
        let number = self.checkpointer.number();
        if number >= MOST_CHECKPOINTS {
            return Err(StepFault::Refused(Cause::FullEvents));
        }
        let _kept = self.detector.kept_reports();
        let head = head_of(alloc, number + 1, &self.detector)?;
        let counting = self.detector.state().events();
        let frozen = Snapshot::of(&self.detector);
        match self
            .checkpointer
            .freeze(self.detector.words_mut(), head, number + 1)
        {
            Ok(()) => {
                self.frozen = frozen;
                self.counting = counting;
                Ok(())
            }
            Err(CheckpointFault::WrongPhase(_)) => Err(StepFault::WrongPhase(self.phase_now())),
            Err(CheckpointFault::Refused(cause)) => Err(StepFault::Refused(cause)),
        }
    }

    // Has the journals take turns, where there is a spare one and the current one has an event.
    fn take_turns(&mut self) -> Result<(), StepFault>
        requires works { self.old.is_broken ≡ false }
        ensures answer { TurnAnswers self.old self.new result }
        ensures same { SameButJournals self.old self.new }
        ensures current { LeavesCurrent self.old self.new }
        ensures calls { CallsAtMost ⟦<D as Disk>⟧ 5 (other self.old) (other_since self.old self.new) }
        ensures device { FailuresGrowBy ⟦<D as Disk>⟧ self.old.devices self.new.devices (failed_by result) }
        ensures images { IsTrue D.is_honest → StandMeanwhile ⟦<D as Disk>⟧ self.old self.new self.old.in_doubt }
    {
        match self.journals.turn() {
            Ok(_) => Ok(()),
            Err(_) => {
                self.is_broken = true;
                Err(StepFault::Refused(Cause::DeviceFault))
            }
        }
    }

    /// Begins a checkpoint of the durable events; no event may be pending. The live map becomes the frozen one, and its
    /// changed pages wait to be written. Then the journals take turns, if there is a spare one and the current one has an
    /// event: the spare one is opened with the count of the durable events as its base, by five calls at most, and is the
    /// current one from then on.
    ///
    /// `FullEvents` if the newest root has the last number, `MOST_CHECKPOINTS`; else `FullSlots` or `OutOfMemory`, before
    /// any device call; or `DeviceFault`, which breaks the store.
    pub fn freeze(&mut self, alloc: Global) -> Result<(), StepFault>
        ensures done { BeginsWhenIdle self.old self.new result }
        ensures last { OnOk result (self.old.progress.number < MOST_CHECKPOINTS) }
        ensures undamaged { IsTrue D.is_honest → IfRefused (λ r. r ≢ Cause.Damaged) result }
        ensures number { OnOk result (HasNextNumber self.old self.new) }
        ensures frozen { OnOk result (self.new.frozen ≡ self.old.detector) }
        ensures turned { OnOk result (TakesTurns self.old self.new) }
        ensures current { LeavesCurrent self.old self.new }
        ensures counted { self.new.counted ≡ self.old.counted }
        ensures slots { self.new.devices.slots ≡ self.old.devices.slots }
        ensures roots { SameRoots self.old self.new }
        ensures calls { CallsAtMost ⟦<D as Disk>⟧ 5 (other self.old) (other_since self.old self.new) }
        ensures device { FailuresGrowBy ⟦<D as Disk>⟧ self.old.devices self.new.devices (failed_by result) }
        ensures live { IsTrue D.is_honest → live ⟦<D as Disk>⟧ self.new ≡ live ⟦<D as Disk>⟧ self.old }
        ensures images { IsTrue D.is_honest → StandMeanwhile ⟦<D as Disk>⟧ self.old self.new self.old.in_doubt }
        ensures limits { KeepsLimits self.old self.new }
    {
        let _ = &self.pending;
        match self.begin(alloc) {
            Ok(()) => self.take_turns(),
            Err(fault) => Err(fault),
        }
    }

    /// The waiting page with the least number, with its cells at the freeze, or none if no page waits. It calls no device.
    pub fn take_job(&self) -> Result<Option<Job>, StepFault>
        ensures allowed { IsAllowed self.now (IsIn phase.Flushing self.now) Never result }
        ensures job { IfOk result (IsNextJob (words self.now)) }
    {
        if self.is_broken {
            return Err(StepFault::Refused(Cause::Broken));
        }
        if self.checkpointer.phase() != Phase::Flushing {
            return Err(StepFault::WrongPhase(self.phase_now()));
        }
        Ok(self.detector.words().take_job())
    }

    /// Writes a page to the slot that was picked for it: `Written` if it waits and the bytes are those of its cells at the
    /// freeze, and then one page less waits. Else `Stale`: nothing was changed. It takes no memory.
    pub fn put(&mut self, page: &EncodedPage) -> Result<Put, StepFault>
        ensures journals { SameJournals self.old self.new }
        ensures done { PutsInAnyPhase self.old self.new result }
        ensures frozen { self.new.frozen ≡ self.old.frozen }
        ensures written { IfOk result (λ put. put ≡ Put.Written → HasWaited (words self.old) page.now) }
        ensures stale { IfOk result (λ put. put ≡ Put.Stale → IsStale (words self.old) page.now) }
        ensures nothing { IfOk result (λ put. put ≡ Put.Stale → self.new ≡ self.old) }
        ensures waiting { LosesWritten page.now.page (words self.old).waiting (words self.new).waiting result }
        ensures roots { SameRoots self.old self.new }
        ensures counted { self.new.counted ≡ self.old.counted }
        ensures progress { self.new.progress ≡ self.old.progress }
        ensures calls { CallsAtMost ⟦<D as Disk>⟧ 1 self.old.devices.slots self.new.devices.slots }
        ensures device { FailuresGrowBy ⟦<D as Disk>⟧ self.old.devices self.new.devices (failed_by result) }
        ensures live { IsTrue D.is_honest → live ⟦<D as Disk>⟧ self.new ≡ live ⟦<D as Disk>⟧ self.old }
        ensures images { IsTrue D.is_honest → StandMeanwhile ⟦<D as Disk>⟧ self.old self.new self.old.in_doubt }
        ensures limits { KeepsLimits self.old self.new }
    {
        if self.is_broken {
            return Err(StepFault::Refused(Cause::Broken));
        }
        match self.detector.words_mut().put(page) {
            Ok(put) => Ok(put),
            Err(fault) => {
                self.is_broken = true;
                Err(StepFault::Refused(Cause::from(fault)))
            }
        }
    }

    /// Makes the pages durable, once all are written. It takes no memory.
    pub fn seal_pages(&mut self) -> Result<(), StepFault>
        ensures journals { SameJournals self.old self.new }
        ensures done { SealsWhenFlushed self.old self.new result }
        ensures frozen { self.new.frozen ≡ self.old.frozen }
        ensures roots { SameRoots self.old self.new }
        ensures number { SameNumbers self.old self.new }
        ensures calls { CallsAtMost ⟦<D as Disk>⟧ 1 self.old.devices.slots self.new.devices.slots }
        ensures device { FailuresGrowBy ⟦<D as Disk>⟧ self.old.devices self.new.devices (failed_by result) }
        ensures live { IsTrue D.is_honest → live ⟦<D as Disk>⟧ self.new ≡ live ⟦<D as Disk>⟧ self.old }
        ensures images { IsTrue D.is_honest → StandMeanwhile ⟦<D as Disk>⟧ self.old self.new self.old.in_doubt }
        ensures limits { KeepsLimits self.old self.new }
    {
        if self.is_broken {
            return Err(StepFault::Refused(Cause::Broken));
        }
        let phase = self.phase_now();
        match self.checkpointer.seal_pages(self.detector.words_mut()) {
            Ok(()) => Ok(()),
            Err(fault) => Err(not_made(fault, phase, &mut self.is_broken)),
        }
    }

    /// Closes the file that the next root goes to. It makes no device call if the file is closed already, and takes no memory.
    pub fn prepare_root(&mut self) -> Result<(), StepFault>
        ensures journals { SameJournals self.old self.new }
        ensures done { PreparesWhenSealed self.old self.new result }
        ensures frozen { self.new.frozen ≡ self.old.frozen }
        ensures slots { SameWords self.old self.new }
        ensures number { SameNumbers self.old self.new }
        ensures calls { RootCallsAtMost ⟦<D as Disk>⟧ 2 self.old.devices self.new.devices }
        ensures device { FailuresGrowBy ⟦<D as Disk>⟧ self.old.devices self.new.devices (failed_by result) }
        ensures images { IsTrue D.is_honest → StandMeanwhile ⟦<D as Disk>⟧ self.old self.new self.old.in_doubt }
    {
        if self.is_broken {
            return Err(StepFault::Refused(Cause::Broken));
        }
        let phase = self.phase_now();
        match self.checkpointer.prepare_root() {
            Ok(()) => Ok(()),
            Err(fault) => Err(not_made(fault, phase, &mut self.is_broken)),
        }
    }

    /// Writes the root behind the closed gate of its file. `OutOfMemory` leaves the store as it is.
    pub fn write_root(&mut self, alloc: Global) -> Result<(), StepFault>
        ensures journals { SameJournals self.old self.new }
        ensures done { WritesWhenPrepared self.old self.new result }
        ensures frozen { self.new.frozen ≡ self.old.frozen }
        ensures slots { SameWords self.old self.new }
        ensures number { SameNumbers self.old self.new }
        ensures calls { RootCallsAtMost ⟦<D as Disk>⟧ 4 self.old.devices self.new.devices }
        ensures device { FailuresGrowBy ⟦<D as Disk>⟧ self.old.devices self.new.devices (failed_by result) }
        ensures images { IsTrue D.is_honest → StandMeanwhile ⟦<D as Disk>⟧ self.old self.new self.old.in_doubt }
    {
        if self.is_broken {
            return Err(StepFault::Refused(Cause::Broken));
        }
        let phase = self.phase_now();
        match self.checkpointer.write_root(alloc, self.detector.words()) {
            Ok(()) => Ok(()),
            Err(fault) => Err(not_made(fault, phase, &mut self.is_broken)),
        }
    }

    /// Opens the root: from then on it is the newest one, and the slots of the former one are free. Answers its number. It counts the
    /// events at the freeze. It takes
    /// no memory.
    pub fn open_root(&mut self) -> Result<u64, StepFault>
        ensures journals { SameJournals self.old self.new }
        ensures done { OpensWhenWritten self.old self.new result }
        ensures frozen { self.new.frozen ≡ self.old.frozen }
        ensures number { IfOk result (λ n. (n ≡ self.old.progress.next) × (self.new.progress.number ≡ n)) }
        ensures counted { CountsFrozen self.old self.new result }
        ensures slots { self.new.devices.slots ≡ self.old.devices.slots }
        ensures checkpoint { IsTrue D.is_honest → IfOk result (HasOpenedFrozen ⟦<D as Disk>⟧ self.old self.new) }
        ensures calls { RootCallsAtMost ⟦<D as Disk>⟧ 2 self.old.devices self.new.devices }
        ensures device { FailuresGrowBy ⟦<D as Disk>⟧ self.old.devices self.new.devices (failed_by result) }
        ensures live { live ⟦<D as Disk>⟧ self.new ≡ live ⟦<D as Disk>⟧ self.old }
        ensures images { IsTrue D.is_honest → StandMeanwhile ⟦<D as Disk>⟧ self.old self.new self.old.in_doubt }
        ensures limits { KeepsLimits self.old self.new }
    {
        if self.is_broken {
            return Err(StepFault::Refused(Cause::Broken));
        }
        let phase = self.phase_now();
        match self.checkpointer.open_root(self.detector.words_mut()) {
            Ok(number) => {
                self.counted = self.counting;
                Ok(number)
            }
            Err(fault) => Err(not_made(fault, phase, &mut self.is_broken)),
        }
    }
}
