//! One step after another.

ghost use Rattle.std.specs.Prelude.{◌≡◌, ◌++◌, ◌∷◌, IsTrue, IfOk, IfErr};
ghost use Rattle.hg_store.specs.Doing.{ContentDone, StandDuring, StepDone, fails_by};
ghost use Rattle.hg_store.specs.Store.{Backs, JournalCallsAtMost};
ghost use Rattle.hg_store.specs.Images.{FailuresBecome};
ghost use Rattle.hg_store.specs.Shown.{broken_or_no_memory};
ghost use Rattle.hg_store.specs.Runs.{HasDriven, HasStepped};

use crate::steps::{Step, StepResult};
use crate::store::Store;
use hg_disk::Disk;
use hg_model::verdict::Refusal;
use std::alloc::Global;
use std::snapshot::Snapshot;

/// The answer of a step, and a snapshot of the store when the step began: only contracts see the snapshot.
#[derive(Drop)]
pub struct StepAnswer<D: Disk> {
    pub result: StepResult,
    pub began: Snapshot<Store<D>>,
}

impl<D: Disk> Store<D> {
    /// One step. `Freeze` and `WriteRoot` take memory.
    pub fn step(&mut self, alloc: Global, step: &Step) -> StepResult
        ensures done { StepDone ⟦<D as Disk>⟧ self.old self.new step.now result }
        ensures content { IsTrue D.is_honest → ContentDone ⟦<D as Disk>⟧ self.old self.new step.now result }
        ensures device { FailuresBecome ⟦<D as Disk>⟧ self.old.devices self.new.devices (fails_by result) }
        ensures calls { JournalCallsAtMost ⟦<D as Disk>⟧ 5 self.old self.new }
        ensures images { IsTrue D.is_honest → StandDuring ⟦<D as Disk>⟧ step.now self.old self.new }
    {
        let _ = &self.pending;
        match step {
            Step::Offer(named) => StepResult::Offered(self.offer(named)),
            Step::Commit => StepResult::Committed(self.commit()),
            Step::Freeze => StepResult::Frozen(self.freeze(alloc)),
            Step::TakeJob => StepResult::Taken(self.take_job()),
            Step::Put(page) => StepResult::Put(self.put(page)),
            Step::SealPages => StepResult::Sealed(self.seal_pages()),
            Step::PrepareRoot => StepResult::Prepared(self.prepare_root()),
            Step::WriteRoot => StepResult::Written(self.write_root(alloc)),
            Step::OpenRoot => StepResult::Opened(self.open_root()),
            Step::Evict => StepResult::Evicted(self.evict()),
            Step::Load(page) => StepResult::Loaded(self.load(page)),
            Step::Retire => StepResult::Retired(self.retire()),
        }
    }

    // Makes one step, and keeps a snapshot of the store when it began.
    fn answered(&mut self, alloc: Global, step: &Step) -> StepAnswer<D>
        ensures began { result.began.value ≡ self.old }
        ensures done { StepDone ⟦<D as Disk>⟧ self.old self.new step.now result.result }
        ensures content { IsTrue D.is_honest → ContentDone ⟦<D as Disk>⟧ self.old self.new step.now result.result }
        ensures device { FailuresBecome ⟦<D as Disk>⟧ self.old.devices self.new.devices (fails_by result.result) }
        ensures backs { IsTrue D.is_honest → Backs ⟦<D as Disk>⟧ self.new }
        ensures images { IsTrue D.is_honest → StandDuring ⟦<D as Disk>⟧ step.now self.old self.new }
    {
        let _ = &self.pending;
        let began = Snapshot::of(&*self);
        let result = self.step(alloc, step);
        self.stands();
        StepAnswer { result, began }
    }

    /// Runs the steps `done` and then `last`, and gives the answer of each. Room for the answers is made first. If it is
    /// refused, or the store is broken, nothing was changed.
    ///
    /// This is what a store is for. Take any steps, also those of a checkpoint, and a crash at any moment, between device
    /// calls or inside one. The devices then have the content of the acknowledged events: those that were accepted before
    /// the last commit that answered `Ok`. Only during a commit, and after one that a device fault ended, they may have the
    /// content of all accepted events instead.
    pub fn drive(
        &mut self,
        alloc: Global,
        done: &[Step],
        last: &Step,
    ) -> Result<Vec<StepAnswer<D>>, Refusal>
        ensures run { IsTrue D.is_honest → IfOk result (HasDriven ⟦<D as Disk>⟧ self.old self.new done.now last.now) }

        // On any devices, each step has one answer, and leaves the store as the next step finds it.
        ensures each { IfOk result (HasStepped ⟦<D as Disk>⟧ self.old self.new done.now last.now) }

        ensures err { IfErr result (λ refusal. (self.new ≡ self.old) × (refusal ≡ broken_or_no_memory self.old)) }
        ensures broken { IsTrue self.old.is_broken → IfErr result (λ refusal. refusal ≡ Refusal.Broken) }
    {
        if self.is_broken {
            return Err(Refusal::Broken);
        }
        let Ok(mut answers) = Vec::with_capacity(alloc, done.len() + 1) else {
            return Err(Refusal::OutOfMemory);
        };
        self.stands();
        for step in done {
            answers.push_reserved(self.answered(alloc, step));
        }
        answers.push_reserved(self.answered(alloc, last));
        Ok(answers)
    }
}
