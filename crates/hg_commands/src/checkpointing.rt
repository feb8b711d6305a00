//! A checkpoint, from the freeze to its open root and to the events that it counts, which are given up. Each step comes in its phase, so none
//! is refused for that.

ghost use Rattle.std.specs.Prelude.{◌≡◌, Ok, false, IfErr, IfOk, IsTrue, OnOk};
ghost use Rattle.hg_streams.specs.Faults.{IsStreamFault};
ghost use Rattle.hg_streams.specs.Told.{told_refusal};
ghost use Rattle.hg_pool.specs.Calls.{IsStale};
ghost use Rattle.hg_checkpoint.specs.declared.phase.Phase.TheVariants as phase;
ghost use Rattle.hg_store.specs.Runs.{Makes};
ghost use Rattle.hg_store.specs.Shown.{words};
ghost use Rattle.hg_store.specs.Steps.{IsRetired, SameButJournals};
ghost use Rattle.hg_commands.specs.FeedRunning.{StaysFed, WasStepped, failed_of};
ghost use Rattle.hg_commands.specs.GivingUp.{GivesUp, turned};
ghost use Rattle.hg_commands.specs.Stepping.{KeepsStep, OpensFrozen, OpensLive, StaysKept};
ghost use Rattle.hg_commands.specs.FeedFaults.{HasFlushed, IsCheckpointFault, IsToldBy, LosesOne, Rests, WorksIn, WritesOne, refusal_by};

use crate::lines::Feeding;
use crate::moment::Moment;
use hg_checkpoint::Cause;
use hg_disk::Disk;
use hg_model::verdict::Refusal;
use hg_store::made::MadeStep;
use hg_store::steps::{EncodedPage, Put, Step, StepFault, StepResult};
use hg_store::store::Store;
use hg_streams::output::Output;
use std::alloc::Global;
use std::snapshot::Snapshot;

/// The refusal that ends feeding where a step of a checkpoint was not made.
fn refusal_of(fault: StepFault) -> Refusal
    ensures told { result ≡ refusal_by fault }
    ensures counted { told_refusal result ≡ failed_of fault }
{
    match fault {
        StepFault::WrongPhase(_) => Refusal::Broken,
        StepFault::Refused(cause) => Refusal::from(cause),
    }
}

impl<D: Disk, W> Feeding<D, W> {
    /// Keeps the moment after a step of a checkpoint, and passes its answer on, a fault as what ends feeding. `began` is the store before
    /// the step, and `done` what the answer has.
    fn note_step<T>(
        &mut self,
        began: Snapshot<Store<D>>,
        step: &Step,
        answer: &StepResult,
        done: Result<T, StepFault>,
        output: &Output<W>,
    ) -> Result<T, Refusal>
        requires stepped { WasStepped ⟦<D as Disk>⟧ began.value self.old.store done }
        requires made { Makes ⟦<D as Disk>⟧ began.value self.old.store step.now answer.now }
        ensures store { self.new.store ≡ self.old.store }
        ensures answer { IfOk result (λ answer. done ≡ Ok answer) }
        ensures stays { StaysFed ⟦<D as Disk>⟧ began.value self.new.store result }
        ensures told { IfErr result (IsToldBy done) }
        ensures kept { KeepsStep ⟦<D as Disk>⟧ began.value self.old output.now self.new }
    {
        self.store.stands();
        let made = MadeStep::of(began, step, answer);
        self.moments.push(Moment::behind(made, &self.store, output));
        match done {
            Ok(answer) => Ok(answer),
            Err(fault) => Err(refusal_of(fault)),
        }
    }

    /// Freezes the words, and has the journals take turns where a turn is due.
    fn freeze(&mut self, alloc: Global, output: &Output<W>) -> Result<(), Refusal>
        requires rests { Rests self.old.store }
        ensures stays { StaysFed ⟦<D as Disk>⟧ self.old.store self.new.store result }
        ensures frozen { OnOk result (self.new.store.frozen ≡ self.old.store.detector) }
        ensures turned { OnOk result (self.new.store.turns ≡ turned self.old.store) }
        ensures begun { OnOk result (WorksIn phase.Flushing self.new.store) }
        ensures cause { IfErr result (IsCheckpointFault ⟦<D as Disk>⟧ self.old.store self.new.store.devices) }
        ensures kept { StaysKept ⟦<D as Disk>⟧ self.old output.now self.new output.now }
    {
        self.store.stands();
        let began = Snapshot::of(&self.store);
        let done = self.store.freeze(alloc);
        let answer = StepResult::Frozen(done);
        self.note_step(began, &Step::Freeze, &answer, done, output)
    }

    /// Writes a page that waits.
    fn put(&mut self, page: EncodedPage, output: &Output<W>) -> Result<Put, Refusal>
        requires flushing { WorksIn phase.Flushing self.old.store }
        requires waits { ¬ IsStale (words self.old.store) page }
        ensures stays { StaysFed ⟦<D as Disk>⟧ self.old.store self.new.store result }
        ensures frozen { self.new.store.frozen ≡ self.old.store.frozen }
        ensures turns { self.new.store.turns ≡ self.old.store.turns }
        ensures flushing { OnOk result (WorksIn phase.Flushing self.new.store) }
        ensures written { OnOk result (LosesOne self.old.store self.new.store) }
        ensures cause { IfErr result IsStreamFault }
        ensures kept { StaysKept ⟦<D as Disk>⟧ self.old output.now self.new output.now }
    {
        let began = Snapshot::of(&self.store);
        let done = self.store.put(&page);
        let answer = StepResult::Put(done);
        self.note_step(began, &Step::Put(page), &answer, done, output)
    }

    /// Writes the page that is next, and answers whether there was one.
    fn write_page(&mut self, output: &Output<W>) -> Result<bool, Refusal>
        requires flushing { WorksIn phase.Flushing self.old.store }
        ensures stays { StaysFed ⟦<D as Disk>⟧ self.old.store self.new.store result }
        ensures frozen { self.new.store.frozen ≡ self.old.store.frozen }
        ensures turns { self.new.store.turns ≡ self.old.store.turns }
        ensures flushing { OnOk result (WorksIn phase.Flushing self.new.store) }
        ensures left { IfOk result (WritesOne self.old.store self.new.store) }
        ensures cause { IfErr result IsStreamFault }
        ensures kept { StaysKept ⟦<D as Disk>⟧ self.old output.now self.new output.now }
    {
        let job = match self.store.take_job() {
            Ok(Some(job)) => job,
            Ok(None) => return Ok(false),
            Err(fault) => return Err(refusal_of(fault)),
        };
        let Ok(page) = job.encode() else {
            return Err(Refusal::OutOfMemory);
        };
        self.put(page, output)?;
        Ok(true)
    }

    /// Writes the pages of the frozen words, until none waits.
    fn write_pages(&mut self, output: &Output<W>) -> Result<(), Refusal>
        requires flushing { WorksIn phase.Flushing self.old.store }
        ensures stays { StaysFed ⟦<D as Disk>⟧ self.old.store self.new.store result }
        ensures frozen { self.new.store.frozen ≡ self.old.store.frozen }
        ensures turns { self.new.store.turns ≡ self.old.store.turns }
        ensures flushed { OnOk result (HasFlushed self.new.store) }
        ensures cause { IfErr result IsStreamFault }
        ensures kept { StaysKept ⟦<D as Disk>⟧ self.old output.now self.new output.now }
    {
        while self.write_page(output)? {}
        Ok(())
    }

    /// Makes the pages durable.
    fn seal(&mut self, output: &Output<W>) -> Result<(), Refusal>
        requires flushed { HasFlushed self.old.store }
        ensures stays { StaysFed ⟦<D as Disk>⟧ self.old.store self.new.store result }
        ensures frozen { self.new.store.frozen ≡ self.old.store.frozen }
        ensures turns { self.new.store.turns ≡ self.old.store.turns }
        ensures sealed { OnOk result (WorksIn phase.Sealed self.new.store) }
        ensures cause { IfErr result IsStreamFault }
        ensures kept { StaysKept ⟦<D as Disk>⟧ self.old output.now self.new output.now }
    {
        let began = Snapshot::of(&self.store);
        let done = self.store.seal_pages();
        let answer = StepResult::Sealed(done);
        self.note_step(began, &Step::SealPages, &answer, done, output)
    }

    /// Closes the file that the root goes to.
    fn prepare(&mut self, output: &Output<W>) -> Result<(), Refusal>
        requires sealed { WorksIn phase.Sealed self.old.store }
        ensures stays { StaysFed ⟦<D as Disk>⟧ self.old.store self.new.store result }
        ensures frozen { self.new.store.frozen ≡ self.old.store.frozen }
        ensures turns { self.new.store.turns ≡ self.old.store.turns }
        ensures prepared { OnOk result (WorksIn phase.Prepared self.new.store) }
        ensures cause { IfErr result IsStreamFault }
        ensures kept { StaysKept ⟦<D as Disk>⟧ self.old output.now self.new output.now }
    {
        let began = Snapshot::of(&self.store);
        let done = self.store.prepare_root();
        let answer = StepResult::Prepared(done);
        self.note_step(began, &Step::PrepareRoot, &answer, done, output)
    }

    /// Writes the root behind its closed gate.
    fn write(&mut self, alloc: Global, output: &Output<W>) -> Result<(), Refusal>
        requires prepared { WorksIn phase.Prepared self.old.store }
        ensures stays { StaysFed ⟦<D as Disk>⟧ self.old.store self.new.store result }
        ensures frozen { self.new.store.frozen ≡ self.old.store.frozen }
        ensures turns { self.new.store.turns ≡ self.old.store.turns }
        ensures written { OnOk result (WorksIn phase.Written self.new.store) }
        ensures cause { IfErr result IsStreamFault }
        ensures kept { StaysKept ⟦<D as Disk>⟧ self.old output.now self.new output.now }
    {
        let began = Snapshot::of(&self.store);
        let done = self.store.write_root(alloc);
        let answer = StepResult::Written(done);
        self.note_step(began, &Step::WriteRoot, &answer, done, output)
    }

    /// Opens the root, and answers its number.
    fn open(&mut self, output: &Output<W>) -> Result<u64, Refusal>
        requires written { WorksIn phase.Written self.old.store }
        ensures stays { StaysFed ⟦<D as Disk>⟧ self.old.store self.new.store result }
        ensures opened { IsTrue D.is_honest → IfOk result (OpensFrozen ⟦<D as Disk>⟧ self.old self.new) }
        ensures counted { OnOk result (self.new.store.counted ≡ self.old.store.frozen.parts.events) }
        ensures turns { self.new.store.turns ≡ self.old.store.turns }
        ensures works { OnOk result (self.new.store.is_broken ≡ false) }
        ensures cause { IfErr result IsStreamFault }
        ensures kept { StaysKept ⟦<D as Disk>⟧ self.old output.now self.new output.now }
    {
        let began = Snapshot::of(&self.store);
        let done = self.store.open_root();
        let answer = StepResult::Opened(done);
        self.note_step(began, &Step::OpenRoot, &answer, done, output)
    }

    /// Gives up the events that the newest root counts, but for those of the current journal. Answers whether there were any.
    fn give_up(&mut self, output: &Output<W>) -> Result<bool, Refusal>
        requires works { self.old.store.is_broken ≡ false }
        ensures stays { StaysFed ⟦<D as Disk>⟧ self.old.store self.new.store result }
        ensures retired { IfOk result (IsRetired self.old.store self.new.store) }
        ensures same { SameButJournals self.old.store self.new.store }
        ensures works { OnOk result (self.new.store.is_broken ≡ false) }
        ensures cause { IfErr result IsStreamFault }
        ensures kept { StaysKept ⟦<D as Disk>⟧ self.old output.now self.new output.now }
    {
        let began = Snapshot::of(&self.store);
        let retired = self.store.retire();
        self.store.stands();
        let made = MadeStep::of(began, &Step::Retire, &StepResult::Retired(retired));
        self.moments.push(Moment::behind(made, &self.store, output));
        retired
    }

    /// Makes a checkpoint, up to its open root, and answers its number. All events are durable before, and the new root counts them.
    fn make_root(&mut self, alloc: Global, output: &Output<W>) -> Result<u64, Refusal>
        requires rests { Rests self.old.store }
        ensures stays { StaysFed ⟦<D as Disk>⟧ self.old.store self.new.store result }
        ensures made { IsTrue D.is_honest → IfOk result (OpensLive ⟦<D as Disk>⟧ self.old self.new) }
        ensures counted { OnOk result (self.new.store.counted ≡ self.old.store.detector.parts.events) }
        ensures turned { OnOk result (self.new.store.turns ≡ turned self.old.store) }
        ensures works { OnOk result (self.new.store.is_broken ≡ false) }
        ensures cause { IfErr result (IsCheckpointFault ⟦<D as Disk>⟧ self.old.store self.new.store.devices) }
        ensures kept { StaysKept ⟦<D as Disk>⟧ self.old output.now self.new output.now }
    {
        self.freeze(alloc, output)?;
        self.write_pages(output)?;
        self.seal(output)?;
        self.prepare(output)?;
        self.write(alloc, output)?;
        self.open(output)
    }

    /// Makes a checkpoint and answers its number. All events are durable before. At `Ok` it is the newest checkpoint of each image of the
    /// devices, and of the events that it counts those of the current journal alone are kept. No event is lost or added meanwhile, and each
    /// image has the same content.
    pub fn make_checkpoint(&mut self, alloc: Global, output: &Output<W>) -> Result<u64, Refusal>
        requires rests { Rests self.old.store }
        ensures stays { StaysFed ⟦<D as Disk>⟧ self.old.store self.new.store result }
        ensures made { IsTrue D.is_honest → IfOk result (OpensLive ⟦<D as Disk>⟧ self.old self.new) }
        ensures given_up { IsTrue D.is_honest → OnOk result (GivesUp self.old.store self.new.store) }
        ensures works { OnOk result (self.new.store.is_broken ≡ false) }
        ensures cause { IfErr result (IsCheckpointFault ⟦<D as Disk>⟧ self.old.store self.new.store.devices) }
        ensures kept { StaysKept ⟦<D as Disk>⟧ self.old output.now self.new output.now }
    {
        self.store.stands();
        let number = self.make_root(alloc, output)?;
        self.store.stands();
        self.give_up(output)?;
        Ok(number)
    }
}
