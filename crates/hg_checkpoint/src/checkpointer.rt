//! A checkpoint in progress.
ghost use Rattle.std.specs.Prelude.{◌≡◌, ◌≢◌, ◌⊎◌, ◌++◌, ◌+◌, Option, Some, None, Ok, Err, true, false, is_some, IsTrue, OnOk, OnErr, IfOk};
ghost use Rattle.hg_disk.specs.Calls.{CallsAtMost};
ghost use Rattle.hg_pool.specs.Calls.{FreezesOnOk};
ghost use Rattle.hg_pool.specs.Kept as pools;
ghost use Rattle.hg_pool.specs.Kept.{IsWhole, SameMap};
ghost use Rattle.hg_pool.specs.Maps.{disk_of, frozen, is_broken, live};
ghost use Rattle.hg_pool.specs.Shown.{HasSameLimits};
ghost use Rattle.hg_pool.specs.Tables.{IsNameable};
ghost use Rattle.hg_root.specs.Pairs as pairs;
ghost use Rattle.hg_checkpoint.specs.Phases.{BreaksBy, IfRefused, IfWrongPhase, Never, failed_calls};
ghost use Rattle.hg_checkpoint.specs.declared.phase.Phase.TheVariants.{Idle};

use crate::cause::Cause;
use crate::phase::{CheckpointFault, Phase};
use crate::rows::pages_in;
use hg_disk::Disk;
use hg_pool::Pool;
use hg_root::{RootHead, RootPair};
use std::alloc::{AllocError, Global};
use std::snapshot::Snapshot;

/// Two root files, and the state of the next checkpoint. Its pages are written by the pool's own `take_job` and `put`.
pub struct Checkpointer<D: Disk> {
    roots: RootPair<D>,
    phase: Phase,
    /// The number of the newest root, or 0.
    number: u64,
    /// The number of the root in progress.
    next: u64,
    head: Option<RootHead>,
    /// The body of the root in progress, once it is written. A snapshot: only contracts see it, and it takes no memory.
    body: Snapshot<Vec<u8>>,
    /// Whether a device call of a checkpoint failed.
    is_broken: bool,
    ghost headed: { phase ≢ Idle → is_some head ≡ true },
    ghost roots_work: { is_broken ≡ false → pairs.IsWorking roots },
}

impl<D: Disk + Drop> Drop for Checkpointer<D> {
    fn drop(self) {
        let Checkpointer {
            roots,
            phase: _,
            number: _,
            next: _,
            head,
            body,
            is_broken: _,
        } = self;
        drop(roots);
        drop(head);
        drop(body);
    }
}

impl<D: Disk> Checkpointer<D> {
    ghost use Rattle.hg_checkpoint.specs.Calls.{AnswersNumber, ChangesHead, CountsRoots, DraftIsNewElsewhere, DraftIsNext, IsAllowedIn, IsAllowedToSeal, IsDrafted, IsOfDevice, IsOfFreezing, IsOfSealing, IsOfWriting, KeepsBodyAndHead, KeepsFile, KeepsHead, KeepsRootsAndHead, LeavesEither, LeavesRoots, LeavesSlots, OpensNext, RootCallsAtMost, RootsStayOnOk, SealsSurely, SpellsBody, StandsBy, StaysNext, StaysNextOver, StaysOrBreaks, StaysStanding};

    // Whether a call of this phase is allowed.
    fn ready(&self, phase: Phase) -> Result<(), CheckpointFault>
        ensures phase { IsAllowedIn phase Never self.now result }
        ensures device { BreaksBy self.now.is_broken result }
        ensures no_call { failed_calls result ≡ 0 }
    {
        if self.is_broken {
            return Err(CheckpointFault::Refused(Cause::Broken));
        }
        if self.phase != phase {
            return Err(CheckpointFault::WrongPhase(self.phase));
        }
        Ok(())
    }

    /// How far the checkpoint in progress is.
    pub fn phase(&self) -> Phase
        ensures { result ≡ self.now.phase }
    {
        self.phase
    }

    /// The number of the newest root, or 0 if there is none.
    pub fn number(&self) -> u64
        ensures { result ≡ self.now.number }
    {
        self.number
    }

    /// A checkpointer without a checkpoint in progress. `number` is that of the newest root of the pair, or 0 if there is
    /// none.
    pub fn new(alloc: Global, roots: RootPair<D>, number: u64) -> Checkpointer<D>
        requires works { pairs.IsWorking roots }
        ensures roots { result.roots ≡ roots }
        ensures number { result.number ≡ number }
        ensures phase { result.phase ≡ Phase.Idle }
        ensures works { result.is_broken ≡ false }
        ensures stands { StandsBy roots result }
    {
        let body = Vec::new(alloc);
        Checkpointer {
            roots,
            phase: Phase::Idle,
            number,
            next: 0,
            head: None,
            body: Snapshot::of(&body),
            is_broken: false,
        }
    }

    /// The two root files, as the calls left them.
    pub fn into_roots(self) -> RootPair<D>
        ensures { result ≡ self.roots }
    {
        let Checkpointer {
            roots,
            phase: _,
            number: _,
            next: _,
            head,
            body,
            is_broken: _,
        } = self;
        drop(head);
        drop(body);
        roots
    }

    /// Freezes the map of words of the pool, for a root with this head and this number, which is greater than that of the newest one. A
    /// refusal changes nothing. It makes no device call.
    pub fn freeze(
        &mut self,
        pool: &mut Pool<D>,
        head: RootHead,
        number: u64,
    ) -> Result<(), CheckpointFault>
        ensures phase { IsAllowedIn Phase.Idle (IsOfFreezing pool.old) self.old result }
        ensures frozen { OnOk result (self.new.phase ≡ Phase.Flushing) }
        ensures refused { OnErr result ((self.new ≡ self.old) × (pool.new ≡ pool.old)) }
        ensures no_call { failed_calls result ≡ 0 }
        ensures head { OnOk result ((self.new.head ≡ Some head) × (self.new.next ≡ number)) }
        ensures rest { ChangesHead self.old self.new }
        ensures live { SameMap (live ⟦<D as Disk>⟧ pool.old) (live ⟦<D as Disk>⟧ pool.new) }
        ensures words { FreezesOnOk ⟦<D as Disk>⟧ pool.old pool.new result }
        ensures whole { IsWhole ⟦<D as Disk>⟧ pool.old → IsWhole ⟦<D as Disk>⟧ pool.new }
        ensures pool { KeepsFile pool.old pool.new }
        ensures limits { HasSameLimits pool.old pool.new }
        ensures stands { StaysStanding self.old pool.old self.new pool.new }
        ensures draft { IsDrafted self.new pool.old pool.new head number result }
    {
        if let Err(fault) = self.ready(Phase::Idle) {
            return Err(fault);
        }
        match pool.freeze() {
            Ok(()) => {
                self.head = Some(head);
                self.next = number;
                self.phase = Phase::Flushing;
                Ok(())
            }
            Err(fault) => Err(CheckpointFault::Refused(Cause::from(fault))),
        }
    }

    // The body of the root in progress. It names the pages of the frozen table.
    fn body_of(&self, alloc: Global, pool: &Pool<D>) -> Result<Vec<u8>, AllocError>
        requires { self.now.phase ≡ Phase.Prepared }
        ensures { SpellsBody self.now pool.now result }
    {
        let pages = pages_in(alloc, pool.frozen_table())?;
        match &self.head {
            None => Err(AllocError),
            Some(head) => head.with_pages(alloc, &pages),
        }
    }

    /// Makes the pages of the frozen map durable, once all are written. It takes no memory.
    pub fn seal_pages(&mut self, pool: &mut Pool<D>) -> Result<(), CheckpointFault>
        ensures phase { IsAllowedToSeal (IsOfSealing pool.old) self.old pool.old result }
        ensures unchanged { IfWrongPhase ((self.new ≡ self.old) × (pool.new ≡ pool.old)) result }
        ensures sealed { OnOk result ((self.new.phase ≡ Phase.Sealed) × IsTrue pool.new.is_sealed) }
        ensures works { OnOk result (self.new.is_broken ≡ false) }
        ensures refused_phase { OnErr result (self.new.phase ≡ self.old.phase) }
        ensures succeeds { SealsSurely self.old pool.old pool.new result }
        ensures device { BreaksBy self.new.is_broken result }
        ensures count { D.failures (disk_of pool.new) ≡ failed_calls result + D.failures (disk_of pool.old) }
        ensures calls { CallsAtMost ⟦<D as Disk>⟧ 1 (disk_of pool.old) (disk_of pool.new) }
        ensures breaks { OnErr result (StaysOrBreaks self.old pool.old self.new pool.new) }
        ensures rest { KeepsRootsAndHead self.old self.new }
        ensures stays { pools.Stays ⟦<D as Disk>⟧ pool.old pool.new }
        ensures pool { pool.new ≡ record pool.old { file = pool.new.file; is_sealed = pool.new.is_sealed } }
        ensures stands { StaysStanding self.old pool.old self.new pool.new }
        ensures any_moment { LeavesSlots self.old pool.old pool.new }
        ensures next { DraftIsNext self.old pool.old self.new pool.new result }
        ensures elsewhere { DraftIsNewElsewhere self.old pool.old pool.new result }
    {
        if let Err(fault) = self.ready_to_seal(pool) {
            return Err(fault);
        }
        match pool.seal() {
            Ok(()) => {
                self.phase = Phase::Sealed;
                Ok(())
            }
            Err(fault) => {
                self.is_broken = true;
                Err(CheckpointFault::Refused(Cause::from(fault)))
            }
        }
    }

    // Whether the pages may be sealed: all are written.
    fn ready_to_seal(&self, pool: &Pool<D>) -> Result<(), CheckpointFault>
        ensures phase { IsAllowedToSeal Never self.now pool.now result }
        ensures device { BreaksBy self.now.is_broken result }
        ensures no_call { failed_calls result ≡ 0 }
        ensures nameable { IsNameable pool.now.slots pool.now.frozen }
    {
        let _table = pool.frozen_table();
        if self.is_broken {
            return Err(CheckpointFault::Refused(Cause::Broken));
        }
        if self.phase != Phase::Flushing {
            return Err(CheckpointFault::WrongPhase(self.phase));
        }
        if !pool.all_written() {
            return Err(CheckpointFault::WrongPhase(self.phase));
        }
        Ok(())
    }

    /// Closes the file that the next root goes to. It makes no device call if the file is closed already.
    pub fn prepare_root(&mut self) -> Result<(), CheckpointFault>
        ensures phase { IsAllowedIn Phase.Sealed IsOfDevice self.old result }
        ensures unchanged { IfWrongPhase (self.new ≡ self.old) result }
        ensures prepared { OnOk result (self.new.phase ≡ Phase.Prepared) }
        ensures works { OnOk result (self.new.is_broken ≡ false) }
        ensures refused_phase { OnErr result (self.new.phase ≡ self.old.phase) }
        ensures stands { RootsStayOnOk self.old self.new result }
        ensures any_moment { LeavesRoots self.old self.new }
        ensures device { BreaksBy self.new.is_broken result }
        ensures count { CountsRoots self.old self.new (failed_calls result) }
        ensures calls { RootCallsAtMost 2 self.old self.new }
        ensures breaks { OnErr result ((self.new ≡ self.old) ⊎ IsTrue self.new.is_broken) }
        ensures rest { KeepsBodyAndHead self.old self.new }
        ensures next { StaysNext self.old self.new }
    {
        if let Err(fault) = self.ready(Phase::Sealed) {
            return Err(fault);
        }
        match self.roots.prepare() {
            Ok(()) => {
                self.phase = Phase::Prepared;
                Ok(())
            }
            Err(fault) => {
                self.is_broken = true;
                Err(CheckpointFault::Refused(Cause::from(fault)))
            }
        }
    }

    /// Makes the body of the root, which names the pages of the frozen table, and writes it behind the closed gate of its
    /// file. If memory is refused, nothing is changed and the call can be made again.
    pub fn write_root(&mut self, alloc: Global, pool: &Pool<D>) -> Result<(), CheckpointFault>
        ensures phase { IsAllowedIn Phase.Prepared IsOfWriting self.old result }
        ensures unchanged { IfWrongPhase (self.new ≡ self.old) result }
        ensures written { OnOk result (self.new.phase ≡ Phase.Written) }
        ensures works { OnOk result (self.new.is_broken ≡ false) }
        ensures refused_phase { OnErr result (self.new.phase ≡ self.old.phase) }
        ensures stands { RootsStayOnOk self.old self.new result }
        ensures any_moment { LeavesRoots self.old self.new }
        ensures device { BreaksBy self.new.is_broken result }
        ensures count { CountsRoots self.old self.new (failed_calls result) }
        ensures calls { RootCallsAtMost 4 self.old self.new }
        ensures refused { IfRefused (λ cause. cause ≡ Cause.OutOfMemory → self.new ≡ self.old) result }
        ensures breaks { OnErr result ((self.new ≡ self.old) ⊎ IsTrue self.new.is_broken) }
        ensures rest { KeepsHead self.old self.new }
        ensures next { StaysNextOver pool.now self.old self.new }
    {
        if let Err(fault) = self.ready(Phase::Prepared) {
            return Err(fault);
        }
        let Ok(body) = self.body_of(alloc, pool) else {
            return Err(CheckpointFault::Refused(Cause::OutOfMemory));
        };
        match self.roots.write(&body) {
            Ok(()) => {
                self.body = Snapshot::of(&body);
                self.phase = Phase::Written;
                Ok(())
            }
            Err(fault) => {
                self.is_broken = true;
                Err(CheckpointFault::Refused(Cause::from(fault)))
            }
        }
    }

    /// Opens the gate of the root that was written: from then on it is the newest one, and the slots of the former root are free. Answers
    /// its number.
    pub fn open_root(&mut self, pool: &mut Pool<D>) -> Result<u64, CheckpointFault>
        requires sealed { self.old.phase ≡ Phase.Written → IsTrue pool.old.is_sealed }
        ensures phase { IsAllowedIn Phase.Written IsOfDevice self.old result }
        ensures unchanged { IfWrongPhase (self.new ≡ self.old) result }
        ensures opened { OnOk result (self.new.phase ≡ Phase.Idle) }
        ensures works { OnOk result (self.new.is_broken ≡ false) }
        ensures refused_phase { OnErr result (self.new.phase ≡ self.old.phase) }
        ensures number { IfOk result (λ n. (n ≡ self.old.next) × (self.new.number ≡ self.old.next)) }
        ensures answers { AnswersNumber self.old pool.old result }
        ensures pool { OnOk result (pool.new ≡ record pool.old { root = pool.old.frozen }) }
        ensures same_pool { OnErr result (pool.new ≡ pool.old) }
        ensures device { BreaksBy self.new.is_broken result }
        ensures count { CountsRoots self.old self.new (failed_calls result) }
        ensures calls { RootCallsAtMost 2 self.old self.new }
        ensures breaks { OnErr result ((self.new ≡ self.old) ⊎ IsTrue self.new.is_broken) }
        ensures stands { OpensNext self.old pool.old self.new pool.new result }
        ensures any_moment { LeavesEither self.old pool.old self.new }
    {
        if let Err(fault) = self.ready(Phase::Written) {
            return Err(fault);
        }
        match self.roots.open_gate() {
            Ok(()) => {
                self.roots.take_turns();
                pool.root_opened();
                self.number = self.next;
                self.phase = Phase::Idle;
                Ok(self.number)
            }
            Err(fault) => {
                self.is_broken = true;
                Err(CheckpointFault::Refused(Cause::from(fault)))
            }
        }
    }
}
