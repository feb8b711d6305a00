//! Two root files that take turns.
ghost use Rattle.std.specs.Prelude.{◌≡◌, ◌∷◌, [], ℕ, Option, None, Err, IsOk, is_ok, OnOk, OnErr, IfOk, IfErr, IsTrue, IsErrOf, false, length};
ghost use Rattle.hg_disk.specs.Calls.{CallsAtMost};
ghost use Rattle.hg_disk.specs.Moments.{LeavesTorn};
ghost use Rattle.hg_gate.specs.Batches.{closed_gate};
ghost use Rattle.hg_root.specs.Fault.{IsBrokenOrDevice, failures_after};

use crate::fault::RootFault;
use crate::found::{are_turns_due, number_of, root_of};
use crate::root::Root;
use hg_disk::Disk;
use hg_gate::Gated;
use std::alloc::Global;
use std::mem::swap;

/// What two root files have.
#[derive(Drop)]
pub struct Newest {
    /// The newest open root, or none where both files are closed.
    pub root: Option<Root>,
    /// The root of the other file, or none if that file is closed.
    pub former: Option<Root>,
}

/// Two root files. The next root is written to the one that does not have the newest open root.
#[derive(Drop)]
pub struct RootPair<D: Disk> {
    older: Gated<D>,
    newer: Gated<D>,
    /// Whether the older file is known to be closed.
    is_closed: bool,
    /// Whether the newer file is known to be closed, since no root is open.
    is_other_closed: bool,
    /// Whether the older file is the second one.
    is_turned: bool,
}

impl<D: Disk> RootPair<D> {
    ghost use Rattle.hg_root.specs.Finding.{HaveOneNumber, AreWhole, ChoosesFrom, HasNoNewest, IsNewestOf, IsOnlyOf, IsWholeIn, StandsByChoice, StandsDurably, WasRead, root_in};
    ghost use Rattle.hg_root.specs.Making.{CountsMaking};
    ghost use Rattle.hg_root.specs.Pairs.{AreGates, CallsOlder, ClosesInTurn, IsEitherBroken, IsGate, IsWorking, LeavesEither, LeavesRoot, LeavesRoots, OpensNext, Prepares, PutsBody, ReadsWereTrue, Stands, StandsClosed, StandsOpened, StaysOnErr, failures, first_after, first_of, is_broken, is_closed, is_other_closed, is_turned, newer, older, second_after, second_of, turned};

    /// The pair of two files, whatever their bytes are. It makes no device call. Call `newest` first: it finds which of
    /// them has the newest open root.
    pub fn attach(root0: D, root1: D) -> RootPair<D>
        ensures first { first_of result ≡ root0 }
        ensures second { second_of result ≡ root1 }
        ensures works { IsWorking result }
        ensures unknown { (is_closed result ≡ false) × (is_other_closed result ≡ false) }
    {
        RootPair {
            older: Gated::attach(root0),
            newer: Gated::attach(root1),
            is_closed: false,
            is_other_closed: false,
            is_turned: false,
        }
    }

    /// Makes the pair of root files of a new store on two empty disks. Each file is one closed gate, durable. An `Err`
    /// hands the disks back: either a call of the first one failed and the second was not called, or the first is closed
    /// and a call of the second failed. It makes at most two device calls of each disk.
    pub fn create(root0: D, root1: D) -> Result<RootPair<D>, (D, D)>
        requires first { length (D.state root0).contents ≡ 0 }
        requires second { length (D.state root1).contents ≡ 0 }
        ensures gates { IfOk result (AreGates ⟦<D as Disk>⟧) }
        ensures stands { IfOk result (λ pair. Stands ⟦<D as Disk>⟧ pair None None) }
        ensures turn { IfOk result (λ pair. is_turned pair ≡ false) }
        ensures in_turn { IfErr result (ClosesInTurn ⟦<D as Disk>⟧ root1) }

        // A crash at any moment of the call, and one after an `Err`, leaves of each what a torn write of the gate may leave.
        ensures first_moments { LeavesTorn ⟦<D as Disk>⟧ 0 (closed_gate ∷ []) root0 (first_after result) }
        ensures second_moments { LeavesTorn ⟦<D as Disk>⟧ 0 (closed_gate ∷ []) root1 (second_after result) }

        ensures first_calls { CallsAtMost ⟦<D as Disk>⟧ 2 root0 (first_after result) }
        ensures second_calls { CallsAtMost ⟦<D as Disk>⟧ 2 root1 (second_after result) }
        ensures device { CountsMaking ⟦<D as Disk>⟧ root0 root1 result }
    {
        let first = match Gated::create(root0) {
            Ok(first) => first.into_disks(),
            Err(root0) => return Err((root0, root1)),
        };
        match Gated::create(root1) {
            Ok(second) => Ok(RootPair::of_closed(first, second.into_disks())),
            Err(root1) => Err((first, root1)),
        }
    }

    /// The pair of two files that are closed. It makes no device call.
    #[tactic(auto, using(crate::proofs::Pairs::gate_is_closed))]
    pub fn of_closed(root0: D, root1: D) -> RootPair<D>
        ensures first { first_of result ≡ root0 }
        ensures second { second_of result ≡ root1 }
        ensures works { IsWorking result }
        ensures turn { is_turned result ≡ false }
        ensures stands { StandsClosed ⟦<D as Disk>⟧ root0 root1 result }
        ensures gates { IsGate ⟦<D as Disk>⟧ root0 → IsGate ⟦<D as Disk>⟧ root1 →
            Stands ⟦<D as Disk>⟧ result None None }
    {
        RootPair {
            older: Gated::attach(root0),
            newer: Gated::attach(root1),
            is_closed: true,
            is_other_closed: true,
            is_turned: false,
        }
    }

    /// The two disks, the first file's first.
    pub fn into_disks(self) -> (D, D)
        ensures first { result.0 ≡ first_of self }
        ensures second { result.1 ≡ second_of self }
    {
        let RootPair {
            older,
            newer,
            is_closed: _,
            is_other_closed: _,
            is_turned,
        } = self;
        if is_turned {
            (newer.into_disks(), older.into_disks())
        } else {
            (older.into_disks(), newer.into_disks())
        }
    }

    /// The newest open root, or none if both files are closed, and the root of the other file. From then on the next root
    /// is written to this other file, or to the first file if none is open. `Damaged` exactly if there is no newest root: a
    /// file is empty, or is open with a length or a body outside the grammar, or both are open with the same number. It
    /// makes at most three device calls of each disk. After an `Err` the pair stands as before, and it can be tried again.
    pub fn newest(&mut self, alloc: Global) -> Result<Newest, RootFault>
        ensures found { ReadsWereTrue ⟦<D as Disk>⟧ self.new → IfOk result (IsNewestOf ⟦<D as Disk>⟧ self.old) }
        ensures only { ReadsWereTrue ⟦<D as Disk>⟧ self.new → IfOk result (IsOnlyOf ⟦<D as Disk>⟧ self.old) }
        ensures whole { IfOk result AreWhole }
        ensures stands { ReadsWereTrue ⟦<D as Disk>⟧ self.new → StandsDurably ⟦<D as Disk>⟧ self.old self.new result }
        ensures none_open { IfOk result (λ found. root_in found.root ≡ None → older self.new ≡ first_of self.new) }
        ensures damaged { ReadsWereTrue ⟦<D as Disk>⟧ self.new → IsErrOf result RootFault.Damaged → HasNoNewest ⟦<D as Disk>⟧ self.old }
        ensures stays { StaysOnErr ⟦<D as Disk>⟧ self.old self.new result }

        // Neither file is changed.
        ensures first { WasRead ⟦<D as Disk>⟧ (first_of self.old) (first_of self.new) }
        ensures second { WasRead ⟦<D as Disk>⟧ (second_of self.old) (second_of self.new) }

        ensures device { failures ⟦<D as Disk>⟧ self.new ≡ failures_after result (failures ⟦<D as Disk>⟧ self.old) }
        ensures broken { IsErrOf result RootFault.Broken → IsEitherBroken self.old }
        ensures works { OnOk result (IsWorking self.old × IsWorking self.new) }
    {
        let older = root_of(alloc, &mut self.older)?;
        let newer = root_of(alloc, &mut self.newer)?;
        self.choose(older, newer)
    }

    // Notes what the two files have, and answers which of the two roots is the newest.
    fn choose(
        &mut self,
        in_older: Option<Root>,
        in_newer: Option<Root>,
    ) -> Result<Newest, RootFault>
        ensures found { ChoosesFrom in_older in_newer result }
        ensures whole { IsWholeIn in_older → IsWholeIn in_newer → IfOk result AreWhole }
        ensures stands { StandsByChoice ⟦<D as Disk>⟧ self.old in_older in_newer self.new result }
        ensures none_open { IfOk result (λ found. root_in found.root ≡ None → older self.new ≡ first_of self.new) }
        ensures damaged { IfErr result (HaveOneNumber in_older in_newer) }
        ensures first { first_of self.new ≡ first_of self.old }
        ensures second { second_of self.new ≡ second_of self.old }
        ensures same { OnErr result (self.new ≡ self.old) }
        ensures works { IsWorking self.old → IsWorking self.new }
        ensures no_call { (n : ℕ) → failures_after result n ≡ n }
    {
        let are_due = are_turns_due(number_of(&in_older), number_of(&in_newer), self.is_turned)?;
        self.is_closed = in_older.is_none();
        self.is_other_closed = in_newer.is_none();
        if are_due {
            self.take_turns();
            return Ok(Newest {
                root: in_older,
                former: in_newer,
            });
        }
        Ok(Newest {
            root: in_newer,
            former: in_older,
        })
    }

    /// Closes the older file if it is open. It makes at most two device calls, and none if the file is closed already: a
    /// torn write of the gate may leave it open.
    pub fn prepare(&mut self) -> Result<(), RootFault>
        ensures prepared { Prepares ⟦<D as Disk>⟧ self.old self.new result }
        ensures any_moment { LeavesRoots ⟦<D as Disk>⟧ self.old self.new }
        ensures known { is_closed self.new ≡ is_ok result }
        ensures older { CallsOlder ⟦<D as Disk>⟧ 2 self.old self.new result }
        ensures refuses { IsTrue (is_broken self.old) → is_closed self.old ≡ false → result ≡ Err RootFault.Broken }

        // It does nothing if the file is known to be closed.
        ensures closed { IsTrue (is_closed self.old) → IsOk result × (self.new ≡ self.old) }
    {
        if self.is_closed {
            return Ok(());
        }
        self.older.close()?;
        self.is_closed = true;
        Ok(())
    }

    /// Writes the body of the next root behind the closed gate of the older file. It makes four device calls at most.
    pub fn write(&mut self, body: &[u8]) -> Result<(), RootFault>
        ensures written { PutsBody ⟦<D as Disk>⟧ body.now self.old self.new result }
        ensures any_moment { LeavesRoot ⟦<D as Disk>⟧ self.old self.new }
        ensures known { is_closed self.new ≡ is_closed self.old }
        ensures older { CallsOlder ⟦<D as Disk>⟧ 4 self.old self.new result }
        ensures refuses { IsTrue (is_broken self.old) → result ≡ Err RootFault.Broken }
    {
        self.older.write_body(body)?;
        Ok(())
    }

    /// Opens the gate of the older file. Its root has the greater number, so it is the newest one from then on. It makes
    /// two device calls at most. After an `Ok` the files are to take turns (`take_turns`).
    pub fn open_gate(&mut self) -> Result<(), RootFault>
        ensures any_moment { LeavesEither ⟦<D as Disk>⟧ self.old self.new }
        ensures opened { OpensNext ⟦<D as Disk>⟧ self.old self.new result }
        ensures older { CallsOlder ⟦<D as Disk>⟧ 2 self.old self.new result }
        ensures refuses { IsTrue (is_broken self.old) → result ≡ Err RootFault.Broken }
    {
        self.older.open_gate()?;
        self.is_closed = false;
        Ok(())
    }

    /// The two files take turns: the one that was opened has the newest root now, and the next root is written to the other. It
    /// makes no device call.
    pub fn take_turns(&mut self)
        ensures turned { self.new ≡ turned self.old }
        ensures older { older self.new ≡ newer self.old }
        ensures newer { newer self.new ≡ older self.old }
        ensures first { first_of self.new ≡ first_of self.old }
        ensures second { second_of self.new ≡ second_of self.old }
        ensures stands { StandsOpened ⟦<D as Disk>⟧ self.old self.new }
    {
        swap(&mut self.older, &mut self.newer);
        swap(&mut self.is_closed, &mut self.is_other_closed);
        self.is_turned = !self.is_turned;
    }
}
