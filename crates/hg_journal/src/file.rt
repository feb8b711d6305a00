//! Journal files: spare, or a journal with a base.
ghost use Rattle.std.specs.Prelude.{◌≡◌, ◌+◌, ◌≤◌, ◌++◌, ◌∷◌, [], length, IsTrue, IfOk, IfErr, OnOk, OnErr, IsErrOf, Err, false};
ghost use Rattle.hg_disk.specs.State.{IsDurable};
ghost use Rattle.hg_disk.specs.Calls.{CallsAtMost};
ghost use Rattle.hg_disk.specs.Moments.{LeavesTorn, WereTrueBefore};
ghost use Rattle.hg_gate.specs.Based.{OneCallABatchBased};
ghost use Rattle.hg_gate.specs.Batches.{base_front, closed_gate};
ghost use Rattle.hg_gate.specs.Reading.{WasRead};
ghost use Rattle.hg_gate.specs.declared.based.TheConstants.{MAX_BASE};
ghost use Rattle.hg_journal.specs.Journal.{IsBrokenOrDevice, IsOfReading, failed_after};

use crate::journal::{Journal, JournalRoom, refusal_of};
use hg_disk::Disk;
use hg_gate::{Log, LogFile, MAX_BODY_LEN};
use hg_model::verdict::Refusal;
use std::alloc::{AllocError, Global};

/// What a file has: it is spare, or a journal with a base.
pub enum Attached<D: Disk> {
    /// It is spare. `open` makes a journal of it.
    Spare(Journal<D>),
    /// It is a journal with this base.
    Open(u64, Journal<D>),
}

impl<D: Disk> Journal<D> {
    ghost use Rattle.hg_journal.specs.File.{ClosesJournal, IsNewOn, IsNoFileIfDamaged, IsSpareOn, LeavesSpareOrKept, LeavesSpareOrNew, OpensAs, OpensDurably, OpensSpare, SparesDurably, failures_of_attaching, file_after, works_as};
    ghost use Rattle.hg_journal.specs.Reading.{StaysBroken, disk_after, disk_of, is_broken};

    /// Makes a spare file of an empty one, with memory taken before. `DeviceFault` hands the disk back. It makes two device
    /// calls at most.
    pub fn create_spare(room: JournalRoom, disk: D) -> Result<Journal<D>, (Refusal, D)>
        requires { length (D.state disk).contents ≡ 0 }
        ensures spare { IfOk result (IsSpareOn disk) }

        // A crash at any moment of the call, and one after an `Err`, leaves what a torn write of the gate may leave.
        ensures any_moment { LeavesTorn ⟦<D as Disk>⟧ 0 (closed_gate ∷ []) disk (disk_after result) }

        ensures calls { CallsAtMost ⟦<D as Disk>⟧ 2 disk (disk_after result) }
        ensures device { IfErr result (λ e. (e.0 ≡ Refusal.DeviceFault) × (D.failures e.1 ≡ D.failures disk + 1)) }
    {
        let JournalRoom { log, body } = room;
        match Log::create_spare(log, disk) {
            Ok(log) => Ok(Journal { log, body }),
            Err((fault, disk)) => Err((refusal_of(fault), disk)),
        }
    }

    /// Makes a journal with the base 0 and without events of an empty file, with memory taken before. `DeviceFault` hands
    /// the disk back. It makes two device calls at most.
    pub fn create_open(room: JournalRoom, disk: D) -> Result<Journal<D>, (Refusal, D)>
        requires { length (D.state disk).contents ≡ 0 }
        ensures empty { IfOk result (IsNewOn 0 disk) }

        // A crash at any moment of the call, and one after an `Err`, leaves what a torn write of these bytes may leave.
        ensures any_moment { LeavesTorn ⟦<D as Disk>⟧ 0 (base_front 0 ++ closed_gate ∷ []) disk (disk_after result) }

        ensures calls { CallsAtMost ⟦<D as Disk>⟧ 2 disk (disk_after result) }
        ensures device { IfErr result (λ e. (e.0 ≡ Refusal.DeviceFault) × (D.failures e.1 ≡ D.failures disk + 1)) }
    {
        let JournalRoom { log, body } = room;
        match Log::create_open(log, disk) {
            Ok(log) => Ok(Journal { log, body }),
            Err((fault, disk)) => Err((refusal_of(fault), disk)),
        }
    }

    /// What a file has: it is spare, or a journal with a base. A refusal hands the disk back: `Damaged` if the bytes are
    /// neither spare nor a log with a base, `DeviceFault` or `OutOfMemory`. It changes nothing, and reads no events. If the
    /// disk was synced before, what the file has is durable.
    pub fn attach_file(alloc: Global, disk: D) -> Result<Attached<D>, (Refusal, D)>
        ensures opens { IsTrue (D.reads_were_true (file_after result)) → IsDurable (D.state disk) → IfOk result OpensAs }
        ensures damaged { IsTrue (D.reads_were_true (file_after result)) → IfErr result (IsNoFileIfDamaged (D.state disk).contents) }
        ensures works { IfOk result works_as }
        ensures fault { IfErr result (λ e. IsOfReading e.0) }
        // At most as many device calls as the disk has bytes. If the reads were true, on a disk that is spare: at most one.
        // On one that holds a log: at most one per batch, and two more.
        ensures disk { WasRead ⟦<D as Disk>⟧ (length (D.state disk).contents) disk (file_after result) }
        ensures one_a_batch { IsTrue (D.reads_were_true (file_after result)) → OneCallABatchBased ⟦<D as Disk>⟧ disk (file_after result) }

        ensures device { D.failures (file_after result) ≡ failures_of_attaching result (D.failures disk) }
    {
        let body = match Vec::with_capacity(alloc, MAX_BODY_LEN) {
            Ok(body) => body,
            Err(AllocError) => return Err((Refusal::OutOfMemory, disk)),
        };
        match Log::attach_file(alloc, disk) {
            Ok(LogFile::Spare(log)) => Ok(Attached::Spare(Journal { log, body })),
            Ok(LogFile::Open(base, log)) => Ok(Attached::Open(base, Journal { log, body })),
            Err((fault, disk)) => Err((refusal_of(fault), disk)),
        }
    }

    /// Makes a journal with this base and without events of a spare file. After an `Ok` it is durable, and its file has
    /// nothing else. After an `Err` each later call but `into_disk` answers `Broken`. It makes five device calls at most,
    /// and takes no memory.
    pub fn open(&mut self, base: u64) -> Result<(), Refusal>
        requires { base ≤ MAX_BASE }
        ensures opened { OpensSpare base self.old self.new result }
        ensures durable { OpensDurably base self.old self.new result }

        // A crash at any moment of the call leaves the file spare, or the new journal.
        ensures any_moment { LeavesSpareOrNew base self.old self.new }

        ensures fault { IfErr result IsBrokenOrDevice }
        ensures calls { CallsAtMost ⟦<D as Disk>⟧ 5 (disk_of self.old) (disk_of self.new) }
        ensures kept { WereTrueBefore ⟦<D as Disk>⟧ (disk_of self.old) (disk_of self.new) }
        ensures device { D.failures (disk_of self.new) ≡ failed_after result (D.failures (disk_of self.old)) }
        ensures breaks { OnErr result (IsTrue (is_broken self.new)) }
        ensures works { OnOk result (is_broken self.new ≡ false) }
        ensures broken { IsErrOf result Refusal.Broken → IsTrue (is_broken self.old) }

        // A journal that is broken stays as it is.
        ensures refuses { IsTrue (is_broken self.old) → result ≡ Err Refusal.Broken }
        ensures same { StaysBroken self.old self.new }
    {
        match self.log.open(base) {
            Ok(()) => Ok(()),
            Err(fault) => Err(refusal_of(fault)),
        }
    }

    /// Makes a spare file of a journal with a base, whose events are gone then. After an `Ok` it is durable. After an `Err`
    /// each later call but `into_disk` answers `Broken`. It makes two device calls at most, and takes no memory.
    pub fn close(&mut self) -> Result<(), Refusal>
        ensures closed { ClosesJournal self.old self.new result }
        ensures durable { SparesDurably self.old self.new result }

        // A crash at any moment of the call leaves the journal as it was, or the file spare.
        ensures any_moment { LeavesSpareOrKept self.old self.new }

        ensures fault { IfErr result IsBrokenOrDevice }
        ensures calls { CallsAtMost ⟦<D as Disk>⟧ 2 (disk_of self.old) (disk_of self.new) }
        ensures kept { WereTrueBefore ⟦<D as Disk>⟧ (disk_of self.old) (disk_of self.new) }
        ensures device { D.failures (disk_of self.new) ≡ failed_after result (D.failures (disk_of self.old)) }
        ensures breaks { OnErr result (IsTrue (is_broken self.new)) }
        ensures works { OnOk result (is_broken self.new ≡ false) }
        ensures broken { IsErrOf result Refusal.Broken → IsTrue (is_broken self.old) }

        // A journal that is broken stays as it is.
        ensures refuses { IsTrue (is_broken self.old) → result ≡ Err Refusal.Broken }
        ensures same { StaysBroken self.old self.new }
    {
        match self.log.close() {
            Ok(()) => Ok(()),
            Err(fault) => Err(refusal_of(fault)),
        }
    }
}
