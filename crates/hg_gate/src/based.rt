//! Logs with a base, in files that may be spare. A file is spare if its first byte is a closed gate; a log with a base
//! begins with an open one.
ghost use Rattle.std.specs.Prelude.{◌≡◌, ◌⊎◌, ◌+◌, ◌≤◌, ◌^◌, ◌++◌, ◌∷◌, [], ℕ, List, length, take, vec_capacity, false, IsTrue, IfOk, IfErr, OnOk, OnErr, IsErrOf, MatchOption};
ghost use Rattle.hg_disk.specs.State.{IsDurable, counted};
ghost use Rattle.hg_disk.specs.Calls.{CallsAtMost};
ghost use Rattle.hg_disk.specs.Moments.{LeavesTorn, WereTrueBefore};
ghost use Rattle.hg_gate.specs.Based.{CutsToGate, FindsFile, OneCallABatchBased, PutsBehind};
ghost use Rattle.hg_gate.specs.Batches.{FindsBase, IsNoLogFile, base_front, closed_gate};
ghost use Rattle.hg_gate.specs.Gated.{LeavesClosed};
ghost use Rattle.hg_gate.specs.Reading.{RefusesIfBroken, WasRead};
ghost use Rattle.hg_gate.specs.Fault.{failures_after, IsBrokenOrDevice, IsDamagedOrDevice};
ghost use Rattle.hg_gate.specs.declared.log.TheConstants.{MAX_FRAME};
ghost use Rattle.hg_gate.specs.declared.based.TheConstants.{MAX_BASE};

use crate::fault::GateFault;
use crate::gated::number_of;
use crate::log::{CLOSED, Log, LogRoom, OPEN};
use crate::scan::{find_end, read_vec};
use hg_disk::{Disk, DiskFault, write_through};
use std::alloc::{AllocError, Global};

/// The greatest base of a log.
pub const MAX_BASE: u64 = 1 << 58;

// What stands behind the gate of a log with a base, in front of the base.
const BASE_HEADER: [u8; 8] = *b"HGJRNL3\n";

// A log with the base 0 and without batches.
const START: [u8; 18] = *b"\xA5HGJRNL3\n\0\0\0\0\0\0\0\0\x5A";

// Where the batches of a log with a base begin: behind the gate, the header, and the base.
const BATCHES_AT: u64 = 17;

/// What a file has: it is spare, or a log with a base.
pub enum LogFile<D: Disk> {
    /// It is spare. `open` makes a log of it.
    Spare(Log<D>),
    /// It is a log with this base.
    Open(u64, Log<D>),
}

// What was found in an open file: its base, and how many bytes of batches it has.
#[derive(Drop)]
struct Found {
    base: u64,
    len: u64,
}

// The front of a log with this base, and a closed gate. The room is there, so it can't fail.
fn fill_front(buffer: &mut Vec<u8>, base: u64)
    requires room { MAX_FRAME ≤ vec_capacity buffer.old }
    ensures items { buffer.new.items ≡ base_front base ++ closed_gate ∷ [] }
    ensures room { MAX_FRAME ≤ vec_capacity buffer.new }
{
    buffer.clear();
    let _ = buffer.extend_from_slice(&[OPEN]);
    let _ = buffer.extend_from_slice(&BASE_HEADER);
    let _ = buffer.extend_from_slice(&base.to_be_bytes());
    let _ = buffer.extend_from_slice(&[CLOSED]);
}

// Cuts a file to its first byte, where it is longer.
fn cut_to_gate<D: Disk>(disk: &mut D) -> Result<(), DiskFault>
    ensures cut { CutsToGate ⟦<D as Disk>⟧ disk.old disk.new result }
    ensures any_moment { LeavesClosed ⟦<D as Disk>⟧ disk.old disk.new }
    ensures calls { CallsAtMost ⟦<D as Disk>⟧ 1 disk.old disk.new }
    ensures kept { WereTrueBefore ⟦<D as Disk>⟧ disk.old disk.new }
    ensures failures { D.failures disk.new ≡ counted result (D.failures disk.old) }
{
    if disk.len() > 1 {
        return disk.cut(1);
    }
    Ok(())
}

// Puts these bytes behind the first byte of a file, in the place of what stands there.
fn put_behind<D: Disk>(disk: &mut D, bytes: &[u8]) -> Result<(), DiskFault>
    ensures written { PutsBehind ⟦<D as Disk>⟧ bytes.now disk.old disk.new result }
    ensures any_moment { LeavesClosed ⟦<D as Disk>⟧ disk.old disk.new }
    ensures calls { CallsAtMost ⟦<D as Disk>⟧ 3 disk.old disk.new }
    ensures kept { WereTrueBefore ⟦<D as Disk>⟧ disk.old disk.new }
    ensures failures { D.failures disk.new ≡ counted result (D.failures disk.old) }
{
    cut_to_gate(disk)?;
    disk.write_at(1, bytes)?;
    disk.sync()
}

impl<D: Disk> Log<D> {
    ghost use Rattle.hg_gate.specs.Based.{ClosesLog, IsFileOf, IsNoFileIfDamaged, IsSpareOn, LeavesSpareOrHas, LeavesSpareOrNew, OpensDurably, OpensSpare, RestsAs, SparesDurably, file_after, failures_of_attaching, works_as};
    ghost use Rattle.hg_gate.specs.Log.{IsEmptyOn, disk_after, disk_of, is_broken};

    /// Makes a spare file of an empty one, with memory taken before: one closed gate, durable. `DeviceFault` hands the disk
    /// back. It makes two device calls at most.
    pub fn create_spare(room: LogRoom, disk: D) -> Result<Log<D>, (GateFault, D)>
        requires { length (D.state disk).contents ≡ 0 }
        ensures spare { IfOk result (IsSpareOn disk) }

        // A crash at any moment of the call, and one after an `Err`, leaves what a torn write of the gate may leave.
        ensures any_moment { LeavesTorn ⟦<D as Disk>⟧ 0 (closed_gate ∷ []) disk (disk_after result) }

        ensures calls { CallsAtMost ⟦<D as Disk>⟧ 2 disk (disk_after result) }
        ensures device { IfErr result (λ e. (e.0 ≡ GateFault.DeviceFault) × (D.failures e.1 ≡ D.failures disk + 1)) }
    {
        let LogRoom { buffer } = room;
        let mut disk = disk;
        if write_through(&mut disk, 0, &[CLOSED]).is_err() {
            return Err((GateFault::DeviceFault, disk));
        }
        Ok(Log {
            disk,
            begins: BATCHES_AT,
            end: BATCHES_AT,
            is_broken: false,
            buffer,
        })
    }

    /// Makes a log with the base 0 and without batches of an empty file, with memory taken before. `DeviceFault` hands the
    /// disk back. It makes two device calls at most.
    pub fn create_open(room: LogRoom, disk: D) -> Result<Log<D>, (GateFault, D)>
        requires { length (D.state disk).contents ≡ 0 }
        ensures empty { IfOk result (IsEmptyOn (base_front 0) disk) }

        // A crash at any moment of the call, and one after an `Err`, leaves what a torn write of these bytes may leave.
        ensures any_moment { LeavesTorn ⟦<D as Disk>⟧ 0 (base_front 0 ++ closed_gate ∷ []) disk (disk_after result) }

        ensures calls { CallsAtMost ⟦<D as Disk>⟧ 2 disk (disk_after result) }
        ensures device { IfErr result (λ e. (e.0 ≡ GateFault.DeviceFault) × (D.failures e.1 ≡ D.failures disk + 1)) }
    {
        let LogRoom { buffer } = room;
        let mut disk = disk;
        if write_through(&mut disk, 0, &START).is_err() {
            return Err((GateFault::DeviceFault, disk));
        }
        Ok(Log {
            disk,
            begins: BATCHES_AT,
            end: BATCHES_AT,
            is_broken: false,
            buffer,
        })
    }

    /// What a file has: it is spare, or a log with a base and the batches that its bytes have. A refusal hands the disk
    /// back: `Damaged` if the file is neither, `DeviceFault` or `OutOfMemory`. It changes nothing, and reads the file by
    /// pieces of `PIECE_LEN` bytes. If the disk was synced before, what the file has is durable.
    pub fn attach_file(alloc: Global, disk: D) -> Result<LogFile<D>, (GateFault, D)>
        ensures reads { IsTrue (D.reads_were_true (file_after result)) → IfOk result IsFileOf }
        ensures rests { IsTrue (D.reads_were_true (file_after result)) → IsDurable (D.state disk) → IfOk result RestsAs }
        ensures damaged { IsTrue (D.reads_were_true (file_after result)) → IfErr result (IsNoFileIfDamaged (D.state disk).contents) }
        ensures works { IfOk result works_as }
        ensures fault { IfErr result (λ e. IsDamagedOrDevice e.0 ⊎ (e.0 ≡ GateFault.OutOfMemory)) }
        // At most as many device calls as the disk has bytes. If the reads were true, on a disk that is spare: at most one.
        // On one that holds a log: at most one per batch, and two more.
        ensures disk { WasRead ⟦<D as Disk>⟧ (length (D.state disk).contents) disk (file_after result) }
        ensures one_a_batch { IsTrue (D.reads_were_true (file_after result)) → OneCallABatchBased ⟦<D as Disk>⟧ disk (file_after result) }

        ensures device { D.failures (file_after result) ≡ failures_of_attaching result (D.failures disk) }
    {
        let buffer = match LogRoom::new(alloc) {
            Ok(LogRoom { buffer }) => buffer,
            Err(AllocError) => return Err((GateFault::OutOfMemory, disk)),
        };
        let mut disk = disk;
        match find_file(&mut disk, alloc) {
            Ok(None) => Ok(LogFile::Spare(Log {
                disk,
                begins: BATCHES_AT,
                end: BATCHES_AT,
                is_broken: false,
                buffer,
            })),
            Ok(Some(found)) => Ok(LogFile::Open(
                found.base,
                Log {
                    disk,
                    begins: BATCHES_AT,
                    end: BATCHES_AT + found.len,
                    is_broken: false,
                    buffer,
                },
            )),
            Err(fault) => Err((fault, disk)),
        }
    }

    /// Makes a log with this base and without batches of a spare file: cuts the file to its gate where it is longer, writes
    /// what stands behind the gate, syncs, opens the gate, and syncs. After an `Ok` the log is durable, and its file has
    /// nothing else. After an `Err` each later call but `into_disks` answers `Broken`. It makes five device calls at most,
    /// and takes no memory.
    pub fn open(&mut self, base: u64) -> Result<(), GateFault>
        requires { base ≤ MAX_BASE }
        ensures opened { OpensSpare base self.old self.new result }
        ensures durable { OpensDurably base self.old self.new result }

        // A crash at any moment of the call leaves the file spare, or the new log.
        ensures any_moment { LeavesSpareOrNew base self.old self.new }

        ensures fault { IfErr result IsBrokenOrDevice }
        ensures calls { CallsAtMost ⟦<D as Disk>⟧ 5 (disk_of self.old) (disk_of self.new) }
        ensures kept { WereTrueBefore ⟦<D as Disk>⟧ (disk_of self.old) (disk_of self.new) }
        ensures device { D.failures (disk_of self.new) ≡ failures_after result (D.failures (disk_of self.old)) }
        ensures breaks { OnErr result (IsTrue (is_broken self.new)) }
        ensures works { OnOk result (is_broken self.new ≡ false) }
        ensures broken { RefusesIfBroken (is_broken self.old) GateFault.Broken self.old self.new result }
    {
        if self.is_broken {
            return Err(GateFault::Broken);
        }
        self.is_broken = true;
        fill_front(&mut self.buffer, base);
        put_behind(&mut self.disk, &self.buffer[1..])?;
        write_through(&mut self.disk, 0, &[OPEN])?;
        self.begins = BATCHES_AT;
        self.end = BATCHES_AT;
        self.is_broken = false;
        Ok(())
    }

    /// Makes a spare file of a log with a base, whose batches are gone then: closes the gate, and syncs. After an `Ok` it
    /// is durable. After an `Err` each later call but `into_disks` answers `Broken`. It makes two device calls at most, and
    /// takes no memory.
    pub fn close(&mut self) -> Result<(), GateFault>
        ensures closed { ClosesLog self.old self.new result }
        ensures durable { SparesDurably self.old self.new result }

        // A crash at any moment of the call leaves the log as it was, or the file spare.
        ensures any_moment { LeavesSpareOrHas self.old self.new }

        ensures fault { IfErr result IsBrokenOrDevice }
        ensures calls { CallsAtMost ⟦<D as Disk>⟧ 2 (disk_of self.old) (disk_of self.new) }
        ensures kept { WereTrueBefore ⟦<D as Disk>⟧ (disk_of self.old) (disk_of self.new) }
        ensures device { D.failures (disk_of self.new) ≡ failures_after result (D.failures (disk_of self.old)) }
        ensures breaks { OnErr result (IsTrue (is_broken self.new)) }
        ensures works { OnOk result (is_broken self.new ≡ false) }
        ensures broken { RefusesIfBroken (is_broken self.old) GateFault.Broken self.old self.new result }
    {
        if self.is_broken {
            return Err(GateFault::Broken);
        }
        let closed = write_through(&mut self.disk, 0, &[CLOSED]);
        self.is_broken = closed.is_err();
        Ok(closed?)
    }
}

// What a file has: nothing if it is spare.
fn find_file<D: Disk>(disk: &mut D, alloc: Global) -> Result<Option<Found>, GateFault>
    ensures found { IsTrue (D.reads_were_true disk.new) → IfOk result (FindsFile (D.state disk.old).contents) }
    ensures fits { IfOk result (λ found. MatchOption found (Unit {0}) (λ it. 17 + it.len ≤ 2 ^ 62)) }
    ensures damaged { IsTrue (D.reads_were_true disk.new) → IsErrOf result GateFault.Damaged → IsNoLogFile (D.state disk.old).contents }
    ensures fault { IfErr result (λ e. IsDamagedOrDevice e ⊎ (e ≡ GateFault.OutOfMemory)) }
    ensures device { D.failures disk.new ≡ failures_after result (D.failures disk.old) }
    ensures reads { WasRead ⟦<D as Disk>⟧ (length (D.state disk.old).contents) disk.old disk.new }
    ensures one_a_batch { IsTrue (D.reads_were_true disk.new) → OneCallABatchBased ⟦<D as Disk>⟧ disk.old disk.new }
{
    let Some(base) = read_front(disk, alloc)? else {
        return Ok(None);
    };
    let len = find_end(disk, alloc, BATCHES_AT)?;
    Ok(Some(Found { base, len }))
}

// The base of a file, or none if it is spare. `Damaged` if the front of the file is neither.
fn read_front<D: Disk>(disk: &mut D, alloc: Global) -> Result<Option<u64>, GateFault>
    ensures found { IsTrue (D.reads_were_true disk.new) → IfOk result (FindsBase (D.state disk.old).contents) }
    ensures within { IfOk result (λ found. MatchOption found (Unit {0}) (λ _. 17 ≤ length (D.state disk.old).contents)) }
    ensures fits { OnOk result (length (D.state disk.old).contents ≤ 2 ^ 62) }
    ensures damaged { IsTrue (D.reads_were_true disk.new) → IsErrOf result GateFault.Damaged → IsNoLogFile (D.state disk.old).contents }
    ensures fault { IfErr result (λ e. IsDamagedOrDevice e ⊎ (e ≡ GateFault.OutOfMemory)) }
    ensures device { D.failures disk.new ≡ failures_after result (D.failures disk.old) }
    ensures reads { WasRead ⟦<D as Disk>⟧ 1 disk.old disk.new }
    ensures few { CallsAtMost ⟦<D as Disk>⟧ (length (D.state disk.old).contents) disk.old disk.new }
{
    let len = disk.len();
    if len == 0 {
        return Err(GateFault::Damaged);
    }
    let count = len.min(BATCHES_AT) as usize;
    let front = read_vec(disk, alloc, 0, count)?;
    base_of(&front)
}

// The base in the front of a file, or none if the gate is closed: in its first 17 bytes, or in all of them if there are
// fewer.
fn base_of(front: &[u8]) -> Result<Option<u64>, GateFault>
    requires { 1 ≤ length front.now }
    ensures found { (file : List ℕ) → front.now ≡ take 17 file → IfOk result (FindsBase file) }
    ensures within { IfOk result (λ found. MatchOption found (Unit {0}) (λ _. 17 ≤ length front.now)) }
    ensures damaged { (file : List ℕ) → front.now ≡ take 17 file → IsErrOf result GateFault.Damaged → IsNoLogFile file }
    ensures fault { IfErr result (λ e. e ≡ GateFault.Damaged) }
{
    if front[0] != OPEN {
        return Ok(None);
    }
    if front.len() < BATCHES_AT as usize {
        return Err(GateFault::Damaged);
    }
    let header = [
        front[1], front[2], front[3], front[4], front[5], front[6], front[7], front[8],
    ];
    if header != BASE_HEADER {
        return Err(GateFault::Damaged);
    }
    let base = number_of(&front[9..17]);
    if base > MAX_BASE {
        return Err(GateFault::Damaged);
    }
    Ok(Some(base))
}
