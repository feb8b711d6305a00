//! A log of batches.
ghost use Rattle.std.specs.Prelude.{◌≡◌, ◌⊎◌, ◌+◌, ◌≤◌, ◌^◌, ◌++◌, ◌∷◌, [], ℕ, List, length, vec_capacity, false, IsTrue, IfOk, IfErr, OnOk, OnErr, IsErrOf, Ok, Err};
ghost use Rattle.hg_disk.specs.State.{IsDurable};
ghost use Rattle.hg_disk.specs.Calls.{CallsAtMost};
ghost use Rattle.hg_disk.specs.Moments.{WereTrueBefore};
ghost use Rattle.hg_gate.specs.Batches.{OneCallABatch, closed_gate, header, sized};
ghost use Rattle.hg_gate.specs.declared.log.TheConstants.{MAX_FRAME};
ghost use Rattle.hg_gate.specs.Reading.{RefusesIfBroken, WasRead};
ghost use Rattle.hg_gate.specs.Fault.{failures_after, IsBrokenOrDevice, IsDamagedOrDevice};

use crate::batch::{Batch, MAX_BODY_LEN};
use crate::fault::GateFault;
use crate::reader::LogReader;
use crate::scan::{HEADER, find_log, go_on};
use hg_disk::{Disk, write_through};
use std::alloc::{AllocError, Global};

/// The byte of an open gate. Every other byte is a closed one.
pub const OPEN: u8 = 0xA5;

/// The byte that closes a gate.
pub const CLOSED: u8 = 0x5A;

// The header and a closed gate.
const START: [u8; 9] = *b"HGJRNL1\n\x5A";

// A length, the longest body, and a gate.
const MAX_FRAME: usize = 4 + MAX_BODY_LEN + 1;

/// Batches on a disk. A batch is durable once its `append` has answered `Ok`. The file is a front, the batches, a closed
/// gate, and then anything. Each batch is an open gate, the length of its body in four bytes (big-endian), and the body.
/// The front is a header; or an open gate, another header, and a base in eight bytes (big-endian).
pub struct Log<D: Disk> {
    pub(crate) disk: D,
    pub(crate) begins: u64,
    pub(crate) end: u64,
    pub(crate) is_broken: bool,
    pub(crate) buffer: Vec<u8>,
    ghost order: { begins ≤ end },
    ghost small: { end ≤ 2 ^ 62 },
    ghost room: { MAX_FRAME ≤ vec_capacity buffer },
}

/// The memory of a log, taken before its disk is called.
#[derive(Drop)]
pub struct LogRoom {
    pub(crate) buffer: Vec<u8>,
    ghost room: { MAX_FRAME ≤ vec_capacity buffer },
}

impl LogRoom {
    /// Takes the memory of a log.
    pub fn new(alloc: Global) -> Result<LogRoom, AllocError> {
        let buffer = Vec::with_capacity(alloc, MAX_FRAME)?;
        Ok(LogRoom { buffer })
    }
}

impl<D: Disk + Drop> Drop for Log<D> {
    fn drop(self) {
        let Log {
            disk,
            begins: _,
            end: _,
            is_broken: _,
            buffer,
        } = self;
        drop(disk);
        drop(buffer);
    }
}

// The length, the body and a closed gate. The room is there, so it can't fail.
fn fill(buffer: &mut Vec<u8>, body: &[u8])
    requires room { MAX_FRAME ≤ vec_capacity buffer.old }
    requires fits { length body.now ≤ MAX_BODY_LEN }
    ensures items { buffer.new.items ≡ sized body.now ++ closed_gate ∷ [] }
    ensures room { MAX_FRAME ≤ vec_capacity buffer.new }
{
    buffer.clear();
    let _ = buffer.extend_from_slice(&(body.len() as u32).to_be_bytes());
    let _ = buffer.extend_from_slice(body);
    let _ = buffer.extend_from_slice(&[CLOSED]);
}

impl<D: Disk> Log<D> {
    ghost use Rattle.hg_gate.specs.Batch.{body_of};
    ghost use Rattle.hg_gate.specs.Log.{AddsBatch, AddsDurably, FailedOrUncalled, HasSome, IsEmptyOn, IsNoLogIfDamaged, LeavesBeforeOrAfter, ReadsSome, StaysAsItIs, StaysRead, disk_after, disk_of, failures_of_making, is_broken};
    ghost use Rattle.hg_gate.specs.Turning.{IsReadTo, Turns, TurnsUndamaged, rest_of};

    /// Makes a log without a base and without batches on an empty disk. A refusal hands the disk back; after `OutOfMemory`
    /// the disk was not called. It makes two device calls at most.
    pub fn create(alloc: Global, disk: D) -> Result<Log<D>, (GateFault, D)>
        requires { length (D.state disk).contents ≡ 0 }
        ensures empty { IfOk result (IsEmptyOn header disk) }
        ensures calls { CallsAtMost ⟦<D as Disk>⟧ 2 disk (disk_after result) }
        ensures kept { WereTrueBefore ⟦<D as Disk>⟧ disk (disk_after result) }
        ensures device { IfErr result (λ e. e.0 ≡ GateFault.DeviceFault → D.failures e.1 ≡ D.failures disk + 1) }
        ensures memory { IfErr result (FailedOrUncalled disk) }
    {
        match LogRoom::new(alloc) {
            Ok(room) => Log::create_in(room, disk),
            Err(AllocError) => Err((GateFault::OutOfMemory, disk)),
        }
    }

    /// Makes a log without a base and without batches on an empty disk, with memory taken before. `DeviceFault` hands the
    /// disk back. It makes two device calls at most.
    pub fn create_in(room: LogRoom, disk: D) -> Result<Log<D>, (GateFault, D)>
        requires { length (D.state disk).contents ≡ 0 }
        ensures empty { IfOk result (IsEmptyOn header disk) }
        ensures calls { CallsAtMost ⟦<D as Disk>⟧ 2 disk (disk_after result) }
        ensures kept { WereTrueBefore ⟦<D as Disk>⟧ disk (disk_after result) }
        ensures device { IfErr result (λ e. (e.0 ≡ GateFault.DeviceFault) × (D.failures e.1 ≡ D.failures disk + 1)) }
    {
        let LogRoom { buffer } = room;
        let mut disk = disk;
        if write_through(&mut disk, 0, &START).is_err() {
            return Err((GateFault::DeviceFault, disk));
        }
        Ok(Log {
            disk,
            begins: HEADER.len() as u64,
            end: HEADER.len() as u64,
            is_broken: false,
            buffer,
        })
    }

    /// The log without a base that a disk holds, with the batches that its bytes have. A refusal hands the disk back:
    /// `Damaged` if the bytes are not such a log's, `DeviceFault` or `OutOfMemory`. It changes nothing, and reads the file
    /// by pieces of `PIECE_LEN` bytes. If the disk was synced before, the batches are durable.
    pub fn attach(alloc: Global, disk: D) -> Result<Log<D>, (GateFault, D)>
        ensures reads { IsTrue (D.reads_were_true (disk_after result)) → IfOk result (ReadsSome header) }
        ensures has { IsTrue (D.reads_were_true (disk_after result)) → IsDurable (D.state disk) → IfOk result (HasSome header) }
        ensures damaged { IsTrue (D.reads_were_true (disk_after result)) → IfErr result (IsNoLogIfDamaged header (D.state disk).contents) }
        ensures works { IfOk result (λ log. is_broken log ≡ false) }
        ensures fault { IfErr result (λ e. IsDamagedOrDevice e.0 ⊎ (e.0 ≡ GateFault.OutOfMemory)) }
        // At most as many device calls as the disk has bytes. If the reads were true, on a disk that holds a log: at most
        // one per batch, and two more.
        ensures disk { WasRead ⟦<D as Disk>⟧ (length (D.state disk).contents) disk (disk_after result) }
        ensures one_a_batch { IsTrue (D.reads_were_true (disk_after result)) → OneCallABatch ⟦<D as Disk>⟧ header disk (disk_after result) }

        ensures device { D.failures (disk_after result) ≡ failures_of_making result (D.failures disk) }
    {
        let buffer = match Vec::with_capacity(alloc, MAX_FRAME) {
            Ok(buffer) => buffer,
            Err(AllocError) => return Err((GateFault::OutOfMemory, disk)),
        };
        let mut disk = disk;
        match find_log(&mut disk, alloc) {
            Ok(len) => Ok(Log {
                disk,
                begins: HEADER.len() as u64,
                end: HEADER.len() as u64 + len,
                is_broken: false,
                buffer,
            }),
            Err(fault) => Err((fault, disk)),
        }
    }

    /// The disk.
    pub fn into_disks(self) -> D
        ensures { result ≡ disk_of self }
    {
        let Log {
            disk,
            begins: _,
            end: _,
            is_broken: _,
            buffer: _,
        } = self;
        disk
    }

    /// Adds a batch. After an `Ok` it is durable. After an `Err` the log is broken: each later call but `into_disks`
    /// answers `Broken`, and a crash leaves the batches from before, with or without the new one. It makes four device
    /// calls at most.
    pub fn append(&mut self, batch: &Batch) -> Result<(), GateFault>
        ensures added { AddsBatch (body_of batch.now) self.old self.new result }
        ensures durable { AddsDurably (body_of batch.now) self.old self.new result }

        // A crash at any moment of the call leaves the batches from before it, with or without the new one.
        ensures any_moment { LeavesBeforeOrAfter (body_of batch.now) self.old self.new }

        ensures fault { IfErr result IsBrokenOrDevice }
        ensures calls { CallsAtMost ⟦<D as Disk>⟧ 4 (disk_of self.old) (disk_of self.new) }
        ensures kept { WereTrueBefore ⟦<D as Disk>⟧ (disk_of self.old) (disk_of self.new) }
        ensures device { D.failures (disk_of self.new) ≡ failures_after result (D.failures (disk_of self.old)) }
        ensures breaks { OnErr result (IsTrue (is_broken self.new)) }
        ensures works { OnOk result (is_broken self.new ≡ false) }
        ensures broken { RefusesIfBroken (is_broken self.old) GateFault.Broken self.old self.new result }
    {
        if self.is_broken {
            return Err(GateFault::Broken);
        }
        self.is_broken = true;
        fill(&mut self.buffer, batch.body());
        write_through(&mut self.disk, self.end + 1, &self.buffer)?;
        write_through(&mut self.disk, self.end, &[OPEN])?;
        self.end += self.buffer.len() as u64;
        self.is_broken = false;
        Ok(())
    }

    /// Whether a call of an append failed: then each later call but `into_disks` answers `Broken`.
    #[inline(always)]
    pub fn is_broken(&self) -> bool
        ensures { result ≡ is_broken self.now }
    {
        self.is_broken
    }

    /// A reader in front of the first batch, for `turn`. It takes no memory.
    pub fn reader(&self) -> Result<LogReader, GateFault>
        ensures first { IfOk result (λ reader. (left : List (List ℕ)) → IsReadTo reader [] left) }
        ensures none { IfOk result (λ reader. rest_of reader ≡ []) }
        ensures fault { IfErr result (λ e. (e ≡ GateFault.Broken) × IsTrue (is_broken self.now)) }
        ensures refuses { IsTrue (is_broken self.now) → result ≡ Err GateFault.Broken }
    {
        if self.is_broken {
            return Err(GateFault::Broken);
        }
        Ok(LogReader::new(*self.buffer.allocator()))
    }

    /// Makes the next batch the present one of a reader, whatever is left of that before it, and answers whether there is
    /// one: also one that was appended since the reader was begun. After an `Err`, and where there is none, the reader
    /// stays as it was, and the call can be made again.
    ///
    /// It makes one device call at most, of `PIECE_LEN` bytes, and none where the whole batch was read ahead. It takes
    /// memory for so many bytes.
    pub fn turn(&mut self, reader: &mut LogReader) -> Result<bool, GateFault>
        ensures next { Turns self.old self.new reader.old reader.new result }
        ensures whole { TurnsUndamaged self.old self.new reader.old result }
        ensures again { OnErr result (reader.new ≡ reader.old) }
        ensures stays { result ≡ Ok false → reader.new ≡ reader.old }

        // The log stays as it is.
        ensures broken_or_not { is_broken self.new ≡ is_broken self.old }
        ensures reads { StaysRead self.old self.new }
        ensures has { StaysAsItIs self.old self.new }
        ensures disk { WasRead ⟦<D as Disk>⟧ 1 (disk_of self.old) (disk_of self.new) }
        ensures device { D.failures (disk_of self.new) ≡ failures_after result (D.failures (disk_of self.old)) }
        ensures broken { RefusesIfBroken (is_broken self.old) GateFault.Broken self.old self.new result }
    {
        if self.is_broken {
            return Err(GateFault::Broken);
        }
        let len = self.disk.len();
        if len < self.begins || len - self.begins < reader.next {
            return Err(GateFault::Damaged);
        }
        let alloc = *self.buffer.allocator();
        go_on(&mut self.disk, self.begins, alloc, reader)
    }
}
