//! Where the batches of a log end.
ghost use Rattle.std.specs.Prelude.{◌≡◌, ◌⊎◌, ◌+◌, ◌-◌, ◌<◌, ◌≤◌, ◌↔◌, ◌^◌, ◌++◌, ℕ, List, length, take, drop, false, IsTrue, IfOk, IfErr, OnOk, OnErr, Ok, IsErrOf};
ghost use Rattle.hg_disk.specs.State.{Fills};
ghost use Rattle.hg_disk.specs.Calls.{CallsAtMost};
ghost use Rattle.hg_gate.specs.Batches.{EndsBehind, IsBodyLength, IsNoLog, OneCallABatch, header};
ghost use Rattle.hg_gate.specs.Fault.{failures_after, IsDamagedOrDevice};
ghost use Rattle.hg_gate.specs.Reading.{WasRead};
ghost use Rattle.hg_gate.specs.Scan.{BeginsWith, EndsAt, HasBodyLength, IsHead, IsNoTail, OneCallABatchIn, TellsNoTail, batch_len};
ghost use Rattle.hg_gate.specs.Turning.{GoesOn, TurnsIn, WalksOn};

use crate::batch::MAX_BODY_LEN;
use crate::fault::GateFault;
use crate::log::OPEN;
use crate::reader::{LogReader, PIECE_LEN};
use hg_disk::Disk;
use std::alloc::Global;

/// What a log begins with.
pub(crate) const HEADER: [u8; 8] = *b"HGJRNL1\n";

// A gate, and the length of a body.
pub(crate) const HEAD_LEN: usize = 5;

// Parses the head of a batch: the length of its body, or none at a closed gate. `head` is the first five of the `room`
// bytes that are left of the file, or all of them if there are fewer.
pub(crate) fn parse_head(head: &[u8], room: u64) -> Result<Option<u32>, GateFault>
    ensures within { IfOk result (λ found. batch_len found ≤ room) }
    ensures length { IfOk result HasBodyLength }
    ensures head { (tail : List ℕ) → head.now ≡ take 5 tail → room ≡ length tail → IfOk result (IsHead tail) }
    ensures damaged { (tail : List ℕ) → head.now ≡ take 5 tail → room ≡ length tail → OnErr result (IsNoTail tail) }
    ensures fault { IfErr result (λ e. e ≡ GateFault.Damaged) }
{
    if head.is_empty() {
        return Err(GateFault::Damaged);
    }
    if head[0] != OPEN {
        return Ok(None);
    }
    if head.len() < HEAD_LEN {
        return Err(GateFault::Damaged);
    }
    let len = u32::from_be_bytes([head[1], head[2], head[3], head[4]]);
    if !fits(len, room) {
        return Err(GateFault::Damaged);
    }
    Ok(Some(len))
}

// Whether a body may have this length, and its batch is shorter than `room` bytes.
fn fits(len: u32, room: u64) -> bool
    ensures { IsTrue result ↔ (IsBodyLength len × (5 + len < room)) }
{
    1 <= len && len as usize <= MAX_BODY_LEN && 5 + (len as u64) < room
}

// How many bytes of batches a log without a base has.
pub(crate) fn find_log<D: Disk>(disk: &mut D, alloc: Global) -> Result<u64, GateFault>
    ensures found { IsTrue (D.reads_were_true disk.new) → IfOk result (EndsBehind header (D.state disk.old).contents) }
    ensures fits { IfOk result (λ len. 8 + len ≤ 2 ^ 62) }
    ensures damaged { IsTrue (D.reads_were_true disk.new) → IsErrOf result GateFault.Damaged → IsNoLog header (D.state disk.old).contents }
    ensures fault { IfErr result (λ e. IsDamagedOrDevice e ⊎ (e ≡ GateFault.OutOfMemory)) }
    ensures device { D.failures disk.new ≡ failures_after result (D.failures disk.old) }
    ensures reads { WasRead ⟦<D as Disk>⟧ (length (D.state disk.old).contents) disk.old disk.new }
    ensures one_a_batch { IsTrue (D.reads_were_true disk.new) → OneCallABatch ⟦<D as Disk>⟧ header disk.old disk.new }
{
    read_header(disk)?;
    find_end(disk, alloc, HEADER.len() as u64)
}

// How many bytes of batches stand from the place `begins` on: behind them stands the first gate that is closed.
pub(crate) fn find_end<D: Disk>(disk: &mut D, alloc: Global, begins: u64) -> Result<u64, GateFault>
    requires within { begins ≤ length (D.state disk.old).contents }
    requires small { length (D.state disk.old).contents ≤ 2 ^ 62 }
    ensures found { IsTrue (D.reads_were_true disk.new) → IfOk result (EndsAt (drop begins (D.state disk.old).contents)) }
    ensures fits { IfOk result (λ len. begins + len ≤ 2 ^ 62) }
    ensures damaged { TellsNoTail ⟦<D as Disk>⟧ begins 0 disk.old disk.new result }
    ensures fault { IfErr result (λ e. IsDamagedOrDevice e ⊎ (e ≡ GateFault.OutOfMemory)) }
    ensures device { D.failures disk.new ≡ failures_after result (D.failures disk.old) }
    ensures reads { WasRead ⟦<D as Disk>⟧ (length (D.state disk.old).contents - begins + 1) disk.old disk.new }
    ensures one_a_batch { IsTrue (D.reads_were_true disk.new) → OneCallABatchIn ⟦<D as Disk>⟧ begins disk.old disk.new }
{
    let mut reader = LogReader::new(alloc);
    while go_on(disk, begins, alloc, &mut reader)? {}
    Ok(reader.next)
}

// Makes the next batch the present one, if there is one. The batches begin at the place `begins`. It calls the disk only
// where that batch was not read ahead whole.
pub(crate) fn go_on<D: Disk>(
    disk: &mut D,
    begins: u64,
    alloc: Global,
    reader: &mut LogReader,
) -> Result<bool, GateFault>
    requires within { begins + reader.old.next ≤ length (D.state disk.old).contents }
    requires fits { begins + reader.old.next ≤ 2 ^ 62 }
    ensures next { IsTrue (D.reads_were_true disk.new) → TurnsIn (drop begins (D.state disk.old).contents) reader.old reader.new result }
    ensures walks { WalksOn ⟦<D as Disk>⟧ begins disk.old disk.new reader.old reader.new result }
    ensures within { GoesOn ⟦<D as Disk>⟧ begins disk.old reader.old reader.new result }
    ensures whole { TellsNoTail ⟦<D as Disk>⟧ begins reader.old.next disk.old disk.new result }
    ensures again { OnErr result (reader.new ≡ reader.old) }
    ensures stays { result ≡ Ok false → reader.new ≡ reader.old }
    ensures fault { IfErr result (λ e. IsDamagedOrDevice e ⊎ (e ≡ GateFault.OutOfMemory)) }
    ensures device { D.failures disk.new ≡ failures_after result (D.failures disk.old) }
    ensures reads { WasRead ⟦<D as Disk>⟧ 1 disk.old disk.new }
{
    if let Some(body_len) = reader.len_ahead() {
        reader.turn(body_len);
        return Ok(true);
    }
    read_ahead(disk, begins, alloc, reader)
}

// `Damaged` if the file does not begin with the header.
fn read_header<D: Disk>(disk: &mut D) -> Result<(), GateFault>
    ensures found { IsTrue (D.reads_were_true disk.new) → OnOk result (BeginsWith header (D.state disk.old).contents) }
    ensures within { OnOk result (8 ≤ length (D.state disk.old).contents) }
    ensures fits { OnOk result (length (D.state disk.old).contents ≤ 2 ^ 62) }
    ensures damaged { IsTrue (D.reads_were_true disk.new) → IsErrOf result GateFault.Damaged → IsNoLog header (D.state disk.old).contents }
    ensures fault { IfErr result IsDamagedOrDevice }
    ensures device { D.failures disk.new ≡ failures_after result (D.failures disk.old) }
    ensures reads { WasRead ⟦<D as Disk>⟧ 1 disk.old disk.new }
    ensures few { CallsAtMost ⟦<D as Disk>⟧ (length (D.state disk.old).contents) disk.old disk.new }
{
    if disk.len() < HEADER.len() as u64 {
        return Err(GateFault::Damaged);
    }
    let mut bytes = [0; HEADER.len()];
    read_bytes(disk, 0, &mut bytes)?;
    if bytes != HEADER {
        return Err(GateFault::Damaged);
    }
    Ok(())
}

// Fills the buffer with the bytes from the offset `at` on.
pub(crate) fn read_bytes<D: Disk>(disk: &mut D, at: u64, buf: &mut [u8]) -> Result<(), GateFault>
    requires { at + length buf.old ≤ length (D.state disk.old).contents }
    ensures bytes { IsTrue (D.reads_were_true disk.new) → OnOk result (Fills (D.state disk.old) at buf.old buf.new) }
    ensures fault { IfErr result (λ e. e ≡ GateFault.DeviceFault) }
    ensures device { D.failures disk.new ≡ failures_after result (D.failures disk.old) }
    ensures reads { WasRead ⟦<D as Disk>⟧ 1 disk.old disk.new }
{
    disk.read_at(at, buf)?;
    Ok(())
}

// The `len` bytes from the offset `at` on.
pub(crate) fn read_vec<D: Disk>(
    disk: &mut D,
    alloc: Global,
    at: u64,
    len: usize,
) -> Result<Vec<u8>, GateFault>
    requires { at + len ≤ length (D.state disk.old).contents }
    ensures bytes { IsTrue (D.reads_were_true disk.new) → IfOk result (λ v. v.items ≡ take len (drop at (D.state disk.old).contents)) }
    ensures len { IfOk result (λ v. length v.items ≡ len) }
    ensures fault { IfErr result (λ e. (e ≡ GateFault.DeviceFault) ⊎ (e ≡ GateFault.OutOfMemory)) }
    ensures device { D.failures disk.new ≡ failures_after result (D.failures disk.old) }
    ensures reads { WasRead ⟦<D as Disk>⟧ 1 disk.old disk.new }
{
    let mut bytes = vec![in alloc; 0; len]?;
    read_bytes(disk, at, &mut bytes)?;
    Ok(bytes)
}

// Reads on from the place of the next batch, and makes that batch the present one, if there is one.
fn read_ahead<D: Disk>(
    disk: &mut D,
    begins: u64,
    alloc: Global,
    reader: &mut LogReader,
) -> Result<bool, GateFault>
    requires within { begins + reader.old.next ≤ length (D.state disk.old).contents }
    ensures next { IsTrue (D.reads_were_true disk.new) → TurnsIn (drop begins (D.state disk.old).contents) reader.old reader.new result }
    ensures walks { WalksOn ⟦<D as Disk>⟧ begins disk.old disk.new reader.old reader.new result }
    ensures within { GoesOn ⟦<D as Disk>⟧ begins disk.old reader.old reader.new result }
    ensures whole { TellsNoTail ⟦<D as Disk>⟧ begins reader.old.next disk.old disk.new result }
    ensures again { OnErr result (reader.new ≡ reader.old) }
    ensures stays { result ≡ Ok false → reader.new ≡ reader.old }
    ensures fault { IfErr result (λ e. IsDamagedOrDevice e ⊎ (e ≡ GateFault.OutOfMemory)) }
    ensures device { D.failures disk.new ≡ failures_after result (D.failures disk.old) }
    ensures reads { WasRead ⟦<D as Disk>⟧ 1 disk.old disk.new }
{
    let room = disk.len() - begins - reader.next;
    let count = room.min(PIECE_LEN as u64) as usize;
    let piece = read_vec(disk, alloc, begins + reader.next, count)?;
    let Some(len) = parse_head(&piece[..count.min(HEAD_LEN)], room)? else {
        return Ok(false);
    };
    reader.piece = piece;
    reader.from = 0;
    reader.to = 0;
    reader.turn(len);
    Ok(true)
}
