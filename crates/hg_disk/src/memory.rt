//! A disk in memory.
ghost use Rattle.std.specs.Prelude.{◌≡◌, ◌+◌, ◌-◌, ◌<◌, ◌≤◌, ◌^◌, ◌∷◌, [], true, false, length, take, IsTrue, IsErr, IfOk, OnOk, OnErr, if◌then◌else◌};
ghost use Rattle.std.specs.Vec.{vec_capacity};
ghost use Rattle.hg_disk.specs.Room.{KeepsRoomFor, TapeHasRoom, WritesSurely};
ghost use Rattle.hg_disk.specs.State.{Fills, IsImage, SameImages, overwritten, after_write, after_cut, after_sync, counted};
ghost use Rattle.hg_disk.specs.History.{replay};
ghost use Rattle.hg_disk.specs.Kept.{has_contents};

use crate::call::{Answered, Call};
use crate::disk::is_within;
use crate::overwrite::overwrite;
use crate::replay::Replay;
use crate::tape::Tape;
use crate::{Disk, DiskFault, Tear};
use std::alloc::{AllocError, Global};
use std::mem;

/// A disk in memory that keeps all its calls. It has the crash images of the model at each moment, and no others.
///
/// A call fails if there is no memory for it. If there is no memory to keep the call itself, the disk is full: each later
/// call fails too.
pub struct MemDisk {
    start: Vec<u8>,
    bytes: Vec<u8>,
    tape: Tape,
    fails_next: bool,
    ghost shows: { bytes.items ≡ (replay start.items tape.history.events).contents },
    ghost fits: { length bytes.items ≤ 2 ^ 62 },
}

impl Drop for MemDisk {
    fn drop(self) {
        let MemDisk {
            start,
            bytes,
            tape,
            fails_next: _,
        } = self;
        drop(start);
        drop(bytes);
        drop(tape);
    }
}

impl MemDisk {
    ghost use Rattle.hg_disk.specs.Memory.{start_of, history_of, fails_next, is_full, calls_of, state_of, past_of, HasRoom};
    ghost use Rattle.hg_disk.specs.Tear.{IsTorn, first};
    ghost use Rattle.hg_disk.specs.Moments.{at_moment};

    /// An empty disk.
    pub fn new(alloc: Global) -> MemDisk
        ensures next { fails_next result ≡ false }
        ensures room { is_full result ≡ false }
        ensures start { start_of result ≡ [] }
        ensures history { history_of result ≡ [] }
    {
        MemDisk {
            start: Vec::new(alloc),
            bytes: Vec::new(alloc),
            tape: Tape::new(alloc),
            fails_next: false,
        }
    }

    /// An empty disk with room for `calls` calls and `bytes` bytes. A write uses its bytes, or the bytes by which it makes
    /// the file longer, if these are more. Calls within the room take no memory.
    pub fn with_room(alloc: Global, calls: usize, bytes: usize) -> Result<MemDisk, AllocError>
        ensures start { IfOk result (λ m. start_of m ≡ []) }
        ensures history { IfOk result (λ m. history_of m ≡ []) }
        ensures room { IfOk result (λ m. HasRoom m calls bytes) }
    {
        Ok(MemDisk {
            start: Vec::new(alloc),
            bytes: Vec::with_capacity(alloc, bytes)?,
            tape: Tape::with_room(alloc, calls, bytes)?,
            fails_next: false,
        })
    }

    /// A disk with these bytes, all of them durable.
    pub fn holding(alloc: Global, bytes: Vec<u8>) -> Result<MemDisk, AllocError>
        requires { length bytes.items ≤ 2 ^ 62 }
        ensures next { IfOk result (λ m. fails_next m ≡ false) }
        ensures room { IfOk result (λ m. is_full m ≡ false) }
        ensures start { IfOk result (λ m. start_of m ≡ bytes.items) }
        ensures history { IfOk result (λ m. history_of m ≡ []) }
    {
        Ok(MemDisk {
            bytes: Vec::from_slice(alloc, &bytes)?,
            start: bytes,
            tape: Tape::new(alloc),
            fails_next: false,
        })
    }

    /// Makes the next call fail. The failed call changes no byte, and is kept.
    pub fn fail_next(&mut self)
        ensures next { fails_next self.new ≡ true }
        ensures start { start_of self.new ≡ start_of self.old }
        ensures history { history_of self.new ≡ history_of self.old }
    {
        self.fails_next = true;
    }

    /// Whether the disk is full: there was no memory to keep a call. Each later call fails.
    pub fn is_full(&self) -> bool
        ensures { result ≡ is_full self.now }
    {
        self.tape.is_full
    }

    /// The kept calls with their answers, the oldest first: all calls before the disk was full.
    pub fn calls(&self) -> &[Answered]
        ensures { result.now ≡ calls_of self.now }
    {
        &self.tape.calls
    }

    /// An image of the disk after its first k calls, that is, at moment k.
    pub fn image(&self, k: usize, tear: Tear) -> Result<Vec<u8>, AllocError>
        requires { k ≤ length (calls_of self.now) }
        ensures torn { IfOk result (λ v. IsTorn tear (start_of self.now) (first k (history_of self.now)) v.items) }
        ensures image { IfOk result (λ v. IsImage (at_moment k (state_of self.now) (past_of self.now)) v.items) }
    {
        let mut replay = Replay::new(*self.start.allocator(), &self.start, tear)?;
        let mut from = 0;
        for i in 0..k {
            let (told, bytes) = self.tape.call(i, from);
            replay.step(told, bytes)?;
            from += bytes.len();
        }
        Ok(replay.torn)
    }

    /// The bytes that a read gives.
    pub fn bytes(&self) -> &[u8]
        ensures { result.now ≡ (replay (start_of self.now) (history_of self.now)).contents }
    {
        &self.bytes
    }
}

impl Disk for MemDisk {
    ghost use Rattle.std.proofs.Common.{refl};
    ghost use Rattle.hg_disk.specs.Memory.{KeepsCall, StaysInRoom, WritesInRoom, failures_of, fails_next, past_of, state_of};

    ghost reads_were_true = { λ _. true };

    ghost is_honest = { true };

    ghost state = { state_of };

    ghost past = { past_of };

    ghost failures = { failures_of };

    ghost has_its_bytes = { λ m. has_contents m.start.items m.tape.history.events };

    ghost honest_reads = { λ _ _. refl };

    fn len(&self) -> u64 {
        self.bytes.len() as u64
    }

    fn read_at(&mut self, at: u64, buf: &mut [u8]) -> Result<(), DiskFault>
        requires { at + length buf.old ≤ length (state_of self.old).contents }
        ensures bytes { OnOk result (Fills (state_of self.old) at buf.old buf.new) }
        ensures state { state_of self.new ≡ state_of self.old }
        ensures clock { past_of self.new ≡ state_of self.old ∷ past_of self.old }
        ensures failures { failures_of self.new ≡ counted result (failures_of self.old) }
        ensures kept { KeepsCall self.old self.new (Call.Read at) result }
        ensures next { (fails_next self.new ≡ false) × (IsTrue (fails_next self.old) → IsErr result) }
        ensures room { StaysInRoom self.old self.new result }
    {
        let is_sound = !mem::replace(&mut self.fails_next, false);
        if !self.tape.makes_room(Call::Read { at }) {
            return Err(DiskFault);
        }
        let from = at as usize;
        buf.copy_from_slice(&self.bytes[from..from + buf.len()]);
        self.tape.keep(Call::Read { at }, &[], is_sound)
    }

    fn write_at(&mut self, at: u64, bytes: &[u8]) -> Result<(), DiskFault>
        ensures ok { OnOk result (state_of self.new ≡ after_write at bytes.now (state_of self.old)) }
        ensures err { OnErr result (SameImages (after_write at bytes.now (state_of self.old)) (state_of self.new)) }
        ensures fits { OnOk result (at + length bytes.now ≤ 2 ^ 62) }
        ensures clock { past_of self.new ≡ state_of self.old ∷ past_of self.old }
        ensures failures { failures_of self.new ≡ counted result (failures_of self.old) }
        ensures unchanged { OnErr result ((state_of self.new).contents ≡ (state_of self.old).contents) }
        ensures kept { KeepsCall self.old self.new (Call.Write at (length bytes.now)) result }
        ensures next { (fails_next self.new ≡ false) × (IsTrue (fails_next self.old) → IsErr result) }
        ensures room { WritesInRoom at bytes.now self.old self.new result }
    {
        let call = Call::Write {
            at,
            len: bytes.len(),
        };
        let is_sound = !mem::replace(&mut self.fails_next, false);
        if !self.tape.makes_room(call) {
            return Err(DiskFault);
        }
        let is_done = writes(&mut self.tape, &mut self.bytes, at, bytes, is_sound);
        self.tape.keep(call, bytes, is_done)
    }

    fn cut(&mut self, to: u64) -> Result<(), DiskFault>
        requires { to ≤ length (state_of self.old).contents }
        ensures ok { OnOk result (state_of self.new ≡ after_cut to (state_of self.old)) }
        ensures err { OnErr result (SameImages (after_cut to (state_of self.old)) (state_of self.new)) }
        ensures clock { past_of self.new ≡ state_of self.old ∷ past_of self.old }
        ensures failures { failures_of self.new ≡ counted result (failures_of self.old) }
        ensures unchanged { OnErr result ((state_of self.new).contents ≡ (state_of self.old).contents) }
        ensures kept { KeepsCall self.old self.new (Call.Cut to) result }
        ensures next { (fails_next self.new ≡ false) × (IsTrue (fails_next self.old) → IsErr result) }
        ensures room { StaysInRoom self.old self.new result }
    {
        let is_sound = !mem::replace(&mut self.fails_next, false);
        if !self.tape.makes_room(Call::Cut { to }) {
            return Err(DiskFault);
        }
        cuts(&mut self.bytes, to as usize, is_sound);
        self.tape.keep(Call::Cut { to }, &[], is_sound)
    }

    fn sync(&mut self) -> Result<(), DiskFault>
        ensures ok { OnOk result (state_of self.new ≡ after_sync (state_of self.old)) }
        ensures err { OnErr result (state_of self.new ≡ state_of self.old) }
        ensures clock { past_of self.new ≡ state_of self.old ∷ past_of self.old }
        ensures failures { failures_of self.new ≡ counted result (failures_of self.old) }
        ensures kept { KeepsCall self.old self.new Call.Sync result }
        ensures next { (fails_next self.new ≡ false) × (IsTrue (fails_next self.old) → IsErr result) }
        ensures room { StaysInRoom self.old self.new result }
    {
        let is_sound = !mem::replace(&mut self.fails_next, false);
        if !self.tape.makes_room(Call::Sync) {
            return Err(DiskFault);
        }
        self.tape.keep(Call::Sync, &[], is_sound)
    }
}

// Cuts the file, if the call is sound.
fn cuts(file: &mut Vec<u8>, to: usize, is_sound: bool)
    ensures file { file.new.items ≡ (if is_sound then take to file.old.items else file.old.items) }
    ensures shorter { length file.new.items ≤ length file.old.items }
    ensures capacity { vec_capacity file.old ≤ vec_capacity file.new }
{
    if is_sound {
        file.truncate(to);
    }
}

// If the call is sound, makes room to keep the bytes and writes them. It tells whether it did; if not, the file is
// unchanged.
fn writes(tape: &mut Tape, file: &mut Vec<u8>, at: u64, bytes: &[u8], is_sound: bool) -> bool
    requires { TapeHasRoom tape.old 1 0 }
    ensures sound { IsTrue result → IsTrue is_sound }
    ensures fits { IsTrue result → at + length bytes.now ≤ 2 ^ 62 }
    ensures record { tape.new.history.events ≡ tape.old.history.events }
    ensures file { file.new.items ≡ (if result then overwritten file.old.items at bytes.now else file.old.items) }
    ensures made { TapeHasRoom tape.new 1 (if result then length bytes.now else 0) }
    ensures room { WritesSurely tape.old at bytes.now (vec_capacity file.old) is_sound result }
    ensures stays { KeepsRoomFor (length bytes.now) tape.old tape.new }
    ensures capacity { vec_capacity file.old ≤ vec_capacity file.new }
{
    if !is_sound || !is_within(at, bytes.len()) {
        return false;
    }
    if !tape.makes_room_for_bytes(bytes.len()) {
        return false;
    }
    overwrite(file, at as usize, bytes).is_ok()
}
