//! A file whose first byte says whether the rest counts.
ghost use Rattle.std.specs.Prelude.{◌≡◌, ◌+◌, ◌<◌, ◌≤◌, ◌^◌, ◌∷◌, [], ℕ, List, length, drop, false, IsTrue, OnOk, OnErr, IsErrOf, Err, IfOk, IfErr};
ghost use Rattle.hg_disk.specs.State.{counted};
ghost use Rattle.hg_disk.specs.Calls.{CallsAtMost};
ghost use Rattle.hg_disk.specs.Moments.{LeavesTorn, WereTrueBefore};
ghost use Rattle.std.specs.Int.{w64, to_be_bytes};
ghost use Rattle.hg_gate.specs.Gated.{HasFront, HasLength, HaveNoBody, IsNotOpen, LeavesClosed, ReplacesBody, TellsGate};
ghost use Rattle.hg_gate.specs.Batches.{closed_gate, open_gate};
ghost use Rattle.hg_gate.specs.Reading.{RefusesIfBroken, WasRead};
ghost use Rattle.hg_gate.specs.Fault.{failures_after, IsBrokenOrDevice, IsDamagedOrDevice};

use crate::fault::GateFault;
use crate::log::{CLOSED, OPEN};
use crate::scan::{read_bytes, read_vec};
use hg_disk::{Disk, DiskFault, write_through};
use std::alloc::Global;

// Where the body begins: behind the gate and its length.
const BODY_AT: u64 = 9;

/// How many bytes of a body are its front.
pub const FRONT_LEN: usize = 28;

// How many bytes are read behind the gate before the body is: its length, and its front.
const HEAD_LEN: usize = 8 + FRONT_LEN;

/// Says by the front of a body that it is not wanted, before the rest of it is read.
pub trait BodyTest {
    /// The bodies that are wanted.
    ghost wants: { Self → List ℕ → Type 0 };

    /// Whether a body of this length with this front may be wanted. Where it has fewer than 28 bytes, the front is any
    /// bytes.
    fn may_want(&self, len: u64, front: &[u8]) -> bool
        requires { length front.now ≡ FRONT_LEN }
        ensures { result ≡ false → HaveNoBody (wants self.now) len front.now };
}

/// A file that is closed, or open with a body: a gate, the length of the body in eight bytes (big-endian), the body, and
/// then anything.
pub struct Gated<D: Disk> {
    disk: D,
    is_broken: bool,
}

impl<D: Disk + Drop> Drop for Gated<D> {
    fn drop(self) {
        let Gated { disk, is_broken: _ } = self;
        drop(disk);
    }
}

impl<D: Disk> Gated<D> {
    ghost use Rattle.hg_gate.specs.Gated.{ClosesGate, HasBody, TellsUnwanted, LeavesRest, OpensDurably, OpensGate, PutsBody, Rests, StaysClosed, StaysClosedOrOpens, TellsTrueDamage, disk_after, disk_of, is_broken};

    /// The file on a disk, whatever its bytes are. It makes no device call.
    pub fn attach(disk: D) -> Gated<D>
        ensures disk { disk_of result ≡ disk }
        ensures works { is_broken result ≡ false }
    {
        Gated {
            disk,
            is_broken: false,
        }
    }

    /// Makes a closed file on an empty disk: one closed gate, durable. An `Err` means that a device call failed, and hands
    /// the disk back. It makes at most two device calls.
    pub fn create(disk: D) -> Result<Gated<D>, D>
        requires { length (D.state disk).contents ≡ 0 }
        ensures closed { IfOk result (λ it. Rests ⟦<D as Disk>⟧ it (closed_gate ∷ [])) }

        // A crash at any moment of the call, and one after an `Err`, leaves what a torn write of the gate may leave.
        ensures any_moment { LeavesTorn ⟦<D as Disk>⟧ 0 (closed_gate ∷ []) disk (disk_after result) }

        ensures calls { CallsAtMost ⟦<D as Disk>⟧ 2 disk (disk_after result) }
        ensures device { D.failures (disk_after result) ≡ counted result (D.failures disk) }
    {
        let mut disk = disk;
        if write_through(&mut disk, 0, &[CLOSED]).is_err() {
            return Err(disk);
        }
        Ok(Gated::attach(disk))
    }

    /// The disk.
    pub fn into_disks(self) -> D
        ensures { result ≡ disk_of self }
    {
        let Gated { disk, is_broken: _ } = self;
        disk
    }

    /// Closes the gate. An empty file becomes one closed gate; what stands behind the gate stays. It makes two device calls
    /// at most; after an `Err` each later call but `into_disks` answers `Broken`.
    ///
    /// The gate is written even if it is closed already, and a torn write may leave any byte. So a crash in the call may
    /// open a closed gate. To keep a gate closed at each moment, do not call this.
    pub fn close(&mut self) -> Result<(), GateFault>
        ensures closed { ClosesGate ⟦<D as Disk>⟧ self.old self.new result }

        // A crash at any moment of the call leaves what stands behind the gate. The gate itself may be any byte, open too,
        // whatever it was.
        ensures any_moment { LeavesRest ⟦<D as Disk>⟧ self.old self.new }

        ensures fault { IfErr result IsBrokenOrDevice }
        ensures calls { CallsAtMost ⟦<D as Disk>⟧ 2 (disk_of self.old) (disk_of self.new) }
        ensures kept { WereTrueBefore ⟦<D as Disk>⟧ (disk_of self.old) (disk_of self.new) }
        ensures device { D.failures (disk_of self.new) ≡ failures_after result (D.failures (disk_of self.old)) }
        ensures works { OnOk result (is_broken self.new ≡ false) }
        ensures breaks { OnErr result (IsTrue (is_broken self.new)) }
        ensures broken { RefusesIfBroken (is_broken self.old) GateFault.Broken self.old self.new result }
    {
        if self.is_broken {
            return Err(GateFault::Broken);
        }
        let closed = write_through(&mut self.disk, 0, &[CLOSED]);
        self.is_broken = closed.is_err();
        Ok(closed?)
    }

    /// Puts a body behind the gate, and ends the file there. The gate should be closed. It makes at most four device calls;
    /// after an `Err` each later call but `into_disks` answers `Broken`.
    pub fn write_body(&mut self, body: &[u8]) -> Result<(), GateFault>
        ensures written { PutsBody ⟦<D as Disk>⟧ body.now self.old self.new result }

        // While the gate is closed, no image is open.
        ensures any_moment { StaysClosed ⟦<D as Disk>⟧ self.old self.new }

        ensures fault { IfErr result IsBrokenOrDevice }
        ensures calls { CallsAtMost ⟦<D as Disk>⟧ 4 (disk_of self.old) (disk_of self.new) }
        ensures kept { WereTrueBefore ⟦<D as Disk>⟧ (disk_of self.old) (disk_of self.new) }
        ensures device { D.failures (disk_of self.new) ≡ failures_after result (D.failures (disk_of self.old)) }
        ensures works { OnOk result (is_broken self.new ≡ false) }
        ensures breaks { OnErr result (IsTrue (is_broken self.new)) }
        ensures broken { RefusesIfBroken (is_broken self.old) GateFault.Broken self.old self.new result }
    {
        if self.is_broken {
            return Err(GateFault::Broken);
        }
        let written = replace_body(&mut self.disk, body);
        self.is_broken = written.is_err();
        Ok(written?)
    }

    /// Opens the gate. It makes two device calls at most; after an `Err` a crash leaves the file closed, or open with the
    /// body that stands there, and each later call but `into_disks` answers `Broken`.
    pub fn open_gate(&mut self) -> Result<(), GateFault>
        ensures opened { OpensGate ⟦<D as Disk>⟧ self.old self.new result }
        ensures durable { OpensDurably ⟦<D as Disk>⟧ self.old self.new result }

        // A crash at any moment of the call leaves the file closed, or open with the body that stands there.
        ensures any_moment { StaysClosedOrOpens ⟦<D as Disk>⟧ self.old self.new }

        ensures fault { IfErr result IsBrokenOrDevice }
        ensures calls { CallsAtMost ⟦<D as Disk>⟧ 2 (disk_of self.old) (disk_of self.new) }
        ensures kept { WereTrueBefore ⟦<D as Disk>⟧ (disk_of self.old) (disk_of self.new) }
        ensures device { D.failures (disk_of self.new) ≡ failures_after result (D.failures (disk_of self.old)) }
        ensures works { OnOk result (is_broken self.new ≡ false) }
        ensures breaks { OnErr result (IsTrue (is_broken self.new)) }
        ensures broken { RefusesIfBroken (is_broken self.old) GateFault.Broken self.old self.new result }
    {
        if self.is_broken {
            return Err(GateFault::Broken);
        }
        let opened = write_through(&mut self.disk, 0, &[OPEN]);
        self.is_broken = opened.is_err();
        Ok(opened?)
    }

    /// The body, or none where the gate is closed. `Damaged` if the file is empty, or if it is open and too short for the
    /// length that it spells. After an `Err` it can be tried again. It makes three device calls at most.
    pub fn read(&mut self, alloc: Global) -> Result<Option<Vec<u8>>, GateFault>
        ensures read { IsTrue (D.reads_were_true (disk_of self.new)) → IfOk result (HasBody (D.state (disk_of self.old)).contents) }
        ensures damaged { TellsTrueDamage ⟦<D as Disk>⟧ self.old self.new result }

        // So an open file has one body (the law `one_body`).
        ensures fits { OnOk result (length (D.state (disk_of self.old)).contents ≤ 2 ^ 62) }

        // The file stays as it is.
        ensures rests { (file : List ℕ) → Rests ⟦<D as Disk>⟧ self.old file → Rests ⟦<D as Disk>⟧ self.new file }
        ensures reads { WasRead ⟦<D as Disk>⟧ 3 (disk_of self.old) (disk_of self.new) }
        ensures device { D.failures (disk_of self.new) ≡ failures_after result (D.failures (disk_of self.old)) }
        ensures works { is_broken self.new ≡ is_broken self.old }
        ensures broken { RefusesIfBroken (is_broken self.old) GateFault.Broken self.old self.new result }
    {
        if self.is_broken {
            return Err(GateFault::Broken);
        }
        if !is_open(&mut self.disk)? {
            return Ok(None);
        }
        let len = read_length(&mut self.disk)?;
        let body = read_vec(&mut self.disk, alloc, BODY_AT, len as usize)?;
        Ok(Some(body))
    }

    /// The body, or none where the gate is closed, as `read` answers it; but one that is not wanted is told as `Damaged`
    /// by its front, and takes no memory. It makes three device calls at most.
    pub fn read_wanted<T: BodyTest>(
        &mut self,
        alloc: Global,
        test: &T,
    ) -> Result<Option<Vec<u8>>, GateFault>
        ensures read { IsTrue (D.reads_were_true (disk_of self.new)) → IfOk result (HasBody (D.state (disk_of self.old)).contents) }
        ensures damaged { TellsUnwanted ⟦<D as Disk>⟧ (T.wants test.now) self.old self.new result }
        ensures fits { OnOk result (length (D.state (disk_of self.old)).contents ≤ 2 ^ 62) }

        // The file stays as it is.
        ensures rests { (file : List ℕ) → Rests ⟦<D as Disk>⟧ self.old file → Rests ⟦<D as Disk>⟧ self.new file }
        ensures reads { WasRead ⟦<D as Disk>⟧ 3 (disk_of self.old) (disk_of self.new) }
        ensures device { D.failures (disk_of self.new) ≡ failures_after result (D.failures (disk_of self.old)) }
        ensures works { is_broken self.new ≡ is_broken self.old }
        ensures broken { RefusesIfBroken (is_broken self.old) GateFault.Broken self.old self.new result }
    {
        if self.is_broken {
            return Err(GateFault::Broken);
        }
        if !is_open(&mut self.disk)? {
            return Ok(None);
        }
        let mut head = [0; HEAD_LEN];
        let len = read_head(&mut self.disk, &mut head)?;
        if !test.may_want(len, &head[8..]) {
            return Err(GateFault::Damaged);
        }
        let at = BODY_AT;
        let body = read_vec(&mut self.disk, alloc, at, len as usize)?;
        Ok(Some(body))
    }
}

// Puts a length and a body behind the first byte of a file, and ends it there.
fn replace_body<D: Disk>(disk: &mut D, body: &[u8]) -> Result<(), DiskFault>
    ensures written { ReplacesBody ⟦<D as Disk>⟧ body.now disk.old disk.new result }
    ensures any_moment { LeavesClosed ⟦<D as Disk>⟧ disk.old disk.new }
    ensures calls { CallsAtMost ⟦<D as Disk>⟧ 4 disk.old disk.new }
    ensures kept { WereTrueBefore ⟦<D as Disk>⟧ disk.old disk.new }
    ensures failures { D.failures disk.new ≡ counted result (D.failures disk.old) }
{
    disk.write_at(1, &(body.len() as u64).to_be_bytes())?;
    disk.write_at(BODY_AT, body)?;
    disk.cut(BODY_AT + body.len() as u64)?;
    disk.sync()
}

// Whether the first byte of a file is an open gate.
fn is_open<D: Disk>(disk: &mut D) -> Result<bool, GateFault>
    ensures some { OnOk result (1 ≤ length (D.state disk.old).contents) }
    ensures fits { OnOk result (length (D.state disk.old).contents ≤ 2 ^ 62) }
    ensures open { IsTrue (D.reads_were_true disk.new) → IfOk result (TellsGate (D.state disk.old).contents) }
    ensures damaged { IsErrOf result GateFault.Damaged → (D.state disk.old).contents ≡ [] }
    ensures fault { IfErr result IsDamagedOrDevice }
    ensures device { D.failures disk.new ≡ failures_after result (D.failures disk.old) }
    ensures reads { WasRead ⟦<D as Disk>⟧ 1 disk.old disk.new }
{
    if disk.len() == 0 {
        return Err(GateFault::Damaged);
    }
    let mut gate = [0];
    read_bytes(disk, 0, &mut gate)?;
    Ok(gate[0] == OPEN)
}

// The length behind the first byte of a file. `Damaged` if the file is too short for it.
fn read_length<D: Disk>(disk: &mut D) -> Result<u64, GateFault>
    ensures within { IfOk result (λ len. 9 + len ≤ length (D.state disk.old).contents) }
    ensures bytes { IsTrue (D.reads_were_true disk.new) → IfOk result (HasLength (D.state disk.old).contents) }
    ensures damaged { IsTrue (D.reads_were_true disk.new) → IsErrOf result GateFault.Damaged → IsNotOpen (D.state disk.old).contents }
    ensures fault { IfErr result IsDamagedOrDevice }
    ensures device { D.failures disk.new ≡ failures_after result (D.failures disk.old) }
    ensures reads { WasRead ⟦<D as Disk>⟧ 1 disk.old disk.new }
{
    let file_len = disk.len();
    if file_len < BODY_AT {
        return Err(GateFault::Damaged);
    }
    let mut bytes = [0; 8];
    read_bytes(disk, 1, &mut bytes)?;
    let len = number_of(&bytes);
    if len > file_len - BODY_AT {
        return Err(GateFault::Damaged);
    }
    Ok(len)
}

// The length behind the first byte of a file, and the bytes behind it: the front of the body, if that has one.
// `Damaged` as for `read_length`.
fn read_head<D: Disk>(disk: &mut D, head: &mut [u8]) -> Result<u64, GateFault>
    requires { length head.old ≡ HEAD_LEN }
    ensures size { length head.new ≡ HEAD_LEN }
    ensures within { IfOk result (λ len. 9 + len ≤ length (D.state disk.old).contents) }
    ensures bytes { IsTrue (D.reads_were_true disk.new) → IfOk result (HasLength (D.state disk.old).contents) }
    ensures front { IsTrue (D.reads_were_true disk.new) → IfOk result (HasFront (D.state disk.old).contents head.new) }
    ensures damaged { IsTrue (D.reads_were_true disk.new) → IsErrOf result GateFault.Damaged → IsNotOpen (D.state disk.old).contents }
    ensures fault { IfErr result IsDamagedOrDevice }
    ensures device { D.failures disk.new ≡ failures_after result (D.failures disk.old) }
    ensures reads { WasRead ⟦<D as Disk>⟧ 1 disk.old disk.new }
{
    let file_len = disk.len();
    if file_len < BODY_AT + FRONT_LEN as u64 {
        return read_length(disk);
    }
    read_bytes(disk, 1, head)?;
    let len = number_of(&head[..8]);
    if file_len - BODY_AT < len {
        return Err(GateFault::Damaged);
    }
    Ok(len)
}

// The number that eight big-endian bytes spell.
pub(crate) fn number_of(bytes: &[u8]) -> u64
    requires { length bytes.now ≡ 8 }
    ensures { to_be_bytes w64 result ≡ bytes.now }
{
    u64::from_be_bytes([
        bytes[0], bytes[1], bytes[2], bytes[3], bytes[4], bytes[5], bytes[6], bytes[7],
    ])
}
