//! The two new journal files, made of an old journal.
ghost use Rattle.std.specs.Prelude.{◌≡◌, ◌+◌, ◌-◌, ◌≤◌, [], length, OnOk};
ghost use Rattle.hg_disk.specs.State.{counted};
ghost use Rattle.hg_disk.specs.Calls.{CallsAtMost};
ghost use Rattle.hg_gate.specs.Gated.{LeavesClosed};
ghost use Rattle.hg_gate.specs.Reading.{WasRead};
ghost use Rattle.hg_gate.specs.declared.reader.TheConstants.{PIECE_LEN as PIECE};
ghost use Rattle.hg_migration.specs.Building.{AreBuilt, FillsGated, InTurn, IsGated, MakesGate};
ghost use Rattle.hg_migration.specs.Copying.{pieces_in};

use crate::copying::append_rest;
use hg_disk::{Disk, DiskFault, write_through};
use hg_gate::{CLOSED, OPEN};

// What stands between the gate of a journal with the base 0 and its batches: the header and the base.
const FRONT: [u8; 16] = *b"HGJRNL3\n\0\0\0\0\0\0\0\0";

// Where the batches of an old journal begin: behind its header.
const OLD_BATCHES_AT: u64 = 8;

// Makes a closed gate in an empty file, durably.
fn make_gate<D: Disk>(file: &mut D) -> Result<(), DiskFault>
    requires { (D.state file.old).contents ≡ [] }
    ensures gated { OnOk result (IsGated ⟦<D as Disk>⟧ file.new) }
    ensures any_moment { MakesGate ⟦<D as Disk>⟧ file.old file.new }
    ensures calls { CallsAtMost ⟦<D as Disk>⟧ 2 file.old file.new }
    ensures failures { D.failures file.new ≡ counted result (D.failures file.old) }
{
    file.write_at(0, &[CLOSED])?;
    file.sync()
}

// Puts the header, the base 0 and the bytes behind the header of the old journal behind the gate of a file, durably.
fn fill<D: Disk>(journal: &mut D, file: &mut D, buffer: &mut [u8]) -> Result<(), DiskFault>
    requires header { 8 ≤ length (D.state journal.old).contents }
    requires buffer { length buffer.old ≡ PIECE }
    ensures filled { OnOk result (FillsGated ⟦<D as Disk>⟧ (D.state journal.old).contents file.old file.new) }
    ensures any_moment { LeavesClosed ⟦<D as Disk>⟧ file.old file.new }
    ensures read { WasRead ⟦<D as Disk>⟧ (pieces_in (length (D.state journal.old).contents - 8)) journal.old journal.new }
    ensures calls { CallsAtMost ⟦<D as Disk>⟧ (pieces_in (length (D.state journal.old).contents - 8) + 2) file.old file.new }
    ensures failures { D.failures journal.new + D.failures file.new ≡ counted result (D.failures journal.old + D.failures file.old) }
{
    file.write_at(1, &FRONT)?;
    append_rest(journal, OLD_BATCHES_AT, file, buffer)?;
    file.sync()
}

// Makes the new journal files of an old journal with a header, on two empty disks: the first one has its events behind the
// base 0, the second one is spare. The gate of the first one is opened last.
pub(crate) fn build<D: Disk>(
    journal: &mut D,
    journal0: &mut D,
    journal1: &mut D,
    buffer: &mut [u8],
) -> Result<(), DiskFault>
    requires header { 8 ≤ length (D.state journal.old).contents }
    requires first { (D.state journal0.old).contents ≡ [] }
    requires second { (D.state journal1.old).contents ≡ [] }
    requires buffer { length buffer.old ≡ PIECE }
    ensures built { OnOk result (AreBuilt ⟦<D as Disk>⟧ (D.state journal.old).contents journal0.new journal1.new) }
    ensures any_moment { InTurn ⟦<D as Disk>⟧ (D.state journal.old).contents journal0.old journal0.new journal1.old journal1.new }
    ensures read { WasRead ⟦<D as Disk>⟧ (pieces_in (length (D.state journal.old).contents - 8)) journal.old journal.new }
    ensures calls0 { CallsAtMost ⟦<D as Disk>⟧ (pieces_in (length (D.state journal.old).contents - 8) + 6) journal0.old journal0.new }
    ensures calls1 { CallsAtMost ⟦<D as Disk>⟧ 2 journal1.old journal1.new }
    ensures failures { D.failures journal.new + D.failures journal0.new + D.failures journal1.new ≡ counted result (D.failures journal.old + D.failures journal0.old + D.failures journal1.old) }
{
    make_gate(journal0)?;
    fill(journal, journal0, buffer)?;
    make_gate(journal1)?;
    write_through(journal0, 0, &[OPEN])
}
