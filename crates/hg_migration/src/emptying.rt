//! Emptying the two new files, before a migration is tried again.
ghost use Rattle.std.specs.Prelude.{◌≡◌, ◌+◌, [], IsTrue, IfOk, IfErr, OnOk, IsErrOf};
ghost use Rattle.hg_disk.specs.Calls.{CallsAtMost};
ghost use Rattle.hg_disk.specs.State.{counted, settled};
ghost use Rattle.hg_gate.specs.Reading.{WasRead};
ghost use Rattle.hg_migration.specs.Emptying.{AreNotOpen, AreSettledEmpty, EitherIsOpen, Empties, EmptiesBoth, IsNotEmptyOrDevice, OnlyReads, TellsOpen};
ghost use Rattle.hg_migration.specs.Fault.{failures_after};

use crate::fault::MigrationFault;
use hg_disk::{Disk, DiskFault};
use hg_gate::OPEN;

// Whether a file begins with an open gate.
fn is_open<D: Disk>(disk: &mut D) -> Result<bool, DiskFault>
    ensures open { IsTrue (D.reads_were_true disk.new) → IfOk result (TellsOpen (D.state disk.old).contents) }
    ensures reads { WasRead ⟦<D as Disk>⟧ 1 disk.old disk.new }
    ensures failures { D.failures disk.new ≡ counted result (D.failures disk.old) }
{
    if disk.len() == 0 {
        return Ok(false);
    }
    let mut gate = [0];
    disk.read_at(0, &mut gate)?;
    Ok(gate[0] == OPEN)
}

// Drops all bytes of a file, where it has any.
fn cut_all<D: Disk>(disk: &mut D) -> Result<(), DiskFault>
    ensures none { OnOk result ((D.state disk.new).contents ≡ []) }
    ensures any_moment { Empties ⟦<D as Disk>⟧ disk.old disk.new }
    ensures calls { CallsAtMost ⟦<D as Disk>⟧ 1 disk.old disk.new }
    ensures failures { D.failures disk.new ≡ counted result (D.failures disk.old) }
{
    if disk.len() > 0 {
        return disk.cut(0);
    }
    Ok(())
}

// Drops all bytes of a file, durably.
fn empty<D: Disk>(disk: &mut D) -> Result<(), DiskFault>
    ensures emptied { OnOk result (D.state disk.new ≡ settled []) }
    ensures any_moment { Empties ⟦<D as Disk>⟧ disk.old disk.new }
    ensures calls { CallsAtMost ⟦<D as Disk>⟧ 2 disk.old disk.new }
    ensures failures { D.failures disk.new ≡ counted result (D.failures disk.old) }
{
    cut_all(disk)?;
    disk.sync()
}

/// Empties the two new files, durably, where neither begins with an open gate: so a migration that was stopped can be made
/// again. `NotEmpty` if one of them does; then they are the journals of a store over five devices, and nothing is changed.
/// `DeviceFault` if a call failed: it can be tried again. It makes at most three calls of each.
pub fn empty_files<D: Disk>(journal0: &mut D, journal1: &mut D) -> Result<(), MigrationFault>
    ensures emptied { OnOk result (AreSettledEmpty ⟦<D as Disk>⟧ journal0.new journal1.new) }
    ensures not_open { IsTrue D.is_honest → OnOk result (AreNotOpen ⟦<D as Disk>⟧ journal0.old journal1.old) }
    ensures not_empty { IsTrue D.is_honest → IsErrOf result MigrationFault.NotEmpty → EitherIsOpen ⟦<D as Disk>⟧ journal0.old journal1.old }
    ensures fault { IfErr result IsNotEmptyOrDevice }

    // A store over five devices is only read.
    ensures stays { IsErrOf result MigrationFault.NotEmpty → OnlyReads ⟦<D as Disk>⟧ journal0.old journal0.new journal1.old journal1.new }
    ensures any_moment { EmptiesBoth ⟦<D as Disk>⟧ journal0.old journal0.new journal1.old journal1.new }
    ensures calls0 { CallsAtMost ⟦<D as Disk>⟧ 3 journal0.old journal0.new }
    ensures calls1 { CallsAtMost ⟦<D as Disk>⟧ 3 journal1.old journal1.new }
    ensures device { D.failures journal0.new + D.failures journal1.new ≡ failures_after result (D.failures journal0.old + D.failures journal1.old) }
{
    if is_open(journal0)? {
        return Err(MigrationFault::NotEmpty);
    }
    if is_open(journal1)? {
        return Err(MigrationFault::NotEmpty);
    }
    empty(journal0)?;
    Ok(empty(journal1)?)
}
