//! The newest root of two files.

ghost use Rattle.std.specs.Prelude.{◌↔◌, IfErr, IfOk, IfSome, IsTrue};
ghost use Rattle.hg_pages.specs.Files as files;
ghost use Rattle.hg_root.specs.Checkpoints.{LieWithin};
ghost use Rattle.hg_root.specs.Finding.{AreWhole, HasNoNewest, IsNewestOf, IsOnlyOf, IsWholeIn, WasRead, root_in};
ghost use Rattle.hg_root.specs.Pairs.{IsWorking, ReadsWereTrue, failures, first_of, second_of};
ghost use Rattle.hg_recovery.specs.Answers.{CountsFailures, IsOfRoots, OnDamaged};
ghost use Rattle.hg_recovery.specs.Rooting.{HasNoneIn, IsOnlyRoot};
ghost use Rattle.hg_saved.specs.Saved.{IsNewestWithin};

use hg_checkpoint::lies_within;
use hg_disk::Disk;
use hg_model::verdict::Refusal;
use hg_pages::SlotFile;
use hg_root::{Newest, Root, RootFault, RootPair};
use std::alloc::Global;

/// The two roots of two files that can be used.
fn newest<D: Disk>(alloc: Global, roots: &mut RootPair<D>) -> Result<Newest, Refusal>
    requires works { IsWorking roots.old }
    ensures found { ReadsWereTrue ⟦<D as Disk>⟧ roots.new → IfOk result (IsNewestOf ⟦<D as Disk>⟧ roots.old) }
    ensures only { ReadsWereTrue ⟦<D as Disk>⟧ roots.new → IfOk result (IsOnlyOf ⟦<D as Disk>⟧ roots.old) }
    ensures whole { IfOk result AreWhole }
    ensures damaged { ReadsWereTrue ⟦<D as Disk>⟧ roots.new → OnDamaged result (HasNoNewest ⟦<D as Disk>⟧ roots.old) }
    ensures refusal { IfErr result IsOfRoots }
    ensures first { WasRead ⟦<D as Disk>⟧ (first_of roots.old) (first_of roots.new) }
    ensures second { WasRead ⟦<D as Disk>⟧ (second_of roots.old) (second_of roots.new) }
    ensures device { CountsFailures result (failures ⟦<D as Disk>⟧ roots.old) (failures ⟦<D as Disk>⟧ roots.new) }
{
    match roots.newest(alloc) {
        Ok(found) => Ok(found),
        Err(RootFault::DeviceFault) => Err(Refusal::DeviceFault),
        Err(RootFault::OutOfMemory) => Err(Refusal::OutOfMemory),
        Err(RootFault::Damaged) => Err(Refusal::Damaged),
        Err(RootFault::Broken) => Err(Refusal::Damaged),
    }
}

/// Whether the slots that a root names lie within the file, if there is a root.
fn lie_within<D: Disk>(root: &Option<Root>, file: &SlotFile<D>) -> bool
    ensures { IsTrue result ↔ IfSome (root_in root.now) (LieWithin (D.state (files.disk_of file.now)).contents) }
{
    match root {
        Some(root) => lies_within(root, file),
        None => true,
    }
}

/// The newest root of two files, or none, if the slots of the other root lie within the file of slots.
pub(crate) fn newest_root<D: Disk>(
    alloc: Global,
    roots: &mut RootPair<D>,
    file: &SlotFile<D>,
) -> Result<Option<Root>, Refusal>
    requires works { IsWorking roots.old }
    ensures found { ReadsWereTrue ⟦<D as Disk>⟧ roots.new → IfOk result (IsNewestWithin ⟦<D as Disk>⟧ roots.old file.now) }
    ensures only { ReadsWereTrue ⟦<D as Disk>⟧ roots.new → IfOk result (IsOnlyRoot ⟦<D as Disk>⟧ roots.old) }
    ensures whole { IfOk result IsWholeIn }
    ensures damaged { ReadsWereTrue ⟦<D as Disk>⟧ roots.new → OnDamaged result (HasNoneIn ⟦<D as Disk>⟧ roots.old file.now) }
    ensures refusal { IfErr result IsOfRoots }
    ensures first { WasRead ⟦<D as Disk>⟧ (first_of roots.old) (first_of roots.new) }
    ensures second { WasRead ⟦<D as Disk>⟧ (second_of roots.old) (second_of roots.new) }
    ensures device { CountsFailures result (failures ⟦<D as Disk>⟧ roots.old) (failures ⟦<D as Disk>⟧ roots.new) }
{
    let Newest { root, former } = newest(alloc, roots)?;
    if !lie_within(&former, file) {
        return Err(Refusal::Damaged);
    }
    Ok(root)
}
