//! The content of the newest checkpoint of three disks.

ghost use Rattle.std.specs.Prelude.{◌≡◌, IfErr, IfOk, false};
ghost use Rattle.hg_detect.specs.Memory.{IsWhole, content_of};
ghost use Rattle.hg_pages.specs.Files as files;
ghost use Rattle.hg_root.specs.Finding.{WasRead};
ghost use Rattle.hg_root.specs.Pairs.{IsWorking, first_of, second_of};
ghost use Rattle.hg_recovery.specs.Answers.{IsOfRoots, OnDamaged};
ghost use Rattle.hg_recovery.specs.Rooting.{HasNoneIn};
ghost use Rattle.hg_saved.specs.Disks.{CountsSaved, HasNoneSaved, IsSavedOn, ReadsEachPageOnce, ReadsWereTrue, disks_in};
ghost use Rattle.hg_saved.specs.Saved.{BothWereTrue, CountsBoth, IsNumbered, IsSavedIn, ReadsPagesOf, Stays};

use crate::detectors::detector_at;
use crate::roots::newest_root;
use hg_detect::memory::{MemoryDetector, new_detector};
use hg_disk::Disk;
use hg_model::verdict::Refusal;
use hg_pages::SlotFile;
use hg_root::RootPair;
use hg_sets::MOST_SETS;
use std::alloc::Global;

/// The disks that have the checkpoints of a store.
#[derive(Debug, Drop)]
pub struct CheckpointDisks<D> {
    /// The pages of checkpoints.
    pub slots: D,
    /// One of the two heads of checkpoints.
    pub root0: D,
    /// The other one.
    pub root1: D,
}

/// The detector of the newest checkpoint of two root files and a file of slots, or that of no events.
fn saved_in<D: Disk>(
    alloc: Global,
    roots: &mut RootPair<D>,
    file: &mut SlotFile<D>,
) -> Result<MemoryDetector, Refusal>
    requires roots { IsWorking roots.old }
    requires file { files.is_broken file.old ≡ false }
    ensures content { BothWereTrue ⟦<D as Disk>⟧ roots.new file.new →
        IfOk result (λ d. IsSavedIn ⟦<D as Disk>⟧ roots.old file.old (content_of d)) }
    ensures numbered { IfOk result (λ d. IsNumbered (content_of d)) }
    ensures whole { IfOk result IsWhole }
    ensures limit { IfOk result (λ d. d.sets.limit ≡ MOST_SETS) }
    ensures damaged { BothWereTrue ⟦<D as Disk>⟧ roots.new file.new → OnDamaged result (HasNoneIn ⟦<D as Disk>⟧ roots.old file.old) }
    ensures refusal { IfErr result IsOfRoots }
    ensures slots { Stays ⟦<D as Disk>⟧ (files.disk_of file.old) (files.disk_of file.new) }
    ensures first { WasRead ⟦<D as Disk>⟧ (first_of roots.old) (first_of roots.new) }
    ensures second { WasRead ⟦<D as Disk>⟧ (second_of roots.old) (second_of roots.new) }
    ensures calls { BothWereTrue ⟦<D as Disk>⟧ roots.new file.new → ReadsPagesOf ⟦<D as Disk>⟧ roots.old file.old file.new }
    ensures device { CountsBoth ⟦<D as Disk>⟧ roots.old file.old roots.new file.new result }
{
    match newest_root(alloc, roots, file)? {
        Some(root) => detector_at(alloc, root, file),
        None => new_detector(alloc, MOST_SETS),
    }
}

/// The disks of two root files and of a file of slots.
pub(crate) fn disks_of<D: Disk>(roots: RootPair<D>, file: SlotFile<D>) -> CheckpointDisks<D>
    ensures slots { result.slots ≡ files.disk_of file }
    ensures first { result.root0 ≡ first_of roots }
    ensures second { result.root1 ≡ second_of roots }
{
    let (root0, root1) = roots.into_disks();
    CheckpointDisks {
        slots: file.into_disks(),
        root0,
        root1,
    }
}

/// The detector that has the content of the newest checkpoint of these disks, or that of no events where both roots are
/// closed. It can follow events. Its words are in memory: 3 KiB for each page that the root names. The disks are handed
/// back as they were. Whatever they answer, the content counts at most 2^58 events.
///
/// `Damaged` only if the roots are not both closed and the disks have no checkpoint, `DeviceFault` exactly if a device
/// call failed, or `OutOfMemory`. Each page is read once, by one device call, and each root by three calls at most.
pub fn saved_detector<D: Disk>(
    alloc: Global,
    disks: CheckpointDisks<D>,
) -> Result<(MemoryDetector, CheckpointDisks<D>), (Refusal, CheckpointDisks<D>)>
    ensures content { ReadsWereTrue ⟦<D as Disk>⟧ (disks_in result) → IfOk result (λ r. IsSavedOn ⟦<D as Disk>⟧ disks (content_of r.0)) }
    ensures numbered { IfOk result (λ r. IsNumbered (content_of r.0)) }
    ensures whole { IfOk result (λ r. IsWhole r.0) }
    ensures limit { IfOk result (λ r. r.0.sets.limit ≡ MOST_SETS) }
    ensures damaged { ReadsWereTrue ⟦<D as Disk>⟧ (disks_in result) →
        IfErr result (λ e. e.0 ≡ Refusal.Damaged → HasNoneSaved ⟦<D as Disk>⟧ disks) }
    ensures refusal { IfErr result (λ e. IsOfRoots e.0) }
    ensures slots { Stays ⟦<D as Disk>⟧ disks.slots (disks_in result).slots }
    ensures first { WasRead ⟦<D as Disk>⟧ disks.root0 (disks_in result).root0 }
    ensures second { WasRead ⟦<D as Disk>⟧ disks.root1 (disks_in result).root1 }
    ensures calls { ReadsWereTrue ⟦<D as Disk>⟧ (disks_in result) → ReadsEachPageOnce ⟦<D as Disk>⟧ disks (disks_in result) }
    ensures device { CountsSaved ⟦<D as Disk>⟧ disks result }
{
    let CheckpointDisks {
        slots,
        root0,
        root1,
    } = disks;
    let mut roots = RootPair::attach(root0, root1);
    let mut file = SlotFile::attach(slots);
    match saved_in(alloc, &mut roots, &mut file) {
        Ok(detector) => Ok((detector, disks_of(roots, file))),
        Err(refusal) => Err((refusal, disks_of(roots, file))),
    }
}
