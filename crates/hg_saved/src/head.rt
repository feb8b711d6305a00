//! What the newest root says, without its pages.

ghost use Rattle.std.specs.Prelude.{◌≡◌, ◌≤◌, IfErr, IfOk, IfSome, IsTrue};
ghost use Rattle.hg_model.specs.declared.limits.TheConstants.{MOST_EVENTS};
ghost use Rattle.hg_root.specs.Finding.{IsWholeIn, WasRead, root_in};
ghost use Rattle.hg_root.specs.Lawful.{IsLawful};
ghost use Rattle.hg_root.specs.Pairs.{IsWorking, ReadsWereTrue as RootsWereTrue, failures, first_of, second_of};
ghost use Rattle.hg_root.specs.Roots.{IsWhole, parts_of};
ghost use Rattle.hg_recovery.specs.Answers.{CountsFailures, IsOfRoots, OnDamaged};
ghost use Rattle.hg_recovery.specs.Rooting.{HasNoneIn};
ghost use Rattle.hg_saved.specs.Disks.{CountsSaved, HasNoneSaved, IsHeadOn, ReadsWereTrue, disks_in};
ghost use Rattle.hg_saved.specs.Heads.{IsHeadIn, IsHeadOf, IsHeadWithin};

use crate::roots::newest_root;
use crate::saved::{CheckpointDisks, disks_of};
use hg_disk::Disk;
use hg_model::thread::ThreadState;
use hg_model::verdict::Refusal;
use hg_pages::SlotFile;
use hg_root::{Root, RootPair};
use std::alloc::Global;

/// What a checkpoint says of the events that it counts.
#[derive(Drop)]
pub struct SavedHead {
    /// How many events it counts.
    pub events: u64,
    /// How many segments there are after them.
    pub segments: u32,
    /// The threads that they started, by rising number, each with the locks that it holds after them.
    pub threads: Vec<ThreadState>,
}

/// What a root says.
fn head_of(alloc: Global, root: &Root) -> Result<SavedHead, Refusal>
    requires lawful { IsLawful (parts_of root.now) }
    requires whole { IsWhole root.now }
    ensures says { IfOk result (IsHeadOf (parts_of root.now)) }
    ensures numbered { IfOk result (λ h. h.events ≤ MOST_EVENTS) }
    ensures refusal { IfErr result (λ r. r ≡ Refusal.OutOfMemory) }
{
    match root.state.threads(alloc) {
        Ok(threads) => Ok(SavedHead {
            events: root.state.events(),
            segments: root.state.segments(),
            threads,
        }),
        Err(_) => Err(Refusal::OutOfMemory),
    }
}

/// What a root says, if there is one.
fn head_in(alloc: Global, found: &Option<Root>) -> Result<Option<SavedHead>, Refusal>
    requires { IsWholeIn found.now }
    ensures says { IfOk result (IsHeadIn (root_in found.now)) }
    ensures numbered { IfOk result (λ h. IfSome h (λ h. h.events ≤ MOST_EVENTS)) }
    ensures refusal { IfErr result (λ r. r ≡ Refusal.OutOfMemory) }
{
    match found {
        Some(root) => Ok(Some(head_of(alloc, root)?)),
        None => Ok(None),
    }
}

/// What the newest root of two files says, if there is one, and the slots of the other root lie within the file of slots.
fn newest_head<D: Disk>(
    alloc: Global,
    roots: &mut RootPair<D>,
    file: &SlotFile<D>,
) -> Result<Option<SavedHead>, Refusal>
    requires works { IsWorking roots.old }
    ensures head { RootsWereTrue ⟦<D as Disk>⟧ roots.new → IfOk result (IsHeadWithin ⟦<D as Disk>⟧ roots.old file.now) }
    ensures numbered { IfOk result (λ h. IfSome h (λ h. h.events ≤ MOST_EVENTS)) }
    ensures damaged { RootsWereTrue ⟦<D as Disk>⟧ roots.new → OnDamaged result (HasNoneIn ⟦<D as Disk>⟧ roots.old file.now) }
    ensures refusal { IfErr result IsOfRoots }
    ensures first { WasRead ⟦<D as Disk>⟧ (first_of roots.old) (first_of roots.new) }
    ensures second { WasRead ⟦<D as Disk>⟧ (second_of roots.old) (second_of roots.new) }
    ensures device { CountsFailures result (failures ⟦<D as Disk>⟧ roots.old) (failures ⟦<D as Disk>⟧ roots.new) }
{
    let found = newest_root(alloc, roots, file)?;
    head_in(alloc, &found)
}

/// What the newest checkpoint of these disks says of the events that it counts, or none where both roots are closed. No slot is read. The
/// disks are handed back: that of the slots was not called, and each root was by three calls at most.
///
/// `Damaged` only if the roots are not both closed and the disks have no checkpoint, `DeviceFault` exactly if a device call
/// failed, or `OutOfMemory`.
pub fn saved_head<D: Disk>(
    alloc: Global,
    disks: CheckpointDisks<D>,
) -> Result<(Option<SavedHead>, CheckpointDisks<D>), (Refusal, CheckpointDisks<D>)>
    ensures head { ReadsWereTrue ⟦<D as Disk>⟧ (disks_in result) → IfOk result (λ r. IsHeadOn ⟦<D as Disk>⟧ disks r.0) }
    ensures numbered { IfOk result (λ r. IfSome r.0 (λ h. h.events ≤ MOST_EVENTS)) }
    ensures damaged { ReadsWereTrue ⟦<D as Disk>⟧ (disks_in result) →
        IfErr result (λ e. e.0 ≡ Refusal.Damaged → HasNoneSaved ⟦<D as Disk>⟧ disks) }
    ensures refusal { IfErr result (λ e. IsOfRoots e.0) }
    ensures slots { (disks_in result).slots ≡ disks.slots }
    ensures first { WasRead ⟦<D as Disk>⟧ disks.root0 (disks_in result).root0 }
    ensures second { WasRead ⟦<D as Disk>⟧ disks.root1 (disks_in result).root1 }
    ensures device { CountsSaved ⟦<D as Disk>⟧ disks result }
{
    let CheckpointDisks {
        slots,
        root0,
        root1,
    } = disks;
    let mut roots = RootPair::attach(root0, root1);
    let file = SlotFile::attach(slots);
    match newest_head(alloc, &mut roots, &file) {
        Ok(head) => Ok((head, disks_of(roots, file))),
        Err(refusal) => Err((refusal, disks_of(roots, file))),
    }
}
