//! A detector at the newest root of two files, and one of no events.

ghost use Rattle.std.specs.Prelude.{◌≡◌, ◌↔◌, ◌≤◌, [], false, IsTrue, IfOk, IfErr, IfSome, OnOk};
ghost use Rattle.hg_model.specs.Change.{empty_content};
ghost use Rattle.hg_sets.specs.Interning.{first_table};
ghost use Rattle.hg_detect.specs.Engine.{AtPresent};
ghost use Rattle.hg_detect.specs.Shown.{content};
ghost use Rattle.hg_disk.specs.Moments.{AddsNoImage};
ghost use Rattle.hg_pages.specs.Files as files;
ghost use Rattle.hg_pool.specs.Kept.{IsFaithful};
ghost use Rattle.hg_pool.specs.Maps as pools;
ghost use Rattle.hg_pool.specs.Maps.{live};
ghost use Rattle.hg_pool.specs.OfWords.{MayBring};
ghost use Rattle.hg_root.specs.Checkpoints.{LieWithin};
ghost use Rattle.hg_root.specs.Finding.{AreWhole, HasNoNewest, IsNewestOf, IsOnlyOf, IsWholeIn, WasRead, number_in, root_in};
ghost use Rattle.hg_root.specs.Pairs.{IsWorking, ReadsWereTrue, failures, first_of, second_of};
ghost use Rattle.hg_checkpoint.specs.Restoring.{file_in};
ghost use Rattle.hg_recovery.specs.Answers.{CountsFailures, IfDamaged, IsOfRecovery, IsOfRoots, OnDamaged};
ghost use Rattle.hg_recovery.specs.Detectors.{HasSize, IsAtRest, IsReady};
ghost use Rattle.hg_recovery.specs.Rooting.{CantRoot, CountsInFile, CountsRooting, HasCheckpointOf, HasNoCheckpointOf, HasNoneIn, IsNewestRoot, IsOnlyRoot, IsRootedAt, IsTooFew, LacksRoom, NamesPages, PairStands, StandIfSettled, StartsAt, roots_of, slots_of, table_at};

use hg_checkpoint::{Limits, lies_within, restored};
use hg_detect::detector::Detector;
use hg_disk::Disk;
use hg_model::verdict::Refusal;
use hg_pages::{MOST_SLOTS, SlotFile, Table};
use hg_pool::Pool;
use hg_root::{Newest, Root, RootFault, RootPair};
use hg_sets::MOST_SETS;
use std::alloc::Global;

/// The detector of no events, over a file of slots; no slot is named. Without memory the file is handed back.
pub fn empty_detector<D: Disk>(
    alloc: Global,
    file: SlotFile<D>,
    limits: Limits,
) -> Result<Detector<Pool<D>>, SlotFile<D>>
    requires frames { (4 ≤ limits.frames) × (limits.frames ≤ 4096) }
    requires sets { (1 ≤ limits.sets) × (limits.sets ≤ MOST_SETS) }
    requires slots { (1 ≤ limits.slots) × (limits.slots ≤ MOST_SLOTS) }
    ensures content { IfOk result (λ d. content (live ⟦<D as Disk>⟧) d ≡ empty_content) }
    ensures sets { IfOk result (λ d. d.sets ≡ first_table limits.sets) }
    ensures file { IfOk result (λ d. d.words.file ≡ file) }
    ensures root { IfOk result (λ d. d.words.root ≡ []) }
    ensures size { IfOk result (HasSize limits) }
    ensures rests { IfOk result (λ d. IsAtRest d.words) }
    ensures lawful { IfOk result (AtPresent MayBring) }
    ensures faithful { IsTrue D.is_honest → IfOk result (AtPresent (IsFaithful ⟦<D as Disk>⟧)) }
    ensures handed_back { IfErr result (λ f. f ≡ file) }
{
    let pool = Pool::new(alloc, file, Table::new(alloc), limits.frames, limits.slots)?;
    match Detector::new(alloc, pool, limits.sets) {
        Ok(detector) => Ok(detector),
        Err(pool) => Err(pool.into_disks()),
    }
}

/// The two roots of two files that can be used.
fn newest<D: Disk>(alloc: Global, roots: &mut RootPair<D>) -> Result<Newest, Refusal>
    requires works { IsWorking roots.old }
    ensures found { ReadsWereTrue ⟦<D as Disk>⟧ roots.new → IfOk result (IsNewestOf ⟦<D as Disk>⟧ roots.old) }
    ensures only { ReadsWereTrue ⟦<D as Disk>⟧ roots.new → IfOk result (IsOnlyOf ⟦<D as Disk>⟧ roots.old) }
    ensures whole { IfOk result AreWhole }
    ensures stands { ReadsWereTrue ⟦<D as Disk>⟧ roots.new → PairStands ⟦<D as Disk>⟧ roots.old roots.new result }
    ensures damaged { ReadsWereTrue ⟦<D as Disk>⟧ roots.new → OnDamaged result (HasNoNewest ⟦<D as Disk>⟧ roots.old) }
    ensures works { OnOk result (IsWorking roots.new) }
    ensures refusal { IfErr result IsOfRoots }
    ensures first { WasRead ⟦<D as Disk>⟧ (first_of roots.old) (first_of roots.new) }
    ensures second { WasRead ⟦<D as Disk>⟧ (second_of roots.old) (second_of roots.new) }
    ensures device { CountsFailures result (failures ⟦<D as Disk>⟧ roots.old) (failures ⟦<D as Disk>⟧ roots.new) }
{
    match roots.newest(alloc) {
        Ok(found) => Ok(found),
        Err(RootFault::DeviceFault) => Err(Refusal::DeviceFault),
        Err(RootFault::OutOfMemory) => Err(Refusal::OutOfMemory),
        Err(RootFault::Damaged) => Err(Refusal::Damaged),
        Err(RootFault::Broken) => Err(Refusal::Damaged),
    }
}

/// Whether the slots that a root names lie within the file, if there is a root.
fn lie_within<D: Disk>(root: &Option<Root>, file: &SlotFile<D>) -> bool
    ensures { IsTrue result ↔ IfSome (root_in root.now) (LieWithin (D.state (files.disk_of file.now)).contents) }
{
    match root {
        Some(root) => lies_within(root, file),
        None => true,
    }
}

/// The newest root of two files, or none, if the slots of the other root lie within the file of slots.
fn standing<D: Disk>(
    alloc: Global,
    roots: &mut RootPair<D>,
    file: &SlotFile<D>,
) -> Result<Option<Root>, Refusal>
    requires works { IsWorking roots.old }
    ensures found { ReadsWereTrue ⟦<D as Disk>⟧ roots.new → IfOk result (IsNewestRoot ⟦<D as Disk>⟧ roots.old) }
    ensures only { ReadsWereTrue ⟦<D as Disk>⟧ roots.new → IfOk result (IsOnlyRoot ⟦<D as Disk>⟧ roots.old) }
    ensures whole { IfOk result IsWholeIn }
    ensures stands { ReadsWereTrue ⟦<D as Disk>⟧ roots.new → StandIfSettled ⟦<D as Disk>⟧ roots.old roots.new file.now result }
    ensures damaged { ReadsWereTrue ⟦<D as Disk>⟧ roots.new → OnDamaged result (HasNoneIn ⟦<D as Disk>⟧ roots.old file.now) }
    ensures works { OnOk result (IsWorking roots.new) }
    ensures refusal { IfErr result IsOfRoots }
    ensures first { WasRead ⟦<D as Disk>⟧ (first_of roots.old) (first_of roots.new) }
    ensures second { WasRead ⟦<D as Disk>⟧ (second_of roots.old) (second_of roots.new) }
    ensures device { CountsFailures result (failures ⟦<D as Disk>⟧ roots.old) (failures ⟦<D as Disk>⟧ roots.new) }
{
    let Newest { root, former } = newest(alloc, roots)?;
    if !lie_within(&former, file) {
        return Err(Refusal::Damaged);
    }
    Ok(root)
}

/// The detector of a root, or that of no events if there is no root.
fn detector_of<D: Disk>(
    alloc: Global,
    found: Option<Root>,
    file: SlotFile<D>,
    limits: Limits,
) -> Result<Detector<Pool<D>>, (Refusal, SlotFile<D>)>
    requires frames { (4 ≤ limits.frames) × (limits.frames ≤ 4096) }
    requires sets { (1 ≤ limits.sets) × (limits.sets ≤ MOST_SETS) }
    requires slots { (1 ≤ limits.slots) × (limits.slots ≤ MOST_SLOTS) }
    requires whole { IsWholeIn found }
    requires works { files.is_broken file ≡ false }
    ensures sets { IfOk result (λ d. d.sets ≡ table_at limits.sets (root_in found)) }
    ensures content { IsTrue (D.reads_were_true (files.disk_of (file_in result))) → StartsAt ⟦<D as Disk>⟧ (root_in found) file result }
    ensures stands { IsTrue (D.reads_were_true (files.disk_of (file_in result))) → OnOk result (HasCheckpointOf ⟦<D as Disk>⟧ (root_in found) file) }
    ensures damaged { IsTrue (D.reads_were_true (files.disk_of (file_in result))) → IfDamaged result (HasNoCheckpointOf ⟦<D as Disk>⟧ (root_in found) file) }
    ensures lawful { IfOk result (AtPresent MayBring) }
    ensures faithful { IsTrue D.is_honest → IfOk result (AtPresent (IsFaithful ⟦<D as Disk>⟧)) }
    ensures ready { IsTrue D.is_honest → IfOk result (IsReady ⟦<D as Disk>⟧) }
    ensures names { NamesPages (root_in found) result }
    ensures size { IfOk result (HasSize limits) }
    ensures rests { IfOk result (λ d. IsAtRest d.words) }
    ensures state { D.state (files.disk_of (file_in result)) ≡ D.state (files.disk_of file) }
    ensures any_moment { AddsNoImage ⟦<D as Disk>⟧ (files.disk_of file) (files.disk_of (file_in result)) }
    ensures unbroken { files.is_broken (file_in result) ≡ false }
    ensures device { CountsInFile ⟦<D as Disk>⟧ file result }
    ensures full { IfErr result (λ e. IsTooFew limits.sets limits.slots (root_in found) e.0) }
    ensures refusal { IfErr result (λ e. IsOfRecovery e.0) }
{
    match found {
        Some(root) => restored(alloc, root, file, limits),
        None => match empty_detector(alloc, file, limits) {
            Ok(detector) => Ok(detector),
            Err(file) => Err((Refusal::OutOfMemory, file)),
        },
    }
}

/// The number of a root, 0 if there is none.
fn number_of(root: &Option<Root>) -> u64
    ensures { result ≡ number_in (root_in root.now) }
{
    match root {
        Some(root) => root.number,
        None => 0,
    }
}

/// The detector that stands at the newest root of two files, or at none, over the file of slots; the two files; and the number of the
/// root. Each page that the root names is read. A refusal hands the disks back.
pub fn rooted<D: Disk>(
    alloc: Global,
    slots: D,
    roots: RootPair<D>,
    limits: Limits,
) -> Result<(Detector<Pool<D>>, RootPair<D>, u64), (Refusal, D, RootPair<D>)>
    requires frames { (4 ≤ limits.frames) × (limits.frames ≤ 4096) }
    requires sets { (1 ≤ limits.sets) × (limits.sets ≤ MOST_SETS) }
    requires slots { (1 ≤ limits.slots) × (limits.slots ≤ MOST_SLOTS) }
    requires works { IsWorking roots }
    ensures rooted { IsTrue D.is_honest → IsRootedAt ⟦<D as Disk>⟧ limits.sets roots slots result }
    ensures lawful { IfOk result (λ r. AtPresent MayBring r.0) }
    ensures size { IfOk result (λ r. HasSize limits r.0) }
    ensures rests { IfOk result (λ r. IsAtRest r.0.words) }
    ensures unbroken { IfOk result (λ r. pools.is_broken r.0.words ≡ false) }
    ensures damaged { IsTrue D.is_honest → CantRoot ⟦<D as Disk>⟧ roots slots result }
    ensures full { IsTrue D.is_honest → IfErr result (λ e. LacksRoom ⟦<D as Disk>⟧ limits.sets limits.slots roots e.0) }
    ensures roots_work { IfOk result (λ r. IsWorking r.1) }
    ensures refusal { IfErr result (λ e. IsOfRecovery e.0) }
    ensures state { D.state (slots_of result) ≡ D.state slots }
    ensures any_moment { AddsNoImage ⟦<D as Disk>⟧ slots (slots_of result) }
    ensures first { WasRead ⟦<D as Disk>⟧ (first_of roots) (first_of (roots_of result)) }
    ensures second { WasRead ⟦<D as Disk>⟧ (second_of roots) (second_of (roots_of result)) }
    ensures device { CountsRooting ⟦<D as Disk>⟧ roots slots result }
{
    let mut roots = roots;
    let file = SlotFile::attach(slots);
    let found = match standing(alloc, &mut roots, &file) {
        Ok(found) => found,
        Err(refusal) => return Err((refusal, file.into_disks(), roots)),
    };
    let number = number_of(&found);
    match detector_of(alloc, found, file, limits) {
        Ok(detector) => Ok((detector, roots, number)),
        Err((refusal, file)) => Err((refusal, file.into_disks(), roots)),
    }
}
