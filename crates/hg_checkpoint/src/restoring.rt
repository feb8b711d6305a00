//! A detector over a pool, from a root and the file of slots that it names.
ghost use Rattle.std.specs.Prelude.{◌≡◌, ◌<◌, ◌≤◌, length, IfErr, IfOk, IsTrue, OnOk};
ghost use Rattle.hg_detect.specs.Engine.{AtPresent};
ghost use Rattle.hg_detect.specs.Shown.{content};
ghost use Rattle.hg_cells.specs.Words.{failed_after};
ghost use Rattle.hg_pages.specs.Files.{WasRead, disk_of, known};
ghost use Rattle.hg_root.specs.Lawful.{IsLawful};
ghost use Rattle.hg_root.specs.Roots.{IsWhole, parts_of};
ghost use Rattle.hg_checkpoint.specs.Restoring.{AreLimits, FitsLimits, FitsSets, IsTrueCause, NamesBeyond, RestoresContent, detector_of, failures_after, file_in};
ghost use Rattle.hg_checkpoint.specs.NamedPages.{HasPagesOf, entries_of};
ghost use Rattle.hg_checkpoint.specs.declared.limits.Limits.{Limits as LimitsOf};

use crate::checking::check_slots;
use crate::detectors::over_pool;
use crate::limits::Limits;
use crate::page_table::{lie_below, table_of};
use hg_cells::words::Words;
use hg_detect::detector::Detector;
use hg_disk::Disk;
use hg_model::verdict::Refusal;
use hg_pages::{SlotFile, Table};
use hg_pool::Pool;
use hg_root::Root;
use std::alloc::Global;

// Reads each page that a root names.
fn read_pages<D: Disk>(root: &Root, file: &mut SlotFile<D>) -> Result<(), Refusal>
    requires { IsLawful (parts_of root.now) }
    ensures stands { IsTrue (D.reads_were_true (disk_of file.new)) → OnOk result (HasPagesOf (parts_of root.now) (known ⟦<D as Disk>⟧ file.old)) }
    ensures refusal { (caps : LimitsOf) → IfErr result (IsTrueCause ⟦<D as Disk>⟧ (parts_of root.now) caps file.old file.new) }
    ensures read { WasRead ⟦<D as Disk>⟧ (length root.now.pages.items) file.old file.new }
    ensures device { D.failures (disk_of file.new) ≡ failed_after result (D.failures (disk_of file.old)) }
{
    Ok(check_slots(root, file)?)
}

// The table of the pages that a root names, if the root fits the caps and the slots have its pages.
fn checked_table<D: Disk>(
    alloc: Global,
    root: &Root,
    file: &mut SlotFile<D>,
    caps: Limits,
) -> Result<Table, Refusal>
    requires { IsLawful (parts_of root.now) }
    ensures table { IfOk result (λ table. table.entries ≡ entries_of root.now.pages.items) }
    ensures fits { OnOk result (FitsLimits (parts_of root.now) caps) }
    ensures sets { caps.sets < length root.now.sets.sets → IfErr result (λ r. r ≡ Refusal.FullSets) }
    ensures slots { FitsSets root.now caps → NamesBeyond root.now caps → IfErr result (λ r. r ≡ Refusal.FullSlots) }
    ensures unread { ¬ FitsLimits (parts_of root.now) caps → file.new ≡ file.old }
    ensures stands { IsTrue (D.reads_were_true (disk_of file.new)) → OnOk result (HasPagesOf (parts_of root.now) (known ⟦<D as Disk>⟧ file.old)) }
    ensures refusal { IfErr result (IsTrueCause ⟦<D as Disk>⟧ (parts_of root.now) caps file.old file.new) }
    ensures read { WasRead ⟦<D as Disk>⟧ (length root.now.pages.items) file.old file.new }
    ensures device { D.failures (disk_of file.new) ≡ failed_after result (D.failures (disk_of file.old)) }
{
    if root.sets.len() > caps.sets {
        return Err(Refusal::FullSets);
    }
    if !lie_below(&root.pages, caps.slots) {
        return Err(Refusal::FullSlots);
    }
    read_pages(root, file)?;
    Ok(table_of(alloc, &root.pages)?)
}

/// The detector of a root, over the pool of its pages, with no page in memory. If the reads were true, the slots have the pages
/// of a checkpoint with the root's parts, and the detector has the content of each such checkpoint. Each page is read once,
/// with at most one device call a page (`check_slots`). A refusal hands the file back as it was.
///
/// First it refuses with `FullSets` if the root has more sets than the cap, then with `FullSlots` if it names a slot at the
/// cap or above. Only then it reads.
pub fn restored<D: Disk>(
    alloc: Global,
    root: Root,
    file: SlotFile<D>,
    caps: Limits,
) -> Result<Detector<Pool<D>>, (Refusal, SlotFile<D>)>
    requires lawful { IsLawful (parts_of root) }
    requires whole { IsWhole root }
    requires caps { AreLimits caps }
    ensures shown { IfOk result (λ d. d ≡ detector_of root caps d.words.file) }
    ensures content { IsTrue (D.reads_were_true (disk_of (file_in result))) → RestoresContent ⟦<D as Disk>⟧ root file result }
    ensures stands { IsTrue (D.reads_were_true (disk_of (file_in result))) → OnOk result (HasPagesOf (parts_of root) (known ⟦<D as Disk>⟧ file)) }
    ensures lawful { IfOk result (AtPresent ⟦<Pool<D> as Words>⟧.may_bring) }
    ensures faithful { IsTrue D.is_honest → IfOk result (AtPresent ⟦<Pool<D> as Words>⟧.is_faithful) }
    ensures fits { OnOk result (FitsLimits (parts_of root) caps) }
    ensures sets { caps.sets < length root.sets.sets → IfErr result (λ e. e.0 ≡ Refusal.FullSets) }
    ensures slots { FitsSets root caps → NamesBeyond root caps → IfErr result (λ e. e.0 ≡ Refusal.FullSlots) }
    ensures unread { ¬ FitsLimits (parts_of root) caps → file_in result ≡ file }
    ensures refusal { IfErr result (λ e. IsTrueCause ⟦<D as Disk>⟧ (parts_of root) caps file e.1 e.0) }
    ensures read { WasRead ⟦<D as Disk>⟧ (length root.pages.items) file (file_in result) }
    ensures device { D.failures (disk_of (file_in result)) ≡ failures_after result (D.failures (disk_of file)) }
{
    let mut file = file;
    match checked_table(alloc, &root, &mut file, caps) {
        Ok(table) => match over_pool(alloc, root, table, file, caps) {
            Ok(detector) => Ok(detector),
            Err(file) => Err((Refusal::OutOfMemory, file)),
        },
        Err(refusal) => Err((refusal, file)),
    }
}
