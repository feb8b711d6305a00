//! Whether the slots of a file have the pages that a root names.
ghost use Rattle.std.specs.Prelude.{◌≡◌, ◌≤◌, ◌+◌, ◌*◌, ◌↔◌, All, IsTrue, IsErrOf, OnOk, length};
ghost use Rattle.hg_pages.specs.Fault.{failures_after};
ghost use Rattle.hg_pages.specs.Files.{WasRead, disk_of, is_broken, known};
ghost use Rattle.hg_root.specs.Checkpoints.{LieWithin};
ghost use Rattle.hg_root.specs.Lawful.{IsLawful};
ghost use Rattle.hg_root.specs.Roots.{parts_of};
ghost use Rattle.hg_checkpoint.specs.NamedPages.{HasEachIn, HasPagesOf, LacksOne, LacksPages};
ghost use Rattle.hg_checkpoint.specs.Runs.{HasEachPage, IsLongestRun, LieSideBySide, WasReadByRuns};

use hg_cells::Page;
use hg_disk::Disk;
use hg_pages::{MOST_RUN, SlotFault, SlotFile, SlotRun};
use hg_root::{PageSlot, Root};
use hg_sets::SetTable;

// How many pages from the first on one call reads: as many as lie in slots side by side, 21 at most.
fn run_length(pages: &[PageSlot]) -> usize
    requires { 1 ≤ length pages.now }
    ensures { IsLongestRun pages.now result }
{
    let first = pages[0].slot as u64;
    let most = pages.len().min(MOST_RUN);
    for count in 1..most {
        if pages[count].slot as u64 != first + count as u64 {
            return count;
        }
    }
    most
}

// Whether each page stands in the slot at its place of a run. They are read into a page whose cells are of no more use.
fn has_each_page(
    run: &SlotRun,
    pages: &[PageSlot],
    segments: u32,
    sets: &SetTable,
    cells: &mut Page,
) -> bool
    requires { length pages.now ≤ MOST_RUN }
    ensures { IsTrue result ↔ HasEachPage segments sets.now.sets run.now pages.now }
{
    for place in 0..pages.len() {
        if !run.read_page(place, pages[place].page, segments, sets, cells) {
            return false;
        }
    }
    true
}

// Reads pages whose slots lie side by side, by one call, and checks each.
fn check_run<D: Disk>(
    pages: &[PageSlot],
    segments: u32,
    sets: &SetTable,
    file: &mut SlotFile<D>,
    run: &mut SlotRun,
    cells: &mut Page,
) -> Result<(), SlotFault>
    requires some { 1 ≤ length pages.now }
    requires most { length pages.now ≤ MOST_RUN }
    requires run { LieSideBySide pages.now }
    ensures stands { IsTrue (D.reads_were_true (disk_of file.new)) → OnOk result (HasEachIn ⟦<D as Disk>⟧ file.old segments sets.now.sets pages.now) }
    ensures damaged { IsTrue (D.reads_were_true (disk_of file.new)) → LacksOne ⟦<D as Disk>⟧ file.old segments sets.now.sets pages.now result }
    ensures read { WasRead ⟦<D as Disk>⟧ 1 file.old file.new }
    ensures device { D.failures (disk_of file.new) ≡ failures_after result (D.failures (disk_of file.old)) }
    ensures memory { ¬ IsErrOf result SlotFault.OutOfMemory }
    ensures broken { IsErrOf result SlotFault.Broken → IsTrue (is_broken file.old) }
{
    file.read_run(pages[0].slot, pages.len(), run)?;
    if !has_each_page(run, pages, segments, sets, cells) {
        return Err(SlotFault::Damaged);
    }
    Ok(())
}

/// Reads each page that a root names from its slot, and checks its cells. `Damaged` exactly if the slots have the pages of
/// no checkpoint with the root's parts. The file stays as it is, and after an `Err` it can be tried again. It makes at most
/// one device call per page, and one for 21 pages that follow each other in slots side by side. It takes no memory.
pub fn check_slots<D: Disk>(root: &Root, file: &mut SlotFile<D>) -> Result<(), SlotFault>
    requires { IsLawful (parts_of root.now) }
    ensures stands { IsTrue (D.reads_were_true (disk_of file.new)) → OnOk result (HasPagesOf (parts_of root.now) (known ⟦<D as Disk>⟧ file.old)) }
    ensures damaged { IsTrue (D.reads_were_true (disk_of file.new)) → LacksPages ⟦<D as Disk>⟧ file.old (parts_of root.now) result }
    ensures read { WasRead ⟦<D as Disk>⟧ (length root.now.pages.items) file.old file.new }
    ensures runs { WasReadByRuns ⟦<D as Disk>⟧ file.old file.new root.now.pages.items }
    ensures device { D.failures (disk_of file.new) ≡ failures_after result (D.failures (disk_of file.old)) }
    ensures memory { ¬ IsErrOf result SlotFault.OutOfMemory }
    ensures broken { IsErrOf result SlotFault.Broken → IsTrue (is_broken file.old) }
{
    let segments = root.segments.len() as u32;
    let mut run = SlotRun::new();
    let mut cells = Page::new();
    let mut at = 0;
    while at < root.pages.len() {
        let rest = &root.pages[at..];
        let count = run_length(rest);
        check_run(
            &rest[..count],
            segments,
            &root.sets,
            file,
            &mut run,
            &mut cells,
        )?;
        at += count;
    }
    Ok(())
}

// Whether the slot of each of these pages lies within the file.
fn lie_in<D: Disk>(pages: &[PageSlot], file: &SlotFile<D>) -> bool
    ensures { IsTrue result ↔ All (λ p. 3080 * p.slot + 3080 ≤ length (D.state (disk_of file.now)).contents) pages.now }
{
    for page in pages {
        if !file.has_slot(page.slot) {
            return false;
        }
    }
    true
}

/// Whether each slot that a root names lies within the file. It makes no device call. The rules ask no more of the root
/// that is not the newest one.
pub fn lies_within<D: Disk>(root: &Root, file: &SlotFile<D>) -> bool
    ensures { IsTrue result ↔ LieWithin (D.state (disk_of file.now)).contents (parts_of root.now) }
{
    lie_in(&root.pages, file)
}
