//! The pages that a root names, as a map of words in memory.

ghost use Rattle.std.specs.Prelude.{◌≡◌, ◌<◌, All, IfErr, IfOk, IsTrue, OnOk, false, length};
ghost use Rattle.hg_cells.specs.Paged.{AreWithin};
ghost use Rattle.hg_pages.specs.Files.{WasRead, disk_of, is_broken, known};
ghost use Rattle.hg_root.specs.Lawful.{IsLawful};
ghost use Rattle.hg_root.specs.Roots.{parts_of};
ghost use Rattle.hg_checkpoint.specs.NamedPages.{HasEachIn, HasPagesOf, HasSomePage};
ghost use Rattle.hg_recovery.specs.Answers.{CountsFailures, IsOfRoots, OnDamaged};
ghost use Rattle.hg_saved.specs.Words.{HasWordsOf, PutsPage, StaysWithin, TakesPage, TakesPages};

use hg_cells::paged::PagedWords;
use hg_cells::words::Words;
use hg_cells::{PAGE_BYTES, PAGE_WORDS, Page};
use hg_disk::Disk;
use hg_model::verdict::Refusal;
use hg_pages::{MOST_PAGES, SlotFile};
use hg_root::{PageSlot, Root};
use hg_sets::SetTable;
use std::alloc::Global;

/// Gives the words of a page these cells. It takes memory for the page.
fn put_page(words: &mut PagedWords, page: u64, cells: &Page) -> Result<(), Refusal>
    requires { page < MOST_PAGES }
    ensures put { OnOk result (PutsPage page cells.now words.old words.new) }
    ensures refusal { IfErr result (λ r. r ≡ Refusal.OutOfMemory) }
{
    words.keep(page * PAGE_BYTES, 4)?;
    for place in 0..PAGE_WORDS {
        let word = page * PAGE_WORDS as u64 + place as u64;
        words.set(word, cells.get(place));
    }
    Ok(())
}

/// Reads a page from its slot, by one device call, and gives its words their cells. `cells` is of no more use.
fn take_page<D: Disk>(
    named: PageSlot,
    segments: u32,
    sets: &SetTable,
    file: &mut SlotFile<D>,
    cells: &mut Page,
    words: &mut PagedWords,
) -> Result<(), Refusal>
    requires { named.page < MOST_PAGES }
    ensures taken { IsTrue (D.reads_were_true (disk_of file.new)) →
        OnOk result (TakesPage segments sets.now.sets (known ⟦<D as Disk>⟧ file.old) named words.old words.new) }
    ensures within { OnOk result (StaysWithin segments sets.now.sets words.old words.new) }
    ensures damaged { IsTrue (D.reads_were_true (disk_of file.new)) →
        OnDamaged result (¬ HasSomePage segments sets.now.sets (known ⟦<D as Disk>⟧ file.old) named) }
    ensures read { WasRead ⟦<D as Disk>⟧ 1 file.old file.new }
    ensures device { CountsFailures result (D.failures (disk_of file.old)) (D.failures (disk_of file.new)) }
    ensures refusal { is_broken file.old ≡ false → IfErr result IsOfRoots }
{
    file.read_page(named.slot, named.page, segments, sets, cells)?;
    put_page(words, named.page, cells)
}

/// Reads each of these pages from its slot, by one device call each, and gives its words their cells.
fn take_pages<D: Disk>(
    pages: &[PageSlot],
    segments: u32,
    sets: &SetTable,
    file: &mut SlotFile<D>,
    words: &mut PagedWords,
) -> Result<(), Refusal>
    requires { All (λ p. p.page < MOST_PAGES) pages.now }
    ensures taken { IsTrue (D.reads_were_true (disk_of file.new)) →
        OnOk result (TakesPages segments sets.now.sets (known ⟦<D as Disk>⟧ file.old) pages.now words.old words.new) }
    ensures within { OnOk result (StaysWithin segments sets.now.sets words.old words.new) }
    ensures stands { IsTrue (D.reads_were_true (disk_of file.new)) →
        OnOk result (HasEachIn ⟦<D as Disk>⟧ file.old segments sets.now.sets pages.now) }
    ensures damaged { IsTrue (D.reads_were_true (disk_of file.new)) →
        OnDamaged result (¬ HasEachIn ⟦<D as Disk>⟧ file.old segments sets.now.sets pages.now) }
    ensures read { WasRead ⟦<D as Disk>⟧ (length pages.now) file.old file.new }
    ensures device { CountsFailures result (D.failures (disk_of file.old)) (D.failures (disk_of file.new)) }
    ensures refusal { is_broken file.old ≡ false → IfErr result IsOfRoots }
{
    let mut cells = Page::new();
    for page in pages {
        take_page(*page, segments, sets, file, &mut cells, words)?;
    }
    Ok(())
}

/// The words of the pages that a root names, in memory: 3 KiB for each page.
pub(crate) fn words_of<D: Disk>(
    alloc: Global,
    root: &Root,
    file: &mut SlotFile<D>,
) -> Result<PagedWords, Refusal>
    requires { IsLawful (parts_of root.now) }
    ensures cells { IsTrue (D.reads_were_true (disk_of file.new)) → IfOk result (HasWordsOf (parts_of root.now) (known ⟦<D as Disk>⟧ file.old)) }
    ensures within { IfOk result (λ words.
        AreWithin words (length root.now.segments.items) (length root.now.sets.sets)) }
    ensures stands { IsTrue (D.reads_were_true (disk_of file.new)) → OnOk result (HasPagesOf (parts_of root.now) (known ⟦<D as Disk>⟧ file.old)) }
    ensures damaged { IsTrue (D.reads_were_true (disk_of file.new)) →
        OnDamaged result (¬ HasPagesOf (parts_of root.now) (known ⟦<D as Disk>⟧ file.old)) }
    ensures read { WasRead ⟦<D as Disk>⟧ (length root.now.pages.items) file.old file.new }
    ensures device { CountsFailures result (D.failures (disk_of file.old)) (D.failures (disk_of file.new)) }
    ensures refusal { is_broken file.old ≡ false → IfErr result IsOfRoots }
{
    let segments = root.segments.len() as u32;
    let mut words = PagedWords::new(alloc)?;
    take_pages(&root.pages, segments, &root.sets, file, &mut words)?;
    Ok(words)
}
