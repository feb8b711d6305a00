//! A detector with the content of a root and its pages.

ghost use Rattle.std.specs.Prelude.{◌≡◌, IfErr, IfOk, IsTrue, OnOk, false, length};
ghost use Rattle.hg_cells.specs.Paged.{AreWithin};
ghost use Rattle.hg_detect.specs.Memory.{IsWhole as IsWholeDetector, content_of};
ghost use Rattle.hg_pages.specs.Files.{WasRead, disk_of, is_broken, known};
ghost use Rattle.hg_root.specs.Lawful.{IsLawful};
ghost use Rattle.hg_root.specs.Roots.{IsWhole, parts_of};
ghost use Rattle.hg_checkpoint.specs.NamedPages.{HasPagesOf};
ghost use Rattle.hg_checkpoint.specs.Restoring.{detector_with};
ghost use Rattle.hg_recovery.specs.Answers.{CountsFailures, IsOfRoots, OnDamaged};
ghost use Rattle.hg_saved.specs.Saved.{GivesContentOf, IsNumbered};

use crate::pages::words_of;
use hg_cells::paged::PagedWords;
use hg_detect::detector::Detector;
use hg_detect::memory::MemoryDetector;
use hg_detect::parts::DetectorParts;
use hg_disk::Disk;
use hg_graph::Graph;
use hg_model::verdict::Refusal;
use hg_pages::SlotFile;
use hg_root::Root;
use hg_sets::MOST_SETS;
use std::alloc::Global;

/// The detector of a root over these words. The one refusal is `OutOfMemory`.
fn over_words(alloc: Global, root: Root, words: PagedWords) -> Result<MemoryDetector, Refusal>
    requires lawful { IsLawful (parts_of root) }
    requires whole { IsWhole root }
    requires within { AreWithin words (length root.segments.items) (length root.sets.sets) }
    ensures shown { IfOk result (λ d. d ≡ detector_with root MOST_SETS words) }
    ensures whole { IfOk result IsWholeDetector }
    ensures refusal { IfErr result (λ r. r ≡ Refusal.OutOfMemory) }
{
    let Root {
        number: _,
        state,
        segments,
        sets,
        total,
        reports,
        sources,
        pages,
    } = root;
    drop(sources);
    drop(pages);
    let graph = match Graph::restore(alloc, segments) {
        Ok(graph) => graph,
        Err(_) => return Err(Refusal::OutOfMemory),
    };
    let parts = DetectorParts {
        state,
        graph,
        sets,
        kept: reports,
        total,
    };
    match Detector::restore(alloc, parts, words) {
        Ok(detector) => Ok(detector),
        Err(_) => Err(Refusal::OutOfMemory),
    }
}

/// The detector of a root, its words read from the slots that it names. Each page is read once.
pub(crate) fn detector_at<D: Disk>(
    alloc: Global,
    root: Root,
    file: &mut SlotFile<D>,
) -> Result<MemoryDetector, Refusal>
    requires lawful { IsLawful (parts_of root) }
    requires whole { IsWhole root }
    ensures content { IsTrue (D.reads_were_true (disk_of file.new)) → GivesContentOf (parts_of root) (known ⟦<D as Disk>⟧ file.old) result }
    ensures numbered { IfOk result (λ d. IsNumbered (content_of d)) }
    ensures whole { IfOk result IsWholeDetector }
    ensures limit { IfOk result (λ d. d.sets.limit ≡ MOST_SETS) }
    ensures stands { IsTrue (D.reads_were_true (disk_of file.new)) → OnOk result (HasPagesOf (parts_of root) (known ⟦<D as Disk>⟧ file.old)) }
    ensures damaged { IsTrue (D.reads_were_true (disk_of file.new)) →
        OnDamaged result (¬ HasPagesOf (parts_of root) (known ⟦<D as Disk>⟧ file.old)) }
    ensures read { WasRead ⟦<D as Disk>⟧ (length root.pages.items) file.old file.new }
    ensures device { CountsFailures result (D.failures (disk_of file.old)) (D.failures (disk_of file.new)) }
    ensures refusal { is_broken file.old ≡ false → IfErr result IsOfRoots }
{
    let words = words_of(alloc, &root, file)?;
    over_words(alloc, root, words)
}
