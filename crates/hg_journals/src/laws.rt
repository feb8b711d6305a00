//! Laws of what two journal files keep.
ghost use Rattle.std.specs.Prelude.{◌≡◌, ℕ, List, false};
ghost use Rattle.hg_model.specs.declared.event.Named.{Named as NamedOf};
ghost use Rattle.hg_journals.specs.Journals.{HaveJournals, KeepOnce};
ghost use Rattle.hg_journals.specs.Pairs.{Keeps, LeavesKept, ReadsKept, is_broken};
ghost use Rattle.hg_journals.specs.Reading.{HasReadFront};

use crate::pair::JournalPair;
use crate::reader::PairReader;
use hg_disk::Disk;

/// Two files keep one base and one list of events, or nothing. It does not matter which of them comes first.
pub fn one_keeping()
    ensures once { (bytes0 bytes1 : List ℕ) → KeepOnce bytes0 bytes1 }
    ensures either_way { (base : ℕ) (events : List NamedOf) (bytes0 bytes1 : List ℕ) →
        HaveJournals base events bytes0 bytes1 → HaveJournals base events bytes1 bytes0 }
{}

/// The bytes of a pair that can be used keep its events, and so do the bytes that a crash leaves.
pub fn each_image_keeps_them<D: Disk>(pair: &JournalPair<D>)
    ensures now { ReadsKept pair.now }
    ensures images { LeavesKept pair.now }
    ensures works { (base : ℕ) (events : List NamedOf) → Keeps pair.now base events → is_broken pair.now ≡ false }
{}

/// The events that a reader has read are the front of those that the pair keeps.
pub fn more<D: Disk>(pair: &JournalPair<D>, reader: &PairReader)
    ensures { HasReadFront pair.now reader.now }
{}
