//! Shadow memory, as the detector sees it.

ghost use Rattle.std.specs.Prelude.{◌≡◌, ◌≢◌, ◌+◌, ◌^◌, ◌<◌, ◌≤◌, ◌==◌, ◌⊎◌, ℕ, List, length, OnOk, IfErr, IfSome, IsTrue, if◌then◌else◌};
ghost use Rattle.hg_model.specs.History.{overlaps};
ghost use Rattle.hg_cells.specs.Cells.{IsWithin};
ghost use Rattle.hg_cells.specs.Words.{AreNewOrOwned, ForOverlapped, ForWords, HasCellWithin, HaveCell, IsWithinWhere, KeepsLaw, KeepsLawFor, KeepsLawFrom, KeepsTrue, NeverRefuses, SameCells, StayWords, failed_after};
ghost use Rattle.hg_model.specs.declared.verdict.Refusal.{Refusal as RefusalOf};
ghost use Rattle.hg_model.specs.declared.verdict.Refusal.TheVariants.{Damaged, FullSets, OutOfMemory};
ghost use Rattle.hg_cells.specs.declared.cell.Cell.{Cell as CellOf};
ghost use Rattle.hg_cells.specs.declared.cell.Cell.TheVariants.{New};

use crate::Cell;
use crate::run::Run;
use hg_model::limits::{GREATEST_ACCESS, GREATEST_BLOCK};
use hg_model::verdict::Refusal;
use hg_sets::SetTable;

/// A map from words to their cells. Words are numbered: word w is the four bytes from the address 4 * w on.
///
/// An access first brings the words that it overlaps, then keeps them, and then sets them. What can fail is in the
/// first two, and neither changes a cell. Words that all have one cell may be filled at once, with none of these.
/// The words of a block are made ready, which can fail and changes no cell, and then cleared.
pub trait Words {
    /// The cell of each word.
    ghost cell_of: { Self → ℕ → CellOf };

    /// The map may be asked to bring words, with this many segments and sets.
    ghost may_bring: { Self → ℕ → ℕ → Type 0 };

    /// The map reads back what it was given, and each cell names only segments and sets that exist, with this many
    /// segments and sets.
    ghost is_faithful: { Self → ℕ → ℕ → Type 0 };

    /// The word was brought, and may be read.
    ghost is_brought: { Self → ℕ → Type 0 };

    /// The word was kept, and may be set.
    ghost is_kept: { Self → ℕ → Type 0 };

    /// So many words from this one on may be given one cell at once.
    ghost may_fill: { Self → ℕ → ℕ → Type 0 };

    /// The words that so many bytes from this address on overlap may be made new at once.
    ghost may_clear: { Self → ℕ → ℕ → Type 0 };

    /// The refusals that `bring` may answer, by the map as it is then.
    ghost may_refuse: { Self → RefusalOf → Type 0 };

    /// The map has what was written, and the cells of each page can be read back from where they stand, with this many
    /// segments and these sets.
    ghost reads_true: { Self → ℕ → List (List ℕ) → Type 0 };

    /// What else calls of the map keep, from its state before them to its state after: what a crash may leave of its file, say.
    /// The detector passes it on.
    ghost went: { Self → Self → Type 0 };

    /// How many calls of the map's devices have failed.
    ghost failures: { Self → ℕ };

    /// Makes readable the words that `len` bytes from `at` on overlap. Checks that their cells name only segments and
    /// sets that exist. Words that are all brought are never refused, and those that were kept still are.
    fn bring(&mut self, at: u64, len: u16, segments: u32, sets: &SetTable) -> Result<(), Refusal>
        requires lawful { may_bring self.old segments (length sets.now.sets) }
        requires some { 0 < len }
        requires few { len ≤ GREATEST_ACCESS }
        requires within { at + len ≤ 2 ^ 64 }
        ensures cells { (n m : ℕ) → is_faithful self.old n m → SameCells (cell_of self.old) (cell_of self.new) }
        ensures brought { OnOk result (ForOverlapped at len (is_brought self.new)) }
        ensures again { NeverRefuses at len (is_brought self.old) result }
        ensures stay { ForOverlapped at len (is_brought self.old) → StayWords (is_kept self.old) (is_kept self.new) }
        ensures named { OnOk result (ForOverlapped at len (HasCellWithin segments sets.now (cell_of self.new))) }
        ensures lawful { KeepsLawFrom segments (length sets.now.sets) (may_bring self.old) (may_bring self.new) }
        ensures faithful { KeepsLaw (is_faithful self.old) (is_faithful self.new) }
        ensures refusal { IfErr result (may_refuse self.new) }
        ensures undamaged { reads_true self.old segments sets.now.sets → IfErr result (λ r. r ≢ Damaged) }
        ensures went { went self.old self.new }
        ensures failures { failures self.new ≡ failed_after result (failures self.old) };

    /// Makes settable the words that `len` bytes from `at` on overlap. It refuses for want of memory alone, and
    /// never words that are all kept.
    fn keep(&mut self, at: u64, len: u16) -> Result<(), Refusal>
        requires brought { ForOverlapped at len (is_brought self.old) }
        requires some { 0 < len }
        requires few { len ≤ GREATEST_ACCESS }
        requires within { at + len ≤ 2 ^ 64 }
        ensures cells { SameCells (cell_of self.old) (cell_of self.new) }
        ensures kept { OnOk result (ForOverlapped at len (is_kept self.new)) }
        ensures again { NeverRefuses at len (is_kept self.old) result }
        ensures lawful { KeepsLaw (may_bring self.old) (may_bring self.new) }
        ensures faithful { KeepsLaw (is_faithful self.old) (is_faithful self.new) }
        ensures refusal { IfErr result (λ r. r ≡ OutOfMemory) }
        ensures went { went self.old self.new }
        ensures failures { failures self.new ≡ failed_after result (failures self.old) };

    /// The cell of a word.
    fn get(&self, word: u64) -> Cell
        requires { is_brought self.now word }
        ensures { result ≡ cell_of self.now word };

    /// A run of words from this one on, up to `end` at most: their cell, and how many they are. It need not be the longest.
    fn run(&self, word: u64, end: u64) -> Run
        requires order { word < end }
        requires brought { ForWords word end (is_brought self.now) }
        ensures some { 0 < result.count }
        ensures within { word + result.count ≤ end }
        ensures cells { HaveCell (cell_of self.now) word result.count result.cell }
    {
        Run {
            cell: self.get(word),
            count: 1,
        }
    }

    /// The cell that `count` words from `first` on all have, where they may be filled. (`None` says nothing of them.) An event asks
    /// this first, so a map with frames takes it as a use of their page.
    fn same(&mut self, first: u64, count: u64) -> Option<Cell>
        ensures cells { IfSome result (HaveCell (cell_of self.new) first count) }
        ensures named { IfSome result (IsWithinWhere (may_bring self.new)) }
        ensures fillable { IfSome result (λ cell. may_fill self.new first count) }
        ensures brought { StayWords (is_brought self.old) (is_brought self.new) }
        ensures kept { StayWords (is_kept self.old) (is_kept self.new) }
        ensures unchanged { (n m : ℕ) → is_faithful self.old n m → SameCells (cell_of self.old) (cell_of self.new) }
        ensures lawful { KeepsLaw (may_bring self.old) (may_bring self.new) }
        ensures faithful { KeepsLaw (is_faithful self.old) (is_faithful self.new) }
        ensures true_still { KeepsTrue (reads_true self.old) (reads_true self.new) }
        ensures went { went self.old self.new }
        ensures failures { failures self.new ≡ failures self.old };

    /// The cell that `count` words from `first` on all have, where the map knows without a search that they may be filled. (`None`
    /// says nothing of them.) It changes nothing.
    #[inline(always)]
    fn peek(&self, first: u64, count: u64) -> Option<Cell>
        ensures cells { IfSome result (HaveCell (cell_of self.now) first count) }
        ensures named { IfSome result (IsWithinWhere (may_bring self.now)) }
        ensures fillable { IfSome result (λ cell. may_fill self.now first count) }
    {
        None
    }

    /// Whether `count` words from `first` on are each new or owned by that segment, and may be filled. (`false` says nothing of
    /// them.)
    fn are_new_or_owned(&self, first: u64, count: u64, owner: u32) -> bool
        ensures cells { IsTrue result → AreNewOrOwned (cell_of self.now) first count owner }
        ensures fillable { IsTrue result → may_fill self.now first count }
    {
        false
    }

    /// Gives `count` words from `first` on a cell.
    fn fill(&mut self, first: u64, count: u64, cell: Cell)
        requires { may_fill self.old first count }
        ensures inside { HaveCell (cell_of self.new) first count cell }
        ensures outside { (w : ℕ) → (w < first) ⊎ (first + count ≤ w) → cell_of self.new w ≡ cell_of self.old w }
        ensures lawful { KeepsLawFor cell (may_bring self.old) (may_bring self.new) }
        ensures faithful { KeepsLawFor cell (is_faithful self.old) (is_faithful self.new) }
        ensures went { went self.old self.new }
        ensures failures { failures self.new ≡ failures self.old };

    /// Gives a word its cell.
    fn set(&mut self, word: u64, cell: Cell)
        requires { is_kept self.old word }
        ensures cells { (w : ℕ) → cell_of self.new w ≡ (if w == word then cell else cell_of self.old w) }
        ensures kept { StayWords (is_kept self.old) (is_kept self.new) }
        ensures lawful { KeepsLawFor cell (may_bring self.old) (may_bring self.new) }
        ensures faithful { KeepsLawFor cell (is_faithful self.old) (is_faithful self.new) }
        ensures went { went self.old self.new }
        ensures failures { failures self.new ≡ failures self.old };

    /// Gives `count` words from `first` on, which were kept, one cell.
    fn set_run(&mut self, first: u64, count: u64, cell: Cell)
        requires kept { ForWords first (first + count) (is_kept self.old) }
        requires some { 0 < count }
        requires fits { first + count ≤ 2 ^ 62 }
        ensures inside { HaveCell (cell_of self.new) first count cell }
        ensures outside { (w : ℕ) → (w < first) ⊎ (first + count ≤ w) → cell_of self.new w ≡ cell_of self.old w }
        ensures kept { StayWords (is_kept self.old) (is_kept self.new) }
        ensures lawful { KeepsLawFor cell (may_bring self.old) (may_bring self.new) }
        ensures faithful { KeepsLawFor cell (is_faithful self.old) (is_faithful self.new) }
        ensures went { went self.old self.new }
        ensures failures { failures self.new ≡ failures self.old }
    {
        for word in first..first + count {
            self.set(word, cell);
        }
    }

    /// Makes ready for `clear` the words that `len` bytes from `at` on overlap. It changes no cell, and what can fail for a block is
    /// here. Words that are all brought and kept are never refused.
    fn ready_to_clear(
        &mut self,
        at: u64,
        len: u32,
        segments: u32,
        sets: &SetTable,
    ) -> Result<(), Refusal>
        requires lawful { may_bring self.old segments (length sets.now.sets) }
        requires some { 0 < len }
        requires few { len ≤ GREATEST_BLOCK }
        requires within { at + len ≤ 2 ^ 64 }
        ensures cells { (n m : ℕ) → is_faithful self.old n m → SameCells (cell_of self.old) (cell_of self.new) }
        ensures ready { OnOk result (may_clear self.new at len) }
        ensures again { NeverRefuses at len (λ w. is_brought self.old w × is_kept self.old w) result }
        ensures lawful { KeepsLawFrom segments (length sets.now.sets) (may_bring self.old) (may_bring self.new) }
        ensures faithful { KeepsLaw (is_faithful self.old) (is_faithful self.new) }
        ensures refusal { IfErr result (may_refuse self.new) }
        ensures undamaged { reads_true self.old segments sets.now.sets → IfErr result (λ r. r ≢ Damaged) }
        ensures went { went self.old self.new }
        ensures failures { failures self.new ≡ failed_after result (failures self.old) };

    /// Makes new the words that `len` bytes from `at` on overlap.
    fn clear(&mut self, at: u64, len: u32)
        requires { may_clear self.old at len }
        ensures cells { (w : ℕ) → cell_of self.new w ≡ (if overlaps at len w then New else cell_of self.old w) }
        ensures lawful { KeepsLaw (may_bring self.old) (may_bring self.new) }
        ensures faithful { KeepsLaw (is_faithful self.old) (is_faithful self.new) }
        ensures went { went self.old self.new }
        ensures failures { failures self.new ≡ failures self.old };

    /// More segments and sets are no obstacle.
    ghost brings_more: { (words : Self) (segments sets more_segments more_sets : ℕ) → segments ≤ more_segments → sets ≤ more_sets
        → may_bring words segments sets → may_bring words more_segments more_sets };

    /// A map stays faithful where segments and sets are added.
    ghost more_faithful: { (words : Self) (segments sets more_segments more_sets : ℕ) → segments ≤ more_segments → sets ≤ more_sets
        → is_faithful words segments sets → is_faithful words more_segments more_sets };

    /// Each cell of a faithful map names only segments and sets that exist.
    ghost faithful_within: { (words : Self) (segments sets : ℕ) → is_faithful words segments sets → (w : ℕ) → IsWithin segments sets (cell_of words w) };

    /// `went` holds from a state to itself.
    ghost went_nowhere: { (words : Self) → went words words };

    /// `went` holds for calls one after another, if it holds for each.
    ghost went_on: { (old mid new : Self) → went old mid → went mid new → went old new };

    /// The map never refuses for a full table of sets.
    ghost not_full: { (words : Self) → may_refuse words FullSets → ⊥ };
}
