//! Giving words their planned cells.

ghost use Rattle.std.specs.Prelude.{◌≡◌, ℕ, ◌+◌, ◌<◌, ◌≤◌, ◌^◌, length};
ghost use Rattle.hg_detect.specs.Planning.{HaveCellOf, KeepsLawForPlan};
ghost use Rattle.hg_cells.specs.Words.{ForWords};
ghost use Rattle.hg_detect.specs.Shown.{given};

use crate::plan::Planned;
use hg_cells::are_same;
use hg_cells::words::Words;

/// The end of the run of words in a plan that get the same cell as the word at `from`.
#[inline]
fn run_end(plan: &[Planned], from: usize) -> usize
    requires { from < length plan.now }
    ensures some { from < result }
    ensures within { result ≤ length plan.now }
    ensures cells { HaveCellOf plan.now from result }
{
    let cell = plan[from].cell;
    for next in from + 1..plan.len() {
        if !are_same(plan[next].cell, cell) {
            return next;
        }
    }
    plan.len()
}

/// Gives the words from `first` on their planned cells.
pub(crate) fn set_words<W: Words>(words: &mut W, first: u64, plan: &[Planned])
    requires kept { ForWords first (first + length plan.now) (W.is_kept words.old) }
    requires fits { first + length plan.now ≤ 2 ^ 62 }
    ensures cells { (w : ℕ) → W.cell_of words.new w ≡ given (W.cell_of words.old) first plan.now w }
    ensures lawful { KeepsLawForPlan plan.now (W.may_bring words.old) (W.may_bring words.new) }
    ensures faithful { KeepsLawForPlan plan.now (W.is_faithful words.old) (W.is_faithful words.new) }
    ensures went { W.went words.old words.new }
    ensures failures { W.failures words.new ≡ W.failures words.old }
{
    let mut at = 0;
    while at < plan.len() {
        let end = run_end(plan, at);
        let planned = plan[at];
        words.set_run(first + at as u64, (end - at) as u64, planned.cell);
        at = end;
    }
}
