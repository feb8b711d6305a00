//! Words one after another that have one cell.

ghost use Rattle.std.specs.Prelude.{◌+◌, ◌<◌, ◌≤◌};
ghost use Rattle.hg_cells.specs.Pages.{HaveCell};

use crate::{Cell, PAGE_WORDS, Page, are_same};

/// A run of words: the cell that they all have, and how many they are.
#[derive(Clone, Copy, Debug, PartialEq, Eq)]
pub struct Run {
    /// The cell of each of them.
    pub cell: Cell,
    /// How many words there are: at least one.
    pub count: u64,
}

/// The run from place `from` of a page on, up to `to` at most: the words that have the cell of the first.
#[inline]
pub fn run_in(page: &Page, from: usize, to: usize) -> Run
    requires in_order { from < to }
    requires in_page { to ≤ PAGE_WORDS }
    ensures some { 0 < result.count }
    ensures within { from + result.count ≤ to }
    ensures cells { HaveCell page.now from (from + result.count) result.cell }
{
    let cell = page.get(from);
    for next in from + 1..to {
        if !are_same(page.get(next), cell) {
            return Run {
                cell,
                count: (next - from) as u64,
            };
        }
    }
    Run {
        cell,
        count: (to - from) as u64,
    }
}
