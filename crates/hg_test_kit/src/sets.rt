//! Tables of sets in words.

use hg_model::sets::NumberSet;
use hg_sets::{MOST_SETS, SetTable};
use std::alloc::Global;

/// The numbers of a list with commas.
fn numbers_of(alloc: Global, word: &str) -> Option<NumberSet> {
    let mut numbers = Vec::new(alloc);
    for part in word.split(',') {
        numbers.push(part.parse::<u16>().ok()?).ok()?;
    }
    Some(NumberSet::from_vec(numbers))
}

/// The table of sets that a word names: set 0 is empty, and the others stand with semicolons between. No other is named by `-`.
pub fn sets_of(alloc: Global, word: &str) -> Option<SetTable> {
    let mut sets = Vec::new(alloc);
    sets.push(NumberSet::from_vec(Vec::new(alloc))).ok()?;
    if word != "-" {
        for part in word.split(';') {
            sets.push(numbers_of(alloc, part)?).ok()?;
        }
    }
    SetTable::restore(alloc, MOST_SETS, &sets).ok()?
}
