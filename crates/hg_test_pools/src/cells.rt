//! Cells in words.

use hg_cells::Cell;
use hg_test_kit::cells::CellWords;

/// How cells are told.
pub const WORDS: CellWords = CellWords {
    exclusive: b":e",
    read: b":r",
    modified: b":m",
};

/// Two numbers with a comma between.
fn pair_of(word: &str) -> Option<(u32, u32)> {
    let (one, other) = word.split_once(',')?;
    Some((one.parse::<u32>().ok()?, other.parse::<u32>().ok()?))
}

/// The cell that a word names: `new`, `e5`, `r1,2` or `m1,2`.
pub fn cell_of(word: &str) -> Option<Cell> {
    if word == "new" {
        return Some(Cell::New);
    }
    if let Some(segment) = word.strip_prefix("e") {
        return Some(Cell::Exclusive(segment.parse::<u32>().ok()?));
    }
    if let Some(sets) = word.strip_prefix("r") {
        let (threads, locks) = pair_of(sets)?;
        return Some(Cell::SharedRead(threads, locks));
    }
    let (threads, locks) = pair_of(word.strip_prefix("m")?)?;
    Some(Cell::SharedModified(threads, locks))
}
