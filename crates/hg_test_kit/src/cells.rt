//! Cells in words.

use crate::text::Text;
use hg_cells::{Cell, PAGE_WORDS, Page};

/// What stands before the numbers of a cell.
#[derive(Clone, Copy)]
pub struct CellWords {
    pub exclusive: &'static [u8],
    pub read: &'static [u8],
    pub modified: &'static [u8],
}

fn put_pair(state: &[u8], one: u32, other: u32, out: &mut Text) {
    out.put_number(state, u64::from(one));
    out.put_number(b",", u64::from(other));
}

/// The word's number and its cell, unless the word is new.
pub fn put_cell(words: &CellWords, word: usize, cell: Cell, out: &mut Text) {
    if cell == Cell::New {
        return;
    }
    out.put_number(b" ", word as u64);
    match cell {
        Cell::New => {}
        Cell::Exclusive(segment) => out.put_number(words.exclusive, u64::from(segment)),
        Cell::SharedRead(threads, locks) => put_pair(words.read, threads, locks, out),
        Cell::SharedModified(threads, locks) => put_pair(words.modified, threads, locks, out),
    }
}

/// The cells of a page that are not new.
pub fn put_page(words: &CellWords, page: &Page, out: &mut Text) {
    for word in 0..PAGE_WORDS {
        put_cell(words, word, page.get(word), out);
    }
}
