//! Pages of cells.

ghost use Rattle.std.specs.Prelude.{IfSome, IsTrue, ◌≡◌, ◌↔◌, ◌<◌, ◌≤◌, None, Some, length, replicate, slice_get, slice_set};
ghost use Rattle.hg_cells.specs.Pages.{AreNewOrOwned, HaveCell, filled};
ghost use Rattle.hg_cells.specs.declared.cell.Cell.{Cell as CellOf};
ghost use Rattle.hg_cells.specs.declared.cell.Cell.TheVariants.{New, Exclusive, SharedRead, SharedModified};

use crate::cell::{Cell, is_new_or_owned};
use std::marker::Model;

/// How many words a page has, of 4 bytes each.
pub const PAGE_WORDS: usize = 256;

/// How many bytes of memory a page stands for.
pub const PAGE_BYTES: u64 = 1024;

/// The cells of the 256 words of a page, lowest word first. 3 KiB.
#[derive(Drop)]
pub struct Page {
    cells: [Cell; PAGE_WORDS],
}

impl Model for Page {
    ghost use Rattle.std.specs.Prelude.{◌≡◌, List, length};
    ghost use Rattle.hg_cells.specs.declared.cell.Cell.{Cell};

    ghost Value = { List Cell };

    ghost view = { λ page. page.cells };

    ghost invariant = { λ page. length page.cells ≡ 256 };
}

impl Page {
    /// A page of new words.
    pub fn new() -> Self
        ensures { result ≡ replicate PAGE_WORDS New }
    {
        Page {
            cells: [Cell::New; PAGE_WORDS],
        }
    }

    /// A page with the same cells. It takes no memory.
    pub fn copy(&self) -> Page
        ensures cells { result ≡ self.now }
        ensures words { length self.now ≡ PAGE_WORDS }
    {
        Page { cells: self.cells }
    }

    /// The cell of a word, counted from the page's first.
    #[inline]
    pub fn get(&self, word: usize) -> Cell
        requires { word < PAGE_WORDS }
        ensures cell { slice_get self.now word ≡ Some result }
        ensures words { length self.now ≡ PAGE_WORDS }
    {
        self.cells[word]
    }

    /// The cell that the words from `from` up to, not including, `to` all have, if there is one.
    #[inline(always)]
    pub fn same(&self, from: usize, to: usize) -> Option<Cell>
        requires in_order { from < to }
        requires in_page { to ≤ PAGE_WORDS }
        ensures cells { IfSome result (HaveCell self.now from to) }
        ensures none { result ≡ None → (cell : CellOf) → ¬ HaveCell self.now from to cell }
    {
        let cell = self.cells[from];
        if to == from + 1 || self.are_all(from + 1, to, cell) {
            return Some(cell);
        }
        None
    }

    /// Whether the words from `from` up to, not including, `to` have that cell.
    #[inline(always)]
    fn are_all(&self, from: usize, to: usize, cell: Cell) -> bool
        requires in_page { to ≤ PAGE_WORDS }
        ensures { IsTrue result ↔ HaveCell self.now from to cell }
    {
        match cell {
            Cell::New => self.are_new(from, to),
            Cell::Exclusive(segment) => self.are_owned(from, to, segment),
            Cell::SharedRead(threads, locks) => self.are_read(from, to, threads, locks),
            Cell::SharedModified(threads, locks) => self.are_modified(from, to, threads, locks),
        }
    }

    /// Whether they are new. Here and in the next three, the kind of cell to look for is known before the loop.
    #[inline(always)]
    fn are_new(&self, from: usize, to: usize) -> bool
        requires in_page { to ≤ PAGE_WORDS }
        ensures { IsTrue result ↔ HaveCell self.now from to New }
    {
        for i in from..to {
            let Cell::New = self.cells[i] else {
                return false;
            };
        }
        true
    }

    /// Whether that segment owns them.
    #[inline(always)]
    fn are_owned(&self, from: usize, to: usize, segment: u32) -> bool
        requires in_page { to ≤ PAGE_WORDS }
        ensures { IsTrue result ↔ HaveCell self.now from to (Exclusive segment) }
    {
        for i in from..to {
            let Cell::Exclusive(owner) = self.cells[i] else {
                return false;
            };
            if owner != segment {
                return false;
            }
        }
        true
    }

    /// Whether they are Shared-Read, by these threads under these locks.
    #[inline(always)]
    fn are_read(&self, from: usize, to: usize, threads: u32, locks: u32) -> bool
        requires in_page { to ≤ PAGE_WORDS }
        ensures { IsTrue result ↔ HaveCell self.now from to (SharedRead threads locks) }
    {
        for i in from..to {
            let Cell::SharedRead(sharers, candidates) = self.cells[i] else {
                return false;
            };
            if sharers != threads || candidates != locks {
                return false;
            }
        }
        true
    }

    /// Whether they are Shared-Modified, by these threads under these locks.
    #[inline(always)]
    fn are_modified(&self, from: usize, to: usize, threads: u32, locks: u32) -> bool
        requires in_page { to ≤ PAGE_WORDS }
        ensures { IsTrue result ↔ HaveCell self.now from to (SharedModified threads locks) }
    {
        for i in from..to {
            let Cell::SharedModified(sharers, candidates) = self.cells[i] else {
                return false;
            };
            if sharers != threads || candidates != locks {
                return false;
            }
        }
        true
    }

    /// Whether the words from `from` up to, not including, `to` are each new or owned by that segment.
    #[inline(always)]
    pub fn are_new_or_owned(&self, from: usize, to: usize, owner: u32) -> bool
        requires in_page { to ≤ PAGE_WORDS }
        ensures { IsTrue result ↔ AreNewOrOwned self.now from to owner }
    {
        for i in from..to {
            if !is_new_or_owned(self.cells[i], owner) {
                return false;
            }
        }
        true
    }

    /// Gives a word a cell.
    #[inline]
    pub fn set(&mut self, word: usize, cell: Cell)
        requires { word < PAGE_WORDS }
        ensures cells { self.new ≡ slice_set self.old word cell }
        ensures words { length self.new ≡ PAGE_WORDS }
    {
        self.cells[word] = cell;
    }

    /// Gives the words from `from` up to, not including, `to` a cell, and leaves the others.
    #[inline]
    pub fn fill(&mut self, from: usize, to: usize, cell: Cell)
        requires in_order { from ≤ to }
        requires in_page { to ≤ PAGE_WORDS }
        ensures cells { self.new ≡ filled self.old from to cell }
        ensures words_before { length self.old ≡ PAGE_WORDS }
        ensures words { length self.new ≡ PAGE_WORDS }
    {
        if to == from + 1 {
            self.cells[from] = cell;
            return;
        }
        for place in from..to {
            self.cells[place] = cell;
        }
    }
}
