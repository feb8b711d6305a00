//! A map of words in memory.

ghost use Rattle.std.specs.Prelude.{◌≡◌, ℕ, ◌+◌, ◌/◌, ◌<◌, ◌≤◌, ◌^◌, true, None, Some, Ok, is_some, IfOk, IfSome, OnOk, MatchOption, nat_eq, ◌-◌};
ghost use Rattle.indexmap.specs.IndexMap.{get};
ghost use Rattle.hg_model.specs.declared.verdict.Refusal.TheVariants.{OutOfMemory};
ghost use Rattle.hg_cells.specs.declared.cell.Cell.TheVariants.{New};
ghost use Rattle.hg_cells.specs.Words.{AreBytes};
ghost use Rattle.hg_cells.specs.Paged.{AreInPage, AreWithin, FillsWords, HasPage, IsPageOf, PageHasCell, StandsIn, cell_in, page_of};
ghost use Rattle.hg_cells.specs.PagedLaws.{each_within, more_within, never_full};

use crate::run::{Run, run_in};
use crate::words::Words;
use crate::{Cell, PAGE_BYTES, PAGE_WORDS, Page};
use hg_model::verdict::Refusal;
use hg_sets::SetTable;
use indexmap::IndexMap;
use std::alloc::{AllocError, Global};

/// How many words a page has.
const WORDS: u64 = PAGE_WORDS as u64;

/// How many hints there are.
const HINTS: usize = 32_768;

/// How many pages lie in 16 MiB.
const REGION: u64 = 16_384;

/// 2^64 over the golden ratio, an odd number: its multiples are spread evenly.
const SPREAD: u64 = 0x9e37_79b9_7f4a_7c15;

/// A map of words that grows by the pages that are touched: 3 KiB for each 1,024 bytes.
///
/// A hint is the place in the map where a page may stand. A wrong hint costs a look-up, and nothing else.
pub struct PagedWords {
    alloc: Global,
    pages: IndexMap<u64, Box<Page>>,
    hints: Vec<u32>,
}

impl Drop for PagedWords {
    fn drop(self) {
        let PagedWords {
            alloc: _,
            pages,
            hints,
        } = self;
        drop(pages);
        drop(hints);
    }
}

impl PagedWords {
    /// The map whose words are all new.
    pub fn new(alloc: Global) -> Result<Self, AllocError>
        ensures fresh { IfOk result (λ words. (w : ℕ) → cell_in words w ≡ New) }
        ensures within { IfOk result (λ words. (segments sets : ℕ) → AreWithin words segments sets) }
    {
        Ok(PagedWords {
            alloc,
            pages: IndexMap::new(alloc),
            hints: vec![in alloc; 0; HINTS]?,
        })
    }

    /// The place of a page.
    #[inline]
    fn place(&self, number: u64) -> Option<usize>
        ensures { MatchOption result (get nat_eq self.now.pages number ≡ None) (StandsIn self.now.pages number) }
    {
        let hint = self.hint(number);
        if let Some((key, _)) = self.pages.get_index(hint) {
            if *key == number {
                return Some(hint);
            }
        }
        self.look_up(number)
    }

    /// The place of a page, without its hint.
    #[inline(never)]
    fn look_up(&self, number: u64) -> Option<usize>
        ensures { MatchOption result (get nat_eq self.now.pages number ≡ None) (StandsIn self.now.pages number) }
    {
        self.pages.get_index_of(&number)
    }

    /// The place where the page may stand, by its hint.
    #[inline]
    fn hint(&self, number: u64) -> usize {
        match self.hints.get(slot(number)) {
            Some(hint) => *hint as usize,
            None => 0,
        }
    }

    /// The page of that number, if it is present.
    #[inline]
    fn page(&self, number: u64) -> Option<&Page>
        ensures { MatchOption result (page_of self.now number ≡ None) (λ page. IsPageOf self.now number page.now) }
    {
        if let Some((key, page)) = self.pages.get_index(self.hint(number)) {
            if *key == number {
                return Some(&**page);
            }
        }
        match self.pages.get(&number) {
            Some(page) => Some(&**page),
            None => None,
        }
    }

    /// The cell of a word.
    #[inline]
    fn cell(&self, word: u64) -> Cell
        ensures { result ≡ cell_in self.now word }
    {
        match self.page(word / WORDS) {
            Some(page) => page.get((word % WORDS) as usize),
            None => Cell::New,
        }
    }

    /// Notes the place of a page as its hint, if the page is present.
    fn note(&mut self, number: u64)
        ensures { self.new.pages ≡ self.old.pages }
    {
        if let Some(place) = self.place(number) {
            if let Some(hint) = self.hints.get_mut(slot(number)) {
                *hint = u32::try_from(place).unwrap_or(0);
            }
        }
    }

    /// The cell that these words of a page all have, if there is one. The page is looked up, and its place is noted as its hint.
    #[inline(never)]
    fn same_found(&mut self, number: u64, from: usize, to: usize) -> Option<Cell>
        requires in_order { from < to }
        requires in_page { to ≤ PAGE_WORDS }
        ensures pages { self.new.pages ≡ self.old.pages }
        ensures cells { IfSome result (λ cell. PageHasCell self.old number from to cell) }
    {
        let place = self.look_up(number)?;
        if let Some(hint) = self.hints.get_mut(slot(number)) {
            *hint = u32::try_from(place).unwrap_or(0);
        }
        match self.pages.get_index(place) {
            Some((_, page)) => page.same(from, to),
            None => None,
        }
    }

    /// Adds a page of new words, where the page is absent.
    fn add(&mut self, number: u64) -> Result<(), AllocError>
        ensures cells { (w : ℕ) → cell_in self.new w ≡ cell_in self.old w }
        ensures pages { (n : ℕ) → is_some (page_of self.old n) ≡ true → is_some (page_of self.new n) ≡ true }
        ensures added { OnOk result (is_some (page_of self.new number) ≡ true) }
        ensures again { is_some (page_of self.old number) ≡ true → result ≡ Ok tt }
    {
        if self.place(number).is_some() {
            return Ok(());
        }
        let page = Box::new(self.alloc, Page::new())?;
        self.pages.insert(number, page)?;
        self.note(number);
        Ok(())
    }

    /// Gives the words of a page from one place up to another a cell.
    #[inline(always)]
    fn fill_page(&mut self, number: u64, from: u64, to: u64, cell: Cell)
        requires page { is_some (page_of self.old number) ≡ true }
        requires in_order { from ≤ to }
        requires in_page { to ≤ 256 }
        ensures cells { FillsWords number from to cell self.old self.new }
        ensures pages { (n : ℕ) → is_some (page_of self.old n) ≡ true → is_some (page_of self.new n) ≡ true }
    {
        if let Some(place) = self.place(number) {
            if let Some(page) = self.pages.get_index_mut(place) {
                page.fill(from as usize, to as usize, cell);
            }
        }
    }

    /// Makes the words of a page from one place up to another new. A page that is absent stays absent. The place of one that is
    /// present is noted as its hint.
    fn clear_page(&mut self, number: u64, from: u64, to: u64)
        requires in_order { from ≤ to }
        requires in_page { to ≤ 256 }
        ensures cells { FillsWords number from to New self.old self.new }
    {
        self.note(number);
        if self.page(number).is_some() {
            self.fill_page(number, from, to, Cell::New);
        }
    }
}

impl Words for PagedWords {
    ghost cell_of = { cell_in };

    ghost may_bring = { AreWithin };

    ghost is_faithful = { AreWithin };

    ghost is_brought = { λ _ _. Unit {0} };

    ghost is_kept = { HasPage };

    ghost may_fill = { AreInPage };

    ghost may_clear = { λ _. AreBytes };

    ghost may_refuse = { λ _ r. r ≡ OutOfMemory };

    ghost reads_true = { λ _ _ _. Unit {0} };

    ghost brings_more = { more_within };

    ghost more_faithful = { more_within };

    ghost faithful_within = { each_within };

    ghost went = { λ _ _. Unit {0} };

    ghost failures = { λ _. 0 };

    ghost went_nowhere = { λ _. tt };

    ghost went_on = { λ _ _ _ _ _. tt };

    ghost not_full = { λ _. never_full };

    fn bring(&mut self, at: u64, len: u16, segments: u32, sets: &SetTable) -> Result<(), Refusal> {
        let (first, last) = pages_of(at, len);
        self.note(first);
        if last != first {
            self.note(last);
        }
        Ok(())
    }

    fn keep(&mut self, at: u64, len: u16) -> Result<(), Refusal> {
        let (first, last) = pages_of(at, len);
        self.add(first)?;
        if last != first {
            self.add(last)?;
        }
        Ok(())
    }

    fn get(&self, word: u64) -> Cell {
        self.cell(word)
    }

    fn run(&self, word: u64, end: u64) -> Run {
        let from = word % WORDS;
        let to = from + (end - word).min(WORDS - from);
        match self.page(word / WORDS) {
            Some(page) => run_in(page, from as usize, to as usize),
            None => Run {
                cell: Cell::New,
                count: to - from,
            },
        }
    }

    #[inline(always)]
    fn same(&mut self, first: u64, count: u64) -> Option<Cell> {
        let number = first / WORDS;
        let from = first % WORDS;
        if count == 0 || count > WORDS - from {
            return None;
        }
        if let Some((key, page)) = self.pages.get_index(self.hint(number)) {
            if *key == number {
                return page.same(from as usize, (from + count) as usize);
            }
        }
        self.same_found(number, from as usize, (from + count) as usize)
    }

    #[inline(always)]
    fn peek(&self, first: u64, count: u64) -> Option<Cell> {
        let number = first / WORDS;
        let from = first % WORDS;
        if count == 0 || count > WORDS - from {
            return None;
        }
        match self.pages.get_index(self.hint(number)) {
            Some((key, page)) if *key == number => {
                page.same(from as usize, (from + count) as usize)
            }
            _ => None,
        }
    }

    #[inline]
    fn are_new_or_owned(&self, first: u64, count: u64, owner: u32) -> bool {
        let number = first / WORDS;
        let from = first % WORDS;
        if count > WORDS - from {
            return false;
        }
        match self.pages.get_index(self.hint(number)) {
            Some((key, page)) if *key == number => {
                page.are_new_or_owned(from as usize, (from + count) as usize, owner)
            }
            _ => false,
        }
    }

    #[inline(always)]
    fn fill(&mut self, first: u64, count: u64, cell: Cell) {
        let from = first % WORDS;
        self.fill_page(first / WORDS, from, from + count, cell);
    }

    fn set(&mut self, word: u64, cell: Cell) {
        if let Some(place) = self.place(word / WORDS) {
            if let Some(page) = self.pages.get_index_mut(place) {
                page.set((word % WORDS) as usize, cell);
            }
        }
    }

    fn set_run(&mut self, first: u64, count: u64, cell: Cell) {
        let end = first + count;
        let mut word = first;
        while word < end {
            let from = word % WORDS;
            let count = (end - word).min(WORDS - from);
            self.fill_page(word / WORDS, from, from + count, cell);
            word += count;
        }
    }

    fn ready_to_clear(
        &mut self,
        at: u64,
        len: u32,
        segments: u32,
        sets: &SetTable,
    ) -> Result<(), Refusal> {
        Ok(())
    }

    fn clear(&mut self, at: u64, len: u32) {
        let end = (at + u64::from(len - 1)) / 4 + 1;
        let mut word = at / 4;
        while word < end {
            let from = word % WORDS;
            let count = (end - word).min(WORDS - from);
            self.clear_page(word / WORDS, from, from + count);
            word += count;
        }
    }
}

/// The numbers of the first and of the last page that `len` bytes from `at` on overlap.
#[inline]
fn pages_of(at: u64, len: u16) -> (u64, u64)
    requires some { 0 < len }
    requires within { at + len ≤ 2 ^ 64 }
    ensures first { result.0 ≡ at / PAGE_BYTES }
    ensures last { result.1 ≡ (at + (len - 1)) / PAGE_BYTES }
{
    (at / PAGE_BYTES, (at + u64::from(len - 1)) / PAGE_BYTES)
}

/// Where the hint of a page is kept. Neighbouring pages have neighbouring hints. Each region of 16 MiB begins at a place of its
/// own, because stacks of threads often lie that far apart.
#[inline]
fn slot(number: u64) -> usize {
    let region = number / REGION;
    let place = number.wrapping_add(region.wrapping_mul(SPREAD) >> 48);
    place as usize % HINTS
}
