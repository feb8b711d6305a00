//! A pool as the detector's map of words: the live map.
ghost use Rattle.std.specs.Prelude.{◌≡◌, ◌⊎◌, ◌+◌, ◌-◌, ◌*◌, ◌/◌, ◌%◌, ◌<◌, ◌≤◌, ◌==◌, ◌&&◌, ◌^◌, ℕ, length, true, Some, None, Ok, is_some, IsTrue, IfErr, IfSome, OnOk, if◌then◌else◌};
ghost use Rattle.hg_cells.specs.Cells.{IsWithin};
ghost use Rattle.hg_pool.specs.Maps.{disk_of, frame_in, live};
ghost use Rattle.hg_pool.specs.Kept.{AreWithin, IsFaithful, Stays, Went};
ghost use Rattle.hg_pool.specs.Answers.{IsTrueCause, order_of, order_with};
ghost use Rattle.hg_pool.specs.OfWords.{FindsNoDamage, IsSettled};
ghost use Rattle.hg_cache.specs.Frames.{HasCell};
ghost use Rattle.hg_pool.specs.Calls.{AreInMemory, ArePagesOf, CountsFailures, FillsWords, OnlyReorders, StayWithin, StaysFaithfulWith};

use crate::pool::Pool;
use hg_cache::Frame;
use hg_cells::run::{Run, run_in};
use hg_cells::words::Words;
use hg_cells::{Cell, PAGE_BYTES, PAGE_WORDS};
use hg_disk::Disk;
use hg_model::limits::GREATEST_BLOCK;
use hg_model::verdict::Refusal;
use hg_pages::MOST_PAGES;
use hg_sets::SetTable;

/// How many words a page has.
const WORDS: u64 = PAGE_WORDS as u64;

/// The numbers of the first and of the last page that `len` bytes from `at` on overlap.
#[inline]
fn pages_of(at: u64, len: u32) -> (u64, u64)
    requires some { 0 < len }
    requires few { len ≤ GREATEST_BLOCK }
    requires within { at + len ≤ 2 ^ 64 }
    ensures first { result.0 ≡ at / PAGE_BYTES }
    ensures last { result.1 ≡ (at + (len - 1)) / PAGE_BYTES }
{
    (at / PAGE_BYTES, (at + u64::from(len - 1)) / PAGE_BYTES)
}

impl<D: Disk> Pool<D> {
    /// Brings two pages, which may be the same, into frames. The first stays in memory when the second is brought.
    pub(crate) fn load_both(
        &mut self,
        first: u64,
        last: u64,
        segments: u32,
        sets: &SetTable,
    ) -> Result<(), Refusal>
        requires first { first < MOST_PAGES }
        requires last { last < MOST_PAGES }
        ensures stays { Stays ⟦<D as Disk>⟧ self.old self.new }
        ensures first { OnOk result (is_some (frame_in self.new.frames first) ≡ true) }
        ensures last { OnOk result (is_some (frame_in self.new.frames last) ≡ true) }
        ensures within { StayWithin segments (length sets.now.sets) self.old.frames self.new.frames }
        ensures refusal { IfErr result (IsTrueCause self.new) }
        ensures undamaged { FindsNoDamage ⟦<D as Disk>⟧ self.old segments sets.now.sets result }
        ensures device { CountsFailures ⟦<D as Disk>⟧ self.old self.new result }
        ensures again { AreInMemory self.old first last → (result ≡ Ok tt) × OnlyReorders self.old self.new }
    {
        self.load(first, segments, sets)?;
        if last == first {
            return Ok(());
        }
        self.load(last, segments, sets)
    }

    // Keeps the frozen cells of two pages, which may be the same.
    fn keep_both(&mut self, first: u64, last: u64) -> Result<(), Refusal>
        ensures stays { Stays ⟦<D as Disk>⟧ self.old self.new }
        ensures rest { self.new ≡ record self.old { copies = self.new.copies } }
        ensures first { OnOk result (IsSettled self.new first) }
        ensures last { OnOk result (IsSettled self.new last) }
        ensures again { IsSettled self.old first → IsSettled self.old last → result ≡ Ok tt }
        ensures refusal { IfErr result (λ r. r ≡ Refusal.OutOfMemory) }
    {
        self.keep(first)?;
        if last == first {
            return Ok(());
        }
        self.keep(last)
    }

    // Whether a page may be changed, if some pages wait.
    #[inline(never)]
    fn is_settled_of_some(&self, page: u64) -> bool
        ensures { IsTrue result → IsSettled self.now page }
    {
        if self.parts.waiting.get(page).is_none() {
            return true;
        }
        self.parts.copies.contains(&page)
    }

    // Whether a page may be changed.
    #[inline]
    fn is_settled(&self, page: u64) -> bool
        ensures { IsTrue result → IsSettled self.now page }
    {
        if self.parts.waiting.len() == 0 {
            return true;
        }
        self.is_settled_of_some(page)
    }

    // The frame of a page, if the page is the one used last.
    #[inline]
    fn last_frame(&self, page: u64) -> Option<&Frame>
        ensures { IfSome result (λ f. frame_in self.now.frames page ≡ Some f.now) }
    {
        self.parts.frames.first(page)
    }

    // The run of words in a page in memory that have the cell of the word at `from`; it begins there and ends at `to` or
    // before. This looks the page up.
    #[inline(never)]
    fn run_by_look_up(&self, page: u64, from: usize, to: usize) -> Run
        requires present { is_some (frame_in self.now.frames page) ≡ true }
        requires in_order { from < to }
        requires in_page { to ≤ 256 }
        ensures some { 0 < result.count }
        ensures within { from + result.count ≤ to }
        ensures cells { HasCell self.now.frames page from (from + result.count) result.cell }
    {
        match self.parts.frames.get(page) {
            Some(frame) => run_in(&frame.cells, from, to),
            None => Run {
                cell: Cell::New,
                count: 1,
            },
        }
    }

    // The run of words in a page in memory that have the cell of the word at `from`; it begins there and ends at `to` or
    // before. This looks the page up unless it is the one used last.
    #[inline]
    fn run_of(&self, page: u64, from: usize, to: usize) -> Run
        requires present { is_some (frame_in self.now.frames page) ≡ true }
        requires in_order { from < to }
        requires in_page { to ≤ 256 }
        ensures some { 0 < result.count }
        ensures within { from + result.count ≤ to }
        ensures cells { HasCell self.now.frames page from (from + result.count) result.cell }
    {
        match self.last_frame(page) {
            Some(frame) => run_in(&frame.cells, from, to),
            None => self.run_by_look_up(page, from, to),
        }
    }

    /// The one cell of all words of a page from `from` up to `to`, if the page is in memory and may be changed. `None` says
    /// nothing about these words. The page becomes the one used last.
    #[inline]
    pub fn ask(&mut self, page: u64, from: usize, to: usize) -> Option<Cell>
        requires in_order { from < to }
        requires in_page { to ≤ 256 }
        ensures stays { Stays ⟦<D as Disk>⟧ self.old self.new }
        ensures rest { self.new ≡ record self.old { frames = self.new.frames } }
        ensures within { (n m : ℕ) → AreWithin self.old.frames n m → AreWithin self.new.frames n m }
        ensures cells { IfSome result (HasCell self.new.frames page from to) }
        ensures settled { IfSome result (λ cell. IsSettled self.new page) }
        ensures looks { (q : ℕ) → frame_in self.new.frames q ≡ frame_in self.old.frames q }
        ensures order { is_some (frame_in self.old.frames page) ≡ true → order_of self.new ≡ order_with self.old page }
    {
        let answer = self.parts.ask(page, from, to)?;
        if !self.is_settled(page) {
            return None;
        }
        answer
    }

    /// The one cell of all words of a page from `from` up to `to`, if the page is the one used last and may be changed. `None`
    /// says nothing about these words.
    #[inline(always)]
    fn look(&self, page: u64, from: usize, to: usize) -> Option<Cell>
        requires in_order { from < to }
        requires in_page { to ≤ 256 }
        ensures cells { IfSome result (HasCell self.now.frames page from to) }
        ensures settled { IfSome result (λ cell. IsSettled self.now page) }
    {
        let frame = self.last_frame(page)?;
        if !self.is_settled(page) {
            return None;
        }
        frame.cells.same(from, to)
    }

    /// Gives all words of a page from `from` up to `to` a cell.
    #[inline]
    pub(crate) fn fill_page(&mut self, number: u64, from: u64, to: u64, cell: Cell)
        requires present { is_some (frame_in self.old.frames number) ≡ true }
        requires settled { IsSettled self.old number }
        requires in_order { from ≤ to }
        requires in_page { to ≤ 256 }
        ensures cells { FillsWords ⟦<D as Disk>⟧ number from to cell self.old self.new }
        ensures present { ArePagesOf self.old.frames self.new.frames }
        ensures went { Went ⟦<D as Disk>⟧ self.old self.new }
        ensures rest { self.new ≡ record self.old { frames = self.new.frames } }
        ensures within { (n m : ℕ) → IsWithin n m cell → AreWithin self.old.frames n m → AreWithin self.new.frames n m }
        ensures faithful { StaysFaithfulWith ⟦<D as Disk>⟧ cell self.old self.new }
    {
        self.update(number, from as usize, to as usize, cell);
    }
}

impl<D: Disk> Words for Pool<D> {
    ghost use Rattle.hg_pool.specs.OfWords as of;

    ghost cell_of = { live ⟦<D as Disk>⟧ };

    ghost may_bring = { of.MayBring };

    ghost is_faithful = { IsFaithful ⟦<D as Disk>⟧ };

    ghost is_brought = { of.IsBrought };

    ghost is_kept = { of.IsKept };

    ghost may_fill = { of.MayFill };

    ghost may_clear = { of.MayClear };

    ghost may_refuse = { IsTrueCause };

    ghost reads_true = { of.ReadsTrue ⟦<D as Disk>⟧ };

    ghost went = { Went ⟦<D as Disk>⟧ };

    ghost failures = { λ p. D.failures (disk_of p) };

    ghost brings_more = { of.brings_more };

    ghost more_faithful = { of.more_faithful ⟦<D as Disk>⟧ };

    ghost faithful_within = { of.faithful_within ⟦<D as Disk>⟧ };

    ghost went_nowhere = { of.went_nowhere ⟦<D as Disk>⟧ };

    ghost went_on = { of.went_on ⟦<D as Disk>⟧ };

    ghost not_full = { of.never_full };

    fn bring(&mut self, at: u64, len: u16, segments: u32, sets: &SetTable) -> Result<(), Refusal> {
        let (first, last) = pages_of(at, u32::from(len));
        self.load_both(first, last, segments, sets)
    }

    fn keep(&mut self, at: u64, len: u16) -> Result<(), Refusal> {
        let (first, last) = pages_of(at, u32::from(len));
        self.keep_both(first, last)
    }

    fn get(&self, word: u64) -> Cell {
        let number = word / WORDS;
        let place = (word % WORDS) as usize;
        match self.last_frame(number) {
            Some(frame) => frame.cells.get(place),
            None => self.cell(number, place),
        }
    }

    fn run(&self, word: u64, end: u64) -> Run {
        let from = word % WORDS;
        let to = from + (end - word).min(WORDS - from);
        self.run_of(word / WORDS, from as usize, to as usize)
    }

    fn same(&mut self, first: u64, count: u64) -> Option<Cell> {
        let number = first / WORDS;
        let from = first % WORDS;
        if count == 0 || count > WORDS - from {
            return None;
        }
        self.ask(number, from as usize, (from + count) as usize)
    }

    #[inline(always)]
    fn peek(&self, first: u64, count: u64) -> Option<Cell> {
        let number = first / WORDS;
        let from = first % WORDS;
        if count == 0 || count > WORDS - from {
            return None;
        }
        self.look(number, from as usize, (from + count) as usize)
    }

    fn fill(&mut self, first: u64, count: u64, cell: Cell) {
        let from = first % WORDS;
        self.fill_page(first / WORDS, from, from + count, cell);
    }

    fn set(&mut self, word: u64, cell: Cell) {
        let place = word % WORDS;
        self.fill_page(word / WORDS, place, place + 1, cell);
    }

    fn set_run(&mut self, first: u64, count: u64, cell: Cell) {
        let end = first + count;
        let mut word = first;
        while word < end {
            let from = word % WORDS;
            let count = (end - word).min(WORDS - from);
            self.fill_page(word / WORDS, from, from + count, cell);
            word += count;
        }
    }

    fn ready_to_clear(
        &mut self,
        at: u64,
        len: u32,
        segments: u32,
        sets: &SetTable,
    ) -> Result<(), Refusal> {
        let (first, last) = pages_of(at, len);
        self.load_in_part(at, len, segments, sets)?;
        self.keep_all(first, last)
    }

    fn clear(&mut self, at: u64, len: u32) {
        let end = (at + u64::from(len - 1)) / 4 + 1;
        let mut word = at / 4;
        while word < end {
            let from = word % WORDS;
            let count = (end - word).min(WORDS - from);
            self.clear_page(word / WORDS, from, from + count);
            word += count;
        }
    }
}
