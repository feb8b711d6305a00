//! Blocks of words that are made new. A page that a block covers wholly is neither brought nor written: it leaves its frame and its slot.
ghost use Rattle.std.specs.Prelude.{◌≡◌, ◌⊎◌, ◌+◌, ◌/◌, ◌<◌, ◌≤◌, ◌^◌, ℕ, length, true, is_some, None, Ok, OnOk, IfErr, MatchOption};
ghost use Rattle.hg_cells.specs.Words.{ForOverlapped};
ghost use Rattle.hg_cells.specs.declared.cell.Cell.TheVariants.{New};
ghost use Rattle.hg_pages.specs.Tables.{LosesPage};
ghost use Rattle.hg_pool.specs.Maps.{frame_in};
ghost use Rattle.hg_pool.specs.Kept.{AreWithin, Stays, Went};
ghost use Rattle.hg_pool.specs.Answers.{IsTrueCause};
ghost use Rattle.hg_pool.specs.Calls.{CountsFailures, FillsWords, KeepsPagesBut, LeavesFrame, MayChange, OnlyReorders, StayWithin, StaysFaithfulWith};
ghost use Rattle.hg_pool.specs.OfWords.{AreInPart, FindsNoDamage, IsBrought, IsCovered, IsSettled};

use crate::parts::Parts;
use crate::pool::Pool;
use hg_cells::{Cell, PAGE_BYTES, PAGE_WORDS};
use hg_disk::Disk;
use hg_model::verdict::Refusal;
use hg_pages::MOST_PAGES;
use hg_sets::SetTable;

/// How many words a page has.
const WORDS: u64 = PAGE_WORDS as u64;

/// The pages that `len` bytes from `at` on overlap in part. They are two at most, the first and the last one, or the same one twice.
#[inline]
fn pages_in_part(at: u64, len: u32) -> Option<(u64, u64)>
    requires some { 0 < len }
    requires within { at + len ≤ 2 ^ 64 }
    ensures pages { MatchOption result (ForOverlapped at len (λ w. IsCovered at len (w / 256))) (AreInPart at len) }
{
    let first = at / PAGE_BYTES;
    let last_byte = at + u64::from(len - 1);
    let last = last_byte / PAGE_BYTES;
    let begins_within = at / 4 % WORDS != 0;
    let ends_within = (last_byte / 4 + 1) % WORDS != 0;
    match (begins_within, ends_within) {
        (true, true) => Some((first, last)),
        (true, false) => Some((first, first)),
        (false, true) => Some((last, last)),
        (false, false) => None,
    }
}

impl<D: Disk> Parts<D> {
    ghost use Rattle.hg_pool.specs.Reached.{IsReached};
    ghost use Rattle.hg_pool.specs.Sound.{IsSound, shown_of};

    /// Makes all words of a page new: it leaves its frame, and has no slot of the live map any more. It calls no device, and takes no
    /// memory.
    pub(crate) fn give_up(&mut self, page: u64)
        requires sound { IsSound self.old }
        requires reached { IsReached self.old }
        requires settled { MayChange (shown_of self.old) page }
        ensures sound { IsSound self.new }
        ensures reached { IsReached self.new }
        ensures rest { self.new ≡ record self.old { live = self.new.live; frames = self.new.frames; search_from = self.new.search_from } }
        ensures live { LosesPage page self.old.live.entries self.new.live.entries }
        ensures frames { LeavesFrame page self.old.frames.entries self.new.frames.entries }
        ensures went { Went ⟦<D as Disk>⟧ (shown_of self.old) (shown_of self.new) }
    {
        let _count = self.frames.len();
        self.frames.remove(page);
        let former = self.live.remove(page);
        self.search_from = self.next_search(self.search_from, former);
    }
}

impl<D: Disk> Pool<D> {
    /// Makes all words of a page new, which need not be in memory. It calls no device, and takes no memory.
    pub(crate) fn give_up(&mut self, page: u64)
        requires settled { IsSettled self.old page }
        ensures cells { FillsWords ⟦<D as Disk>⟧ page 0 256 New self.old self.new }
        ensures frames { LeavesFrame page self.old.frames self.new.frames }
        ensures went { Went ⟦<D as Disk>⟧ self.old self.new }
        ensures rest { self.new ≡ record self.old { live = self.new.live; frames = self.new.frames } }
        ensures within { (n m : ℕ) → AreWithin self.old.frames n m → AreWithin self.new.frames n m }
        ensures faithful { StaysFaithfulWith ⟦<D as Disk>⟧ New self.old self.new }
    {
        self.parts.give_up(page);
    }

    /// Makes the words of a page from `from` up to `to` new. Where these are all, the page need not be in memory.
    pub(crate) fn clear_page(&mut self, page: u64, from: u64, to: u64)
        requires settled { IsSettled self.old page }
        requires present { (is_some (frame_in self.old.frames page) ≡ true) ⊎ ((from ≡ 0) × (to ≡ 256)) }
        requires in_order { from ≤ to }
        requires in_page { to ≤ 256 }
        ensures cells { FillsWords ⟦<D as Disk>⟧ page from to New self.old self.new }
        ensures present { KeepsPagesBut page from to self.old.frames self.new.frames }
        ensures went { Went ⟦<D as Disk>⟧ self.old self.new }
        ensures rest { self.new ≡ record self.old { live = self.new.live; frames = self.new.frames } }
        ensures within { (n m : ℕ) → AreWithin self.old.frames n m → AreWithin self.new.frames n m }
        ensures faithful { StaysFaithfulWith ⟦<D as Disk>⟧ New self.old self.new }
    {
        if from == 0 && to == WORDS {
            self.give_up(page);
        } else {
            self.fill_page(page, from, to, Cell::New);
        }
    }

    /// Brings the pages that `len` bytes from `at` on overlap in part into frames.
    pub(crate) fn load_in_part(
        &mut self,
        at: u64,
        len: u32,
        segments: u32,
        sets: &SetTable,
    ) -> Result<(), Refusal>
        requires some { 0 < len }
        requires within { at + len ≤ 2 ^ 64 }
        ensures stays { Stays ⟦<D as Disk>⟧ self.old self.new }
        ensures loaded { OnOk result (ForOverlapped at len (λ w. IsBrought self.new w ⊎ IsCovered at len (w / 256))) }
        ensures within { StayWithin segments (length sets.now.sets) self.old.frames self.new.frames }
        ensures refusal { IfErr result (IsTrueCause self.new) }
        ensures undamaged { FindsNoDamage ⟦<D as Disk>⟧ self.old segments sets.now.sets result }
        ensures device { CountsFailures ⟦<D as Disk>⟧ self.old self.new result }
        ensures again { ForOverlapped at len (IsBrought self.old) → (result ≡ Ok tt) × OnlyReorders self.old self.new }
    {
        match pages_in_part(at, len) {
            Some((low, high)) => self.load_both(low, high, segments, sets),
            None => Ok(()),
        }
    }

    /// Keeps the frozen cells of the pages from one up to another.
    pub(crate) fn keep_all(&mut self, first: u64, last: u64) -> Result<(), Refusal>
        requires { last < MOST_PAGES }
        ensures stays { Stays ⟦<D as Disk>⟧ self.old self.new }
        ensures rest { self.new ≡ record self.old { copies = self.new.copies } }
        ensures kept { OnOk result ((q : ℕ) → first ≤ q → q ≤ last → IsSettled self.new q) }
        ensures again { ((q : ℕ) → first ≤ q → q ≤ last → IsSettled self.old q) → result ≡ Ok tt }
        ensures refusal { IfErr result (λ r. r ≡ Refusal.OutOfMemory) }
    {
        for page in first..last + 1 {
            self.keep(page)?;
        }
        Ok(())
    }
}
