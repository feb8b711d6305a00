//! A checkpoint: the waiting pages are written, and then a root that names them is opened.
ghost use Rattle.std.specs.Prelude.{◌≡◌, ◌⊎◌, ◌↔◌, ◌+◌, ◌<◌, ◌≤◌, ◌^◌, ◌==◌, [], true, Some, None, Ok, Err, is_some, IsTrue, OnOk, OnErr, IfOk, MatchOption, if◌then◌else◌};
ghost use Rattle.hg_pages.specs.Tables.{slot_in};
ghost use Rattle.hg_pool.specs.Kept.{CellsFrom};
ghost use Rattle.hg_pool.specs.Answers.{IsFrozen, order_of};
ghost use Rattle.hg_pool.specs.Calls.{HasWaited, IsNextJob, IsStale, LosesWritten, SealsWhole, WaitsFor, WritesPages};

use crate::job::{Job, Put};
use crate::parts::Parts;
use hg_cells::Page;
use hg_disk::Disk;
use hg_pages::{EncodedPage, WriteFault};

impl<D: Disk> Parts<D> {
    ghost use Rattle.hg_pool.specs.Reached.{IsReached};
    ghost use Rattle.hg_pool.specs.Sound.{IsSound, frozen_of, shown_of};

    // The frozen cells of a page that waits.
    fn frozen_cells(&self, page: u64) -> Option<&Page>
        requires sound { IsSound self.now }
        requires waits { is_some (slot_in self.now.waiting.entries page) ≡ true }
        ensures { MatchOption result ⊥ (λ cells. IsFrozen (shown_of self.now) page cells.now) }
    {
        match self.copies.peek(&page) {
            Some(cells) => Some(cells),
            None => match self.frames.get(page) {
                Some(frame) => Some(&frame.cells),
                None => None,
            },
        }
    }

    /// The waiting page with the least number, with its frozen cells.
    pub(crate) fn take_job(&self) -> Option<Job>
        requires sound { IsSound self.now }
        ensures { IsNextJob (shown_of self.now) result }
    {
        if self.waiting.len() == 0 {
            return None;
        }
        let page = self.waiting.at(0).0;
        match self.frozen_cells(page) {
            Some(cells) => Some(Job {
                alloc: self.alloc,
                page,
                cells: cells.copy(),
            }),
            None => None,
        }
    }

    // The slot picked for a page, if the page waits and these are the bytes of its frozen cells.
    fn awaits(&self, page: &EncodedPage) -> Option<u32>
        requires sound { IsSound self.now }
        ensures { MatchOption result (IsStale (shown_of self.now) page.now) (WaitsFor (shown_of self.now) page.now) }
    {
        match self.waiting.get(page.page()) {
            None => None,
            Some(slot) => match self.frozen_cells(page.page()) {
                Some(cells) => { if page.has(cells) { Some(slot) } else { None } }
                None => None,
            },
        }
    }

    /// Writes a page to the slot that was picked for it, if it waits and the bytes are those of its frozen cells.
    pub(crate) fn put(&mut self, page: &EncodedPage) -> Result<Put, WriteFault>
        requires sound { IsSound self.old }
        ensures sound { IsSound self.new }
        ensures reached { IsReached self.old → IsReached self.new }
        ensures writes { WritesPages ⟦<D as Disk>⟧ (shown_of self.old) (shown_of self.new) result }
        ensures written { IfOk result (λ put. put ≡ Put.Written → HasWaited (shown_of self.old) page.now) }
        ensures stale { IfOk result (λ put. put ≡ Put.Stale → IsStale (shown_of self.old) page.now) }
        ensures nothing { IfOk result (λ put. put ≡ Put.Stale → self.new ≡ self.old) }
        ensures waiting { LosesWritten page.now.page self.old.waiting.entries self.new.waiting.entries result }
        ensures cells { CellsFrom self.old.frames.entries self.new.frames.entries }
        ensures order { order_of (shown_of self.new) ≡ order_of (shown_of self.old) }
        ensures refused { OnErr result (self.new ≡ record self.old { file = self.new.file }) }
    {
        match self.awaits(page) {
            None => Ok(Put::Stale),
            Some(slot) => {
                self.write_waiting(slot, page)?;
                self.search_from = 0;
                Ok(Put::Written)
            }
        }
    }

    /// Makes what was written durable.
    pub(crate) fn seal(&mut self) -> Result<(), WriteFault>
        requires sound { IsSound self.old }
        ensures sound { IsSound self.new }
        ensures reached { IsReached self.old → IsReached self.new }
        ensures writes { WritesPages ⟦<D as Disk>⟧ (shown_of self.old) (shown_of self.new) result }
        ensures sealed { SealsWhole ⟦<D as Disk>⟧ (shown_of self.old) (shown_of self.new) result }
        ensures marked { self.old.waiting.entries ≡ [] → OnOk result (IsTrue self.new.is_sealed) }
        ensures rest { self.new ≡ record self.old { file = self.new.file; is_sealed = self.new.is_sealed } }
    {
        self.file.seal()?;
        if self.waiting.len() == 0 {
            self.is_sealed = true;
        }
        Ok(())
    }

    /// From now on the root's table is the frozen one.
    pub(crate) fn root_opened(&mut self)
        requires sound { IsSound self.old }
        requires sealed { IsTrue self.old.is_sealed }
        ensures sound { IsSound self.new }
        ensures reached { IsReached self.old → IsReached self.new }
        ensures root { shown_of self.new ≡ record (shown_of self.old) { root = (frozen_of self.old).entries } }
    {
        if let Some(table) = self.frozen.take() {
            self.root = table;
            self.search_from = 0;
        }
    }
}
