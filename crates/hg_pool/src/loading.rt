//! Pages come into frames, and are changed there.
ghost use Rattle.std.specs.Prelude.{◌≡◌, ◌≢◌, ◌⊎◌, ◌+◌, ◌/◌, ◌<◌, ◌≤◌, ◌^◌, ◌==◌, ℕ, ◌∷◌, length, get_or, replicate, true, Some, None, is_some, OnOk, IfErr, IfSome, if◌then◌else◌};
ghost use Rattle.hg_disk.specs.Calls.{CallsAtMost};
ghost use Rattle.hg_cells.specs.declared.cell.Cell.TheVariants.{New};
ghost use Rattle.hg_cells.specs.Cells.{IsWithin};
ghost use Rattle.hg_cache.specs.Frames.{HasCell};
ghost use Rattle.hg_pool.specs.Maps.{disk_of, frame_in};
ghost use Rattle.hg_pool.specs.Kept.{AreWithin, Stays, Went};
ghost use Rattle.hg_pool.specs.Answers.{IsTrueCause, order_of, order_with};
ghost use Rattle.hg_pool.specs.Calls.{CountsFailures, FillsPage, KeepsFirst, LoadsAgain, LoadsUndamaged, MayChange, MovesPages, ReadsStored, ReadsUndamaged, StayWithin, UsesPage};

use crate::parts::Parts;
use hg_cells::{Cell, Page};
use hg_disk::Disk;
use hg_model::verdict::Refusal;
use hg_pages::MOST_PAGES;
use hg_sets::SetTable;

impl<D: Disk> Parts<D> {
    ghost use Rattle.hg_pool.specs.Reached.{IsReached};
    ghost use Rattle.hg_pool.specs.Sound.{IsSound, shown_of};

    // Reads the cells of a page that is not in memory into a page of new words: those of its slot, if it has one.
    fn read(
        &mut self,
        page: u64,
        segments: u32,
        sets: &SetTable,
        cells: &mut Page,
    ) -> Result<(), Refusal>
        requires sound { IsSound self.old }
        requires new { cells.old ≡ replicate 256 New }
        ensures sound { IsSound self.new }
        ensures rest { self.new ≡ record self.old { file = self.new.file } }
        ensures stays { Stays ⟦<D as Disk>⟧ (shown_of self.old) (shown_of self.new) }
        ensures cells { ReadsStored ⟦<D as Disk>⟧ (shown_of self.new) page cells.new result }
        ensures named { OnOk result ((i : ℕ) → IsWithin segments (length sets.now.sets) (get_or cells.new i New)) }
        ensures whole { ReadsUndamaged ⟦<D as Disk>⟧ (shown_of self.old) page segments sets.now.sets result }
        ensures refusal { IfErr result (IsTrueCause (shown_of self.new)) }
        ensures device { CountsFailures ⟦<D as Disk>⟧ (shown_of self.old) (shown_of self.new) result }
        ensures calls { CallsAtMost ⟦<D as Disk>⟧ 1 (disk_of (shown_of self.old)) (disk_of (shown_of self.new)) }
    {
        match self.live.get(page) {
            None => Ok(()),
            Some(slot) => Ok(self.file.read_page(slot, page, segments, sets, cells)?),
        }
    }

    // Reads a page that is not in memory into a frame. The variable with the page's cells is here and not in `load`, which
    // mostly needs none.
    #[inline(never)]
    fn read_in(&mut self, page: u64, segments: u32, sets: &SetTable) -> Result<(), Refusal>
        requires sound { IsSound self.old }
        requires number { page < MOST_PAGES }
        requires absent { frame_in self.old.frames.entries page ≡ None }
        requires room { length self.old.frames.entries < self.old.frames.cap }
        ensures sound { IsSound self.new }
        ensures stays { Stays ⟦<D as Disk>⟧ (shown_of self.old) (shown_of self.new) }
        ensures rest { self.new ≡ record self.old { file = self.new.file; frames = self.new.frames } }
        ensures loaded { OnOk result (is_some (frame_in self.new.frames.entries page) ≡ true) }
        ensures order { OnOk result (order_of (shown_of self.new) ≡ page ∷ order_of (shown_of self.old)) }
        ensures within { StayWithin segments (length sets.now.sets) self.old.frames.entries self.new.frames.entries }
        ensures whole { ReadsUndamaged ⟦<D as Disk>⟧ (shown_of self.old) page segments sets.now.sets result }
        ensures refusal { IfErr result (IsTrueCause (shown_of self.new)) }
        ensures device { CountsFailures ⟦<D as Disk>⟧ (shown_of self.old) (shown_of self.new) result }
        ensures calls { CallsAtMost ⟦<D as Disk>⟧ 1 (disk_of (shown_of self.old)) (disk_of (shown_of self.new)) }
    {
        let mut cells = Page::new();
        self.read(page, segments, sets, &mut cells)?;
        self.take_in(page, cells)
    }

    /// Makes a page the one used last, and answers the one cell of all its words from `from` up to `to`, if they have one.
    /// `None` if the page is not in memory.
    #[inline(always)]
    pub(crate) fn ask(&mut self, page: u64, from: usize, to: usize) -> Option<Option<Cell>>
        requires sound { IsSound self.old }
        requires in_order { from < to }
        requires in_page { to ≤ 256 }
        ensures sound { IsSound self.new }
        ensures reached { IsReached self.old → IsReached self.new }
        ensures stays { Stays ⟦<D as Disk>⟧ (shown_of self.old) (shown_of self.new) }
        ensures rest { self.new ≡ record self.old { frames = self.new.frames } }
        ensures within { (n m : ℕ) → AreWithin self.old.frames.entries n m → AreWithin self.new.frames.entries n m }
        ensures cells { IfSome result (λ answer. IfSome answer (HasCell self.new.frames.entries page from to)) }
        ensures order { UsesPage (shown_of self.old) (shown_of self.new) page }
        ensures looks { (q : ℕ) → frame_in self.new.frames.entries q ≡ frame_in self.old.frames.entries q }
        ensures answer { is_some result ≡ is_some (frame_in self.old.frames.entries page) }
    {
        let _count = self.frames.len();
        self.frames.ask(page, from, to)
    }

    /// Brings a page into a frame, as the one used last.
    pub(crate) fn load(&mut self, page: u64, segments: u32, sets: &SetTable) -> Result<(), Refusal>
        requires sound { IsSound self.old }
        requires reached { IsReached self.old }
        requires number { page < MOST_PAGES }
        ensures sound { IsSound self.new }
        ensures reached { IsReached self.new }
        ensures moves { MovesPages ⟦<D as Disk>⟧ 2 (shown_of self.old) (shown_of self.new) result }
        ensures loaded { OnOk result (is_some (frame_in self.new.frames.entries page) ≡ true) }
        ensures order { OnOk result (order_of (shown_of self.new) ≡ order_with (shown_of self.old) page) }
        ensures before { OnOk result (KeepsFirst (shown_of self.old) (shown_of self.new)) }
        ensures within { StayWithin segments (length sets.now.sets) self.old.frames.entries self.new.frames.entries }
        ensures undamaged { LoadsUndamaged ⟦<D as Disk>⟧ (shown_of self.old) page segments sets.now.sets result }
        ensures again { LoadsAgain (shown_of self.old) (shown_of self.new) page result }
    {
        if self.use_page(page) {
            return Ok(());
        }
        self.make_room()?;
        self.read_in(page, segments, sets)
    }

    /// Gives words of a page a cell, and makes it the one used last.
    #[inline(always)]
    pub(crate) fn update(&mut self, page: u64, from: usize, to: usize, cell: Cell)
        requires sound { IsSound self.old }
        requires present { is_some (frame_in self.old.frames.entries page) ≡ true }
        requires settled { MayChange (shown_of self.old) page }
        requires in_order { from ≤ to }
        requires in_page { to ≤ 256 }
        ensures sound { IsSound self.new }
        ensures reached { IsReached self.old → IsReached self.new }
        ensures went { Went ⟦<D as Disk>⟧ (shown_of self.old) (shown_of self.new) }
        ensures rest { self.new ≡ record self.old { frames = self.new.frames } }
        ensures frames { FillsPage page from to cell self.old.frames.entries self.new.frames.entries }
        ensures order { order_of (shown_of self.new) ≡ order_with (shown_of self.old) page }
    {
        self.frames.update(page, from, to, cell);
    }
}
