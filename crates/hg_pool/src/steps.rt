//! Steps of a pool that change no word: each keeps the parts in agreement, and both maps.
ghost use Rattle.std.specs.Prelude.{◌≡◌, ◌⊎◌, ◌↔◌, ◌+◌, ◌<◌, ◌≤◌, ◌==◌, ◌^◌, ℕ, nat_eq, ◌∷◌, length, map, true, false, Some, None, Ok, Err, is_some, IsTrue, OnOk, OnErr, IfErr, if◌then◌else◌};
ghost use Rattle.std.specs.Map.{remove_entry};
ghost use Rattle.lru.specs.LruCache.{promoted};
ghost use Rattle.hg_pages.specs.Tables.{IsNamed, ShownTable as TableOf, slot_in};
ghost use Rattle.hg_pool.specs.Tables.{IsSetAt};
ghost use Rattle.hg_cache.specs.declared.frame.Frame.{Frame as FrameOf};
ghost use Rattle.hg_pool.specs.Maps.{copy_in, frame_in};
ghost use Rattle.hg_pool.specs.Kept.{CellsFrom, Stays};
ghost use Rattle.hg_pool.specs.Answers.{order_of};
ghost use Rattle.hg_pool.specs.Calls.{AreStoredIfWhole, HasRoomForOne, IsSlotOf, IsWith, IsWithout, KeepsCopies, MayChange, SlotHasFrame, SlotHasFrozen, clean_frame, order_used};

use crate::copies::add_copy;
use crate::parts::Parts;
use hg_cache::Frame;
use hg_cells::Page;
use hg_disk::Disk;
use hg_model::verdict::Refusal;
use hg_pages::{MOST_PAGES, Table};

// Gives a page that was written its slot in the frozen table.
fn name_frozen(frozen: &mut Option<Table>, page: u64, slot: u32)
    requires own { is_some frozen.old ≡ true }
    requires free { IsSlotOf page slot frozen.old }
    requires room { (t : TableOf) → frozen.old ≡ Some t → (length t.entries < t.capacity) × (slot < t.slots) }
    ensures { (t : TableOf) → frozen.old ≡ Some t → (u : TableOf) × (frozen.new ≡ Some u) × IsSetAt page slot t u }
{
    if let Some(table) = frozen {
        let _placed = table.set(page, slot);
    }
}

impl<D: Disk> Parts<D> {
    ghost use Rattle.hg_pool.specs.Reached.{IsReached};
    ghost use Rattle.hg_pool.specs.Sound.{IsSound, frozen_of, shown_of, ChangesWaiting};

    /// Makes room in the live table for one entry, besides those that the waiting pages may need, and for this slot.
    pub(crate) fn reserve_live(&mut self, slot: u32) -> Result<(), Refusal>
        requires sound { IsSound self.old }
        requires within { slot < self.old.slots }
        ensures sound { IsSound self.new }
        ensures rest { self.new ≡ record self.old { live = self.new.live } }
        ensures entries { self.new.live.entries ≡ self.old.live.entries }
        ensures stays { Stays ⟦<D as Disk>⟧ (shown_of self.old) (shown_of self.new) }
        ensures room { OnOk result (HasRoomForOne self.new.waiting.entries self.new.live) }
        ensures slots { OnOk result (slot < self.new.live.slots) }
        ensures refusal { IfErr result (λ r. r ≡ Refusal.OutOfMemory) }
    {
        Ok(
            self.live
                .reserve(self.waiting.len() + 1, slot as usize + 1)?,
        )
    }

    /// Gives a page that was written its slot in the live table.
    pub(crate) fn move_live(&mut self, page: u64, slot: u32)
        requires sound { IsSound self.old }
        requires present { is_some (frame_in self.old.frames.entries page) ≡ true }
        requires stands { SlotHasFrame ⟦<D as Disk>⟧ (shown_of self.old) page slot }
        requires unpicked { ¬ IsNamed self.old.waiting.entries slot }
        requires free { ¬ IsNamed self.old.live.entries slot }
        requires settled { MayChange (shown_of self.old) page }
        requires room { length self.old.live.entries + length self.old.waiting.entries < self.old.live.capacity }
        requires slots { slot < self.old.live.slots }
        requires within { slot < self.old.slots }
        ensures sound { IsSound self.new }
        ensures stays { Stays ⟦<D as Disk>⟧ (shown_of self.old) (shown_of self.new) }
        ensures rest { self.new ≡ record self.old { live = self.new.live; frames = self.new.frames } }
        ensures slots { IsWith page slot self.old.live.entries self.new.live.entries }
        ensures clean { (f : FrameOf) → frame_in self.new.frames.entries page ≡ Some f → f.is_dirty ≡ false }
        ensures cells { CellsFrom self.old.frames.entries self.new.frames.entries }
        ensures present { is_some (frame_in self.new.frames.entries page) ≡ true }
        ensures order { map (λ e. e.0) self.new.frames.entries ≡ map (λ e. e.0) self.old.frames.entries }
        ensures cap { self.new.frames.cap ≡ self.old.frames.cap }
    {
        let _placed = self.live.set(page, slot);
        self.frames.mark_clean(page);
    }

    /// Takes a written page out of the waiting ones, and answers whether it is as it was frozen.
    pub(crate) fn release(&mut self, page: u64, slot: u32) -> bool
        requires sound { IsSound self.old }
        requires waits { slot_in self.old.waiting.entries page ≡ Some slot }
        requires stands { SlotHasFrozen ⟦<D as Disk>⟧ (shown_of self.old) page slot }
        ensures sound { IsSound self.new }
        ensures stays { Stays ⟦<D as Disk>⟧ (shown_of self.old) (shown_of self.new) }
        ensures answer { IsTrue result ↔ (copy_in self.old.copies.entries page ≡ None) }
        ensures rest { ChangesWaiting self.old self.new }
        ensures waiting { IsWithout page self.old.waiting.entries self.new.waiting.entries }
        ensures fewer { length self.new.waiting.entries + 1 ≡ length self.old.waiting.entries }
        ensures unpicked { ¬ IsNamed self.new.waiting.entries slot }
    {
        let _entries = self.waiting.len();
        let _count = self.copies.len();
        name_frozen(&mut self.frozen, page, slot);
        self.waiting.remove(page);
        self.copies.pop(&page).is_none()
    }

    /// Frees the frame of a page that is clean.
    pub(crate) fn let_go(&mut self, page: u64)
        requires sound { IsSound self.old }
        requires clean { (f : FrameOf) → frame_in self.old.frames.entries page ≡ Some f → f.is_dirty ≡ false }
        ensures sound { IsSound self.new }
        ensures stays { Stays ⟦<D as Disk>⟧ (shown_of self.old) (shown_of self.new) }
        ensures rest { self.new ≡ record self.old { frames = self.new.frames } }
        ensures frames { self.new.frames.entries ≡ remove_entry (nat_eq page) self.old.frames.entries }
        ensures cells { CellsFrom self.old.frames.entries self.new.frames.entries }
        ensures cap { self.new.frames.cap ≡ self.old.frames.cap }
    {
        let _count = self.frames.len();
        self.frames.remove(page);
    }

    /// Makes a page the one used last, and answers whether it is in memory.
    #[inline(always)]
    pub(crate) fn use_page(&mut self, page: u64) -> bool
        requires sound { IsSound self.old }
        ensures sound { IsSound self.new }
        ensures stays { Stays ⟦<D as Disk>⟧ (shown_of self.old) (shown_of self.new) }
        ensures answer { result ≡ is_some (frame_in self.old.frames.entries page) }
        ensures rest { self.new ≡ record self.old { frames = self.new.frames } }
        ensures frames { self.new.frames.entries ≡ promoted (nat_eq page) self.old.frames.entries }
        ensures looks { (q : ℕ) → frame_in self.new.frames.entries q ≡ frame_in self.old.frames.entries q }
        ensures order { IsTrue result → order_of (shown_of self.new) ≡ order_used (shown_of self.old) page }
        ensures absent { result ≡ false → order_of (shown_of self.new) ≡ order_of (shown_of self.old) }
        ensures cap { self.new.frames.cap ≡ self.old.frames.cap }
    {
        let _count = self.frames.len();
        self.frames.promote(page)
    }

    /// Takes a page that is not in memory into a frame, as the one used last.
    pub(crate) fn take_in(&mut self, page: u64, cells: Page) -> Result<(), Refusal>
        requires sound { IsSound self.old }
        requires number { page < MOST_PAGES }
        requires absent { frame_in self.old.frames.entries page ≡ None }
        requires room { length self.old.frames.entries < self.old.frames.cap }
        requires stands { AreStoredIfWhole ⟦<D as Disk>⟧ (shown_of self.old) page cells }
        ensures sound { IsSound self.new }
        ensures stays { Stays ⟦<D as Disk>⟧ (shown_of self.old) (shown_of self.new) }
        ensures rest { self.new ≡ record self.old { frames = self.new.frames } }
        ensures frames { OnOk result (self.new.frames.entries ≡ (page, clean_frame cells) ∷ self.old.frames.entries) }
        ensures refused { OnErr result (self.new ≡ self.old) }
        ensures cap { self.new.frames.cap ≡ self.old.frames.cap }
        ensures refusal { IfErr result (λ r. r ≡ Refusal.OutOfMemory) }
    {
        let frame = Frame {
            cells,
            is_dirty: false,
        };
        Ok(self.frames.put(page, frame)?)
    }

    /// Copies the frozen cells of a page that waits and has no copy yet, before it is changed.
    pub(crate) fn keep_page(&mut self, page: u64) -> Result<(), Refusal>
        requires sound { IsSound self.old }
        ensures sound { IsSound self.new }
        ensures reached { IsReached self.old → IsReached self.new }
        ensures stays { Stays ⟦<D as Disk>⟧ (shown_of self.old) (shown_of self.new) }
        ensures rest { self.new ≡ record self.old { copies = self.new.copies } }
        ensures kept { OnOk result (MayChange (shown_of self.new) page) }
        ensures refused { OnErr result (self.new ≡ self.old) }
        ensures again { MayChange (shown_of self.old) page → result ≡ Ok tt }
        ensures refusal { IfErr result (λ r. r ≡ Refusal.OutOfMemory) }
        ensures others { KeepsCopies self.old.copies.entries self.new.copies.entries }
    {
        if self.waiting.get(page).is_none() || self.copies.contains(&page) {
            return Ok(());
        }
        let _count = self.copies.len();
        match self.frames.get(page) {
            None => Ok(()),
            Some(frame) => add_copy(&mut self.copies, page, &frame.cells),
        }
    }
}
