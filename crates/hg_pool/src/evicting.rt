//! Pages leave their frames. Changed pages are written first.
ghost use Rattle.std.specs.Prelude.{◌≡◌, ◌≢◌, ◌⊎◌, ◌↔◌, ◌+◌, ◌-◌, ◌<◌, ◌≤◌, ◌^◌, [], ◌∷◌, ◌++◌, length, map, true, false, Some, None, Ok, Err, is_some, IsTrue, OnOk, OnErr, IsErrOf, IfOk, IfErr, ◌==◌, if◌then◌else◌};
ghost use Rattle.hg_disk.specs.Calls.{CallsAtMost};
ghost use Rattle.hg_pages.specs.Tables.{IsNamed, slot_in};
ghost use Rattle.hg_pool.specs.Maps.{copy_in, disk_of, frame_in};
ghost use Rattle.hg_pool.specs.Kept.{CellsFrom, Stays};
ghost use Rattle.hg_pool.specs.Answers.{IsTaken, IsTrueCause, order_of};
ghost use Rattle.hg_pool.specs.Picking.{HasDirty, IsLeastFree};
ghost use Rattle.hg_pool.specs.Calls.{AreOfEither, ArePagesOf, CountsFailures, EncodesFrame, HasChanged, HasFreed, IsBroken, IsClean, IsCleanIfUncopied, IsOfFrame, IsOfFrozen, IsWith, IsWithout, LeavesUnwritten, MayBegin, MayChange, MovesPages, WritesPages, order_with_room};

use crate::changed::is_changed;
use crate::parts::Parts;
use hg_disk::Disk;
use hg_model::verdict::Refusal;
use hg_pages::{EncodedPage, WriteFault, encode};
use std::alloc::AllocError;

impl<D: Disk> Parts<D> {
    ghost use Rattle.hg_pool.specs.Reached.{IsReached};
    ghost use Rattle.hg_pool.specs.Sound.{IsSound, frozen_of, shown_of, ChangesFrames};

    // A page that is in memory as the bytes of its slot.
    fn encoded(&self, page: u64) -> Result<EncodedPage, AllocError>
        requires sound { IsSound self.now }
        ensures page { IfOk result (λ encoded. encoded.page ≡ page) }
        ensures slot { EncodesFrame self.now.frames.entries page result }
    {
        match self.frames.get(page) {
            Some(frame) => encode(self.alloc, page, &frame.cells),
            None => Err(AllocError),
        }
    }

    // Writes a waiting page to the slot that was picked for it. The frozen table names the slot then, and so does the live
    // one if the page was not changed since the freeze.
    pub(crate) fn write_waiting(
        &mut self,
        slot: u32,
        encoded: &EncodedPage,
    ) -> Result<(), WriteFault>
        requires sound { IsSound self.old }
        requires waits { slot_in self.old.waiting.entries encoded.now.page ≡ Some slot }
        requires stands { IsOfFrozen ⟦<D as Disk>⟧ (shown_of self.old) encoded.now }
        requires as_frozen { IsOfFrame (shown_of self.old) encoded.now }
        ensures sound { IsSound self.new }
        ensures writes { WritesPages ⟦<D as Disk>⟧ (shown_of self.old) (shown_of self.new) result }
        ensures cells { CellsFrom self.old.frames.entries self.new.frames.entries }
        ensures refuses { IsBroken (shown_of self.old) → (result ≡ Err WriteFault.Broken) × (self.new ≡ self.old) }
        ensures order { map (λ e. e.0) self.new.frames.entries ≡ map (λ e. e.0) self.old.frames.entries }
        ensures slots { AreOfEither self.old.live.entries self.old.waiting.entries self.new.live.entries }
        ensures search { self.new.search_from ≡ self.old.search_from }
        ensures clean { IsCleanIfUncopied self.old.copies.entries self.new.frames.entries encoded.now.page result }
        ensures waiting { OnOk result (IsWithout encoded.now.page self.old.waiting.entries self.new.waiting.entries) }
        ensures fewer { OnOk result (length self.new.waiting.entries + 1 ≡ length self.old.waiting.entries) }
        ensures refused { OnErr result (self.new ≡ record self.old { file = self.new.file }) }
    {
        self.write_unnamed(slot, encoded)?;
        if self.release(encoded.page(), slot) {
            self.move_live(encoded.page(), slot);
        }
        Ok(())
    }

    // Writes a changed page to a free slot, which the live table names then.
    fn write_changed(&mut self, page: u64, slot: u32) -> Result<(), Refusal>
        requires sound { IsSound self.old }
        requires present { is_some (frame_in self.old.frames.entries page) ≡ true }
        requires settled { MayChange (shown_of self.old) page }
        requires free { ¬ IsTaken (shown_of self.old) slot }
        requires within { slot < self.old.slots }
        ensures sound { IsSound self.new }
        ensures stays { Stays ⟦<D as Disk>⟧ (shown_of self.old) (shown_of self.new) }
        ensures refusal { IfErr result (IsTrueCause (shown_of self.new)) }
        ensures undamaged { IfErr result (λ r. r ≢ Refusal.Damaged) }
        ensures breaks { IsErrOf result Refusal.DeviceFault → IsBroken (shown_of self.new) }
        ensures device { CountsFailures ⟦<D as Disk>⟧ (shown_of self.old) (shown_of self.new) result }
        ensures cells { CellsFrom self.old.frames.entries self.new.frames.entries }
        ensures order { map (λ e. e.0) self.new.frames.entries ≡ map (λ e. e.0) self.old.frames.entries }
        ensures clean { OnOk result (IsClean self.new.frames.entries page) }
        ensures rest { ChangesFrames self.old self.new }
        ensures calls { CallsAtMost ⟦<D as Disk>⟧ 1 (disk_of (shown_of self.old)) (disk_of (shown_of self.new)) }
        ensures slots { OnOk result (IsWith page slot self.old.live.entries self.new.live.entries) }
        ensures refused { OnErr result (self.new.live.entries ≡ self.old.live.entries) }
    {
        let encoded = self.encoded(page)?;
        self.reserve_live(slot)?;
        self.write_unnamed(slot, &encoded)?;
        self.move_live(page, slot);
        Ok(())
    }

    // Whether the newest root or the frozen map names a slot. Such a slot does not become free when the live map leaves it.
    fn is_saved(&self, slot: u32) -> bool
        ensures { IsTrue result → IsNamed self.now.root.entries slot ⊎ IsNamed (frozen_of self.now).entries slot }
    {
        if self.root.names(slot) {
            return true;
        }
        self.frozen_table().names(slot)
    }

    /// Where the next search for a free slot begins: at the slot that was found, or at the page's former slot if this
    /// becomes free and is less.
    pub(crate) fn next_search(&self, found: u32, former: Option<u32>) -> u32
        ensures { MayBegin self.now.root.entries (frozen_of self.now).entries found former result }
    {
        match former {
            None => found,
            Some(slot) => {
                if self.is_saved(slot) {
                    found
                } else {
                    found.min(slot)
                }
            }
        }
    }

    // Writes a changed page to a free slot that a search found.
    fn write_searched(&mut self, page: u64, slot: u32) -> Result<(), Refusal>
        requires sound { IsSound self.old }
        requires present { is_some (frame_in self.old.frames.entries page) ≡ true }
        requires settled { MayChange (shown_of self.old) page }
        requires least { IsLeastFree (shown_of self.old) slot }
        requires within { slot < self.old.slots }
        ensures sound { IsSound self.new }
        ensures reached { IsReached self.new }
        ensures moves { MovesPages ⟦<D as Disk>⟧ 1 (shown_of self.old) (shown_of self.new) result }
        ensures undamaged { IfErr result (λ r. r ≢ Refusal.Damaged) }
        ensures breaks { IsErrOf result Refusal.DeviceFault → IsBroken (shown_of self.new) }
        ensures cells { CellsFrom self.old.frames.entries self.new.frames.entries }
        ensures order { map (λ e. e.0) self.new.frames.entries ≡ map (λ e. e.0) self.old.frames.entries }
        ensures clean { OnOk result (IsClean self.new.frames.entries page) }
    {
        let former = self.live.get(page);
        self.search_from = self.next_search(slot, former);
        self.write_changed(page, slot)
    }

    // Writes a waiting page that is as it was frozen, to the slot that was picked for it.
    fn clean_waiting(&mut self, page: u64, slot: u32) -> Result<(), Refusal>
        requires sound { IsSound self.old }
        requires waits { slot_in self.old.waiting.entries page ≡ Some slot }
        requires as_frozen { copy_in self.old.copies.entries page ≡ None }
        ensures sound { IsSound self.new }
        ensures reached { IsReached self.new }
        ensures moves { MovesPages ⟦<D as Disk>⟧ 1 (shown_of self.old) (shown_of self.new) result }
        ensures undamaged { IfErr result (λ r. r ≢ Refusal.Damaged) }
        ensures breaks { IsErrOf result Refusal.DeviceFault → IsBroken (shown_of self.new) }
        ensures cells { CellsFrom self.old.frames.entries self.new.frames.entries }
        ensures order { map (λ e. e.0) self.new.frames.entries ≡ map (λ e. e.0) self.old.frames.entries }
        ensures clean { OnOk result (IsClean self.new.frames.entries page) }
    {
        self.search_from = 0;
        let encoded = self.encoded(page)?;
        Ok(self.write_waiting(slot, &encoded)?)
    }

    // Writes a page if it was changed.
    fn clean(&mut self, page: u64) -> Result<(), Refusal>
        requires sound { IsSound self.old }
        requires reached { IsReached self.old }
        requires present { is_some (frame_in self.old.frames.entries page) ≡ true }
        ensures sound { IsSound self.new }
        ensures reached { IsReached self.new }
        ensures moves { MovesPages ⟦<D as Disk>⟧ 1 (shown_of self.old) (shown_of self.new) result }
        ensures undamaged { IfErr result (λ r. r ≢ Refusal.Damaged) }
        ensures breaks { IsErrOf result Refusal.DeviceFault → IsBroken (shown_of self.new) }
        ensures cells { CellsFrom self.old.frames.entries self.new.frames.entries }
        ensures order { map (λ e. e.0) self.new.frames.entries ≡ map (λ e. e.0) self.old.frames.entries }
        ensures clean { OnOk result (IsClean self.new.frames.entries page) }
        ensures quiet { IsClean self.old.frames.entries page → self.new ≡ self.old }
        ensures changed { OnErr result (HasDirty self.old.frames.entries page) }
    {
        if !is_changed(&self.frames, page) {
            return Ok(());
        }
        if let Some(slot) = self.waiting.get(page) {
            if !self.copies.contains(&page) {
                return self.clean_waiting(page, slot);
            }
        }
        match self.free_slot() {
            Some(slot) => self.write_searched(page, slot),
            None => Err(Refusal::FullSlots),
        }
    }

    /// Frees the frame of the page used least recently, and answers the page's number, or none if no page is in memory. A
    /// changed page is written first.
    pub(crate) fn evict(&mut self) -> Result<Option<u64>, Refusal>
        requires sound { IsSound self.old }
        requires reached { IsReached self.old }
        ensures sound { IsSound self.new }
        ensures reached { IsReached self.new }
        ensures moves { MovesPages ⟦<D as Disk>⟧ 1 (shown_of self.old) (shown_of self.new) result }
        ensures undamaged { IfErr result (λ r. r ≢ Refusal.Damaged) }
        ensures breaks { IsErrOf result Refusal.DeviceFault → IsBroken (shown_of self.new) }
        ensures cells { CellsFrom self.old.frames.entries self.new.frames.entries }
        ensures none { result ≡ Ok None → (self.new ≡ self.old) × (self.old.frames.entries ≡ []) }
        ensures freed { IfOk result (HasFreed (shown_of self.old) (shown_of self.new)) }
        ensures kept { OnErr result (order_of (shown_of self.new) ≡ order_of (shown_of self.old)) }
        ensures unwritten { IfOk result (LeavesUnwritten (shown_of self.old) (shown_of self.new)) }
        ensures changed { OnErr result (HasChanged (shown_of self.old)) }
        ensures fewer { ArePagesOf self.new.frames.entries self.old.frames.entries }
    {
        let _count = self.frames.len();
        let page = match self.frames.oldest() {
            None => return Ok(None),
            Some(page) => page,
        };
        self.clean(page)?;
        self.let_go(page);
        Ok(Some(page))
    }

    /// Frees a frame if all are taken.
    pub(crate) fn make_room(&mut self) -> Result<(), Refusal>
        requires sound { IsSound self.old }
        requires reached { IsReached self.old }
        ensures sound { IsSound self.new }
        ensures reached { IsReached self.new }
        ensures moves { MovesPages ⟦<D as Disk>⟧ 1 (shown_of self.old) (shown_of self.new) result }
        ensures undamaged { IfErr result (λ r. r ≢ Refusal.Damaged) }
        ensures cells { CellsFrom self.old.frames.entries self.new.frames.entries }
        ensures room { OnOk result (length self.new.frames.entries < self.new.frames.cap) }
        ensures quiet { length self.old.frames.entries < self.old.frames.cap → self.new ≡ self.old }
        ensures order { OnOk result (order_of (shown_of self.new) ≡ order_with_room (shown_of self.old)) }
        ensures kept { OnErr result (order_of (shown_of self.new) ≡ order_of (shown_of self.old)) }
        ensures fewer { ArePagesOf self.new.frames.entries self.old.frames.entries }
    {
        if self.frames.len() < self.frames.most() {
            return Ok(());
        }
        self.evict()?;
        Ok(())
    }
}
