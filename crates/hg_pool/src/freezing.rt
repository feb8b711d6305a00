//! A freeze: the live map becomes the frozen one.
ghost use Rattle.std.specs.Prelude.{◌≡◌, ◌⊎◌, ◌↔◌, ◌+◌, ◌<◌, ◌≤◌, ◌^◌, ◌==◌, ℕ, [], ◌∷◌, length, true, false, Some, None, Ok, Err, is_some, OnOk, OnErr, IfOk, IsErrOf, MatchOption, if◌then◌else◌};
ghost use Rattle.hg_pages.specs.Tables.{AreSlotsBelow, slot_in};
ghost use Rattle.hg_pool.specs.Maps.{frozen, live};
ghost use Rattle.hg_pool.specs.Kept.{IsWhole, SameMap};
ghost use Rattle.hg_pool.specs.Picking.{AreLeastFree, ArePicks, AreTooFew, HasDirty, LacksSlots};
ghost use Rattle.hg_pool.specs.Calls.{AreFree, AreLeft, AreTakenFrom, FreezesLive, FreezesOnOk, HasRoomFor, IsFirstFree, NamesDirty};

use crate::changed::changed_pages;
use crate::fault::FreezeFault;
use crate::parts::Parts;
use hg_disk::Disk;
use hg_pages::Table;
use std::alloc::{AllocError, Global};

// A table without these pages.
fn without(alloc: Global, table: &Table, pages: &Table) -> Result<Table, AllocError>
    ensures looks { IfOk result (λ left. AreLeft pages.now.entries table.now.entries left.entries) }
    ensures fewer { IfOk result (λ left. length left.entries ≤ length table.now.entries) }
{
    let mut left = table.copy(alloc)?;
    for i in 0..pages.len() {
        left.remove(pages.at(i).0);
    }
    Ok(left)
}

impl<D: Disk> Parts<D> {
    ghost use Rattle.hg_pool.specs.Reached.{IsReached};
    ghost use Rattle.hg_pool.specs.Sound.{IsSound, shown_of, ChangesTables, HasBegun};

    /// The least slot from this one on that nothing names.
    pub(crate) fn free_slot_from(&self, from: u32) -> Option<u32>
        requires sound { IsSound self.now }
        ensures { MatchOption result (AreTakenFrom (shown_of self.now) from) (IsFirstFree (shown_of self.now) from) }
    {
        let tables = [&self.root, self.frozen_table(), &self.live, &self.waiting];
        match self.file.free_slot_from(from, &tables) {
            Some(slot) => { if slot < self.slots { Some(slot) } else { None } }
            None => None,
        }
    }

    // Picks a slot for each of these pages, in their order: each time the least slot that nothing names.
    fn pick(&self, pages: &Table) -> Result<Table, FreezeFault>
        requires sound { IsSound self.now }
        ensures picks { IfOk result (λ picks. ArePicks (shown_of self.now) pages.now.entries picks.entries) }
        ensures full { IsErrOf result FreezeFault.FullSlots → AreTooFew (shown_of self.now) (length pages.now.entries) }
    {
        let mut picks = Table::new(self.alloc);
        let mut from = 0u32;
        for i in 0..pages.len() {
            match self.free_slot_from(from) {
                None => return Err(FreezeFault::FullSlots),
                Some(slot) => {
                    picks.set(pages.at(i).0, slot)?;
                    from = slot + 1;
                }
            }
        }
        Ok(picks)
    }

    // Begins a checkpoint: these pages wait, and this is the frozen table.
    fn begin(&mut self, waiting: Table, table: Table)
        requires sound { IsSound self.old }
        requires dirty { (q : ℕ) → (is_some (slot_in waiting.entries q) ≡ true) ↔ HasDirty self.old.frames.entries q }
        requires free { AreFree (shown_of self.old) waiting.entries }
        requires few { length waiting.entries ≤ self.old.frames.cap }
        requires left { AreLeft waiting.entries self.old.live.entries table.entries }
        requires slots { AreSlotsBelow waiting.slots waiting.entries }
        requires frozen_room { HasRoomFor waiting table }
        requires live_room { HasRoomFor waiting self.old.live }
        ensures sound { IsSound self.new }
        ensures frozen { FreezesLive ⟦<D as Disk>⟧ (shown_of self.old) (shown_of self.new) }
        ensures whole { IsWhole ⟦<D as Disk>⟧ (shown_of self.old) → IsWhole ⟦<D as Disk>⟧ (shown_of self.new) }
        ensures rest { HasBegun table waiting self.old self.new }
        ensures copies { self.new.copies.entries ≡ [] }
    {
        self.waiting = waiting;
        self.frozen = Some(table);
        self.copies.clear();
        self.is_sealed = false;
    }

    /// Makes the live map the frozen one. The changed pages wait from then on.
    pub(crate) fn freeze(&mut self) -> Result<(), FreezeFault>
        requires sound { IsSound self.old }
        ensures sound { IsSound self.new }
        ensures reached { IsReached self.new }
        ensures frozen { FreezesOnOk ⟦<D as Disk>⟧ (shown_of self.old) (shown_of self.new) result }
        ensures live { SameMap (live ⟦<D as Disk>⟧ (shown_of self.old)) (live ⟦<D as Disk>⟧ (shown_of self.new)) }
        ensures whole { IsWhole ⟦<D as Disk>⟧ (shown_of self.old) → IsWhole ⟦<D as Disk>⟧ (shown_of self.new) }
        ensures waiting { OnOk result (NamesDirty self.old.frames.entries self.new.waiting.entries) }
        ensures picked { OnOk result (AreLeastFree (shown_of self.old) self.new.waiting.entries) }
        ensures rest { ChangesTables self.old self.new }
        ensures table { self.new.live.entries ≡ self.old.live.entries }
        ensures sealed { OnOk result (self.new.is_sealed ≡ false) }
        ensures refused { OnErr result (shown_of self.new ≡ shown_of self.old) }
        ensures full { IsErrOf result FreezeFault.FullSlots → LacksSlots (shown_of self.old) }
    {
        self.search_from = 0;
        let _count = self.frames.len();
        let changed = changed_pages(self.alloc, &self.frames)?;
        let _entries = changed.len();
        let waiting = self.pick(&changed)?;
        let mut frozen = without(self.alloc, &self.live, &changed)?;
        let slots = waiting.slots();
        frozen.reserve(waiting.len(), slots)?;
        self.live.reserve(waiting.len(), slots)?;
        self.begin(waiting, frozen);
        Ok(())
    }
}
