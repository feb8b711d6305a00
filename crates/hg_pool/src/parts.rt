//! The parts of a pool, and what each step makes of them.
ghost use Rattle.std.specs.Prelude.{◌≡◌, ◌≢◌, ◌⊎◌, ◌↔◌, ◌+◌, ◌*◌, ◌/◌, ◌<◌, ◌≤◌, ◌==◌, ◌^◌, ◌∷◌, false, Some, None, Ok, Err, IsTrue, OnOk, OnErr, IsErrOf, IfErr, MatchOption, if◌then◌else◌};
ghost use Rattle.hg_disk.specs.Calls.{CallsAtMost};
ghost use Rattle.hg_pages.specs.Slots.{HasBytes};
ghost use Rattle.hg_pages.specs.Tables.{IsNamed};
ghost use Rattle.hg_pool.specs.Maps.{bytes_of, disk_of, is_broken};
ghost use Rattle.hg_pool.specs.Kept.{BreaksByFailure, Stays};
ghost use Rattle.hg_pool.specs.Answers.{IsFull};
ghost use Rattle.hg_pool.specs.Calls.{CountsWrites, IsLeastSlot, KeepsSlotsBut, LeavesSlotsBut, SameBytes, StaysLong, WritesPages};

use hg_cache::Frames;
use hg_cells::Page;
use hg_disk::Disk;
use hg_pages::{EncodedPage, SlotFile, Table, WriteFault};
use lru::LruCache;
use std::alloc::Global;

/// The parts of a pool.
pub(crate) struct Parts<D: Disk> {
    pub(crate) alloc: Global,
    pub(crate) file: SlotFile<D>,
    pub(crate) root: Table,
    // None if it is the root's.
    pub(crate) frozen: Option<Table>,
    pub(crate) live: Table,
    pub(crate) waiting: Table,
    pub(crate) copies: LruCache<u64, Page>,
    pub(crate) frames: Frames,
    pub(crate) slots: u32,
    pub(crate) is_sealed: bool,
    // Where the search for a free slot begins: no slot below is free.
    pub(crate) search_from: u32,
}

impl<D: Disk + Drop> Drop for Parts<D> {
    fn drop(self) {
        let Parts {
            alloc: _,
            file,
            root,
            frozen,
            live,
            waiting,
            copies,
            frames,
            slots: _,
            is_sealed: _,
            search_from: _,
        } = self;
        drop(file);
        drop(root);
        drop(frozen);
        drop(live);
        drop(waiting);
        drop(copies);
        drop(frames);
    }
}

impl<D: Disk> Parts<D> {
    ghost use Rattle.hg_pool.specs.Reached.{IsReached};
    ghost use Rattle.hg_pool.specs.Sound.{IsSound, frozen_of, shown_of};

    /// The file.
    pub(crate) fn into_file(self) -> SlotFile<D>
        ensures { result ≡ self.file }
    {
        let Parts {
            alloc: _,
            file,
            root,
            frozen,
            live,
            waiting,
            copies,
            frames,
            slots: _,
            is_sealed: _,
            search_from: _,
        } = self;
        drop(root);
        drop(frozen);
        drop(live);
        drop(waiting);
        drop(copies);
        drop(frames);
        file
    }

    /// The table of the frozen map.
    pub(crate) fn frozen_table(&self) -> &Table
        ensures { result.now ≡ frozen_of self.now }
    {
        match &self.frozen {
            Some(table) => table,
            None => &self.root,
        }
    }

    /// The least slot that no table names and that is not picked, or none.
    pub(crate) fn free_slot(&self) -> Option<u32>
        requires sound { IsSound self.now }
        requires reached { IsReached self.now }
        ensures { MatchOption result (IsFull (shown_of self.now)) (IsLeastSlot (shown_of self.now)) }
    {
        self.free_slot_from(self.search_from)
    }

    // Writes a page to a slot: the one place where the file is written.
    fn write_slot(&mut self, slot: u32, page: &EncodedPage) -> Result<(), WriteFault>
        ensures rest { self.new ≡ record self.old { file = self.new.file } }
        ensures written { OnOk result (HasBytes slot page.now.bytes (bytes_of ⟦<D as Disk>⟧ (shown_of self.new))) }
        ensures others { KeepsSlotsBut ⟦<D as Disk>⟧ slot (shown_of self.old) (shown_of self.new) }
        ensures lost { OnErr result (SameBytes ⟦<D as Disk>⟧ (shown_of self.old) (shown_of self.new)) }
        ensures any_moment { LeavesSlotsBut ⟦<D as Disk>⟧ slot (shown_of self.old) (shown_of self.new) }
        ensures long { StaysLong ⟦<D as Disk>⟧ (shown_of self.old) (shown_of self.new) }
        ensures works { is_broken (shown_of self.new) ≡ false → is_broken (shown_of self.old) ≡ false }
        ensures cause { BreaksByFailure ⟦<D as Disk>⟧ (shown_of self.old) (shown_of self.new) }
        ensures breaks { OnErr result (IsTrue (is_broken (shown_of self.new))) }
        ensures broken { IsErrOf result WriteFault.Broken → IsTrue (is_broken (shown_of self.old)) }
        ensures refuses { IsTrue (is_broken (shown_of self.old)) → result ≡ Err WriteFault.Broken }
        ensures same { IsTrue (is_broken (shown_of self.old)) → self.new ≡ self.old }
        ensures device { CountsWrites ⟦<D as Disk>⟧ (shown_of self.old) (shown_of self.new) result }
        ensures calls { CallsAtMost ⟦<D as Disk>⟧ 1 (disk_of (shown_of self.old)) (disk_of (shown_of self.new)) }
    {
        self.file.write(slot, page)
    }

    /// Writes a page to a slot that no table names.
    pub(crate) fn write_unnamed(&mut self, slot: u32, page: &EncodedPage) -> Result<(), WriteFault>
        requires not_root { ¬ IsNamed self.old.root.entries slot }
        requires not_frozen { ¬ IsNamed (frozen_of self.old).entries slot }
        requires not_live { ¬ IsNamed self.old.live.entries slot }
        ensures rest { self.new ≡ record self.old { file = self.new.file } }
        ensures written { OnOk result (HasBytes slot page.now.bytes (bytes_of ⟦<D as Disk>⟧ (shown_of self.new))) }
        ensures writes { WritesPages ⟦<D as Disk>⟧ (shown_of self.old) (shown_of self.new) result }
        ensures refuses { IsTrue (is_broken (shown_of self.old)) → result ≡ Err WriteFault.Broken }
        ensures same { IsTrue (is_broken (shown_of self.old)) → self.new ≡ self.old }
    {
        self.write_slot(slot, page)
    }
}
