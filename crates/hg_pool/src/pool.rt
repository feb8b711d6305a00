//! The pool.
ghost use Rattle.std.specs.Prelude.{◌≡◌, ◌≢◌, ◌⊎◌, ◌↔◌, ◌+◌, ◌*◌, ◌/◌, ◌<◌, ◌≤◌, ◌^◌, ◌==◌, [], ◌∷◌, ◌++◌, length, get_or, true, false, Some, None, Ok, Err, is_some, IsTrue, OnOk, OnErr, IfOk, IfErr, IsErrOf, if◌then◌else◌};
ghost use Rattle.hg_pages.specs.Tables.{slot_in};
ghost use Rattle.hg_pool.specs.Maps.{copy_in, frame_in, frozen, is_broken, live};
ghost use Rattle.hg_pool.specs.Kept.{CellsFrom, IsWhole, SameMap, Stays, Went};
ghost use Rattle.hg_cache.specs.declared.frame.Frame.{Frame as FrameOf};
ghost use Rattle.hg_cells.specs.declared.cell.Cell.TheVariants.{New};
ghost use Rattle.hg_pool.specs.Answers.{order_of, order_with};
ghost use Rattle.hg_pool.specs.Picking.{AreLeastFree, LacksSlots};
ghost use Rattle.hg_pool.specs.Shown.{HasSameLimits};
ghost use Rattle.hg_pool.specs.Tables.{AreBelow, IsNameable};
ghost use Rattle.hg_pool.specs.Calls.{FillsPage, FreezesOnOk, HasChanged, HasFreed, HasWaited, IsNextJob, IsStale, KeepsCopies, KeepsFirst, LeavesUnwritten, LoadsAgain, LoadsUndamaged, LosesWritten, MayChange, MovesPages, NamesDirty, SealsWhole, StayWithin, WritesPages, first_pool, order_with_room};

use crate::fault::FreezeFault;
use crate::job::{Job, Put};
use crate::parts::Parts;
use hg_cache::Frames;
use hg_cells::{Cell, Page};
use hg_disk::Disk;
use hg_model::verdict::Refusal;
use hg_pages::{EncodedPage, MOST_PAGES, MOST_SLOTS, SlotFile, Table, WriteFault};
use hg_sets::SetTable;
use lru::LruCache;
use std::alloc::{AllocError, Global};
use std::marker::Model;
use std::num::NonZeroUsize;

/// The live map of words and the frozen one, over a file of slots.
pub struct Pool<D: Disk> {
    pub(crate) parts: Parts<D>,
}

impl<D: Disk + Drop> Drop for Pool<D> {
    fn drop(self) {
        let Pool { parts } = self;
        drop(parts);
    }
}

impl<D: Disk> Model for Pool<D> {
    ghost use Rattle.hg_pool.specs.Shown.{ShownPool};
    ghost use Rattle.hg_pool.specs.Reached.{IsReached};
    ghost use Rattle.hg_pool.specs.Sound.{IsSound, shown_of};

    ghost Value = { ShownPool D };

    ghost view = { λ p. shown_of p.parts };

    ghost invariant = { λ p. IsSound p.parts × IsReached p.parts };
}

// A copy of the table, and room for copies and for frames.
fn rooms(
    alloc: Global,
    table: &Table,
    frames: usize,
) -> Result<(Table, LruCache<u64, Page>, Frames), AllocError>
    ensures table { IfOk result (λ r. r.0.entries ≡ table.now.entries) }
    ensures copies { IfOk result (λ r. (r.1.entries ≡ []) × (r.1.cap ≡ frames)) }
    ensures frames { IfOk result (λ r. (r.2.entries ≡ []) × (r.2.cap ≡ frames)) }
    ensures least { IfOk result (λ r. 2 ≤ frames) }
{
    if frames < 2 {
        return Err(AllocError);
    }
    let Some(most) = NonZeroUsize::new(frames) else {
        return Err(AllocError);
    };
    Ok((
        table.copy(alloc)?,
        LruCache::sparse(alloc, most)?,
        Frames::new(alloc, most)?,
    ))
}

impl<D: Disk> Pool<D> {
    /// A pool over a file of slots, with no page in memory. Both maps are the one that `table` gives, the table of the
    /// newest root. `frames` is the number of frames, 2 to 4,096: an event may lie on two pages. The pool, and `table` too,
    /// names only slots below `slots`. With fewer than 2 frames, or without memory, the file is handed back.
    pub fn new(
        alloc: Global,
        file: SlotFile<D>,
        table: Table,
        frames: usize,
        slots: u32,
    ) -> Result<Self, SlotFile<D>>
        requires frames { frames ≤ 4096 }
        requires slots { slots ≤ MOST_SLOTS }
        requires table { AreBelow slots table.entries }
        ensures pool { IfOk result (λ p. p ≡ first_pool file table.entries frames slots) }
        ensures handed_back { IfErr result (λ f. f ≡ file) }
    {
        match rooms(alloc, &table, frames) {
            Ok((live, copies, frames)) => Ok(Pool {
                parts: Parts {
                    alloc,
                    file,
                    root: table,
                    frozen: None,
                    live,
                    waiting: Table::new(alloc),
                    copies,
                    frames,
                    slots,
                    is_sealed: false,
                    search_from: 0,
                },
            }),
            Err(_) => Err(file),
        }
    }

    /// Frees the frame of the page used least recently, and answers the page's number, or none if no page is in memory. A
    /// changed page is written first: to the slot picked for it if it waits and is as it was frozen, else to the least free
    /// slot.
    pub fn evict(&mut self) -> Result<Option<u64>, Refusal>
        ensures moves { MovesPages ⟦<D as Disk>⟧ 1 self.old self.new result }
        ensures none { result ≡ Ok None → (self.new ≡ self.old) × (self.old.frames ≡ []) }
        ensures freed { IfOk result (HasFreed self.old self.new) }
        ensures kept { OnErr result (order_of self.new ≡ order_of self.old) }
        ensures cells { CellsFrom self.old.frames self.new.frames }
        ensures unwritten { IfOk result (LeavesUnwritten self.old self.new) }
        ensures changed { OnErr result (HasChanged self.old) }
        ensures undamaged { IfErr result (λ r. r ≢ Refusal.Damaged) }
        ensures breaks { IsErrOf result Refusal.DeviceFault → IsTrue (is_broken self.new) }
    {
        self.parts.evict()
    }

    /// Frees a frame if all are taken: that of the page used least recently.
    pub fn make_room(&mut self) -> Result<(), Refusal>
        ensures moves { MovesPages ⟦<D as Disk>⟧ 1 self.old self.new result }
        ensures room { OnOk result (length self.new.frames < self.new.most_frames) }
        ensures quiet { length self.old.frames < self.old.most_frames → self.new ≡ self.old }
        ensures order { OnOk result (order_of self.new ≡ order_with_room self.old) }
        ensures kept { OnErr result (order_of self.new ≡ order_of self.old) }
        ensures cells { CellsFrom self.old.frames self.new.frames }
        ensures undamaged { IfErr result (λ r. r ≢ Refusal.Damaged) }
    {
        self.parts.make_room()
    }

    /// Brings a page into a frame, as the one used last. If all frames are taken, the page used least recently leaves its
    /// frame. The page used just before this call stays. A page that is in memory already is never refused.
    pub fn load(&mut self, page: u64, segments: u32, sets: &SetTable) -> Result<(), Refusal>
        requires { page < MOST_PAGES }
        ensures moves { MovesPages ⟦<D as Disk>⟧ 2 self.old self.new result }
        ensures loaded { OnOk result (is_some (frame_in self.new.frames page) ≡ true) }
        ensures order { OnOk result (order_of self.new ≡ order_with self.old page) }
        ensures before { OnOk result (KeepsFirst self.old self.new) }
        ensures within { StayWithin segments (length sets.now.sets) self.old.frames self.new.frames }
        ensures undamaged { LoadsUndamaged ⟦<D as Disk>⟧ self.old page segments sets.now.sets result }
        ensures again { LoadsAgain self.old self.new page result }
    {
        self.parts.load(page, segments, sets)
    }

    /// Copies the frozen cells of a page that waits and has no copy yet. Then the page may be changed. A page that may be
    /// changed already is never refused.
    pub fn keep(&mut self, page: u64) -> Result<(), Refusal>
        ensures stays { Stays ⟦<D as Disk>⟧ self.old self.new }
        ensures rest { self.new ≡ record self.old { copies = self.new.copies } }
        ensures kept { OnOk result (MayChange self.new page) }
        ensures others { KeepsCopies self.old.copies self.new.copies }
        ensures refused { OnErr result (self.new ≡ self.old) }
        ensures again { MayChange self.old page → result ≡ Ok tt }
        ensures refusal { IfErr result (λ r. r ≡ Refusal.OutOfMemory) }
    {
        self.parts.keep_page(page)
    }

    /// The cell of a word of a page that is in memory.
    pub fn cell(&self, page: u64, word: usize) -> Cell
        requires present { is_some (frame_in self.now.frames page) ≡ true }
        requires word { word < 256 }
        ensures { (f : FrameOf) → frame_in self.now.frames page ≡ Some f → result ≡ get_or f.cells word New }
    {
        match self.parts.frames.get(page) {
            Some(frame) => frame.cells.get(word),
            None => Cell::New,
        }
    }

    /// Gives words of a page a cell, from one place up to another, and makes the page the one used last. The frozen map stays.
    #[inline]
    pub fn update(&mut self, page: u64, from: usize, to: usize, cell: Cell)
        requires present { is_some (frame_in self.old.frames page) ≡ true }
        requires settled { (slot_in self.old.waiting page ≡ None) ⊎ (is_some (copy_in self.old.copies page) ≡ true) }
        requires in_order { from ≤ to }
        requires in_page { to ≤ 256 }
        ensures went { Went ⟦<D as Disk>⟧ self.old self.new }
        ensures rest { self.new ≡ record self.old { frames = self.new.frames } }
        ensures frames { FillsPage page from to cell self.old.frames self.new.frames }
        ensures order { order_of self.new ≡ order_with self.old page }
    {
        self.parts.update(page, from, to, cell);
    }

    /// The file, as the calls left it.
    pub fn into_disks(self) -> SlotFile<D>
        ensures { result ≡ self.file }
    {
        let Pool { parts } = self;
        parts.into_file()
    }

    /// Makes the live map the frozen one. The pages that were changed since they were new, read or written wait from then
    /// on. Each gets a slot that nothing names: the least ones, rising with the pages. A refusal changes nothing.
    pub fn freeze(&mut self) -> Result<(), FreezeFault>
        ensures frozen { FreezesOnOk ⟦<D as Disk>⟧ self.old self.new result }
        ensures live { SameMap (live ⟦<D as Disk>⟧ self.old) (live ⟦<D as Disk>⟧ self.new) }
        ensures whole { IsWhole ⟦<D as Disk>⟧ self.old → IsWhole ⟦<D as Disk>⟧ self.new }
        ensures waiting { OnOk result (NamesDirty self.old.frames self.new.waiting) }
        ensures picked { OnOk result (AreLeastFree self.old self.new.waiting) }
        ensures root { self.new.root ≡ self.old.root }
        ensures file { self.new.file ≡ self.old.file }
        ensures frames { self.new.frames ≡ self.old.frames }
        ensures limits { HasSameLimits self.old self.new }
        ensures sealed { OnOk result (self.new.is_sealed ≡ false) }
        ensures refused { OnErr result (self.new ≡ self.old) }
        ensures full { IsErrOf result FreezeFault.FullSlots → LacksSlots self.old }
    {
        self.parts.freeze()
    }

    /// The waiting page with the least number, with its frozen cells. Takes no memory.
    pub fn take_job(&self) -> Option<Job>
        ensures { IsNextJob self.now result }
    {
        self.parts.take_job()
    }

    /// Writes a page to the slot that was picked for it: `Written` exactly if it waits and the bytes are those of its
    /// frozen cells. The pages in memory stay, with their cells. It takes no memory.
    pub fn put(&mut self, page: &EncodedPage) -> Result<Put, WriteFault>
        ensures writes { WritesPages ⟦<D as Disk>⟧ self.old self.new result }
        ensures written { IfOk result (λ put. put ≡ Put.Written → HasWaited self.old page.now) }
        ensures stale { IfOk result (λ put. put ≡ Put.Stale → IsStale self.old page.now) }
        ensures nothing { IfOk result (λ put. put ≡ Put.Stale → self.new ≡ self.old) }
        ensures waiting { LosesWritten page.now.page self.old.waiting self.new.waiting result }
        ensures cells { CellsFrom self.old.frames self.new.frames }
        ensures order { order_of self.new ≡ order_of self.old }
    {
        self.parts.put(page)
    }

    /// Whether a write or a sync of the file failed.
    pub fn is_broken(&self) -> bool
        ensures { result ≡ is_broken self.now }
    {
        self.parts.file.is_broken()
    }

    /// Whether no page waits.
    pub fn all_written(&self) -> bool
        ensures { IsTrue result ↔ (self.now.waiting ≡ []) }
    {
        self.parts.waiting.len() == 0
    }

    /// How many frozen copies there are: at most as many as frames.
    pub fn copies(&self) -> usize
        ensures count { result ≡ length self.now.copies }
        ensures few { length self.now.copies ≤ self.now.most_frames }
    {
        self.parts.copies.len()
    }

    /// How many pages are in memory: at most as many as frames.
    pub fn frames(&self) -> usize
        ensures count { result ≡ length self.now.frames }
        ensures few { length self.now.frames ≤ self.now.most_frames }
    {
        self.parts.frames.len()
    }

    /// The table of the frozen map. A waiting page has its entry once it is written. A root can name the table.
    pub fn frozen_table(&self) -> &Table
        ensures entries { result.now.entries ≡ self.now.frozen }
        ensures nameable { IsNameable self.now.slots self.now.frozen }
    {
        let table = self.parts.frozen_table();
        let _entries = table.len();
        table
    }

    /// Makes the written pages durable. If no page waits, then after an `Ok` each image of the slots, read by the frozen
    /// table, gives the frozen map. It takes no memory.
    pub fn seal(&mut self) -> Result<(), WriteFault>
        ensures writes { WritesPages ⟦<D as Disk>⟧ self.old self.new result }
        ensures sealed { SealsWhole ⟦<D as Disk>⟧ self.old self.new result }
        ensures marked { self.old.waiting ≡ [] → OnOk result (IsTrue self.new.is_sealed) }
        ensures rest { self.new ≡ record self.old { file = self.new.file; is_sealed = self.new.is_sealed } }
    {
        self.parts.seal()
    }

    /// The root that names the frozen table was opened: from now on its slots are kept, and those of the former root are free.
    /// Takes no memory.
    pub fn root_opened(&mut self)
        requires { IsTrue self.old.is_sealed }
        ensures { self.new ≡ record self.old { root = self.old.frozen } }
    {
        self.parts.root_opened();
    }
}
