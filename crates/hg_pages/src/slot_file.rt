//! A file of slots, each of which has one page.
ghost use Rattle.std.specs.Prelude.{◌≡◌, ◌+◌, ◌-◌, ◌*◌, ◌<◌, ◌≤◌, ◌↔◌, ℕ, ◌∷◌, length, take, false, IsTrue, OnOk, OnErr, IsErrOf, Err, IfOk, map};
ghost use Rattle.std.specs.Int.{w64, to_be_bytes};
ghost use Rattle.hg_disk.specs.State.{after_sync, counted};
ghost use Rattle.hg_disk.specs.Moments.{AddsNoImage, IsNeverShorter, WereTrueBefore};
ghost use Rattle.hg_disk.specs.Calls.{CallsAtMost};
ghost use Rattle.hg_pages.specs.Runs.{HasRun};
ghost use Rattle.hg_pages.specs.Slots.{AreKnown, HasBytes, IsOutside};
ghost use Rattle.hg_pages.specs.Tables.{EachNamed, IsLeastFree, IsLeastFreeFrom, SomeNames};
ghost use Rattle.hg_pages.specs.Fault.{failures_after, failures_after_write};
ghost use Rattle.hg_pages.specs.declared.fault.SlotFault.TheVariants.{Damaged};

use crate::decoded::{decode_into, page_in};
use crate::encoded::{EncodedPage, SLOT_LEN};
use crate::fault::{SlotFault, WriteFault};
use crate::slot_run::MOST_RUN;
use crate::table::Table;
use hg_cells::Page;
use hg_disk::{Disk, DiskFault};
use hg_sets::SetTable;
use std::alloc::Global;
use std::snapshot::Snapshot;

/// The most slots that may be named.
pub const MOST_SLOTS: u32 = 1_048_576;

// The end of a run of slots from this one on that one of the tables names, or this slot if none of them names it.
fn end_of_run(tables: &[&Table], from: u32) -> u32
    requires { from ≤ MOST_SLOTS }
    ensures within { (from ≤ result) × (result ≤ MOST_SLOTS) }
    ensures named { EachNamed (SomeNames (map (λ t. t.now) tables.now)) from result }
    ensures free { result ≡ from → from < MOST_SLOTS → ¬ SomeNames (map (λ t. t.now) tables.now) from }
{
    for table in tables {
        let end = table.end_of_named(from, MOST_SLOTS);
        if end > from {
            return end;
        }
    }
    from
}

// A sync, which adds no image.
fn sync<D: Disk>(disk: &mut D) -> Result<(), DiskFault>
    ensures ok { OnOk result (D.state disk.new ≡ after_sync (D.state disk.old)) }
    ensures any_moment { AddsNoImage ⟦<D as Disk>⟧ disk.old disk.new }
    ensures clock { D.past disk.new ≡ D.state disk.old ∷ D.past disk.old }
    ensures failures { D.failures disk.new ≡ counted result (D.failures disk.old) }
{
    disk.sync()
}

/// A file of slots of 3,080 bytes. Slot i stands at byte 3,080 i.
pub struct SlotFile<D: Disk> {
    disk: D,
    is_broken: bool,
    // The disk before the last write or sync.
    before: Snapshot<D>,
}

impl<D: Disk + Drop> Drop for SlotFile<D> {
    fn drop(self) {
        let SlotFile {
            disk,
            is_broken: _,
            before: _,
        } = self;
        drop(disk);
    }
}

impl<D: Disk> SlotFile<D> {
    ghost use Rattle.hg_pages.specs.Files.{KeepsOthers, LeavesKnown, LeavesOthers, GrowsToSlot, ReadsPage, RefusesIfBroken, StandsIn, TellsTrueDamage, WasRead, disk_of, is_broken, known};

    /// The file on a disk, whatever its bytes are. It makes no device call.
    pub fn attach(disk: D) -> SlotFile<D>
        ensures disk { disk_of result ≡ disk }
        ensures works { is_broken result ≡ false }
    {
        let before = Snapshot::of(&disk);
        SlotFile {
            disk,
            is_broken: false,
            before,
        }
    }

    /// The disk.
    pub fn into_disks(self) -> D
        ensures { result ≡ disk_of self }
    {
        let SlotFile {
            disk,
            is_broken: _,
            before: _,
        } = self;
        disk
    }

    /// Whether a write or a sync failed.
    pub fn is_broken(&self) -> bool
        ensures { result ≡ is_broken self.now }
    {
        self.is_broken
    }

    /// Whether the slot lies within the file.
    pub fn has_slot(&self, slot: u32) -> bool
        ensures { IsTrue result ↔ (3080 * slot + 3080 ≤ length (D.state (disk_of self.now)).contents) }
    {
        let end = (slot as u64 + 1) * SLOT_LEN as u64;
        end <= self.disk.len()
    }

    /// The least slot that none of the tables names, or none if each of the 1,048,576 slots is named. It makes no device
    /// call.
    pub fn free_slot(&self, tables: &[&Table]) -> Option<u32>
        ensures { IsLeastFree (map (λ t. t.now) tables.now) MOST_SLOTS result }
    {
        self.free_slot_from(0, tables)
    }

    /// The least slot from this one on that none of the tables names. To pick several slots, start each search behind the
    /// last one found: then no slot is looked at twice. A run of slots that one table names is passed over at once. It makes
    /// no device call.
    pub fn free_slot_from(&self, from: u32, tables: &[&Table]) -> Option<u32>
        ensures { IsLeastFreeFrom from (map (λ t. t.now) tables.now) MOST_SLOTS result }
    {
        let mut slot = from;
        while slot < MOST_SLOTS {
            let end = end_of_run(tables, slot);
            if end == slot {
                return Some(slot);
            }
            slot = end;
        }
        None
    }

    /// Puts a page into a slot. A `seal` makes it durable. The file may grow, also by the slots in between. It makes one
    /// device call. After an `Err` each later call but `into_disks` answers `Broken`.
    ///
    /// If each image has the same bytes in another slot, a crash at any moment of the call leaves them there.
    pub fn write(&mut self, slot: u32, page: &EncodedPage) -> Result<(), WriteFault>
        ensures written { OnOk result (HasBytes slot page.now.bytes (known ⟦<D as Disk>⟧ self.new)) }
        ensures others { KeepsOthers ⟦<D as Disk>⟧ slot self.old self.new result }

        // The file ends where it ended, or where the slot does.
        ensures length { OnOk result (GrowsToSlot ⟦<D as Disk>⟧ slot self.old self.new) }

        // After a failure it is open what a read gives; `known` is what it gave before.
        ensures lost { OnErr result (known ⟦<D as Disk>⟧ self.new ≡ known ⟦<D as Disk>⟧ self.old) }

        // Bytes that each image has in another slot stay there at each moment of the call.
        ensures any_moment { LeavesOthers ⟦<D as Disk>⟧ slot self.old self.new }

        // If each image has at least n bytes, so has each image at each moment of the call.
        ensures long { (n : ℕ) → IsNeverShorter ⟦<D as Disk>⟧ n (disk_of self.old) (disk_of self.new) }

        ensures calls { CallsAtMost ⟦<D as Disk>⟧ 1 (disk_of self.old) (disk_of self.new) }
        ensures kept { WereTrueBefore ⟦<D as Disk>⟧ (disk_of self.old) (disk_of self.new) }
        ensures device { D.failures (disk_of self.new) ≡ failures_after_write result (D.failures (disk_of self.old)) }
        ensures works { OnOk result (is_broken self.new ≡ false) }
        ensures breaks { OnErr result (IsTrue (is_broken self.new)) }
        ensures broken { RefusesIfBroken WriteFault.Broken self.old self.new result }
    {
        if self.is_broken {
            return Err(WriteFault::Broken);
        }
        self.before = Snapshot::of(&self.disk);
        let written = self
            .disk
            .write_at(slot as u64 * SLOT_LEN as u64, page.bytes());
        self.is_broken = written.is_err();
        Ok(written?)
    }

    /// Makes what stands in the slots durable. It makes one device call. After an `Err` each later call but `into_disks`
    /// answers `Broken`.
    pub fn seal(&mut self) -> Result<(), WriteFault>
        ensures known { known ⟦<D as Disk>⟧ self.new ≡ known ⟦<D as Disk>⟧ self.old }
        ensures durable { OnOk result (LeavesKnown ⟦<D as Disk>⟧ self.old self.new) }
        ensures any_moment { AddsNoImage ⟦<D as Disk>⟧ (disk_of self.old) (disk_of self.new) }
        ensures calls { CallsAtMost ⟦<D as Disk>⟧ 1 (disk_of self.old) (disk_of self.new) }
        ensures device { D.failures (disk_of self.new) ≡ failures_after_write result (D.failures (disk_of self.old)) }
        ensures works { OnOk result (is_broken self.new ≡ false) }
        ensures breaks { OnErr result (IsTrue (is_broken self.new)) }
        ensures broken { RefusesIfBroken WriteFault.Broken self.old self.new result }
    {
        if self.is_broken {
            return Err(WriteFault::Broken);
        }
        self.before = Snapshot::of(&self.disk);
        let synced = sync(&mut self.disk);
        self.is_broken = synced.is_err();
        Ok(synced?)
    }

    /// The bytes of a slot, with the page's number that they begin with. There is no check that they are a page's slot.
    /// `Damaged` if the slot does not lie within the file. The file stays as it is, and after an `Err` it can be tried
    /// again. It makes one device call at most, and takes 3,080 bytes of memory.
    pub fn read(&mut self, alloc: Global, slot: u32) -> Result<EncodedPage, SlotFault>
        ensures read { IsTrue (D.reads_were_true (disk_of self.new)) → IfOk result (StandsIn slot (known ⟦<D as Disk>⟧ self.old)) }
        ensures number { IfOk result (λ found. to_be_bytes w64 found.page ≡ take 8 found.bytes) }
        ensures damaged { IsErrOf result SlotFault.Damaged → IsOutside slot (known ⟦<D as Disk>⟧ self.old) }
        ensures stays { WasRead ⟦<D as Disk>⟧ 1 self.old self.new }
        ensures device { D.failures (disk_of self.new) ≡ failures_after result (D.failures (disk_of self.old)) }
        ensures broken { RefusesIfBroken SlotFault.Broken self.old self.new result }
    {
        if self.is_broken {
            return Err(SlotFault::Broken);
        }
        let mut bytes = Vec::from_elem(alloc, 0, SLOT_LEN)?;
        self.fill(slot, 1, &mut bytes)?;
        let page = page_in(&bytes);
        Ok(EncodedPage::of(page, bytes))
    }

    /// Reads the cells of a page from its slot into a page, checked against the number of segments and the table of sets.
    /// `Damaged` if the slot is not the slot of this page (`decode`), or does not lie within the file. The file stays as it
    /// is, and after an `Err` it can be tried again; the page has any cells then. It makes one device call at most, and takes
    /// no memory.
    pub fn read_page(
        &mut self,
        slot: u32,
        page: u64,
        segments: u32,
        sets: &SetTable,
        cells: &mut Page,
    ) -> Result<(), SlotFault>
        ensures read { ReadsPage ⟦<D as Disk>⟧ self.old self.new slot page segments sets.now.sets cells.new result }
        ensures damaged { TellsTrueDamage ⟦<D as Disk>⟧ self.old self.new slot page segments sets.now.sets result }

        // Even on a disk that lies, the cells name only known segments and sets.
        ensures named { OnOk result (AreKnown segments sets.now.sets cells.new) }
        ensures memory { ¬ IsErrOf result SlotFault.OutOfMemory }
        ensures stays { WasRead ⟦<D as Disk>⟧ 1 self.old self.new }
        ensures device { D.failures (disk_of self.new) ≡ failures_after result (D.failures (disk_of self.old)) }
        ensures broken { RefusesIfBroken SlotFault.Broken self.old self.new result }
    {
        let mut bytes = [0; SLOT_LEN];
        self.fill(slot, 1, &mut bytes)?;
        if !decode_into(&bytes, page, segments, sets, cells) {
            return Err(SlotFault::Damaged);
        }
        Ok(())
    }

    // Fills a buffer with the bytes of so many slots that lie side by side.
    pub(crate) fn fill(
        &mut self,
        first: u32,
        count: usize,
        bytes: &mut [u8],
    ) -> Result<(), SlotFault>
        requires some { 1 ≤ count }
        requires most { count ≤ MOST_RUN }
        requires length { length bytes.old ≡ count * SLOT_LEN }
        ensures read { IsTrue (D.reads_were_true (disk_of self.new)) → OnOk result (HasRun first count bytes.new (known ⟦<D as Disk>⟧ self.old)) }
        ensures damaged { IsErrOf result SlotFault.Damaged → IsOutside (first + count - 1) (known ⟦<D as Disk>⟧ self.old) }
        ensures length { length bytes.new ≡ count * SLOT_LEN }
        ensures memory { ¬ IsErrOf result SlotFault.OutOfMemory }
        ensures stays { WasRead ⟦<D as Disk>⟧ 1 self.old self.new }
        ensures device { D.failures (disk_of self.new) ≡ failures_after result (D.failures (disk_of self.old)) }
        ensures broken { RefusesIfBroken SlotFault.Broken self.old self.new result }
    {
        if self.is_broken {
            return Err(SlotFault::Broken);
        }
        let end = (first as u64 + count as u64) * SLOT_LEN as u64;
        if end > self.disk.len() {
            return Err(SlotFault::Damaged);
        }
        self.disk.read_at(first as u64 * SLOT_LEN as u64, bytes)?;
        Ok(())
    }
}
