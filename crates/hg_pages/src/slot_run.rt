//! The bytes of slots that lie side by side.
ghost use Rattle.std.specs.Prelude.{◌≡◌, ◌+◌, ◌-◌, ◌*◌, ◌<◌, ◌≤◌, false, replicate, IsErrOf, IsTrue, OnOk};
ghost use Rattle.hg_pages.specs.Fault.{failures_after};
ghost use Rattle.hg_pages.specs.Runs.{HasRun, bytes_in_run};
ghost use Rattle.hg_pages.specs.Slots.{AreKnown, IsNoKnownSlot, IsOutside, IsSlot};

use crate::decoded::decode_into;
use crate::encoded::SLOT_LEN;
use crate::fault::SlotFault;
use crate::slot_file::SlotFile;
use hg_cells::Page;
use hg_disk::Disk;
use hg_sets::SetTable;
use std::marker::Model;

/// The most slots of a run.
pub const MOST_RUN: usize = 21;

// How many bytes 21 slots have.
const RUN_LEN: usize = MOST_RUN * SLOT_LEN;

/// The bytes of 21 slots, for slots that lie side by side in a file. They lie in place: it takes no memory.
#[derive(Drop)]
pub struct SlotRun {
    bytes: [u8; RUN_LEN],
}

impl Model for SlotRun {
    ghost use Rattle.std.specs.Prelude.{◌≡◌, ℕ, List, length};
    ghost use Rattle.hg_pages.specs.declared.slot_run.TheConstants.{RUN_LEN};

    ghost Value = { List ℕ };

    ghost view = { λ run. run.bytes };

    ghost invariant = { λ run. length run.bytes ≡ RUN_LEN };
}

impl SlotRun {
    /// A run of zeros.
    #[inline(always)]
    pub fn new() -> SlotRun
        ensures { result ≡ replicate (MOST_RUN * SLOT_LEN) 0 }
    {
        SlotRun {
            bytes: [0; RUN_LEN],
        }
    }

    /// Reads the cells of a page from the slot at this place, counted from 0, into a page, checked against the number of
    /// segments and the table of sets. Answers whether the slot is that of this page (`decode`); if not, the page has any
    /// cells. It takes no memory.
    pub fn read_page(
        &self,
        place: usize,
        page: u64,
        segments: u32,
        sets: &SetTable,
        cells: &mut Page,
    ) -> bool
        requires { place < MOST_RUN }
        ensures yes { IsTrue result → IsSlot page cells.new (bytes_in_run self.now place) × AreKnown segments sets.now.sets cells.new }
        ensures no { result ≡ false → IsNoKnownSlot page segments sets.now.sets (bytes_in_run self.now place) }
    {
        let at = SLOT_LEN * place;
        let bytes = &self.bytes[at..at + SLOT_LEN];
        decode_into(bytes, page, segments, sets, cells)
    }
}

impl<D: Disk> SlotFile<D> {
    ghost use Rattle.hg_pages.specs.Files.{RefusesIfBroken, WasRead, disk_of, known};

    /// Reads so many slots, from `first` on, into the first ones of a run. `Damaged` if the last of them does not lie within
    /// the file. The file stays as it is, and after an `Err` it can be tried again; the run has any bytes then. It makes one
    /// device call at most, and takes no memory.
    pub fn read_run(&mut self, first: u32, count: usize, run: &mut SlotRun) -> Result<(), SlotFault>
        requires some { 1 ≤ count }
        requires most { count ≤ MOST_RUN }
        ensures read { IsTrue (D.reads_were_true (disk_of self.new)) → OnOk result (HasRun first count run.new (known ⟦<D as Disk>⟧ self.old)) }
        ensures damaged { IsErrOf result SlotFault.Damaged → IsOutside (first + count - 1) (known ⟦<D as Disk>⟧ self.old) }
        ensures memory { ¬ IsErrOf result SlotFault.OutOfMemory }
        ensures stays { WasRead ⟦<D as Disk>⟧ 1 self.old self.new }
        ensures device { D.failures (disk_of self.new) ≡ failures_after result (D.failures (disk_of self.old)) }
        ensures broken { RefusesIfBroken SlotFault.Broken self.old self.new result }
    {
        self.fill(first, count, &mut run.bytes[..count * SLOT_LEN])
    }
}
