//! A page that waits. To encode it takes no access to the pool.
ghost use Rattle.std.specs.Prelude.{◌≡◌, ◌<◌, ◌^◌, IfOk, IfErr};
ghost use Rattle.hg_pages.specs.Slots.{IsSlot, slot_text};

use hg_cells::Page;
use hg_pages::{EncodedPage, MOST_PAGES, encode};
use std::alloc::Global;

/// What `put` did with a page.
#[derive(Clone, Copy, Debug, PartialEq, Eq, Drop)]
pub enum Put {
    /// It was written to the slot that was picked for it.
    Written,
    /// The page does not wait, or its cells are not the frozen ones. Nothing was changed.
    Stale,
}

/// A page that waits, with its frozen cells.
#[derive(Drop)]
pub struct Job {
    /// The allocator for its bytes.
    pub alloc: Global,
    /// The number of the page.
    pub page: u64,
    /// Its frozen cells.
    pub cells: Page,
}

impl Job {
    /// The page as the bytes of its slot. If there is no memory, the job is handed back.
    pub fn encode(self) -> Result<EncodedPage, Job>
        ensures page { IfOk result (λ encoded. encoded.page ≡ self.page) }
        ensures bytes { IfOk result (λ encoded. encoded.bytes ≡ slot_text self.page self.cells) }
        ensures slot { self.page < MOST_PAGES → IfOk result (λ encoded. IsSlot self.page self.cells encoded.bytes) }
        ensures handed_back { IfErr result (λ job. job ≡ self) }
    {
        match encode(self.alloc, self.page, &self.cells) {
            Ok(encoded) => Ok(encoded),
            Err(_) => Err(self),
        }
    }
}
