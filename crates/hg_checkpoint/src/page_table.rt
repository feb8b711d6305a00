//! The table of the pages that a root names.
ghost use Rattle.std.specs.Prelude.{◌≡◌, ◌<◌, ◌↔◌, All, IfOk, IsTrue};
ghost use Rattle.hg_root.specs.Lawful.{HaveSlots};
ghost use Rattle.hg_checkpoint.specs.NamedPages.{entries_of};

use hg_pages::Table;
use hg_root::PageSlot;
use std::alloc::{AllocError, Global};

/// The pages with their slots, in order. The only error is want of memory.
pub(crate) fn table_of(alloc: Global, pages: &[PageSlot]) -> Result<Table, AllocError>
    requires { HaveSlots pages.now }
    ensures { IfOk result (λ table. table.entries ≡ entries_of pages.now) }
{
    let mut entries = Vec::with_capacity(alloc, pages.len())?;
    for i in 0..pages.len() {
        entries.push((pages[i].page, pages[i].slot))?;
    }
    Table::from_entries(alloc, entries)
}

/// Whether each slot is below this number.
pub(crate) fn lie_below(pages: &[PageSlot], slots: u32) -> bool
    ensures { IsTrue result ↔ All (λ p. p.slot < slots) pages.now }
{
    for page in pages {
        if page.slot >= slots {
            return false;
        }
    }
    true
}
