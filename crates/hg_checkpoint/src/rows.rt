//! The page table of a root.
ghost use Rattle.std.specs.Prelude.{◌≡◌, IfOk};
ghost use Rattle.hg_checkpoint.specs.Tables.{pages_of};

use hg_pages::Table;
use hg_root::PageSlot;
use std::alloc::{AllocError, Global};

/// The pages of a table, as a root names them.
pub(crate) fn pages_in(alloc: Global, table: &Table) -> Result<Vec<PageSlot>, AllocError>
    ensures { IfOk result (λ pages. pages.items ≡ pages_of table.now.entries) }
{
    let mut pages = Vec::new(alloc);
    for i in 0..table.len() {
        let (page, slot) = table.at(i);
        pages.push(PageSlot { page, slot })?;
    }
    Ok(pages)
}
