//! The pages in memory that were changed.
ghost use Rattle.std.specs.Prelude.{◌≡◌, ◌↔◌, ◌+◌, ◌<◌, ◌≤◌, ◌==◌, ℕ, length, Some, true, is_some, OnOk, IfOk, if◌then◌else◌};
ghost use Rattle.hg_cache.specs.declared.frame.Frame.{Frame as FrameOf};
ghost use Rattle.hg_pages.specs.Tables.{slot_in};
ghost use Rattle.hg_pool.specs.Maps.{frame_in};
ghost use Rattle.hg_pool.specs.Picking.{HasDirty};
ghost use Rattle.hg_pool.specs.Calls.{NamesDirty, Notes};

use hg_cache::Frames;
use hg_pages::Table;
use std::alloc::{AllocError, Global};

/// Whether a page in memory was changed.
pub(crate) fn is_changed(frames: &Frames, page: u64) -> bool
    ensures { (f : FrameOf) → frame_in frames.now.entries page ≡ Some f → result ≡ f.is_dirty }
{
    match frames.get(page) {
        Some(frame) => frame.is_dirty,
        None => false,
    }
}

// Adds a page to a table, with its place in the order of use, if the page was changed.
fn note(table: &mut Table, page: u64, place: u32, is_dirty: bool) -> Result<(), AllocError>
    requires { (q slot : ℕ) → slot_in table.old.entries q ≡ Some slot → slot < place }
    ensures looks { OnOk result (Notes page place is_dirty table.old.entries table.new.entries) }
    ensures few { OnOk result (length table.new.entries ≤ length table.old.entries + 1) }
{
    if !is_dirty {
        return Ok(());
    }
    table.set(page, place)
}

/// The pages that were changed, each with its place in the order of use.
pub(crate) fn changed_pages(alloc: Global, frames: &Frames) -> Result<Table, AllocError>
    requires few { length frames.now.entries ≤ 4096 }
    ensures pages { IfOk result (λ table. NamesDirty frames.now.entries table.entries) }
    ensures few { IfOk result (λ table. length table.entries ≤ length frames.now.entries) }
{
    let _count = frames.len();
    let mut table = Table::new(alloc);
    let mut place = 0u32;
    let mut next = frames.newest();
    while let Some(page) = next {
        let is_dirty = is_changed(frames, page);
        note(&mut table, page, place, is_dirty)?;
        place += 1;
        next = frames.older(page);
    }
    Ok(table)
}
