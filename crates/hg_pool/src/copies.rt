//! The frozen cells of pages that wait.
ghost use Rattle.std.specs.Prelude.{◌≡◌, ◌<◌, ◌==◌, length, None, OnOk, OnErr, IfErr, if◌then◌else◌};
ghost use Rattle.hg_pool.specs.Maps.{copy_in};
ghost use Rattle.hg_pool.specs.Calls.{HasCopied};

use hg_cells::Page;
use hg_model::verdict::Refusal;
use lru::LruCache;

/// Adds the frozen cells of a page that has none.
#[inline(never)]
pub(crate) fn add_copy(
    copies: &mut LruCache<u64, Page>,
    page: u64,
    cells: &Page,
) -> Result<(), Refusal>
    requires absent { copy_in copies.old.entries page ≡ None }
    requires room { length copies.old.entries < copies.old.cap }
    ensures looks { OnOk result (HasCopied page cells.now copies.old.entries copies.new.entries) }
    ensures cap { copies.new.cap ≡ copies.old.cap }
    ensures refused { OnErr result (copies.new ≡ copies.old) }
    ensures refusal { IfErr result (λ r. r ≡ Refusal.OutOfMemory) }
{
    copies.put(page, cells.copy())?;
    Ok(())
}
