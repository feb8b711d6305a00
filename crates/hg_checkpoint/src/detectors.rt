//! A detector with the parts of a root.
ghost use Rattle.std.specs.Prelude.{◌≡◌, ◌≤◌, [], length, IfErr, IfOk};
ghost use Rattle.hg_detect.specs.Engine.{AtPresent};
ghost use Rattle.hg_root.specs.Lawful.{IsLawful};
ghost use Rattle.hg_root.specs.Roots.{IsWhole, parts_of};
ghost use Rattle.hg_checkpoint.specs.Restoring.{AreLimits, FitsLimits, detector_of, detector_with};
ghost use Rattle.hg_checkpoint.specs.NamedPages.{entries_of};

use crate::limits::Limits;
use hg_cells::words::Words;
use hg_detect::detector::Detector;
use hg_detect::parts::DetectorParts;
use hg_disk::Disk;
use hg_graph::Graph;
use hg_pages::{SlotFile, Table};
use hg_pool::Pool;
use hg_root::Root;
use hg_sets::MOST_SETS;
use std::alloc::Global;

// The detector of a root, over a pool with no page in memory, with room for this many sets. Without memory the pool is
// handed back.
fn with_parts<D: Disk>(
    alloc: Global,
    root: Root,
    pool: Pool<D>,
    most_sets: u32,
) -> Result<Detector<Pool<D>>, Pool<D>>
    requires lawful { IsLawful (parts_of root) }
    requires whole { IsWhole root }
    requires within { length root.sets.sets ≤ most_sets }
    requires greatest { most_sets ≤ MOST_SETS }
    requires frames { pool.frames ≡ [] }
    ensures shown { IfOk result (λ d. d ≡ detector_with root most_sets pool) }
    ensures lawful { IfOk result (AtPresent ⟦<Pool<D> as Words>⟧.may_bring) }
    ensures handed_back { IfErr result (λ p. p ≡ pool) }
{
    let Root {
        number: _,
        state,
        segments,
        sets,
        total,
        reports,
        sources,
        pages,
    } = root;
    drop(sources);
    drop(pages);
    let mut sets = sets;
    sets.set_limit(most_sets);
    match Graph::restore(alloc, segments) {
        Ok(graph) => {
            let parts = DetectorParts {
                state,
                graph,
                sets,
                kept: reports,
                total,
            };
            Detector::restore(alloc, parts, pool)
        }
        Err(_) => Err(pool),
    }
}

/// The detector of a root, over the pool of a table of its pages. Without memory the file is handed back.
pub(crate) fn over_pool<D: Disk>(
    alloc: Global,
    root: Root,
    table: Table,
    file: SlotFile<D>,
    caps: Limits,
) -> Result<Detector<Pool<D>>, SlotFile<D>>
    requires lawful { IsLawful (parts_of root) }
    requires whole { IsWhole root }
    requires caps { AreLimits caps }
    requires fits { FitsLimits (parts_of root) caps }
    requires table { table.entries ≡ entries_of root.pages.items }
    ensures shown { IfOk result (λ d. d ≡ detector_of root caps file) }
    ensures lawful { IfOk result (AtPresent ⟦<Pool<D> as Words>⟧.may_bring) }
    ensures handed_back { IfErr result (λ f. f ≡ file) }
{
    let pool = Pool::new(alloc, file, table, caps.frames, caps.slots)?;
    match with_parts(alloc, root, pool, caps.sets) {
        Ok(detector) => Ok(detector),
        Err(pool) => Err(pool.into_disks()),
    }
}
