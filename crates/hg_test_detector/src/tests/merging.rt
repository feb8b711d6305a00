//! The reports of parts, merged and compared with those of the whole.

ghost use Rattle.std.specs.Prelude.{map, IfOk, IsTrue};
ghost use Rattle.std.specs.List.{AllByRecursion};
ghost use Rattle.hg_shards.specs.Merging.{IsBefore, Rises};

use crate::tests::own::Own;
use hg_detect::memory::MemoryDetector;
use hg_model::report::Report;
use hg_shards::merge::{Merge, Place};
use hg_shards::shard::Shard;
use std::alloc::{AllocError, Global};
use std::process::Abort;

/// Whether a report stands before all of these.
fn is_before_all(first: &Report, others: &[Report]) -> bool
    ensures { IsTrue result → AllByRecursion (IsBefore first.now) others.now }
{
    match others.split_first() {
        None => true,
        Some((other, rest)) => {
            Place::of(first).comes_before(Place::of(other)) && is_before_all(first, rest)
        }
    }
}

/// Whether each report stands before all that follow.
fn do_rise(reports: &[Report]) -> bool
    ensures { IsTrue result → Rises reports.now }
{
    match reports.split_first() {
        None => true,
        Some((first, rest)) => is_before_all(first, rest) && do_rise(rest),
    }
}

/// The reports of each shard, which have to rise.
fn lists_of(
    rt: &impl Abort,
    alloc: Global,
    shards: &[Shard],
) -> Result<Own<Vec<Vec<Report>>>, AllocError>
    ensures { IfOk result (λ lists. AllByRecursion Rises (map (λ list. list.items) lists.it.items)) }
{
    let mut lists = Vec::new(alloc);
    for shard in shards {
        let reports = shard.detector().reports(alloc)?;
        assert!(rt; do_rise(&reports));
        lists.push(reports)?;
    }
    Ok(Own { it: lists })
}

/// Whether two reports are one.
pub fn is(found: &Report, wanted: &Report) -> bool {
    let of = (found.event, found.write, found.thread, found.word);
    of == (wanted.event, wanted.write, wanted.thread, wanted.word)
        && found.threads.as_slice() == wanted.threads.as_slice()
}

/// Whether the merged lists are these reports.
fn compare_all(
    rt: &impl Abort,
    alloc: Global,
    lists: &[Vec<Report>],
    wanted: &[Report],
) -> Result<(), AllocError>
    requires { AllByRecursion Rises (map (λ list. list.items) lists.now) }
{
    let mut merge = Merge::new(alloc, lists)?;
    for report in wanted {
        match merge.next() {
            None => assert!(rt; false, "a report is missing"),
            Some(found) => assert!(rt; is(found, report), "event {}", report.event),
        }
    }
    assert!(rt; merge.next().is_none(), "there is a report too many");
    Ok(())
}

/// Whether the reports of the shards, merged, are those of one detector of the whole trace, and their totals add up to its total.
pub fn compare_merged(
    rt: &impl Abort,
    alloc: Global,
    whole: &MemoryDetector,
    shards: &[Shard],
) -> Result<(), AllocError> {
    let mut total = 0u64;
    for shard in shards {
        total = total.wrapping_add(shard.detector().total());
    }
    assert!(rt; total == whole.total());
    let lists = lists_of(rt, alloc, shards)?;
    let wanted = Own {
        it: whole.reports(alloc)?,
    };
    compare_all(rt, alloc, &lists.it, &wanted.it)
}
