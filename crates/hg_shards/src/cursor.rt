//! How far the reports of all parts were read, in the order of the whole trace.

ghost use Rattle.std.specs.Prelude.{◌≡◌, [], length, slice_get, IfOk, IfErr};
ghost use Rattle.hg_detect.specs.Shown.{reports_of};
ghost use Rattle.hg_shards.specs.Reading.{HasRead, IsNextPart, place_upto};
ghost use Rattle.hg_shards.specs.Judging.{ReadsFrom, TellsRaces};

use crate::merge::{Place, wins};
use crate::shard::Shard;
use hg_model::limits::MOST_REPORTS;
use hg_model::report::Report;
use std::alloc::{AllocError, Global};

/// How many reports of each part were read, and how many in all.
#[derive(Drop)]
pub struct Cursor {
    given: Vec<usize>,
    count: usize,
}

/// A cursor that has read no report, of so many parts.
pub(crate) fn new_cursor(alloc: Global, parts: usize) -> Result<Cursor, AllocError>
    ensures { IfOk result (HasRead parts []) }
{
    Ok(Cursor {
        given: vec![in alloc; 0; parts]?,
        count: 0,
    })
}

/// Where the report of a shard with this index stands, if it keeps one whose event is no later than the last.
fn place_at(shard: &Shard, index: usize, last: u64) -> Option<Place>
    ensures { result ≡ place_upto last (slice_get (reports_of shard.now.detector) index) }
{
    let kept = shard.detector().kept_reports();
    if index >= kept.len() {
        return None;
    }
    let report = kept[index];
    if report.event > last {
        return None;
    }
    Some(Place {
        event: report.event,
        word: report.word,
    })
}

/// Whether a shard keeps a report up to the last event.
pub(crate) fn has_reports(shards: &[Shard], last: u64) -> bool
    ensures { TellsRaces shards.now last result }
{
    for k in 0..shards.len() {
        if place_at(&shards[k], 0, last).is_some() {
            return true;
        }
    }
    false
}

/// The shard whose report comes next up to the last event, where so many of each were read, or None where all were.
fn next_part(shards: &[Shard], given: &[usize], last: u64) -> Option<usize>
    requires { length given.now ≡ length shards.now }
    ensures { IsNextPart last shards.now given.now result }
{
    let mut best = 0;
    let mut place = None;
    for k in 0..shards.len() {
        let head = place_at(&shards[k], given[k], last);
        if wins(head, place) {
            best = k;
            place = head;
        }
    }
    if place.is_some() {
        return Some(best);
    }
    None
}

/// Reads the next report of all shards up to the last event, or None where all were read.
pub(crate) fn read_next(
    alloc: Global,
    shards: &[Shard],
    last: u64,
    cursor: &mut Cursor,
) -> Result<Option<Report>, AllocError>
    ensures reads { IfOk result (λ found. ReadsFrom shards.now last cursor.old found cursor.new) }
    ensures stays { IfErr result (λ e. cursor.new ≡ cursor.old) }
{
    if cursor.given.len() != shards.len() || cursor.count >= MOST_REPORTS {
        return Ok(None);
    }
    let Some(part) = next_part(shards, &cursor.given, last) else {
        return Ok(None);
    };
    let index = cursor.given[part];
    let detector = shards[part].detector();
    let kept = detector.kept();
    prove!(index < kept);
    let report = detector.report(alloc, index)?;
    cursor.given[part] = index + 1;
    cursor.count += 1;
    Ok(Some(report))
}
