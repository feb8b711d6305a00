//! A trace offered by batches to a judge of all parts, and event by event to one detector.

ghost use Rattle.std.specs.Prelude.{◌≤◌};
ghost use Rattle.hg_detect.specs.Memory.{IsWhole};

use crate::tests::merging::is;
use crate::tests::own::Own;
use crate::tests::shards::{
    BOTH_READ, REFUSED, accepted_of, judge_whole, named_of, new_whole, numbered,
};
use hg_detect::detector::Answer;
use hg_detect::memory::MemoryDetector;
use hg_model::event::Named;
use hg_model::verdict::Refusal;
use hg_sets::MOST_SETS;
use hg_shards::cursor::Cursor;
use hg_shards::judge::Judge;
use hg_shards::shards::{Cause, Stop};
use std::alloc::{AllocError, Global};
use std::marker::Sync;
use std::process::Abort;
use std::test::Fail;
use std::thread::Threads;

/// A judge of `count` parts.
fn new_judge(alloc: Global, count: u64, most_sets: u32) -> Result<Own<Judge>, Refusal>
    requires some { 1 ≤ count }
    requires least { 1 ≤ most_sets }
    requires greatest { most_sets ≤ MOST_SETS }
{
    Ok(Own {
        it: Judge::new(alloc, count, most_sets)?,
    })
}

/// Offers an event to one detector, and answers why it was not accepted, or None where it was.
fn cause_of_one(whole: &mut MemoryDetector, named: &Named) -> Option<Cause>
    requires { IsWhole whole.old }
    ensures { IsWhole whole.new }
{
    match whole.apply(named) {
        Ok(Answer::Accepted) => None,
        Ok(Answer::Duplicate(last)) => Some(Cause::Duplicate(last)),
        Err(refusal) => Some(Cause::Refused(refusal)),
    }
}

/// Where one detector stops in a batch.
pub(crate) fn stop_of_one(whole: &mut MemoryDetector, batch: &[Named]) -> Option<Stop>
    requires { IsWhole whole.old }
    ensures { IsWhole whole.new }
{
    for place in 0..batch.len() {
        if let Some(cause) = cause_of_one(whole, &batch[place]) {
            return Some(Stop { place, cause });
        }
    }
    None
}

/// Reads the reports of a judge on: they have to be those that one detector keeps from an index on.
pub(crate) fn compare_reports(
    rt: &impl Abort,
    alloc: Global,
    judge: &Judge,
    cursor: &mut Cursor,
    whole: &MemoryDetector,
    from: usize,
) -> Result<usize, AllocError> {
    for index in from..whole.kept() {
        let wanted = whole.report(alloc, index)?;
        match judge.next_report(alloc, cursor)? {
            None => assert!(rt; false, "report {index} is missing"),
            Some(found) => assert!(rt; is(&found, &wanted), "report {index}"),
        }
    }
    let last = judge.next_report(alloc, cursor)?;
    assert!(rt; last.is_none(), "there is a report too many");
    Ok(whole.kept())
}

/// Offers events by batches of this size to a judge and to one detector, up to the first that is not accepted, and answers whether there
/// is one.
fn judge_both_ways<R: Threads + Sync + Abort>(
    rt: &R,
    alloc: Global,
    count: u64,
    most_sets: u32,
    size: usize,
    events: &[Named],
) -> Result<bool, Refusal>
    requires some { 1 ≤ count }
    requires least { 1 ≤ most_sets }
    requires greatest { most_sets ≤ MOST_SETS }
{
    let mut whole = new_whole(alloc, most_sets)?;
    let mut judge = new_judge(alloc, count, most_sets)?;
    let mut cursor = judge.it.cursor(alloc)?;
    let mut read = 0;
    let mut done = 0;
    for place in 0..events.len() {
        if place < done {
            continue;
        }
        let end = place.saturating_add(size).min(events.len());
        let wanted = stop_of_one(&mut whole.it, &events[place..end]);
        let stop = judge.it.offer_all(alloc, rt, &events[place..end])?;
        assert!(rt;
            stop == wanted,
            "{count} parts, {most_sets} sets, from {place} by {size}: {stop:?}"
        );
        assert!(rt; judge.it.events() == whole.it.state().events());
        read = compare_reports(rt, alloc, &judge.it, &mut cursor, &whole.it, read)?;
        if stop.is_some() {
            return Ok(true);
        }
        done = end;
    }
    Ok(false)
}

/// The events, and behind the one at this place the same event under a number that is so much greater.
fn with_repeated(
    alloc: Global,
    events: &[Named],
    place: usize,
    more: u64,
) -> Result<Vec<Named>, AllocError> {
    let mut repeated = Vec::new(alloc);
    for (k, named) in events.iter().enumerate() {
        repeated.push(*named)?;
        if k == place {
            repeated.push(Named {
                source: named.source,
                number: named.number.wrapping_add(more),
                event: named.event,
            })?;
        }
    }
    Ok(repeated)
}

/// Judges a trace that looks random with room for all its sets, and for one less.
fn fill_tables<R: Threads + Sync + Abort>(rt: &R, alloc: Global, count: u64) -> Result<(), Refusal>
    requires { 1 ≤ count }
{
    let mut whole = new_whole(alloc, MOST_SETS)?;
    let judged = judge_whole(alloc, count, &mut whole.it)?;
    let sets = whole.it.sets().len();
    assert!(rt; 10 < sets && sets <= MOST_SETS);
    let events = named_of(alloc, &accepted_of(alloc, &judged)?)?;
    for limit in [sets - 1, sets] {
        let stops = judge_both_ways(rt, alloc, count, limit, 50, &events)?;
        assert!(rt; stops == (limit < sets), "{limit} of {sets} sets");
    }
    Ok(())
}

/// Judges a trace that looks random, in which an event is sent again, or too early.
fn refuse_one<R: Threads + Sync + Abort>(rt: &R, alloc: Global, count: u64) -> Result<(), Refusal>
    requires { 1 ≤ count }
{
    let mut whole = new_whole(alloc, MOST_SETS)?;
    let judged = judge_whole(alloc, count, &mut whole.it)?;
    let events = named_of(alloc, &accepted_of(alloc, &judged)?)?;
    for (most_sets, more) in [(5, 0), (MOST_SETS, 0), (MOST_SETS, 5)] {
        let repeated = with_repeated(alloc, &events, 20, more)?;
        assert!(rt; judge_both_ways(rt, alloc, count, most_sets, 50, &repeated)?);
    }
    Ok(())
}

// A test, since no program judges a trace by parts. What is expected is what one detector answers.
#[test]
fn a_judge_answers_as_one_detector(rt: HostRuntime) -> Result<(), Fail> {
    fill_tables(&rt, rt.alloc(), 2)?;
    refuse_one(&rt, rt.alloc(), 3)?;
    Ok(())
}

/// The stop at an event of a trace whose one table is full there.
fn full_at(event: u64) -> Stop {
    Stop {
        place: event.saturating_sub(1) as usize,
        cause: Cause::Refused(Refusal::FullSets),
    }
}

// A test, since no program judges a trace by parts. The events are worked by hand: with three sets neither part is full.
#[test]
fn a_judge_tells_where_the_one_table_is_full(rt: HostRuntime) -> Result<(), Fail> {
    let events = named_of(rt.alloc(), &numbered(rt.alloc(), &BOTH_READ)?)?;
    for (limit, event) in REFUSED {
        let mut judge = new_judge(rt.alloc(), 2, limit)?;
        let stop = judge.it.offer_all(rt.alloc(), &rt, &events)?;
        let wanted = match event {
            None => None,
            Some(number) => Some(full_at(number)),
        };
        assert!(rt; stop == wanted, "{limit} sets: {stop:?}");
    }
    Ok(())
}
