//! A trace offered by batches in lists to a judge of all parts, and event by event to one detector.

ghost use Rattle.std.specs.Prelude.{◌≡◌, ◌≤◌, IfOk};
ghost use Rattle.hg_detect.specs.Memory.{IsWhole};
ghost use Rattle.hg_shards.specs.Judging.{parts_of};
ghost use Rattle.hg_shards.specs.Pushing.{parts_in};

use crate::tests::dice::{Dice, event};
use crate::tests::judges::{compare_reports, stop_of_one};
use crate::tests::own::Own;
use crate::tests::shards::new_whole;
use hg_detect::detector::Answer;
use hg_detect::memory::MemoryDetector;
use hg_model::event::{Access, Event, Named};
use hg_model::verdict::Refusal;
use hg_sets::MOST_SETS;
use hg_shards::judge::Judge;
use hg_shards::routes::Routes;
use hg_shards::shards::{Cause, Stop};
use std::alloc::{AllocError, Global};
use std::marker::Sync;
use std::process::Abort;
use std::test::Fail;
use std::thread::Threads;

/// A judge of `parts` parts.
fn new_judge(alloc: Global, parts: usize, most_sets: u32) -> Result<Own<Judge>, Refusal>
    requires some { 1 ≤ parts }
    requires least { 1 ≤ most_sets }
    requires greatest { most_sets ≤ MOST_SETS }
    ensures { IfOk result (λ judge. parts_of judge.it ≡ parts) }
{
    Ok(Own {
        it: Judge::new(alloc, parts as u64, most_sets)?,
    })
}

/// Puts events into lists, up to one for which there is no room.
fn put_all(routes: &mut Routes, events: &[Named]) -> bool
    ensures { parts_in routes.new ≡ parts_in routes.old }
{
    for named in events {
        if !routes.push(&named.event) {
            return false;
        }
    }
    true
}

/// Offers events in lists, under the numbers that source 0 gives them from `first` on.
fn offer_in_lists<R: Threads + Sync + Abort>(
    rt: &R,
    alloc: Global,
    judge: &mut Judge,
    parts: usize,
    first: u64,
    events: &[Named],
) -> Result<Option<Stop>, Refusal>
    requires some { 1 ≤ parts }
    requires parts { parts_of judge.old ≡ parts }
    ensures { parts_of judge.new ≡ parts }
{
    let mut routes = Routes::new(alloc, parts, 64, 64)?;
    routes.push(&Event::Fork { p: 0, c: 9 });
    routes.clear();
    assert!(rt;
        put_all(&mut routes, events),
        "there is room for {} events",
        events.len()
    );
    judge.offer_routes(alloc, rt, 0, first, &routes)
}

/// Offers events by batches of this size to a judge, in lists, and to one detector, up to the first that is not accepted. The answer is
/// that stop.
fn judge_in_lists<R: Threads + Sync + Abort>(
    rt: &R,
    alloc: Global,
    parts: usize,
    most_sets: u32,
    size: usize,
    events: &[Named],
) -> Result<Option<Stop>, Refusal>
    requires some { 1 ≤ parts }
    requires least { 1 ≤ most_sets }
    requires greatest { most_sets ≤ MOST_SETS }
{
    let mut whole = new_whole(alloc, most_sets)?;
    let mut judge = new_judge(alloc, parts, most_sets)?;
    let mut cursor = judge.it.cursor(alloc)?;
    let mut read = 0;
    let mut done = 0;
    for place in 0..events.len() {
        if place < done {
            continue;
        }
        let end = place.saturating_add(size).min(events.len());
        let batch = &events[place..end];
        let first = events[place].number;
        let wanted = stop_of_one(&mut whole.it, batch);
        let stop = offer_in_lists(rt, alloc, &mut judge.it, parts, first, batch)?;
        assert!(rt;
            stop == wanted,
            "{parts} parts, {most_sets} sets, from {place}: {stop:?}"
        );
        assert!(rt; judge.it.events() == whole.it.state().events());
        read = compare_reports(rt, alloc, &judge.it, &mut cursor, &whole.it, read)?;
        if stop.is_some() {
            return Ok(stop);
        }
        assert!(rt; judge.it.segments() == whole.it.segments().len());
        assert!(rt; judge.it.total() == whole.it.total());
        done = end;
    }
    Ok(None)
}

/// Events that look random and are accepted one after another, under the numbers of source 0.
fn accepted_in_turn(
    alloc: Global,
    seed: u64,
    whole: &mut MemoryDetector,
) -> Result<Vec<Named>, AllocError>
    requires { IsWhole whole.old }
{
    let mut dice = Dice(seed);
    let mut events = Vec::new(alloc);
    for _ in 0..600 {
        let named = Named {
            source: 0,
            number: whole.last(0).wrapping_add(1),
            event: event(&mut dice),
        };
        if whole.apply(&named) == Ok(Answer::Accepted) {
            events.push(named)?;
        }
    }
    Ok(events)
}

/// The events, with another one in the place of one of them.
fn with_other(
    alloc: Global,
    events: &[Named],
    place: usize,
    other: Event,
) -> Result<Vec<Named>, AllocError> {
    let mut changed = Vec::new(alloc);
    for (k, named) in events.iter().enumerate() {
        changed.push(Named {
            source: named.source,
            number: named.number,
            event: if k == place { other } else { named.event },
        })?;
    }
    Ok(changed)
}

/// Accesses that are refused wherever they stand: without a byte, with a byte too many, past the last address, by no thread.
const REFUSED: [Event; 4] = [
    Event::Read(Access {
        t: 0,
        at: 0x800,
        len: 0,
    }),
    Event::Write(Access {
        t: 0,
        at: 0x7f0,
        len: 65,
    }),
    Event::Read(Access {
        t: 0,
        at: u64::MAX,
        len: 2,
    }),
    Event::Write(Access {
        t: 700,
        at: 0x800,
        len: 4,
    }),
];

/// Judges a trace that looks random in lists: with room for all its sets and for one less, and with an access that is refused.
fn try_lists<R: Threads + Sync + Abort>(
    rt: &R,
    alloc: Global,
    parts: usize,
    seed: u64,
) -> Result<(), Refusal>
    requires { 1 ≤ parts }
{
    let mut whole = new_whole(alloc, MOST_SETS)?;
    let events = accepted_in_turn(alloc, seed, &mut whole.it)?;
    let sets = whole.it.sets().len();
    assert!(rt; 5 < sets && sets <= MOST_SETS);
    assert!(rt; 60 < events.len() && whole.it.kept() > 0);
    assert!(rt; judge_in_lists(rt, alloc, parts, sets, 50, &events)?.is_none());
    assert!(rt; judge_in_lists(rt, alloc, parts, sets - 1, 50, &events)?.is_some());
    for other in REFUSED {
        let changed = with_other(alloc, &events, 57, other)?;
        let stop = judge_in_lists(rt, alloc, parts, MOST_SETS, 40, &changed)?;
        assert!(rt; stop.is_some(), "{other:?}");
    }
    Ok(())
}

// A test, since no program judges a trace by parts. What is expected is what one detector answers.
#[test]
fn a_judge_of_lists_answers_as_one_detector(rt: HostRuntime) -> Result<(), Fail> {
    try_lists(&rt, rt.alloc(), 2, 3)?;
    try_lists(&rt, rt.alloc(), 3, 4)?;
    Ok(())
}

/// A write of four bytes.
fn write_of(t: u16, at: u64, len: u8) -> Event {
    Event::Write(Access { t, at, len })
}

/// Events under the numbers that source 0 gives them from `first` on.
fn in_turn(alloc: Global, first: u64, events: &[Event]) -> Result<Vec<Named>, AllocError> {
    let mut named = Vec::new(alloc);
    let mut number = first;
    for event in events {
        named.push(Named {
            source: 0,
            number,
            event: *event,
        })?;
        number = number.wrapping_add(1);
    }
    Ok(named)
}

// A test, since no program judges a trace by parts. The events are worked by hand: of two parts, pages 0 and 1 are of part 0, and page
// 2, which begins at 0x800, is of part 1.
#[test]
fn a_judge_of_lists_reads_no_report_behind_a_stop(rt: HostRuntime) -> Result<(), Fail> {
    let alloc = rt.alloc();
    let mut judge = new_judge(alloc, 2, MOST_SETS)?;
    let mut cursor = judge.it.cursor(alloc)?;
    let both = [
        Event::Fork { p: 0, c: 1 },
        write_of(0, 0x7fc, 8),
        write_of(1, 0x7fc, 8),
        write_of(0, 0x10, 4),
        write_of(0, 0x14, 4),
    ];
    let events = in_turn(alloc, 1, &both)?;
    let stop = offer_in_lists(&rt, alloc, &mut judge.it, 2, 1, &events)?;
    assert!(&rt; stop.is_none());
    for word in [0x7fc, 0x800] {
        let found = judge.it.next_report(alloc, &mut cursor)?;
        assert!(&rt;
            found.is_some_and(|report| report.event == 3 && report.word == word),
            "{word}"
        );
    }
    assert!(&rt; judge.it.next_report(alloc, &mut cursor)?.is_none());
    let late = [
        write_of(1, 0x10, 4),
        write_of(9, 0x800, 4),
        write_of(1, 0x14, 4),
    ];
    let events = in_turn(alloc, 6, &late)?;
    let stop = offer_in_lists(&rt, alloc, &mut judge.it, 2, 6, &events)?;
    let wanted = Stop {
        place: 1,
        cause: Cause::Refused(Refusal::NoThread),
    };
    assert!(&rt; stop == Some(wanted), "{stop:?}");
    assert!(&rt; judge.it.events() == 6);
    let found = judge.it.next_report(alloc, &mut cursor)?;
    assert!(&rt; found.is_some_and(|report| report.event == 6 && report.word == 0x10));
    assert!(&rt; judge.it.next_report(alloc, &mut cursor)?.is_none());
    Ok(())
}

// A test of what no judge shows: without room an event is refused, and nothing changes.
#[test]
fn lists_without_room_stay(rt: HostRuntime) -> Result<(), Fail> {
    let mut routes = Routes::new(rt.alloc(), 2, 1, 1)?;
    assert!(&rt; routes.push(&write_of(0, 0x800, 4)));
    assert!(&rt; !routes.push(&write_of(0, 0x7fc, 8)));
    assert!(&rt; routes.lists()[0].is_empty() && routes.count() == 1);
    assert!(&rt; routes.push(&write_of(0, 0x7fc, 4)));
    assert!(&rt; routes.push(&write_of(0, 0x800, 0)));
    assert!(&rt; !routes.push(&Event::Fork { p: 0, c: 1 }));
    assert!(&rt; routes.common().len() == 1 && routes.count() == 3);
    Ok(())
}
