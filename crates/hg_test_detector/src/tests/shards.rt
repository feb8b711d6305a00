//! A trace judged by the shards of its parts, and by one detector.

ghost use Rattle.std.specs.Prelude.{◌≤◌, All, IfOk};
ghost use Rattle.hg_detect.specs.Memory.{IsWhole};
ghost use Rattle.hg_shards.specs.Sharding.{IsReady};

use crate::tests::dice::{Dice, event};
use crate::tests::merging::compare_merged;
use crate::tests::own::Own;
use hg_detect::detector::Answer;
use hg_detect::memory::{MemoryDetector, new_detector};
use hg_model::event::{Access, Event, Named};
use hg_model::verdict::Refusal;
use hg_sets::MOST_SETS;
use hg_shards::full::first_full;
use hg_shards::shard::Shard;
use hg_shards::shards::{Cause, Shards, Stop};
use std::alloc::{AllocError, Global};
use std::marker::Sync;
use std::process::Abort;
use std::test::Fail;
use std::thread::Threads;

/// An offered event, and what has to be answered.
#[derive(Clone, Copy)]
pub(crate) struct Judged {
    named: Named,
    answer: Result<Answer, Refusal>,
}

/// Shards that were offered events, and the first event of the trace at which the table of one was full.
struct Parts {
    shards: Vec<Shard>,
    stopped: Option<u64>,
}

impl Drop for Parts {
    fn drop(self) {
        let Parts { shards, stopped: _ } = self;
        drop(shards);
    }
}

/// The earlier of two events, of which either may be missing.
fn earlier(one: Option<u64>, other: Option<u64>) -> Option<u64> {
    match (one, other) {
        (Some(a), Some(b)) => Some(a.min(b)),
        (Some(a), None) => Some(a),
        (None, _) => other,
    }
}

/// One detector of a whole trace.
pub(crate) fn new_whole(alloc: Global, most_sets: u32) -> Result<Own<MemoryDetector>, Refusal>
    requires least { 1 ≤ most_sets }
    requires greatest { most_sets ≤ MOST_SETS }
    ensures { IfOk result (λ made. IsWhole made.it) }
{
    Ok(Own {
        it: new_detector(alloc, most_sets)?,
    })
}

/// An event under a name: mostly the next one of its source, else one that was sent, or one too many.
fn name(dice: &mut Dice, whole: &MemoryDetector) -> Named {
    let source = dice.roll(2) as u16;
    let step = if dice.roll(16) == 0 { dice.roll(3) } else { 1 };
    Named {
        source,
        number: whole.last(source).wrapping_add(step),
        event: event(dice),
    }
}

/// Offers events that look random to one detector. The answer has all of them, and what it answered.
pub(crate) fn judge_whole(
    alloc: Global,
    seed: u64,
    whole: &mut MemoryDetector,
) -> Result<Vec<Judged>, AllocError>
    requires { IsWhole whole.old }
{
    let mut dice = Dice(seed);
    let mut events = Vec::new(alloc);
    for _ in 0..500 {
        let named = name(&mut dice, whole);
        let answer = whole.apply(&named);
        events.push(Judged { named, answer })?;
    }
    Ok(events)
}

/// Offers events to a shard, which has to answer so, until its table is full. The answer is the number of the event that it refused
/// then.
fn offer_part(rt: &impl Abort, shard: &mut Shard, events: &[Judged]) -> Option<u64>
    requires { IsReady shard.old }
    ensures { IsReady shard.new }
{
    for judged in events {
        let answer = shard.offer(&judged.named);
        if answer == Err(Refusal::FullSets) {
            return Some(shard.detector().state().events().wrapping_add(1));
        }
        assert!(rt; answer == judged.answer, "{:?}", judged.named);
    }
    None
}

/// Offers events to a shard for each of `count` parts.
fn judge_parts(
    rt: &impl Abort,
    alloc: Global,
    count: u64,
    most_sets: u32,
    events: &[Judged],
) -> Result<Parts, Refusal>
    requires least { 1 ≤ most_sets }
    requires greatest { most_sets ≤ MOST_SETS }
    ensures { IfOk result (λ parts. All IsReady parts.shards.items) }
{
    let mut shards = Vec::new(alloc);
    let mut stopped = None;
    for part in 0..count {
        let mut shard = Shard::new(alloc, count, part, most_sets)?;
        stopped = earlier(stopped, offer_part(rt, &mut shard, events));
        shards.push(shard)?;
    }
    Ok(Parts { shards, stopped })
}

/// The number of the event that one detector with room for so many sets refuses since its table is full, if it refuses one.
fn refused_by_one(
    rt: &impl Abort,
    alloc: Global,
    most_sets: u32,
    events: &[Judged],
) -> Result<Option<u64>, Refusal>
    requires least { 1 ≤ most_sets }
    requires greatest { most_sets ≤ MOST_SETS }
{
    let mut whole = new_whole(alloc, most_sets)?;
    for judged in events {
        let answer = whole.it.apply(&judged.named);
        if answer == Err(Refusal::FullSets) {
            return Ok(Some(whole.it.state().events().wrapping_add(1)));
        }
        assert!(rt; answer == judged.answer, "{:?}", judged.named);
    }
    Ok(None)
}

/// Whether shards whose tables have room for no more sets than this come to the event that one detector refuses. Where a shard ended at
/// its own full table, what is found counts up to that event.
fn try_full_shards(
    rt: &impl Abort,
    alloc: Global,
    count: u64,
    limit: u32,
    events: &[Judged],
    wanted: Option<u64>,
) -> Result<(), Refusal>
    requires least { 1 ≤ limit }
    requires greatest { limit ≤ MOST_SETS }
{
    let parts = judge_parts(rt, alloc, count, limit, events)?;
    let found = first_full(alloc, limit, &parts.shards)?;
    assert!(rt;
        earlier(found, parts.stopped) == wanted,
        "{count} shards, {limit} sets"
    );
    if parts.stopped != wanted {
        assert!(rt; found == wanted, "{count} shards, {limit} sets");
    }
    Ok(())
}

/// Whether shards that know the whole trace come to the event that one detector refuses, whose table has room for so many sets.
fn try_limit(
    rt: &impl Abort,
    alloc: Global,
    limit: u32,
    events: &[Judged],
    shards: &[Shard],
) -> Result<bool, Refusal>
    requires { All IsReady shards.now }
{
    assert!(rt; 1 <= limit && limit <= MOST_SETS);
    let wanted = refused_by_one(rt, alloc, limit, events)?;
    let found = first_full(alloc, limit, shards)?;
    assert!(rt; found == wanted, "{} shards, {limit} sets", shards.len());
    try_full_shards(rt, alloc, shards.len() as u64, limit, events, wanted)?;
    Ok(wanted.is_some())
}

/// Judges a trace that looks random as a whole and by `count` shards, which have to answer the same. The reports of the shards, merged,
/// are those of the whole.
fn judge_both_ways(rt: &impl Abort, alloc: Global, seed: u64, count: u64) -> Result<(), Refusal> {
    let mut whole = new_whole(alloc, MOST_SETS)?;
    let events = judge_whole(alloc, seed, &mut whole.it)?;
    assert!(rt; whole.it.state().events() > 100 && whole.it.total() > 5);
    let parts = judge_parts(rt, alloc, count, MOST_SETS, &events)?;
    assert!(rt; parts.stopped.is_none());
    compare_merged(rt, alloc, &whole.it, &parts.shards)?;
    Ok(())
}

// A test, since no program judges a trace by shards. What is expected is what one detector of the whole trace answers.
#[test]
fn shards_answer_as_one_detector(rt: HostRuntime) -> Result<(), Fail> {
    for seed in 1..=3 {
        for count in 1..=5 {
            judge_both_ways(&rt, rt.alloc(), seed, count)?;
        }
    }
    Ok(())
}

/// Judges a trace that looks random by `count` shards, and asks them for the event that is refused where a table has room for all sets of
/// the trace, for one less, and for fewer.
fn fill_tables(rt: &impl Abort, alloc: Global, seed: u64, count: u64) -> Result<(), Refusal> {
    let mut whole = new_whole(alloc, MOST_SETS)?;
    let events = judge_whole(alloc, seed, &mut whole.it)?;
    let sets = whole.it.sets().len();
    assert!(rt; 10 < sets);
    let parts = judge_parts(rt, alloc, count, MOST_SETS, &events)?;
    for limit in [1, sets / 3, sets / 2, sets - 1, sets] {
        let refuses = try_limit(rt, alloc, limit, &events, &parts.shards)?;
        assert!(rt; refuses == (limit < sets), "{limit} of {sets} sets");
    }
    Ok(())
}

// A test, since no program asks shards which event a full table refuses. What is expected is what one detector with that table refuses.
#[test]
fn shards_tell_which_event_a_full_table_refuses(rt: HostRuntime) -> Result<(), Fail> {
    for count in 1..=4 {
        fill_tables(&rt, rt.alloc(), count, count)?;
    }
    Ok(())
}

/// The events that were accepted.
pub(crate) fn accepted_of(alloc: Global, events: &[Judged]) -> Result<Vec<Judged>, AllocError> {
    let mut accepted = Vec::new(alloc);
    for judged in events {
        if judged.answer == Ok(Answer::Accepted) {
            accepted.push(*judged)?;
        }
    }
    Ok(accepted)
}

/// The events without their answers.
pub(crate) fn named_of(alloc: Global, events: &[Judged]) -> Result<Vec<Named>, AllocError> {
    let mut named = Vec::new(alloc);
    for judged in events {
        named.push(judged.named)?;
    }
    Ok(named)
}

/// Where a batch has to stop whose events are answered so.
fn stop_of(batch: &[Judged]) -> Option<Stop> {
    for place in 0..batch.len() {
        let cause = match batch[place].answer {
            Ok(Answer::Accepted) => continue,
            Ok(Answer::Duplicate(last)) => Cause::Duplicate(last),
            Err(refusal) => Cause::Refused(refusal),
        };
        return Some(Stop { place, cause });
    }
    None
}

/// Offers events to all shards by batches of at most 40. A batch ends behind an event that is not accepted.
fn offer_by_batches<R: Threads + Sync + Abort>(
    rt: &R,
    shards: &mut Shards,
    named: &[Named],
    events: &[Judged],
) {
    assert!(rt; named.len() == events.len());
    let mut done = 0;
    for place in 0..named.len() {
        if place < done {
            continue;
        }
        let end = place.saturating_add(40).min(named.len());
        let stop = shards.offer_all(rt, &named[place..end]);
        assert!(rt; stop == stop_of(&events[place..end]), "{place}: {stop:?}");
        done = match stop {
            None => end,
            Some(stop) => place.saturating_add(stop.place).saturating_add(1),
        };
    }
}

/// Judges a trace that looks random as a whole, and by batches that are offered to `count` shards side by side.
fn judge_by_batches<R: Threads + Sync + Abort>(
    rt: &R,
    alloc: Global,
    seed: u64,
    count: u64,
) -> Result<(), Refusal> {
    let mut whole = new_whole(alloc, MOST_SETS)?;
    let events = judge_whole(alloc, seed, &mut whole.it)?;
    let named = named_of(alloc, &events)?;
    let mut shards = Own {
        it: Shards::new(alloc, count, MOST_SETS)?,
    };
    offer_by_batches(rt, &mut shards.it, &named, &events);
    compare_merged(rt, alloc, &whole.it, shards.it.as_slice())?;
    Ok(())
}

/// Offers accepted events as one batch to shards whose tables have room for `limit` sets, and to one such shard after another. The batch
/// has to stop where the first of those stops.
fn fill_side_by_side<R: Threads + Sync + Abort>(
    rt: &R,
    alloc: Global,
    count: u64,
    limit: u32,
    events: &[Judged],
) -> Result<(), Refusal>
    requires least { 1 ≤ limit }
    requires greatest { limit ≤ MOST_SETS }
{
    let parts = judge_parts(rt, alloc, count, limit, events)?;
    let named = named_of(alloc, events)?;
    let mut shards = Own {
        it: Shards::new(alloc, count, limit)?,
    };
    let stopped = match shards.it.offer_all(rt, &named) {
        None => None,
        Some(stop) => {
            assert!(rt; stop.cause == Cause::Refused(Refusal::FullSets));
            Some((stop.place as u64).wrapping_add(1))
        }
    };
    assert!(rt; stopped == parts.stopped, "{limit} sets: {stopped:?}");
    let found = shards.it.first_full(alloc, limit)?;
    assert!(rt; found == first_full(alloc, limit, &parts.shards)?);
    Ok(())
}

/// Fills the tables of shards by a trace that looks random, in three sizes.
fn fill_by_batches<R: Threads + Sync + Abort>(
    rt: &R,
    alloc: Global,
    count: u64,
) -> Result<(), Refusal> {
    let mut whole = new_whole(alloc, MOST_SETS)?;
    let judged = judge_whole(alloc, count, &mut whole.it)?;
    let events = accepted_of(alloc, &judged)?;
    for limit in [1, 5, MOST_SETS] {
        fill_side_by_side(rt, alloc, count, limit, &events)?;
    }
    Ok(())
}

// A test, since no program offers batches to shards. What is expected is what one detector answers, and what shards come to that are
// offered the events one by one.
#[test]
fn shards_take_batches_side_by_side(rt: HostRuntime) -> Result<(), Fail> {
    for count in 1..=5 {
        judge_by_batches(&rt, rt.alloc(), count, count)?;
        fill_by_batches(&rt, rt.alloc(), count)?;
    }
    Ok(())
}

/// Thread 0 starts thread 1 and writes to a word of part 0 and to one of part 1, of two parts. Thread 1 reads both, the first under lock
/// 7, the second under 7 and 8. So part 0 asks for the sets {0, 1} and {7} at event 5, and part 1 for {0, 1} and {7, 8} at event 7.
pub(crate) const BOTH_READ: [Event; 7] = [
    Event::Fork { p: 0, c: 1 },
    Event::Write(Access {
        t: 0,
        at: 0,
        len: 4,
    }),
    Event::Write(Access {
        t: 0,
        at: 0x800,
        len: 4,
    }),
    Event::Lock { t: 1, l: 7 },
    Event::Read(Access {
        t: 1,
        at: 0,
        len: 4,
    }),
    Event::Lock { t: 1, l: 8 },
    Event::Read(Access {
        t: 1,
        at: 0x800,
        len: 4,
    }),
];

/// How many sets there may be, and the event that is refused: with the empty set there are three after event 5 and four after event 7.
/// The tables of both parts have six.
pub(crate) const REFUSED: [(u32, Option<u64>); 6] = [
    (1, Some(5)),
    (2, Some(5)),
    (3, Some(7)),
    (4, None),
    (5, None),
    (6, None),
];

/// An event of the one source.
fn nth(number: u64, event: Event) -> Named {
    Named {
        source: 0,
        number,
        event,
    }
}

/// The events, each of which has to be accepted, numbered from 1.
pub(crate) fn numbered(alloc: Global, events: &[Event]) -> Result<Vec<Judged>, AllocError> {
    let mut judged = Vec::new(alloc);
    for (k, event) in events.iter().enumerate() {
        judged.push(Judged {
            named: nth(k as u64 + 1, *event),
            answer: Ok(Answer::Accepted),
        })?;
    }
    Ok(judged)
}

// A test, since no program asks shards which event a full table refuses. The numbers are worked by hand.
#[test]
fn a_worked_trace_fills_its_tables(rt: HostRuntime) -> Result<(), Fail> {
    let events = numbered(rt.alloc(), &BOTH_READ)?;
    let parts = judge_parts(&rt, rt.alloc(), 2, MOST_SETS, &events)?;
    for shard in &parts.shards {
        assert!(rt; shard.log().len() == 3);
    }
    for (limit, wanted) in REFUSED {
        let found = first_full(rt.alloc(), limit, &parts.shards)?;
        assert!(rt; found == wanted, "{limit} sets: {found:?}");
        try_full_shards(&rt, rt.alloc(), 2, limit, &events, wanted)?;
    }
    Ok(())
}

/// What is answered where a thread writes bytes from 0x800 on, words of part 1 of two: the number, the thread, the length, the answer.
/// The shard of part 0 counts what is accepted, and so knows it for one that was sent.
const PASSED: [(u64, u16, u8, Result<Answer, Refusal>); 7] = [
    (2, 0, 4, Err(Refusal::Gap(1))),
    (1, 1, 4, Err(Refusal::NoThread)),
    (1, 0, 65, Err(Refusal::BadLength)),
    (1, 0, 4, Ok(Answer::Accepted)),
    (1, 0, 4, Ok(Answer::Duplicate(1))),
    (3, 0, 4, Err(Refusal::Gap(2))),
    (2, 0, 4, Ok(Answer::Accepted)),
];

// A test, since no program judges a part: an access to other words is counted.
#[test]
fn an_access_to_other_words_is_counted(rt: HostRuntime) -> Result<(), Fail> {
    let mut shard = Own {
        it: Shard::new(rt.alloc(), 2, 0, MOST_SETS)?,
    };
    for (number, t, len, wanted) in PASSED {
        let write = Event::Write(Access { t, at: 0x800, len });
        let answer = shard.it.offer(&nth(number, write));
        assert!(rt; answer == wanted, "{number} {t} {len}: {answer:?}");
    }
    assert!(rt; shard.it.detector().last(0) == 2);
    assert!(rt; shard.it.detector().state().events() == 2);
    Ok(())
}

/// The word at 0x800, four bytes.
fn word(t: u16) -> Access {
    Access {
        t,
        at: 0x800,
        len: 4,
    }
}

/// Passes over an access of a thread to that word.
fn pass(
    rt: &impl Abort,
    detector: &mut MemoryDetector,
    number: u64,
    t: u16,
    wanted: Result<Answer, Refusal>,
)
    requires { IsWhole detector.old }
    ensures { IsWhole detector.new }
{
    assert!(rt; detector.pass(0, number, word(t)) == wanted, "{number} {t}");
}

/// Offers an event that has to be accepted.
fn accept(rt: &impl Abort, detector: &mut MemoryDetector, number: u64, event: Event)
    requires { IsWhole detector.old }
    ensures { IsWhole detector.new }
{
    assert!(rt;
        detector.apply(&nth(number, event)) == Ok(Answer::Accepted),
        "{event:?}"
    );
}

// A test, since no program calls `pass`: the thread that writes to the word next is the first to touch it here.
#[test]
fn a_passed_access_touches_no_word(rt: HostRuntime) -> Result<(), Fail> {
    let mut whole = new_whole(rt.alloc(), MOST_SETS)?;
    accept(&rt, &mut whole.it, 1, Event::Fork { p: 0, c: 1 });
    pass(&rt, &mut whole.it, 2, 0, Ok(Answer::Accepted));
    pass(&rt, &mut whole.it, 2, 0, Ok(Answer::Duplicate(2)));
    pass(&rt, &mut whole.it, 3, 2, Err(Refusal::NoThread));
    accept(&rt, &mut whole.it, 3, Event::Write(word(1)));
    assert!(rt; whole.it.last(0) == 3);
    assert!(rt; whole.it.total() == 0);
    Ok(())
}
