//! Verdicts at the limits, which no test reaches event by event, and parts that make no state.

use hg_model::event::{Access, Event, Named};
use hg_model::held::{HeldLock, HeldLocks};
use hg_model::limits::{MOST_EVENTS, SOURCE_NUMBERS};
use hg_model::thread::ThreadState;
use hg_model::verdict::{Refusal, Verdict};
use hg_rules::judging::judge;
use hg_rules::messages::MessageTable;
use hg_rules::state::TraceState;
use std::alloc::Global;
use std::process::Abort;
use std::test::Fail;

/// A living thread that holds no lock.
fn thread(number: u16) -> ThreadState {
    ThreadState {
        number,
        alive: true,
        held: HeldLocks::new(),
    }
}

/// A thread that holds lock 7.
fn holder(number: u16, alive: bool, write: bool) -> ThreadState {
    let mut held = HeldLocks::new();
    held.add(HeldLock { lock: 7, write });
    ThreadState {
        number,
        alive,
        held,
    }
}

/// The first event of a source that sent none yet.
fn first(event: Event) -> Named {
    Named {
        source: 0,
        number: 1,
        event,
    }
}

/// The state of these parts, where no source sent an event, and no thread a message.
fn restored(
    alloc: Global,
    events: u64,
    segments: u32,
    threads: &[ThreadState],
) -> Result<TraceState, Refusal> {
    let last = vec![in alloc; 0; SOURCE_NUMBERS]?;
    let messages = MessageTable::new(alloc);
    TraceState::restore(alloc, events, segments, threads, last, messages)
}

/// Whether this is the verdict on an event.
fn judges(rt: &impl Abort, state: &TraceState, named: &Named, verdict: Verdict) {
    assert!(rt; judge(state, named) == verdict, "{:?}", named.event);
}

// A test, since no trace has 2^58 events.
#[test]
fn no_event_more_than_the_limit(rt: HostRuntime) -> Result<(), Fail> {
    let read = first(Event::Read(Access {
        t: 0,
        at: 0x1000,
        len: 4,
    }));
    let threads = [thread(0)];
    let full = restored(rt.alloc(), MOST_EVENTS, 1, &threads)?;
    assert!(rt; full.events() == MOST_EVENTS);
    judges(&rt, &full, &read, Verdict::Refuse(Refusal::FullEvents));
    let room = restored(rt.alloc(), MOST_EVENTS - 1, 1, &threads)?;
    judges(&rt, &room, &read, Verdict::Accept);
    Ok(())
}

/// What is judged of events where the threads 1 and 5 have lock 7 in read mode.
const JUDGED: [(Event, Verdict); 6] = [
    (
        Event::Lock { t: 0, l: 7 },
        Verdict::Refuse(Refusal::LockBusy),
    ),
    (Event::RdLock { t: 0, l: 7 }, Verdict::Accept),
    (Event::Unlock { t: 5, l: 7 }, Verdict::Accept),
    (
        Event::Unlock { t: 0, l: 7 },
        Verdict::Refuse(Refusal::NotHeld),
    ),
    (
        Event::Fork { p: 0, c: 5 },
        Verdict::Refuse(Refusal::ChildUsed),
    ),
    (
        Event::Fork { p: 2, c: 3 },
        Verdict::Refuse(Refusal::NoThread),
    ),
];

// A test, since these parts come of no root: its segments and numbers are not theirs.
#[test]
fn a_restored_state_knows_its_locks_and_numbers(rt: HostRuntime) -> Result<(), Fail> {
    let threads = [thread(0), holder(1, true, false), holder(5, true, false)];
    let mut last = vec![in rt.alloc(); 0; SOURCE_NUMBERS]?;
    if let Some(number) = last.get_mut(3) {
        *number = 9;
    }
    let messages = MessageTable::new(rt.alloc());
    let state = TraceState::restore(rt.alloc(), 9, 5, &threads, last, messages)?;
    assert!(rt; state.last(3) == 9);
    for (event, verdict) in JUDGED {
        judges(&rt, &state, &first(event), verdict);
    }
    let again = Named {
        source: 3,
        number: 9,
        event: Event::Lock { t: 0, l: 8 },
    };
    judges(&rt, &state, &again, Verdict::Duplicate(9));
    Ok(())
}

/// Whether these parts are refused as damaged: threads, and how many events, segments and sources there are.
fn is_damaged(
    rt: &impl Abort,
    alloc: Global,
    threads: &[ThreadState],
    (events, segments, sources): (u64, u32, usize),
) {
    match vec![in alloc; 0; sources] {
        Ok(last) => {
            let messages = MessageTable::new(alloc);
            let refused = TraceState::restore(alloc, events, segments, threads, last, messages);
            assert!(rt; matches!(&refused, Err(Refusal::Damaged)));
        }
        Err(_) => assert!(rt; false),
    }
}

// A test, since a root's reader refuses such parts before a state is made.
#[test]
fn parts_out_of_range_make_no_state(rt: HostRuntime) {
    let alloc = rt.alloc();
    let counts = (0, 1, SOURCE_NUMBERS);
    is_damaged(&rt, alloc, &[thread(1024)], counts);
    is_damaged(&rt, alloc, &[thread(1), thread(0)], counts);
    is_damaged(&rt, alloc, &[thread(0), thread(0)], counts);
    is_damaged(&rt, alloc, &[thread(0), holder(1, false, true)], counts);
    is_damaged(
        &rt,
        alloc,
        &[holder(0, true, false), holder(1, true, true)],
        counts,
    );
    is_damaged(
        &rt,
        alloc,
        &[thread(0)],
        (MOST_EVENTS + 1, 1, SOURCE_NUMBERS),
    );
    is_damaged(&rt, alloc, &[thread(0)], (0, 1_048_577, SOURCE_NUMBERS));
    is_damaged(&rt, alloc, &[thread(0)], (0, 1, SOURCE_NUMBERS - 1));
}
