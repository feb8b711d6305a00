//! The threads of a trace state, as its public calls show them.

use hg_model::event::{Access, Event, Named};
use hg_model::limits::GREATEST_THREAD;
use hg_model::segment::Segment;
use hg_model::verdict::{Refusal, Verdict};
use hg_rules::judging::judge;
use hg_rules::state::TraceState;
use hg_test_kit::text::Text;

/// The last segment of a thread, where there is one.
pub fn last_of(segments: &[Segment], thread: u16) -> Option<usize> {
    let mut last = None;
    for (place, segment) in segments.iter().enumerate() {
        if segment.thread == thread {
            last = Some(place);
        }
    }
    last
}

/// Whether the thread is alive: the rules then refuse no access of its for want of a thread.
pub fn is_alive(state: &TraceState, thread: u16) -> bool {
    let access = Event::Read(Access {
        t: thread,
        at: 0,
        len: 4,
    });
    let next = Named {
        source: 0,
        number: state.last(0).saturating_add(1),
        event: access,
    };
    match judge(state, &next) {
        Verdict::Refuse(Refusal::NoThread) => false,
        _ => true,
    }
}

/// Whether the number is among these.
pub fn is_among(number: u16, numbers: &[u16]) -> bool {
    for other in numbers {
        if *other == number {
            return true;
        }
    }
    false
}

/// The locks that a thread holds, each with its mode.
fn put_held(state: &TraceState, thread: u16, out: &mut Text) {
    let writing = state.counted(thread, true);
    for lock in state.counted(thread, false) {
        out.put_number(b",", u64::from(*lock));
        out.put(if is_among(*lock, writing) {
            b":write"
        } else {
            b":read"
        });
    }
}

fn put_thread(state: &TraceState, thread: u16, last: usize, out: &mut Text) {
    out.put_number(b" ", u64::from(thread));
    out.put(if is_alive(state, thread) {
        b",alive"
    } else {
        b",dead"
    });
    out.put_number(b",", last as u64);
    put_held(state, thread, out);
}

/// The threads that segments name, each with its last segment and its locks.
pub fn put_threads(state: &TraceState, segments: &[Segment], out: &mut Text) {
    for thread in 0..GREATEST_THREAD + 1 {
        match last_of(segments, thread) {
            Some(last) => put_thread(state, thread, last, out),
            None => {}
        }
    }
}
