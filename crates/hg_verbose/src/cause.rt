//! Why the rules refuse an event, in words.
ghost use Rattle.std.specs.Prelude.{◌≡◌, [], OnOk};
ghost use Rattle.hg_verbose.specs.Causes.{done_by_text, done_text, first_text, hold_text, mode_text, others_text, since_text, some_text, unknown_text};
ghost use Rattle.hg_verbose.specs.Numbers.{Gains, number_text};

use crate::holds::Hold;
use crate::past::{Life, Past};
use crate::quoting::{put_number, put_numbers};
use hg_model::event::Event;
use hg_model::limits::{
    GREATEST_ACCESS, GREATEST_BLOCK, GREATEST_THREAD, MOST_EVENTS, MOST_HELD, MOST_SEGMENTS,
};
use hg_sets::MOST_SETS;
use std::alloc::AllocError;
use std::fmt::Write;
use std::string::String;

/// The thread that acts, and the child or the lock that it names, where it names one.
fn parties(event: Event) -> (u16, u16) {
    match event {
        Event::Fork { p, c } => (p, c),
        Event::Join { p, c } => (p, c),
        Event::Lock { t, l } => (t, l),
        Event::RdLock { t, l } => (t, l),
        Event::Unlock { t, l } => (t, l),
        Event::Read(a) => (a.t, 0),
        Event::Write(a) => (a.t, 0),
        Event::Alloc(b) => (b.t, 0),
        Event::Free(b) => (b.t, 0),
        Event::Send { t, k: _ } => (t, 0),
        Event::Recv { t, k: _ } => (t, 0),
    }
}

/// The message of an event that names one.
fn message_of(event: Event) -> u32 {
    match event {
        Event::Send { t: _, k } | Event::Recv { t: _, k } => k,
        _ => 0,
    }
}

/// The address and the length of an event that has them.
fn place(event: Event) -> (u64, u32) {
    match event {
        Event::Read(a) => (a.at, u32::from(a.len)),
        Event::Write(a) => (a.at, u32::from(a.len)),
        Event::Alloc(b) => (b.at, b.len),
        Event::Free(b) => (b.at, b.len),
        _ => (0, 0),
    }
}

/// In which mode a lock is held, before the number of the event that took it.
fn mode_of(write: bool) -> &'static str
    ensures { result.now ≡ mode_text write }
{
    if write {
        " in write mode since event "
    } else {
        " in read mode since event "
    }
}

/// What is behind the number of the event that took a lock: where that one is gone, an earlier one may have taken it.
fn before_of(gone: u64, since: u64) -> &'static str
    ensures { result.now ≡ since_text gone since }
{
    if since <= gone { " or before" } else { "" }
}

/// Appends in which mode a lock is held, and since when. The events up to the one numbered `gone` are gone.
fn put_mode(gone: u64, write: bool, since: u64, text: &mut String) -> Result<(), AllocError>
    ensures { OnOk result (Gains text.old text.new (number_text (mode_text write) since (since_text gone since))) }
{
    put_number(mode_of(write), since, before_of(gone, since), text)
}

/// Appends that a thread holds a lock, and since when. The events up to the one numbered `gone` are gone.
fn put_hold(gone: u64, hold: Hold, text: &mut String) -> Result<(), AllocError>
    ensures { OnOk result (Gains text.old text.new (hold_text gone hold)) }
{
    let (thread, lock) = (hold.thread as u64, hold.lock as u64);
    put_numbers("thread ", thread, " holds lock ", lock, text)?;
    put_mode(gone, hold.write, hold.since, text)
}

/// Appends how many holds there are beside the first one, of so many.
fn put_others(count: usize, text: &mut String) -> Result<(), AllocError>
    ensures { OnOk result (Gains text.old text.new (others_text count)) }
{
    if count <= 1 {
        return Ok(());
    }
    if count == 2 {
        return text.push_str(", and there is one hold more");
    }
    put_number(", and there are ", count as u64 - 1, " holds more", text)
}

/// Appends that more locks may be held since the event numbered `unknown` or before.
fn put_unknown(unknown: u64, text: &mut String) -> Result<(), AllocError>
    ensures { OnOk result (Gains text.old text.new (unknown_text unknown)) }
{
    if unknown == 0 {
        return Ok(());
    }
    put_number(
        ", and there may be more since event ",
        unknown,
        " or before",
        text,
    )
}

/// Appends that a lock is held, of which no event is known that took it.
fn put_some(unknown: u64, text: &mut String) -> Result<(), AllocError>
    ensures { OnOk result (Gains text.old text.new (some_text unknown)) }
{
    if unknown == 0 {
        return text.push_str("a lock is held");
    }
    put_number("a lock is held since event ", unknown, " or before", text)
}

/// Appends the first of some locks that are held, and how many there are more. The events up to the one numbered `gone` are gone, and of those
/// up to the one numbered `unknown` it is not known what they left.
fn put_first(
    gone: u64,
    unknown: u64,
    first: Option<Hold>,
    count: usize,
    text: &mut String,
) -> Result<(), AllocError>
    ensures { OnOk result (Gains text.old text.new (first_text gone unknown first count)) }
{
    let Some(hold) = first else {
        return put_some(unknown, text);
    };
    put_hold(gone, hold, text)?;
    put_others(count, text)?;
    put_unknown(unknown, text)
}

/// Appends that a thread was joined by the event numbered `gone` or before.
fn put_ended(gone: u64, thread: u64, text: &mut String) -> Result<(), AllocError> {
    let what = " was joined at or before event ";
    put_numbers("thread ", thread, what, gone, text)
}

/// Appends that a thread is not alive, where no event is known that joined it.
fn put_not_joined(past: &Past, thread: u16, text: &mut String) -> Result<(), AllocError> {
    let (gone, number) = (past.gone(), u64::from(thread));
    match past.life(thread) {
        Life::Unused => put_number("thread ", number, " was never forked", text),
        Life::Ended => put_ended(gone, number, text),
        Life::Unknown | Life::Alive => {
            put_ended(gone, number, text)?;
            text.push_str(", or never forked")
        }
    }
}

/// Appends that a thread is not alive.
fn put_not_alive(past: &Past, thread: u16, text: &mut String) -> Result<(), AllocError> {
    let joined = past.joined(thread);
    if joined == 0 {
        return put_not_joined(past, thread, text);
    }
    let thread = u64::from(thread);
    put_numbers("thread ", thread, " was joined by event ", joined, text)
}

/// Appends which number is above the limit.
fn put_bad_number(event: Event, text: &mut String) -> Result<(), AllocError> {
    let (actor, other) = parties(event);
    let thread = u64::from(if actor > GREATEST_THREAD {
        actor
    } else {
        other
    });
    let greatest = u64::from(GREATEST_THREAD);
    put_numbers(
        "there is no thread ",
        thread,
        ": threads are 0 to ",
        greatest,
        text,
    )
}

/// Appends how long an access or a block may be.
fn put_bad_length(event: Event, text: &mut String) -> Result<(), AllocError> {
    let (_, length) = place(event);
    let (most, what) = match event {
        Event::Read(_) | Event::Write(_) => { (u64::from(GREATEST_ACCESS), ", as an access has") }
        _ => (u64::from(GREATEST_BLOCK), ", as a block has"),
    };
    put_numbers("", u64::from(length), " bytes are not 1 to ", most, text)?;
    text.push_str(what)
}

/// Appends how the number of a thread was used before.
fn put_used(past: &Past, thread: u16, text: &mut String) -> Result<(), AllocError> {
    if thread == 0 {
        return text.push_str("thread 0 is there from the start");
    }
    let (how, event) = match past.forked(thread) {
        0 => (" was forked at or before event ", past.gone()),
        event => (" was forked by event ", event),
    };
    put_numbers("thread ", u64::from(thread), how, event, text)?;
    text.push_str(", and no number is used twice")
}

/// Appends which locks the joined thread holds.
fn put_holds_of(past: &Past, thread: u16, text: &mut String) -> Result<(), AllocError> {
    let (first, count) = past.holds().of_thread(thread);
    put_first(past.gone(), past.unknown(), first, count, text)
}

/// Up to which event it is not known who may hold a lock beside this one. Beside one in write mode there is none.
fn unknown_beside(past: &Past, first: Option<Hold>) -> u64 {
    match first {
        Some(hold) if hold.write => 0,
        _ => past.unknown(),
    }
}

/// Appends who holds a lock.
fn put_holders(past: &Past, lock: u16, text: &mut String) -> Result<(), AllocError> {
    let (first, count) = past.holds().of_lock(lock);
    let unknown = unknown_beside(past, first);
    put_first(past.gone(), unknown, first, count, text)
}

/// Appends since when the thread holds the lock that it takes.
fn put_held(past: &Past, thread: u16, lock: u16, text: &mut String) -> Result<(), AllocError> {
    let first = past.holds().of_both(thread, lock);
    let unknown = match first {
        Some(_) => 0,
        None => past.unknown(),
    };
    put_first(past.gone(), unknown, first, 1, text)
}

/// Appends that no thread holds a lock, where that is known.
fn put_no_holder(unknown: u64, text: &mut String) -> Result<(), AllocError> {
    if unknown == 0 {
        return text.push_str(", and no thread does");
    }
    put_number(", and no thread took it behind event ", unknown, "", text)
}

/// Appends that a thread doesn't hold a lock, and who does.
fn put_not_held(past: &Past, thread: u16, lock: u16, text: &mut String) -> Result<(), AllocError> {
    let (actor, wanted) = (u64::from(thread), u64::from(lock));
    put_numbers("thread ", actor, " does not hold lock ", wanted, text)?;
    let Some(hold) = past.holds().of_lock(lock).0 else {
        return put_no_holder(past.unknown(), text);
    };
    text.push_str(", and ")?;
    put_hold(past.gone(), hold, text)
}

/// Appends that a thread holds as many locks as it may.
fn put_full(thread: u16, text: &mut String) -> Result<(), AllocError> {
    let most = MOST_HELD as u64;
    put_numbers("thread ", u64::from(thread), " holds ", most, text)?;
    text.push_str(" locks, and may hold no more")
}

/// Appends why an event was refused with a code of the trace rules, after those events.
fn put_of_threads(
    past: &Past,
    event: Event,
    code: u64,
    text: &mut String,
) -> Result<(), AllocError> {
    let (actor, other) = parties(event);
    match code {
        5 => put_not_alive(past, actor, text),
        6 => put_used(past, other, text),
        7 => put_number("thread ", u64::from(actor), " joins itself", text),
        8 => put_not_alive(past, other, text),
        9 => put_holds_of(past, other, text),
        12 => put_held(past, actor, other, text),
        13 => put_holders(past, other, text),
        14 => put_not_held(past, actor, other, text),
        _ => put_full(actor, text),
    }
}

/// Appends by which event something was done, where that is known.
fn put_done_by(gone: u64, event: u64, text: &mut String) -> Result<(), AllocError>
    ensures { OnOk result (Gains text.old text.new (done_by_text gone event)) }
{
    match (event, gone) {
        (0, 0) => text.push_str(" before"),
        (0, _) => put_number(" at or before event ", gone, "", text),
        _ => put_number(" by event ", event, "", text),
    }
}

/// Appends what was done with a message before, and by which event where that is known.
fn put_done(
    gone: u64,
    message: u32,
    done: &str,
    event: u64,
    text: &mut String,
) -> Result<(), AllocError>
    ensures { OnOk result (Gains text.old text.new (done_text gone message done.now event)) }
{
    put_number("message ", u64::from(message), done, text)?;
    put_done_by(gone, event, text)
}

/// Appends that a message was sent before.
fn put_sent(past: &Past, message: u32, text: &mut String) -> Result<(), AllocError> {
    put_done(past.gone(), message, " was sent", past.sent(message), text)?;
    text.push_str(", and no message is sent twice")
}

/// Appends that a message was not sent.
fn put_not_sent(message: u32, text: &mut String) -> Result<(), AllocError> {
    put_number("message ", u64::from(message), " was not sent", text)
}

/// Appends that a message was received before.
fn put_taken(past: &Past, message: u32, text: &mut String) -> Result<(), AllocError> {
    let event = past.received(message);
    put_done(past.gone(), message, " was received", event, text)?;
    text.push_str(", and no message is received twice")
}

/// Appends that an access passes the end of the addresses.
fn put_past_the_end(event: Event, text: &mut String) -> Result<(), AllocError> {
    let (address, length) = place(event);
    write!(
        text,
        "{length} bytes from address {address:#x} on pass the end of the addresses, 2^64"
    )
}

/// Appends that there may be no more segments.
fn put_full_graph(past: &Past, text: &mut String) -> Result<(), AllocError> {
    if past.unknown() != 0 {
        let most = u64::from(MOST_SEGMENTS);
        return put_number("there would be more than ", most, " segments", text);
    }
    put_numbers(
        "there are ",
        past.segments(),
        " segments, and may be ",
        u64::from(MOST_SEGMENTS),
        text,
    )
}

/// Appends that there may be no more events. The limit is a power of two.
fn put_full_trace(text: &mut String) -> Result<(), AllocError> {
    let exponent = u64::from(MOST_EVENTS.trailing_zeros());
    let why = " events were accepted, and there may be no more";
    put_number("2^", exponent, why, text)
}

/// Appends that there may be no more sets.
fn put_full_table(text: &mut String) -> Result<(), AllocError> {
    let why = " sets of threads and of locks are in use, and this event needs another one";
    put_number("", u64::from(MOST_SETS), why, text)
}

/// Appends why an event was refused with this code, after those events.
pub fn put_cause(
    past: &Past,
    event: Event,
    code: u64,
    text: &mut String,
) -> Result<(), AllocError> {
    match code {
        2 => put_bad_number(event, text),
        3 => put_bad_length(event, text),
        4 => put_past_the_end(event, text),
        16 => put_full_graph(past, text),
        17 => put_full_trace(text),
        19 => put_full_table(text),
        23 => put_sent(past, message_of(event), text),
        24 => put_not_sent(message_of(event), text),
        25 => put_taken(past, message_of(event), text),
        _ => put_of_threads(past, event, code, text),
    }
}
