//! Events as a line names them, one or a row of them, and as an answer does.

use crate::text::Text;
use crate::tokens::{Halt, Tokens};
use hg_model::event::{Access, Block, Event, Named};
use hg_wire::line::read_line;

/// Events under numbers that follow one another: the first, the last number, and by how many bytes each is further on than
/// the one before.
#[derive(Clone, Copy)]
struct Row {
    first: Named,
    last: u64,
    step: u64,
}

fn read_event(text: &str) -> Result<Event, Halt> {
    match read_line(text.as_bytes()) {
        Ok(event) => Ok(event),
        Err(_) => Err(Halt::Misspelt),
    }
}

/// `SOURCE NUMBER EVENT`, or `SOURCE FIRST to LAST EVENT`, with ` step BYTES` behind it or without
fn read_row(text: &str) -> Result<Row, Halt> {
    let (front, step) = text.split_once(" step ").unwrap_or((text, "0"));
    let mut steps = Tokens::of(step);
    let step = steps.number();
    steps.check()?;
    let mut tokens = Tokens::of(front);
    let source = tokens.short_number();
    let number = tokens.number();
    let last = if tokens.skip("to ") {
        tokens.number()
    } else {
        number
    };
    tokens.check()?;
    let event = read_event(tokens.rest())?;
    let first = Named {
        source,
        number,
        event,
    };
    Ok(Row { first, last, step })
}

/// The event moved on by so many bytes, where it has an address.
fn moved(event: Event, step: u64) -> Event {
    match event {
        Event::Read(Access { t, at, len }) => Event::Read(Access {
            t,
            at: at.wrapping_add(step),
            len,
        }),
        Event::Write(Access { t, at, len }) => Event::Write(Access {
            t,
            at: at.wrapping_add(step),
            len,
        }),
        Event::Alloc(Block { t, at, len }) => Event::Alloc(Block {
            t,
            at: at.wrapping_add(step),
            len,
        }),
        Event::Free(Block { t, at, len }) => Event::Free(Block {
            t,
            at: at.wrapping_add(step),
            len,
        }),
        other => other,
    }
}

/// Appends the events that a line names.
pub fn put_events(text: &str, events: &mut Vec<Named>) -> Result<(), Halt> {
    let row = read_row(text)?;
    let mut named = row.first;
    events.push(named)?;
    for number in row.first.number..row.last {
        named.number = number.wrapping_add(1);
        named.event = moved(named.event, row.step);
        events.push(named)?;
    }
    Ok(())
}

/// The verb of an event and its numbers, the last one where it has a length.
fn parts_of(event: Event) -> (&'static str, u16, u64, Option<u64>) {
    match event {
        Event::Fork { p, c } => ("fork", p, u64::from(c), None),
        Event::Join { p, c } => ("join", p, u64::from(c), None),
        Event::Lock { t, l } => ("lock", t, u64::from(l), None),
        Event::RdLock { t, l } => ("rdlock", t, u64::from(l), None),
        Event::Unlock { t, l } => ("unlock", t, u64::from(l), None),
        Event::Read(Access { t, at, len }) => ("read", t, at, Some(u64::from(len))),
        Event::Write(Access { t, at, len }) => ("write", t, at, Some(u64::from(len))),
        Event::Alloc(Block { t, at, len }) => ("alloc", t, at, Some(u64::from(len))),
        Event::Free(Block { t, at, len }) => ("free", t, at, Some(u64::from(len))),
        Event::Send { t, k } => ("send", t, u64::from(k), None),
        Event::Recv { t, k } => ("recv", t, u64::from(k), None),
    }
}

/// `SOURCE NUMBER EVENT`, with all numbers in decimal.
pub fn put_named(named: &Named, out: &mut Text) {
    let (verb, thread, second, length) = parts_of(named.event);
    out.put_decimal(u64::from(named.source));
    out.put_number(b" ", named.number);
    out.put(b" ");
    out.put(verb.as_bytes());
    out.put_number(b" ", u64::from(thread));
    out.put_number(b" ", second);
    if let Some(length) = length {
        out.put_number(b" ", length);
    }
}
