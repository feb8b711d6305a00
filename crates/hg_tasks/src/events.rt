//! The events of a store, as a trace text.

ghost use Rattle.std.specs.Prelude.{◌≡◌, ◌++◌, ◌∷◌, [], IfOk, OnOk, string_bytes};
ghost use Rattle.hg_tasks.specs.Lines.{event_line, line, lines};
ghost use Rattle.hg_tasks.specs.Spelling.{LinesAreRead};

use hg_disk::Disk;
use hg_model::event::{Access, Block, Event, Named};
use hg_model::verdict::Refusal;
use hg_store::store::Store;
use std::alloc::{AllocError, Global};
use std::fmt::Write;
use std::io;
use std::io::{ErrorKind, Read};
use std::string::String;

/// How many events are taken from the store at once.
const PIECE: usize = 1_024;

/// The events of a store in the order in which they were accepted, one a line.
#[derive(Drop)]
pub struct EventText<D: Disk> {
    alloc: Global,
    store: Store<D>,
    /// The place of the next event that is taken, counted from 1.
    next: u64,
    text: String,
    used: usize,
}

/// Appends a line of a verb, a thread, and a thread or a lock.
fn put_pair(verb: &str, t: u16, other: u16, text: &mut String) -> Result<(), AllocError>
    ensures { OnOk result (string_bytes text.new ≡ string_bytes text.old ++ line verb.now (t ∷ other ∷ [])) }
{
    write!(text, "{verb} {t} {other}\n")
}

/// Appends a line of a verb, a thread and a message.
fn put_message(verb: &str, t: u16, k: u32, text: &mut String) -> Result<(), AllocError>
    ensures { OnOk result (string_bytes text.new ≡ string_bytes text.old ++ line verb.now (t ∷ k ∷ [])) }
{
    write!(text, "{verb} {t} {k}\n")
}

/// Appends a line of a verb, a thread, and where memory begins and how long it is.
fn put_range(verb: &str, t: u16, at: u64, len: u32, text: &mut String) -> Result<(), AllocError>
    ensures { OnOk result (string_bytes text.new ≡ string_bytes text.old ++ line verb.now (t ∷ at ∷ len ∷ [])) }
{
    write!(text, "{verb} {t} {at} {len}\n")
}

/// Appends the line of an event.
fn put_event(event: Event, text: &mut String) -> Result<(), AllocError>
    ensures { OnOk result (string_bytes text.new ≡ string_bytes text.old ++ event_line event) }
{
    match event {
        Event::Fork { p, c } => put_pair("fork", p, c, text),
        Event::Join { p, c } => put_pair("join", p, c, text),
        Event::Lock { t, l } => put_pair("lock", t, l, text),
        Event::RdLock { t, l } => put_pair("rdlock", t, l, text),
        Event::Unlock { t, l } => put_pair("unlock", t, l, text),
        Event::Read(Access { t, at, len }) => put_range("read", t, at, u32::from(len), text),
        Event::Write(Access { t, at, len }) => put_range("write", t, at, u32::from(len), text),
        Event::Alloc(Block { t, at, len }) => put_range("alloc", t, at, len, text),
        Event::Free(Block { t, at, len }) => put_range("free", t, at, len, text),
        Event::Send { t, k } => put_message("send", t, k, text),
        Event::Recv { t, k } => put_message("recv", t, k, text),
    }
}

/// A law: the line of an event is read as that event, as a line of a trace is.
pub fn lines_are_read()
    ensures { LinesAreRead }
{}

/// Appends the lines of events.
fn put_events(events: &[Named], text: &mut String) -> Result<(), AllocError>
    ensures { OnOk result (string_bytes text.new ≡ string_bytes text.old ++ lines events.now) }
{
    for named in events {
        put_event(named.event, text)?;
    }
    Ok(())
}

/// Why events can't be had, by the kind of a reader's error.
fn kind_of(refusal: Refusal) -> ErrorKind
    ensures memory { refusal ≡ Refusal.OutOfMemory → result ≡ ErrorKind.OutOfMemory }
    ensures other { (refusal ≡ Refusal.OutOfMemory → ⊥) → result ≡ ErrorKind.Other }
{
    match refusal {
        Refusal::OutOfMemory => ErrorKind::OutOfMemory,
        _ => ErrorKind::Other,
    }
}

impl<D: Disk> EventText<D> {
    ghost use Rattle.hg_tasks.specs.Taking.{HasGiven, HasTaken, IsBehind, IsFresh};

    /// For a store of which no event was taken yet.
    pub fn new(alloc: Global, store: Store<D>) -> EventText<D>
        ensures { IsFresh store result }
    {
        EventText::behind(alloc, store, 0)
    }

    /// For a store of whose events those behind the one with this number are taken.
    pub fn behind(alloc: Global, store: Store<D>, gone: u64) -> EventText<D>
        ensures { IsBehind gone store result }
    {
        EventText {
            alloc,
            store,
            next: gone.saturating_add(1),
            text: String::new(alloc),
            used: 0,
        }
    }

    /// Takes the next events. Without events the text is empty.
    fn refill(&mut self) -> Result<(), Refusal>
        ensures { OnOk result (HasTaken ⟦<D as Disk>⟧ self.old self.new) }
    {
        self.text.clear();
        self.used = 0;
        let events = self.store.durable_events(self.alloc, self.next, PIECE)?;
        put_events(events.as_slice(), &mut self.text)?;
        self.next = self.next.saturating_add(events.len() as u64);
        Ok(())
    }

    /// Gives what is left of the text, as much as the buffer takes, and answers how many bytes these are.
    fn give(&mut self, buf: &mut [u8]) -> usize
        ensures { HasGiven self.old self.new buf.old buf.new result }
    {
        let text = self.text.as_bytes();
        let rest = &text[self.used.min(text.len())..];
        let count = rest.len().min(buf.len());
        buf[..count].copy_from_slice(&rest[..count]);
        self.used += count;
        count
    }
}

impl<D: Disk> Read for EventText<D> {
    ghost use Rattle.std.specs.Io.{ReadsAtMost};
    ghost use Rattle.hg_tasks.specs.Taking.{HasRead};

    fn read(&mut self, buf: &mut [u8]) -> io::Result<usize>
        ensures bound { ReadsAtMost result buf.new }
        ensures lines { IfOk result (λ n. HasRead ⟦<D as Disk>⟧ self.old self.new buf.old buf.new n) }
    {
        if self.used < self.text.len() {
            return Ok(self.give(buf));
        }
        match self.refill() {
            Ok(()) => Ok(self.give(buf)),
            Err(refusal) => Err(io::Error::from(kind_of(refusal))),
        }
    }
}
