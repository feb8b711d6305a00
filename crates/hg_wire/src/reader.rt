//! The events of a stream of trace text.

ghost use Rattle.std.specs.Prelude.{◌≡◌, ◌+◌, ◌<◌, ◌^◌, ◌∷◌, [], length, option_to_list, IfOk, IfSome, IfNone, IsTrue, ◌↔◌, Ok};
ghost use Rattle.hg_wire.specs.Streams.{Takes, readings_in};

use crate::line::{
    AccessLine, HoldLine, LineFault, access_line_in_front, event_line_in_front, hold_line_in_front,
    read_line,
};
use crate::splitter::Splitter;
use hg_model::event::Event;
use std::alloc::{AllocError, Global};
use std::marker::Model;

/// A line that is neither empty nor a comment, and what it says.
#[derive(Clone, Copy, Debug, PartialEq, Eq, Drop)]
pub struct Reading {
    /// The line's number in its stream, from 1 on.
    pub line: u64,
    pub event: Result<Event, LineFault>,
}

/// What was taken of a piece.
#[derive(Clone, Copy, Debug, PartialEq, Eq, Drop)]
pub enum Taken {
    /// A line was read, and `used` bytes of the piece were taken.
    Line { reading: Reading, used: usize },
    /// All of the piece was taken, and it has no further line to read.
    More,
}

/// Reads the events of a stream of trace text, however it is cut into pieces (this project's profile).
/// Once it is made, a reader takes no memory.
#[derive(Drop)]
pub struct EventReader {
    splitter: Splitter,
}

impl Model for EventReader {
    ghost use Rattle.hg_wire.specs.Streams.{LinesRead};

    ghost Value = { LinesRead };

    ghost view = { λ r. r.splitter.so_far };
}

impl EventReader {
    ghost use Rattle.hg_wire.specs.Accesses.{GivesAccess};
    ghost use Rattle.hg_wire.specs.Holds.{GivesHold};
    ghost use Rattle.hg_wire.specs.Streams.{at_start, readings_from, GivesReading, Takes};

    /// A reader at the start of a stream.
    pub fn new(alloc: Global) -> Result<Self, AllocError>
        ensures { IfOk result (λ reader. reader ≡ at_start) }
    {
        Ok(EventReader {
            splitter: Splitter::new(alloc)?,
        })
    }

    /// Takes the next piece of the stream, up to and including its first line that is neither empty nor a comment.
    /// Further calls take the rest of the piece. The number of lines has to stay below 2^64.
    #[inline(always)]
    pub fn take(&mut self, piece: &[u8]) -> Taken
        requires { self.old.lines + length piece.now < 2 ^ 64 }
        ensures { Takes self.old self.new piece.now result }
    {
        if self.splitter.is_between_lines() {
            if let Some((event, used)) = event_line_in_front(piece) {
                self.splitter.count_line();
                let line = self.splitter.lines();
                let reading = Reading {
                    line,
                    event: Ok(event),
                };
                return Taken::Line { reading, used };
            }
        }
        take_by_lines(&mut self.splitter, piece)
    }

    /// Takes the next line of the stream, if it is a read or a write and stands whole at the front of the piece. `None`
    /// takes nothing, and says nothing of the piece: a piece of fewer than 42 bytes is not looked at.
    #[inline(always)]
    pub fn take_access(&mut self, piece: &[u8]) -> Option<AccessLine>
        requires { self.old.lines + length piece.now < 2 ^ 64 }
        ensures access { IfSome result (λ found. GivesAccess self.old self.new piece.now found) }
        ensures none { IfNone result (self.new ≡ self.old) }
    {
        if !self.splitter.is_between_lines() {
            return None;
        }
        let found = access_line_in_front(piece)?;
        self.splitter.count_line();
        Some(found)
    }

    /// Takes the next line of the stream, if it is an event on a lock and stands whole at the front of the piece. `None`
    /// takes nothing, and says nothing of the piece.
    #[inline(always)]
    pub fn take_hold(&mut self, piece: &[u8]) -> Option<HoldLine>
        requires { self.old.lines + length piece.now < 2 ^ 64 }
        ensures hold { IfSome result (λ found. GivesHold self.old self.new piece.now found) }
        ensures none { IfNone result (self.new ≡ self.old) }
    {
        if !self.splitter.is_between_lines() {
            return None;
        }
        let found = hold_line_in_front(piece)?;
        self.splitter.count_line();
        Some(found)
    }

    /// How many lines have ended.
    #[inline(always)]
    pub fn lines(&self) -> u64
        ensures { result ≡ self.now.lines }
    {
        self.splitter.lines()
    }

    /// Whether the stream stands at the beginning of a line.
    #[inline(always)]
    pub fn is_between_lines(&self) -> bool
        ensures { IsTrue result ↔ (self.now.begun ≡ []) }
    {
        self.splitter.is_between_lines()
    }

    /// Counts whole lines that were taken from the stream elsewhere, from the beginning of a line on.
    pub fn count_lines(&mut self, count: u64)
        requires { self.old.lines + count < 2 ^ 64 }
        ensures { self.new ≡ record { lines = self.old.lines + count; begun = self.old.begun } }
    {
        self.splitter.count_lines(count);
    }

    /// Goes back to the start of a stream, and keeps its memory.
    pub fn reset(&mut self)
        ensures { self.new ≡ at_start }
    {
        self.splitter.reset();
    }

    /// Ends the stream, and reads a last line that lacks its line feed, where it is neither empty nor a comment.
    pub fn finish(mut self) -> Option<Reading>
        requires { self.lines + 1 < 2 ^ 64 }
        ensures { readings_from self [] ≡ option_to_list result }
    {
        if self.splitter.finish() {
            reading_of_last(&self.splitter)
        } else {
            None
        }
    }
}

/// What the last line that has ended says, where it is neither empty nor a comment.
fn reading_of_last(splitter: &Splitter) -> Option<Reading>
    ensures { option_to_list result ≡ readings_in ((splitter.now.so_far.lines, splitter.now.last) ∷ []) }
{
    let line = splitter.lines();
    match splitter.last() {
        [] | [b'#', ..] => None,
        bytes => Some(Reading {
            line,
            event: read_line(bytes),
        }),
    }
}

/// Takes the next line as `EventReader::take` does, by the splitter: it holds a line that is cut, and skips those that say
/// nothing.
#[inline(never)]
fn take_by_lines(splitter: &mut Splitter, piece: &[u8]) -> Taken
    requires { splitter.old.so_far.lines + length piece.now < 2 ^ 64 }
    ensures { Takes splitter.old.so_far splitter.new.so_far piece.now result }
{
    let mut rest = piece;
    while let Some(used) = splitter.take(rest) {
        rest = &rest[used..];
        if let Some(reading) = reading_of_last(splitter) {
            let used = piece.len() - rest.len();
            return Taken::Line { reading, used };
        }
    }
    Taken::More
}
