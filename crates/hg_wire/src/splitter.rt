//! The lines of a stream that comes in pieces.

ghost use Rattle.std.specs.Prelude.{◌≡◌, ◌+◌, ◌<◌, ◌^◌, [], IfOk, IfSome, IfNone, IsTrue, ◌↔◌, length};
ghost use Rattle.std.specs.Bool.{OnTrue, OnFalse};

use crate::begun::BegunLine;
use memchr::memchr;
use std::alloc::{AllocError, Global};
use std::marker::Model;
use std::mem;

/// Divides a stream into its lines, however it is cut into pieces (this project's profile).
/// A line is shown by its first 257 bytes at most, without its line feed and without one carriage return before that.
/// Once it is made, a splitter takes no memory.
#[derive(Drop)]
pub struct Splitter {
    lines: u64,
    line: BegunLine,
    last: BegunLine,
}

impl Model for Splitter {
    ghost use Rattle.std.specs.Prelude.{take};
    ghost use Rattle.std.specs.Str.Lines.{strip_carriage_return};
    ghost use Rattle.hg_wire.specs.Bytes.{NoByte};
    ghost use Rattle.hg_wire.specs.Streams.{Splitting};

    ghost Value = { Splitting };

    ghost view = { λ s. record { so_far = record { lines = s.lines; begun = s.line }; last = take 257 (strip_carriage_return s.last) } };

    ghost invariant = { λ s. NoByte 10 s.line };
}

impl Splitter {
    ghost use Rattle.std.specs.Prelude.{true};
    ghost use Rattle.hg_wire.specs.Streams.{at_start, counted_on, line_ended, lines_from, EndsLine, EndsNoLine, EndsLastLine};

    /// A splitter at the start of a stream.
    pub fn new(alloc: Global) -> Result<Self, AllocError>
        ensures { IfOk result (λ splitter. splitter.so_far ≡ at_start) }
    {
        Ok(Splitter {
            lines: 0,
            line: BegunLine::new(alloc)?,
            last: BegunLine::new(alloc)?,
        })
    }

    /// How many lines have ended.
    #[inline(always)]
    pub fn lines(&self) -> u64
        ensures { result ≡ self.now.so_far.lines }
    {
        self.lines
    }

    /// The last line that has ended, as it is shown.
    pub fn last(&self) -> &[u8]
        ensures { result.now ≡ self.now.last }
    {
        self.last.shown()
    }

    /// Whether the stream stands at the beginning of a line.
    #[inline(always)]
    pub fn is_between_lines(&self) -> bool
        ensures { IsTrue result ↔ (self.now.so_far.begun ≡ []) }
    {
        self.line.is_empty()
    }

    /// Counts a whole line that was taken from the stream elsewhere, from its beginning on.
    #[inline(always)]
    pub fn count_line(&mut self)
        requires { self.old.so_far.lines + 1 < 2 ^ 64 }
        ensures { self.new ≡ counted_on 1 self.old }
    {
        self.lines += 1;
    }

    /// Counts whole lines that were taken from the stream elsewhere, from the beginning of a line on.
    #[inline(always)]
    pub fn count_lines(&mut self, count: u64)
        requires { self.old.so_far.lines + count < 2 ^ 64 }
        ensures { self.new ≡ counted_on count self.old }
    {
        self.lines += count;
    }

    /// Goes back to the start of a stream, and keeps its memory.
    pub fn reset(&mut self)
        ensures { self.new.so_far ≡ at_start }
    {
        self.lines = 0;
        self.line.clear();
    }

    /// Takes the piece up to and including its first line feed, which ends a line. Takes all of it where it has none.
    /// Where a line has ended, the answer is the number of bytes that were taken.
    pub fn take(&mut self, piece: &[u8]) -> Option<usize>
        requires { self.old.so_far.lines + length piece.now < 2 ^ 64 }
        ensures line { IfSome result (EndsLine self.old self.new piece.now) }
        ensures none { IfNone result (EndsNoLine self.old self.new piece.now) }
    {
        match memchr(b'\n', piece) {
            None => {
                self.line.push(piece);
                None
            }
            Some(end) => {
                self.line.push(&piece[..end]);
                self.end_line();
                Some(end + 1)
            }
        }
    }

    /// At the end of a stream, ends a line that lacks its line feed. Answers whether there was one.
    pub fn finish(&mut self) -> bool
        requires { self.old.so_far.lines + 1 < 2 ^ 64 }
        ensures line { OnTrue result (EndsLastLine self.old self.new) }
        ensures none { OnFalse result ((self.new ≡ self.old) × (lines_from true self.old.so_far [] ≡ [])) }
    {
        if self.line.is_empty() {
            return false;
        }
        self.end_line();
        true
    }

    fn end_line(&mut self)
        requires { self.old.so_far.lines + 1 < 2 ^ 64 }
        ensures { self.new ≡ line_ended self.old }
    {
        mem::swap(&mut self.line, &mut self.last);
        self.line.clear();
        self.count_line();
    }
}
