//! The lines of a trace text, up to the piece that was read last.

use crate::past::Past;
use hg_model::event::Event;
use hg_wire::line::read_line;
use hg_wire::splitter::Splitter;
use std::alloc::{AllocError, Global};

/// How many lines are counted at most.
const MOST_LINES: u64 = 1 << 62;

/// The lines of a text up to the piece that was read last, and what the events before that piece left.
#[derive(Drop)]
pub struct Lines {
    splitter: Splitter,
    piece: Vec<u8>,
    used: usize,
    past: Past,
    /// Memory was refused, or the lines are too many, so that nothing is known.
    is_lost: bool,
}

/// The event of a line, if it has one.
pub fn event_of(line: &[u8]) -> Option<Event> {
    match line {
        [] | [b'#', ..] => None,
        _ => read_line(line).ok(),
    }
}

impl Lines {
    /// For a text of which nothing was read yet.
    pub fn new(alloc: Global) -> Result<Lines, AllocError> {
        Ok(Lines {
            splitter: Splitter::new(alloc)?,
            piece: Vec::new(alloc),
            used: 0,
            past: Past::new(alloc)?,
            is_lost: false,
        })
    }

    /// Goes on to the end of the next line of the piece, if one ends in it.
    fn next(&mut self) -> bool {
        if self.is_lost || self.used > self.piece.len() || self.splitter.lines() > MOST_LINES {
            return false;
        }
        match self.splitter.take(&self.piece[self.used..]) {
            Some(count) => {
                self.used = self.used.saturating_add(count);
                true
            }
            None => {
                self.used = self.piece.len();
                false
            }
        }
    }

    /// Goes on behind the line that has ended, whose event was accepted.
    fn pass(&mut self) {
        if let Some(event) = event_of(self.splitter.last()) {
            if !self.past.follow(event) {
                self.is_lost = true;
            }
        }
    }

    /// Sees the next piece. The events of those before it were accepted.
    pub fn see(&mut self, piece: &[u8]) {
        for _ in 0..self.piece.len() {
            if !self.next() {
                break;
            }
            self.pass();
        }
        self.piece.clear();
        self.used = 0;
        if self.piece.extend_from_slice(piece).is_err() {
            self.is_lost = true;
        }
    }

    /// Goes on to a line of the last piece, or to the unfinished line at its end. Answers whether there is one.
    pub fn find(&mut self, line: u64) -> bool {
        for _ in 0..self.piece.len() {
            if !self.next() {
                break;
            }
            if self.splitter.lines() == line {
                return true;
            }
            self.pass();
        }
        if self.is_lost || self.splitter.lines() > MOST_LINES {
            return false;
        }
        self.splitter.finish() && self.splitter.lines() == line
    }

    /// The line that was found.
    pub fn line(&self) -> &[u8] {
        self.splitter.last()
    }

    /// What the events before it left.
    pub fn past(&self) -> &Past {
        &self.past
    }
}
