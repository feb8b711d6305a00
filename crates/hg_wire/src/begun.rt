//! The stored bytes of a line that has not ended.

ghost use Rattle.std.specs.Prelude.{◌≡◌, ◌++◌, [], take, IfOk, IsTrue, ◌↔◌};
ghost use Rattle.std.specs.Str.Lines.{strip_carriage_return};

use crate::line::MOST_LINE_BYTES;
use std::alloc::{AllocError, Global};
use std::marker::Model;

/// The most bytes of a line that are stored: those of an event, and one more for a carriage return or a byte too many.
const MOST_STORED_BYTES: usize = MOST_LINE_BYTES + 1;

/// The bytes of a line, up to 257 of them, in memory that was reserved for them.
#[derive(Drop)]
pub struct BegunLine {
    bytes: Vec<u8>,
    /// More bytes came than fit.
    is_cut: bool,
}

impl Model for BegunLine {
    ghost use Rattle.std.specs.Prelude.{◌≡◌, ◌≤◌, ◌++◌, List, [], ◌∷◌, ℕ, true, vec_len, vec_capacity, if◌then◌else◌};

    ghost Value = { List ℕ };

    ghost view = { λ s. s.bytes.items ++ (if s.is_cut then 0 ∷ [] else []) };

    ghost invariant = { λ s. (vec_len s.bytes ≤ 257) × (257 ≤ vec_capacity s.bytes) × (s.is_cut ≡ true → vec_len s.bytes ≡ 257) };
}

impl BegunLine {
    ghost use Rattle.hg_wire.specs.Streams.{stored};

    pub fn new(alloc: Global) -> Result<Self, AllocError>
        ensures { IfOk result (λ line. line ≡ []) }
    {
        Ok(BegunLine {
            bytes: Vec::with_capacity(alloc, MOST_STORED_BYTES)?,
            is_cut: false,
        })
    }

    pub fn clear(&mut self)
        ensures { self.new ≡ [] }
    {
        self.bytes.clear();
        self.is_cut = false;
    }

    pub fn is_empty(&self) -> bool
        ensures { IsTrue result ↔ (self.now ≡ []) }
    {
        self.bytes.is_empty()
    }

    /// Adds bytes, and takes no memory.
    pub fn push(&mut self, bytes: &[u8])
        ensures { self.new ≡ stored (self.old ++ bytes.now) }
    {
        let room = MOST_STORED_BYTES - self.bytes.len();
        if bytes.len() <= room {
            self.bytes.extend_from_slice(bytes).unwrap();
        } else {
            self.bytes.extend_from_slice(&bytes[..room]).unwrap();
            self.is_cut = true;
        }
    }

    /// The line as it is shown: its first 257 bytes, without the carriage return at its end.
    pub fn shown(&self) -> &[u8]
        ensures { result.now ≡ take 257 (strip_carriage_return self.now) }
    {
        let line = self.bytes.as_slice();
        if self.is_cut {
            line
        } else {
            without_return(line)
        }
    }
}

/// The line without the one carriage return that may stand at its end.
fn without_return(line: &[u8]) -> &[u8]
    ensures { result.now ≡ strip_carriage_return line.now }
{
    match line {
        [front @ .., b'\r'] => front,
        _ => line,
    }
}
