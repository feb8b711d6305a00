//! Text that is written piece by piece.

use crate::digits::digit;
use itoa::Buffer;
use std::alloc::Global;
use std::io::{ErrorKind, Result, Write};

/// A list with room for so many items where there is memory for it: what fits into it takes none later.
pub fn roomy<T: Copy>(alloc: Global, most: usize) -> Vec<T> {
    match Vec::with_capacity(alloc, most) {
        Ok(list) => list,
        Err(_) => Vec::new(alloc),
    }
}

/// A text that is written piece by piece. Where memory is refused for one, that is noted, and nobody need ask before the end.
#[derive(Drop)]
pub struct Text {
    bytes: Vec<u8>,
    is_whole: bool,
}

impl Text {
    /// No text.
    pub fn new(alloc: Global) -> Text {
        Text {
            bytes: Vec::new(alloc),
            is_whole: true,
        }
    }

    /// No text, with room for so many bytes where there is memory for it.
    pub fn with_room(alloc: Global, most: usize) -> Text {
        Text {
            bytes: roomy(alloc, most),
            is_whole: true,
        }
    }

    /// No text again, in the memory that there is.
    pub fn clear(&mut self) {
        self.bytes.clear();
        self.is_whole = true;
    }

    /// The text so far.
    pub fn bytes(&self) -> &[u8] {
        &self.bytes
    }

    /// Whether no piece is missing.
    pub fn is_whole(&self) -> bool {
        self.is_whole
    }

    /// The text so far, for what appends to it by itself. Where that was refused memory, `note_missing` says so.
    pub fn bytes_mut(&mut self) -> &mut Vec<u8> {
        &mut self.bytes
    }

    /// Notes that a piece is missing.
    pub fn note_missing(&mut self) {
        self.is_whole = false;
    }

    /// Appends a piece.
    pub fn put(&mut self, piece: &[u8]) {
        if self.bytes.extend_from_slice(piece).is_err() {
            self.is_whole = false;
        }
    }

    /// Appends a number in decimal.
    pub fn put_decimal(&mut self, number: u64) {
        let mut buffer = Buffer::new();
        self.put(buffer.format(number).as_bytes());
    }

    /// Appends words, and a number behind them.
    pub fn put_number(&mut self, words: &[u8], number: u64) {
        self.put(words);
        self.put_decimal(number);
    }

    /// Appends bytes as pairs of digits, with small letters.
    pub fn put_hex(&mut self, bytes: &[u8]) {
        for byte in bytes {
            self.put(&[digit(*byte / 16, b'a'), digit(*byte % 16, b'a')]);
        }
    }

    /// Writes the text. Where a piece is missing nothing is written, and want of memory is told.
    pub fn print<W: Write>(&self, output: &mut W) -> Result<()> {
        if !self.is_whole {
            return Err(ErrorKind::OutOfMemory.into());
        }
        output.write_all(&self.bytes)?;
        output.flush()
    }
}
