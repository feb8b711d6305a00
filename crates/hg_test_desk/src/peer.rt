//! A connection in memory.

use hg_test_kit::text::Text;
use std::io;
use std::io::{Read, Write};
use std::sync::{Mutex, Wait};

/// How many bytes one read gives at most. A Hello and an Event have more.
const PIECE: usize = 4;

/// A client that sends these bytes, in pieces, and then ends. What it is answered is written down in hexadecimal.
#[derive(Drop)]
pub struct Peer<'a, R> {
    pub rt: &'a R,
    pub rest: &'a [u8],
    pub answers: &'a Mutex<Text>,
}

impl<'a, R> Read for Peer<'a, R> {
    fn read(&mut self, buf: &mut [u8]) -> io::Result<usize> {
        let rest = self.rest;
        let count = rest.len().min(buf.len()).min(PIECE);
        buf[..count].copy_from_slice(&rest[..count]);
        self.rest = &rest[count..];
        Ok(count)
    }
}

impl<'a, R: Wait> Write for Peer<'a, R> {
    fn write(&mut self, buf: &[u8]) -> io::Result<usize> {
        self.answers.lock(self.rt).put_hex(buf);
        Ok(buf.len())
    }

    fn flush(&mut self) -> io::Result<()> {
        Ok(())
    }
}
