//! Connections that keep what was read and written.

ghost use Rattle.std.specs.Prelude.{◌≡◌, ◌≤◌, ◌∷◌, [], length, IfOk};
ghost use Rattle.hg_streams.specs.Calls.{read_call, write_call};

use crate::listening::Connection;
use hg_streams::call::{ReadCall, WriteCall};
use hg_trail::Trail;
use std::io;
use std::io::{Error, ErrorKind, Read, Write};

/// What was read and written on a connection, the newest call first, which contracts alone see. Nothing but the close of a connection makes one.
#[derive(Drop)]
pub struct Transcript {
    reads: Trail<ReadCall>,
    writes: Trail<WriteCall>,
}

/// A connection, and its reads and writes so far, which take no memory.
#[derive(Drop)]
pub(crate) struct Wire<S> {
    stream: S,
    reads: Trail<ReadCall>,
    writes: Trail<WriteCall>,
}

/// A connection that waits for its conversation. It is wrapped where it is accepted: nothing reads it or writes to it from then on until the
/// conversation opens it.
#[derive(Drop)]
pub struct Guest<S> {
    wire: Wire<S>,
    ghost unread: { wire.reads ≡ [] },
    ghost unwritten: { wire.writes ≡ [] },
}

impl<S> Guest<S> {
    /// Wraps a connection.
    pub fn new(stream: S) -> Guest<S> {
        Guest {
            wire: Wire {
                stream,
                reads: Trail::new(),
                writes: Trail::new(),
            },
        }
    }

    /// The connection, which its conversation reads and writes. It was not read or written yet.
    pub(crate) fn open(self) -> Wire<S>
        ensures reads { result.reads ≡ [] }
        ensures writes { result.writes ≡ [] }
    {
        let Guest { wire } = self;
        wire
    }
}

impl Guest<Connection> {
    /// Makes it ready for a worker.
    pub(crate) fn prepare(&self) -> io::Result<()> {
        self.wire.stream.prepare()
    }
}

impl<S: Drop> Wire<S> {
    /// Closes the connection. Gives what was read and written on it.
    pub(crate) fn close(self) -> Transcript
        ensures reads { result.reads ≡ self.reads }
        ensures writes { result.writes ≡ self.writes }
    {
        let Wire {
            stream: _,
            reads,
            writes,
        } = self;
        Transcript { reads, writes }
    }
}

impl<S: Read> Wire<S> {
    /// Reads once.
    pub(crate) fn read(&mut self, buffer: &mut [u8]) -> Result<usize, ErrorKind>
        ensures reads { self.new.reads ≡ read_call result buffer.new ∷ self.old.reads }
        ensures writes { self.new.writes ≡ self.old.writes }
        ensures within { IfOk result (λ n. n ≤ length buffer.new) }
    {
        match self.stream.read(buffer) {
            Ok(count) => {
                self.reads.push(ReadCall::Gave {
                    bytes: Trail::of(&buffer[..count]),
                });
                Ok(count)
            }
            Err(error) => {
                let kind = error.kind();
                self.reads.push(ReadCall::Erred { kind });
                Err(kind)
            }
        }
    }
}

impl<S: Write> Wire<S> {
    /// Writes all of the text.
    pub(crate) fn write(&mut self, text: &[u8]) -> Result<(), Error>
        ensures reads { self.new.reads ≡ self.old.reads }
        ensures writes { self.new.writes ≡ write_call result text.now ∷ self.old.writes }
    {
        let bytes = Trail::of(text);
        match self.stream.write_all(text) {
            Ok(()) => {
                self.writes.push(WriteCall::Took { bytes });
                Ok(())
            }
            Err(error) => {
                self.writes.push(WriteCall::Torn { bytes });
                Err(error)
            }
        }
    }
}
