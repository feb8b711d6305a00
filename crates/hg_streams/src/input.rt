//! Readers that keep their reads.

ghost use Rattle.std.specs.Prelude.{◌≡◌, ◌+◌, ◌<◌, ◌≤◌, ◌∷◌, [], length, IfOk, IfErr, IfSome, OnErr};
ghost use Rattle.std.specs.declared.io.ErrorKind.{ErrorKind as ErrorKindOf};
ghost use Rattle.hg_streams.specs.declared.call.ReadCall.TheVariants.{Erred};
ghost use Rattle.hg_streams.specs.Calls.{as_got, as_read, failed_reads, got_call, read_call, refused_reads};
ghost use Rattle.hg_streams.specs.Faults.{IsStreamFault};
ghost use Rattle.hg_streams.specs.Shown.{ReadsFrom};
ghost use Rattle.hg_streams.specs.Told.{lacked, told};

use crate::call::ReadCall;
use hg_model::verdict::Refusal;
use hg_trail::Trail;
use std::io::{ErrorKind, Read};
use std::marker::Model;

/// A reader, and its reads so far, which take no memory.
#[derive(Drop)]
pub struct Input<R> {
    stream: R,
    calls: Trail<ReadCall>,
}

impl<R> Model for Input<R> {
    ghost use Rattle.hg_streams.specs.Shown.{Incoming};

    ghost Value = { Incoming R };

    ghost view = { λ a. record { stream = a.stream; calls = a.calls } };
}

impl<R> Input<R> {
    /// The reader itself, to look at.
    pub fn stream(&self) -> &R
        ensures { result.now ≡ self.now.stream }
    {
        &self.stream
    }

    /// The reader itself, back again.
    pub fn into_stream(self) -> R
        ensures { result ≡ self.stream }
    {
        let Input { stream, calls: _ } = self;
        stream
    }
}

impl<R: Read> Input<R> {
    /// Wraps a reader that was not called yet.
    pub fn new(stream: R) -> Input<R>
        ensures stream { result.stream ≡ stream }
        ensures calls { result.calls ≡ [] }
    {
        Input {
            stream,
            calls: Trail::new(),
        }
    }

    /// Reads once, and answers what the reader said.
    fn ask(&mut self, buffer: &mut [u8]) -> Result<usize, ErrorKind>
        requires room { 0 < length buffer.old }
        ensures calls { self.new.calls ≡ read_call result buffer.new ∷ self.old.calls }
        ensures within { IfOk result (λ n. n ≤ length buffer.new) }
        ensures known { ReadsFrom R.remaining self.old self.new (as_read result) buffer.new }
    {
        match self.stream.read(buffer) {
            Ok(count) => {
                self.calls.push(ReadCall::Gave {
                    bytes: Trail::of(&buffer[..count]),
                });
                Ok(count)
            }
            Err(error) => {
                let kind = error.kind();
                self.calls.push(ReadCall::Erred { kind });
                Err(kind)
            }
        }
    }

    /// Reads once. `None` says that the read was interrupted. `OutOfMemory` says that the reader was refused memory, by the kind of its
    /// error, and `DeviceFault` that it failed otherwise.
    pub fn read(&mut self, buffer: &mut [u8]) -> Result<Option<usize>, Refusal>
        requires room { 0 < length buffer.old }
        ensures calls { IfOk result (λ count. self.new.calls ≡ got_call count buffer.new ∷ self.old.calls) }
        ensures failed { OnErr result ((kind : ErrorKindOf) × (self.new.calls ≡ Erred kind ∷ self.old.calls)) }
        ensures within { IfOk result (λ count. IfSome count (λ n. n ≤ length buffer.new)) }
        ensures known { ReadsFrom R.remaining self.old self.new (as_got result) buffer.new }
        ensures cause { IfErr result IsStreamFault }
        ensures fault { failed_reads self.new.calls ≡ told result + failed_reads self.old.calls }
        ensures memory { refused_reads self.new.calls ≡ lacked result + refused_reads self.old.calls }
        ensures counted { length self.new.calls ≡ 1 + length self.old.calls }
    {
        match self.ask(buffer) {
            Ok(count) => Ok(Some(count)),
            Err(ErrorKind::Interrupted) => Ok(None),
            Err(ErrorKind::OutOfMemory) => Err(Refusal::OutOfMemory),
            Err(_) => Err(Refusal::DeviceFault),
        }
    }
}
