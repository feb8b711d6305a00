//! Writers that keep their writes, and where a command prints.

ghost use Rattle.std.specs.Prelude.{◌≡◌, ◌∷◌, [], IfErr, OnOk};
ghost use Rattle.std.specs.Io.KnownBytes.{Appends, Keeps};
ghost use Rattle.hg_streams.specs.Calls.{flush_call, write_call};

use crate::call::WriteCall;
use hg_model::verdict::Refusal;
use hg_trail::Trail;
use std::io::Write;
use std::marker::Model;

/// A writer, and its writes and flushes so far, which take no memory.
#[derive(Drop)]
pub struct Output<W> {
    stream: W,
    calls: Trail<WriteCall>,
}

impl<W> Model for Output<W> {
    ghost use Rattle.hg_streams.specs.Shown.{Outgoing};

    ghost Value = { Outgoing W };

    ghost view = { λ a. record { stream = a.stream; calls = a.calls } };
}

impl<W> Output<W> {
    /// The writer itself, to look at.
    pub fn stream(&self) -> &W
        ensures { result.now ≡ self.now.stream }
    {
        &self.stream
    }
}

impl<W: Write> Output<W> {
    /// Wraps a writer that was not called yet.
    pub fn new(stream: W) -> Output<W>
        ensures stream { result.stream ≡ stream }
        ensures calls { result.calls ≡ [] }
    {
        Output {
            stream,
            calls: Trail::new(),
        }
    }

    /// Writes all of the text.
    pub fn write(&mut self, text: &[u8]) -> Result<(), Refusal>
        ensures calls { self.new.calls ≡ write_call result text.now ∷ self.old.calls }
        ensures known { OnOk result (Appends (W.contents self.old.stream) (W.contents self.new.stream) text.now) }
        ensures cause { IfErr result (λ r. r ≡ Refusal.DeviceFault) }
    {
        let bytes = Trail::of(text);
        match self.stream.write_all(text) {
            Ok(()) => {
                self.calls.push(WriteCall::Took { bytes });
                Ok(())
            }
            Err(_) => {
                self.calls.push(WriteCall::Torn { bytes });
                Err(Refusal::DeviceFault)
            }
        }
    }

    /// Flushes the stream.
    pub fn flush(&mut self) -> Result<(), Refusal>
        ensures calls { self.new.calls ≡ flush_call result ∷ self.old.calls }
        ensures known { Keeps (W.contents self.old.stream) (W.contents self.new.stream) }
        ensures cause { IfErr result (λ r. r ≡ Refusal.DeviceFault) }
    {
        match self.stream.flush() {
            Ok(()) => {
                self.calls.push(WriteCall::Flushed);
                Ok(())
            }
            Err(_) => {
                self.calls.push(WriteCall::NotFlushed);
                Err(Refusal::DeviceFault)
            }
        }
    }
}

/// Where a command prints.
#[derive(Drop)]
pub struct Outputs<W, V> {
    /// What it was asked for.
    pub output: Output<W>,
    /// The fault that it ended by.
    pub faults: Output<V>,
}
