//! A whole input in memory: read to its end, and its lines offered to a sink.

ghost use Rattle.std.specs.Prelude.{◌≡◌, ◌+◌, ◌<◌, length, IfErr, IfOk};
ghost use Rattle.hg_wire.specs.Streams.{at_start};
ghost use Rattle.hg_reading.specs.Whole.{CantKeep, IsKept, TakesText};

use crate::sink::Sink;
use crate::whole::{finish, take_piece};
use hg_model::verdict::Refusal;
use hg_streams::input::Input;
use hg_streams::output::Output;
use hg_streams::streams::{MOST_READS, PIECE_BYTES};
use hg_wire::reader::EventReader;
use std::alloc::Global;
use std::io::Read;

/// Room for so many bytes.
fn room(alloc: Global, size: usize) -> Result<Vec<u8>, Refusal>
    ensures size { IfOk result (λ bytes. length bytes.items ≡ size) }
    ensures cause { IfErr result (λ r. r ≡ Refusal.OutOfMemory) }
{
    Ok(vec![in alloc; 0; size]?)
}

/// Reads an input to its end, in pieces of at most the size of the buffer, and keeps its bytes.
fn keep_pieces<R: Read>(
    alloc: Global,
    piece: &mut [u8],
    input: &mut Input<R>,
) -> Result<Vec<u8>, Refusal>
    requires size { 0 < length piece.old }
    ensures kept { IfOk result (λ bytes. IsKept input.old.calls input.new.calls bytes.items) }
    ensures cause { IfErr result (CantKeep input.old.calls input.new.calls) }
{
    let mut kept = Vec::new(alloc);
    let mut reads = 0;
    while reads < MOST_READS {
        reads += 1;
        let Some(count) = input.read(piece)? else {
            continue;
        };
        if count == 0 {
            return Ok(kept);
        }
        if kept.extend_from_slice(&piece[..count]).is_err() {
            return Err(Refusal::OutOfMemory);
        }
    }
    Err(Refusal::DeviceFault)
}

/// Reads an input to its end, and keeps its bytes. `DeviceFault` says that a read failed or that 2^32 were made, and `OutOfMemory` that
/// memory was refused.
pub fn keep<R: Read>(alloc: Global, input: &mut Input<R>) -> Result<Vec<u8>, Refusal>
    ensures kept { IfOk result (λ bytes. IsKept input.old.calls input.new.calls bytes.items) }
    ensures cause { IfErr result (CantKeep input.old.calls input.new.calls) }
{
    let mut buffer = room(alloc, PIECE_BYTES)?;
    keep_pieces(alloc, buffer.as_mut_slice(), input)
}

/// Offers the lines of a whole text to the sink, which settles behind those that a line feed ends, and behind the last one where it lacks
/// its line feed. Once the sink says that a line ended the run, nothing more is offered. `None` says that all lines are judged, and that
/// each was passed.
pub fn offer_text<W, S: Sink<W>>(
    reader: EventReader,
    text: &[u8],
    sink: &mut S,
    output: &mut Output<W>,
) -> Result<Option<S::End>, Refusal>
    requires start { reader ≡ at_start }
    requires room { S.may_take sink.old (length text.now + 1) }
    ensures { TakesText S.takes S.settled text.now sink.old output.old.calls result sink.new output.new.calls }
{
    let mut reader = reader;
    if let Some(end) = take_piece(&mut reader, sink, text, output)? {
        return Ok(Some(end));
    }
    finish(reader, sink, output)
}
