//! A whole trace text.

ghost use Rattle.std.specs.Prelude.{◌≡◌, ◌+◌, ◌*◌, ◌<◌, ◌≤◌, ◌^◌, [], Ok, None, IfErr, IfOk, length};
ghost use Rattle.hg_wire.specs.Streams.{at_start, readings_from};
ghost use Rattle.hg_reading.specs.Taking.{HasNoneLeft, Offers, Reads};

use crate::groups::read_groups;
use crate::pieces::push_alone;
use crate::side_by_side::side_by_side;
use crate::sink::{QueueSink, Sink};
use hg_model::verdict::Refusal;
use hg_streams::input::Input;
use hg_streams::output::Output;
use hg_streams::streams::{MOST_READS, PIECE_BYTES};
use hg_wire::reader::EventReader;
use std::alloc::Global;
use std::io::Read;
use std::marker::Sync;
use std::thread::Threads;

/// How many bytes are read at once where several threads parse them.
const LARGE_PIECE: usize = 2_097_152;

/// A reader, and the buffer for a piece.
#[derive(Drop)]
pub(crate) struct Intake {
    pub(crate) reader: EventReader,
    pub(crate) buffer: Vec<u8>,
}

impl Intake {
    /// At the start of a trace text, with room for so many bytes.
    fn new(alloc: Global, size: usize) -> Result<Intake, Refusal>
        ensures start { IfOk result (λ intake. intake.reader ≡ at_start) }
        ensures size { IfOk result (λ intake. length intake.buffer.items ≡ size) }
        ensures cause { IfErr result (λ r. r ≡ Refusal.OutOfMemory) }
    {
        Ok(Intake {
            reader: EventReader::new(alloc)?,
            buffer: vec![in alloc; 0; size]?,
        })
    }
}

/// Offers the lines of a piece. Where each was passed, the sink settles.
#[inline(always)]
pub(crate) fn take_piece<W, S: Sink<W>>(
    reader: &mut EventReader,
    sink: &mut S,
    piece: &[u8],
    output: &mut Output<W>,
) -> Result<Option<S::End>, Refusal>
    requires lines { reader.old.lines + length piece.now < 2 ^ 64 }
    requires room { S.may_take sink.old (length piece.now) }
    ensures pushes { Offers S.takes reader.old sink.old output.old piece.now result reader.new sink.new output.new }
    ensures none_left { result ≡ Ok None → HasNoneLeft reader.new }
    ensures settled { result ≡ Ok None → S.settled sink.new }
{
    match push_alone(reader, sink, piece, output)? {
        Some(end) => Ok(Some(end)),
        None => sink.settle(output),
    }
}

/// Offers the last line, if one lacks its line feed. Where it was passed, the sink settles.
pub(crate) fn finish<W, S: Sink<W>>(
    reader: EventReader,
    sink: &mut S,
    output: &mut Output<W>,
) -> Result<Option<S::End>, Refusal>
    requires lines { reader.lines + 1 < 2 ^ 64 }
    requires room { S.may_take sink.old 1 }
    requires settled { S.settled sink.old }
    ensures takes { S.takes sink.old output.old.calls (readings_from reader []) result sink.new output.new.calls }
    ensures settled { result ≡ Ok None → S.settled sink.new }
{
    let Some(reading) = reader.finish() else {
        return Ok(None);
    };
    if let Some(end) = sink.offer(&reading, output)? {
        return Ok(Some(end));
    }
    sink.settle(output)
}

/// Reads a trace text, and offers its lines to the sink, which settles after each piece and behind the last line. Once the sink says that a
/// line ended the run, nothing more is offered or read. `None` says that the input came to its end, and that all its lines are judged.
pub fn read<R: Read, W, S: Sink<W>>(
    alloc: Global,
    input: &mut Input<R>,
    sink: &mut S,
    output: &mut Output<W>,
) -> Result<Option<S::End>, Refusal>
    requires room { S.may_take sink.old (2 ^ 48) }
    requires settled { S.settled sink.old }
    ensures { Reads S.takes S.settled input.old.calls input.new.calls
        sink.old output.old.calls result sink.new output.new.calls }
{
    let intake = Intake::new(alloc, PIECE_BYTES)?;
    read_pieces(intake, input, sink, output)
}

/// As `read`, but up to `jobs` threads parse the lines, the calling one among them. What the sink takes does not depend on their number.
pub fn read_side_by_side<T: Threads + Sync, R: Read, W, S: QueueSink<W>>(
    rt: &T,
    jobs: usize,
    alloc: Global,
    input: &mut Input<R>,
    sink: &mut S,
    output: &mut Output<W>,
) -> Result<Option<S::End>, Refusal>
    requires room { S.may_take sink.old (2 ^ 54) }
    requires settled { S.settled sink.old }
    ensures { Reads S.takes S.settled input.old.calls input.new.calls
        sink.old output.old.calls result sink.new output.new.calls }
{
    if jobs < 2 {
        return read(alloc, input, sink, output);
    }
    let mut pieces = side_by_side::<T, W, S>(rt, jobs, alloc, sink)?;
    let intake = Intake::new(alloc, LARGE_PIECE)?;
    read_groups(&mut pieces, intake, input, sink, output)
}

/// Reads a trace text in pieces of at most the size of the buffer.
#[inline(always)]
fn read_pieces<R: Read, W, S: Sink<W>>(
    intake: Intake,
    input: &mut Input<R>,
    sink: &mut S,
    output: &mut Output<W>,
) -> Result<Option<S::End>, Refusal>
    requires start { intake.reader ≡ at_start }
    requires size { (0 < length intake.buffer.items) × (length intake.buffer.items ≤ 2 ^ 22) }
    requires room { S.may_take sink.old (length intake.buffer.items * 2 ^ 32) }
    requires settled { S.settled sink.old }
    ensures { Reads S.takes S.settled input.old.calls input.new.calls
        sink.old output.old.calls result sink.new output.new.calls }
{
    let Intake {
        mut reader,
        mut buffer,
    } = intake;
    let bytes = buffer.as_mut_slice();
    let mut reads = 0;
    while reads < MOST_READS {
        reads += 1;
        let Some(count) = input.read(bytes)? else {
            continue;
        };
        if count == 0 {
            return finish(reader, sink, output);
        }
        if let Some(end) = take_piece(&mut reader, sink, &bytes[..count], output)? {
            return Ok(Some(end));
        }
    }
    Err(Refusal::DeviceFault)
}
