//! A whole trace text, its lines parsed by several threads.

ghost use Rattle.std.specs.Prelude.{◌≡◌, ◌+◌, ◌*◌, ◌<◌, ◌≤◌, ◌^◌, Ok, None, length};
ghost use Rattle.hg_wire.specs.Streams.{at_start};
ghost use Rattle.hg_reading.specs.Taking.{HasNoneLeft, Offers, Reads};

use crate::side_by_side::{SideBySide, push_side_by_side};
use crate::sink::QueueSink;
use crate::whole::{Intake, finish};
use hg_model::verdict::Refusal;
use hg_streams::input::Input;
use hg_streams::output::Output;
use hg_streams::streams::MOST_READS;
use hg_wire::reader::EventReader;
use std::io::Read;
use std::marker::Sync;
use std::thread::Threads;

/// Offers the lines of a piece, parsed by several threads. Where each was passed, the sink settles.
fn take_group<T: Threads + Sync, W, S: QueueSink<W>>(
    pieces: &mut SideBySide<'_, T, S::Queue>,
    reader: &mut EventReader,
    sink: &mut S,
    piece: &[u8],
    output: &mut Output<W>,
) -> Result<Option<S::End>, Refusal>
    requires lines { reader.old.lines + length piece.now < 2 ^ 64 }
    requires room { S.may_take sink.old (length piece.now) }
    ensures pushes { Offers S.takes reader.old sink.old output.old piece.now result reader.new sink.new output.new }
    ensures none_left { result ≡ Ok None → HasNoneLeft reader.new }
    ensures settled { result ≡ Ok None → S.settled sink.new }
{
    match push_side_by_side(pieces, reader, sink, piece, output)? {
        Some(end) => Ok(Some(end)),
        None => sink.settle(output),
    }
}

/// Reads a trace text in pieces of at most the size of the buffer, parsed by several threads.
pub(crate) fn read_groups<T: Threads + Sync, R: Read, W, S: QueueSink<W>>(
    pieces: &mut SideBySide<'_, T, S::Queue>,
    intake: Intake,
    input: &mut Input<R>,
    sink: &mut S,
    output: &mut Output<W>,
) -> Result<Option<S::End>, Refusal>
    requires start { intake.reader ≡ at_start }
    requires size { (0 < length intake.buffer.items) × (length intake.buffer.items ≤ 2 ^ 22) }
    requires room { S.may_take sink.old (length intake.buffer.items * 2 ^ 32) }
    requires settled { S.settled sink.old }
    ensures { Reads S.takes S.settled input.old.calls input.new.calls
        sink.old output.old.calls result sink.new output.new.calls }
{
    let Intake {
        mut reader,
        mut buffer,
    } = intake;
    let bytes = buffer.as_mut_slice();
    let mut reads = 0;
    while reads < MOST_READS {
        reads += 1;
        let Some(count) = input.read(bytes)? else {
            continue;
        };
        if count == 0 {
            return finish(reader, sink, output);
        }
        if let Some(end) = take_group(pieces, &mut reader, sink, &bytes[..count], output)? {
            return Ok(Some(end));
        }
    }
    Err(Refusal::DeviceFault)
}
