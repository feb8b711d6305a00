//! The lines of a piece.

ghost use Rattle.std.specs.Prelude.{◌≡◌, ◌+◌, ◌<◌, ◌^◌, Ok, None, length};
ghost use Rattle.hg_reading.specs.Taking.{HasNoneLeft, Offers};

use crate::sink::Sink;
use hg_model::verdict::Refusal;
use hg_streams::output::Output;
use hg_wire::reader::{EventReader, Taken};

/// Takes a piece of a trace text, and offers its lines up to the first that is not passed. Each is parsed where it is offered. `None` says
/// that each was passed, and that the piece was taken whole.
#[inline(always)]
pub(crate) fn push_alone<W, S: Sink<W>>(
    reader: &mut EventReader,
    sink: &mut S,
    piece: &[u8],
    output: &mut Output<W>,
) -> Result<Option<S::End>, Refusal>
    requires lines { reader.old.lines + length piece.now < 2 ^ 64 }
    requires room { S.may_take sink.old (length piece.now) }
    ensures pushes { Offers S.takes reader.old sink.old output.old piece.now result reader.new sink.new output.new }
    ensures none_left { result ≡ Ok None → HasNoneLeft reader.new }
{
    let mut rest = piece;
    loop {
        if let Some(found) = reader.take_access(rest) {
            rest = &rest[found.used..];
            if let Some(end) = sink.offer_access(reader.lines(), &found, output)? {
                return Ok(Some(end));
            }
            continue;
        }
        if let Some(held) = reader.take_hold(rest) {
            rest = &rest[held.used..];
            if let Some(end) = sink.offer_hold(reader.lines(), held.hold, output)? {
                return Ok(Some(end));
            }
            continue;
        }
        let Taken::Line { reading, used } = reader.take(rest) else {
            return Ok(None);
        };
        rest = &rest[used..];
        if let Some(end) = sink.offer(&reading, output)? {
            return Ok(Some(end));
        }
    }
}
