//! The events of a trace text, offered to a detector over any map of words.

ghost use Rattle.std.specs.Prelude.{◌+◌, ◌<◌, ◌^◌, length, IsTrue};
ghost use Rattle.hg_detect.specs.Engine.{AtPresent};

use hg_cells::words::Words;
use hg_detect::detector::Detector;
use hg_model::event::{Event, Named};
use hg_model::verdict::Refusal;
use hg_wire::line::AccessLine;
use hg_wire::reader::{EventReader, Reading, Taken};

/// How checking a trace text ended.
#[derive(Clone, Copy, Debug, PartialEq, Eq, Drop)]
pub enum Ending {
    /// All events were accepted.
    Ended,
    /// The event of this line was refused.
    Refused { line: u64, refusal: Refusal },
    /// This line was not understood.
    Bad { line: u64 },
}

/// How a turn of a run ended.
#[derive(Clone, Copy, Debug, PartialEq, Eq, Drop)]
pub enum Turn {
    /// As many events were offered as were asked for.
    Over,
    /// No whole line is left.
    AtEnd,
    /// A line ended the run.
    Stopped(Ending),
}

/// What a refusal means: one of the map, or want of memory, is a fault, and any other is the line's.
fn stop(line: u64, refusal: Refusal) -> Result<Option<Ending>, Refusal> {
    match refusal {
        Refusal::Broken
        | Refusal::Damaged
        | Refusal::FullSlots
        | Refusal::DeviceFault
        | Refusal::OutOfMemory => Err(refusal),
        _ => Ok(Some(Ending::Refused { line, refusal })),
    }
}

/// Offers the read or write of a line as the next event of source 0. `None` says that it was accepted.
#[inline(always)]
fn apply_access<W: Words>(
    detector: &mut Detector<W>,
    line: u64,
    found: &AccessLine,
) -> Result<Option<Ending>, Refusal>
    requires lawful { AtPresent W.may_bring detector.old }
    ensures lawful { AtPresent W.may_bring detector.new }
{
    let number = detector.last(0).saturating_add(1);
    match detector.touch(0, number, found.access, found.is_write) {
        Ok(_) => Ok(None),
        Err(refusal) => stop(line, refusal),
    }
}

/// Offers the event of a line as the next event of source 0. `None` says that it was accepted.
#[inline(always)]
fn apply<W: Words>(detector: &mut Detector<W>, reading: &Reading) -> Result<Option<Ending>, Refusal>
    requires lawful { AtPresent W.may_bring detector.old }
    ensures lawful { AtPresent W.may_bring detector.new }
{
    let line = reading.line;
    let Ok(event) = reading.event else {
        return Ok(Some(Ending::Bad { line }));
    };
    let number = detector.last(0).saturating_add(1);
    let named = Named {
        source: 0,
        number,
        event,
    };
    match detector.apply(&named) {
        Ok(_) => Ok(None),
        Err(refusal) => stop(line, refusal),
    }
}

/// Whether the lines of so many bytes more can be counted.
#[inline(always)]
fn can_count(reader: &EventReader, rest: &[u8]) -> bool
    ensures { IsTrue result → reader.now.lines + length rest.now < 2 ^ 64 }
{
    reader.lines().checked_add(rest.len() as u64).is_some()
}

/// Takes the next event of a piece, and offers it. `Over` says that it was accepted. Answers what is left of the piece too.
#[inline(always)]
fn step<'a, W: Words>(
    detector: &mut Detector<W>,
    reader: &mut EventReader,
    rest: &'a [u8],
) -> Result<(Turn, &'a [u8]), Refusal>
    requires lawful { AtPresent W.may_bring detector.old }
    ensures lawful { AtPresent W.may_bring detector.new }
{
    if !can_count(reader, rest) {
        return Err(Refusal::OutOfMemory);
    }
    if let Some(found) = reader.take_access(rest) {
        let left = &rest[found.used..];
        return match apply_access(detector, reader.lines(), &found)? {
            None => Ok((Turn::Over, left)),
            Some(end) => Ok((Turn::Stopped(end), left)),
        };
    }
    match reader.take(rest) {
        Taken::More => Ok((Turn::AtEnd, rest)),
        Taken::Line { reading, used } => {
            let left = &rest[used..];
            match apply(detector, &reading)? {
                None => Ok((Turn::Over, left)),
                Some(end) => Ok((Turn::Stopped(end), left)),
            }
        }
    }
}

/// Offers at most so many events of a piece, up to the first that is not accepted. Answers what is left of the piece too.
pub fn run<'a, W: Words>(
    detector: &mut Detector<W>,
    reader: &mut EventReader,
    piece: &'a [u8],
    most: u64,
) -> Result<(Turn, &'a [u8]), Refusal>
    requires lawful { AtPresent W.may_bring detector.old }
    ensures lawful { AtPresent W.may_bring detector.new }
{
    let mut rest = piece;
    for _ in 0..most {
        let (turn, left) = step(detector, reader, rest)?;
        rest = left;
        if turn != Turn::Over {
            return Ok((turn, rest));
        }
    }
    Ok((Turn::Over, rest))
}

/// Offers the event of the last line, which may lack its line feed.
pub fn finish<W: Words>(reader: EventReader, detector: &mut Detector<W>) -> Result<Ending, Refusal>
    requires lawful { AtPresent W.may_bring detector.old }
{
    if !can_count(&reader, b"\n") {
        return Err(Refusal::OutOfMemory);
    }
    let Some(reading) = reader.finish() else {
        return Ok(Ending::Ended);
    };
    match apply(detector, &reading)? {
        None => Ok(Ending::Ended),
        Some(end) => Ok(end),
    }
}
