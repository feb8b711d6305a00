//! The lines of a piece, parsed by several threads while those in front of them are offered.

ghost use Rattle.std.specs.Prelude.{◌≡◌, ◌+◌, ◌++◌, ◌<◌, ◌≤◌, ◌^◌, Ok, None, length};
ghost use denote.Param.Send.{IsSend, IsSync};
ghost use Rattle.hg_reading.specs.Queueing.{AreHeld, Holds, HoldsAlone};
ghost use Rattle.hg_reading.specs.Taking.{HasNoneLeft, Offers};

use crate::part::Part;
use crate::pieces::push_alone;
use crate::queue::Queue;
use crate::sink::QueueSink;
use hg_model::verdict::Refusal;
use hg_streams::output::Output;
use hg_wire::cuts::last_line_end;
use hg_wire::reader::EventReader;
use std::alloc::{AllocError, Global};
use std::marker::Sync;
use std::thread::{Threads, join_mut};

/// A piece of fewer bytes is parsed where it is offered: threads would cost more than they save.
const FEW: usize = 262_144;

/// So many bytes of a piece are parsed here, while other threads parse those behind them.
const FIRST: usize = 65_536;

/// At most so many bytes are parsed while others are offered, and held until their turn comes.
const GROUP: usize = 1_048_576;

/// Parts have room for a line in so many bytes. Where lines are shorter, the rest of a text is parsed where it is offered.
const BYTES_A_LINE: usize = 8;

/// More threads than so many would wait for the one that offers.
const MOST_JOBS: usize = 16;

/// Pieces are parsed by threads, as many at a time as half of the parts.
#[derive(Drop)]
pub(crate) struct SideBySide<'a, T, Q> {
    rt: &'a T,
    parts: Vec<Part<Q>>,
}

/// Pieces for `jobs` threads at once, the sink's among them.
pub(crate) fn side_by_side<'a, T: Threads + Sync, W, S: QueueSink<W>>(
    rt: &'a T,
    jobs: usize,
    alloc: Global,
    sink: &S,
) -> Result<SideBySide<'a, T, S::Queue>, AllocError> {
    let at_once = jobs.clamp(2, MOST_JOBS) - 1;
    let mut parts = Vec::new(alloc);
    for _ in 0..2 * at_once {
        let queue = sink.new_queue(alloc, GROUP / BYTES_A_LINE / at_once)?;
        parts.push(Part::new(alloc, queue)?)?;
    }
    Ok(SideBySide { rt, parts })
}

/// Takes a piece of a trace text, its lines parsed by several threads.
pub(crate) fn push_side_by_side<T: Threads + Sync, W, S: QueueSink<W>>(
    pieces: &mut SideBySide<'_, T, S::Queue>,
    reader: &mut EventReader,
    sink: &mut S,
    piece: &[u8],
    output: &mut Output<W>,
) -> Result<Option<S::End>, Refusal>
    requires lines { reader.old.lines + length piece.now < 2 ^ 64 }
    requires room { S.may_take sink.old (length piece.now) }
    ensures pushes { Offers S.takes reader.old sink.old output.old piece.now result reader.new sink.new output.new }
    ensures none_left { result ≡ Ok None → HasNoneLeft reader.new }
{
    let parts = pieces.parts.as_mut_slice();
    if piece.len() < FEW || parts.len() < 2 {
        return push_alone(reader, sink, piece, output);
    }
    let (lines, last) = piece.split_at(last_line_end(piece));
    if let Some(end) = offer_lines(pieces.rt, lines, reader, sink, output, parts)? {
        return Ok(Some(end));
    }
    push_alone(reader, sink, last, output)
}

/// What is offered in a turn, and what is parsed meanwhile.
#[derive(Drop)]
struct Turn<'t, Q> {
    /// The text that is offered.
    due: &'t [u8],
    /// What was parsed of it: its first lines, or none.
    parts: &'t [Part<Q>],
    /// The text that is parsed meanwhile.
    upcoming: &'t [u8],
}

/// What is left of a text.
#[derive(Clone, Copy, Drop)]
struct Left<'t> {
    /// What is offered next.
    due: &'t [u8],
    /// What comes behind it.
    rest: &'t [u8],
}

/// Offers the lines of a text. The first of them are parsed where they are offered, the others by other threads meanwhile.
fn offer_lines<T: Threads + Sync, W, S: QueueSink<W>>(
    rt: &T,
    text: &[u8],
    reader: &mut EventReader,
    sink: &mut S,
    output: &mut Output<W>,
    parts: &mut [Part<S::Queue>],
) -> Result<Option<S::End>, Refusal>
    requires lines { reader.old.lines + length text.now < 2 ^ 64 }
    requires room { S.may_take sink.old (length text.now) }
    ensures { Offers S.takes reader.old sink.old output.old text.now result reader.new sink.new output.new }
{
    let half = parts.len() / 2;
    let (now, next) = parts.split_at_mut(half);
    let (first, rest) = text.split_at(lines_within(text, FIRST));
    let (due, rest) = rest.split_at(lines_within(rest, group_behind(first, half)));
    let turn = Turn {
        due: first,
        parts: &[],
        upcoming: due,
    };
    if let Some(end) = offer_beside(rt, turn, reader, sink, output, now)? {
        return Ok(Some(end));
    }
    let left = Left { due, rest };
    offer_groups(rt, left, reader, sink, output, now, next)
}

/// How many bytes of a text come next: all, if there are at most `most`; else up to the last line feed of the first `most`, or `most`
/// without one.
fn lines_within(text: &[u8], most: usize) -> usize
    requires { 0 < most }
    ensures within { result ≤ length text.now }
    ensures some { 0 < length text.now → 0 < result }
{
    if text.len() <= most {
        return text.len();
    }
    match last_line_end(&text[..most]) {
        0 => most,
        end => end,
    }
}

/// How many bytes `threads` threads parse while `offered` is offered: more than it has, since parsing is faster than offering.
fn group_behind(offered: &[u8], threads: usize) -> usize
    ensures { 0 < result }
{
    let more = (offered.len() / 2).saturating_mul(threads);
    offered.len().saturating_add(more).clamp(FIRST, GROUP)
}

/// Offers the rest of a text by turns. The parts `now` hold the text that is due. While they are offered, threads fill the parts `next`;
/// then the two halves change places.
fn offer_groups<T: Threads + Sync, W, S: QueueSink<W>>(
    rt: &T,
    left: Left<'_>,
    reader: &mut EventReader,
    sink: &mut S,
    output: &mut Output<W>,
    now: &mut [Part<S::Queue>],
    next: &mut [Part<S::Queue>],
) -> Result<Option<S::End>, Refusal>
    requires held { AreHeld S.Queue.held now.old left.due.now }
    requires lines { reader.old.lines + (length left.due.now + length left.rest.now) < 2 ^ 64 }
    requires room { S.may_take sink.old (length left.due.now + length left.rest.now) }
    ensures { Offers S.takes reader.old sink.old output.old (left.entry.due.now ++ left.entry.rest.now) result
        reader.new sink.new output.new }
{
    let Left { due, rest } = left;
    if rest.is_empty() {
        return offer_parts(now, due, reader, sink, output);
    }
    let (upcoming, rest) = rest.split_at(lines_within(rest, group_behind(due, next.len())));
    let turn = Turn {
        due,
        parts: now,
        upcoming,
    };
    if let Some(end) = offer_beside(rt, turn, reader, sink, output, next)? {
        return Ok(Some(end));
    }
    let left = Left {
        due: upcoming,
        rest,
    };
    offer_groups(rt, left, reader, sink, output, next, now)
}

/// Offers the text that is due in a turn. Meanwhile each part of `next` is filled by a thread of its own.
#[cycle(beside)]
fn offer_beside<T: Threads + Sync, W, S: QueueSink<W>>(
    rt: &T,
    turn: Turn<'_, S::Queue>,
    reader: &mut EventReader,
    sink: &mut S,
    output: &mut Output<W>,
    next: &mut [Part<S::Queue>],
) -> Result<Option<S::End>, Refusal>
    requires held { AreHeld S.Queue.held turn.parts.now turn.due.now }
    requires lines { reader.old.lines + length turn.due.now < 2 ^ 64 }
    requires room { S.may_take sink.old (length turn.due.now) }
    ensures pushes { Offers S.takes reader.old sink.old output.old turn.entry.due.now result
        reader.new sink.new output.new }
    ensures held { AreHeld S.Queue.held next.new turn.entry.upcoming.now }
{
    if next.is_empty() {
        return offer_parts(turn.parts, turn.due, reader, sink, output);
    }
    let threads = next.len();
    let (part, others) = next.split_at_mut(1);
    offer_beside_one(rt, turn, threads, reader, sink, output, part, others)
}

/// As `offer_beside`, with the first of the parts by itself. `threads` threads share what is parsed.
#[cycle(beside)]
fn offer_beside_one<T: Threads + Sync, W, S: QueueSink<W>>(
    rt: &T,
    turn: Turn<'_, S::Queue>,
    threads: usize,
    reader: &mut EventReader,
    sink: &mut S,
    output: &mut Output<W>,
    part: &mut [Part<S::Queue>],
    others: &mut [Part<S::Queue>],
) -> Result<Option<S::End>, Refusal>
    requires threads { 0 < threads }
    requires one { length part.old ≡ 1 }
    requires held { AreHeld S.Queue.held turn.parts.now turn.due.now }
    requires lines { reader.old.lines + length turn.due.now < 2 ^ 64 }
    requires room { S.may_take sink.old (length turn.due.now) }
    ensures pushes { Offers S.takes reader.old sink.old output.old turn.entry.due.now result
        reader.new sink.new output.new }
    ensures held { AreHeld S.Queue.held (part.new ++ others.new) turn.entry.upcoming.now }
{
    let Turn {
        due,
        parts,
        upcoming,
    } = turn;
    let (mine, theirs) = upcoming.split_at(share(upcoming, threads));
    let (_, answer) = join_mut(
        rt,
        &mut ||
            requires { length part.now ≡ 1 }
            ensures { HoldsAlone S.Queue.held part.exit.now mine.entry.now }
        { parse_first(part, mine) },
        &mut || -> Result<Option<S::End>, Refusal>
            requires crosses { IsSync T.row × IsSend S.Queue.row }
            requires held { AreHeld S.Queue.held parts.now due.now }
            requires lines { reader.now.lines + length due.now < 2 ^ 64 }
            requires room { S.may_take sink.now (length due.now) }
            ensures pushes { Offers S.takes reader.entry.now sink.entry.now output.entry.now due.entry.now result
                reader.exit.now sink.exit.now output.exit.now }
            ensures held { AreHeld S.Queue.held others.exit.now theirs.entry.now }
        {
            let turn = Turn {
                due,
                parts,
                upcoming: theirs,
            };
            offer_beside(rt, turn, reader, sink, output, others)
        },
    );
    answer
}

/// How many bytes of a text the first of `threads` threads gets: its equal share up to the last line feed, or all as the only thread.
fn share(text: &[u8], threads: usize) -> usize
    requires { 0 < threads }
    ensures { result ≤ length text.now }
{
    if threads == 1 {
        return text.len();
    }
    last_line_end(&text[..text.len() / threads])
}

/// Parses the text into the one part.
fn parse_first<Q: Queue>(parts: &mut [Part<Q>], text: &[u8])
    requires { length parts.old ≡ 1 }
    ensures { HoldsAlone Q.held parts.new text.now }
{
    parts[0].parse(text);
}

/// Offers a text up to the first line that is not passed. The parts hold its first lines, one part after another; the rest is parsed here.
fn offer_parts<W, S: QueueSink<W>>(
    parts: &[Part<S::Queue>],
    text: &[u8],
    reader: &mut EventReader,
    sink: &mut S,
    output: &mut Output<W>,
) -> Result<Option<S::End>, Refusal>
    requires held { AreHeld S.Queue.held parts.now text.now }
    requires lines { reader.old.lines + length text.now < 2 ^ 64 }
    requires room { S.may_take sink.old (length text.now) }
    ensures { Offers S.takes reader.old sink.old output.old text.now result reader.new sink.new output.new }
{
    let mut rest = text;
    for part in parts {
        let (given, behind) = rest.split_at(part.given);
        if let Some(end) = offer_part(part, given, reader, sink, output)? {
            return Ok(Some(end));
        }
        rest = behind;
    }
    push_alone(reader, sink, rest, output)
}

/// Offers the text of a part: first the lines that the part holds, then the rest, which is parsed here. Within a line all of it is parsed
/// here.
fn offer_part<W, S: QueueSink<W>>(
    part: &Part<S::Queue>,
    text: &[u8],
    reader: &mut EventReader,
    sink: &mut S,
    output: &mut Output<W>,
) -> Result<Option<S::End>, Refusal>
    requires held { Holds S.Queue.held part.now text.now }
    requires lines { reader.old.lines + length text.now < 2 ^ 64 }
    requires room { S.may_take sink.old (length text.now) }
    ensures { Offers S.takes reader.old sink.old output.old text.now result reader.new sink.new output.new }
{
    if !reader.is_between_lines() {
        return push_alone(reader, sink, text, output);
    }
    if let Some(end) = sink.offer_queue(reader.lines(), &part.queue, output)? {
        return Ok(Some(end));
    }
    reader.count_lines(part.extent.lines);
    push_alone(reader, sink, &text[part.extent.bytes..], output)
}
