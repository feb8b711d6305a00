//! The pieces of a body. Each is read from the front of the remaining bytes, and written at the end of the bytes so far.
ghost use Rattle.std.specs.Prelude.{◌≡◌, [], ◌∷◌, ◌++◌, ◌<◌, ◌^◌, ℕ, List, Option, All, OnOk};
ghost use Rattle.std.specs.Int.{w16, w32, w64, to_be_bytes};
ghost use Rattle.std.specs.List.{flat_map};
ghost use Rattle.hg_root.specs.Grammar as text;
ghost use Rattle.hg_root.specs.Reading as reading;
ghost use Rattle.hg_root.specs.Reading.{Gives, before_at, byte_at, mark_at, number_at, segment_at, times, mode_at, alive_at, kind_at};

use crate::fault::RootFault;
use crate::form::Form;
use crate::parts::{PageSlot, SourceCount};
use hg_cells::KeptReport;
use hg_model::held::HeldLock;
use hg_model::segment::{Mark, Predecessors, Segment};
use hg_model::sets::NumberSet;
use std::alloc::{AllocError, Global};

/// A piece that stands in a list of pieces.
pub(crate) trait Piece: Sized {
    /// Its bytes.
    ghost text: { Self → List ℕ };

    /// How it is read.
    ghost reading: { List ℕ → Option (Self × List ℕ) };

    /// It has no more parts than its count can say.
    ghost fits: { Self → Type 0 };

    /// Reads one from the front of the bytes, and answers the rest.
    fn take(alloc: Global, bytes: &[u8]) -> Result<(Self, &[u8]), RootFault>
        ensures { Gives (λ x. (x.0, x.1.now)) result (reading bytes.now) };

    /// Puts one at the end.
    fn put(&self, out: &mut Vec<u8>) -> Result<(), AllocError>
        requires { fits self.now }
        ensures { OnOk result (out.new.items ≡ out.old.items ++ text self.now) };
}

/// Reads `count` pieces, one after the other. Memory grows with the bytes that were read, whatever the count says.
pub(crate) fn take_times<T: Piece + Drop>(
    alloc: Global,
    count: u32,
    bytes: &[u8],
) -> Result<(Vec<T>, &[u8]), RootFault>
    ensures { Gives (λ x. (x.0.items, x.1.now)) result (times T.reading count bytes.now) }
{
    take_into(alloc, Vec::new(alloc), count, bytes)
}

/// Reads `count` pieces into an empty vector, which may have room for them.
fn take_into<T: Piece + Drop>(
    alloc: Global,
    room: Vec<T>,
    count: u32,
    bytes: &[u8],
) -> Result<(Vec<T>, &[u8]), RootFault>
    requires { room.items ≡ [] }
    ensures { Gives (λ x. (x.0.items, x.1.now)) result (times T.reading count bytes.now) }
{
    let mut items = room;
    let mut rest = bytes;
    for _ in 0..count {
        let (item, after) = T::take(alloc, rest)?;
        items.push(item)?;
        rest = after;
    }
    Ok((items, rest))
}

/// Puts each of these pieces at the end.
pub(crate) fn put_each<T: Piece>(items: &[T], out: &mut Vec<u8>) -> Result<(), AllocError>
    requires { All T.fits items.now }
    ensures { OnOk result (out.new.items ≡ out.old.items ++ flat_map T.text items.now) }
{
    for item in items {
        item.put(out)?;
    }
    Ok(())
}

pub(crate) fn u8_at(bytes: &[u8]) -> Result<(u8, &[u8]), RootFault>
    ensures { Gives (λ x. (x.0, x.1.now)) result (byte_at bytes.now) }
{
    match bytes {
        [] => Err(RootFault::Damaged),
        [byte, rest @ ..] => Ok((*byte, rest)),
    }
}

pub(crate) fn u16_at(bytes: &[u8]) -> Result<(u16, &[u8]), RootFault>
    ensures { Gives (λ x. (x.0, x.1.now)) result (number_at w16 bytes.now) }
{
    if bytes.len() < 2 {
        return Err(RootFault::Damaged);
    }
    let (front, rest) = bytes.split_at(2);
    Ok((u16::from_be_bytes([front[0], front[1]]), rest))
}

pub(crate) fn u32_at(bytes: &[u8]) -> Result<(u32, &[u8]), RootFault>
    ensures { Gives (λ x. (x.0, x.1.now)) result (number_at w32 bytes.now) }
{
    if bytes.len() < 4 {
        return Err(RootFault::Damaged);
    }
    let (front, rest) = bytes.split_at(4);
    let number = u32::from_be_bytes([front[0], front[1], front[2], front[3]]);
    Ok((number, rest))
}

pub(crate) fn u64_at(bytes: &[u8]) -> Result<(u64, &[u8]), RootFault>
    ensures { Gives (λ x. (x.0, x.1.now)) result (number_at w64 bytes.now) }
{
    if bytes.len() < 8 {
        return Err(RootFault::Damaged);
    }
    let (front, rest) = bytes.split_at(8);
    let number = u64::from_be_bytes([
        front[0], front[1], front[2], front[3], front[4], front[5], front[6], front[7],
    ]);
    Ok((number, rest))
}

impl Piece for u16 {
    ghost text = { to_be_bytes w16 };

    ghost reading = { number_at w16 };

    ghost fits = { λ n. n < 2 ^ 16 };

    fn take(_alloc: Global, bytes: &[u8]) -> Result<(u16, &[u8]), RootFault> {
        u16_at(bytes)
    }

    fn put(&self, out: &mut Vec<u8>) -> Result<(), AllocError> {
        out.extend_from_slice(&self.to_be_bytes())
    }
}

impl Piece for u32 {
    ghost text = { to_be_bytes w32 };

    ghost reading = { number_at w32 };

    ghost fits = { λ n. n < 2 ^ 32 };

    fn take(_alloc: Global, bytes: &[u8]) -> Result<(u32, &[u8]), RootFault> {
        u32_at(bytes)
    }

    fn put(&self, out: &mut Vec<u8>) -> Result<(), AllocError> {
        out.extend_from_slice(&self.to_be_bytes())
    }
}

/// The predecessors of a segment, two at most.
fn before_of(bytes: &[u8]) -> Result<(Predecessors, &[u8]), RootFault>
    ensures { Gives (λ x. (x.0, x.1.now)) result (before_at bytes.now) }
{
    match u8_at(bytes)? {
        (0, rest) => Ok((Predecessors::none(), rest)),
        (1, rest) => {
            let (one, rest) = u32_at(rest)?;
            Ok((Predecessors::one(one), rest))
        }
        (2, rest) => {
            let (first, rest) = u32_at(rest)?;
            let (second, rest) = u32_at(rest)?;
            Ok((Predecessors::two(first, second), rest))
        }
        _ => Err(RootFault::Damaged),
    }
}

/// The mark of a segment: 0, or 1 and a message that was sent, or 2 and a message that was received.
fn mark_of(bytes: &[u8]) -> Result<(Mark, &[u8]), RootFault>
    ensures { Gives (λ x. (x.0, x.1.now)) result (mark_at Form.Written bytes.now) }
{
    match u8_at(bytes)? {
        (0, rest) => Ok((Mark::Plain, rest)),
        (1, rest) => {
            let (message, rest) = u32_at(rest)?;
            Ok((Mark::Sent(message), rest))
        }
        (2, rest) => {
            let (message, rest) = u32_at(rest)?;
            Ok((Mark::Got(message), rest))
        }
        _ => Err(RootFault::Damaged),
    }
}

/// A segment of the former form, whose mark is plain.
pub(crate) fn former_segment_of(bytes: &[u8]) -> Result<(Segment, &[u8]), RootFault>
    ensures { Gives (λ x. (x.0, x.1.now)) result (segment_at Form.Former bytes.now) }
{
    let (thread, rest) = u16_at(bytes)?;
    let (before, rest) = before_of(rest)?;
    let segment = Segment {
        thread,
        before,
        mark: Mark::Plain,
    };
    Ok((segment, rest))
}

/// Puts the code of a mark and its message at the end.
fn put_message(code: u8, message: u32, out: &mut Vec<u8>) -> Result<(), AllocError>
    ensures { OnOk result (out.new.items ≡ out.old.items ++ code ∷ to_be_bytes w32 message) }
{
    out.push(code)?;
    out.extend_from_slice(&message.to_be_bytes())
}

/// Puts a mark at the end.
fn put_mark(mark: Mark, out: &mut Vec<u8>) -> Result<(), AllocError>
    ensures { OnOk result (out.new.items ≡ out.old.items ++ text.mark_text Form.Written mark) }
{
    match mark {
        Mark::Plain => {
            out.push(0)?;
            Ok(())
        }
        Mark::Sent(message) => put_message(1, message, out),
        Mark::Got(message) => put_message(2, message, out),
    }
}

impl Piece for Segment {
    ghost use Rattle.hg_root.specs.declared.form.Form.TheVariants.{Written};

    ghost text = { text.segment_text Written };

    ghost reading = { reading.segment_at Written };

    ghost fits = { text.SegmentFits };

    fn take(_alloc: Global, bytes: &[u8]) -> Result<(Segment, &[u8]), RootFault> {
        let (thread, rest) = u16_at(bytes)?;
        let (before, rest) = before_of(rest)?;
        let (mark, rest) = mark_of(rest)?;
        let segment = Segment {
            thread,
            before,
            mark,
        };
        Ok((segment, rest))
    }

    fn put(&self, out: &mut Vec<u8>) -> Result<(), AllocError> {
        out.extend_from_slice(&self.thread.to_be_bytes())?;
        let before = self.before.as_slice();
        out.push(before.len() as u8)?;
        put_each(before, out)?;
        put_mark(self.mark, out)
    }
}

/// 1 for write mode, 2 for read mode.
fn mode_of(bytes: &[u8]) -> Result<(bool, &[u8]), RootFault>
    ensures { Gives (λ x. (x.0, x.1.now)) result (mode_at bytes.now) }
{
    match u8_at(bytes)? {
        (1, rest) => Ok((true, rest)),
        (2, rest) => Ok((false, rest)),
        _ => Err(RootFault::Damaged),
    }
}

/// 1 for a living thread, 0 for a dead one.
pub(crate) fn alive_of(bytes: &[u8]) -> Result<(bool, &[u8]), RootFault>
    ensures { Gives (λ x. (x.0, x.1.now)) result (alive_at bytes.now) }
{
    match u8_at(bytes)? {
        (0, rest) => Ok((false, rest)),
        (1, rest) => Ok((true, rest)),
        _ => Err(RootFault::Damaged),
    }
}

/// 7 for a write, 6 for a read.
fn kind_of(bytes: &[u8]) -> Result<(bool, &[u8]), RootFault>
    ensures { Gives (λ x. (x.0, x.1.now)) result (kind_at bytes.now) }
{
    match u8_at(bytes)? {
        (6, rest) => Ok((false, rest)),
        (7, rest) => Ok((true, rest)),
        _ => Err(RootFault::Damaged),
    }
}

impl Piece for HeldLock {
    ghost text = { text.lock_text };

    ghost reading = { reading.lock_at };

    ghost fits = { text.LockFits };

    fn take(_alloc: Global, bytes: &[u8]) -> Result<(HeldLock, &[u8]), RootFault> {
        let (lock, rest) = u16_at(bytes)?;
        let (write, rest) = mode_of(rest)?;
        Ok((HeldLock { lock, write }, rest))
    }

    fn put(&self, out: &mut Vec<u8>) -> Result<(), AllocError> {
        out.extend_from_slice(&self.lock.to_be_bytes())?;
        out.push(if self.write { 1 } else { 2 })?;
        Ok(())
    }
}

impl Piece for NumberSet {
    ghost text = { text.set_text };

    ghost reading = { reading.members_at };

    ghost fits = { text.SetFits };

    fn take(alloc: Global, bytes: &[u8]) -> Result<(NumberSet, &[u8]), RootFault> {
        let (count, rest) = u16_at(bytes)?;
        // Members have two bytes each, so the room is for those that are there.
        let room = Vec::with_capacity(alloc, usize::from(count).min(rest.len() / 2))?;
        let (members, rest) = take_into(alloc, room, u32::from(count), rest)?;
        Ok((NumberSet::from_vec(members), rest))
    }

    fn put(&self, out: &mut Vec<u8>) -> Result<(), AllocError> {
        let members = self.as_slice();
        out.extend_from_slice(&(members.len() as u16).to_be_bytes())?;
        put_each(members, out)
    }
}

impl Piece for KeptReport {
    ghost text = { text.report_text };

    ghost reading = { reading.report_at };

    ghost fits = { text.ReportFits };

    fn take(_alloc: Global, bytes: &[u8]) -> Result<(KeptReport, &[u8]), RootFault> {
        let (event, rest) = u64_at(bytes)?;
        let (word, rest) = u64_at(rest)?;
        let (thread, rest) = u16_at(rest)?;
        let (write, rest) = kind_of(rest)?;
        let (threads, rest) = u32_at(rest)?;
        let report = KeptReport {
            event,
            word,
            threads,
            thread,
            write,
        };
        Ok((report, rest))
    }

    fn put(&self, out: &mut Vec<u8>) -> Result<(), AllocError> {
        let event = self.event.to_be_bytes();
        let word = self.word.to_be_bytes();
        let thread = self.thread.to_be_bytes();
        let kind = if self.write { 7 } else { 6 };
        let threads = self.threads.to_be_bytes();
        out.extend_from_slice(&[
            event[0], event[1], event[2], event[3], event[4], event[5], event[6], event[7],
            word[0], word[1], word[2], word[3], word[4], word[5], word[6], word[7], thread[0],
            thread[1], kind, threads[0], threads[1], threads[2], threads[3],
        ])
    }
}

impl Piece for SourceCount {
    ghost text = { text.source_text };

    ghost reading = { reading.source_at };

    ghost fits = { text.SourceFits };

    fn take(_alloc: Global, bytes: &[u8]) -> Result<(SourceCount, &[u8]), RootFault> {
        let (source, rest) = u16_at(bytes)?;
        let (last, rest) = u64_at(rest)?;
        Ok((SourceCount { source, last }, rest))
    }

    fn put(&self, out: &mut Vec<u8>) -> Result<(), AllocError> {
        out.extend_from_slice(&self.source.to_be_bytes())?;
        out.extend_from_slice(&self.last.to_be_bytes())
    }
}

impl Piece for PageSlot {
    ghost text = { text.page_text };

    ghost reading = { reading.page_at };

    ghost fits = { text.PageFits };

    fn take(_alloc: Global, bytes: &[u8]) -> Result<(PageSlot, &[u8]), RootFault> {
        let (page, rest) = u64_at(bytes)?;
        let (slot, rest) = u32_at(rest)?;
        Ok((PageSlot { page, slot }, rest))
    }

    fn put(&self, out: &mut Vec<u8>) -> Result<(), AllocError> {
        out.extend_from_slice(&self.page.to_be_bytes())?;
        out.extend_from_slice(&self.slot.to_be_bytes())
    }
}
