//! The body of a root, part after part.
ghost use Rattle.std.specs.Prelude.{◌≡◌, length};
ghost use Rattle.std.specs.Int.{w16, w32};
ghost use Rattle.hg_root.specs.Body.{back_at, form_at, front_at, middle_at, seen};
ghost use Rattle.hg_root.specs.Last.{ForTable};
ghost use Rattle.hg_root.specs.Reading.{Gives, ended, listed, number_at, segment_at, times};

use crate::fault::RootFault;
use crate::form::Form;
use crate::parts::{PageSlot, SourceCount};
use crate::piece::{Piece, former_segment_of, take_times, u16_at, u32_at, u64_at};
use crate::threads::threads_of;
use hg_cells::KeptReport;
use hg_model::limits::THREAD_NUMBERS;
use hg_model::segment::Segment;
use hg_model::sets::NumberSet;
use hg_model::thread::ThreadState;
use std::alloc::Global;

/// "HGROOT2" and a line feed, as a number.
pub(crate) const HEADER: u64 = 0x4847_524F_4F54_320A;

/// "HGROOT1" and a line feed, as a number: the header of the former form.
pub(crate) const FORMER_HEADER: u64 = 0x4847_524F_4F54_310A;

/// The part before the threads: the number of the checkpoint, the count of events, and the segments.
pub(crate) type Front = (u64, (u64, Vec<Segment>));

/// The part behind the threads.
#[derive(Drop)]
pub(crate) struct Back {
    pub(crate) sets: Vec<NumberSet>,
    pub(crate) total: u64,
    pub(crate) reports: Vec<KeptReport>,
    pub(crate) sources: Vec<SourceCount>,
    pub(crate) pages: Vec<PageSlot>,
}

/// How many there are, in four bytes, and each.
fn many_of<T: Piece + Drop>(alloc: Global, bytes: &[u8]) -> Result<(Vec<T>, &[u8]), RootFault>
    ensures { Gives (λ x. (x.0.items, x.1.now)) result (listed (number_at w32) T.reading bytes.now) }
{
    let (count, rest) = u32_at(bytes)?;
    take_times(alloc, count, rest)
}

/// How many there are, in two bytes, and each.
fn some_of<T: Piece + Drop>(alloc: Global, bytes: &[u8]) -> Result<(Vec<T>, &[u8]), RootFault>
    ensures { Gives (λ x. (x.0.items, x.1.now)) result (listed (number_at w16) T.reading bytes.now) }
{
    let (count, rest) = u16_at(bytes)?;
    take_times(alloc, count as u32, rest)
}

/// So many segments of the former form.
fn former_times(alloc: Global, count: u32, bytes: &[u8]) -> Result<(Vec<Segment>, &[u8]), RootFault>
    ensures { Gives (λ x. (x.0.items, x.1.now)) result (times (segment_at Form.Former) count bytes.now) }
{
    let mut segments = Vec::new(alloc);
    let mut rest = bytes;
    for _ in 0..count {
        let (segment, after) = former_segment_of(rest)?;
        segments.push(segment)?;
        rest = after;
    }
    Ok((segments, rest))
}

/// How many segments there are, and each.
fn segments_of(alloc: Global, form: Form, bytes: &[u8]) -> Result<(Vec<Segment>, &[u8]), RootFault>
    ensures { Gives (λ x. (x.0.items, x.1.now)) result (listed (number_at w32) (segment_at form) bytes.now) }
{
    let (count, rest) = u32_at(bytes)?;
    match form {
        Form::Written => take_times(alloc, count, rest),
        Form::Former => former_times(alloc, count, rest),
    }
}

/// The form that the header tells.
fn form_of(bytes: &[u8]) -> Result<(Form, &[u8]), RootFault>
    ensures { Gives (λ x. (x.0, x.1.now)) result (form_at bytes.now) }
{
    let (header, rest) = u64_at(bytes)?;
    if header == HEADER {
        return Ok((Form::Written, rest));
    }
    if header == FORMER_HEADER {
        return Ok((Form::Former, rest));
    }
    Err(RootFault::Damaged)
}

/// The header, the numbers and the segments.
pub(crate) fn front_of(alloc: Global, bytes: &[u8]) -> Result<(Front, &[u8]), RootFault>
    ensures { Gives (λ x. ((x.0.0, (x.0.1.0, x.0.1.1.items)), x.1.now)) result (front_at bytes.now) }
{
    let (form, rest) = form_of(bytes)?;
    let (number, rest) = u64_at(rest)?;
    let (events, rest) = u64_at(rest)?;
    let (segments, rest) = segments_of(alloc, form, rest)?;
    Ok(((number, (events, segments)), rest))
}

/// The threads. The table has the last segment of each.
pub(crate) fn middle_of<'a>(
    alloc: Global,
    lasts: &[Option<u32>],
    bytes: &'a [u8],
) -> Result<(Vec<ThreadState>, &'a [u8]), RootFault>
    requires { length lasts.now ≡ THREAD_NUMBERS }
    ensures { ForTable lasts.now (λ segments. Gives (λ x. (x.0.items, x.1.now)) result (middle_at segments bytes.now)) }
{
    let (count, rest) = u16_at(bytes)?;
    threads_of(alloc, lasts, count, rest)
}

/// The part behind the threads, to the end.
pub(crate) fn back_of(alloc: Global, bytes: &[u8]) -> Result<Back, RootFault>
    ensures { Gives seen result (ended back_at bytes.now) }
{
    let (sets, rest) = many_of(alloc, bytes)?;
    let (total, rest) = u64_at(rest)?;
    let (reports, rest) = many_of(alloc, rest)?;
    let (sources, rest) = some_of(alloc, rest)?;
    let (pages, rest) = many_of(alloc, rest)?;
    if !rest.is_empty() {
        return Err(RootFault::Damaged);
    }
    Ok(Back {
        sets,
        total,
        reports,
        sources,
        pages,
    })
}
