//! Writing frames.

ghost use Rattle.std.specs.Prelude.{◌≡◌, ◌≤◌, ◌<◌, ◌^◌, ◌+◌, ◌++◌, ◌∷◌, ℕ, List, [], length, OnOk, OnErr};
ghost use Rattle.std.specs.Int.{w64, to_be_bytes};
ghost use Rattle.std.specs.List.{AllByRecursion};
ghost use Rattle.hg_protocol.specs.declared.reply.TheConstants.{MOST_REPLY_LINE};
ghost use Rattle.hg_model.specs.ThreadSets.{IsThreadSet};
ghost use Rattle.hg_records.specs.Records.{by_length, event_text};
ghost use Rattle.hg_wire.specs.Reports.{report_line, end_line};
ghost use Rattle.hg_protocol.specs.Framing.{framed, frame_text};
ghost use Rattle.hg_protocol.specs.Frames.{numbered_text};
ghost use Rattle.hg_protocol.specs.Replies.{line_body, number_body, refused_body};
ghost use Rattle.hg_protocol.specs.Spelling.{FitsFrames, lines_text, report_frames, reply_text};

use crate::frame::Frame;
use crate::lines::ReportLines;
use crate::message::Message;
use crate::reply::Reply;
use hg_model::event::{Block, Event};
use hg_model::report::Report;
use hg_records::record::put_event;
use hg_wire::report::{put_end_line, put_report_line};
use std::alloc::AllocError;

/// Appends a frame. An `Err` leaves `out` as it was.
pub fn put_frame(frame: &Frame, out: &mut Vec<u8>) -> Result<(), AllocError>
    ensures ok { OnOk result (out.new.items ≡ out.old.items ++ frame_text ⟦<Frame as Message>⟧ frame.now) }
    ensures err { OnErr result (out.new.items ≡ out.old.items) }
{
    match frame {
        Frame::Hello { source } => {
            let source = source.to_be_bytes();
            out.extend_from_slice(&[0, 3, 1, source[0], source[1]])
        }
        Frame::Event { number, event } => put_numbered(*number, event, out),
        Frame::Ask => out.extend_from_slice(&[0, 1, 3]),
        Frame::Reports => out.extend_from_slice(&[0, 1, 4]),
        Frame::Bye => out.extend_from_slice(&[0, 1, 5]),
    }
}

/// The length of the body of the frame of an alloc or a free.
fn block_body_len(block: Block) -> u8
    ensures { (short long : ℕ) → result ≡ 9 + length (by_length short long block) }
{
    if block.len < 65_536 { 22 } else { 24 }
}

/// The length of the body of an event's frame.
fn body_len(event: &Event) -> u8
    ensures { result ≡ 9 + length (event_text event.now) }
{
    match event {
        Event::Fork { .. } => 14,
        Event::Join { .. } => 14,
        Event::Lock { .. } => 14,
        Event::RdLock { .. } => 14,
        Event::Unlock { .. } => 14,
        Event::Read(_) => 21,
        Event::Write(_) => 21,
        Event::Alloc(block) => block_body_len(*block),
        Event::Free(block) => block_body_len(*block),
        Event::Send { .. } => 16,
        Event::Recv { .. } => 16,
    }
}

/// Appends the frame of an event. An `Err` leaves `out` as it was.
fn put_numbered(number: u64, event: &Event, out: &mut Vec<u8>) -> Result<(), AllocError>
    ensures ok { OnOk result (out.new.items ≡ out.old.items ++ framed (2 ∷ numbered_text number event.now)) }
    ensures err { OnErr result (out.new.items ≡ out.old.items) }
{
    let start = out.len();
    let n = number.to_be_bytes();
    out.extend_from_slice(&[
        0,
        body_len(event),
        2,
        n[0],
        n[1],
        n[2],
        n[3],
        n[4],
        n[5],
        n[6],
        n[7],
    ])?;
    let put = put_event(event, out);
    if put.is_err() {
        out.truncate(start);
    }
    put
}

/// Writes a number into its eight bytes: one write, since they are an array.
#[inline(always)]
fn write_number(place: &mut [u8], number: u64)
    requires { length place.old ≡ 8 }
    ensures { place.new ≡ to_be_bytes w64 number }
{
    let Some(digits) = place.as_mut_array::<8>() else {
        unreachable!()
    };
    *digits = number.to_be_bytes();
}

/// The frame of a kind and a number.
#[inline(always)]
fn number_frame(kind: u8, number: u64) -> [u8; 11]
    ensures { result ≡ framed (number_body kind number) }
{
    let mut frame = [0, 9, kind, 0, 0, 0, 0, 0, 0, 0, 0];
    write_number(&mut frame[3..11], number);
    frame
}

/// Appends a frame of a kind and a number. An `Err` leaves `out` as it was.
#[inline(always)]
fn put_number(kind: u8, number: u64, out: &mut Vec<u8>) -> Result<(), AllocError>
    ensures ok { OnOk result (out.new.items ≡ out.old.items ++ framed (number_body kind number)) }
    ensures err { OnErr result (out.new.items ≡ out.old.items) }
{
    out.extend_from_slice(&number_frame(kind, number))
}

/// Appends the frame of a refusal. An `Err` leaves `out` as it was.
fn put_refused(number: u64, code: u8, expected: u64, out: &mut Vec<u8>) -> Result<(), AllocError>
    ensures ok { OnOk result (out.new.items ≡ out.old.items ++ framed (refused_body number code expected)) }
    ensures err { OnErr result (out.new.items ≡ out.old.items) }
{
    let n = number.to_be_bytes();
    let e = expected.to_be_bytes();
    out.extend_from_slice(&[
        0, 18, 132, n[0], n[1], n[2], n[3], n[4], n[5], n[6], n[7], code, e[0], e[1], e[2], e[3],
        e[4], e[5], e[6], e[7],
    ])
}

/// Appends the frame of a line. An `Err` leaves `out` as it was.
fn put_line(line: &[u8], out: &mut Vec<u8>) -> Result<(), AllocError>
    requires { length line.now ≤ MOST_REPLY_LINE }
    ensures ok { OnOk result (out.new.items ≡ out.old.items ++ framed (line_body line.now)) }
    ensures err { OnErr result (out.new.items ≡ out.old.items) }
{
    let len = ((line.len() + 1) as u16).to_be_bytes();
    let start = out.len();
    out.extend_from_slice(&[len[0], len[1], 134])?;
    let put = out.extend_from_slice(line);
    if put.is_err() {
        out.truncate(start);
    }
    put
}

/// Appends the frame of kept report number `k`. `line` is a buffer, empty before and after.
fn put_report(
    k: u64,
    report: &Report,
    line: &mut Vec<u8>,
    out: &mut Vec<u8>,
) -> Result<(), AllocError>
    requires none { line.old.items ≡ [] }
    requires few { IsThreadSet report.now.threads }
    ensures ok { OnOk result (out.new.items ≡ out.old.items ++ framed (line_body (report_line k report.now))) }
    ensures err { OnErr result (out.new.items ≡ out.old.items) }
    ensures none { line.new.items ≡ [] }
{
    let (_event, _thread) = (report.event, report.thread);
    put_report_line(k, report, line)?;
    let put = put_line(line.as_slice(), out);
    line.clear();
    put
}

/// Appends the frames of the reports. An `Err` may leave some bytes appended.
fn put_reports(reports: &[Report], line: &mut Vec<u8>, out: &mut Vec<u8>) -> Result<(), AllocError>
    requires none { line.old.items ≡ [] }
    requires few { AllByRecursion (λ r. IsThreadSet r.threads) reports.now }
    ensures ok { OnOk result (out.new.items ≡ out.old.items ++ report_frames 1 reports.now) }
    ensures err { OnErr result ((front : List ℕ) × (out.new.items ≡ out.old.items ++ front)) }
    ensures none { line.new.items ≡ [] }
{
    let mut k = 0u64;
    for report in reports {
        k += 1;
        match put_report(k, report, line, out) {
            Ok(()) => {}
            Err(error) => return Err(error),
        }
    }
    Ok(())
}

/// Appends the frames of the reports, and that of the end line. An `Err` may leave some bytes appended.
fn put_lines(lines: &ReportLines, out: &mut Vec<u8>) -> Result<(), AllocError>
    requires { AllByRecursion (λ r. IsThreadSet r.threads) lines.now.reports }
    ensures ok { OnOk result (out.new.items ≡ out.old.items ++ lines_text lines.now) }
    ensures err { OnErr result ((front : List ℕ) × (out.new.items ≡ out.old.items ++ front)) }
{
    let mut line = Vec::new(*out.allocator());
    put_reports(lines.reports.as_slice(), &mut line, out)?;
    put_end_line(lines.events, lines.races, lines.segments, &mut line)?;
    put_line(line.as_slice(), out)
}

/// Appends the frames of a reply. The answer to a Reports has one for each line, the answer to a Bye none, any other reply one.
/// An `Err` leaves `out` as it was.
pub fn put_reply(reply: &Reply, out: &mut Vec<u8>) -> Result<(), AllocError>
    requires { FitsFrames reply.now }
    ensures ok { OnOk result (out.new.items ≡ out.old.items ++ reply_text reply.now) }
    ensures err { OnErr result (out.new.items ≡ out.old.items) }
{
    match reply {
        Reply::Welcome { last } => put_number(129, *last, out),
        Reply::Accepted { number } => put_number(130, *number, out),
        Reply::Duplicate { last } => put_number(131, *last, out),
        Reply::Refused {
            number,
            code,
            expected,
        } => put_refused(*number, *code, *expected, out),
        Reply::Ack { number } => put_number(133, *number, out),
        Reply::Line { line } => put_line(line.as_slice(), out),
        Reply::Fault { code } => out.extend_from_slice(&[0, 2, 135, *code]),
        Reply::Lines { lines } => {
            let start = out.len();
            let put = put_lines(lines, out);
            if put.is_err() {
                out.truncate(start);
            }
            put
        }
        Reply::Nothing => Ok(()),
    }
}
