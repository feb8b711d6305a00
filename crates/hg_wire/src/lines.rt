//! The lines that a program prints beside those of reports, without their line feeds.

ghost use Rattle.std.specs.Prelude.{◌≡◌, ◌++◌, OnOk, OnErr};
ghost use Rattle.std.specs.Fmt.{decimal};
ghost use Rattle.hg_wire.specs.Reports.{bad_line, predecessors_text, refused_line, segment_front, segment_line};

use crate::report::{put_all, put_number_after};
use hg_model::segment::Segment;
use itoa::Buffer;
use std::alloc::AllocError;

/// Appends `refused line N code C`: the number of the event's line, and the refusal's code.
/// An `Err` leaves `out` as it was.
pub fn put_refused_line(line: u64, code: u8, out: &mut Vec<u8>) -> Result<(), AllocError>
    ensures ok { OnOk result (out.new.items ≡ out.old.items ++ refused_line line code) }
    ensures err { OnErr result (out.new.items ≡ out.old.items) }
{
    let mut first = Buffer::new();
    let mut second = Buffer::new();
    let pieces = [
        b"refused line ".as_slice(),
        first.format(line).as_bytes(),
        b" code ".as_slice(),
        second.format(code).as_bytes(),
    ];
    put_all(&pieces, out)
}

/// Appends `bad line N`, for a line that was not understood. An `Err` leaves `out` as it was.
pub fn put_bad_line(line: u64, out: &mut Vec<u8>) -> Result<(), AllocError>
    ensures ok { OnOk result (out.new.items ≡ out.old.items ++ bad_line line) }
    ensures err { OnErr result (out.new.items ≡ out.old.items) }
{
    put_number_after(b"bad line ", line, out)
}

/// Appends `segment N thread T after P`, where P lists the predecessors. Segments are numbered from 0 in the order of opening.
/// An `Err` leaves `out` as it was.
pub fn put_segment_line(number: u64, segment: &Segment, out: &mut Vec<u8>) -> Result<(), AllocError>
    ensures ok { OnOk result (out.new.items ≡ out.old.items ++ segment_line number segment.now) }
    ensures err { OnErr result (out.new.items ≡ out.old.items) }
{
    let len = out.len();
    put_segment_front(number, segment.thread, out)?;
    let before = put_predecessors(segment.before.as_slice(), out);
    if before.is_err() {
        out.truncate(len);
    }
    before
}

/// Appends a segment's line up to its predecessors. An `Err` changes nothing.
fn put_segment_front(number: u64, thread: u16, out: &mut Vec<u8>) -> Result<(), AllocError>
    ensures ok { OnOk result (out.new.items ≡ out.old.items ++ segment_front number thread) }
    ensures err { OnErr result (out.new.items ≡ out.old.items) }
{
    let mut first = Buffer::new();
    let mut second = Buffer::new();
    let pieces = [
        b"segment ".as_slice(),
        first.format(number).as_bytes(),
        b" thread ".as_slice(),
        second.format(thread).as_bytes(),
        b" after ".as_slice(),
    ];
    put_all(&pieces, out)
}

/// Appends the segments in decimal, with a comma between each two, or a hyphen for none. An `Err` changes nothing.
fn put_predecessors(before: &[u32], out: &mut Vec<u8>) -> Result<(), AllocError>
    ensures ok { OnOk result (out.new.items ≡ out.old.items ++ predecessors_text before.now) }
    ensures err { OnErr result (out.new.items ≡ out.old.items) }
{
    let [first, others @ ..] = before else {
        return out.extend_from_slice(b"-");
    };
    let len = out.len();
    put_number_after(b"", u64::from(*first), out)?;
    for number in others {
        if let Err(error) = put_number_after(b",", u64::from(*number), out) {
            out.truncate(len);
            return Err(error);
        }
    }
    Ok(())
}
