//! The lines that a run prints, without their line feeds.

ghost use Rattle.std.specs.Prelude.{◌≡◌, ◌++◌, ◌<◌, OnOk, OnErr, map};
ghost use Rattle.std.specs.Char.{digit_char};
ghost use Rattle.std.specs.Fmt.{decimal};
ghost use Rattle.std.specs.List.{flat_map, join_with_byte};
ghost use Rattle.hg_wire.specs.Reports.{sixteen_digits, access_name, report_front, report_line, end_line};

use hg_model::report::Report;
use itoa::Buffer;
use std::alloc::AllocError;

/// Appends the pieces. An `Err` changes nothing.
pub(crate) fn put_all(pieces: &[&[u8]], out: &mut Vec<u8>) -> Result<(), AllocError>
    ensures ok { OnOk result (out.new.items ≡ out.old.items ++ flat_map (λ piece. piece.now) pieces.now) }
    ensures err { OnErr result (out.new.items ≡ out.old.items) }
{
    let len = out.len();
    for piece in pieces {
        if let Err(error) = out.extend_from_slice(piece) {
            out.truncate(len);
            return Err(error);
        }
    }
    Ok(())
}

/// Appends the last line of a run: its events, its races and its thread segments. An `Err` leaves `out` as it was.
pub fn put_end_line(
    events: u64,
    races: u64,
    segments: u64,
    out: &mut Vec<u8>,
) -> Result<(), AllocError>
    ensures ok { OnOk result (out.new.items ≡ out.old.items ++ end_line events races segments) }
    ensures err { OnErr result (out.new.items ≡ out.old.items) }
{
    let mut first = Buffer::new();
    let mut second = Buffer::new();
    let mut third = Buffer::new();
    let pieces = [
        b"end events ".as_slice(),
        first.format(events).as_bytes(),
        b" races ".as_slice(),
        second.format(races).as_bytes(),
        b" segments ".as_slice(),
        third.format(segments).as_bytes(),
    ];
    put_all(&pieces, out)
}

/// The lower-case hexadecimal digit that is worth `value`.
fn hexadecimal_digit(value: u8) -> u8
    requires { value < 16 }
    ensures { result ≡ digit_char value }
{
    if value < 10 {
        b'0' + value
    } else {
        b'a' + (value - 10)
    }
}

/// The sixteen hexadecimal digits of an address.
pub fn digits_of_address(address: u64) -> [u8; 16]
    ensures { result ≡ sixteen_digits address }
{
    let mut digits = [0u8; 16];
    for i in 0..16 {
        digits[i] = hexadecimal_digit((address >> (60 - 4 * i) & 15) as u8);
    }
    digits
}

/// Appends the bytes, and a number in decimal after them. An `Err` changes nothing.
pub(crate) fn put_number_after(
    bytes: &[u8],
    number: u64,
    out: &mut Vec<u8>,
) -> Result<(), AllocError>
    ensures ok { OnOk result (out.new.items ≡ out.old.items ++ (bytes.now ++ decimal number)) }
    ensures err { OnErr result (out.new.items ≡ out.old.items) }
{
    let mut buffer = Buffer::new();
    let pieces = [bytes, buffer.format(number).as_bytes()];
    put_all(&pieces, out)
}

/// Appends the threads in decimal, with a comma between each two. An `Err` changes nothing.
fn put_threads(threads: &[u16], out: &mut Vec<u8>) -> Result<(), AllocError>
    ensures ok { OnOk result (out.new.items ≡ out.old.items ++ join_with_byte 44 (map decimal threads.now)) }
    ensures err { OnErr result (out.new.items ≡ out.old.items) }
{
    let [first, others @ ..] = threads else {
        return Ok(());
    };
    let len = out.len();
    put_number_after(b"", u64::from(*first), out)?;
    for thread in others {
        if let Err(error) = put_number_after(b",", u64::from(*thread), out) {
            out.truncate(len);
            return Err(error);
        }
    }
    Ok(())
}

/// Appends all of the report's line up to its threads. An `Err` changes nothing.
fn put_report_front(k: u64, report: &Report, out: &mut Vec<u8>) -> Result<(), AllocError>
    ensures ok { OnOk result (out.new.items ≡ out.old.items ++ report_front k report.now) }
    ensures err { OnErr result (out.new.items ≡ out.old.items) }
{
    let mut place = Buffer::new();
    let mut event = Buffer::new();
    let mut thread = Buffer::new();
    let digits = digits_of_address(report.word);
    let pieces = [
        b"race ".as_slice(),
        place.format(k).as_bytes(),
        b" event ".as_slice(),
        event.format(report.event).as_bytes(),
        name_of_access(report.write),
        b" thread ".as_slice(),
        thread.format(report.thread).as_bytes(),
        b" word 0x".as_slice(),
        digits.as_slice(),
        b" threads ".as_slice(),
    ];
    put_all(&pieces, out)
}

fn name_of_access(write: bool) -> &'static [u8]
    ensures { result.now ≡ access_name write }
{
    if write { b" write" } else { b" read" }
}

/// Appends the line of kept report number `k`, counted from 1. An `Err` leaves `out` as it was.
pub fn put_report_line(k: u64, report: &Report, out: &mut Vec<u8>) -> Result<(), AllocError>
    ensures ok { OnOk result (out.new.items ≡ out.old.items ++ report_line k report.now) }
    ensures err { OnErr result (out.new.items ≡ out.old.items) }
{
    let len = out.len();
    put_report_front(k, report, out)?;
    let threads = put_threads(report.threads.as_slice(), out);
    if threads.is_err() {
        out.truncate(len);
    }
    threads
}
