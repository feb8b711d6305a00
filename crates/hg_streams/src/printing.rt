//! Texts that reach a pipe at once, lines of a word and a number, and the lines of segments.

ghost use Rattle.std.specs.Prelude.{◌≡◌, ◌+◌, ◌≤◌, length, OnOk, IfErr};
ghost use Rattle.hg_streams.specs.Calls.{failed_writes};
ghost use Rattle.hg_streams.specs.Told.{told};
ghost use Rattle.hg_streams.specs.Written.{Took};
ghost use Rattle.hg_streams.specs.Printed.{IsPrintedNow, WasFlushed};
ghost use Rattle.hg_streams.specs.Faults.{HasWriteCause};
ghost use Rattle.hg_streams.specs.Holding.{HoldsOrPrints, PrintsFront};
ghost use Rattle.hg_streams.specs.Texts.{number_text, segments_text};

use crate::holding::{hold_segment, write_if_large};
use crate::output::Output;
use arrayvec::ArrayVec;
use hg_model::segment::Segment;
use hg_model::verdict::Refusal;
use itoa::Buffer;
use std::io::Write;

/// The most bytes of such a line: a word of 11, a number of 20 digits and a line feed.
const MOST_LINE: usize = 32;

/// Prints a text at once, so that it reaches a pipe.
pub fn print_now<W: Write>(text: &[u8], output: &mut Output<W>) -> Result<(), Refusal>
    ensures printed { OnOk result (Took output.old.calls output.new.calls text.now) }
    ensures calls { IsPrintedNow output.old.calls output.new.calls text.now }
    ensures flushed { OnOk result (WasFlushed output.old.calls output.new.calls text.now) }
    ensures cause { IfErr result (λ r. r ≡ Refusal.DeviceFault) }
    ensures fault { failed_writes output.new.calls ≡ told result + failed_writes output.old.calls }
{
    output.write(text)?;
    output.flush()?;
    Ok(())
}

/// A line of a word and a number, in a buffer of its own.
fn number_line(word: &[u8], number: u64) -> ArrayVec<u8, MOST_LINE>
    requires short { length word.now ≤ 11 }
    ensures { result.items ≡ number_text word.now number }
{
    let mut digits = Buffer::new();
    let mut line = ArrayVec::new();
    let _fits = line.try_extend_from_slice(word);
    let _fits = line.try_extend_from_slice(digits.format(number).as_bytes());
    let _fits = line.try_push(b'\n');
    line
}

/// Prints a line of a word and a number at once. The word has 11 bytes at most. It takes no memory.
pub fn print_number<W: Write>(
    word: &[u8],
    number: u64,
    output: &mut Output<W>,
) -> Result<(), Refusal>
    requires short { length word.now ≤ 11 }
    ensures printed { OnOk result (Took output.old.calls output.new.calls (number_text word.now number)) }
    ensures calls { IsPrintedNow output.old.calls output.new.calls (number_text word.now number) }
    ensures cause { IfErr result (λ r. r ≡ Refusal.DeviceFault) }
    ensures fault { failed_writes output.new.calls ≡ told result + failed_writes output.old.calls }
{
    print_now(number_line(word, number).as_slice(), output)
}

/// Prints the segments.
pub fn print_segments<W: Write>(
    segments: &[Segment],
    held: &mut Vec<u8>,
    output: &mut Output<W>,
) -> Result<(), Refusal>
    ensures printed { HoldsOrPrints (segments_text 0 segments.now) output.old held.old result output.new held.new }
    ensures front { PrintsFront (segments_text 0 segments.now) output.old held.old result output.new }
    ensures cause { IfErr result (λ r. HasWriteCause output.old.calls output.new.calls r) }
    ensures fault { failed_writes output.new.calls ≡ told result + failed_writes output.old.calls }
{
    let mut number = 0;
    for segment in segments {
        hold_segment(number, segment, held)?;
        write_if_large(held, output)?;
        number += 1;
    }
    Ok(())
}
