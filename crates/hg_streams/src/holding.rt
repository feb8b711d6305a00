//! Lines that are held until they are written.

ghost use Rattle.std.specs.Prelude.{◌≡◌, ◌+◌, ◌++◌, [], ◌∷◌, IfErr, OnOk};
ghost use Rattle.hg_wire.specs.Reports.{end_line as end_line_of, report_line, segment_line};
ghost use Rattle.hg_streams.specs.Calls.{failed_writes};
ghost use Rattle.hg_streams.specs.Holding.{HoldsOrWrites, WritesFront};
ghost use Rattle.hg_streams.specs.Texts.{line_text};
ghost use Rattle.hg_streams.specs.Told.{told};

use crate::output::Output;
use crate::streams::PIECE_BYTES;
use hg_model::report::Report;
use hg_model::segment::Segment;
use hg_model::verdict::Refusal;
use hg_wire::lines::put_segment_line;
use hg_wire::report::{put_end_line, put_report_line};
use std::io::Write;

/// Holds the end of a line.
pub fn end_line(held: &mut Vec<u8>) -> Result<(), Refusal>
    ensures ok { OnOk result (held.new.items ≡ held.old.items ++ 10 ∷ []) }
    ensures cause { IfErr result (λ r. r ≡ Refusal.OutOfMemory) }
{
    Ok(held.extend_from_slice(b"\n")?)
}

/// Holds the line of the report that is kept as number `k`, from 1 on.
pub fn hold_report(k: u64, report: &Report, held: &mut Vec<u8>) -> Result<(), Refusal>
    ensures ok { OnOk result (held.new.items ≡ held.old.items ++ line_text (report_line k report.now)) }
    ensures cause { IfErr result (λ r. r ≡ Refusal.OutOfMemory) }
{
    put_report_line(k, report, held)?;
    end_line(held)
}

/// Holds the line of the segment that was opened as `number`, from 0 on.
pub fn hold_segment(number: u64, segment: &Segment, held: &mut Vec<u8>) -> Result<(), Refusal>
    ensures ok { OnOk result (held.new.items ≡ held.old.items ++ line_text (segment_line number segment.now)) }
    ensures cause { IfErr result (λ r. r ≡ Refusal.OutOfMemory) }
{
    put_segment_line(number, segment, held)?;
    end_line(held)
}

/// Holds the end line, which counts the accepted events, the reports and the segments.
pub fn hold_counts(
    events: u64,
    races: u64,
    segments: u64,
    held: &mut Vec<u8>,
) -> Result<(), Refusal>
    ensures ok { OnOk result (held.new.items ≡ held.old.items ++ line_text (end_line_of events races segments)) }
    ensures cause { IfErr result (λ r. r ≡ Refusal.OutOfMemory) }
{
    put_end_line(events, races, segments, held)?;
    end_line(held)
}

/// Writes the held text. None is held afterwards.
pub fn write_out<W: Write>(held: &mut Vec<u8>, output: &mut Output<W>) -> Result<(), Refusal>
    ensures printed { HoldsOrWrites [] output.old.calls held.old.items result output.new.calls held.new.items }
    ensures front { WritesFront [] output.old.calls held.old.items result output.new.calls }
    ensures cause { IfErr result (λ r. r ≡ Refusal.DeviceFault) }
    ensures fault { failed_writes output.new.calls ≡ told result + failed_writes output.old.calls }
    ensures none { OnOk result (held.new.items ≡ []) }
{
    output.write(held.as_slice())?;
    held.clear();
    Ok(())
}

/// Writes the held text if it has 64 KiB or more.
pub fn write_if_large<W: Write>(held: &mut Vec<u8>, output: &mut Output<W>) -> Result<(), Refusal>
    ensures printed { HoldsOrWrites [] output.old.calls held.old.items result output.new.calls held.new.items }
    ensures front { WritesFront [] output.old.calls held.old.items result output.new.calls }
    ensures cause { IfErr result (λ r. r ≡ Refusal.DeviceFault) }
    ensures fault { failed_writes output.new.calls ≡ told result + failed_writes output.old.calls }
{
    if held.len() >= PIECE_BYTES {
        write_out(held, output)
    } else {
        Ok(())
    }
}
