//! What a run prints: the reports, and its last line.

use crate::events::Ending;
use hg_detect::detector::Detector;
use hg_model::report::Report;
use hg_model::verdict::Refusal;
use hg_test_kit::answers::put_report;
use hg_test_kit::text::Text;
use hg_wire::lines::{put_bad_line, put_refused_line};
use hg_wire::report::put_end_line;
use std::alloc::Global;

fn put_reports(reports: &[Report], out: &mut Text) {
    for (index, report) in reports.iter().enumerate() {
        put_report((index as u64).wrapping_add(1), report, out);
        out.put(b"\n");
    }
}

fn put_last_line<W>(detector: &Detector<W>, end: Ending, out: &mut Text) {
    let line = out.bytes_mut();
    let put = match end {
        Ending::Ended => put_end_line(
            detector.state().events(),
            detector.total(),
            detector.segments().len() as u64,
            line,
        ),
        Ending::Refused {
            line: number,
            refusal,
        } => put_refused_line(number, refusal.code(), line),
        Ending::Bad { line: number } => put_bad_line(number, line),
    };
    if put.is_err() {
        out.note_missing();
    }
    out.put(b"\n");
}

/// Appends what a run prints that came to this end, a line for each kept report and the last line, and answers the status.
pub fn put_run<W>(
    alloc: Global,
    detector: &Detector<W>,
    end: Ending,
    out: &mut Text,
) -> Result<u8, Refusal> {
    let Ok(reports) = detector.reports(alloc) else {
        return Err(Refusal::OutOfMemory);
    };
    put_reports(&reports, out);
    put_last_line(detector, end, out);
    if !out.is_whole() {
        return Err(Refusal::OutOfMemory);
    }
    Ok(if end == Ending::Ended { 0 } else { 2 })
}

/// Puts the line of a fault in place of all that was to be printed, and answers the status.
pub fn put_fault(refusal: Refusal, out: &mut Text) -> u8 {
    out.clear();
    out.put_number(b"fault ", u64::from(refusal.code()));
    out.put(b"\n");
    3
}
