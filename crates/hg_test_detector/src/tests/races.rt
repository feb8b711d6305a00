//! Reports that are expected.

use hg_model::report::Report;
use std::process::Abort;

/// A report that is expected: its event, whether it writes, its thread, the address of its word, its threads.
pub struct Race<'a>(pub u64, pub bool, pub u16, pub u64, pub &'a [u16]);

/// Whether a report is this one.
pub fn is_of(report: &Report, race: &Race) -> bool {
    let found = (report.event, report.write, report.thread, report.word);
    found == (race.0, race.1, race.2, race.3) && report.threads.as_slice() == race.4
}

/// Whether the reports are these.
pub fn compare(rt: &impl Abort, reports: &[Report], races: &[Race]) {
    assert!(rt; reports.len() == races.len());
    for i in 0..races.len() {
        assert!(rt; is_of(&reports[i], &races[i]), "report {i}");
    }
}
