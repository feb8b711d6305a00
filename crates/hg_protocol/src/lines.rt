//! The answer to a request for the reports.

use hg_model::report::Report;
use std::marker::Model;

/// Reports, in order.
#[derive(Drop)]
pub struct ReportList {
    reports: Vec<Report>,
}

impl Model for ReportList {
    ghost use Rattle.std.specs.Prelude.{List};
    ghost use Rattle.hg_model.specs.declared.report.Report.{Report};

    ghost Value = { List Report };

    ghost view = { λ l. l.reports.items };
}

impl ReportList {
    ghost use Rattle.std.specs.Prelude.{◌≡◌};

    /// The reports of a vector.
    pub fn from_vec(reports: Vec<Report>) -> ReportList
        ensures { result ≡ reports.items }
    {
        ReportList { reports }
    }

    /// The reports.
    pub fn as_slice(&self) -> &[Report]
        ensures { result.now ≡ self.now }
    {
        self.reports.as_slice()
    }
}

/// The kept reports in order, and what the end line says.
#[derive(Drop)]
pub struct ReportLines {
    pub reports: ReportList,
    /// How many events were accepted.
    pub events: u64,
    /// How many races there were, kept or not.
    pub races: u64,
    /// How many thread segments there are.
    pub segments: u64,
}
