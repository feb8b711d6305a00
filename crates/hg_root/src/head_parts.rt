//! The parts of the head of a root.

use crate::parts::SourceCount;
use hg_cells::KeptReport;
use hg_graph::Graph;
use hg_model::thread::ThreadState;
use hg_sets::SetTable;

/// The parts of the head of a root: everything of a content but its words, and the number of the checkpoint.
#[derive(Drop)]
pub struct HeadParts<'a> {
    /// The number of the checkpoint.
    pub number: u64,
    /// How many events there were.
    pub events: u64,
    /// The thread segments.
    pub graph: &'a Graph,
    /// The threads, by rising number.
    pub threads: &'a [ThreadState],
    /// The sets of threads and of locks.
    pub sets: &'a SetTable,
    /// How many reports there were, kept or not.
    pub total: u64,
    /// The kept reports.
    pub reports: &'a [KeptReport],
    /// The sources that sent something, by rising number.
    pub sources: &'a [SourceCount],
}
