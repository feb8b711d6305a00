//! What a detector holds beside its map of words.

use hg_cells::KeptReport;
use hg_graph::Graph;
use hg_rules::state::TraceState;
use hg_sets::SetTable;

/// The parts of a detector, but for its map of words.
#[derive(Drop)]
pub struct DetectorParts {
    /// What the trace rules need of the events so far.
    pub state: TraceState,
    /// The graph of the thread segments.
    pub graph: Graph,
    /// The sets of threads and of locks by number.
    pub sets: SetTable,
    /// The kept reports, each with the number of its thread set.
    pub kept: Vec<KeptReport>,
    /// How many reports there were, kept or not.
    pub total: u64,
}
