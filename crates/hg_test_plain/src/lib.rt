//! The definitions as a slow program. A trace is given newest event first, as the definitions read it.
#![tactic(auto)]

mod history;
mod locks;
mod paths;
mod reporting;
mod segments;
mod sets;
mod sharing;

pub use history::history_of;
pub use locks::held;
pub use paths::reaches;
pub use reporting::{all_reports, reports_of, state_of};
pub use segments::{present, segments_of};
pub use sets::with_member;
pub use sharing::{reported_item, state};
