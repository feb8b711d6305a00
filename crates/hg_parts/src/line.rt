//! A line with its event.

use hg_model::event::Event;

/// A line with its event.
#[derive(Clone, Copy, Debug, PartialEq, Eq, Drop)]
pub struct EventLine {
    /// Its number.
    pub line: u64,
    /// What happened.
    pub event: Event,
}
