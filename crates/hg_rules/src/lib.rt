//! The trace rules: what is known of a trace so far, the verdict on its next event, and what an accepted event changes.
#![tactic(auto)]

pub mod judging;
pub mod messages;
mod places;
mod rebuilding;
pub mod state;
mod table;
