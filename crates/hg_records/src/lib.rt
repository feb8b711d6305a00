//! Records: events as bytes, as a journal has them.
#![tactic(auto)]

pub mod laws;
pub mod record;
