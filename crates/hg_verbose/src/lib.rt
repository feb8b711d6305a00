//! What the last line of a command means, in words.
#![tactic(auto)]

pub mod cause;
pub mod fault;
pub mod holds;
pub mod last;
pub mod lines;
pub mod meaning;
pub mod noted;
pub mod past;
mod quoting;
pub mod wrong;
