//! The command line of `hgd`: what its words ask for.
#![tactic(auto)]

mod arguments;
pub mod commands;
mod help;
pub mod limits;
pub mod matches;
pub mod reading;
pub mod task;
