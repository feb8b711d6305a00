//! A journal: events on a disk, in the batches of a log.
#![tactic(auto)]

pub mod collect;
pub mod file;
pub mod journal;
pub mod laws;
mod reader;
