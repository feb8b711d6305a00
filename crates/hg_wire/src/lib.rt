//! The language of bytes: the text of traces and reports.
#![tactic(auto)]

mod begun;
pub mod cuts;
pub mod diagnosis;
pub mod laws;
pub mod line;
pub mod lines;
pub mod number;
mod operands;
pub mod reader;
pub mod report;
pub mod splitter;
mod tokens;
pub mod verb;
