//! Checking a trace text by parts: each part of its pages is judged by a thread of its own, and what is printed is what one detector prints.
#![tactic(auto)]

pub mod batch;
pub mod checking;
pub mod commands;
mod judging;
mod last_line;
pub mod line;
pub mod queue;
mod run;
pub mod runs;
mod sink;
