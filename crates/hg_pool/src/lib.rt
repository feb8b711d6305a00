//! A pool of frames over a file of slots, with two maps of words: the live one, and the one at the last freeze.
#![tactic(auto)]

mod changed;
mod checkpoint;
mod clearing;
mod copies;
mod evicting;
mod fault;
mod freezing;
mod job;
pub mod laws;
mod loading;
mod parts;
mod pool;
mod steps;
mod words;

pub use fault::FreezeFault;
pub use job::{Job, Put};
pub use pool::Pool;
