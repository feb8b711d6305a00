//! The content of a store's newest checkpoint, as a detector over words in memory.
#![tactic(auto)]

mod detectors;
mod head;
mod pages;
mod roots;
mod saved;

pub use head::{SavedHead, saved_head};
pub use saved::{CheckpointDisks, saved_detector};
