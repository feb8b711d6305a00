//! The commands over a store: making one, feeding it a trace text, and printing what it holds.
#![tactic(auto)]

pub mod checkpointing;
pub mod creating;
pub mod feeding;
pub mod laws;
pub mod lines;
pub mod listing;
pub mod moment;
mod offering;
pub mod races;
pub mod settings;
