//! The one loop that reads a trace text. It reads pieces and hands each line to a sink, up to the end of the input or the line that ends
//! the run.
#![tactic(auto)]

pub mod ending;
mod groups;
pub mod kept;
pub mod part;
pub mod pieces;
pub mod queue;
pub mod queued;
mod side_by_side;
pub mod sink;
pub mod whole;
