//! What a recovery makes of the devices of a store: a detector at the newest root, and the events behind it, which that
//! detector follows.
#![tactic(auto)]

mod at_root;
mod following;

pub use at_root::{empty_detector, rooted};
pub use following::replay;
