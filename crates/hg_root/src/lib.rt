//! Roots: everything of a checkpoint but its words, in two files that take turns.
#![tactic(auto)]

mod body;
mod fault;
mod form;
mod found;
mod head;
mod head_parts;
mod lasts;
pub mod laws;
mod pair;
mod parts;
mod piece;
mod root;
mod root_test;
mod rules;
mod threads;

pub use fault::RootFault;
pub use head::RootHead;
pub use head_parts::HeadParts;
pub use pair::{Newest, RootPair};
pub use parts::{PageSlot, SourceCount};
pub use root::{MOST_CHECKPOINTS, Root};
