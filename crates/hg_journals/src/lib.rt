//! The events of a store in two journal files that take turns.
#![tactic(auto)]

mod attach;
mod collect;
mod count;
mod file;
pub mod laws;
mod pair;
mod reader;

pub use pair::JournalPair;
pub use reader::PairReader;
