//! A table of interned sets of numbers: thread sets and locksets, each stored once and named by a number.
#![tactic(auto)]

mod fault;
mod interner;
mod lists;
mod memo;
mod merging;
mod reserving;
mod restoring;
mod table;

pub use fault::SetFault;
pub use table::{MOST_SETS, SetTable};
