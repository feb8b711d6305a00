//! Values by number.
#![tactic(auto)]

mod table;

pub use table::NumberTable;
