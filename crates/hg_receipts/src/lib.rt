//! Acknowledgements that threads were told, and receipts for them.
#![tactic(auto)]

mod register;
mod view;

pub use register::{Blank, Receipts, Register};
pub use view::{Acked, Room};
