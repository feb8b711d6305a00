//! The content that the devices of a store have together, and the rules by which the content of a detector fits into a
//! root.
#![tactic(auto)]

pub mod laws;
