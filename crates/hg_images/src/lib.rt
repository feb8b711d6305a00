//! The content that the five devices of a store have together: two journals that take turns, slots, and two root files.
#![tactic(auto)]

pub mod laws;
