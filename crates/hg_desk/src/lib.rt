//! Conversations with clients over a store that threads share.
#![tactic(auto)]

pub mod desk;
mod listed;
pub mod locked;
mod offering;
mod sets;
pub mod share;
pub mod shared;
pub mod tasks;
pub mod turn;
