//! Frames: what a client and a server send each other.
#![tactic(auto)]

pub mod feed;
pub mod frame;
pub mod front;
pub mod laws;
pub mod lines;
pub mod message;
pub mod put;
pub mod reply;
