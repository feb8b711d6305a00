//! Workers that hold conversations with clients, a flusher that makes checkpoints meanwhile, and the server that runs them over a listener.
#![tactic(auto)]

mod accepting;
pub mod course;
mod ending;
mod fault;
pub mod flusher;
pub mod handing;
pub mod health;
pub mod listening;
mod patience;
pub mod piece;
pub mod seen;
pub mod serving;
pub mod settings;
mod settling;
mod starting;
pub mod talks;
pub mod wire;
pub mod worker;
