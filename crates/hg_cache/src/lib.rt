//! Pages in memory, in the order of their use.
//!
//! A page is used by one look-up and six changed links, whatever the number of pages is.
#![tactic(auto)]

mod frame;
mod frames;
mod node;
mod recency;

pub use frame::Frame;
pub use frames::Frames;
pub use recency::Recency;
