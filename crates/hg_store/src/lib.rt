//! A store of events with checkpoints: the accepted events, which of them are durable, and the content that they lead to.
//!
//! A store has five devices. Two journals that take turns have the events. A checkpoint has the content of the events up to some point: its
//! head is in one of two root files, and its pages are in slots.
#![tactic(auto)]

pub mod checkpoints;
pub mod create;
pub mod devices;
pub mod drive;
pub mod made;
pub mod offer;
pub mod page_number;
pub mod paging;
pub mod queries;
mod recover;
mod retire;
pub mod steps;
pub mod store;
