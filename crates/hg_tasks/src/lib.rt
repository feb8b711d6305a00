//! What the tasks of a command line do, on the standard streams and on the files of a store's directory. Serving is not among them.
#![tactic(auto)]

pub mod directory;
pub mod events;
pub mod faults;
pub mod look;
pub mod migrating;
mod scratch;
pub mod status;
pub mod stores;
pub mod streams;
pub mod texts;
