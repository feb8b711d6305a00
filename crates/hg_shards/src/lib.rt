//! The laws by which a trace is judged in parts, each of them the words of some pages, and the reports of the parts are merged.
#![tactic(auto)]

pub mod cursor;
pub mod full;
pub mod judge;
pub mod laws;
pub mod lists;
pub mod merge;
pub mod routes;
pub mod set_log;
pub mod shard;
pub mod shards;
