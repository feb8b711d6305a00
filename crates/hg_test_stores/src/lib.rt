//! Scenarios of stores over disks in memory (tests/scenarios).
#![tactic(auto)]

mod actions;
mod checkpoints;
mod machine;
mod memory_store;
mod opening;
mod running;
mod steps;
mod stops;
mod store_world;
mod telling;

use crate::memory_store::MemoryStore;
use crate::store_world::StoreWorld;
use hg_test_kit::run::run_scenarios;
use hg_test_kit::text::Text;
use std::alloc::Global;

/// Runs the scenarios of a text, appends a line for each, and tells whether none failed.
pub fn run_stores(alloc: Global, text: &str, out: &mut Text) -> bool {
    let mut world = StoreWorld::new(alloc, MemoryStore::new(alloc), MemoryStore::new(alloc));
    run_scenarios(alloc, &mut world, text, out)
}
