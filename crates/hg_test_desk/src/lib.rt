//! Conversations over stores on disks in memory, and flushers and workers over such stores, line by line.
#![tactic(auto)]

mod flushing;
mod load;
mod meeting;
mod peer;
mod replies;
mod table;
mod telling;
mod world;

pub use crate::flushing::run_flushers;
use crate::world::run_store;
use hg_test_kit::text::Text;
use std::alloc::Global;

/// Runs each part of the text over a store of its own, and appends what each line is answered. The word `store` begins a part.
pub fn run_conversations(alloc: Global, text: &str, out: &mut Text) {
    for part in text.split("store\n") {
        if !part.is_empty() {
            run_store(alloc, part, out);
        }
    }
}
