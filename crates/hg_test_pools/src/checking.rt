//! A trace text checked as `hgd check` does, with the cells of its words in one of two maps.

use crate::maps::{check_in_memory, check_over_pool};
use crate::printing::put_fault;
use hg_test_kit::text::Text;
use std::alloc::Global;

/// Which map the cells lie in.
#[derive(Clone, Copy)]
pub enum Way {
    /// All pages stand in memory.
    Memory,
    /// At most so many pages stand in memory, over a file of slots on a disk in memory. After each `every` events (0: never) the pages
    /// that wait are written and sealed, the map is frozen anew, and half of its pages are written.
    Pool { frames: usize, every: u64 },
}

/// The map that words name: `memory`, or `pool FRAMES EVERY`.
pub fn way_of(words: &[String]) -> Option<Way> {
    match words {
        [name] if name.as_str() == "memory" => Some(Way::Memory),
        [name, frames, every] if name.as_str() == "pool" => Some(Way::Pool {
            frames: frames.as_str().parse::<usize>().ok()?,
            every: every.as_str().parse::<u64>().ok()?,
        }),
        _ => None,
    }
}

/// Checks a text, appends what is to be printed, and answers the status: 0, or 2 where a line was refused or bad. Where the map has a
/// fault or memory is refused it is 3, and the one line is `fault C`.
pub fn check(alloc: Global, way: Way, text: &[u8], out: &mut Text) -> u8 {
    let checked = match way {
        Way::Memory => check_in_memory(alloc, text, out),
        Way::Pool { frames, every } => check_over_pool(alloc, text, frames, every, out),
    };
    match checked {
        Ok(status) => status,
        Err(refusal) => put_fault(refusal, out),
    }
}
