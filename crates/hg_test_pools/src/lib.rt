//! Pools of pages over disks in memory: their steps, as lines say them (`answer_pools`), and traces that are checked over them (`check`).
//!
//! Each line of a text of steps has an answer in one line.
//!
//! | Line | Step |
//! |---|---|
//! | `known SEGMENTS SETS` | what cells are checked against from here on; the sets but the first one, as `0,1;5`, or `-` |
//! | `new FRAMES SLOTS FAILURES TABLE HEX` | a new pool over a disk with these bytes, of which these calls fail, as `0,7` or `12..`; the root's table, as `4:0,9:1`, of slots below SLOTS |
//! | `load P`, `keep P`, `evict`, `room`, `freeze`, `seal` | the call of the pool |
//! | `update P FROM TO CELL` | the page is loaded and kept, and its words from one up to the other get the cell: `new`, `e5`, `r1,2` or `m1,2` |
//! | `cells P` | the page is loaded, and its cells but the new ones are told |
//! | `take` | a job is taken, and its page and cells are told; it has the next number, from 0 on |
//! | `put N`, `changed N AT VALUE`, `renamed N P` | the job is handed in; with another byte in its slot; as another page |
//! | `open` | where the frozen map is sealed: the root of its table is open |
//! | `table` | the frozen table |
//! | `end` | the pool ends, and the calls of its disk are told; behind those that failed stands `!` |
//! | `image K TEAR` | of the last pool's disk, what a crash leaves after K calls; TEAR is `lost`, `kept`, `front9` or `fill255` |
//!
//! Behind the answer of a pool stand the number of its frames in use, that of its copies, and whether `all` is written or `some` is not.
#![tactic(auto)]

mod bench;
mod cells;
mod checking;
mod checkpoint;
mod disk;
mod events;
mod maps;
mod opening;
mod printing;
mod trial;

use crate::bench::PoolBench;
pub use crate::checking::{Way, check, way_of};
use hg_test_kit::text::Text;
use std::alloc::Global;

/// Appends an answer for each line of a text.
pub fn answer_pools(alloc: Global, text: &str, out: &mut Text) {
    match PoolBench::new(alloc) {
        Some(mut bench) => {
            for line in text.lines() {
                bench.answer(line, out);
            }
        }
        None => out.put(b"no memory\n"),
    }
}
