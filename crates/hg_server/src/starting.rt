//! Whether the threads of a server can be made.

use std::alloc::Global;
use std::sync::atomic::{AtomicUsize, Ordering};
use std::thread;
use std::thread::Threads;
use std::time::{Clock, Duration};

/// How long a thread waits for the others, in milliseconds.
const MOST_MILLISECONDS: u32 = 5000;

/// Comes to a meeting of so many threads. Tells whether all of them came.
fn meets<R: Clock>(rt: &R, count: usize, arrived: &AtomicUsize) -> bool {
    arrived.fetch_add(1, Ordering::SeqCst);
    for _ in 0..MOST_MILLISECONDS {
        if arrived.load(Ordering::SeqCst) >= count {
            return true;
        }
        thread::sleep(rt, Duration::from_millis(1));
    }
    false
}

/// Whether so many threads can run at once, this one among them. They are made, meet, and end.
pub(crate) fn can_start<R: Threads + Clock + Sync>(rt: &R, alloc: Global, count: usize) -> bool {
    let arrived = AtomicUsize::new(0);
    let arrived = &arrived;
    let Ok(all) = thread::map_indices(rt, alloc, count, &|_number| meets(rt, count, arrived)) else {
        return false;
    };
    all.as_slice().iter().all(|met| *met)
}
