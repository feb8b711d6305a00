//! The state of a word, and the accesses that led to it.

use crate::sets::NumberSet;

/// What is known of the accesses to a word since it was last allocated or freed.
#[derive(Drop)]
pub enum WordState {
    /// Not accessed.
    New,
    /// Accessed by one segment after another.
    Exclusive {
        segment: u32,
    },
    /// Accessed by these threads, and only read since; these locks were held at each access.
    SharedRead {
        threads: NumberSet,
        locks: NumberSet,
    },
    /// Accessed by these threads, and written to since it is shared; these locks were held at each access.
    SharedModified {
        threads: NumberSet,
        locks: NumberSet,
    },
}

/// One access to a word: its number in the trace, its thread, that thread's segment, whether it writes, and the locks that count.
#[derive(Drop)]
pub struct HistoryItem {
    pub event: u64,
    pub thread: u16,
    pub segment: u32,
    pub write: bool,
    pub locks: NumberSet,
}
