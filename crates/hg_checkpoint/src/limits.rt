//! Limits of a detector over a pool.

/// Limits of a detector and of the memory of its pool. They are not stored.
#[derive(Clone, Copy, Debug, PartialEq, Eq)]
pub struct Limits {
    /// The greatest number of sets of threads and of locks: at most 262,144.
    pub sets: u32,
    /// The number of slots of pages: at most 1,048,576.
    pub slots: u32,
    /// The greatest number of pages in memory: 2 to 4,096.
    pub frames: usize,
}
