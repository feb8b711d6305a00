//! A report as a detector keeps it.

/// A report, its threads by the number of their set. `word` is the address of the word's first byte.
#[derive(Clone, Copy)]
pub struct KeptReport {
    /// The number of the event in the trace, counted from 1.
    pub event: u64,
    /// The address of the word: its low two bits are 0.
    pub word: u64,
    /// The set of the threads that share the word after this access, by its number in the table of sets.
    pub threads: u32,
    /// The acting thread.
    pub thread: u16,
    /// Whether it is a write.
    pub write: bool,
}
