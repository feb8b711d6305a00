//! The small parts of a root.

/// A source that sent something: its number, 0 to 1,023, and the last number that was accepted from it.
#[derive(Clone, Copy, Debug, PartialEq, Eq)]
pub struct SourceCount {
    /// The source.
    pub source: u16,
    /// The last accepted number: at least 1.
    pub last: u64,
}

/// A page and its slot: page p has the 256 words from the address 1,024 p on, and slot s has the 3,080 bytes from byte
/// 3,080 s on.
#[derive(Clone, Copy, Debug, PartialEq, Eq)]
pub struct PageSlot {
    /// The page.
    pub page: u64,
    /// Its slot.
    pub slot: u32,
}
