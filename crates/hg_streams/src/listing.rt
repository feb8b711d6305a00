//! What is printed of a trace or of a store.

/// What is printed of a trace or of a store.
#[derive(Clone, Copy, Debug, PartialEq, Eq, Drop)]
pub enum Listing {
    /// The kept reports, and the end line.
    Reports,
    /// The thread segments.
    Segments,
}
