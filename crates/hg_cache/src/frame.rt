//! A page in memory.
use hg_cells::Page;

/// A page in memory.
#[derive(Drop)]
pub struct Frame {
    /// Its cells.
    pub cells: Page,
    /// Whether it was changed since it was new, read from its slot or written to it.
    pub is_dirty: bool,
}

/// A frame in its place, and the page that has it.
#[derive(Drop)]
pub(crate) struct Placed {
    pub(crate) page: u64,
    pub(crate) frame: Frame,
}
