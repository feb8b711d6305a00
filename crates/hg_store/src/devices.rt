//! The devices of a store, and the limits of a store.

ghost use Rattle.std.specs.Prelude.{◌≡◌};

pub use hg_pages::{MOST_SLOTS, SLOT_LEN};
use hg_sets::MOST_SETS;

/// The five devices of a store.
#[derive(Debug, Drop)]
pub struct Devices<D> {
    /// One of the two journals, which take turns: the events, in the batches in which they were committed.
    pub journal0: D,
    /// The other one.
    pub journal1: D,
    /// The pages of checkpoints.
    pub slots: D,
    /// One of the two heads of checkpoints.
    pub root0: D,
    /// The other one.
    pub root1: D,
}

/// The limits of a store. They are not stored.
#[derive(Clone, Copy, Debug, PartialEq, Eq)]
pub struct Caps {
    /// The greatest number of sets of threads and of locks: 1 to 262,144.
    pub sets: u32,
    /// The number of slots of pages: 1 to 1,048,576.
    pub slots: u32,
}

impl Caps {
    /// The greatest.
    pub fn profile() -> Caps
        ensures { (result.sets ≡ MOST_SETS) × (result.slots ≡ MOST_SLOTS) }
    {
        Caps {
            sets: MOST_SETS,
            slots: MOST_SLOTS,
        }
    }
}
