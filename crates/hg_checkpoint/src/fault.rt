//! Why the head of a root was not made.
ghost use Rattle.std.specs.Prelude.{◌≡◌};

use std::alloc::AllocError;

/// Why the head of a root was not made.
#[derive(Clone, Copy, Debug, PartialEq, Eq, Drop)]
pub enum HeadFault {
    /// A part of it has no spelling.
    Damaged,
    /// A growth of memory was refused in this call.
    OutOfMemory,
}

impl From<AllocError> for HeadFault {
    ghost use Rattle.hg_checkpoint.specs.declared.fault.HeadFault.TheVariants.{OutOfMemory};

    ghost from_gives = { λ _ e. e ≡ OutOfMemory };

    fn from(_: AllocError) -> HeadFault {
        HeadFault::OutOfMemory
    }
}
