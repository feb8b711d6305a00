//! Why a freeze was refused.
ghost use Rattle.std.specs.Prelude.{◌≡◌};

use hg_model::verdict::Refusal;
use std::alloc::AllocError;

/// Why a freeze was refused.
#[derive(Clone, Copy, Debug, PartialEq, Eq, Drop)]
pub enum FreezeFault {
    /// Fewer slots are free than pages were changed.
    FullSlots,
    /// A growth of memory was refused in this call.
    OutOfMemory,
}

impl From<AllocError> for FreezeFault {
    ghost use Rattle.hg_pool.specs.declared.fault.FreezeFault.TheVariants.{OutOfMemory};

    ghost from_gives = { λ _ e. e ≡ OutOfMemory };

    fn from(_: AllocError) -> FreezeFault {
        FreezeFault::OutOfMemory
    }
}

/// The refusal of the same name.
impl From<FreezeFault> for Refusal {
    ghost use Rattle.hg_pool.specs.Answers.{refusal_of};

    ghost from_gives = { λ fault refusal. refusal ≡ refusal_of fault };

    fn from(fault: FreezeFault) -> Refusal {
        match fault {
            FreezeFault::FullSlots => Refusal::FullSlots,
            FreezeFault::OutOfMemory => Refusal::OutOfMemory,
        }
    }
}
