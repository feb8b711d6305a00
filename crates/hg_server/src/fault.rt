//! Why serving a store failed.

ghost use Rattle.std.specs.Prelude.{◌≡◌};

use hg_model::verdict::Refusal;
use std::alloc::AllocError;

/// Why a store was not served to its end with all events durable.
#[derive(Clone, Copy, Drop)]
pub(crate) enum ServingFault {
    /// A device had failed before the last commit, and the store is broken.
    Broken,
    /// The last commit failed, or no more connections came, though workers took too few.
    DeviceFault,
    /// Memory was refused.
    OutOfMemory,
}

impl From<AllocError> for ServingFault {
    ghost use Rattle.hg_server.specs.declared.fault.ServingFault.TheVariants.{OutOfMemory};

    ghost from_gives = { λ _ fault. fault ≡ OutOfMemory };

    fn from(_: AllocError) -> ServingFault {
        ServingFault::OutOfMemory
    }
}

/// The refusal of this name, as it is printed.
impl From<ServingFault> for Refusal {
    ghost use Rattle.hg_server.specs.Recording.{refusal_of};

    ghost from_gives = { λ fault refusal. refusal ≡ refusal_of fault };

    fn from(fault: ServingFault) -> Refusal {
        match fault {
            ServingFault::Broken => Refusal::Broken,
            ServingFault::DeviceFault => Refusal::DeviceFault,
            ServingFault::OutOfMemory => Refusal::OutOfMemory,
        }
    }
}
