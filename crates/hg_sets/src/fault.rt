//! Why a set has no number.

ghost use Rattle.std.specs.Prelude.{◌≡◌};
ghost use Rattle.hg_sets.specs.declared.fault.SetFault.TheVariants.{OutOfMemory};

use hg_model::verdict::Refusal;
use std::alloc::AllocError;
use thiserror::Error;

/// Why a set has no number.
#[derive(Clone, Copy, Debug, PartialEq, Eq, Error)]
pub enum SetFault {
    /// The set is absent, and the table has as many sets as it may have.
    #[error("the table of sets is full")]
    Full,
    /// The set is absent, and there was no memory for it.
    #[error("out of memory")]
    OutOfMemory,
}

impl From<AllocError> for SetFault {
    ghost from_gives = { λ _ e. e ≡ OutOfMemory };

    fn from(_e: AllocError) -> SetFault {
        SetFault::OutOfMemory
    }
}

/// A fault of the table refuses the event that asked for a set.
impl From<SetFault> for Refusal {
    ghost use Rattle.hg_sets.specs.Faults.{refusal_of};

    ghost from_gives = { λ fault r. r ≡ refusal_of fault };

    fn from(fault: SetFault) -> Refusal {
        match fault {
            SetFault::Full => Refusal::FullSets,
            SetFault::OutOfMemory => Refusal::OutOfMemory,
        }
    }
}
