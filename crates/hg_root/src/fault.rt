//! Why a call of a root was refused.
ghost use Rattle.std.specs.Prelude.{◌≡◌};

use hg_gate::GateFault;
use std::alloc::{AllocError, AllocFailed};
use thiserror::Error;

/// Why a call was refused.
#[derive(Clone, Copy, Debug, PartialEq, Eq, Error)]
pub enum RootFault {
    /// An earlier write, cut or sync of one of the files failed.
    #[error("an earlier device call failed")]
    Broken,
    /// The bytes are outside the grammar.
    #[error("the bytes are outside the grammar")]
    Damaged,
    /// A device call failed in this call.
    #[error("a device call failed")]
    DeviceFault,
    /// Memory was refused in this call.
    #[error("out of memory")]
    OutOfMemory,
}

impl From<GateFault> for RootFault {
    ghost use Rattle.hg_root.specs.Fault.{of_gate};

    ghost from_gives = { λ fault e. e ≡ of_gate fault };

    fn from(fault: GateFault) -> RootFault {
        match fault {
            GateFault::Broken => RootFault::Broken,
            GateFault::Damaged => RootFault::Damaged,
            GateFault::DeviceFault => RootFault::DeviceFault,
            GateFault::OutOfMemory => RootFault::OutOfMemory,
        }
    }
}

impl From<AllocError> for RootFault {
    ghost use Rattle.hg_root.specs.declared.fault.RootFault.TheVariants.{OutOfMemory};

    ghost from_gives = { λ _ e. e ≡ OutOfMemory };

    fn from(_: AllocError) -> RootFault {
        RootFault::OutOfMemory
    }
}

impl<T: Drop> From<AllocFailed<T>> for RootFault {
    ghost use Rattle.hg_root.specs.declared.fault.RootFault.TheVariants.{OutOfMemory};

    ghost from_gives = { λ _ e. e ≡ OutOfMemory };

    fn from(_: AllocFailed<T>) -> RootFault {
        RootFault::OutOfMemory
    }
}
