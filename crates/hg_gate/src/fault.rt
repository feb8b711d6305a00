//! Why a call of a log or of a gated file was refused.
ghost use Rattle.std.specs.Prelude.{◌≡◌};

use hg_disk::DiskFault;
use std::alloc::AllocError;
use thiserror::Error;

/// Why a call was refused.
#[derive(Clone, Copy, Debug, PartialEq, Eq, Error)]
pub enum GateFault {
    /// An earlier write, cut or sync of this value failed.
    #[error("an earlier device call failed")]
    Broken,
    /// The bytes are outside the grammar.
    #[error("the bytes are outside the grammar")]
    Damaged,
    /// A device call failed in this call.
    #[error("a device call failed")]
    DeviceFault,
    /// Memory was refused in this call.
    #[error("out of memory")]
    OutOfMemory,
}

impl From<DiskFault> for GateFault {
    ghost use Rattle.hg_gate.specs.declared.fault.GateFault.TheVariants.{DeviceFault};

    ghost from_gives = { λ _ e. e ≡ DeviceFault };

    fn from(_: DiskFault) -> GateFault {
        GateFault::DeviceFault
    }
}

impl From<AllocError> for GateFault {
    ghost use Rattle.hg_gate.specs.declared.fault.GateFault.TheVariants.{OutOfMemory};

    ghost from_gives = { λ _ e. e ≡ OutOfMemory };

    fn from(_: AllocError) -> GateFault {
        GateFault::OutOfMemory
    }
}
