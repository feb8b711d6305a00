//! Why a store was not migrated.
ghost use Rattle.std.specs.Prelude.{◌≡◌};

use hg_disk::DiskFault;
use std::alloc::AllocError;
use thiserror::Error;

/// Why a store was not migrated.
#[derive(Clone, Copy, Debug, PartialEq, Eq, Error)]
pub enum MigrationFault {
    /// A new journal file has bytes; for `empty_files`, an open gate.
    #[error("a new journal file has bytes")]
    NotEmpty,
    /// The old journal does not begin with its header.
    #[error("the old journal does not begin with its header")]
    Damaged,
    /// A device call failed.
    #[error("a device call failed")]
    DeviceFault,
    /// Memory was refused.
    #[error("out of memory")]
    OutOfMemory,
}

impl From<DiskFault> for MigrationFault {
    ghost use Rattle.hg_migration.specs.declared.fault.MigrationFault.TheVariants.{DeviceFault};

    ghost from_gives = { λ _ e. e ≡ DeviceFault };

    fn from(_: DiskFault) -> MigrationFault {
        MigrationFault::DeviceFault
    }
}

impl From<AllocError> for MigrationFault {
    ghost use Rattle.hg_migration.specs.declared.fault.MigrationFault.TheVariants.{OutOfMemory};

    ghost from_gives = { λ _ e. e ≡ OutOfMemory };

    fn from(_: AllocError) -> MigrationFault {
        MigrationFault::OutOfMemory
    }
}
