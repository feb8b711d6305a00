//! Why a step of a checkpoint was refused, and the conversions between such a cause and those of other layers.
ghost use Rattle.std.specs.Prelude.{◌≡◌};

use hg_model::verdict::Refusal;
use hg_pages::WriteFault;
use hg_pool::FreezeFault;
use hg_root::RootFault;

/// Why a step of a checkpoint was refused that its phase allows.
#[derive(Clone, Copy, Debug, PartialEq, Eq, Drop)]
pub enum Cause {
    /// A write, a cut or a sync of a device failed earlier.
    Broken,
    /// A part of the root has no spelling, or a file is outside the grammar.
    Damaged,
    /// A device failed in this call.
    DeviceFault,
    /// The newest root has the last number.
    FullEvents,
    /// Too few slots are free.
    FullSlots,
    /// A growth of memory was refused in this call.
    OutOfMemory,
}

/// The cause of a freeze that the pool refused.
impl From<FreezeFault> for Cause {
    ghost use Rattle.hg_checkpoint.specs.Told.{of_freeze};

    ghost from_gives = { λ fault cause. cause ≡ of_freeze fault };

    fn from(fault: FreezeFault) -> Cause {
        match fault {
            FreezeFault::FullSlots => Cause::FullSlots,
            FreezeFault::OutOfMemory => Cause::OutOfMemory,
        }
    }
}

/// The cause that tells a fault of a write or a sync of the slots.
impl From<WriteFault> for Cause {
    ghost use Rattle.hg_checkpoint.specs.Told.{of_write};

    ghost from_gives = { λ fault cause. cause ≡ of_write fault };

    fn from(fault: WriteFault) -> Cause {
        match fault {
            WriteFault::Broken => Cause::Broken,
            WriteFault::DeviceFault => Cause::DeviceFault,
        }
    }
}

/// The cause that tells a fault of a root file.
impl From<RootFault> for Cause {
    ghost use Rattle.hg_checkpoint.specs.Told.{of_root};

    ghost from_gives = { λ fault cause. cause ≡ of_root fault };

    fn from(fault: RootFault) -> Cause {
        match fault {
            RootFault::Broken => Cause::Broken,
            RootFault::Damaged => Cause::Damaged,
            RootFault::DeviceFault => Cause::DeviceFault,
            RootFault::OutOfMemory => Cause::OutOfMemory,
        }
    }
}

/// The refusal of this name, as it is printed.
impl From<Cause> for Refusal {
    ghost use Rattle.hg_checkpoint.specs.Told.{refusal_of};

    ghost from_gives = { λ cause refusal. refusal ≡ refusal_of cause };

    fn from(cause: Cause) -> Refusal {
        match cause {
            Cause::Broken => Refusal::Broken,
            Cause::Damaged => Refusal::Damaged,
            Cause::DeviceFault => Refusal::DeviceFault,
            Cause::FullEvents => Refusal::FullEvents,
            Cause::FullSlots => Refusal::FullSlots,
            Cause::OutOfMemory => Refusal::OutOfMemory,
        }
    }
}
