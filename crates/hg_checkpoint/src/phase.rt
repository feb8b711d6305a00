//! How far a checkpoint is, and why a call was refused.

use crate::cause::Cause;

/// How far the checkpoint in progress is.
#[derive(Clone, Copy, Debug, PartialEq, Eq, Drop)]
pub enum Phase {
    /// There is none.
    Idle,
    /// The map of words is frozen, and its pages are being written.
    Flushing,
    /// The pages of the frozen map are durable.
    Sealed,
    /// The file that the root goes to is closed.
    Prepared,
    /// The root is durable behind its closed gate.
    Written,
}

/// Why a call was refused.
#[derive(Clone, Copy, Debug, PartialEq, Eq, Drop)]
pub enum CheckpointFault {
    /// This phase does not allow the call. Nothing was changed.
    WrongPhase(Phase),
    /// This phase allows the call, but it was refused for this cause.
    Refused(Cause),
}
