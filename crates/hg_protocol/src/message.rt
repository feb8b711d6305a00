//! What frames carry in one direction.

ghost use Rattle.std.specs.Prelude.{◌≡◌, ℕ, ◌<◌, ◌≤◌, ◌^◌, List, length, IfOk, IfSome, IfNone};

use std::alloc::{AllocError, Global};

/// Why bytes are no frames.
#[derive(Clone, Copy, Debug, PartialEq, Eq, Drop)]
pub enum FrameFault {
    /// The length of a body is 0, or above `MOST_BYTES`.
    Length,
    /// A whole body spells no message.
    Body,
}

/// The messages of one direction, with their grammar. A frame is the length of a message's body, as a u16 with its high byte
/// first, and the body.
pub trait Message {
    /// The most bytes that a body has.
    ghost MOST_BYTES: { ℕ };

    /// A message's body.
    ghost body: { Self → List ℕ };

    /// The message has a spelling: each field is within its width.
    ghost fits: { Self → Type 0 };

    /// The most bytes that a body has.
    const MOST_BYTES: usize;

    /// Reads a whole body. `None` says that it spells no message.
    fn read(alloc: Global, bytes: &[u8]) -> Result<Option<Self>, AllocError>
        ensures some { IfOk result (λ read. IfSome read (λ message. fits message × (bytes.now ≡ body message))) }
        ensures none { IfOk result (λ read.
            IfNone read ((message : Self) → fits message → bytes.now ≡ body message → ⊥)) };

    /// The length of a body fits its two bytes.
    ghost narrow: { MOST_BYTES < 2 ^ 16 };

    /// A body has 1 to `MOST_BYTES` bytes.
    ghost within: { (message : Self) → fits message → (1 ≤ length (body message)) × (length (body message) ≤ MOST_BYTES) };

    /// Different messages have different bodies.
    ghost one_message: { (a b : Self) → fits a → fits b → body a ≡ body b → a ≡ b };
}
