//! What stands at the front of some bytes.

ghost use Rattle.std.specs.Prelude.{IfOk};
ghost use Rattle.hg_protocol.specs.Framing.{IsFront};

use crate::message::{FrameFault, Message};
use std::alloc::{AllocError, Global};

/// What stands at the front of some bytes.
#[derive(Drop)]
pub(crate) enum Front<M> {
    /// A frame of `used` bytes.
    Whole { message: M, used: usize },
    /// Less than a frame.
    Unfinished,
    /// No frame, whatever bytes follow.
    Faulty { fault: FrameFault },
}

/// Tells what stands at the front of the bytes.
#[inline(always)]
pub(crate) fn read_front<M: Message + Drop>(
    alloc: Global,
    bytes: &[u8],
) -> Result<Front<M>, AllocError>
    ensures { IfOk result (IsFront ⟦<M as Message>⟧ bytes.now) }
{
    let [high, low, rest @ ..] = bytes else {
        return Ok(Front::Unfinished);
    };
    let len = usize::from(u16::from_be_bytes([*high, *low]));
    if len == 0 || len > M::MOST_BYTES {
        return Ok(Front::Faulty {
            fault: FrameFault::Length,
        });
    }
    if rest.len() < len {
        return Ok(Front::Unfinished);
    }
    match M::read(alloc, &rest[..len])? {
        Some(message) => Ok(Front::Whole {
            message,
            used: 2 + len,
        }),
        None => Ok(Front::Faulty {
            fault: FrameFault::Body,
        }),
    }
}
