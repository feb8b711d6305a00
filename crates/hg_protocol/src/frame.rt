//! What a client sends.

ghost use Rattle.std.specs.Prelude.{◌≡◌, ℕ, length, IfSome, IfNone};
ghost use Rattle.std.specs.Int.{w64, to_be_bytes};
ghost use Rattle.hg_model.specs.declared.event.Event.{Event as EventOf};
ghost use Rattle.hg_protocol.specs.declared.frame.Frame.{Frame as FrameOf};
ghost use Rattle.hg_protocol.specs.Frames.{BodyIs, IsNumbered};

use crate::message::Message;
use hg_model::event::Event;
use hg_records::record::read_event;
use std::alloc::{AllocError, Global};

/// The most bytes that the body of a frame has.
pub const MOST_FRAME_BYTES: usize = 64;

/// What a client says in one frame.
#[derive(Clone, Copy, Debug, PartialEq, Eq, Drop)]
pub enum Frame {
    /// The first one: it names the source of the events.
    Hello { source: u16 },
    /// The source's event of this number.
    Event { number: u64, event: Event },
    /// Asks for all accepted events to be made durable.
    Ask,
    /// Asks for the reports.
    Reports,
    /// Ends the conversation.
    Bye,
}

/// The number that eight bytes spell.
#[inline(always)]
pub(crate) fn number_of(bytes: &[u8]) -> u64
    requires { length bytes.now ≡ 8 }
    ensures { to_be_bytes w64 result ≡ bytes.now }
{
    u64::from_be_bytes([
        bytes[0], bytes[1], bytes[2], bytes[3], bytes[4], bytes[5], bytes[6], bytes[7],
    ])
}

/// A number and an event, which take all of the bytes: a record without its source.
#[inline(always)]
fn read_numbered(bytes: &[u8]) -> Option<(u64, Event)>
    ensures some { IfSome result (λ r. IsNumbered bytes.now r.0 r.1) }
    ensures none { IfNone result ((number : ℕ) (event : EventOf) → IsNumbered bytes.now number event → ⊥) }
{
    if bytes.len() < 8 {
        return None;
    }
    let (front, rest) = bytes.split_at(8);
    match read_event(rest) {
        None => None,
        Some((event, used)) => {
            if used == rest.len() {
                Some((number_of(front), event))
            } else {
                None
            }
        }
    }
}

/// The frame of a body.
#[inline(always)]
fn read_body(body: &[u8]) -> Option<Frame>
    ensures some { IfSome result (BodyIs body.now) }
    ensures none { IfNone result ((frame : FrameOf) → BodyIs body.now frame → ⊥) }
{
    match body {
        [1, high, low] => Some(Frame::Hello {
            source: u16::from_be_bytes([*high, *low]),
        }),
        [2, numbered @ ..] => {
            let (number, event) = read_numbered(numbered)?;
            Some(Frame::Event { number, event })
        }
        [3] => Some(Frame::Ask),
        [4] => Some(Frame::Reports),
        [5] => Some(Frame::Bye),
        _ => None,
    }
}

impl Message for Frame {
    ghost use Rattle.hg_protocol.specs.declared.frame.TheConstants.{MOST_FRAME_BYTES};
    ghost use Rattle.hg_protocol.specs.Frames.{FrameFits, body_text};
    ghost use Rattle.hg_protocol.specs.FrameLaws.{frame_within, narrow_frame, one_frame};

    ghost MOST_BYTES = { MOST_FRAME_BYTES };

    ghost body = { body_text };

    ghost fits = { FrameFits };

    const MOST_BYTES: usize = MOST_FRAME_BYTES;

    #[inline(always)]
    fn read(_alloc: Global, bytes: &[u8]) -> Result<Option<Self>, AllocError> {
        Ok(read_body(bytes))
    }

    ghost narrow = { narrow_frame };

    ghost within = { frame_within };

    ghost one_message = { one_frame };
}
