//! The frames that are answered in one hold of the lock.

ghost use Rattle.std.specs.Prelude.{IsTrue};
ghost use Rattle.hg_desk.specs.Conversation.{IsEvent, IsTurn};

use hg_protocol::frame::Frame;

/// The most frames that are answered in one hold of the lock.
pub const MOST_TURN: usize = 1024;

fn is_event(frame: &Frame) -> bool
    ensures { IsTrue result → IsEvent frame.now }
{
    match frame {
        Frame::Event { .. } => true,
        _ => false,
    }
}

/// How many of these frames are answered in one hold of the lock: the events at their front, and the frame behind them. So a hold makes one
/// commit at most and has one list of reports at most, and the room for its replies is bounded.
pub fn turn_len(frames: &[Frame]) -> usize
    ensures { IsTurn frames.now result }
{
    let mut len = 0;
    for frame in frames {
        len += 1;
        if !is_event(frame) {
            return len;
        }
        if len == MOST_TURN {
            return len;
        }
    }
    len
}
