//! What the front of a body says of a root.
ghost use Rattle.std.specs.Prelude.{◌≡◌, false, IsTrue, length};
ghost use Rattle.hg_root.specs.Opening.{BeginsNoRoot, IsOpening, opening_at};
ghost use Rattle.hg_root.specs.Reading.{Gives};

use crate::body::{FORMER_HEADER, HEADER};
use crate::fault::RootFault;
use crate::piece::{u32_at, u64_at};
use crate::root::MOST_CHECKPOINTS;
use hg_gate::{BodyTest, FRONT_LEN};
use hg_model::limits::{MOST_EVENTS, MOST_SEGMENTS};

/// Wants the bodies of roots.
#[derive(Clone, Copy, Drop)]
pub(crate) struct RootTest;

impl BodyTest for RootTest {
    ghost use Rattle.hg_root.specs.Opening.{IsSomeRoot};

    ghost wants = { λ test body. IsSomeRoot body };

    fn may_want(&self, len: u64, front: &[u8]) -> bool {
        len >= FRONT_LEN as u64 && may_begin(front)
    }
}

/// The header, the number of the checkpoint, and the counts of events and of segments.
fn opening_of(bytes: &[u8]) -> Result<((u64, (u64, (u64, u32))), &[u8]), RootFault>
    ensures { Gives (λ x. (x.0, x.1.now)) result (opening_at bytes.now) }
{
    let (header, rest) = u64_at(bytes)?;
    let (number, rest) = u64_at(rest)?;
    let (events, rest) = u64_at(rest)?;
    let (segments, rest) = u32_at(rest)?;
    Ok(((header, (number, (events, segments))), rest))
}

/// Whether a root may have this header, this number and these counts.
fn is_opening(header: u64, number: u64, events: u64, segments: u32) -> bool
    ensures { IsOpening header number events segments → IsTrue result }
{
    if header != HEADER && header != FORMER_HEADER {
        return false;
    }
    1 <= number
        && number <= MOST_CHECKPOINTS
        && events <= MOST_EVENTS
        && 1 <= segments
        && segments <= MOST_SEGMENTS
}

/// Whether a root's body may begin with these bytes.
fn may_begin(front: &[u8]) -> bool
    ensures { result ≡ false → BeginsNoRoot front.now }
{
    match opening_of(front) {
        Ok(((header, (number, (events, segments))), _rest)) => {
            is_opening(header, number, events, segments)
        }
        Err(RootFault::Damaged) => false,
        Err(_) => true,
    }
}
