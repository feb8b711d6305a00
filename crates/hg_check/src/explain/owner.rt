//! How a word goes from one owner to another.

ghost use Rattle.std.specs.Prelude.{◌≡◌, ◌<◌, IfErr, length};
ghost use Rattle.hg_check.specs.Holding.{HoldsMore};
ghost use Rattle.hg_check.specs.Life as life;

use crate::explain::pieces::{hold_number, hold_two};
use hg_detect::memory::MemoryDetector;
use hg_model::segment::Mark;
use hg_model::verdict::Refusal;

/// Holds from which segment a word goes to which one, and by which message, if it goes by one.
pub fn hold_owner(
    detector: &MemoryDetector,
    owner: u32,
    next: u32,
    held: &mut Vec<u8>,
) -> Result<(), Refusal>
    requires { next < length detector.now.segments }
    ensures ok { HoldsMore result held.old held.new (life.owner_text detector.now.segments owner next) }
    ensures cause { IfErr result (λ r. r ≡ Refusal.OutOfMemory) }
{
    if owner == next {
        return Ok(());
    }
    hold_two(b" ; owner changes along ", owner, b" -> ", next, held)?;
    let entry = detector.graph().entry(owner, next)?;
    if entry == owner {
        return Ok(());
    }
    hold_message(detector.segments()[entry as usize].mark, held)
}

/// Holds the message of a receive.
fn hold_message(mark: Mark, held: &mut Vec<u8>) -> Result<(), Refusal>
    ensures ok { HoldsMore result held.old held.new (life.message_text mark) }
    ensures cause { IfErr result (λ r. r ≡ Refusal.OutOfMemory) }
{
    match mark {
        Mark::Got(message) => hold_number(b" by message ", u64::from(message), held),
        _ => Ok(()),
    }
}
