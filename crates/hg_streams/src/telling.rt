//! How a command tells a fault, and ends by it.

ghost use Rattle.std.specs.Prelude.{◌≡◌};
ghost use Rattle.hg_model.specs.Codes.{code_of};
ghost use Rattle.hg_streams.specs.Texts.{fault_text};
ghost use Rattle.hg_streams.specs.Faults.{IsTold};

use crate::output::Output;
use hg_model::verdict::Refusal;
use std::io::Write;

/// The status of a fault.
pub const FAULT: u8 = 3;

/// The line of a fault, which takes no memory.
fn fault_line(refusal: Refusal) -> &'static [u8]
    ensures { result.now ≡ fault_text (code_of refusal) }
{
    match refusal {
        Refusal::Gap(_) => b"fault 1\n",
        Refusal::BadNumber => b"fault 2\n",
        Refusal::BadLength => b"fault 3\n",
        Refusal::AddressEnd => b"fault 4\n",
        Refusal::NoThread => b"fault 5\n",
        Refusal::ChildUsed => b"fault 6\n",
        Refusal::SelfJoin => b"fault 7\n",
        Refusal::ChildNotAlive => b"fault 8\n",
        Refusal::ChildHoldsLocks => b"fault 9\n",
        Refusal::Broken => b"fault 10\n",
        Refusal::Damaged => b"fault 11\n",
        Refusal::AlreadyHeld => b"fault 12\n",
        Refusal::LockBusy => b"fault 13\n",
        Refusal::NotHeld => b"fault 14\n",
        Refusal::FullHeld => b"fault 15\n",
        Refusal::FullSegments => b"fault 16\n",
        Refusal::FullEvents => b"fault 17\n",
        Refusal::FullPending => b"fault 18\n",
        Refusal::FullSets => b"fault 19\n",
        Refusal::FullSlots => b"fault 20\n",
        Refusal::DeviceFault => b"fault 21\n",
        Refusal::OutOfMemory => b"fault 22\n",
        Refusal::MessageUsed => b"fault 23\n",
        Refusal::NotSent => b"fault 24\n",
        Refusal::MessageTaken => b"fault 25\n",
    }
}

/// Tells a fault on `faults` by the code of its refusal. The calls of `faults` show whether the write failed.
pub fn tell<V: Write>(refusal: Refusal, faults: &mut Output<V>)
    ensures { IsTold faults.old.calls faults.new.calls refusal }
{
    match faults.write(fault_line(refusal)) {
        Ok(()) => {}
        Err(_) => {}
    }
}

/// Ends a command by a fault: tells it on `faults`, and answers the status of faults, 3.
pub fn end_by_fault<V: Write>(refusal: Refusal, faults: &mut Output<V>) -> u8
    ensures status { result ≡ 3 }
    ensures told { IsTold faults.old.calls faults.new.calls refusal }
{
    tell(refusal, faults);
    FAULT
}
