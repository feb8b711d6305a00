//! The operands that follow a verb.

ghost use Rattle.std.specs.Prelude.{◌+◌, ◌≤◌, [], ◌∷◌, length, drop, IfSome};
ghost use Rattle.hg_wire.specs.InFront.{HasOperands, IsOperand};

use crate::number::{number_at, short_number_at};

/// A space and a number of 64 bits at a place, and where they end.
#[inline(always)]
pub(crate) fn long_at(bytes: &[u8], from: usize) -> Option<(u64, usize)>
    requires { from + 20 ≤ length bytes.now }
    ensures operand { IfSome result (λ found. IsOperand 64 bytes.now from found.0 found.1) }
    ensures near { IfSome result (λ found. found.1 ≤ from + 20) }
{
    if bytes[from] != b' ' {
        return None;
    }
    number_at(bytes, from + 1)
}

/// A space and a number of 16 bits, spelled by few digits, at a place, and where they end.
#[inline(always)]
pub(crate) fn short_at(bytes: &[u8], from: usize) -> Option<(u16, usize)>
    requires { from + 7 ≤ length bytes.now }
    ensures operand { IfSome result (λ found. IsOperand 16 bytes.now from found.0 found.1) }
    ensures near { IfSome result (λ found. found.1 ≤ from + 7) }
{
    if bytes[from] != b' ' {
        return None;
    }
    let (value, end) = short_number_at(bytes, from + 1)?;
    if value > 0xffff {
        return None;
    }
    Some((value as u16, end))
}
