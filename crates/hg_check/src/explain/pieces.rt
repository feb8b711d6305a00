//! Pieces of a line.

ghost use Rattle.std.specs.Prelude.{◌≡◌, ◌++◌, IfErr};
ghost use Rattle.std.specs.Fmt.{decimal};
ghost use Rattle.std.specs.List.{flat_map};
ghost use Rattle.hg_check.specs.Holding.{HoldsMore};
ghost use Rattle.hg_wire.specs.Reports.{predecessors_text};

use hg_model::verdict::Refusal;
use itoa::Buffer;

/// Holds the pieces.
pub fn hold_all(pieces: &[&[u8]], held: &mut Vec<u8>) -> Result<(), Refusal>
    ensures ok { HoldsMore result held.old held.new (flat_map (λ piece. piece.now) pieces.now) }
    ensures cause { IfErr result (λ r. r ≡ Refusal.OutOfMemory) }
{
    for piece in pieces {
        held.extend_from_slice(piece)?;
    }
    Ok(())
}

/// Holds the bytes.
pub fn hold(bytes: &[u8], held: &mut Vec<u8>) -> Result<(), Refusal>
    ensures ok { HoldsMore result held.old held.new bytes.now }
    ensures cause { IfErr result (λ r. r ≡ Refusal.OutOfMemory) }
{
    Ok(held.extend_from_slice(bytes)?)
}

/// Holds the bytes, and a number in decimal after them.
pub fn hold_number(bytes: &[u8], number: u64, held: &mut Vec<u8>) -> Result<(), Refusal>
    ensures ok { HoldsMore result held.old held.new (bytes.now ++ decimal number) }
    ensures cause { IfErr result (λ r. r ≡ Refusal.OutOfMemory) }
{
    let mut buffer = Buffer::new();
    let pieces = [bytes, buffer.format(number).as_bytes()];
    hold_all(&pieces, held)
}

/// Holds the numbers in decimal, with a comma between each two, or a hyphen for none.
pub fn hold_members(members: &[u16], held: &mut Vec<u8>) -> Result<(), Refusal>
    ensures ok { HoldsMore result held.old held.new (predecessors_text members.now) }
    ensures cause { IfErr result (λ r. r ≡ Refusal.OutOfMemory) }
{
    let [first, others @ ..] = members else {
        return hold(b"-", held);
    };
    hold_number(b"", u64::from(*first), held)?;
    for member in others {
        hold_number(b",", u64::from(*member), held)?;
    }
    Ok(())
}

/// Holds two numbers, each behind its bytes.
pub fn hold_two(
    front: &[u8],
    first: u32,
    between: &[u8],
    second: u32,
    held: &mut Vec<u8>,
) -> Result<(), Refusal>
    ensures ok { HoldsMore result held.old held.new (front.now ++ decimal first ++ between.now ++ decimal second) }
    ensures cause { IfErr result (λ r. r ≡ Refusal.OutOfMemory) }
{
    let mut one = Buffer::new();
    let mut other = Buffer::new();
    let pieces = [
        front,
        one.format(first).as_bytes(),
        between,
        other.format(second).as_bytes(),
    ];
    hold_all(&pieces, held)
}
