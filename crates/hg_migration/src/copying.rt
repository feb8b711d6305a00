//! Copying from one disk to the end of another, by pieces.
ghost use Rattle.std.specs.Prelude.{◌≡◌, ◌+◌, ◌-◌, ◌≤◌, IsTrue, length, OnOk};
ghost use Rattle.hg_disk.specs.State.{counted};
ghost use Rattle.hg_disk.specs.Calls.{CallsAtMost};
ghost use Rattle.hg_gate.specs.Reading.{WasRead};
ghost use Rattle.hg_migration.specs.Copying.{Appends, KeepsGate, StaysClosed, pieces_in};
ghost use Rattle.hg_gate.specs.declared.reader.TheConstants.{PIECE_LEN as PIECE};

use hg_disk::{Disk, DiskFault};
use hg_gate::PIECE_LEN;

// Puts the bytes that `from` has at the offset `at` behind the last byte of `to`: as many as the buffer has.
fn append_piece<D: Disk>(
    from: &mut D,
    at: u64,
    to: &mut D,
    buffer: &mut [u8],
) -> Result<(), DiskFault>
    requires within { at + length buffer.old ≤ length (D.state from.old).contents }
    ensures size { length buffer.new ≡ length buffer.old }
    ensures appended { OnOk result (Appends ⟦<D as Disk>⟧ (D.state from.old).contents at (length buffer.old) (D.state to.old).contents (D.state to.new).contents) }
    ensures gate { OnOk result (KeepsGate ⟦<D as Disk>⟧ to.old to.new) }
    ensures any_moment { StaysClosed ⟦<D as Disk>⟧ to.old to.new }
    ensures read { WasRead ⟦<D as Disk>⟧ 1 from.old from.new }
    ensures calls { CallsAtMost ⟦<D as Disk>⟧ 1 to.old to.new }
    ensures failures { D.failures from.new + D.failures to.new ≡ counted result (D.failures from.old + D.failures to.old) }
{
    from.read_at(at, buffer)?;
    to.write_at(to.len(), buffer)
}

// Puts the bytes that `from` has from the offset `at` on behind the last byte of `to`, by pieces as long as the buffer.
pub(crate) fn append_rest<D: Disk>(
    from: &mut D,
    at: u64,
    to: &mut D,
    buffer: &mut [u8],
) -> Result<(), DiskFault>
    requires within { at ≤ length (D.state from.old).contents }
    requires buffer { length buffer.old ≡ PIECE }
    ensures appended { OnOk result (Appends ⟦<D as Disk>⟧ (D.state from.old).contents at (length (D.state from.old).contents - at) (D.state to.old).contents (D.state to.new).contents) }
    ensures gate { OnOk result (KeepsGate ⟦<D as Disk>⟧ to.old to.new) }
    ensures any_moment { StaysClosed ⟦<D as Disk>⟧ to.old to.new }
    ensures read { WasRead ⟦<D as Disk>⟧ (pieces_in (length (D.state from.old).contents - at)) from.old from.new }
    ensures calls { CallsAtMost ⟦<D as Disk>⟧ (pieces_in (length (D.state from.old).contents - at)) to.old to.new }
    ensures failures { D.failures from.new + D.failures to.new ≡ counted result (D.failures from.old + D.failures to.old) }
{
    let len = from.len();
    let mut next = at;
    while next < len {
        let count = (len - next).min(PIECE_LEN as u64) as usize;
        append_piece(from, next, to, &mut buffer[..count])?;
        next += count as u64;
    }
    Ok(())
}
