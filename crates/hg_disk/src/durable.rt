//! A write and the sync that makes it durable.
ghost use Rattle.std.specs.Prelude.{◌≡◌, ◌+◌, ◌≤◌, ◌^◌, length, OnOk};
ghost use Rattle.hg_disk.specs.State.{settled, overwritten, counted};
ghost use Rattle.hg_disk.specs.Calls.{CallsAtMost};
ghost use Rattle.hg_disk.specs.Moments.{LeavesTorn};

use crate::{Disk, DiskFault};

/// Writes the bytes and syncs. A crash during the call leaves what a torn write may leave, and so does a crash after an
/// `Err`. After an `Ok` a crash leaves the file with these bytes, and nothing else. It makes at most two device calls.
pub fn write_through<D: Disk>(disk: &mut D, at: u64, bytes: &[u8]) -> Result<(), DiskFault>
    ensures durable { OnOk result (D.state disk.new ≡ settled (overwritten (D.state disk.old).contents at bytes.now)) }
    ensures any_moment { LeavesTorn ⟦<D as Disk>⟧ at bytes.now disk.old disk.new }
    ensures fits { OnOk result (at + length bytes.now ≤ 2 ^ 62) }
    ensures calls { CallsAtMost ⟦<D as Disk>⟧ 2 disk.old disk.new }
    ensures failures { D.failures disk.new ≡ counted result (D.failures disk.old) }
{
    disk.write_at(at, bytes)?;
    disk.sync()
}
