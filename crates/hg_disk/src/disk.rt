//! The trait of a disk.
ghost use Rattle.std.specs.Prelude.{◌≡◌, ◌+◌, ◌≤◌, ◌^◌, ◌∷◌, ◌↔◌, Bool, List, ℕ, length, IsTrue, OnOk, OnErr};
ghost use Rattle.hg_disk.specs.State.{DiskState, Fills, IsImage, SameImages, after_write, after_cut, after_sync, counted};

use thiserror::Error;

/// The greatest length of a disk, in bytes.
pub const MAX_LEN: u64 = 1 << 62;

/// A call of a disk failed.
#[derive(Clone, Copy, Debug, PartialEq, Eq, Error)]
#[error("a call of a disk failed")]
pub struct DiskFault;

/// A file as the layers above see it. Offsets and lengths are in bytes, and a length is at most 2^62.
///
/// Each of the four calls that answer a `Result` may fail. Each moves the disk's clock on by one, and a failed one is
/// counted. The states say what a crash may leave, whatever the call answered: a failed write counts as a write of its
/// range, a failed cut as a cut, and a failed sync as no sync. A read gives the state's bytes if the reads of the disk were
/// true, up to this one: a disk in memory promises that they are, a file of the system does not.
pub trait Disk {
    /// Whether each read so far that answered `Ok` gave the bytes of the state of its moment.
    ghost reads_were_true: { Self → Bool };

    /// Whether the reads of every such disk were true.
    ghost is_honest: { Bool };

    /// The state now.
    ghost state: { Self → DiskState };

    /// The states before each call so far, the newest first. Their number is the disk's clock.
    ghost past: { Self → List DiskState };

    /// How many calls have failed.
    ghost failures: { Self → ℕ };

    /// The length in bytes.
    fn len(&self) -> u64
        ensures value { result ≡ length (state self.now).contents }
        ensures fits { result ≤ 2 ^ 62 };

    /// Fills the buffer with the bytes from the offset `at` on. After a failure the buffer may have any bytes.
    fn read_at(&mut self, at: u64, buf: &mut [u8]) -> Result<(), DiskFault>
        requires { at + length buf.old ≤ length (state self.old).contents }
        ensures bytes { IsTrue (reads_were_true self.new) → OnOk result (Fills (state self.old) at buf.old buf.new) }
        ensures state { state self.new ≡ state self.old }
        ensures clock { past self.new ≡ state self.old ∷ past self.old }
        ensures kept { IsTrue (reads_were_true self.new) → IsTrue (reads_were_true self.old) }
        ensures fair { IsTrue (reads_were_true self.old) → OnOk result (Fills (state self.old) at buf.old buf.new) → IsTrue (reads_were_true self.new) }
        ensures failures { failures self.new ≡ counted result (failures self.old) };

    /// Writes the bytes at the offset `at`; a gap before them is filled with zeros. Fails where the length would
    /// pass 2^62.
    fn write_at(&mut self, at: u64, bytes: &[u8]) -> Result<(), DiskFault>
        ensures ok { OnOk result (state self.new ≡ after_write at bytes.now (state self.old)) }
        ensures err { OnErr result (SameImages (after_write at bytes.now (state self.old)) (state self.new)) }
        ensures fits { OnOk result (at + length bytes.now ≤ 2 ^ 62) }
        ensures clock { past self.new ≡ state self.old ∷ past self.old }
        ensures kept { IsTrue (reads_were_true self.new) → IsTrue (reads_were_true self.old) }
        ensures fair { IsTrue (reads_were_true self.old) → IsTrue (reads_were_true self.new) }
        ensures failures { failures self.new ≡ counted result (failures self.old) };

    /// Drops the bytes from the offset `to` on.
    fn cut(&mut self, to: u64) -> Result<(), DiskFault>
        requires { to ≤ length (state self.old).contents }
        ensures ok { OnOk result (state self.new ≡ after_cut to (state self.old)) }
        ensures err { OnErr result (SameImages (after_cut to (state self.old)) (state self.new)) }
        ensures clock { past self.new ≡ state self.old ∷ past self.old }
        ensures kept { IsTrue (reads_were_true self.new) → IsTrue (reads_were_true self.old) }
        ensures fair { IsTrue (reads_were_true self.old) → IsTrue (reads_were_true self.new) }
        ensures failures { failures self.new ≡ counted result (failures self.old) };

    /// Makes all bytes durable: after an `Ok` a crash leaves what a read gives.
    fn sync(&mut self) -> Result<(), DiskFault>
        ensures ok { OnOk result (state self.new ≡ after_sync (state self.old)) }
        ensures err { OnErr result (SameImages (state self.old) (state self.new)) }
        ensures clock { past self.new ≡ state self.old ∷ past self.old }
        ensures kept { IsTrue (reads_were_true self.new) → IsTrue (reads_were_true self.old) }
        ensures fair { IsTrue (reads_were_true self.old) → IsTrue (reads_were_true self.new) }
        ensures failures { failures self.new ≡ counted result (failures self.old) };

    /// What a read gives is one of the images.
    ghost has_its_bytes: { (d : Self) → IsImage (state d) (state d).contents };

    /// The reads of an honest disk were true.
    ghost honest_reads: { IsTrue is_honest → (d : Self) → IsTrue (reads_were_true d) };
}

// Whether so many bytes at this offset lie within the greatest length.
pub(crate) fn is_within(at: u64, len: usize) -> bool
    ensures { IsTrue result ↔ (at + len ≤ 2 ^ 62) }
{
    let len = len as u64;
    len <= MAX_LEN && at <= MAX_LEN - len
}
