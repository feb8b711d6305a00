//! A write into a file in memory.
ghost use Rattle.std.specs.Prelude.{◌≡◌, ◌+◌, ◌<◌, ◌≤◌, ◌^◌, length, OnOk, OnErr, IsOk};
ghost use Rattle.std.specs.Vec.{vec_capacity};
ghost use Rattle.hg_disk.specs.State.{overwritten, replaced};

use std::alloc::AllocError;

/// Puts the bytes at the offset, in place. A gap before them is filled with zeros.
#[tactic(auto, using(crate::proofs::Overwriting::grown_put, crate::proofs::Overwriting::put_within))]
pub(crate) fn overwrite(file: &mut Vec<u8>, at: usize, bytes: &[u8]) -> Result<(), AllocError>
    requires { at + length bytes.now < 2 ^ 64 }
    ensures ok { OnOk result (file.new.items ≡ overwritten file.old.items at bytes.now) }
    ensures err { OnErr result (file.new.items ≡ file.old.items) }
    ensures room { at + length bytes.now ≤ vec_capacity file.old → IsOk result }
    ensures capacity { vec_capacity file.old ≤ vec_capacity file.new }
{
    let end = at + bytes.len();
    if end > file.len() {
        file.resize(end, 0)?;
    }
    put(file, at, bytes);
    Ok(())
}

// Puts the bytes there, within the file.
fn put(file: &mut Vec<u8>, at: usize, bytes: &[u8])
    requires { at + length bytes.now ≤ length file.old.items }
    ensures items { file.new.items ≡ replaced file.old.items at bytes.now }
    ensures capacity { vec_capacity file.new ≡ vec_capacity file.old }
{
    file[at..at + bytes.len()].copy_from_slice(bytes);
}
