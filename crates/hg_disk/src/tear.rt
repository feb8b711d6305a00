//! The choice of one crash image of a disk in memory, and how each call changes this image.
ghost use Rattle.std.specs.Prelude.{◌≡◌, ◌+◌, ◌-◌, ◌<◌, ◌≤◌, ◌^◌, ◌++◌, length, take, drop, replicate, OnOk};
ghost use Rattle.hg_disk.specs.State.{overwritten};
ghost use Rattle.hg_disk.specs.Blots.{blotted, blotted_within, cut_off};

use crate::call::Call;
use crate::overwrite::overwrite;
use std::alloc::AllocError;

/// An image of a disk: what a crash may leave. A byte is uncertain where images differ.
#[derive(Clone, Copy, Debug, PartialEq, Eq)]
pub enum Tear {
    /// The file as it was at the last sync that succeeded.
    Lost,
    /// The file as it reads.
    Kept,
    /// The file at the last sync, then the calls since that took effect, up to this many written bytes.
    Front(usize),
    /// The file as it reads, with this byte in place of each uncertain byte.
    Fill(u8),
}

impl Tear {
    ghost use Rattle.hg_disk.specs.Tear.{FollowsCut, FollowsFailed, FollowsSync, FollowsWrite};
    ghost use Rattle.hg_disk.specs.Blots.{limit_of};

    /// The limit of `Front`, in bytes; 0 for the other tears.
    pub(crate) fn limit(self) -> usize
        ensures { result ≡ limit_of self }
    {
        match self {
            Tear::Lost => 0,
            Tear::Kept => 0,
            Tear::Front(n) => n,
            Tear::Fill(_) => 0,
        }
    }

    /// A write that took effect. `Front` may still write `left` bytes.
    pub(crate) fn write(
        self,
        torn: &mut Vec<u8>,
        left: usize,
        at: usize,
        bytes: &[u8],
    ) -> Result<(), AllocError>
        requires { at + length bytes.now < 2 ^ 64 }
        ensures { OnOk result (FollowsWrite self left at bytes.now torn.old.items torn.new.items) }
    {
        match self {
            Tear::Lost => Ok(()),
            Tear::Kept => overwrite(torn, at, bytes),
            Tear::Front(_) => write_front(torn, left, at, bytes),
            Tear::Fill(byte) => blot_write(torn, at, bytes.len(), byte),
        }
    }

    /// A cut that took effect.
    pub(crate) fn cut(self, torn: &mut Vec<u8>, left: usize, to: usize)
        ensures { FollowsCut self left to torn.old.items torn.new.items }
    {
        match self {
            Tear::Lost => {}
            Tear::Kept => torn.truncate(to),
            Tear::Front(_) => cut_front(torn, left, to),
            Tear::Fill(_) => torn.truncate(to),
        }
    }

    /// A sync that took effect.
    pub(crate) fn sync(self, torn: &mut Vec<u8>, contents: &[u8]) -> Result<(), AllocError>
        ensures { OnOk result (FollowsSync self contents.now torn.new.items) }
    {
        torn.clear();
        torn.extend_from_slice(contents)
    }

    /// A write that failed.
    pub(crate) fn fail_write(self, torn: &mut Vec<u8>, at: u64, len: usize)
        ensures { FollowsFailed self (Call.Write at len) torn.old.items torn.new.items }
    {
        if let Tear::Fill(byte) = self {
            blot_within(torn, at as usize, len, byte);
        }
    }

    /// A cut that failed.
    pub(crate) fn fail_cut(self, torn: &mut Vec<u8>, to: u64)
        ensures { FollowsFailed self (Call.Cut to) torn.old.items torn.new.items }
    {
        if let Tear::Fill(byte) = self {
            blot_from(torn, to as usize, byte);
        }
    }
}

// Cuts the file if `left` is not 0.
fn cut_front(file: &mut Vec<u8>, left: usize, to: usize)
    ensures none { left ≡ 0 → file.new.items ≡ file.old.items }
    ensures some { 0 < left → file.new.items ≡ take to file.old.items }
{
    if left != 0 {
        file.truncate(to);
    }
}

// Puts the byte at the places of a write, up to the end of the file.
fn blot_within(file: &mut Vec<u8>, at: usize, len: usize, byte: u8)
    ensures { file.new.items ≡ blotted_within file.old.items at len byte }
{
    let end = at.saturating_add(len).min(file.len());
    blot(file, at.min(file.len()), end, byte);
}

// Puts the byte at all places from this one on.
fn blot_from(file: &mut Vec<u8>, to: usize, byte: u8)
    ensures { file.new.items ≡ cut_off file.old.items to byte }
{
    let end = file.len();
    blot(file, to.min(end), end, byte);
}

// Writes the first `left` of the bytes; nothing if `left` is 0.
fn write_front(file: &mut Vec<u8>, left: usize, at: usize, bytes: &[u8]) -> Result<(), AllocError>
    requires { at + length bytes.now < 2 ^ 64 }
    ensures none { left ≡ 0 → OnOk result (file.new.items ≡ file.old.items) }
    ensures some { 0 < left → OnOk result (file.new.items ≡ overwritten file.old.items at (take left bytes.now)) }
{
    if left == 0 {
        return Ok(());
    }
    overwrite(file, at, &bytes[..left.min(bytes.len())])
}

// Puts the byte at the places of a write, and in the gap before it.
fn blot_write(file: &mut Vec<u8>, at: usize, len: usize, byte: u8) -> Result<(), AllocError>
    requires { at + len < 2 ^ 64 }
    ensures { OnOk result (file.new.items ≡ blotted file.old.items at len byte) }
{
    let end = at + len;
    if end > file.len() {
        file.resize(end, byte)?;
    }
    blot(file, at, end, byte);
    Ok(())
}

// Puts the byte at each place from `from` up to `to`, without `to`.
fn blot(file: &mut Vec<u8>, from: usize, to: usize, byte: u8)
    requires { (from ≤ to) × (to ≤ length file.old.items) }
    ensures { file.new.items ≡ take from file.old.items ++ (replicate (to - from) byte ++ drop to file.old.items) }
{
    file[from..to].fill(byte);
}
