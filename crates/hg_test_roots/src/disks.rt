//! Two disks in memory with the bytes that digits spell.

use hg_disk::MemDisk;
use hg_test_kit::shelf::disk_of;
use std::alloc::Global;

/// Two disks, whose digits stand with a comma between.
pub fn disks_of(alloc: Global, digits: &str) -> Option<(MemDisk, MemDisk)> {
    let (one, other) = digits.split_once(',')?;
    let one = disk_of(alloc, one)?;
    let other = disk_of(alloc, other)?;
    Some((one, other))
}
