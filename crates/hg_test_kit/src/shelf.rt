//! What the disks of a scenario have while nothing is open over them.

use crate::answers::put_bytes;
use crate::device::{DEVICES, Device, PerDevice, read_device};
use crate::digits::bytes_of;
use crate::disks::Disks;
use crate::tears::tear;
use crate::text::Text;
use crate::tokens::{self, Halt, Tokens};
use hg_disk::{Disk, FuseDisk, MemDisk, Tear};
use std::alloc::{AllocError, Global};

/// A disk of a scenario.
pub type TestDisk = FuseDisk<MemDisk>;

/// When a disk fails: at the call after so many, or at all calls after so many.
#[derive(Clone, Copy)]
pub enum Fuse {
    Once(u64),
    On(u64),
}

/// More calls than are made.
const NEVER: Fuse = Fuse::Once(u64::MAX);

/// No disk fails.
pub const NO_FUSES: PerDevice<Fuse> = PerDevice {
    journal0: NEVER,
    journal1: NEVER,
    slots: NEVER,
    root0: NEVER,
    root1: NEVER,
};

const NO_CALLS: PerDevice<u64> = PerDevice {
    journal0: 0,
    journal1: 0,
    slots: 0,
    root0: 0,
    root1: 0,
};

/// The bytes of the five devices.
pub struct Image {
    pub parts: PerDevice<Vec<u8>>,
}

impl Drop for Image {
    fn drop(self) {
        let Image { parts: _ } = self;
    }
}

impl Image {
    /// Five devices without a byte.
    pub fn new(alloc: Global) -> Image {
        Image {
            parts: PerDevice {
                journal0: Vec::new(alloc),
                journal1: Vec::new(alloc),
                slots: Vec::new(alloc),
                root0: Vec::new(alloc),
                root1: Vec::new(alloc),
            },
        }
    }

    pub fn clear(&mut self) {
        self.parts.journal0.clear();
        self.parts.journal1.clear();
        self.parts.slots.clear();
        self.parts.root0.clear();
        self.parts.root1.clear();
    }

    /// Has the bytes of another one.
    pub fn copy(&mut self, other: &Image) -> Result<(), AllocError> {
        for device in DEVICES {
            let bytes = self.parts.of_mut(device);
            bytes.clear();
            bytes.extend_from_slice(other.parts.of(device))?;
        }
        Ok(())
    }
}

/// The most bytes of a disk to start from.
const MOST_BYTES: usize = 1 << 62;

/// A disk in memory with these bytes.
fn memory_with(alloc: Global, bytes: Vec<u8>) -> Result<MemDisk, AllocError> {
    if bytes.len() > MOST_BYTES {
        return Err(AllocError);
    }
    MemDisk::holding(alloc, bytes)
}

/// A disk in memory with the bytes that digits spell. `None` says that they spell none, or too many, or that memory was refused.
pub fn disk_of(alloc: Global, digits: &str) -> Option<MemDisk> {
    memory_with(alloc, bytes_of(alloc, digits)?).ok()
}

/// How many calls and bytes the disk of a scenario has room for beforehand. A run within them takes no memory for its disks, so where
/// memory is refused it is the store that tells.
const ROOM_OF_CALLS: usize = 4096;

const ROOM_OF_BYTES: usize = 1 << 20;

/// How many calls give a disk its first bytes.
const FIRST_CALLS: usize = 2;

/// A disk in memory with these bytes, all of them durable, and with room.
fn roomy_with(alloc: Global, bytes: &[u8]) -> Result<MemDisk, AllocError> {
    if bytes.len() > MOST_BYTES {
        return Err(AllocError);
    }
    let mut disk = MemDisk::with_room(alloc, ROOM_OF_CALLS, ROOM_OF_BYTES + bytes.len())?;
    if disk.write_at(0, bytes).is_err() || disk.sync().is_err() {
        return Err(AllocError);
    }
    Ok(disk)
}

/// How many calls a disk of a scenario had since it got its first bytes.
pub fn calls_of(disk: &MemDisk) -> u64 {
    disk.calls().len().saturating_sub(FIRST_CALLS) as u64
}

/// A disk with these bytes that fails as the fuse says.
pub fn disk_with(alloc: Global, bytes: &[u8], fuse: Fuse) -> Result<TestDisk, AllocError> {
    let disk = roomy_with(alloc, bytes)?;
    Ok(match fuse {
        Fuse::Once(after) => FuseDisk::once(disk, after.saturating_add(1)),
        Fuse::On(after) => FuseDisk::stop(disk, after.saturating_add(1)),
    })
}

/// The disks' bytes, how many calls each had, and when those that are opened next fail.
#[derive(Drop)]
pub struct Shelf {
    pub image: Image,
    pub calls: PerDevice<u64>,
    pub fuses: PerDevice<Fuse>,
    /// What a crash makes of what is not synced, as a disk is put back.
    pub tear: Tear,
}

/// Copies what a crash leaves of a disk.
pub fn copy_image(disk: &MemDisk, tear: Tear, bytes: &mut Vec<u8>) -> Result<(), AllocError> {
    let image = disk.image(disk.calls().len(), tear)?;
    bytes.clear();
    bytes.extend_from_slice(&image)
}

/// Takes a disk back: its bytes, and how many calls it had.
fn put_back(
    disk: TestDisk,
    tear: Tear,
    bytes: &mut Vec<u8>,
    calls: &mut u64,
) -> Result<(), AllocError> {
    let disk = disk.into_inner();
    *calls = calls_of(&disk);
    copy_image(&disk, tear, bytes)
}

/// All bytes, or with `from N count M` those of them.
fn put_part(bytes: &[u8], tokens: &mut Tokens, out: &mut Text) -> Result<(), Halt> {
    if tokens.rest().is_empty() {
        put_bytes(bytes, out);
        return Ok(());
    }
    tokens.expect("from ");
    let from = tokens.number() as usize;
    tokens.expect("count ");
    let count = tokens.number() as usize;
    tokens.check()?;
    let behind = bytes.split_at(bytes.len().min(from)).1;
    put_bytes(behind.split_at(behind.len().min(count)).0, out);
    Ok(())
}

impl Shelf {
    /// Five disks without a byte.
    pub fn new(alloc: Global) -> Shelf {
        Shelf {
            image: Image::new(alloc),
            calls: NO_CALLS,
            fuses: NO_FUSES,
            tear: Tear::Kept,
        }
    }

    pub fn clear(&mut self) {
        self.image.clear();
        self.calls = NO_CALLS;
        self.fuses = NO_FUSES;
        self.tear = Tear::Kept;
    }

    /// A disk of its own for what is to be opened.
    pub fn take(&mut self, alloc: Global, device: Device) -> Result<TestDisk, AllocError> {
        let fuse = *self.fuses.of(device);
        *self.fuses.of_mut(device) = NEVER;
        disk_with(alloc, self.image.parts.of(device), fuse)
    }

    /// Takes a disk back.
    pub fn put(&mut self, device: Device, disk: TestDisk) -> Result<(), AllocError> {
        let bytes = self.image.parts.of_mut(device);
        put_back(disk, self.tear, bytes, self.calls.of_mut(device))
    }

    /// Takes all five back.
    pub fn put_all(&mut self, disks: Disks) -> Result<(), AllocError> {
        let PerDevice {
            journal0,
            journal1,
            slots,
            root0,
            root1,
        } = disks.into_parts();
        let journal0 = self.put(Device::Journal0, journal0);
        let journal1 = self.put(Device::Journal1, journal1);
        let slots = self.put(Device::Slots, slots);
        let root0 = self.put(Device::Root0, root0);
        let root1 = self.put(Device::Root1, root1);
        journal0.and(journal1).and(slots).and(root0).and(root1)
    }

    /// `DEVICE call K once`, or `.. on`
    pub fn fail(&mut self, text: &str) -> Result<(), Halt> {
        let mut tokens = Tokens::of(text);
        let device = read_device(&mut tokens);
        tokens.expect("call ");
        let before = tokens.number().saturating_sub(1);
        let fuse = match tokens.rest() {
            "once" => Fuse::Once(before),
            "on" => Fuse::On(before),
            _ => return Err(Halt::Misspelt),
        };
        tokens.check()?;
        *self.fuses.of_mut(device) = fuse;
        Ok(())
    }

    /// `DEVICE BYTES`
    pub fn set(&mut self, text: &str) -> Result<(), Halt> {
        let mut tokens = Tokens::of(text);
        let device = read_device(&mut tokens);
        tokens.check()?;
        let bytes = self.image.parts.of_mut(device);
        bytes.clear();
        tokens::put_bytes(tokens.rest(), bytes)
    }

    /// What a device that is closed has, or had: its bytes, how many, or how many calls.
    pub fn tell(&self, token: &str, rest: &str, out: &mut Text) -> Result<(), Halt> {
        let mut tokens = Tokens::of(rest);
        let device = read_device(&mut tokens);
        tokens.check()?;
        let bytes = self.image.parts.of(device);
        match token {
            "bytes" => return put_part(bytes, &mut tokens, out),
            "length" => out.put_decimal(bytes.len() as u64),
            _ => out.put_decimal(*self.calls.of(device)),
        }
        Ok(())
    }

    /// Has each disk that is put back be torn as is told, until it is told otherwise.
    pub fn tear_by(&mut self, text: &str) -> Result<(), Halt> {
        let mut tokens = Tokens::of(text);
        let tear = tear(&mut tokens);
        tokens.check()?;
        self.tear = tear;
        Ok(())
    }
}
