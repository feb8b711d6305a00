//! The five disks of what is open, and what is below their fuses.
//!
//! Five disks have many parts, and each exit of a function that owns them lets all of them go. So what owns them has a `drop` of
//! its own: what lets them go is one call.

use crate::device::{DEVICES, Device, PerDevice};
use crate::shelf::{Fuse, Image, TestDisk, calls_of, copy_image, disk_with};
use hg_disk::{Answer, Call, MemDisk, Tear};
use std::alloc::{AllocError, Global};

/// Five disks.
pub struct Disks {
    parts: PerDevice<TestDisk>,
}

impl Drop for Disks {
    fn drop(self) {
        let Disks { parts } = self;
        drop(parts);
    }
}

/// What is below the fuses of disks.
pub struct Memories {
    parts: PerDevice<MemDisk>,
}

impl Drop for Memories {
    fn drop(self) {
        let Memories { parts } = self;
        drop(parts);
    }
}

/// A disk, or one without a byte, and a word that memory was refused.
fn disk_or_none(alloc: Global, bytes: &[u8], fuse: Fuse, is_whole: &mut bool) -> TestDisk {
    match disk_with(alloc, bytes, fuse) {
        Ok(disk) => disk,
        Err(AllocError) => {
            *is_whole = false;
            TestDisk::once(MemDisk::new(alloc), 1)
        }
    }
}

impl Disks {
    /// Disks with these bytes, that fail as is told.
    pub fn new(alloc: Global, image: &Image, fuses: &PerDevice<Fuse>) -> Result<Disks, AllocError> {
        let bytes = &image.parts;
        let mut is_whole = true;
        let parts = PerDevice {
            journal0: disk_or_none(alloc, &bytes.journal0, fuses.journal0, &mut is_whole),
            journal1: disk_or_none(alloc, &bytes.journal1, fuses.journal1, &mut is_whole),
            slots: disk_or_none(alloc, &bytes.slots, fuses.slots, &mut is_whole),
            root0: disk_or_none(alloc, &bytes.root0, fuses.root0, &mut is_whole),
            root1: disk_or_none(alloc, &bytes.root1, fuses.root1, &mut is_whole),
        };
        let disks = Disks { parts };
        if is_whole { Ok(disks) } else { Err(AllocError) }
    }

    /// These five.
    pub fn of(parts: PerDevice<TestDisk>) -> Disks {
        Disks { parts }
    }

    pub fn into_parts(self) -> PerDevice<TestDisk> {
        let Disks { parts } = self;
        parts
    }

    /// What is below their fuses.
    pub fn into_memories(self) -> Memories {
        let PerDevice {
            journal0,
            journal1,
            slots,
            root0,
            root1,
        } = self.into_parts();
        Memories {
            parts: PerDevice {
                journal0: journal0.into_inner(),
                journal1: journal1.into_inner(),
                slots: slots.into_inner(),
                root0: root0.into_inner(),
                root1: root1.into_inner(),
            },
        }
    }
}

/// How many writes and cuts there were since the last sync, and how many bytes they wrote.
fn since_sync(disk: &MemDisk) -> (u64, usize) {
    let mut changes = 0_u64;
    let mut bytes = 0_usize;
    for told in disk.calls() {
        match (told.call, told.answer) {
            (Call::Sync, Answer::Done) => {
                changes = 0;
                bytes = 0;
            }
            (Call::Write { .. } | Call::Cut { .. }, _) => {
                changes = changes.wrapping_add(1);
                bytes = bytes.wrapping_add(told.len_written());
            }
            _ => {}
        }
    }
    (changes, bytes)
}

impl Memories {
    /// How many calls a device had.
    pub fn calls(&self, device: Device) -> u64 {
        calls_of(self.parts.of(device))
    }

    /// How many bytes were written to a device since its last sync.
    pub fn unsynced_bytes(&self, device: Device) -> usize {
        since_sync(self.parts.of(device)).1
    }

    /// Whether each device but this one is synced.
    pub fn are_synced_but(&self, torn: Device) -> bool {
        for device in DEVICES {
            if device as u8 != torn as u8 && since_sync(self.parts.of(device)).0 > 0 {
                return false;
            }
        }
        true
    }

    /// Has an image have what a crash leaves, with all devices torn alike.
    pub fn leave(&self, tear: Tear, image: &mut Image) -> Result<(), AllocError> {
        for device in DEVICES {
            copy_image(self.parts.of(device), tear, image.parts.of_mut(device))?;
        }
        Ok(())
    }

    /// Has an image have what a crash leaves, with one device torn by itself and the others alike.
    pub fn leave_torn(
        &self,
        torn: Device,
        tear: Tear,
        others: Tear,
        image: &mut Image,
    ) -> Result<(), AllocError> {
        self.leave(others, image)?;
        copy_image(self.parts.of(torn), tear, image.parts.of_mut(torn))
    }
}
