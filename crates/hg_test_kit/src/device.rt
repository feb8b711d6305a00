//! The five devices by name.

use crate::tokens::Tokens;

#[derive(Clone, Copy)]
pub enum Device {
    Journal0,
    Journal1,
    Slots,
    Root0,
    Root1,
}

pub const DEVICES: [Device; 5] = [
    Device::Journal0,
    Device::Journal1,
    Device::Slots,
    Device::Root0,
    Device::Root1,
];

/// What there is of each device.
#[derive(Drop)]
pub struct PerDevice<T> {
    pub journal0: T,
    pub journal1: T,
    pub slots: T,
    pub root0: T,
    pub root1: T,
}

impl<T> PerDevice<T> {
    /// What there is of this device.
    pub fn of(&self, device: Device) -> &T {
        match device {
            Device::Journal0 => &self.journal0,
            Device::Journal1 => &self.journal1,
            Device::Slots => &self.slots,
            Device::Root0 => &self.root0,
            Device::Root1 => &self.root1,
        }
    }

    /// What there is of this device, to be changed.
    pub fn of_mut(&mut self, device: Device) -> &mut T {
        match device {
            Device::Journal0 => &mut self.journal0,
            Device::Journal1 => &mut self.journal1,
            Device::Slots => &mut self.slots,
            Device::Root0 => &mut self.root0,
            Device::Root1 => &mut self.root1,
        }
    }
}

impl Device {
    /// Its name.
    pub fn name(self) -> &'static [u8] {
        match self {
            Device::Journal0 => b"journal0",
            Device::Journal1 => b"journal1",
            Device::Slots => b"slots",
            Device::Root0 => b"root0",
            Device::Root1 => b"root1",
        }
    }
}

/// The device in front.
pub fn read_device(tokens: &mut Tokens) -> Device {
    match tokens.token() {
        "journal0" => Device::Journal0,
        "journal1" => Device::Journal1,
        "slots" => Device::Slots,
        "root0" => Device::Root0,
        "root1" => Device::Root1,
        _ => {
            tokens.fail();
            Device::Journal0
        }
    }
}
