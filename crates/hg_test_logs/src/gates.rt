//! What the lines of a scenario do with a gated file. It stands on the disk of the first root.

use hg_gate::Gated;
use hg_test_kit::answers::put_bytes;
use hg_test_kit::device::Device;
use hg_test_kit::shelf::{Shelf, TestDisk};
use hg_test_kit::text::Text;
use hg_test_kit::tokens::{self, Halt, front};
use std::alloc::{AllocError, Global};

/// A gated file, if one is open.
#[derive(Drop)]
pub struct GateBench {
    opened: Option<Gated<TestDisk>>,
}

/// Has the file have other bytes behind its gate.
fn write(alloc: Global, file: &mut Gated<TestDisk>, rest: &str) -> Result<(), Halt> {
    let mut body = Vec::new(alloc);
    tokens::put_bytes(rest, &mut body)?;
    Ok(file.write_body(&body)?)
}

/// The body, or `closed`.
fn put_body(alloc: Global, file: &mut Gated<TestDisk>, out: &mut Text) -> Result<(), Halt> {
    match file.read(alloc)? {
        Some(body) => put_bytes(&body, out),
        None => out.put(b"closed"),
    }
    Ok(())
}

impl GateBench {
    pub fn new() -> GateBench {
        GateBench { opened: None }
    }

    fn put_opened(&mut self, opened: Option<Gated<TestDisk>>) {
        self.opened = opened;
    }

    pub fn clear(&mut self) {
        self.put_opened(None);
    }

    /// Puts the disk back, if a file is open.
    pub fn close(&mut self, shelf: &mut Shelf) -> Result<(), AllocError> {
        match self.opened.take() {
            Some(file) => shelf.put(Device::Root0, file.into_disks()),
            None => Ok(()),
        }
    }

    fn attach(&mut self, alloc: Global, shelf: &mut Shelf) -> Result<(), AllocError> {
        self.close(shelf)?;
        let file = Gated::attach(shelf.take(alloc, Device::Root0)?);
        self.put_opened(Some(file));
        Ok(())
    }

    /// Does what a line asks of the open file.
    fn work(&mut self, alloc: Global, token: &str, rest: &str, out: &mut Text) -> Result<(), Halt> {
        let Some(file) = &mut self.opened else {
            return Err(Halt::Closed);
        };
        match token {
            "close" => Ok(file.close()?),
            "write" => write(alloc, file, rest),
            "open" => Ok(file.open_gate()?),
            "read" => put_body(alloc, file, out),
            _ => Err(Halt::Misspelt),
        }
    }

    /// Does what a line asks of a gated file.
    pub fn perform(
        &mut self,
        alloc: Global,
        shelf: &mut Shelf,
        text: &str,
        out: &mut Text,
    ) -> Result<(), Halt> {
        let (token, rest) = front(text);
        match token {
            "attach" => Ok(self.attach(alloc, shelf)?),
            _ => self.work(alloc, token, rest, out),
        }
    }
}
