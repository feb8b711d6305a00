//! What scenarios of a store need of it, so that their words know nothing of what it is made of.

use crate::actions::{Action, Told};
use crate::opening::Opening;
use hg_test_kit::device::PerDevice;
use hg_test_kit::disks::Disks;
use hg_test_kit::shelf::{Fuse, Image};
use hg_test_kit::text::Text;
use hg_test_kit::tokens::Halt;

/// A store over disks in memory, if one is open, and what was done to it since then.
pub trait Machine {
    /// Opens a store over disks with these bytes, and tells how many events it has.
    fn open(
        &mut self,
        image: &Image,
        fuses: &PerDevice<Fuse>,
        opening: Opening,
    ) -> Result<u64, Halt>;

    /// Does what an action says, and notes it.
    fn make(&mut self, action: Action) -> Told;

    /// Has the store make all that actions say at once, and notes it.
    fn drive(&mut self, actions: &[Action], out: &mut Text) -> Result<(), Halt>;

    /// What was done since the store was opened.
    fn made(&self) -> &[Action];

    /// What the store tells of itself, where `line` says what of it.
    fn tell(&self, line: &str, out: &mut Text) -> Result<(), Halt>;

    /// Appends what the store tells of its events.
    fn put_contents(&self, out: &mut Text) -> Result<(), Halt>;

    /// Appends durable events, where `text` says which.
    fn put_durable(&mut self, text: &str, out: &mut Text) -> Result<(), Halt>;

    /// The disks of the store, or of one that was refused.
    fn close(&mut self) -> Option<Disks>;

    /// Lets go of the store, and keeps what was done to it.
    fn leave(&mut self);
}
