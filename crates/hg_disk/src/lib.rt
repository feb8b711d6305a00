//! Disks: what their calls promise, and what a crash may leave.
#![tactic(auto)]

mod call;
mod disk;
mod durable;
mod fuse;
mod history;
pub mod laws;
mod memory;
mod overwrite;
mod positioned;
mod replay;
mod system;
mod tape;
mod tear;

pub use call::{Answer, Answered, Call};
pub use disk::{Disk, DiskFault, MAX_LEN};
pub use durable::write_through;
pub use fuse::FuseDisk;
pub use memory::MemDisk;
pub use positioned::{PositionedDisk, PositionedFile};
pub use system::{FileDisk, SystemFile};
pub use tear::Tear;
