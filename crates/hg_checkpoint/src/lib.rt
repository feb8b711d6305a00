//! A checkpoint, made and read back: its phases over a pool and two root files, the head of its root, and the detector over a pool that a
//! root gives.
#![tactic(auto)]

mod capturing;
mod cause;
mod checking;
mod checkpointer;
mod detectors;
mod fault;
mod fitting;
pub mod laws;
mod limits;
mod page_table;
mod phase;
mod restoring;
mod rows;

pub use capturing::head_of;
pub use cause::Cause;
pub use checking::{check_slots, lies_within};
pub use checkpointer::Checkpointer;
pub use fault::HeadFault;
pub use limits::Limits;
pub use phase::{CheckpointFault, Phase};
pub use restoring::restored;
