//! Files with gates: a gate is one byte that says whether the bytes behind it count. A log takes batches at its end; a
//! gated file has one body, replaced as a whole.
#![tactic(auto)]

mod based;
mod batch;
mod fault;
mod gated;
pub mod laws;
mod log;
mod reader;
mod scan;

pub use based::{LogFile, MAX_BASE};
pub use batch::{Batch, MAX_BODY_LEN};
pub use fault::GateFault;
pub use gated::{BodyTest, FRONT_LEN, Gated};
pub use log::{CLOSED, Log, LogRoom, OPEN};
pub use reader::{LogReader, PIECE_LEN};
