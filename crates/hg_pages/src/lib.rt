//! Pages as bytes, the file of slots that they lie in, and the tables that say which slot a page has.
#![tactic(auto)]

mod cell;
mod decoded;
mod encoded;
mod entries;
mod fault;
mod gap_buffer;
pub mod laws;
mod slot_file;
mod slot_run;
mod table;

pub use decoded::{MOST_PAGES, decode};
pub use encoded::{EncodedPage, SLOT_LEN, encode};
pub use fault::{SlotFault, WriteFault};
pub use slot_file::{MOST_SLOTS, SlotFile};
pub use slot_run::{MOST_RUN, SlotRun};
pub use table::Table;
