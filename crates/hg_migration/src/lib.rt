//! A store over five devices, made of a store of the former form, which has one journal.
#![tactic(auto)]

mod building;
mod copying;
mod emptying;
mod fault;
pub mod laws;
mod migrating;

pub use emptying::empty_files;
pub use fault::MigrationFault;
pub use migrating::{Migrated, NotMigrated, OldDevices, migrate};
