//! The command that explains a word: who accessed it, under which locks, and what that made of it.
pub mod address;
pub mod behind;
pub mod commands;
pub mod event_line;
pub mod explaining;
pub mod form;
pub mod laws;
pub mod look;
pub mod owner;
pub mod passing;
pub mod pieces;
pub mod race;
pub mod run;
