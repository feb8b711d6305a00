//! What all trials share: text that is written piece by piece, the tokens of a line and what it answers, disks in memory, and the loop over
//! the lines of scenarios.
#![tactic(auto)]

pub mod answers;
pub mod cells;
pub mod device;
pub mod digits;
pub mod disks;
pub mod events;
pub mod run;
pub mod sets;
pub mod shelf;
pub mod tears;
pub mod text;
pub mod tokens;
