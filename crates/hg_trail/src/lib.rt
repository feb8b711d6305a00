//! A ghost list: contracts see its items, at run time it has no bytes.
#![tactic(auto)]

mod trail;

pub use trail::Trail;
