//! The version of the program.

/// What `hgd --version` tells behind the name. In a program that `dev/build` makes, the commit and the kit follow.
pub const VERSION: &str = "0.1.0";
