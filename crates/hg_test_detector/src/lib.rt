//! Tests of the detection crates over public calls that no program shows one by one. They stand here so that no crate is
//! proved twice, once with its tests.
#![tactic(auto)]

#[cfg(test)]
mod tests;
