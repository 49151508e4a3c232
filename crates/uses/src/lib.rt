//! Callers as patterns to copy, each proved: of a ring, and of `bench`.
#![tactic(auto)]

pub mod bench;
pub mod ring;
