//! Tests of the lowest crates: the ground, what happens to nodes in slots, check words and frames; of the medium
//! and the parts of a node; and of controllers, alone and as a plant. Each law is called once, and the numbers that
//! the bounds give for a list are compared.
//!
//! A law has no code that a test could run, so its test shows that its call can be met from outside.
//!
//! They stand in a crate of their own, above the calls, so that no crate is proved a second time with them. The
//! crate has nothing but tests, and nothing stands on it.
#![tactic(auto)]

#[cfg(test)]
mod tests;
