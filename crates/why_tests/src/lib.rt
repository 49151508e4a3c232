//! Tests of how entries came about. Each public call of entry_causes is made once, and what is expected is that of the examples
//! of `ttplab why`.
//!
//! The crate has nothing but tests, and nothing stands on it.
#![tactic(auto)]

#[cfg(test)]
mod tests;
