//! Tests of what stands below `check`: errors of lists and where they stand, where a text stops being TOML, words of what is
//! wrong, and rules that are broken. Each public call is made once, and what is expected is that of the command's examples.
//!
//! The crate has nothing but tests, and nothing stands on it.
#![tactic(auto)]

#[cfg(test)]
mod tests;
