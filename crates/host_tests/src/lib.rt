//! Tests of hosts beside their controllers: rings, errands, ports and whole clusters, in one thread and in several;
//! and of `bench` over a library and a sink in memory: lines that fail, gates, and clusters that are kept. What
//! commands write to the byte is compared where the real program runs.
//!
//! They stand in a crate of their own, above the calls, so that no crate is proved a second time with them. The
//! crate has nothing but tests, and nothing stands on it.
#![tactic(auto)]

#[cfg(test)]
mod tests;
