//! What the lines of margins say together: laws.
//!
//! The ranges of a sweep have each of its values once, in ascending order, and what a range says is what is told of the run of
//! each of its values ([`laws::each_value_is_in_one_range`]); they are as long as they can be. The counts of a sweep add up to
//! its values ([`laws::counts_add_up`]), and the last line of sweeps in pieces is that of all of them
//! ([`laws::pieces_add_up`]).
//!
//! The crate has no code that runs: its functions do nothing, and their contracts are the laws.
#![tactic(auto)]

pub mod laws;
