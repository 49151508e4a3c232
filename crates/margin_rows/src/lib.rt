//! Worked cases of margins.
//!
//! Each function does nothing. Its contract is a case, or some: what the definitions of the crate clock_margins say of literals
//! equals what was worked out from the rules, and the check computes it. [`runs`] has lines and texts of whole clusters, and
//! [`sums`] ranges and what sums them up.
#![tactic(auto)]

pub mod runs;
pub mod sums;
