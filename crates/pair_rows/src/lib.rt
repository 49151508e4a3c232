//! Worked cases of pairs of faults.
//!
//! Each function does nothing. Its contract is a case, or some: what the definitions of the crate fault_pairs say of literals
//! equals what was worked out from the rules, and the check computes it. [`runs`] has pairs of whole clusters and a text,
//! [`tried`] which pairs there are, and [`classes`] classes and sums of what is given.
#![tactic(auto)]

pub mod classes;
pub mod runs;
pub mod tried;
