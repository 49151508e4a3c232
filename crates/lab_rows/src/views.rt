//! Worked cases of the two views of a trace.
//!
//! Each function does nothing. Its contract is a case: a definition at a literal trace, or at a value, equals
//! what was worked out from the rules of docs/VIEWS.md, and the check computes it.

pub mod picture;
pub mod slots;
pub mod titles;
pub mod wave;
