//! Worked cases of how an entry of a run came about.
//!
//! Each function does nothing. Its contract is a case, or some: what the definitions of the crate causes say of a literal
//! list and script equals what was worked out from the rules, and the check computes it. Stories are of whole
//! clusters ([`stories`]); for each word that an entry may have there is a line ([`words`]).
#![tactic(auto)]

pub mod stories;
pub mod words;
