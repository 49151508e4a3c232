//! What the lines of pairs say together: laws.
//!
//! The seven classes make up all pairs ([`laws::classes_add_up`]). The counts of the first faults, those of the distances, and
//! those of both answers of the test, have one sum ([`laws::sums_add_up`]). The lines of two ranges of slots, the one behind the
//! other, are those of both, and so are their sums ([`laws::pieces_add_up`]). The first faults are the faults that a campaign
//! tries ([`laws::firsts_are_of_a_campaign`]).
//!
//! [`laws::yes_costs_nobody_else`] says what a `yes` is worth: what safety promises, for two faults as for one.
//!
//! The crate has no code that runs: its functions do nothing, and their contracts are the laws.
#![tactic(auto)]

pub mod laws;
