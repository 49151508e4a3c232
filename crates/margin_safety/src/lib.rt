//! What a yes of margins is worth: a law.
//!
//! [`laws::yes_costs_no_others`] says of the script of a value what safety promises, in the words of margins: where its test says
//! yes no node but the one whose clock is swept was hurt, and memberships were never split. So in a range whose test says yes the
//! line has `hurt - split no`, and its value costs others nothing. That the swept node counts as faulty besides takes nodes out of
//! those that are looked at, and puts none in.
//!
//! The crate has no code that runs: its function does nothing, and its contract is the law.
#![tactic(auto)]

pub mod laws;
