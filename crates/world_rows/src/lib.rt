//! Worked rows of the definitions of the protocol, and of a list file, its slot table and a script file.
//!
//! Each function does nothing. Its contract is a row: a definition at a literal list and script
//! equals what was worked out by hand from the protocol's rules, or a definition at a literal text
//! what the format says of it, and the check computes it. So a wrong definition shows here, however
//! well the code meets it.
//!
//! A row that speaks of lines gives them as the trace prints them, for the slots and nodes that show
//! its point. `docs/DEFINITIONS.md` says how to ask the definitions for a case of one's own.
#![tactic(auto, unfolding(ttp_base::specs::NodeSet::with_node, ttp_base::specs::NodeSet::members_in, ttp_world::specs::Trace::digits))]

pub mod back_safety;
pub mod clocks;
pub mod faults;
pub mod frames;
pub mod jumps;
pub mod list_files;
pub mod messages;
pub mod moves;
pub mod pasts;
pub mod rejoining;
pub mod returning;
pub mod safety;
pub mod script_files;
pub mod starts;
pub mod tests_of_hypothesis;
pub mod version_2;
