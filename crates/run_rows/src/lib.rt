//! What a run keeps of each slot and node.
//!
//! [`RunRows`] runs the cluster of a list through a script, with zeros for the payload of every frame, and keeps for each slot and node
//! a row ([`NodeRow`]): what is read of the node's past as the slot begins, its clock, and what it does. That is all
//! that the causes of an entry ask of a run; who sent, which frames and who heard what follows from it, the list and the script.
//!
//! ```text
//! let run = RunRows::new(alloc, list, script, slot + 1)?;
//! let row = run.row(slot, node);
//! ```
//!
//! Contracts see it as its list, its script and how many slots it has: a row is that of `slot_in`, a slot of the run whose
//! history is `zeros_world` (campaign). What is shown of nodes does not tell their places, nor whether clocks were averaged: that is
//! counted on by their entries (`kept`).
//!
//! The rows cost what the run costs and a look-up in the script for each; a row takes some 48 bytes, and to read it an index.
#![tactic(auto, using(ttp_world::proofs::Lists::nodes))]

mod begun;
mod kept;
mod row;
mod rows;

pub use row::{NodeBegun, NodeRow};
pub use rows::RunRows;
