//! Arm lines that do not give their node its place, and why.
//!
//! `returns` of hypothesis names the slot of the first such line, where no other rule is broken. [`broken_arm`] tells of
//! the first line in that slot, whichever other rules are broken, and of the first of its six conditions that is not met.
//!
//! ```text
//! if let Some(arm) = broken_arm(list, script, start) { .. arm.place, arm.node, arm.why .. }
//! ```
//!
//! What it tells is the definition of `specs/Arms.antt`. Who is faulty in a slot is what hypothesis says, and in which
//! order nodes become so is what broken_faults says. The crate takes no memory, forms no text, and knows no lines.
#![tactic(auto, using(ttp_world::proofs::Lists::nodes))]

mod arms;
mod reasons;

pub use crate::arms::{BrokenArm, broken_arm};
pub use crate::reasons::NotOwed;
