//! The rules of the hypothesis that a script breaks, each by what.
//!
//! `keeps` and `returns` of hypothesis name the first rule that is broken, with a slot. [`broken_rules`] tells of each
//! rule, whichever others are broken, what breaks it, with the numbers: clocks, the window, flipped bits and jumps, and
//! the start by this crate, faults and arm lines by broken_faults. What it tells is the definition of
//! `specs/Rules.antt`, and the first of it names the rule and the slot that hypothesis names.
//!
//! ```text
//! let broken = broken_rules(list, script);
//! if let Some(needed) = broken.conditions.window { .. list.window, needed .. }
//! ```
//!
//! Where a node of the script is armed, the rules are those on armed nodes. A line of the script that breaks a rule is
//! told by its place among the events. The crate takes no memory, forms no text, and knows no lines.
#![tactic(auto, using(ttp_world::proofs::Lists::nodes))]

mod clocks;
mod conditions;
mod jumps;
mod rules;
mod start;

pub use crate::clocks::{PastBound, narrow_window};
pub use crate::conditions::BrokenConditions;
pub use crate::jumps::{Disturbance, Disturbed};
pub use crate::rules::{Answer, BrokenRules, broken_rules, says_yes};
pub use crate::start::NoStart;
