//! What a run costs, from what is shown of its nodes after each slot.
//!
//! A [`SeenCost`] takes the states of all nodes, slot by slot, and then tells the cost. A contract sees what it has taken as
//! so many slots of a script's run (`IsSeenOf` of `specs/Told.antt`). `SeenRun::step` of run_costs has it take a slot:
//!
//! ```text
//! self.run.step(list, script, slot);
//! self.seen.add(list, script, self.run.states(list), slot);
//! ```
//!
//! Beside the states goes the walk that tells the faulty nodes of each slot (hypothesis). What was taken of one script stands for
//! another that says the same of all these slots: [`SeenCost::with_later`] takes over what was seen before one event more, and
//! goes over who is faulty again.
//!
//! A slot costs its nodes. It is a plain value, which is copied where runs share their past, and takes memory for the cost that
//! it tells alone. The module runs no cluster: whose states they are is the caller's.

mod faulty;
mod seen;
mod sets;

pub use seen::SeenCost;
pub(crate) use sets::are_split;
