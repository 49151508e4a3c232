//! The lines of a slot: [`put_slot`] writes all of them from the slot's report.
//!
//! The lines themselves are line_text's, which needs no report. A report's read lines hold pairs of words as a
//! ring gave them, so this crate stands on host_port. `told` in `trace.rt` of ttp_top writes a slot once a
//! cluster has done it:
//!
//! ```text
//! match put_slot(list, report, &mut self.lines, out) {
//!     Ok(()) => Ok(()),
//!     Err(Failed) => Err(RunFault::Failed),
//! }
//! ```
//!
//! `report_lines` of its specs says which lines they are: those of the nodes, then what hosts wrote, then
//! what they read, in the order of the report. A line costs one write to the sink. Where no host did
//! anything nothing but the nodes' lines is made, in the caller's [`NodeLines`], one for a whole run.
//!
//! Threads share nothing here. No call takes memory. The crate runs and tests nothing, and knows nothing
//! of histories.
#![tactic(auto)]

mod slot;

pub use slot::put_slot;
