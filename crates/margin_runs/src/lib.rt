//! Margins of clocks, run and written.
//!
//! [`put_margins`] runs a list with a script once for each value of a node's drift, or of its jump in a slot, and writes the lines
//! of `margin_lines` (crate clock_margins) to a sink, each as one piece. `Clocks` of lab_top calls it:
//!
//! ```text
//! put_margins(rt, alloc, list, script, asked, processors(rt), out)
//! ```
//!
//! The run of a drift begins in slot 0. That of a jump goes on from what the script's own run was before its slot. Some hundreds
//! of values are tried side by side, in as many threads as are asked for, and taken in their order by margin_text: what is kept
//! is the range that is open and what sums the sweep up, so memory grows with threads and nodes, and not with values. What is
//! written is the same for any number of threads. The second line is fault_runs'.
#![tactic(auto, using(ttp_world::proofs::Lists::nodes))]

mod beside;
mod put;
mod scripts;
mod tried;

pub use put::put_margins;
