//! What `ttplab why` answers of a right list and a right script.
//!
//! [`why_answer`] makes the status and the lines for a node and a slot, or for the node's newest departure: the lines on how
//! the entry came about, or the one line on a node that never leaves, or that the list has not, or on a slot that the run has
//! not. `specs/Answer.antt` has the definition:
//!
//! ```text
//! let answer = why_answer(alloc, list, script, bytes, node, slot)?;
//! for line in answer.lines.as_slice() { out.write(line.bytes())?; }
//! ```
//!
//! It costs a run up to the slot, of which a row is kept for each slot and node, and what the lines cost
//! ([`why_lines::why_lines`]); without a slot it costs one run more, of which nothing is kept. The bytes are those that the script was
//! read from: they give the numbers of its lines. The crate writes nothing, and shares nothing.
//!
//! [`laws`] says what holds of the text: that what is named stands above and is listed, that lines begin as those of
//! the trace do, and that all fault lines together suffice.
#![tactic(auto, using(ttp_world::proofs::Lists::nodes))]

mod answer;
mod departures;
pub mod laws;
mod notices;
mod told;

pub use answer::{WhyAnswer, why_answer};
