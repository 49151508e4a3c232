//! The text of pairs of faults, line by line.
//!
//! Each function adds a line to a growing `GrowingText`: the head, the line of a pair ([`put_pair`]) and of a first fault
//! ([`put_first`]), and the sums ([`put_sum`], [`put_apart`]). The lines are those of `specs/PairText.antt` of the crate
//! fault_pairs; what a run cost and what its test says are written as in a campaign (`campaign_text` of fault_runs):
//!
//! ```text
//! let pair = Pair { slot, apart, one, two };
//! put_pair(&mut line, list, class, &pair, &own, &harms, &both, &cost)?;
//! ```
//!
//! A line costs its bytes, and the test of a script where it tells a run. The crate runs no cluster, and writes to no sink.
#![tactic(auto, using(std::proofs::Common::append_assoc))]

mod lines;
mod words;

pub use lines::{Pair, put_apart, put_first, put_head, put_pair, put_sum};
