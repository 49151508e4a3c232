//! Every two faults of a range of slots, run and written.
//!
//! [`put_pairs`] runs a list with a script and each two faults more of which the first begins in a range of slots and the second
//! up to so many slots later, and writes the lines of `pairs_lines` (crate fault_pairs) to a sink, each as one piece:
//!
//! ```text
//! match put_pairs(rt, alloc, list, script, first, last, within, processors(rt), out) {
//!     Ok(()) => 0,
//!     Err(CampaignFault::Failed) => 6,
//!     Err(CampaignFault::Memory) => 7,
//! }
//! ```
//!
//! Runs share their past twice: the slots before a first fault are run once, those between the two once for each first fault, and
//! those behind the second for each pair. The second faults of a slot are run side by side, in as many threads as are asked for.
//! What is written is the same for any number of threads. What each second fault costs alone is kept for the slots that pairs
//! reach to; a fault that the script's own run does not have, since the first one changed what its node does, is run alone when
//! it comes up.
//!
//! The crate keeps the runs, the counts of each distance, and a few numbers for each fault of these slots. It forgets the pairs of
//! a slot once they are counted, so memory grows neither with pairs nor with lines.
#![tactic(auto, using(ttp_world::proofs::Lists::nodes))]

mod ahead;
mod harm;
mod put;
mod singles;
mod tally;
mod tried;

pub use put::put_pairs;
