//! How far apart the clocks of a cluster can drift.
//!
//! Each node corrects its clock once a round, by the fault-tolerant average of the deviations that it noted.
//! In between the clocks drift apart again, and each deviation is read with an error. From the bounds of a
//! descriptor list the functions say how much of that can remain, in microticks. [`spread`] is of the clocks
//! of two nodes at the beginning of a slot, [`needed`] of what one of them measures of a frame of the other;
//! the other two are the same where nodes come to the group later. `bounds_of_four_nodes` of ground_tests has
//! them for four nodes in one round, with a drift of 1 and reading errors of 2; `window_broken` of
//! hypothesis asks whether `needed(list) <= list.window`:
//!
//! ```text
//! assert!(rt; spread(&list) == 21);
//! assert!(rt; needed(&list) == 23);
//! assert!(rt; spread_rejoining(&list) == 33);
//! assert!(rt; needed_rejoining(&list) == 35);
//! ```
//!
//! The first two are promises about the world of `ttp_world`, for any group of nodes that ran together since
//! some slot (`IsCommonRun` of `specs/Together.antt`):
//!
//! - in that slot they began on one frame: one of them sent it and started, and the others joined on it, or
//!   all joined on it;
//! - in every later slot each of them sent or judged and so stayed active, and either none of them noted a
//!   deviation, or each noted that of a frame of one and the same node, which need not be one of them and
//!   whose clock may show anything;
//! - in every round that began after that slot each of them noted four or more;
//! - clocks drift and are read within the list's bounds, and none of theirs jumps.
//!
//! The other two are promises about a company (`IsCompanyRun` of `specs/Company.antt`), a group from which
//! nodes go and to which others come:
//!
//! - they come two rounds or more after the slot in which it began, or in which some came last, each on a
//!   frame of one of its nodes, at that node's place;
//! - what it notes are frames of its nodes, and in every round that began after some came last each node
//!   notes four or more;
//! - no clock jumps from its node's entry on.
//!
//! Where none came in the last two rounds the first two bounds hold again. A company is the general case,
//! and one induction proves both: `proofs/Averages.antt` shows what two averages make of clocks that are
//! near, `proofs/Rounds.antt` how far clocks and notes are apart before each slot of a round, and
//! `proofs/Runs.antt` that a company's run keeps it. safety_laws and two_faced cite `proofs/Runs.antt`
//! for a company of their own.
//!
//! Each call is some sums. The crate reads no clock, corrects none, shares nothing between threads and takes
//! no memory. That nodes run together in a given run is for others to say.
#![tactic(auto)]

mod bounds;
mod worked_run;

pub use bounds::{needed, needed_rejoining, spread, spread_rejoining};
