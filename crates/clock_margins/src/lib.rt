//! From which value on a node's clock costs others: definitions.
//!
//! A frame that comes at the edge of the window is in time to some receivers and too late to others. A clock that does this is
//! *slightly off specification* (Ademaj and others, 2003), and may cost healthy nodes their membership while its own
//! node stays. A sweep runs a list with a script once for each whole value of one node's drift, or of its jump in one slot.
//! This crate says which sweeps there are and what each value's run is (`specs/Sweeps.antt`), what is told of such a run
//! (`specs/Outcomes.antt`), the ranges of values that cost the same (`specs/Ranges.antt`), what sums them up
//! (`specs/Sums.antt`), and how all is written (`specs/Forms.antt`, `specs/MarginText.antt`).
//!
//! A run is that of `zeros_world` (campaign), one for all legal message numbers, and what is told of it is read as a campaign
//! reads it, but that the node whose clock is swept counts as faulty in every slot besides. The whole text is `margin_lines`.
//! `a_clock_behind_the_start` of margin_rows has the lines of a sweep:
//!
//! ```text
//! drift node 1 slot - from 2 to 4 costs others keeps no H1 0 left 1,2,3,4 hurt 2,3,4 split no end 0001
//! margin drift node 1 slot - ranges 5 nobody 1 itself 2 others 6 free 0 0 below -4 -2 above 2 4 most 3
//! ```
//!
//! The crate has no code but for the types, and promises nothing: the words are those of the contracts above it.
#![tactic(auto)]

mod margin;

pub use margin::{Between, CostCounts, Costs, Margin, Outcome, Sweep, Total};
