//! What every two faults cost more than each alone: definitions.
//!
//! A campaign (crate campaign) tells what each single fault costs. Here each fault that a campaign tries in a range of slots is
//! the *first* of pairs, and each that is tried behind it, up to so many slots later, is the *second*. This crate says which
//! pairs there are (`specs/Pairs.antt`), what three runs say of a pair, with both faults, with the first alone and with the
//! second alone (`specs/Classes.antt`), how pairs are counted (`specs/Sums.antt`), and how all is written
//! (`specs/PairText.antt`).
//!
//! A run is that of `zeros_world` (campaign), one for all legal message numbers, and what is read of it is what a campaign
//! reads. The whole text is `pairs_lines`. `two_receivers_of_one_frame` of pair_rows has a line of it:
//!
//! ```text
//! pair third slot 22 apart 0 nodes 0 2 alone 1 3 third 1 keeps no H5 22 left 1:26:clique,2:24:denied ..
//! ```
//!
//! The crate has no code but for the types, and promises nothing: the words are those of the contracts above it.
#![tactic(auto)]

mod pair;

pub use pair::{Harm, PairClass, PairCounts};
