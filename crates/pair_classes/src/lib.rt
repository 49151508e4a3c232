//! What two faults cost more together than each alone, and how many pairs are of which class.
//!
//! [`pair_class`] compares three runs by what each did ([`Harms`]): with both faults, with the first alone and with the second
//! alone. [`third_nodes`] and [`newly_left`] are what the line of a pair says besides, and [`with_pair`] counts a pair. What a
//! class is says `specs/Classes.antt` of the crate fault_pairs:
//!
//! ```text
//! let class = pair_class(first, second, &harms);
//! counts = with_pair(&counts, class);
//! ```
//!
//! [`Sums`] keeps the counts of all pairs so far, of each distance and of each answer of the test.
//!
//! A call costs a step for each of 24 nodes at most, and takes no memory but [`Sums::new`]. The crate knows no run, no script and
//! no line.
#![tactic(auto)]

mod classes;
mod counts;
mod sums;

pub use classes::{Harms, has_line, newly_left, pair_class, third_nodes};
pub use counts::{no_pairs, with_pair};
pub use sums::Sums;
