//! The values of a sweep, taken one after another, and the lines of margins.
//!
//! A [`Swept`] takes what is told of each value in ascending order ([`Told`]) and keeps the range that is open and what sums the
//! sweep up; a range that a value ends is handed back. Contracts see it as the values that it took (`IsSweptOf` of
//! `specs/Taken.antt`). Sweeps are summed up by [`with_margin`]. The lines are formed into a [`Text`] of [`ROOM`] bytes.
//! `put_told` of margin_runs takes a value so:
//!
//! ```text
//! if let Some(range) = swept.take(told) {
//!     form_range(line, list, sweep, &range);
//! }
//! ```
//!
//! A value costs the comparison with the open range. The crate knows no cluster, takes no memory, and writes to no sink.
#![tactic(auto)]

mod fold;
mod lines;
mod put;
mod range;
mod swept;
mod told;

pub use fold::{no_sweeps, with_margin};
pub use lines::{ROOM, form_all, form_head, form_margin, form_range};
pub use range::OpenRange;
pub use swept::Swept;
pub use told::{Told, kept_words, owed_words};
