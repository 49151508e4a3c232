//! Where what is wrong with a list stands in its text.
//!
//! [`list_places`] gives a line and a column for each error of list_errors, and where and why the text stops being TOML, if
//! that is what is wrong. Keys and slots stand where the text first writes them: `src/marks.rt` goes over its statements and
//! notes each place by the bytes that are left there.
//!
//! Each place is that of `specs/Places.antt`, which takes it from `specs/Marks.antt`: the statements of the text, read by the
//! definitions of toml_walk, with what is first written in each.
//!
//! The crate makes no values, reads no file, and forms no text.
#![tactic(auto)]

mod lines;
mod marks;
mod places;

pub use lines::Place;
pub use places::{Places, list_places};
pub use toml_walk::{Due, NoValue, Stop, Token, Why};
