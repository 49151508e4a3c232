//! Where a text stops being TOML.
//!
//! [`stop_of`] reads a text statement by statement and part by part, as the grammar of TOML 1.1 does, and tells the
//! first part that can't be read: its place, what is due there and what stands there, or that its key is defined
//! already. Keys, strings, numbers and white space are read by toml_parser; `src/names.rt` has the rules by which keys
//! and headers define tables. The crate makes no values.
//!
//! [`read_statement`], [`member`] and [`element`] read one statement, one member of an inline table and one element of an
//! array, for a caller that asks where they stand.
//!
//! Each reading is that of `specs/Walk.antt`, which goes through the grammar of TOML 1.1 with the readers that toml_parser
//! defines, and which has the reason and the place wherever the grammar has no reading; `specs/Names.antt` has the rules
//! by which keys and headers define tables, and `specs/Halting.antt` what stands at a place. A second reading, in
//! `.ci/list_errors.py`, is tried beside it.
//!
//! A text is gone over once. Memory is taken for each key as it is read, and for the names of the text's tables.
#![tactic(auto)]

mod halt;
mod names;
mod stop;
mod walk;

pub use halt::{Halt, Halted};
pub use stop::{Due, NoValue, Stop, Token, Why};
pub use walk::{Statement, What, element, member, read_statement, skip_bom, stop_of};
