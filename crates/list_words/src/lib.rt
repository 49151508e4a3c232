//! The words of what is wrong with a list.
//!
//! A fault of a list is a value, as list_errors tells it. This crate says it in the words of `ttplab check`, as the definitions of
//! `specs/Words.antt` have them: what `ttpbench` calls it, and what stands there and is wanted.
//!
//! ```text
//! put_wrong_fault(&mut line, wrong)?;
//! line.put(": ")?;
//! put_said(alloc, &mut line, measures, stop, wrong)?;
//! ```
//!
//! What is said of a text that is no TOML it is given. It adds to a growing text, and looks for no fault and no place.
#![tactic(auto, using(std::proofs::Common::append_assoc))]

mod words;

pub use words::{Measures, put_said, put_wrong_fault};
