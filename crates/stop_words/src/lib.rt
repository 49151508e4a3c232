//! The words of where a text stops being TOML.
//!
//! The place is a value, as toml_walk tells it: what is due there, and what stands there. This crate says it in the words of
//! `ttplab check`, as the definition `stop_words` of `specs/Stops.antt` has them:
//!
//! ```text
//! put_stop(&mut line, text, &stop)?;
//! ```
//!
//! It adds to a growing text, and reads of the text that is no TOML only the word at the place.
#![tactic(auto, using(std::proofs::Common::append_assoc))]

mod stops;

pub use stops::put_stop;
