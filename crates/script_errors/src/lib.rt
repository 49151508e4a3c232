//! All that is wrong with a script.
//!
//! [`script_errors`] tells every fault of a script, where `read_script` of script_text tells the first: for each
//! line in order its faults, each with the word at which it stands and what is due there. What it tells is the
//! definition `script_errors` of `specs/Errors.antt`. `specs/Spots.antt` has the words of a line with their
//! places, and `specs/Words.antt` what is due at a word. Numbers, words and statements are those of script_text's
//! definitions, so that both programs take a line for the same.
//!
//! A line without a fault of its words counts for the lines behind it, whatever stands before it. A list that has a
//! fault itself is `None`: there are then 24 nodes, and nothing is asked of payloads and buffers.
//!
//! ```text
//! let found = script_errors(alloc, &list, false, bytes)?;
//! for error in found.as_slice() { .. error.line, error.at.start + 1, error.wrong .. }
//! ```
//!
//! The file is gone over once, and a line once for its words and once for what they say. Memory is taken for the
//! errors, for the words of the longest line, and where hosts write for a byte for each node and slot. The crate
//! forms no text, reads no file, and never keeps a script.
#![tactic(auto)]

mod error;
mod form;
mod line;
mod number;
mod read;
mod so_far;
mod spots;
mod word;
mod words;
mod writes;

pub use error::{Form, Part, ScriptError, Wrong};
pub use form::form_named;
pub use read::script_errors;
pub use spots::{Spot, cut, spot_text};
