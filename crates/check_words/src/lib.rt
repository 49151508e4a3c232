//! The words of what is wrong with a list or a script.
//!
//! A fault is a value: which one, with its numbers. This crate says it in the words of `ttplab check`, as the definitions of
//! `specs/` have them: a word of a file as it is shown, the nearest name of a table, and a sentence for each fault.
//!
//! ```text
//! put_place(&mut line, name, place)?;
//! put_said(alloc, &mut line, word, error.wrong)?;
//! ```
//!
//! It adds to a growing text, which is put together from [`Piece`]s, knows no file, and takes no memory but for texts and a table of
//! edits. A word costs its bytes.
#![tactic(auto, using(std::proofs::Common::append_assoc))]

mod lines;
mod nearest;
mod nodes;
mod pieces;
mod script_words;
mod shown;

pub use lines::{Place, put_last, put_place};
pub use nearest::{Near, put_meant};
pub use pieces::{Piece, put_pieces};
pub use script_words::{put_said, wrong_fault};
pub use shown::{put_byte_hex, put_shown};
use ttp_base::GrowingText;

/// The text that words are added to.
pub type Text = GrowingText;
