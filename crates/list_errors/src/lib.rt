//! All that is wrong with a list.
//!
//! [`list_errors`] tells every fault of a list, where `read_medl` of medl_text tells the first: of the keys at the top, of
//! the number of slots, of each slot's keys, of keys that no list has and of `sync`, each with what stands there. A
//! file that is no list at all has one error. What it tells is the definition `list_wrongs` of `specs/Errors.antt`,
//! over whole tables as the `toml` crate defines them. Keys, ranges and letters are those of medl_text's definitions,
//! so that both programs take a list for the same.
//!
//! A value that a fault hides is missing, and what is measured by it is not looked at: with wrong `rounds` the letters
//! of `kinds` are looked at, and not how many there are.
//!
//! ```text
//! let found = list_errors(alloc, bytes)?;
//! match found.list { Some(list) => .., None => for wrong in found.wrongs.as_slice() { .. } }
//! ```
//!
//! A right list costs what `read_medl` does. Another one is read once more into tables, of which each key is looked at
//! once. Memory is taken for these tables, and for the errors with the keys and letters that they show. The crate
//! forms no text, reads no file, and knows no places.
#![tactic(auto)]

mod error;
mod file;
mod front;
mod read;
mod slot;
mod table;

pub use error::{ValueType, Wrong};
pub use read::{ListFound, document_of, list_errors};
