//! Scripts as files.
//!
//! [`read_script`] reads a script for a list from the bytes of a file. What a file means is the
//! definition `script_of` of `specs/ScriptFile.antt`, over the list of all its lines: the script, or
//! the first faulty line with its first fault in a fixed order. `specs/Lines.antt`, `Numbers.antt`
//! and `Statement.antt` say what one line states, and `specs/Faults.antt` what is wrong with it
//! after the lines before. `script_from` of commands reads the bytes of a file so:
//!
//! ```text
//! match read_script(alloc, list, bytes) {
//!     Ok(script) => Ok(script),
//!     Err(ScriptError::Memory) => Err(Refusal::Memory),
//!     Err(fault) => Err(Refusal::Told(FileFault::Script(fault))),
//! }
//! ```
//!
//! The layer above gets a script that is valid for the list, which `proofs/Valid.antt` and
//! `RightFiles.antt` show of the definition, for lines without a fault. Between two lines the reader
//! stands for what the lines so far state (`LinesStandFor` of `specs/SoFar.antt`). A line is cut into
//! words once, a wrong `error` line twice (`src/words.rt`), and words of digits are read as numbers
//! on the way; by its words a line says something, or has a first fault (`src/event.rt`, `src/host.rt`).
//!
//! The file is gone over once, and at the end its events are sorted into an index. No code counts
//! them: a file of 1,048,576 bytes has no more than 131,072, of which at most 95,325 are of hosts,
//! by the bytes that such lines take (`proofs/Sizes.antt`). Memory is taken for what lines say of
//! nodes and slots, for the index, and where a host writes for a byte for each node and slot.
//! Threads share nothing here. The crate never reads a file, and never keeps a refused script.
#![tactic(auto)]

mod error;
mod event;
mod first;
mod form;
mod hex;
mod host;
mod keyword;
mod lines;
mod number;
mod read;
mod so_far;
mod words;
mod writes;

pub use error::{LineFault, ScriptError};
pub use form::{is_channels, is_fault, is_text};
pub use hex::is_hex_word;
pub use lines::{Cut, is_blank, next_line};
pub use number::decimal_value;
pub use read::{is_comment, read_script};
pub use words::cut_first_word;
