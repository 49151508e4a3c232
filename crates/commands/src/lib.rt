//! What commands are made of, for any program: words, plans, files and endings.
//!
//! A command of a program asks a library for files in a stated order and ends with a status and a text, and
//! what it asks for and how it ends by what the files hold is its `Plan` (`specs/Plan.antt`). This crate says
//! what a plan is, what it means that a call followed one (`Outcome.antt`), and what a call that did promises
//! (`Promise.antt`), over any sets of texts and anything that a call may keep: a program's own part of these
//! words is a `Program` (`Texts.antt`). It loads and reads the files that programs share, a list, a script
//! and the text of a trace, says what is wrong with one that is refused, and reads the numerals among words.
//!
//! `schedule` of ttp_top is a command of one file:
//!
//! ```text
//! match load_list(alloc, list, library, out) {
//!     Ok(medl) => show_table(&medl, out),
//!     Err(status) => status,
//! }
//! ```
//!
//! The contracts of [`load_list`] and its like speak of the files alone. `proofs/Loads.antt` makes of them
//! how far in a plan a call is, and `proofs/Promises.antt` the promise of a plan that was followed, where
//! each ending of the plan has a status up to 4 and texts made of lines. A file is loaded once, up to its
//! limit and one byte more: 1,048,576 bytes for a list or a script, 134,217,728 for the text of a trace.
//! Nothing is written but the line that refuses it.
//!
//! Threads share nothing here. The crate knows no command: which forms words have, and what a form writes, is
//! the program's.
#![tactic(auto)]

mod faults;
mod load;
mod read;
mod said;
mod words;

pub use faults::file_fault_line;
pub use load::{load_both, load_list, load_script, load_text, load_trace};
pub use read::{FileFault, LIST_LIMIT, SCRIPT_LIMIT, TRACE_LIMIT};
pub use said::say;
pub use words::numeral_named;
