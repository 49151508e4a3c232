//! The numbers of a script's lines.
//!
//! A script as a value has its events in the order of the file, and no numbers of lines. What is said of a script in the words of
//! its file names lines by number: [`line_numbers`] gives the line of each event, and for each node the lines that switch it on and give its
//! clock a drift, from the bytes alone. `specs/Numbers.antt` has the definition.
//!
//! ```text
//! let numbers = line_numbers(alloc, list.nodes(), bytes)?;
//! ```
//!
//! The file is gone over once, and of a line its first two words are looked at. Memory is taken for the numbers, 4 bytes for each
//! event and 8 for each node. The crate asks not whether the bytes are a script.
#![tactic(auto)]

mod numbers;
mod words;

pub use numbers::line_numbers;
