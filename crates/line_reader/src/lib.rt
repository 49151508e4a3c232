//! A line of a trace, read: [`read_line`] gives the value whose line some bytes are, and [`read_node_line`] that of a
//! node's line alone, which costs less: most lines are such lines, and the value is small to move.
//!
//! What the line of a value is says `text_of` of `specs/TraceLines.antt`, and what fits into its widths `Fits`. A
//! value is read exactly where it fits and the bytes are its line, so each line is the line of one value at most
//! ([`laws::one_value`]). [`laws::lines_of_traces`] says that the lines of the definition of a trace are lines of
//! values. `value_of` of whole_trace reads a line that ends with its line feed:
//!
//! ```text
//! let (bytes, end) = line.split_at(line.len() - 1);
//! if end == b"\n".as_slice() {
//!     read_line(bytes)
//! } else {
//!     None
//! }
//! ```
//!
//! Each line has a form of line_form (`specs/TraceForms.antt`), by which it is read, label by label; `specs/Reading.antt`
//! has the value that its words make. `proofs/ReadLines.antt` shows that what is read is what the line says, and
//! `proofs/WrittenLines.antt` that the line of each value that fits is read as that value, both by the laws of all forms.
//!
//! The bytes of a line are gone over once for each form that they begin as. Threads share nothing here. The crate
//! asks of a line what its form does, and not whether it belongs into a trace. It takes no memory, forms no line, and
//! knows no list, no report and no ring, so that whoever shows a trace waits for none of these.
#![tactic(auto)]

pub mod laws;
mod line_words;
mod read;
mod trace_line;

pub use read::{read_line, read_node_line};
pub use trace_line::{NodeLine, TraceLine, Word};
