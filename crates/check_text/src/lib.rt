//! What `ttplab check` writes of a list, or of a list and a script.
//!
//! [`put_check`] has the crates below find what is wrong, says each fault in a line with its place, and each rule of the hypothesis
//! that right files break, and counts them in the last line. The text is `check_lines` of `specs/Check.antt`, a function of the names
//! and the bytes of the files, and the status is `check_status`.
//!
//! ```text
//! let status = put_check(alloc, Named { name, text }, Some(Named { .. }), &mut out)?;
//! ```
//!
//! Faults are found before the first line is written, and a line is formed when it is its turn, in a text that is used again.
//! Memory is taken for what is found, 48 bytes a fault of a script, and never for its lines.
#![tactic(auto, using(std::proofs::Common::append_assoc))]

mod found;
pub mod laws;
mod line_at;
mod lines;
mod list_side;
mod named;
mod page;
mod put;
mod rules;
mod script_side;

pub use named::Named;
pub use put::put_check;
