//! The words of what breaks the rules of the hypothesis.
//!
//! What breaks a rule is a value, as broken_rules tells it: in which slot, by which line, which nodes, with which numbers. This
//! crate says it in the words of `ttplab check`, each rule in a line with its place, as the definitions of `specs/Warnings.antt`
//! have it:
//!
//! ```text
//! let lines = said_lines(alloc, script_text)?;
//! let files = Files { list: &list, script: &script, armed, events: lines.events.as_slice(), .. };
//! for line in warning_lines(alloc, &files, &broken_rules(&list, &script))?.as_slice() { .. line.bytes() .. }
//! ```
//!
//! The script's lines are gone over once by [`said_lines`], which keeps of each its place, its form and its node. The crate asks
//! no rule, and writes to no sink.
#![tactic(auto, using(std::proofs::Common::append_assoc))]

mod files;
mod rule_lines;
mod stated;
mod texts;
mod warnings;

pub use files::Files;
pub use stated::{SaidLine, SaidLines, said_lines};
pub use warnings::{warning_lines, window_alone};
