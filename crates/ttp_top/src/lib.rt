//! The commands of the program: what each form of words asks for, does and writes.
//!
//! [`obey`] takes the words of a command, a library that its files come from, and a sink that its
//! output goes to, and follows the plan of the form that the words have. What follows it keeps the
//! product's promise, which is the contract of `bench` in bench_call, the crate above:
//!
//! ```text
//! obey(rt, alloc, words, library, out, gate, kept)
//! ```
//!
//! What a form asks for and how it may end stands in its plan (`specs/Calls/Forms.antt`) and
//! nowhere else; a command that is added gets a plan, and no clause of `bench`.
//! `specs/Calls/Words.antt` has the forms of the words and `Promise.antt` what they add to the
//! promise of every call, which is that of commands. `specs/Scripts`, `specs/Samples`,
//! `specs/Traces` and `specs/Tests` have the promises of commands in their own words. `verify` and
//! `modes` speak of the whole text however much of it is loaded, since no trace is longer than a
//! load may be (`trace_size` of theorems), and `proofs/Fronts.antt` of trace_check shows that the bytes that are loaded
//! decide.
//!
//! `run` goes through a cluster in `src/trace.rt`: it is made before the first line, and between
//! two slots it stands for legal message numbers whose lines were written (`HasWritten`). Each text
//! is written a line at a time, each line as one piece; after a failed write nothing more is
//! written. `sample` does all slots in `src/totals.rt` before its first line, and forms no text of
//! a slot. `src/kept.rt` has the one function that lets a cluster go, since each that may do so is
//! proved part by part of what a cluster holds.
//!
//! `run` and `sample` alone start threads and wait, in slots in which hosts write or read. A slot
//! of theirs costs its nodes and takes memory for its report. The crate never opens a file and
//! never prints: that is the library's and the sink's part.
#![tactic(auto)]

mod ask;
mod call;
mod faced;
mod kept;
pub mod laws;
mod modes;
mod run;
mod sample;
mod schedule;
mod totals;
mod trace;
mod verify;
mod words;

pub use call::obey;
pub use kept::let_go;
