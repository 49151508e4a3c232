//! The waveform of a trace: for each variable of the cluster, its nodes and their hosts its value from each slot on, as a text
//! that wave viewers read.
//!
//! The text is `wave_lines` of `specs/Wave.antt`, line by line. `specs/Variables.antt` declares the variables, and
//! `specs/Values.antt` says what value each has after a slot, by the lines of that slot alone. A change stands where a value
//! differs from the one in the slot before. [`put_wave`] writes it, and `show_wave` of lab_top calls it:
//!
//! ```text
//! match put_wave(alloc, &trace, out) {
//!     Ok(()) => 0,
//!     Err(WaveFault::Failed) => 6,
//!     Err(WaveFault::Memory) => 7,
//! }
//! ```
//!
//! The declarations and the changes of a slot are written line by line, each as one piece, exactly as the definition has them, to
//! the `Sheet` of ttp_base: once the sink failed nothing more is written, and the end tells of it.
//! [`laws::lines_of_waveforms`] says that each line of a waveform is one line, and [`laws::values_tell_lines`] that the values of
//! a node tell its line again.
//!
//! The crate reads no text: a trace is a value of whole_trace, and its slots are gone over twice, the first time for the longest
//! message of each port. Nothing is carried from slot to slot but the one before. A slot costs its nodes, its hosts' lines and
//! the changes that are written. Memory is taken before the first line is written, for the newest messages of two slots, and
//! doesn't grow with the trace. Nothing is shared between threads.
#![tactic(auto)]

mod change;
mod declaration;
mod declare;
mod draft;
mod head;
pub mod laws;
mod newest;
mod page;
mod place;
mod port;
mod ports;
mod slot;
mod value;
mod variable;
mod wave;

pub use variable::{ClusterVariable, NodeVariable, PortVariable};
pub use wave::{WaveFault, put_wave};
