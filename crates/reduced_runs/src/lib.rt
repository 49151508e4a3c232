//! What the lines of a story bring about alone.
//!
//! A story names lines of a script. [`entry_alone`] says what its entry is in the run of the script in which of all fault lines
//! these alone are left, and [`is_needed`] whether it has another word there without one of them too. Where it has the same
//! word alone and needs each line, the lines are a minimal cut set of a fault tree. `specs/Reduced.antt` of causes has the
//! definitions; [`laws::all_lines_suffice`] says that where all fault lines are named, nothing is left out.
//!
//! ```text
//! let alone = entry_alone(alloc, list, script, lines, slot, node)?;
//! let needed = is_needed(alloc, list, script, lines, line, slot, node, entry)?;
//! ```
//!
//! Each call makes a script with its index and one run up to the slot: a script is copied in the time of a sort of its events
//! and a step for each of its faults and each line, and a slot of a run costs its nodes. A run keeps no slot but the newest. Nothing
//! is kept between calls, and nothing is shared.
#![tactic(auto, using(ttp_world::proofs::Lists::nodes))]

pub mod laws;
mod runs;
mod script;
mod words;

pub use runs::{entry_alone, entry_in_run, is_needed};
pub use script::with_faults_at;
pub use words::entry_word;
