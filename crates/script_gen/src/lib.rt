//! The generator of scripts.
//!
//! [`generate`] makes a script for a list from a number, in which all nodes come on at once, clocks drift,
//! readings err, faults strike one node after another as far apart as the single-fault hypothesis asks, and
//! hosts write and read. The same list, number of slots and number give the same script. `show_sample` of
//! ttp_top runs one:
//!
//! ```text
//! let Ok(script) = generate(alloc, &list, slots, number) else {
//!     return 7;
//! };
//! ```
//!
//! It stands on ttp_world, which has the list, the script and the hypothesis. Which script it is says
//! `generated` of `specs/Generator.antt`, and it promises that the script is valid, and that it keeps the
//! hypothesis where the list's window is wide enough and some node may start. The definition names each
//! draw by its place among all of them (`drawn` of `specs/Draws.antt`), so that none of its parts hands a
//! state to the next.
//!
//! That the script is valid is shown of the definition (`proofs/Valid.antt`), and so is that it keeps the
//! hypothesis: `proofs/Starter.antt` has the start, `proofs/FaultEvents.antt` who loses a frame in which
//! slot, and `proofs/Struck.antt` goes from slot to slot. The lemmas take any script with these parts
//! (`IsGenerated`).
//!
//! A slot costs up to three events, and the index a sort; all memory for events is taken before the first
//! is made. It draws from a generator of its own, so that no other crate's can change a script; it is no
//! source of numbers for anything else, and shares nothing between threads.
#![tactic(auto)]

mod clocks;
mod draws;
mod faults;
mod hosts;
mod script;
mod worked_cases;

pub use script::generate;
