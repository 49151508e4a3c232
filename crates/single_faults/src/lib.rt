//! The single faults that a campaign tries.
//!
//! [`faults_in`] gives those of a slot, by what each node does there in the run of the script as it is, and
//! [`with_fault`] the script with one of them more. What is tried, and in which order, says
//! `specs/Tried.antt` of the crate campaign. `try_one` of fault_runs asks the law that the script stays
//! valid, and then for the script:
//!
//! ```text
//! more_is_valid(common.list, common.script, fault);
//! let more = with_fault(common.alloc, common.script, fault)?;
//! ```
//!
//! [`laws::more_is_valid`] wants room for one event more and a fault that may stand in the script;
//! [`laws::faults_may_stand`] says that each fault that is tried may.
//!
//! A slot has at most 16 faults for each node. The script is copied with all of its events for each fault,
//! and they are sorted anew, since an index can't grow: that is cheap where a script has a few events, and
//! not where it has many thousands. Both calls take memory, and share nothing between threads: a script
//! with a fault is a value of its own. The crate runs no cluster, and nothing that runs a script knows that
//! a fault in it was tried.
#![tactic(auto, using(ttp_world::proofs::Lists::nodes))]

pub mod laws;
mod script;
mod tried;

pub use script::{copy_of, with_fault};
pub use tried::{faults_in, is_timed};
