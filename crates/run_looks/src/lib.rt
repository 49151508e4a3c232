//! What is looked for in a run and its script.
//!
//! Where the causes of an entry lie is found by looking back: for the newest entry of a kind ([`back_to`]), for what a node judged
//! since its own entry ([`add_judged_since_own`]), and for the lines of the script that struck a node in a slot
//! ([`first_line`], [`widest_line`], [`add_lines`]). What is found is added to [`Sources`]:
//!
//! ```text
//! let mut out = Sources::none(alloc);
//! add_judged_since_own(run, Verdicts::MissOrTentative, node, slot, &mut out)?;
//! let cause = out.cause_by(Because::NoneSinceOwn(own_slot(run, node, slot)));
//! ```
//!
//! Each call is what the definitions of causes say of the slots before one. To look back costs the slots that are gone over, and to
//! look for lines the events of the script. Memory is taken for what is added alone.
#![tactic(auto, using(ttp_world::proofs::Lists::nodes, std::proofs::Common::append_assoc))]

mod back;
mod questions;
mod sources;

pub use back::{
    Kind, Verdicts, add_judged_since_own, back_to, count_judged_since_own, is_judged_so, is_of,
    newest_departure, newest_spot, own_slot,
};
pub use questions::{Question, add_lines, first_line, widest_line};
pub use sources::Sources;
