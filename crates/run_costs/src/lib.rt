//! What the run of a script costs.
//!
//! [`cost_of`] runs the cluster of a list through a script and reads off who left, who was hurt without being faulty, when the
//! memberships of correct nodes were split, and which are left. `put_campaign` of fault_runs asks it of the script's own run, and
//! [`cost_from`] of each fault's:
//!
//! ```text
//! let cost = cost_from(alloc, list, script, fault, &more, past, run)?;
//! ```
//!
//! [`cost_from`] runs the slots from the fault on alone: those before are those of the script's own run ([`SeenRun`]), whose
//! plant is copied. That the two scripts have one past is the law `plants_of_scripts_that_agree` of controller. A [`Run`] is the
//! same cluster slot by slot, for who wants to see what its nodes do. It is run through its controllers from slot 0 on, with zeros
//! for the payload of every frame; what is read of it is the same for all legal message numbers (campaign_laws).
//!
//! A slot costs its nodes, and a copy of a run its nodes. Memory is taken for a run once, and for each cost. A run is a plain
//! value that may go to another thread; nothing is shared.
#![tactic(auto, using(ttp_world::proofs::Lists::nodes))]

mod cost;
mod run;
pub mod seen_costs;
mod seen_run;

pub use cost::{cost_from, cost_of};
pub use run::Run;
pub use seen_run::SeenRun;
