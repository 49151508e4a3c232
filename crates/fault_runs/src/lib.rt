//! A campaign of single faults, run and written.
//!
//! [`put_campaign`] runs a list with a script, and then with each single fault more that is tried in a range of slots, and writes
//! the lines of `campaign_lines` (crate campaign) to a sink, each as one piece. `show_campaign` of lab_top calls it:
//!
//! ```text
//! match put_campaign(rt, alloc, list, script, first, last, processors(rt), out) {
//!     Ok(()) => 0,
//!     Err(CampaignFault::Failed) => 6,
//!     Err(CampaignFault::Memory) => 7,
//! }
//! ```
//!
//! The runs of a slot's faults are made side by side, in as many threads as are asked for, and where the system gives none in the
//! thread that asks. What is written is the same for any number of threads. The slots before a fault are those of the script's own
//! run, and each run goes on from there to the script's last slot, so a fault costs the slots behind it. A loss in one slot in
//! which each node does as in the own run costs that slot alone, where from the next one on nobody leaves in the own run and
//! no two memberships are held: both runs are then the same to the end. The list, the script and the own run are lent to the
//! threads, and nothing that one of them changes is seen by another.
//!
//! The lines are [`campaign_text`]'s, which knows no cluster. The crate keeps no run but the script's own, as it is and as it was before the newest slot, and one for each thread; it forgets
//! the lines of a slot once they are written. So memory grows with threads and nodes, and not with slots.
#![tactic(auto, using(ttp_world::proofs::Lists::nodes))]

pub mod campaign_text;
mod merged;
mod own;
mod put;
mod tally;
mod tried;
mod whole;

pub use own::OwnRun;
pub use put::{CampaignFault, put_campaign, put_own_line, row_of};
pub use tally::{has_pair, has_room, is_torn};
pub use tried::processors;
