//! The text of a campaign as a whole: the one that `ttplab campaign` writes, or several of them one behind another.
//!
//! [`read_campaign`] goes over a text once and gives the campaign that it is, or the number of the first line that is not due. A
//! [`Campaign`] gives the line of the script's own run, the [`Pieces`] with their ranges and counts, and the [`Faults`], line by
//! line; each walk reads the text again. `sums_of` of chart_text goes over the pieces, and `campaign_from` of lab_top reads a text
//! so:
//!
//! ```text
//! match read_campaign(text) {
//!     Ok(campaign) => Ok(campaign),
//!     Err(number) => Err(TextFault::Line { number }),
//! }
//! ```
//!
//! A contract sees a campaign as its `WholeCampaign` and a walk as what is left of it. Which lines are due says `specs/Due.antt`,
//! what a line of a fault says `specs/Faults.antt`, what the whole is `campaign_in` of `specs/Whole.antt`, and what each campaign
//! that was read keeps `IsReadable` of `specs/Readable.antt`.
//!
//! Whether a line is right is not asked. A line costs its bytes. The crate takes no memory, what it gives borrows the text and is
//! never shared between threads, and it runs nothing and knows no list and no script.
#![tactic(auto, using(std::proofs::Common::append_assoc))]

mod cost;
mod counts;
mod cut;
mod due;
mod fault;
mod head;
mod listed;
mod own;
mod place;
mod run_words;
mod shown;
mod spot;
mod test;
mod walks;
mod whole;

pub use cost::CostShown;
pub use counts::no_runs;
pub use head::CampaignHead;
pub use listed::{Kind, NodesSoFar, SetsSoFar};
pub use own::OwnLine;
pub use shown::{Doing, FaultLine, FaultShown, Piece, Test};
pub use walks::{Faults, Pieces};
pub use whole::{Campaign, read_campaign};
