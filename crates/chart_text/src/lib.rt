//! The chart of a campaign, as a text that browsers show: a cell for each node in a slot, which says what the worst of its faults
//! does; a mark for each fault that changed something, with its line of the campaign as its title; and the ten worst faults.
//!
//! [`put_chart`] writes the text, which is `chart_lines` of `specs/Chart.antt`, line by line. `specs/Looks.antt` says what came of
//! a fault and how that looks, `specs/Worst.antt` which faults are worse, `specs/Sums.antt` what some faults come to,
//! `specs/Columns.antt` which slots are shown and where they stand, `specs/Column.antt` what stands in the column of a slot, and
//! `specs/Key.antt` what stands below all columns. `show_chart` of lab_top calls it:
//!
//! ```text
//! match put_chart(alloc, &campaign, asked, out) {
//!     Ok(()) => 0,
//!     Err(ChartFault::NoSlot) => refuse_campaign(out, TextFault::NoSlot),
//!     Err(ChartFault::Failed) => 6,
//!     Err(ChartFault::Memory) => 7,
//! }
//! ```
//!
//! The crate reads no text: the campaign is a value of whole_campaign, and is gone over a few times. Its elements are those of
//! picture_text where they are the same. A line of the campaign costs its bytes and its mark. Memory is taken before the first
//! line is written, for a mark for each slot, for the longest line and for the ten worst faults, and nothing is shared between
//! threads.
#![tactic(auto)]

mod ahead;
mod band;
mod block;
mod buffer;
mod chart;
mod column;
mod element;
mod extent;
mod fault_mark;
mod flag;
mod head;
mod key;
mod kind;
mod line_words;
mod listed;
mod look;
mod marks;
mod size;
mod sum;
mod sums;
mod survey;
mod table;
mod tally;
mod worst;

pub use chart::{ChartFault, put_chart};
pub use look::{Look, Outcome};
pub use size::Size;
pub use sum::Summed;
