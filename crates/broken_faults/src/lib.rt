//! The rules on faults that a script breaks, each by what.
//!
//! `keeps` and `returns` of hypothesis name the first rule that is broken, with a slot. [`broken_faults`] tells, where a
//! cluster starts, which frame is lost against the rule on losses, to whom; which fault comes too early, and since when;
//! and which nodes to measure clocks by are left where they are too few. Each names the line of the script that caused
//! it, by its place among the script's events.
//!
//! ```text
//! let broken = broken_faults(list, script, start);
//! if let Some(frame) = broken.lost { .. frame.sender, frame.lost, frame.heard .. }
//! ```
//!
//! What it tells is the definition of `specs/BrokenFaults.antt`, and it names the slots that hypothesis names. Who is
//! faulty in a slot is what hypothesis says; each rule goes over the slots once, up to the one in which it is broken. The
//! crate takes no memory, forms no text, and knows no lines.
#![tactic(auto, using(ttp_world::proofs::Lists::nodes))]

mod causes;
mod early;
mod faults;
mod few;
mod losses;

pub use crate::early::{EarlyFault, Since};
pub use crate::faults::{BrokenFaults, broken_faults};
pub use crate::few::TooFew;
pub use crate::losses::LostFrame;
