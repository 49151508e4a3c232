//! Laws of views: what their titles say are lines of the text that they show.
//!
//! [`pictures`] has the titles of a picture, which are the lines of its trace, and [`charts`] those of a chart's marks, which are
//! lines of faults of its campaign.
//!
//! The crate has no code that does anything: its functions are laws. It stands apart from the views, so that no view waits for
//! it, and from what the lab's readers take (lab_laws).
#![tactic(auto)]

pub mod charts;
pub mod pictures;
