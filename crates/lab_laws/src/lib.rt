//! Laws of the lab: its readers take what the programs write, and a chart shows a campaign however it was cut.
//!
//! [`taken`] says that the lab's readers take every text that the programs write, and [`charts`] what of a campaign a chart
//! depends on.
//!
//! The crate has no code that does anything: its functions are laws. It stands apart from the views, so that no view waits
//! for it.
#![tactic(auto)]

pub mod charts;
pub mod taken;
