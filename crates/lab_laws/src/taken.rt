//! That the lab's readers take every text that the programs write: [`traces`] of the trace of a run, and [`campaigns`] of the
//! text of a campaign, whole or in pieces.
//!
//! The module has no code that does anything: its functions are laws.

pub mod campaigns;
pub mod traces;
