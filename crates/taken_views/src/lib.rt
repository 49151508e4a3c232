//! That `ttplab` shows every trace of a run.
//!
//! [`laws::runs_can_be_shown`] says that no view refuses the text of a run, of a valid list and script whose hosts
//! write bytes and of legal message numbers: it is a trace, as `taken` of lab_laws says, and not too large, as
//! `trace_size` of theorems says. So it gives its view, where it has the slots that are asked for, or none are (`CanBeShown` of
//! lab_top).
//!
//! The crate has no code that does anything: its function is a law. It stands above lab_top, so that lab_top need
//! not wait for it.
#![tactic(auto)]

pub mod laws;
