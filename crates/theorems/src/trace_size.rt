//! How long the trace of a run may be.
//!
//! The file of a trace is loaded up to [`TRACE_LIMIT`] bytes, and [`laws::within_limit`] says that no trace
//! is longer, whichever list, script and legal message numbers it has: so a longer text is no trace. A run
//! has at most 20,000 slots of 24 nodes, whose lines have at most 128 bytes, and 95,325 lines of hosts with
//! at most 528 bytes. The numbers in the first line and in those of the tests may be any; all together
//! leave a sixth of the limit.
//!
//! The lines are counted by the definitions alone. What a node shows is small (`IsSmall` of
//! `proofs/Small.antt`): in a slot it counts one frame more at most, and its clock goes no further than
//! 2^38 microticks (`proofs/SmallStates.antt`, an induction over slots). Each other line of a slot is of an
//! event of a host, which lies in one slot (`proofs/HostEvents.antt`). `proofs/TraceLength.antt` adds all
//! up.
//!
//! A caller needs a valid list and script and legal numbers, and cites `trace-short` of
//! `proofs/TraceLength.antt`, as ttp_top does for `verify` and taken_views for views.
//!
//! The module has no code that does anything: its function is a law.

pub mod laws;
mod limit;

pub use limit::TRACE_LIMIT;
