//! The run of which a text is the trace, slot by slot.
//!
//! What a cluster does follows from its list and script, but for the messages that frames carry: these are
//! named by the lines of its trace. A [`TraceRun`] goes through the run by them, for a text of which
//! `verify` of trace_check has said that it is a trace. It stands for the numbers of the slots so far
//! (`TraceStandsFor` of `specs/Run.antt`). In each slot [`TraceRun::make`] makes the slot, after which the
//! plant and the messages of its frames are there to be read (`HasMade`), and [`TraceRun::pass`] goes behind
//! the slot's lines. `put_all` of bus_frames goes through each slot so:
//!
//! ```text
//! run.make(list, script, slot, rest);
//! note_offsets(list, run.plant(), &mut offsets);
//! rest = run.pass(list, script, slot, rest);
//! ```
//!
//! A slot costs its nodes, as it does a plant, and its lines, of which none is compared again. Only
//! [`TraceRun::new`] takes memory. The crate writes nothing, and asks nothing of a text but its lines' ends
//! and the numbers of messages that hosts have written in the slot.
#![tactic(auto)]

mod run;
mod skip;

pub use run::TraceRun;
