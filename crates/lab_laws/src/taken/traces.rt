//! That views take every trace of a run.
//!
//! A view reads a text as a trace by its form alone, and refuses one that isn't any. [`laws::run_is_taken`] says
//! that the text of a run is none of those: it is read, and as the very trace that the definitions give, whose
//! values `trace_of_run` of `specs/TakenTrace.antt` lists slot by slot. A caller needs a valid list and script whose
//! hosts write bytes, and legal message numbers of the whole run. taken_views cites it as `whole-taken` of
//! `proofs/WholeTaken.antt`, and `law_of_runs` of view_tests calls it:
//!
//! ```text
//! lab_laws::taken::traces::laws::run_is_taken();
//! ```
//!
//! Each line of a run fits into the widths of a line and names nodes of the list alone, and then line_reader's
//! lemmas give its value: `proofs/Standing.antt` has what a node shows, since its counts begin anew with its own
//! slot, `HostLines.antt` and `StatusWords.antt` what hosts wrote and read, and `TestBounds.antt` what the tests
//! answer. That the lines are due one behind the other is an induction over slots, with any lines behind them
//! (`SlotsTaken.antt`). [`worked::two_slots`] is a run of two slots, its text and its trace worked out by hand.
//!
//! The module has no code that does anything: its function is a law.

pub mod laws;
pub mod worked;
