//! Three callers of `bench`, over files and output in memory.
//!
//! They show what a caller outside says in words of its own. [`safe_trace`] has the text of a run and the
//! headline of it, [`verify_run`] asks `verify` about a text that `run` wrote, and [`run_and_keeps`] compares
//! the end of a trace with what `keeps` writes. `docs/CALLERS.md` shows their code, and what each needed of
//! proof. They stand on public contracts and lemmas alone, and nothing stands on them.

mod ask;
mod headline;
mod last_lines;
mod memory;
mod verified;

pub use headline::safe_trace;
pub use last_lines::run_and_keeps;
pub use memory::Missing;
pub use verified::verify_run;
