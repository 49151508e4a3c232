//! The theorems on runs, each for a whole run slot by slot, with no premise but what a test of the script answered.
//!
//! The crates below have each theorem for the newest slot of a run: `safety_laws` and `mode_change` for a script that
//! keeps the single-fault hypothesis, `safety_laws::rejoin` for one whose armed nodes are guaranteed their places,
//! `two_faced` for one two-faced sender. Here they are put together as what a caller of the bench is promised: what
//! holds after each slot from the start on (`HoldsSince` of `specs/Since.antt`; `specs/KeptRun.antt`,
//! `specs/FacedRun.antt`, `specs/ModeText.antt`), and that there are runs at all ([`laws::legal_runs`]), so that what is
//! said of all legal numbers is said of some. [`trace_size`] says how long a trace may be. docs/THEOREMS.md is the page
//! of them.
//!
//! A caller needs a valid list and script, legal message numbers and the answer of the test.
//! `theorems_on_whole_runs` of ground_tests calls the laws; ttp_top, whose promise of `run`, `modes` and `precision`
//! rests on them, cites `proofs/Runs.antt` and `proofs/ModeTexts.antt`:
//!
//! ```text
//! theorems::laws::kept_runs();
//! theorems::laws::back_runs();
//! theorems::laws::faced_runs();
//! ```
//!
//! The crate has no code that does anything, and takes no memory. A theorem on runs is proved below; here it is
//! taken from one slot to all of them, and nothing else.
#![tactic(auto)]

pub mod laws;
pub mod trace_size;
