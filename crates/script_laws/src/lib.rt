//! The text of a script is read as this script.
//!
//! The crate has no code that runs. The function of [`laws`] does nothing, and its contract is the law, over script_lines, which
//! writes a script, and script_text, which reads one. `proofs/Words.antt` and `proofs/Lines.antt` cut the text into its lines and
//! words, `proofs/Numbers.antt` reads numbers, `proofs/Statements.antt` has the line of each event, and `proofs/Scripts.antt` goes
//! from line to line.
//!
//! ```text
//! script_laws::laws::read_back();
//! ```
//!
//! It knows no command, and nothing waits for it.
#![tactic(auto)]

pub mod laws;
