//! A script as a text.
//!
//! [`put_script`] writes the lines of `specs/ScriptLines.antt`: the slots of the run, when nodes are switched on, how clocks
//! drift, and the events in their order. They are a script file as script_text reads one; that they are read as the script
//! they were made of is a law of script_laws. `show_script` of lab_top writes a generated script:
//!
//! ```text
//! let Ok(script) = generate(alloc, list, slots, number) else {
//!     return 7;
//! };
//! put_script(&script, out)
//! ```
//!
//! Each line is formed in a fixed buffer and written as one piece, so no memory is taken. Threads share nothing of it. It asks
//! nothing of a script, and knows no list.
#![tactic(auto)]

mod event_line;
mod put;
mod worked_cases;

pub use put::put_script;
