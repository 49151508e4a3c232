//! Whether a text is the trace of a cluster's run.
//!
//! Which message a frame carries and which one a host reads is a choice that a run makes, and each choice
//! of legal numbers gives another trace. [`verify`] says whether a text is one of them (`is_trace`), and
//! otherwise names the first line that no legal numbers give after the lines before it (`IsFirstWrong`,
//! both of `specs/Answer.antt`); [`differs_line`] is the line that says so. `show_outcome` of ttp_top answers so, where no modes are wanted:
//!
//! ```text
//! match outcome_of(alloc, list, script, text) {
//!     Ok(Outcome::Same) => say(out, b"same\n", 0),
//!     Ok(Outcome::Differs { line }) => say(out, differs_line(line).bytes(), 1),
//!     Err(_) => 7,
//! }
//! ```
//!
//! It goes over the text once, slot by slot. A number is read from the text only where there is a choice:
//! in the line of a node whose host wrote in the slot. A plant goes through the slot with the messages of
//! these numbers, and each line that is due is looked for at the front of what is left of the text, by the
//! calls of line_text. Of a ring that a host reads, one message or two are legal, and both lines are looked
//! for; a floor for each ring keeps which reads of the slot got the newer one (`src/incoming.rt`).
//!
//! The first line that differs is the first that no legal numbers give, since what a node shows in a slot
//! depends on the numbers of that slot by the message of its own frame alone (`proofs/NodesAlike.antt`,
//! from frame_fates), the lines of whole slots tell the numbers that they have (`proofs/Told.antt`), and
//! legal numbers can always be continued.
//!
//! A slot costs its nodes, as it does a plant, and its lines. All memory is taken before the first line is
//! read, and it doesn't grow with the text: no line is kept, and of a slot no number but floors, counts and
//! newest messages. Threads share nothing here. The crate reads no files.
#![tactic(auto)]

mod answer;
mod difference;
mod follow;
mod hosts;
mod incoming;
mod last_lines;
mod nodes;
mod outgoing;
mod text;

pub use answer::{Outcome, verify};
pub use difference::differs_line;
pub use outgoing::Outgoing;
