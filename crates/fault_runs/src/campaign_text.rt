//! The text of a campaign, line by line.
//!
//! A `GrowingText` grows, and contracts see it as the list of its bytes; [`put_head`], [`put_own`], [`put_run`]
//! and [`put_counts`] add a line to it: the head, the line of the script as it is, the line of a fault, and
//! the counts. A line is formed from what the run cost, which the crate takes as it is told, in words that
//! [`put_cost`] forms by themselves, since two costs are the same where their words are; what the test of a
//! script says it asks of the crate hypothesis. `try_one` of fault_runs forms the line of a fault:
//!
//! ```text
//! let mut line = GrowingText::new(alloc);
//! let yes = put_run(&mut line, common.list, &more, fault, words.bytes())?;
//! let is_same = common.own == words.bytes();
//! ```
//!
//! A line has up to 1,024 bytes, more than the fixed buffer of a trace line, so it lies on the heap; once
//! the text has grown to its longest line no call takes memory. A text is a value that may go to another
//! thread. The line of a run costs what the test of its script does, and its bytes.
//!
//! It runs no cluster, and writes to no sink.
#![tactic(auto, using(std::proofs::Common::append_assoc))]

mod cost_words;
mod fault_words;
mod lines;

pub use cost_words::{put_cost, put_nodes};
pub use fault_words::put_fault;
pub use lines::{fault_node, put_counts, put_head, put_own, put_place, put_run, put_test};
