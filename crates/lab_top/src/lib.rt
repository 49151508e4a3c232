//! The one call of `ttplab`: words in, bytes and a status out.
//!
//! [`lab`] takes the words of a command, a library that its files come from, and a sink that its output goes to. Its contract is
//! the program's promise: the status and the bytes are a stated function of the words and of what the library tells, and the
//! outside is blamed only where it is at fault. The main function of ttplab calls it:
//!
//! ```text
//! let mut sink = StreamSink::new(WatchedOutput::new(&rt, buffered, is_watched));
//! let status = lab(&rt, rt.alloc(), &words, &mut library, &mut sink);
//! ```
//!
//! A contract sees the call as the plan of its form (`specs/Forms.antt`), which commands carries out, and each form has a promise
//! in its own words: the views of `specs/Views.antt` in `ViewPromise`, a campaign in `CampaignPromise`, of which `LinesPromise` holds
//! of each form that writes lines of a list and a script, margins in `MarginPromise`, pairs in `PairPromise`, frames in `FramesPromise`.
//!
//! A view takes a text for a trace or a campaign by its form, and does not ask whether it is right. The crates below run campaigns,
//! and say whether a text is the trace of a run; this one knows nothing of what a node does. It never opens a file and never prints:
//! the library and the sink do. The threads of campaigns, margins and pairs are its only ones, and are gone when the call returns.
//! Beside a text of at most 134,217,728 bytes it holds what the form needs, which doesn't grow with the text.
#![tactic(auto)]

mod both;
mod call;
mod chart;
mod check;
mod faults;
mod frames;
mod generated;
mod help;
mod margins;
mod pairs;
mod picture;
mod refusal;
mod wave;
mod why;
mod words;

pub use call::lab;
