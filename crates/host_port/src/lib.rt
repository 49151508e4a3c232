//! The host interface of a node: a port of rings between its controller and its host.
//!
//! A [`Port`] has the rings, which threads share by reference: a status ring, a ring for each other node
//! with payload, and an outgoing ring where the node itself has payload. Its [`ControllerEnd`] alone
//! writes what the host reads, and its [`HostEnd`] alone what the host sends. To read, a [`Fetcher`] is
//! lent by the host's end and [`HostReaders`] by the controller's; they may go to other threads, and come
//! back to be settled, which hands out what they got as [`Pair`]s.
//!
//! An end stands for the messages of its rings and for what was settled in them, in the words of
//! `nbw_ring`: the writer of each ring at the place of its source, where place 0 is the status and place
//! k + 1 node k. Each call does to the one ring that its arguments name what that ring's call does, and
//! leaves every other ring as it was. An end holds its rings, so that its own calls ask nothing of whose
//! it is; what comes back to be settled is of its rings. The calls of a [`Port`] are the same ones, with
//! the condition that the end, the fetcher and the readers are those of its rings.
//!
//! A controller's turn in a slot is [`ControllerEnd::deliver`] and [`ControllerEnd::publish`], and its
//! host's is [`HostReaders::read`] for each read line, one beside the other. cluster_run makes these
//! calls in `hand_on`, `lend_one`, `read_one` and `settle_one`:
//!
//! ```text
//! desk.end.publish(&outcome.status, gate);
//! return Ok(Some(end.lend_reads(reads, node)?));
//! readers.read(rt, read.source, gate);
//! let lines = end.settle_reads(host, readers)?.into_vec();
//! ```
//!
//! The types of a slot's report stand here too. A payload goes into words by `words_of_payload` and by
//! nothing else, and a pair that a line shows was made by settling. [`Port::new`], lending and settling
//! alone take memory. The crate starts no thread, takes no lock, and waits in [`HostReaders::read`]
//! alone, where a list has one buffer. It doesn't know which slot it is, nor what a status says.
#![tactic(auto)]

mod ends;
mod fetching;
mod port;
mod reading;
mod report;
mod settling;
mod source;
mod words;
mod writing;

pub use ends::{ControllerEnd, HostEnd};
pub use fetching::Fetcher;
pub use nbw_ring::{Pair, Try};
pub use port::Port;
pub use reading::HostReaders;
pub use report::{NodeLine, ReadLine, SlotReport, WriteLine};
