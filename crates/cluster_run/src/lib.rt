//! A cluster: the controllers of all nodes, and beside each its host, which exchange messages over the
//! rings of the node's port.
//!
//! A [`Cluster`] *stands for* message numbers: its controllers stand for the diaries of the world with
//! these numbers, each ring holds the world's messages of its node and source, and the pairs that are
//! settled in a ring are those that the numbers name for it. A new one stands for no numbers. A slot
//! takes it from whatever numbers it stood for to these and those in the slot's report, which shows the
//! world's slot for them; and where the older ones were legal, all are.
//!
//! In a slot hosts write beside their controllers' fetches, and the controllers end the slot, in two halves, beside
//! the reads of hosts. Two workers are hired for that: [`Cluster::run`] does all slots that are left, tells a
//! [`Watch`] of each, and hires for the slots from the first on in which a host does something; [`Cluster::slot`] is
//! for who steps a cluster by hand, and hires for one slot in which a host does something. What a worker has not
//! begun in time is done without it.
//!
//! Whatever the threads do, the contract of a slot is the same. It does not say that a slot ends: with one
//! buffer a host's read may wait.
//!
//! `put_run` of ttp_top takes a cluster through its slots, and writes what each report shows:
//!
//! ```text
//! cluster.run(rt, &mut writer, out, gate)
//! ```
//!
//! A slot costs its nodes and its hosts' lines, and one with reads takes memory for what they get, and to cut the
//! nodes in halves. A cluster is a plain value that may go to another thread; while a slot is under way its threads
//! share the rings alone.
#![tactic(auto)]

mod beside;
mod by_hand;
mod choosing;
mod cluster;
mod current;
mod ending;
mod fetching;
mod jobs;
pub mod laws;
mod making;
mod nodes;
mod progress;
mod reading;
mod reporting;
mod run;
mod sending;
mod slot;
mod staff;

pub use cluster::Cluster;
pub use run::Watch;
