//! The ring of the host interface: one writer puts messages, and readers take the newest one without
//! ever making the writer wait. It is the non-blocking write protocol (Kopetz and Reisinger 1993) with
//! several buffers.
//!
//! A ring stands for a list of messages, which its [`Writer`] adds to. A [`Reader`] is lent by the
//! writer, may go to another thread, and reads while the writer writes. Where the writer overtakes it,
//! it notices that and answers [`Try::Overrun`]. When it has come back, it is settled, and the pairs
//! that it got are handed out as [`Pair`]s: each is the writer's message of its number, whole, however
//! the steps of the threads fell between one another.
//!
//! Every step is one sequentially consistent step on one atomic word, and directly before it a
//! [`ttp_base::Gate`] is passed with the number of the step. `docs/RING.md` has the steps, and what
//! holds between any two of them. The words of a ring are all that threads share.
//!
//! A writer and a reader hold their ring, so that whose they are is known by themselves: their own calls
//! ask nothing of it. The calls of a [`Ring`] are the same ones, for who has the ring at hand. host_port
//! makes them so, in `write_words`, `lend_fetch`, `fetch` and `settle_fetch`:
//!
//! ```text
//! writer.write(words, gate);
//! let reader = writer.lend(1)?;
//! self.reader.try_read(gate)
//! writer.settle_one(reader)
//! ```
//!
//! A write and an attempt to read cost a step for each word of a message, and two more. The steps are
//! counted in what a writer and a reader stand for, but for loads that need no seat at the words, or
//! make one, as lending does. Memory is taken by [`Ring::new`], by lending, for as many messages as are
//! asked for, and by [`Writer::settle`].
//!
//! The crate never takes a lock, and only [`Reader::read`] may wait: it repeats attempts, as
//! [`Ring::read`] does, which is the same call. The crate doesn't say that a reader which repeats
//! attempts ever gets a message.
#![tactic(auto)]

mod plays;
mod reader;
mod receipts;
mod ring;
mod shared;
mod steps;
mod view;
mod writer;

pub use reader::{Reader, Try};
pub use receipts::{Pair, Receipts};
pub use ring::Ring;
pub use writer::Writer;
