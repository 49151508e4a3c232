//! How an entry of a run came about.
//!
//! [`cause`] says of the entry of a node in a slot what decided it, and which lines of the script and which entries had a part
//! in it, as the definitions of the crate causes say, over the rows of a run ([`run_rows::RunRows`]):
//!
//! ```text
//! let run = RunRows::new(alloc, list, script, slot + 1)?;
//! let cause = cause(alloc, &run, slot, node)?;
//! ```
//!
//! Each definition has a function: run_looks goes back in time and looks for lines of the script, `senders` says who sends and
//! what silences a channel, `places` where nodes stand, `frames` makes the frames of a slot once more, `flips` turns their
//! bits, and `bus` says what is heard of them, `view` how it is seen, `said` what nodes said of others and where they come from. `listening`, `clocks`, `members`,
//! `missed`, `judged` and `own` have the causes themselves, and `by_entry` takes the one of an entry.
//!
//! It costs what it reads of the run: mostly the slots of a round, at most all slots before; and for each line that is looked
//! for the events of the script.
#![tactic(auto, using(ttp_world::proofs::Lists::nodes))]

mod bus;
mod by_entry;
mod clocks;
mod flips;
mod frames;
mod judged;
mod listening;
mod members;
mod missed;
mod own;
mod places;
mod said;
mod senders;
mod view;

pub use by_entry::cause;
pub use run_looks::newest_departure;
pub use said::root;
