//! The ground that the other crates stand on: growing lists, sets of nodes, lines of text, want of
//! memory, and the outside as three traits.
//!
//! A [`List`] stands for a list of items, a [`NodeSet`] for a set of node numbers, and a [`Line`] for
//! a list of at most 640 bytes. A [`Library`] gives the bytes held under a name, a [`Sink`] takes
//! bytes, and a [`Gate`] is passed at each step of a ring. A library and a sink count their own
//! faults, so that a caller's contract can say that it never makes up a fault: an answer `Failed`
//! comes only where the count rose, and no count falls.
//!
//! `head_line` of medl_text forms a line, and `put_schedule` there writes it:
//!
//! ```text
//! let mut line = Line::new();
//! line.put_text("ttpbench schedule ");
//! line.put_hex(u64::from(list.schedule), 6);
//! out.write(head_line(list).bytes())?;
//! ```
//!
//! That a text fits into a line is asked by its length; `proofs/Room.antt` has the lemmas on how much
//! room a text takes, as a rule set that callers name: `using(ttp_base::proofs::Room::room)`.
//!
//! Lists, sets and lines are plain values, which may go to another thread; threads share nothing of
//! this crate but a gate, by reference. Memory is taken by [`List::push`], by [`Library::load`], and
//! by the library and the sink that lie in memory as they are filled or made; forming a line takes
//! none. A set costs a few steps on one word, whatever its members.
//!
//! The crate knows nothing of TTP/C. It never ends the process, starts no thread and waits for none.
#![tactic(auto)]

mod asked;
mod calls;
mod fault;
mod gate;
mod growing_text;
mod library;
mod list;
mod members;
mod memory_library;
mod memory_sink;
mod node_set;
mod pieces;
mod sheet;
mod sink;
mod source;
mod streams;
mod system;
mod target;
mod text;

pub use fault::{Failed, Memory};
pub use gate::{Gate, OpenGate};
pub use growing_text::GrowingText;
pub use library::{Library, LoadError};
pub use list::List;
pub use members::members_of;
pub use memory_library::MemoryLibrary;
pub use memory_sink::MemorySink;
pub use node_set::NodeSet;
pub use sheet::Sheet;
pub use sink::Sink;
pub use system::{FileLibrary, StreamSink, front_of};
pub use text::{Line, Text};
