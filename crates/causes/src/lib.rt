//! How an entry of a run came about: definitions.
//!
//! A trace shows that a node left. Which lines of the script brought it about, and which entries of which nodes in
//! between, follows from the rules of the protocol. Of each entry a [`Cause`] says what decided it and what had a part in it: lines
//! of the script, and entries before it. `specs/Causes.antt` has one function for each word of an entry, and the files that it
//! names have the rules: what silences, makes noise or flips bits (`LinesOf`), what nodes said of others and where
//! they come from (`Said`), how a node comes to listen, join and start (`Listening`), why a frame came outside the
//! window (`Clocks`), with other members (`Members`), or not at all (`Missed`), what answers a node's own frame (`Judged`), and
//! what it does in its own slots (`OwnSlots`).
//!
//! A story is what is reached from an entry by causes, in the order in which it happened, less what leads back to no
//! line (`Story`). What its lines bring about alone is asked of the run of a script without the others (`Reduced`): it is
//! a fault tree whose basic events are lines of a script, and where the entry has the same word in that run and another
//! one without any one of them, they are a minimal cut set. `WhyText` is the text:
//!
//! ```text
//! slot 24 node 2 denied peer 4 lines - entries 22:4,23:2 because node 4 holds node 3 and not node 2
//! ```
//!
//! A run is that of `zeros_world` (campaign), one for all legal message numbers. The crate has no code but for the types
//! of a cause and a story, and promises nothing; cause_rows has its worked cases.
#![tactic(auto)]

mod cause;

pub use cause::{Because, Cause, ClockNote, LineNumbers, Miss, ScriptLine, Spot, Story, Told};
