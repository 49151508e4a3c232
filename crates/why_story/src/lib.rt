//! The story of an entry of a run.
//!
//! [`story`] collects what an entry leads back to by causes: in one pass back over the slots what is reached, in one
//! forth what leads back to a line of the script or to a clock past the window, and in one back what is kept. `specs/Story.antt`
//! of causes has the definition. What the cause of an entry is it asks of a [`Causes`], which knows a run:
//!
//! ```text
//! let story = story(alloc, &causes, script, list.nodes(), slot + 1, node)?;
//! ```
//!
//! A pass takes a step for each slot and node, and a cause is made once for each entry that is reached. Memory is taken for
//! a mark of 4 bytes for each slot, and for what is told. The crate knows no cluster and no text, and shares nothing.
#![tactic(auto)]

mod causes_of;
mod keep;
pub mod laws;
mod lead;
mod marks;
mod reach;
mod root;
mod whole;

pub use causes_of::Causes;
pub use root::states_fault;
pub use whole::story;
