//! A trace as a whole: whether a text is one, and what it says.
//!
//! [`read_whole`] tells whether each line of a text is the one that is due behind the lines before it, and else which is the
//! first that is not: the first line, for each slot the line of each node and those of hosts, and the lines of the tests. It
//! gives a [`Whole`] that keeps the text and goes over it again, slot by slot. `first_sought` of picture_text does so:
//!
//! ```text
//! let mut left = slots;
//! let mut passed = 0;
//! while let Some(slot) = left.next_slot() {
//!     if is_sought(sought, &slot) {
//!         return Some(passed);
//!     }
//!     passed += 1;
//! }
//! None
//! ```
//!
//! A contract sees a trace as its `WholeTrace` and a walk as the slots that are left of it, both of `specs/Whole.antt`, where
//! `whole_in` says for every view what a trace is. A node's line that says nearly what the line before of the same node says is
//! read by the words that differ (`specs/Alike.antt`), any other word by word.
//!
//! It takes no memory, and what it gives borrows the text and is never shared between threads. It asks of a trace its form
//! alone: whether it is that of a list and a script, it does not know.
#![tactic(auto)]

mod alike;
mod due;
mod place;
mod shown;
mod slots;
mod text;
mod whole;
mod word;

pub use due::{is_back, is_keep};
pub use shown::{Head, HostLine, NodeShown};
pub use slots::{Hosts, SlotShown, Slots};
pub use text::{put_behind, put_head, put_members, put_told};
pub use whole::{Whole, read_whole};
pub use word::word_text;
