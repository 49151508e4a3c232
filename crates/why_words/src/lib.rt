//! The text of causes.
//!
//! A cause is a value: what decided an entry, and numbers. This crate says it in the words of `ttplab why`, as the definitions of
//! `specs/WhyText.antt` of causes have them:
//!
//! ```text
//! put_because(alloc, &mut text, list, numbers, &cause.because)?;
//! ```
//!
//! It adds to a growing text, knows no cluster, and takes no memory but for texts. A word costs its bytes.
#![tactic(auto, using(std::proofs::Common::append_assoc))]

mod because;
mod entries;
mod lines;
mod lists;
mod miss;

pub use because::put_because;
pub use entries::{put_alone, put_entry_head, put_named_line, put_root, put_why_head};
pub use lines::put_event;
pub use lists::number_of;
pub use miss::put_miss;
