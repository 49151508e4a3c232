//! The text on how an entry came about.
//!
//! [`why_lines`] makes the lines of `ttplab why` for what a node did in the newest slot of a run: its story, the lines
//! of the script that the story names, and what they bring about alone. The lines are those of `why_text`
//! (`specs/WhyText.antt` of causes):
//!
//! ```text
//! let lines = why_lines(alloc, list, script, &numbers, &causes, slot, node)?;
//! for line in lines.as_slice() { out.write(line.bytes())?; }
//! ```
//!
//! All of them are made before the first can be written, since the first lines follow from the whole story. It costs the story,
//! a run up to the slot for what its lines bring about alone, and one more for each fault line, where they suffice. The lines of a story
//! of n entries take n * n steps of a comparison. Memory is taken for the story and the text. Nothing is shared.
#![tactic(auto, using(ttp_world::proofs::Lists::nodes))]

mod lines;
mod named;
mod order;
mod told;

pub use lines::why_lines;
