//! What the lines of a text of frames say: laws of the text's definition (`frame_lines` of bus_frames), for
//! whoever reads it.
//!
//! The crate has no code that runs. The functions of [`laws`] do nothing, and their contracts are the laws,
//! over the slot of a row after the history before it. The lines of a channel tell what is on it
//! ([`laws::channels`]). A node has a line exactly where it sends and the script does not silence it, with
//! the C-state that it holds after the slot ([`laws::nodes`]). A frame of which no bit is flipped is a match
//! ([`laws::unflipped`]). A line with bytes is read back as what it says, and its parts are the bytes
//! ([`laws::way_back`]). Who cites them calls the functions:
//!
//! ```text
//! frame_laws::laws::channels();
//! frame_laws::laws::nodes();
//! frame_laws::laws::unflipped();
//! frame_laws::laws::way_back();
//! ```
#![tactic(auto)]

pub mod laws;
