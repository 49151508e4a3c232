//! The frames on the bus: for each slot and each of the two channels of a run the frames that nodes put
//! there, byte by byte, behind the faults of the script.
//!
//! A TTP/C frame (SAE AS6003) is at most 250 bytes with a check word over the sender's C-state and the
//! schedule's number. Whoever builds a controller, a bus analyser or a gateway compares with the lines of
//! [`put_frames`], each of which is a reference frame: its sender, what a receiver with the sender's C-state
//! makes of it, the sender's clock and C-state, and the bytes.
//!
//! Of a trace it says which host's message each frame carried; everything else follows from list and script.
//! The text is a function of these (`frame_lines` of `specs/FrameText.antt`), whose words are those of
//! ttp_world and ttp_frame: `channel_signal`, `flip_bits`, `match_of`. It is written for a text that `verify`
//! of trace_check took, with the statuses of a command:
//!
//! ```text
//! match put_frames(alloc, list, script, text, out) {
//!     Ok(()) => 0,
//!     Err(FrameFault::Failed) => 6,
//!     Err(FrameFault::Memory) => 7,
//! }
//! ```
//!
//! A plant goes through the run ([`trace_run`]) and shows what each slot carried on either channel; a node that
//! has sent shows in its status with which C-state. A slot costs its nodes, as it does a plant; each line with
//! bytes costs one check word, to judge them, and each line is one write. All memory is taken before the first
//! line, and none for a slot. Threads share nothing here.
#![tactic(auto)]

mod line;
mod put;
mod sending;
mod state;
mod worked_cases;

pub use put::{FrameFault, put_frames};
pub use sending::Sending;
