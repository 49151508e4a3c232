//! Frames as bytes: what a node sends in its slot, and what a receiver makes of what it hears.
//!
//! A TTP/C frame (SAE AS6003) begins with a header and ends with a check word of 24 bits. A frame
//! with explicit C-state carries the sender's controller state: its time, round and slot, and the
//! members that it sees. A frame with implicit C-state does not, and its word goes over that state
//! and then the frame:
//!
//! | header | the frame | its word goes over |
//! |---|---|---|
//! | 0, implicit | header, payload, word | C-state, header, payload |
//! | 1, explicit without payload | header, C-state, word | header, C-state |
//! | 2, explicit with payload | header, C-state, payload, word | header, C-state, payload |
//! | 3, cold start | header, C-state, word | header, C-state |
//!
//! A C-state has six bytes, or seven where it is wide, as in lists of version 2.
//!
//! [`encode`] makes the bytes of a frame. [`judge`] tells whether bytes are the frame that a receiver
//! expects from its own C-state, and [`read_explicit`] gives the C-state on which a listening node
//! joins; [`is_joinable_state`] is the part of that which looks at the C-state alone. Each is exactly
//! what `ttp_world`'s definitions say. controller makes a frame in `outgoing`, and judges one in
//! `judge_anew`:
//!
//! ```text
//! let found = judge(
//!     self.bytes,
//!     list.schedule,
//!     &form_of(list, place),
//!     &cstate,
//! );
//! ```
//!
//! By [`laws::members_told`] bytes tell their sender's members also where they carry no C-state,
//! since the word goes over it; by [`laws::flipped`] flipped bits are judged alike whatever the
//! payload is.
//!
//! The word itself is [`check_word`]'s, which knows nothing of frames.
//!
//! A call costs one check word over the bytes and the C-state, [`read_explicit`] two at most. The
//! crate keeps no state, shares nothing between threads, takes no memory and copies no payload but
//! into a sender's buffer, and none of its calls can fail. It knows no slots, channels or windows:
//! when a frame is looked at is for the layers above.
#![tactic(auto)]

pub mod check_word;
mod frame;
mod joining;
mod judging;
pub mod laws;
mod pieces;

pub use frame::{FrameIn, encode};
pub use joining::{is_joinable_state, read_explicit};
pub use judging::{Expect, FrameMatch, judge};
