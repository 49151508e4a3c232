//! The medium: the two channels of the bus in one slot.
//!
//! Nodes put their frames on a [`Medium`], and then each node asks what it hears on each channel, each by
//! what the script says of the node in the slot, which is looked up once. The passes of controller do so
//! in `plan_all`, `send_one`, `take_all` and `take_one`:
//!
//! ```text
//! medium.begin(slot);
//! medium.put(script, &seat.incidents, k, &frame, seat.controller.clock());
//! let a = medium.carried(Channel::A);
//! let b = medium.carried(Channel::B);
//! let a = received(there_a, &seat.incidents, Channel::A);
//! let b = received(there_b, &seat.incidents, Channel::B);
//! ```
//!
//! A medium stands for the frames that were put in the slot, in their order: whatever frames it stood
//! for, it stands after a `put` for these and one more. What [`received`] makes of what is carried on a
//! channel, and so [`Medium::heard`], is what `heard` of `ttp_world` says of them, with the clock of the
//! node that sent the bits, in microticks. So a frame that its sender's faults silence disturbs nobody,
//! and where something of two nodes remains on a channel, be it frames or noise, all hear noise there.
//! [`laws::header_stays`] says that a frame's header stays as it was sent; `proofs/Headers.antt` has it
//! for who cites it.
//!
//! Of each channel it keeps what is on it so far, silence, noise or one frame, in one buffer of 256
//! bytes; that is enough, since what meets something else on a channel is noise. The buffers lie in the
//! value, which a cluster makes once and seldom moves. A frame is copied once for each channel on which
//! it is the first, its flips are made there, and receivers borrow it, in as many threads as there are.
//!
//! The crate knows no frames but by their bytes, no schedule and no windows: what bits are to a receiver
//! is for the layers above. It takes no memory, and no call can fail.
#![tactic(auto)]

mod arrival;
mod channel_state;
mod flip;
pub mod laws;
mod medium;
mod outgoing;

pub use arrival::{Arrival, received};
pub use flip::{flip_bits, is_among};
pub use medium::Medium;
pub use outgoing::Outgoing;
