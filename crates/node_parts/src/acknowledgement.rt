//! The acknowledgement of a node's own newest frame, read from the frames of its successors.
//!
//! An active node looks for the first frame after its own that tells whether that one was received. An
//! [`AckState`] is what it knows so far: nothing is open, nobody has answered yet, or one successor has not
//! received the frame and a second one is to decide. [`AckState::candidates`] gives the memberships that
//! the next frame may carry, and [`AckState::step`] takes the verdict on it. A node of controller does so
//! in `send` and `judge`:
//!
//! ```text
//! self.ack.after_send();
//! let asked = self.ack.step(sender, verdict);
//! members.apply(asked, sender);
//! self.counts.count(asked);
//! ```
//!
//! After a frame of its own a node that judges node 4 Tentative and then node 5 Correct is asked to hold,
//! and then to take node 4 out of its members. What a verdict makes of a state is `ack_answered` of
//! `ttp_world`, by which one more entry changes the acknowledgement that is read of a diary. An [`AckMove`]
//! is what the verdict asks of the node's members and counts; `specs/Moves.antt` says what each means, and
//! `members` does it.
//!
//! Membership is in the manner of Pfeifer (2000); that two successors acknowledge, and how, is this bench's
//! own choice. A state is a few bytes, and a copy goes on by itself. The module sends and hears nothing,
//! holds no members and counts no frames. It takes no memory, and answers at all states and verdicts, in a
//! few steps.

mod moves;
mod state;

pub use moves::AckMove;
pub use state::AckState;
