//! The members that an active node holds, and the counts by which it knows that it is in the larger
//! clique.
//!
//! A [`Membership`] is a set of nodes, and a [`Clique`] counts the frames that the node accepted and
//! rejected since its newest own slot. Both are changed by the moves of `acknowledgement`. A node of
//! controller enters a judged slot so, in `judge`, and before its own slot asks
//! `self.counts.may_send()`, in `own_act`:
//!
//! ```text
//! let mut members = Membership::of(self.cstate.members);
//! members.apply(asked, sender);
//! self.cstate = clock.cstate(members.set());
//! self.counts.count(asked);
//! ```
//!
//! What a move makes of them is said in the words of `acknowledgement`, which promises that a verdict's move
//! leads to the members and counts that `ttp_world` reads of a diary with the judged entry more.
//!
//! Membership is in the manner of Pfeifer (2000), and the clique rule with its counts is this bench's
//! own. Each call costs a few steps; copies go on by themselves. The module decides no move and sends
//! nothing: what a verdict asks for is `acknowledgement`'s to say, and leaving is the work of the layer
//! above. It takes no memory.

mod clique;
mod membership;

pub use clique::Clique;
pub use membership::Membership;
