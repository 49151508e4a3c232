//! The frames that an active node accepted and rejected.
ghost use Rattle.std.specs.Prelude.{◌≡◌, ◌<◌, ◌↔◌, IsTrue};
ghost use Rattle.node_parts.specs.FrameCounts.{FrameCounts, no_frame_counts, first_counts, counted_if, moved_counts};

use crate::acknowledgement::AckMove;
use std::marker::Model;

/// The frames that an active node accepted and rejected since its newest own slot or its join.
///
/// Contracts see it as two numbers, `accepted`, which begins with one for the node's own frame, and
/// `rejected`. A copy counts by itself.
#[derive(Clone, Copy)]
pub struct Clique {
    accepted: u8,
    rejected: u8,
}

impl Model for Clique {
    ghost use Rattle.node_parts.specs.FrameCounts.{FrameCounts};

    ghost Value = { FrameCounts };

    ghost view = { λ c. record { accepted = c.accepted; rejected = c.rejected } };

    ghost inverse = { λ counts. record { accepted = counts.accepted; rejected = counts.rejected } };
}

// One more, where a frame is to be counted.
fn counted_if(count: u8, more: bool) -> u8
    requires { count < 255 }
    ensures { result ≡ counted_if more count }
{
    u8::from(more) + count
}

impl Clique {
    /// The counts with which a node sends, starts or joins: one accepted, none rejected.
    pub fn fresh() -> Clique
        ensures { result ≡ first_counts }
    {
        Clique {
            accepted: 1,
            rejected: 0,
        }
    }

    /// The counts of a node that is not active.
    pub fn none() -> Clique
        ensures { result ≡ no_frame_counts }
    {
        Clique {
            accepted: 0,
            rejected: 0,
        }
    }

    /// Counts what a move asks for. `Leave` changes nothing.
    pub fn count(&mut self, step: AckMove)
        requires accepted { self.old.accepted < 255 }
        requires rejected { self.old.rejected < 255 }
        ensures { self.new ≡ moved_counts step self.old }
    {
        let (accepts, rejects) = match step {
            AckMove::Accept => (true, false),
            AckMove::Reject { counted } => (false, counted),
            AckMove::Resolve { .. } => (true, true),
            AckMove::Hold | AckMove::Leave => (false, false),
        };
        self.accepted = counted_if(self.accepted, accepts);
        self.rejected = counted_if(self.rejected, rejects);
    }

    /// How many frames were accepted, the node's own among them.
    pub fn accepted(&self) -> u8
        ensures { result ≡ self.now.accepted }
    {
        self.accepted
    }

    /// How many frames were rejected.
    pub fn rejected(&self) -> u8
        ensures { result ≡ self.now.rejected }
    {
        self.rejected
    }

    /// Whether the node may send: it accepted more frames than it rejected, and so is in the larger
    /// clique. A tie does not send.
    pub fn may_send(&self) -> bool
        ensures { IsTrue result ↔ (self.now.rejected < self.now.accepted) }
    {
        self.accepted > self.rejected
    }
}
