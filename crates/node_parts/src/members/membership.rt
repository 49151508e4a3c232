//! The nodes that an active node holds for members.
ghost use Rattle.std.specs.Prelude.{◌≡◌, ◌<◌};
ghost use Rattle.ttp_base.specs.NodeSet.{most_nodes, with_node};
ghost use Rattle.node_parts.specs.Moves.{IsNodeMove, moved_members};

use crate::acknowledgement::AckMove;
use std::marker::Model;
use ttp_base::NodeSet;

/// The nodes that an active node holds for members.
///
/// Contracts see it as the list of the members in ascending order. A copy is a set of its own.
#[derive(Clone, Copy)]
pub struct Membership {
    members: NodeSet,
}

impl Model for Membership {
    ghost use Rattle.std.specs.Prelude.{List, ℕ};

    ghost Value = { List ℕ };

    ghost view = { λ m. m.members };

    ghost inverse = { λ members. record { members = members } };
}

// The members after a move on the slot of this sender.
fn moved(members: NodeSet, step: AckMove, sender: u8) -> NodeSet
    requires sender { sender < most_nodes }
    requires other { IsNodeMove step }
    ensures { result ≡ moved_members step members sender }
{
    match step {
        AckMove::Accept | AckMove::Hold => members.with(sender),
        AckMove::Reject { .. } => members.without(sender),
        AckMove::Resolve { other } => members.with(sender).without(other),
        AckMove::Leave => members,
    }
}

impl Membership {
    /// A membership of these nodes: those of the C-state that a node adopts, or a starting node alone.
    pub fn of(members: NodeSet) -> Membership
        ensures { result ≡ members }
    {
        Membership { members }
    }

    /// What a move asks for on the slot of this sender: the sender is put in or out, and then the
    /// other node of the move is taken out. `Leave` changes nothing.
    pub fn apply(&mut self, step: AckMove, sender: u8)
        requires sender { sender < most_nodes }
        requires other { IsNodeMove step }
        ensures { self.new ≡ moved_members step self.old sender }
    {
        self.members = moved(self.members, step, sender);
    }

    /// Puts a node in: the node itself, where it sends.
    pub fn add(&mut self, node: u8)
        requires { node < most_nodes }
        ensures { self.new ≡ with_node self.old node }
    {
        self.members = self.members.with(node);
    }

    /// The members.
    pub fn set(&self) -> NodeSet
        ensures { result ≡ self.now }
    {
        self.members
    }
}
