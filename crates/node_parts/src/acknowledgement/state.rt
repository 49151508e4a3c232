//! What a node knows of its own newest frame.
ghost use Rattle.std.specs.Prelude.{◌≡◌, ◌<◌, ◌↔◌, IsNone};
ghost use Rattle.ttp_base.specs.NodeSet.{most_nodes};
ghost use Rattle.ttp_world.specs.Acknowledgement.{is_open};
ghost use Rattle.ttp_world.specs.After.{ack_answered};
ghost use Rattle.ttp_world.specs.Reception.{candidates};
ghost use Rattle.node_parts.specs.AboutNode.{IsAboutNode};
ghost use Rattle.node_parts.specs.Moves.{taken_verdict, move_of, IsMoveOf, IsNodeMove};

use crate::acknowledgement::moves::AckMove;
use std::marker::Model;
use ttp_base::NodeSet;
use ttp_world::{Ack, Verdict};

/// What a node knows of its own newest frame.
///
/// Contracts see it as an acknowledgement, whose doubt is about a node number below 24. A copy goes on
/// by itself.
#[derive(Clone, Copy, PartialEq, Eq)]
pub struct AckState {
    ack: Ack,
}

impl Model for AckState {
    ghost use Rattle.ttp_world.specs.declared.node.Ack.{Ack};
    ghost use Rattle.node_parts.specs.AboutNode.{IsAboutNode};

    ghost Value = { Ack };

    ghost view = { λ s. s.ack };

    ghost invariant = { λ s. IsAboutNode s.ack };

    ghost inverse = { λ a. record { ack = a } };
}

// The verdict that a state takes: one that it can't have is taken as Incorrect.
fn taken_verdict(ack: Ack, verdict: Verdict) -> Verdict
    ensures { result ≡ taken_verdict ack verdict }
{
    match (verdict, ack) {
        (Verdict::Tentative, Ack::First) | (Verdict::Denied, Ack::Doubt(_)) => verdict,
        (Verdict::Tentative | Verdict::Denied, _) => Verdict::Incorrect,
        _ => verdict,
    }
}

// The move of a verdict that a state can have.
fn move_of(ack: Ack, verdict: Verdict) -> AckMove
    ensures { result ≡ move_of ack verdict }
{
    match (verdict, ack) {
        (Verdict::Correct, Ack::Doubt(other)) => AckMove::Resolve { other },
        (Verdict::Correct, _) => AckMove::Accept,
        (Verdict::Tentative, _) => AckMove::Hold,
        (Verdict::Denied, _) => AckMove::Leave,
        (Verdict::Incorrect | Verdict::Invalid, _) => AckMove::Reject { counted: true },
        (Verdict::Null, _) => AckMove::Reject { counted: false },
    }
}

// The acknowledgement after a verdict on this sender's frame.
fn ack_answered(ack: Ack, verdict: Verdict, sender: u8) -> Ack
    ensures { result ≡ ack_answered ack verdict sender }
{
    match (ack, verdict) {
        (Ack::Closed, _) | (_, Verdict::Correct) => Ack::Closed,
        (_, Verdict::Tentative) => Ack::Doubt(sender),
        (open, _) => open,
    }
}

impl AckState {
    /// A closed acknowledgement: that of a node that is not active, and of one that has just joined.
    pub fn new() -> AckState
        ensures { result ≡ Ack.Closed }
    {
        AckState { ack: Ack::Closed }
    }

    /// The node has sent a frame, or its cold start.
    pub fn after_send(&mut self)
        ensures { self.new ≡ Ack.First }
    {
        self.ack = Ack::First;
    }

    /// The acknowledgement.
    pub fn value(&self) -> Ack
        ensures value { result ≡ self.now }
        ensures about_node { IsAboutNode result }
    {
        self.ack
    }

    /// Whether the node does not know yet that its newest frame was received.
    pub fn is_open(&self) -> bool
        ensures { result ≡ is_open self.now }
    {
        match self.ack {
            Ack::Closed => false,
            _ => true,
        }
    }

    /// The members that the frame of a sender may carry, where `members` are those of the node `own`:
    /// by the first its own newest frame was received, by the second it was not.
    pub fn candidates(&self, own: u8, members: NodeSet, sender: u8) -> (NodeSet, Option<NodeSet>)
        requires own { own < most_nodes }
        requires sender { sender < most_nodes }
        ensures first { result.0 ≡ (candidates self.now own members sender).first }
        ensures second { result.1 ≡ (candidates self.now own members sender).second }
        ensures none { IsNone result.1 ↔ (self.now ≡ Ack.Closed) }
    {
        let members = members.with(sender);
        match self.ack {
            Ack::Closed => (members, None),
            Ack::First => (members.with(own), Some(members.without(own))),
            Ack::Doubt(doubted) => (
                members.with(own).without(doubted),
                Some(members.without(own).with(doubted)),
            ),
        }
    }

    // Takes a verdict as `step` does. It stands apart, so that what is by far the most frequent is inlined.
    #[inline(never)]
    fn step_any(&mut self, sender: u8, verdict: Verdict) -> AckMove
        requires { sender < most_nodes }
        ensures value { self.new ≡ ack_answered self.old (taken_verdict self.old verdict) sender }
        ensures moves { result ≡ move_of self.old (taken_verdict self.old verdict) }
        ensures means { IsMoveOf result self.old (taken_verdict self.old verdict) sender }
        ensures other { IsNodeMove result }
        ensures left { (result ≡ AckMove.Leave) → self.new ≡ self.old }
    {
        let verdict = taken_verdict(self.ack, verdict);
        let asked = move_of(self.ack, verdict);
        self.ack = ack_answered(self.ack, verdict, sender);
        asked
    }

    /// Takes the verdict on the slot of this sender, and says what it asks of the members and counts.
    /// A verdict that the state can't have, Tentative outside First and Denied outside Doubt, is taken
    /// as Incorrect. After `Leave` the state is as before.
    #[inline]
    pub fn step(&mut self, sender: u8, verdict: Verdict) -> AckMove
        requires { sender < most_nodes }
        ensures value { self.new ≡ ack_answered self.old (taken_verdict self.old verdict) sender }
        ensures moves { result ≡ move_of self.old (taken_verdict self.old verdict) }
        ensures means { IsMoveOf result self.old (taken_verdict self.old verdict) sender }
        ensures other { IsNodeMove result }
        ensures left { (result ≡ AckMove.Leave) → self.new ≡ self.old }
    {
        match (self.ack, verdict) {
            (Ack::Closed, Verdict::Correct) => AckMove::Accept,
            _ => self.step_any(sender, verdict),
        }
    }
}
