//! What a node knows, what it does in a slot, and what is shown of it.

use crate::script::Payload;
use ttp_base::NodeSet;

/// The controller state (C-state, SAE AS6003) that explicit frames carry and over which each check
/// word is computed.
#[derive(Clone, Copy, PartialEq, Eq)]
pub struct CState {
    /// Slots since the cold start, modulo 65536.
    pub time: u16,
    /// The round of the cluster cycle.
    pub round: u8,
    /// The slot of the round.
    pub slot: u8,
    /// The nodes that the sender holds for members.
    pub members: NodeSet,
}

/// How a receiver sees what came on one channel in a slot.
#[derive(Clone, Copy, PartialEq, Eq)]
pub enum ChannelView {
    /// Nothing came.
    Silent,
    /// What came is no frame of the kind and length that the list gives, or came outside the window.
    Bad,
    /// A frame that agrees with none of the receiver's candidates for the C-state.
    Other,
    /// A frame that agrees with the first candidate.
    First,
    /// A frame that agrees with the second candidate.
    Second,
}

/// What a receiver makes of a slot.
#[derive(Clone, Copy, PartialEq, Eq)]
pub enum Verdict {
    /// Silence on both channels.
    Null,
    /// Nothing but silence and what is no frame.
    Invalid,
    /// A frame of another C-state.
    Incorrect,
    /// A frame of the receiver's C-state, in which its own last frame was received.
    Correct,
    /// The first successor's frame, which says that the receiver's own last frame was not received.
    Tentative,
    /// The second successor's frame, which says so too.
    Denied,
}

/// What an active node knows of its own newest frame.
#[derive(Clone, Copy, PartialEq, Eq)]
pub enum Ack {
    /// It was received, or it was not its own frame that made the node active.
    Closed,
    /// No successor has answered yet.
    First,
    /// This successor has not received it, by the successor's own frame.
    Doubt(u8),
}

/// Why an active node left.
#[derive(Clone, Copy, PartialEq, Eq)]
pub enum Reason {
    /// Two successors have not received its newest frame.
    Denied,
    /// No successor has received its newest frame by its next slot.
    Unacknowledged,
    /// It accepted no more frames than it rejected since its newest own slot.
    Clique,
}

/// What a node is after a slot.
#[derive(Clone, Copy, PartialEq, Eq)]
pub enum Phase {
    /// It is not switched on yet.
    Off,
    /// It is on, and waits for a frame to join on, or for its time to start.
    Listening,
    /// It started or joined, and sends in its own slots.
    Active,
    /// It was active, and has left.
    Left,
}

/// What a node does in a slot, by its past alone.
#[derive(Clone, Copy, PartialEq, Eq)]
pub enum Act {
    /// It is off.
    Off,
    /// It has left, and does not listen again in this slot.
    Gone,
    /// It listens.
    Listen,
    /// It sends a cold-start frame.
    Start,
    /// It withdraws its cold start, and listens from the next slot on.
    Retry,
    /// It leaves in its own slot.
    Leave(Reason),
    /// It sends its frame.
    Send,
    /// It judges the slot of another node.
    Judge,
}

/// What a node did in a slot.
#[derive(Clone, Copy, PartialEq, Eq)]
pub enum Entry {
    /// It was off.
    Off,
    /// It listened and did not join.
    Waited,
    /// It withdrew its cold start, and will listen again.
    Retried,
    /// It had left before, and does not listen again yet.
    Gone,
    /// It sent a cold-start frame.
    Started,
    /// It sent its frame, with the payload of the message of this number in its outgoing ring.
    Sent {
        message: Option<u64>,
    },
    /// It joined on the frame of this sender, which carried this C-state and came so many microticks
    /// late.
    Joined {
        sender: u8,
        cstate: CState,
        deviation: i64,
    },
    /// It judged the slot of this sender, whose frame came so many microticks late, 0 where none
    /// came.
    Judged {
        sender: u8,
        verdict: Verdict,
        deviation: i64,
    },
    /// It left in this slot. The peer is the sender that denied it, and else the node itself.
    Left {
        reason: Reason,
        peer: u8,
    },
}

/// What is shown of a node after a slot. In every phase but Active it shows no members, both counts
/// 0 and a closed acknowledgement.
#[derive(Clone, Copy, PartialEq, Eq)]
pub struct NodeState {
    pub phase: Phase,
    /// What it did in the newest slot.
    pub entry: Entry,
    /// The nodes that it holds for members.
    pub members: NodeSet,
    /// One more than the frames that it accepted since its newest own slot or its join.
    pub accepted: u8,
    /// The frames that it rejected since then.
    pub rejected: u8,
    /// What it knows of its own newest frame.
    pub ack: Ack,
    /// How far its clock is ahead, in microticks.
    pub offset: i64,
}

/// The message that a node is to send in a slot, if it sends one with payload.
#[derive(Drop)]
pub struct Chosen {
    /// Its number in the node's outgoing ring.
    pub number: u64,
    /// As many bytes as the list gives the node.
    pub payload: Payload,
}

/// What a receiver hands to its host.
#[derive(Drop)]
pub struct Delivered {
    /// The node whose frame carried it.
    pub sender: u8,
    pub payload: Payload,
}

/// The status message of a node for one slot: the slot's number; the flags; the C-state of the slot
/// with the members after it, as a number of 48 bits, or of 56 for a list of version 2, or 0 where
/// the node is not active; and `256 * accepted + rejected`.
#[derive(Clone, Copy, PartialEq, Eq)]
pub struct StatusWords {
    pub words: [u64; 4],
}
