//! The lines of a trace as values.
use ttp_base::NodeSet;
use ttp_world::{Ack, Back, Keep, Payload, Source};

/// What a node did in a slot, as the word of its line: the verdict, where it judged another's slot,
/// and the reason, where it left. `docs/TRACES.md` has the words.
#[derive(Clone, Copy)]
pub enum Word {
    Off,
    Wait,
    Retry,
    Gone,
    Start,
    Join,
    Send,
    Correct,
    Tentative,
    Incorrect,
    Invalid,
    Null,
    Denied,
    Unacknowledged,
    Clique,
}

/// What a line of a trace says.
#[derive(Drop)]
pub enum TraceLine {
    /// The first line.
    Header {
        version: u8,
        nodes: u8,
        rounds: u8,
        slots: u32,
        schedule: u32,
    },
    /// A node after a slot.
    Node {
        slot: u32,
        node: u8,
        word: Word,
        /// The node of which the word speaks, if it speaks of one.
        peer: Option<u8>,
        /// The number of the message that its frame carried or that it delivered, if there is one.
        message: Option<u64>,
        /// Whether the members stand in six digits; otherwise they stand in four.
        wide: bool,
        members: NodeSet,
        accepted: u8,
        rejected: u8,
        ack: Ack,
        /// In microticks.
        offset: i64,
    },
    /// A message that a host wrote.
    Write {
        slot: u32,
        host: u8,
        number: u64,
    },
    /// A message that a host read. That of a status has 32 bytes, eight for each of its words, the
    /// most significant first.
    Read {
        slot: u32,
        host: u8,
        source: Source,
        number: u64,
        payload: Payload,
    },
    /// The answer of the hypothesis test.
    Keep(Keep),
    /// Whether each armed node is guaranteed its place.
    Back(Back),
}

/// What the line of a node says: the same as [`TraceLine::Node`], in a small value.
#[derive(Clone, Copy)]
pub struct NodeLine {
    pub slot: u32,
    pub node: u8,
    pub word: Word,
    pub peer: Option<u8>,
    pub message: Option<u64>,
    pub wide: bool,
    pub members: NodeSet,
    pub accepted: u8,
    pub rejected: u8,
    pub ack: Ack,
    pub offset: i64,
}
