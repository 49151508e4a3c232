//! What the lines of a trace say beside their places in it.
use line_reader::Word;
use ttp_base::NodeSet;
use ttp_world::{Ack, Payload, Source};

/// What the line of a node says beside its slot and its node.
#[derive(Clone, Copy)]
pub struct NodeShown {
    pub word: Word,
    /// The node of which the word speaks, if it speaks of one.
    pub peer: Option<u8>,
    /// The number of the message that its frame carried or that it delivered, if there is one.
    pub message: Option<u64>,
    pub members: NodeSet,
    pub accepted: u8,
    pub rejected: u8,
    pub ack: Ack,
    /// In microticks.
    pub offset: i64,
}

/// What the line of a host says beside its slot.
#[derive(Drop)]
pub enum HostLine {
    /// A message that a host wrote.
    Write {
        host: u8,
        number: u64,
    },
    /// A message that a host read. That of a status has 32 bytes.
    Read {
        host: u8,
        source: Source,
        number: u64,
        payload: Payload,
    },
}

/// What the first line of a trace says.
#[derive(Clone, Copy)]
pub struct Head {
    pub version: u8,
    pub nodes: u8,
    pub rounds: u8,
    pub slots: u32,
    pub schedule: u32,
}
