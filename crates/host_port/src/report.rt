//! What a slot leaves to be told.

use nbw_ring::Pair;
use ttp_base::List;
use ttp_world::{NodeState, Source};

/// A message that a host read in a slot.
#[derive(Drop)]
pub struct ReadLine {
    pub host: u8,
    pub source: Source,
    /// The message with its number in the source's ring, as the ring's reader got it.
    pub pair: Pair,
}

/// A message that a host wrote in a slot, by its number in the host's outgoing ring.
#[derive(Clone, Copy)]
pub struct WriteLine {
    pub host: u8,
    /// Counted from 1, since message 0 is the zeros.
    pub number: u64,
}

/// A node after a slot. The message is the one in the frame that it sent, or the one that it
/// delivered, by its number in its ring.
#[derive(Clone, Copy)]
pub struct NodeLine {
    /// What is shown of it.
    pub state: NodeState,
    /// None where its frame carried no message, and it delivered none.
    pub message: Option<u64>,
}

/// A slot: each node after it, and what hosts wrote and read in it, in the order of the script.
#[derive(Drop)]
pub struct SlotReport {
    /// Counted from 0.
    pub slot: u32,
    /// The first one is of node 0.
    pub nodes: List<NodeLine>,
    pub writes: List<WriteLine>,
    pub reads: List<ReadLine>,
}
