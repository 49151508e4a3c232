//! What a run costs.

use ttp_base::{List, NodeSet};
use ttp_world::Reason;

/// A node that left.
#[derive(Clone, Copy)]
pub struct Leave {
    pub node: u8,
    /// The slot in which it left.
    pub slot: u32,
    pub reason: Reason,
}

/// The first and the last of some slots, which are counted from 0.
#[derive(Clone, Copy)]
pub struct Span {
    pub first: u32,
    pub last: u32,
}

/// What a run costs.
#[derive(Drop)]
pub struct Cost {
    /// The nodes that left, each with the newest time.
    pub left: List<Leave>,
    /// Those that left in a slot after which they were correct.
    pub hurt: NodeSet,
    /// The first and the last slot after which correct nodes held two memberships or more.
    pub split: Option<Span>,
    /// The memberships that nodes hold in the end which are active and not in doubt, each once.
    pub end: List<NodeSet>,
}

/// What some runs come to.
#[derive(Clone, Copy)]
pub struct Counts {
    /// How many they are.
    pub runs: u64,
    /// How many cost what the script's own run does.
    pub same: u64,
    /// In how many a node was hurt.
    pub hurt: u64,
    /// In how many memberships were split.
    pub split: u64,
    /// How many leave two memberships or more.
    pub torn: u64,
    /// How many leave none of two nodes or more.
    pub dead: u64,
}
