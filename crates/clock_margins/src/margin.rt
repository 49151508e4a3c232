//! What is swept, and what it comes to.

use ttp_base::{List, NodeSet};

/// A node whose clock takes each value: its drift, or its jump in a slot.
#[derive(Clone, Copy)]
pub struct Sweep {
    pub node: u8,
    /// The slot of the jump, which a drift has not.
    pub slot: Option<u32>,
}

/// Whom a value of a node's clock costs the membership.
#[derive(Clone, Copy, PartialEq, Eq)]
pub enum Costs {
    Nobody,
    /// The node itself and no other.
    Itself,
    /// Nodes that are not faulty, and perhaps the node itself.
    Others,
}

/// What is told of the run of a value, beside the test of its script.
#[derive(Drop)]
pub struct Outcome {
    /// The nodes that left.
    pub left: NodeSet,
    /// Those that left in a slot after which they were correct, without the node that is swept.
    pub hurt: NodeSet,
    /// Whether correct nodes but the one that is swept held two memberships or more after some slot.
    pub split: bool,
    /// The memberships that nodes hold in the end which are active and not in doubt, each once.
    pub end: List<NodeSet>,
}

/// Values from one to another, in microticks.
#[derive(Clone, Copy)]
pub struct Between {
    pub least: i64,
    pub greatest: i64,
}

/// How many values cost whom.
#[derive(Clone, Copy)]
pub struct CostCounts {
    pub nobody: u64,
    pub itself: u64,
    pub others: u64,
}

/// What a sweep comes to.
#[derive(Clone, Copy)]
pub struct Margin {
    /// How many ranges of values it has.
    pub ranges: u64,
    pub counts: CostCounts,
    /// The values around 0 that cost nobody, if 0 does not.
    pub free: Option<Between>,
    /// The least and the greatest value below 0 that costs others.
    pub below: Option<Between>,
    /// The least and the greatest value from 0 on that costs others.
    pub above: Option<Between>,
    /// How many nodes a value hurts at most.
    pub most: u64,
}

/// What some sweeps come to.
#[derive(Clone, Copy)]
pub struct Total {
    pub sweeps: u64,
    pub values: u64,
    pub counts: CostCounts,
    /// What the values of all sweeps around 0 that cost nobody have in common.
    pub free: Option<Between>,
    /// The least absolute value that costs others in some sweep.
    pub least: Option<u64>,
    /// How many nodes a value hurts at most.
    pub most: u64,
}
