//! What a pair of faults costs more than its parts.

use ttp_base::NodeSet;

/// So much of what a run costs as tells whether two faults cost more together.
#[derive(Clone, Copy)]
pub struct Harm {
    /// The nodes that left.
    pub left: NodeSet,
    /// Whether correct nodes held two memberships or more after some slot.
    pub split: bool,
    /// Whether two memberships or more are left at the end.
    pub torn: bool,
    /// Whether no membership of two nodes or more is.
    pub dead: bool,
}

/// What two faults cost more together than each alone: the worst of it.
#[derive(Clone, Copy, PartialEq, Eq)]
pub enum PairClass {
    /// Those nodes leave that leave with the one or the other.
    Sum,
    /// A node stays that leaves with one of them alone.
    Less,
    /// The node of one of them leaves, which leaves with neither alone.
    Own,
    /// Correct nodes hold two memberships or more after some slot, and with neither alone.
    Divided,
    /// A node leaves that has neither fault, and with neither alone.
    Third,
    /// Two memberships or more are left at the end, and with neither alone.
    Torn,
    /// No membership of two nodes or more is left at the end, and one is with each alone.
    Dead,
}

/// How many pairs there are, and how many of each class.
#[derive(Clone, Copy)]
pub struct PairCounts {
    pub pairs: u64,
    pub sum: u64,
    pub less: u64,
    pub own: u64,
    pub divided: u64,
    pub third: u64,
    pub torn: u64,
    pub dead: u64,
}
