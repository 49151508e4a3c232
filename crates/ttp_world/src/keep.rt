//! The answers of the tests of scripts: of the single-fault hypothesis, and of the places of armed nodes.

/// Whether a script keeps the single-fault hypothesis.
#[derive(Clone, Copy, PartialEq, Eq)]
pub enum Keep {
    /// It does, and the cluster starts in this slot.
    Yes { start: u32 },
    /// It breaks this rule, 1 to 7, in this slot.
    No { rule: u8, slot: u32 },
}

/// Whether each node that is armed to listen again is guaranteed its place.
#[derive(Clone, Copy, PartialEq, Eq)]
pub enum Back {
    /// It is, and the cluster starts in this slot.
    Yes { start: u32 },
    /// The script breaks this rule, 1 to 8, in this slot.
    No { rule: u8, slot: u32 },
}
