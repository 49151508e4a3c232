//! The answer of the test for one two-faced sender.

/// Whether a script has at most one two-faced sender, in bounds that are promised to be stood.
#[derive(Clone, Copy, PartialEq, Eq)]
pub enum Faced {
    /// It has, and the cluster starts in this slot.
    Yes { start: u32 },
    /// It breaks this rule, 0 to 5, in this slot.
    No { rule: u8, slot: u32 },
}
