//! What a verdict asks of the members and counts of the node that gave it.

/// What a verdict on a sender's slot asks of the members and counts of the node that gave it.
#[derive(Clone, Copy, PartialEq, Eq)]
pub enum AckMove {
    /// The sender is a member, and its frame is accepted.
    Accept,
    /// The sender is no member. Its frame is counted as rejected, or there was none.
    Reject { counted: bool },
    /// The sender is a member. Its frame is not counted until another one settles the doubt.
    Hold,
    /// The sender is a member and its frame is accepted; the doubted node is none, and its frame is
    /// rejected.
    Resolve { other: u8 },
    /// The node's own frame was not received by two successors: the node leaves.
    Leave,
}
