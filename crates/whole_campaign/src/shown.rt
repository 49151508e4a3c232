//! What the lines of a campaign say.
use campaign::Counts;
use ttp_world::{Back, Keep};

/// What a fault does, as its first word.
#[derive(Clone, Copy)]
pub enum Doing {
    /// A node's frames are lost as it sends.
    Send,
    /// Frames are lost to a node that receives.
    Receive,
    /// A node's clock jumps.
    Jump,
}

/// What the test of a script says.
#[derive(Clone, Copy)]
pub enum Test {
    /// The single-fault hypothesis.
    Keep(Keep),
    /// The test on armed nodes.
    Back(Back),
}

/// What the line of a fault says.
#[derive(Clone, Copy)]
pub struct FaultShown {
    /// The slot in which the fault begins.
    pub slot: u32,
    /// Its node.
    pub node: u8,
    pub doing: Doing,
    /// Its place among the faults of its slot and its node: 0 to 11 for a loss, 12 to 15 for a jump.
    pub place: u8,
    /// Whether the test says yes.
    pub yes: bool,
    /// Whether the words of the cost, from `left` to the memberships, are those of the script's own line.
    pub same: bool,
    /// How many nodes were hurt.
    pub hurt: u8,
    /// Whether memberships were split.
    pub split: bool,
    /// How many memberships there are at the end.
    pub memberships: u64,
    /// Whether one of them has two members or more.
    pub company: bool,
}

/// The line of a fault.
#[derive(Clone, Copy)]
pub struct FaultLine<'a> {
    pub shown: FaultShown,
    /// The line without its line feed.
    pub text: &'a [u8],
}

/// A piece of a campaign: the range that its first line names, and the counts of its last two lines.
#[derive(Clone, Copy)]
pub struct Piece {
    pub first: u32,
    pub last: u32,
    /// Of the faults whose test says yes.
    pub kept: Counts,
    /// Of those whose test says no.
    pub broken: Counts,
}
