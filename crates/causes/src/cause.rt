//! What a cause is.

use ttp_base::List;

/// An entry of a run: what this node did in this slot.
#[derive(Clone, Copy, PartialEq, Eq)]
pub struct Spot {
    pub slot: u32,
    pub node: u8,
}

/// A line of a script that may be a cause.
#[derive(Clone, Copy, PartialEq, Eq)]
pub enum ScriptLine {
    /// The line of the event at this place among the script's events, counted from 0.
    Event(usize),
    /// The line that switches this node on.
    On(u8),
    /// The line that gives this node's clock its drift.
    Drift(u8),
}

/// What more is said of one of two nodes whose clocks came apart.
#[derive(Clone, Copy)]
pub struct ClockNote {
    pub node: u8,
    /// It did not correct its clock at the end of its newest whole round, since it missed frames.
    pub is_uncorrected: bool,
    /// The slot in which it joined on the clock of another, where that join has causes.
    pub joined: Option<u32>,
}

/// Why a channel brought a node no frame that it accepts.
#[derive(Drop)]
pub enum Miss {
    /// Nobody sent, and this line silences both of the receiver's channels.
    Deaf(ScriptLine),
    /// Nobody sent, since the peer is off.
    Off(u8),
    /// Nobody sent, since the peer left in this slot.
    Left {
        node: u8,
        slot: u32,
    },
    /// Nobody sent, since the peer listens.
    Listens(u8),
    /// Nobody sent, since the peer withdraws its cold start.
    Retries(u8),
    /// This node stands at another place of the cluster cycle.
    Elsewhere(u8),
    /// These lines silence what was sent.
    Silenced(List<ScriptLine>),
    /// This line makes noise of what was sent.
    Noisy(ScriptLine),
    /// The frames of these nodes meet.
    Collision(List<u8>),
    /// These lines flip bits, so that the frame is seen as another.
    Flipped(List<ScriptLine>),
    /// The frame is the cold start of this node.
    ColdStart(u8),
    /// The frame came so many microticks late, which lies outside the list's window.
    Clock {
        deviation: i64,
        /// Of the lower node first.
        notes: List<ClockNote>,
    },
    /// One node of sender and receiver holds a member that the other does not.
    Differs {
        holds: u8,
        member: u8,
        lacks: u8,
    },
    /// The sender holds neither the receiver nor the node that it doubts.
    HoldsNeither {
        sender: u8,
        receiver: u8,
        doubted: u8,
    },
    /// The sender holds both.
    HoldsBoth {
        sender: u8,
        receiver: u8,
        doubted: u8,
    },
}

/// What decided an entry.
#[derive(Drop)]
pub enum Because {
    /// The node is switched on in this slot.
    SwitchedOn(u32),
    /// The node is never switched on.
    NeverOn,
    /// There was no frame to join on since this slot.
    NothingToJoin(u32),
    /// It takes over the C-state of this node.
    TakesOver(u8),
    /// So many slots were silent.
    Silence(u32),
    /// It is its own slot.
    OwnSlot,
    /// It accepted no frame since its cold start in this slot.
    NoneSinceColdStart(u32),
    /// It left in this slot.
    LeftIn(u32),
    /// It accepted no frame since its own in this slot.
    NoneSinceOwn(u32),
    /// It accepted no more frames than it rejected since its own in a slot. The peer of the frame that answered
    /// it lacks the same members, if it lacks some.
    Outvoted {
        accepted: u8,
        rejected: u8,
        since: u32,
        peer: u8,
        lacked: List<u8>,
    },
    /// The frame is the one that is due.
    DueFrame,
    /// A frame says that one node is a member and another is not.
    HoldsOne {
        sender: u8,
        held: u8,
        lacked: u8,
    },
    /// A frame says that this node is no member.
    HoldsNot {
        sender: u8,
        lacked: u8,
    },
    /// One channel decides, or nobody sent.
    Missed(Miss),
    /// Both channels have a part.
    MissedOnEach {
        a: Miss,
        b: Miss,
    },
}

/// How an entry came about: what decided it, and the lines and entries that had a part, in no order, of which some
/// may be named twice.
#[derive(Drop)]
pub struct Cause {
    pub because: Because,
    pub lines: List<ScriptLine>,
    pub entries: List<Spot>,
}

/// An entry that a story tells, with its cause.
#[derive(Drop)]
pub struct Told {
    pub spot: Spot,
    pub cause: Cause,
}

/// How an entry came about.
#[derive(Drop)]
pub struct Story {
    /// The root that it names beside its causes, if it names one.
    pub root: List<Spot>,
    /// The entries that had a part, the newest first: the first is the one that was asked for.
    pub told: List<Told>,
}

/// The numbers in the file of a script's lines, counted from 1: of the `on` and of the `drift` line of each node, 0 where it
/// has none, and of the line of each event.
#[derive(Drop)]
pub struct LineNumbers {
    pub on: List<u32>,
    pub drift: List<u32>,
    pub events: List<u32>,
}
