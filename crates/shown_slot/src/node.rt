//! What a trace shows of nodes after a slot.
ghost use Rattle.std.specs.Prelude.{◌≡◌, ◌+◌, ◌^◌, ◌<◌, ◌≤◌, length, filter, position};
ghost use Rattle.shown_slot.specs.Nodes.{is_active_word, is_leaving_word, sends, is_holder, hold_members, agreement};
ghost use Rattle.shown_slot.specs.Nodes.{spread_in, sender_among, bits_where, widened, clock_range};
ghost use Rattle.shown_slot.specs.Nodes.{has_first_due, starts_round, is_refusing_word, is_taking_word, is_refused};
ghost use Rattle.shown_slot.specs.Trace.{no_shown_node, node_at};
ghost use Rattle.shown_slot.specs.Nodes.{is_near_high, is_near_low, has_clock, apart_by, apart_in};

use line_reader::Word;
use ttp_base::NodeSet;
use ttp_world::Ack;
use whole_trace::{NodeShown, SlotShown};

/// Who sent in a slot.
#[derive(Clone, Copy)]
pub enum Sender {
    Nobody,
    Node(u8),
    /// Two nodes or more.
    Several,
}

/// The clock that is furthest behind and the one that is furthest ahead, in microticks.
#[derive(Clone, Copy)]
pub struct ClockRange {
    pub low: i64,
    pub high: i64,
}

// What stands for a node that a slot does not have.
fn no_shown_node() -> NodeShown
    ensures { result ≡ no_shown_node }
{
    NodeShown {
        word: Word::Off,
        peer: None,
        message: None,
        members: NodeSet::empty(),
        accepted: 0,
        rejected: 0,
        ack: Ack::Closed,
        offset: 0,
    }
}

/// A node of a slot.
pub fn node_at(slot: &SlotShown<'_>, number: u8) -> NodeShown
    ensures { result ≡ node_at slot.now number }
{
    match slot.nodes().get(usize::from(number)) {
        Some(node) => *node,
        None => no_shown_node(),
    }
}

/// Whether a node whose line has this word takes part in the cluster.
pub fn is_active_word(word: Word) -> bool
    ensures { result ≡ is_active_word word }
{
    match word {
        Word::Start
        | Word::Join
        | Word::Send
        | Word::Correct
        | Word::Tentative
        | Word::Incorrect
        | Word::Invalid
        | Word::Null => true,
        _ => false,
    }
}

/// Whether it left the cluster in this slot.
pub fn is_leaving_word(word: Word) -> bool
    ensures { result ≡ is_leaving_word word }
{
    match word {
        Word::Denied | Word::Unacknowledged | Word::Clique => true,
        _ => false,
    }
}

/// Whether it sent a frame in this slot.
pub fn sends(word: Word) -> bool
    ensures { result ≡ sends word }
{
    match word {
        Word::Start | Word::Send => true,
        _ => false,
    }
}

/// Whether its members count: it is active, and in no doubt about its own frame.
pub fn is_holder(node: &NodeShown) -> bool
    ensures { result ≡ is_holder node.now }
{
    let is_doubt = match node.ack {
        Ack::Doubt(_) => true,
        _ => false,
    };
    is_active_word(node.word) && !is_doubt
}

// Whether all holders among nodes hold these members.
fn hold_members(members: u32, nodes: &[NodeShown]) -> bool
    ensures { result ≡ hold_members members nodes.now }
{
    nodes
        .iter()
        .all(|node| !is_holder(node) || node.members.bits() == members)
}

/// Whether all holders hold the same members: active nodes that are in no doubt about their own frames.
/// `None` where there is no holder.
pub fn agreement(nodes: &[NodeShown]) -> Option<bool>
    ensures { result ≡ agreement nodes.now }
{
    match nodes {
        [] => None,
        [node, rest @ ..] => {
            if is_holder(node) {
                Some(hold_members(node.members.bits(), rest))
            } else {
                agreement(rest)
            }
        }
    }
}

/// Who sent. The first of the nodes is node `first`, and all numbers are below 256.
pub fn sender_among(first: u8, nodes: &[NodeShown]) -> Sender
    requires { first + length nodes.now < 256 }
    ensures { result ≡ sender_among first nodes.now }
{
    match nodes {
        [] => Sender::Nobody,
        [node, rest @ ..] => {
            let others = sender_among(first + 1, rest);
            if !sends(node.word) {
                return others;
            }
            match others {
                Sender::Nobody => Sender::Node(first),
                _ => Sender::Several,
            }
        }
    }
}

/// The active nodes, at most 32, as a word in which bit k, the least significant first, stands for node k.
pub fn active_bits(nodes: &[NodeShown]) -> u32
    requires { length nodes.now ≤ 32 }
    ensures value { result ≡ bits_where is_active_word nodes.now }
    ensures few { result < 2 ^ length nodes.now }
{
    match nodes {
        [] => 0,
        [node, rest @ ..] => u32::from(is_active_word(node.word)) + 2 * active_bits(rest),
    }
}

/// The nodes that left, likewise.
pub fn left_bits(nodes: &[NodeShown]) -> u32
    requires { length nodes.now ≤ 32 }
    ensures value { result ≡ bits_where is_leaving_word nodes.now }
    ensures few { result < 2 ^ length nodes.now }
{
    match nodes {
        [] => 0,
        [node, rest @ ..] => u32::from(is_leaving_word(node.word)) + 2 * left_bits(rest),
    }
}

// A range of clocks with one clock more.
fn widened(clock: i64, range: Option<ClockRange>) -> ClockRange
    ensures { result ≡ widened clock range }
{
    match range {
        None => ClockRange {
            low: clock,
            high: clock,
        },
        Some(range) => ClockRange {
            low: if clock <= range.low { clock } else { range.low },
            high: if clock <= range.high {
                range.high
            } else {
                clock
            },
        },
    }
}

/// The range of the clocks of the active nodes, where there is one.
pub fn clock_range(nodes: &[NodeShown]) -> Option<ClockRange>
    ensures { result ≡ clock_range nodes.now }
{
    match nodes {
        [] => None,
        [node, rest @ ..] => {
            let others = clock_range(rest);
            if is_active_word(node.word) {
                Some(widened(node.offset, others))
            } else {
                others
            }
        }
    }
}

impl ClockRange {
    /// How far the clocks are apart, in microticks.
    pub fn spread(&self) -> u64
        ensures { result ≡ spread_in self.now }
    {
        self.high.abs_diff(self.low)
    }
}

// Whether node 0 is due in the slot for a node.
fn has_first_due(node: &NodeShown) -> bool
    ensures { result ≡ has_first_due node.now }
{
    is_active_word(node.word) && matches!(node.peer, Some(0))
}

/// Whether a round begins in the slot: node 0 is due in it for an active node.
pub fn starts_round(nodes: &[NodeShown]) -> bool
    ensures { result ≡ starts_round nodes.now }
{
    nodes.iter().any(|node| has_first_due(node))
}

// Whether a node whose line has this word did not take the frame of the slot.
fn is_refusing_word(word: Word) -> bool
    ensures { result ≡ is_refusing_word word }
{
    match word {
        Word::Incorrect | Word::Invalid | Word::Null => true,
        _ => false,
    }
}

// Whether it took it.
fn is_taking_word(word: Word) -> bool
    ensures { result ≡ is_taking_word word }
{
    match word {
        Word::Join | Word::Correct | Word::Tentative => true,
        _ => false,
    }
}

fn count_taking(nodes: &[NodeShown]) -> usize
    ensures { result ≡ length (filter (λ node. is_taking_word node.word) nodes.now) }
{
    nodes
        .iter()
        .filter(|node| is_taking_word(node.word))
        .count()
}

fn count_refusing(nodes: &[NodeShown]) -> usize
    ensures { result ≡ length (filter (λ node. is_refusing_word node.word) nodes.now) }
{
    nodes
        .iter()
        .filter(|node| is_refusing_word(node.word))
        .count()
}

/// Whether more nodes refuse the frame of the slot than take it.
pub fn is_refused(nodes: &[NodeShown]) -> bool
    ensures { result ≡ is_refused nodes.now }
{
    count_taking(nodes) < count_refusing(nodes)
}

fn is_near_high(range: ClockRange, node: &NodeShown) -> bool
    ensures { result ≡ is_near_high range node.now }
{
    is_active_word(node.word) && range.high.abs_diff(node.offset) < node.offset.abs_diff(range.low)
}

fn is_near_low(range: ClockRange, node: &NodeShown) -> bool
    ensures { result ≡ is_near_low range node.now }
{
    is_active_word(node.word) && node.offset.abs_diff(range.low) < range.high.abs_diff(node.offset)
}

fn count_near_high(range: ClockRange, nodes: &[NodeShown]) -> usize
    ensures { result ≡ length (filter (is_near_high range) nodes.now) }
{
    nodes
        .iter()
        .filter(|node| is_near_high(range, node))
        .count()
}

fn count_near_low(range: ClockRange, nodes: &[NodeShown]) -> usize
    ensures { result ≡ length (filter (is_near_low range) nodes.now) }
{
    nodes.iter().filter(|node| is_near_low(range, node)).count()
}

fn has_clock(clock: i64, node: &NodeShown) -> bool
    ensures { result ≡ has_clock clock node.now }
{
    is_active_word(node.word) && node.offset == clock
}

// The first active node that has this clock.
fn first_with(clock: i64, nodes: &[NodeShown]) -> Option<usize>
    ensures { result ≡ position (has_clock clock) nodes.now }
{
    nodes.iter().position(|node| has_clock(clock, node))
}

// With so many nodes near to each end of their range: the first one at the end to which fewer are near.
fn apart_by(high: usize, low: usize, range: ClockRange, nodes: &[NodeShown]) -> Option<usize>
    ensures { result ≡ apart_by high low range nodes.now }
{
    if high < low {
        first_with(range.high, nodes)
    } else if low < high {
        first_with(range.low, nodes)
    } else {
        None
    }
}

/// The node whose clock is far from most, where `range` is that of the nodes' clocks: the first one at the end of the
/// range to which fewer active nodes are near. `None` where no node is active, or as many are near to both ends.
pub fn node_apart(range: Option<ClockRange>, nodes: &[NodeShown]) -> Option<usize>
    ensures { result ≡ apart_in range nodes.now }
{
    match range {
        None => None,
        Some(range) => apart_by(
            count_near_high(range, nodes),
            count_near_low(range, nodes),
            range,
            nodes,
        ),
    }
}
