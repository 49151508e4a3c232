//! Which line is due in a trace, by the lines before it.
ghost use Rattle.std.specs.Prelude.{◌≡◌};
ghost use Rattle.line_reader.specs.declared.trace_line.TraceLine.TheVariants as said;
ghost use Rattle.whole_trace.specs.Due.{is_head, is_below, are_members, doubted, source_node, is_node_line};
ghost use Rattle.whole_trace.specs.Due.{is_keep, is_back, after_head, next_node, after_node, after_host, due_after, ending};

use crate::shown::Head;
use line_reader::{NodeLine, TraceLine};
use ttp_base::NodeSet;
use ttp_world::{Ack, Back, Keep, Source};

/// What may stand behind some lines of a trace.
#[derive(Clone, Copy)]
pub(crate) enum Due {
    /// The first line.
    First,
    /// The line of this node after this slot.
    Node {
        head: Head,
        slot: u32,
        node: u8,
    },
    /// A line of a host in this slot, the first line of the next slot, or that of the hypothesis test.
    Host {
        head: Head,
        slot: u32,
        /// Whether a line of what was read came already.
        has_read: bool,
    },
    /// The line on armed nodes, or nothing.
    Back {
        head: Head,
        keep: Keep,
    },
    Nothing {
        head: Head,
        keep: Keep,
        back: Back,
    },
}

/// The first line of a trace and its last ones.
#[derive(Clone, Copy)]
pub(crate) struct Outline {
    pub(crate) head: Head,
    pub(crate) keep: Keep,
    pub(crate) back: Option<Back>,
}

fn is_head(head: &Head) -> bool
    ensures { result ≡ is_head head.now }
{
    let few = match head.version {
        1 => head.nodes <= 16,
        2 => head.nodes <= 24,
        _ => false,
    };
    few && 4 <= head.nodes
        && 1 <= head.rounds
        && head.rounds <= 64
        && 1 <= head.slots
        && head.slots <= 20_000
}

// Whether a node, if there is one, is one of so many.
fn is_below(nodes: u8, node: Option<u8>) -> bool
    ensures { result ≡ is_below nodes node }
{
    match node {
        Some(node) => node < nodes,
        None => true,
    }
}

// Whether members are nodes of a cluster of so many.
fn are_members(nodes: u8, members: NodeSet) -> bool
    ensures { result ≡ are_members nodes members }
{
    nodes <= 24 && members.bits() < 1 << nodes
}

fn doubted(ack: Ack) -> Option<u8>
    ensures { result ≡ doubted ack }
{
    match ack {
        Ack::Doubt(node) => Some(node),
        _ => None,
    }
}

fn source_node(source: Source) -> Option<u8>
    ensures { result ≡ source_node source }
{
    match source {
        Source::Node(node) => Some(node),
        Source::Status => None,
    }
}

/// Whether a line of a node is that of this one after this slot.
pub(crate) fn is_due_node(head: &Head, due: u32, k: u8, node: &NodeLine) -> bool
    ensures { result ≡ is_node_line head.now due k (said.Node node.now.slot node.now.node node.now.word node.now.peer
        node.now.message node.now.wide node.now.members node.now.accepted node.now.rejected node.now.ack
        node.now.offset) }
{
    node.slot == due
        && node.node == k
        && k < head.nodes
        && node.wide == (head.version == 2)
        && is_below(head.nodes, node.peer)
        && are_members(head.nodes, node.members)
        && is_below(head.nodes, doubted(node.ack))
}

// Whether a line is that of a node after a slot.
fn is_node_line(head: &Head, due: u32, k: u8, line: &TraceLine) -> bool
    ensures { result ≡ is_node_line head.now due k line.now }
{
    match line {
        TraceLine::Node {
            slot,
            node,
            peer,
            wide,
            members,
            ack,
            ..
        } => {
            *slot == due
                && *node == k
                && k < head.nodes
                && *wide == (head.version == 2)
                && is_below(head.nodes, *peer)
                && are_members(head.nodes, *members)
                && is_below(head.nodes, doubted(*ack))
        }
        _ => false,
    }
}

/// Whether the rule that the hypothesis test names is one of its rules.
pub fn is_keep(keep: Keep) -> bool
    ensures { result ≡ is_keep keep }
{
    match keep {
        Keep::Yes { .. } => true,
        Keep::No { rule, .. } => 1 <= rule && rule <= 7,
    }
}

/// Whether the rule that the test on armed nodes names is one of its rules.
pub fn is_back(back: Back) -> bool
    ensures { result ≡ is_back back }
{
    match back {
        Back::Yes { .. } => true,
        Back::No { rule, .. } => 1 <= rule && rule <= 8,
    }
}

fn after_head(line: &TraceLine) -> Option<Due>
    ensures { result ≡ after_head line.now }
{
    match line {
        TraceLine::Header {
            version,
            nodes,
            rounds,
            slots,
            schedule,
        } => {
            let head = Head {
                version: *version,
                nodes: *nodes,
                rounds: *rounds,
                slots: *slots,
                schedule: *schedule,
            };
            if is_head(&head) {
                Some(Due::Node {
                    head,
                    slot: 0,
                    node: 0,
                })
            } else {
                None
            }
        }
        _ => None,
    }
}

/// What is due behind the line of a node.
pub(crate) fn next_node(head: Head, slot: u32, node: u8) -> Due
    ensures { result ≡ next_node head slot node }
{
    if node < head.nodes && node + 1 < head.nodes {
        Due::Node {
            head,
            slot,
            node: node + 1,
        }
    } else {
        Due::Host {
            head,
            slot,
            has_read: false,
        }
    }
}

// Where the line is that of a node.
fn after_node(head: Head, slot: u32, node: u8, line: &TraceLine) -> Option<Due>
    ensures { result ≡ after_node head slot node line.now }
{
    if is_node_line(&head, slot, node, line) {
        Some(next_node(head, slot, node))
    } else {
        None
    }
}

// Where the line is one of a host, of the next slot, or of the hypothesis test.
fn after_host(head: Head, slot: u32, has_read: bool, line: &TraceLine) -> Option<Due>
    ensures { result ≡ after_host head slot has_read line.now }
{
    match line {
        TraceLine::Write { slot: t, host, .. } => {
            if *t == slot && *host < head.nodes && !has_read {
                Some(Due::Host {
                    head,
                    slot,
                    has_read: false,
                })
            } else {
                None
            }
        }
        TraceLine::Read {
            slot: t,
            host,
            source,
            ..
        } => {
            if *t == slot && *host < head.nodes && is_below(head.nodes, source_node(*source)) {
                Some(Due::Host {
                    head,
                    slot,
                    has_read: true,
                })
            } else {
                None
            }
        }
        TraceLine::Keep(keep) => {
            if slot < head.slots && slot + 1 == head.slots && is_keep(*keep) {
                Some(Due::Back { head, keep: *keep })
            } else {
                None
            }
        }
        line => {
            if slot < head.slots && slot + 1 < head.slots {
                after_node(head, slot + 1, 0, line)
            } else {
                None
            }
        }
    }
}

/// What is due behind a line, if it is due itself.
pub(crate) fn due_after(due: Due, line: &TraceLine) -> Option<Due>
    ensures { result ≡ due_after due line.now }
{
    match due {
        Due::First => after_head(line),
        Due::Node { head, slot, node } => after_node(head, slot, node, line),
        Due::Host {
            head,
            slot,
            has_read,
        } => after_host(head, slot, has_read, line),
        Due::Back { head, keep } => match line {
            TraceLine::Back(back) => {
                if is_back(*back) {
                    Some(Due::Nothing {
                        head,
                        keep,
                        back: *back,
                    })
                } else {
                    None
                }
            }
            _ => None,
        },
        Due::Nothing { .. } => None,
    }
}

/// What the first line and the last ones said, where a trace may end.
pub(crate) fn ending(due: Due) -> Option<Outline>
    ensures { result ≡ ending due }
{
    match due {
        Due::Back { head, keep } => Some(Outline {
            head,
            keep,
            back: None,
        }),
        Due::Nothing { head, keep, back } => Some(Outline {
            head,
            keep,
            back: Some(back),
        }),
        _ => None,
    }
}
