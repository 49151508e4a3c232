//! The causes of a frame with other members.
ghost use Rattle.causes.specs.Members as causes_members;
ghost use Rattle.causes.specs.Members.{difference_of, difference_reason, doubt_reason, is_earlier, is_one_of};
ghost use Rattle.causes.specs.Members.{if_join, members_reason, telling_of};
ghost use Rattle.causes.specs.RunSlots.{doubted_in, is_joined};
ghost use Rattle.causes.specs.Sources.{only_entries};
ghost use Rattle.entry_causes.specs.Differences.{IfDoubted, difference_shown, said_first};
ghost use Rattle.run_looks.specs.Added.{AddsSources};
ghost use Rattle.run_rows.specs.Rows.{past_slots, run_slot};
ghost use Rattle.std.specs.Option.{option_map};
ghost use Rattle.std.specs.Prelude.{IfOk, IfSome, List, OnOk, Some, [], filter, length, map, ℕ, ◌++◌, ◌-◌, ◌<◌, ◌∷◌, ◌≡◌, ◌≤◌};
ghost use Rattle.ttp_base.specs.NodeSet.{below, has_node};
ghost use Rattle.ttp_world.specs.Membership.{AreNodes};

use crate::places::members_sent;
use crate::said::said;
use crate::view::members_due;
use causes::{Miss, Spot};
use run_looks::{Sources, Verdicts, add_judged_since_own};
use run_rows::RunRows;
use ttp_base::{Memory, NodeSet};
use ttp_world::{Ack, Entry};

// A node that one of sender and receiver holds and the other lacks, and what this one said of it.
#[derive(Clone, Copy)]
struct Difference {
    member: u8,
    holds: u8,
    lacks: u8,
    said: Spot,
}

// One of two holds.
fn is_one_of(one: bool, other: bool) -> bool
    ensures { result ≡ is_one_of one other }
{
    if one { !other } else { other }
}

// The nodes that are in one of two sets.
fn differing(nodes: u8, a: NodeSet, b: NodeSet) -> NodeSet
    requires { nodes ≤ 24 }
    ensures { result ≡ filter (λ j. is_one_of (has_node a j) (has_node b j)) (below nodes) }
{
    let mut differing = NodeSet::empty();
    for node in 0..nodes {
        if is_one_of(a.has(node), b.has(node)) {
            differing = differing.with(node);
        }
    }
    differing
}

// Those that tell: not the receiver nor the one that it doubts; and the receiver where it is the only one and its
// acknowledgement is closed.
fn telling_of(node: u8, ack: Ack, nodes: NodeSet) -> NodeSet
    requires node { node < 24 }
    requires doubted { IfDoubted ack (λ x. x < 24) }
    ensures { result ≡ telling_of node ack nodes }
{
    match ack {
        Ack::Closed => {
            if nodes.count() == 1 {
                nodes
            } else {
                nodes.without(node)
            }
        }
        Ack::First => nodes.without(node),
        Ack::Doubt(doubted) => nodes.without(node).without(doubted),
    }
}

fn difference_of(
    run: &RunRows,
    sender: u8,
    node: u8,
    before: u32,
    is_sent: bool,
    member: u8,
) -> Difference
    requires sender { sender < length run.now.list.slots }
    requires node { node < length run.now.list.slots }
    requires before { before ≤ run.now.slots }
    ensures value { difference_shown result ≡ difference_of sender node (past_slots run.now before) is_sent member }
    ensures holds { result.holds < length run.now.list.slots }
{
    let (holds, lacks) = if is_sent {
        (sender, node)
    } else {
        (node, sender)
    };
    Difference {
        member,
        holds,
        lacks,
        said: said(run, lacks, member, before),
    }
}

fn is_earlier(a: &Spot, b: &Spot) -> bool
    ensures { result ≡ is_earlier a.now b.now }
{
    a.slot < b.slot || (a.slot == b.slot && a.node < b.node)
}

// Of a difference, if there is one, and one more, the one that was said first.
fn earlier(first: Option<Difference>, other: Difference) -> Difference
    ensures value { (others : List causes_members.Difference) → option_map difference_shown first ≡ said_first others
        → Some (difference_shown result) ≡ said_first (others ++ difference_shown other ∷ []) }
    ensures holds { (n : ℕ) → IfSome first (λ d. d.holds < n) → other.holds < n → result.holds < n }
{
    match first {
        None => other,
        Some(known) => {
            if is_earlier(&other.said, &known.said) {
                other
            } else {
                known
            }
        }
    }
}

// Of the differences that tell the one that was said first.
fn earliest(
    run: &RunRows,
    sender: u8,
    node: u8,
    before: u32,
    sent: NodeSet,
    telling: NodeSet,
) -> Option<Difference>
    requires sender { sender < length run.now.list.slots }
    requires node { node < length run.now.list.slots }
    requires before { before ≤ run.now.slots }
    requires telling { AreNodes run.now.list telling }
    ensures value { option_map difference_shown result ≡ said_first
        (map (λ j. difference_of sender node (past_slots run.now before) (has_node sent j) j) telling) }
    ensures holds { IfSome result (λ d. d.holds < length run.now.list.slots) }
{
    let mut first: Option<Difference> = None;
    for member in 0..run.list().nodes() {
        if telling.has(member) {
            let other = difference_of(run, sender, node, before, sent.has(member), member);
            first = Some(earlier(first, other));
        }
    }
    first
}

/// An entry is a join.
pub(crate) fn is_joined(entry: &Entry) -> bool
    ensures { result ≡ is_joined entry.now }
{
    matches!(entry, Entry::Joined { .. })
}

// Adds an entry before a slot, where it is a join.
fn add_if_join(run: &RunRows, spot: Spot, before: u32, out: &mut Sources) -> Result<(), Memory>
    requires before { before ≤ run.now.slots }
    requires slot { spot.slot ≤ before - 1 }
    requires node { spot.node < length run.now.list.slots }
    ensures { OnOk result (AddsSources out.old out.new (only_entries (if_join (past_slots run.now before) spot))) }
{
    if before == 0 {
        return Ok(());
    }
    if is_joined(&run.row(spot.slot, spot.node).entry) {
        return out.add_entry(spot);
    }
    Ok(())
}

// Adds what was said of a difference.
fn add_difference(
    run: &RunRows,
    difference: &Difference,
    before: u32,
    out: &mut Sources,
) -> Result<Miss, Memory>
    requires before { before ≤ run.now.slots }
    requires holds { difference.now.holds < length run.now.list.slots }
    ensures { IfOk result (λ miss. (miss ≡ (difference_reason (past_slots run.now before) (difference_shown difference.now)).miss) × AddsSources out.old out.new (difference_reason (past_slots run.now before) (difference_shown difference.now)).sources) }
{
    let also = said(run, difference.holds, difference.member, before);
    out.add_entry(difference.said)?;
    add_if_join(run, also, before, out)?;
    Ok(Miss::Differs {
        holds: difference.holds,
        member: difference.member,
        lacks: difference.lacks,
    })
}

// Adds why a frame differs in the receiver and the node that it doubts alone.
fn add_doubt_reason(
    run: &RunRows,
    sender: u8,
    node: u8,
    slot: u32,
    holds: bool,
    out: &mut Sources,
) -> Result<Miss, Memory>
    requires sender { sender < length run.now.list.slots }
    requires node { node < length run.now.list.slots }
    requires slot { slot < run.now.slots }
    ensures { IfOk result (λ miss. (miss ≡ (doubt_reason sender node (past_slots run.now slot) holds (doubted_in node (run_slot run.now slot))).miss) × AddsSources out.old out.new (doubt_reason sender node (past_slots run.now slot) holds (doubted_in node (run_slot run.now slot))).sources) }
{
    match run.row(slot, node).begun.ack {
        Ack::Doubt(doubted) => {
            if holds {
                add_judged_since_own(run, Verdicts::Tentative, node, slot, out)?;
                Ok(Miss::HoldsBoth {
                    sender,
                    receiver: node,
                    doubted,
                })
            } else {
                out.add_entry(said(run, sender, node, slot))?;
                out.add_entry(said(run, sender, doubted, slot))?;
                Ok(Miss::HoldsNeither {
                    sender,
                    receiver: node,
                    doubted,
                })
            }
        }
        Ack::Closed | Ack::First => Ok(Miss::HoldsBoth {
            sender,
            receiver: node,
            doubted: node,
        }),
    }
}

/// Adds why a node does not hold the members of a sender's frame, and tells it.
pub(crate) fn add_members_reason(
    run: &RunRows,
    sender: u8,
    node: u8,
    slot: u32,
    out: &mut Sources,
) -> Result<Miss, Memory>
    requires sender { sender < length run.now.list.slots }
    requires node { node < length run.now.list.slots }
    requires slot { slot < run.now.slots }
    ensures { IfOk result (λ miss. (miss ≡ (members_reason sender node (run_slot run.now slot) (past_slots run.now slot)).miss) × AddsSources out.old out.new (members_reason sender node (run_slot run.now slot) (past_slots run.now slot)).sources) }
{
    let sent = members_sent(run, slot, sender);
    let differing = differing(run.list().nodes(), sent, members_due(run, slot, node));
    let telling = telling_of(node, run.row(slot, node).begun.ack, differing);
    match earliest(run, sender, node, slot, sent, telling) {
        Some(difference) => add_difference(run, &difference, slot, out),
        None => add_doubt_reason(run, sender, node, slot, sent.has(node), out),
    }
}
