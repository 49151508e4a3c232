//! What nodes said of others, and where they come from.
ghost use Rattle.causes.specs.RunSlots.{entry_in_slot, is_joined, is_started};
ghost use Rattle.causes.specs.Said.{joined_from, path, root, said, sender_as_sent, speaks_of};
ghost use Rattle.causes.specs.Sources.{only_entries};
ghost use Rattle.entry_causes.specs.Hearing.{joined_shown};
ghost use Rattle.run_looks.specs.Added.{AddsSources};
ghost use Rattle.run_rows.specs.Rows.{past_slots, run_slot};
ghost use Rattle.std.specs.Option.{option_map};
ghost use Rattle.std.specs.Prelude.{IfSome, OnOk, length, ℕ, ◌<◌, ◌≡◌, ◌≤◌};

use crate::bus::{JoinedFrame, frame_joined};
use causes::Spot;
use run_looks::{Kind, Sources, is_of};
use run_rows::RunRows;
use ttp_base::Memory;
use ttp_world::{Ack, Entry, Verdict};

/// A node joins in a slot.
pub(crate) fn joins(run: &RunRows, slot: u32, node: u8) -> bool
    requires slot { slot < run.now.slots }
    requires node { node < length run.now.list.slots }
    ensures { result ≡ is_joined (entry_in_slot node (run_slot run.now slot)) }
{
    matches!(run.row(slot, node).entry, Entry::Joined { .. })
}

// The sender of the frame on which a node joined, where it came as it was sent.
fn sender_as_sent(joined: Option<JoinedFrame>) -> Option<u8>
    ensures value { result ≡ sender_as_sent (option_map joined_shown joined) }
    ensures node { (n : ℕ) → IfSome joined (λ joined. joined.sender < n) → IfSome result (λ p. p < n) }
{
    match joined {
        Some(joined) => {
            if joined.is_as_sent {
                Some(joined.sender)
            } else {
                None
            }
        }
        None => None,
    }
}

/// The node on whose frame, as it was sent, a node joins in a slot.
pub(crate) fn joined_from(run: &RunRows, slot: u32, node: u8) -> Option<u8>
    requires slot { slot < run.now.slots }
    requires node { node < length run.now.list.slots }
    ensures value { result ≡ joined_from node (run_slot run.now slot) }
    ensures node { IfSome result (λ p. p < length run.now.list.slots) }
{
    if joins(run, slot, node) {
        sender_as_sent(frame_joined(run, slot, node))
    } else {
        None
    }
}

/// A node's entry of a slot speaks of another.
pub(crate) fn speaks_of(run: &RunRows, slot: u32, node: u8, of: u8) -> bool
    requires slot { slot < run.now.slots }
    requires node { node < length run.now.list.slots }
    ensures { result ≡ speaks_of node of (run_slot run.now slot) }
{
    let row = run.row(slot, node);
    match row.entry {
        Entry::Started | Entry::Joined { .. } => true,
        Entry::Sent { .. } => node == of,
        Entry::Judged {
            sender,
            verdict,
            ..
        } => { sender == of || (verdict == Verdict::Correct && row.begun.ack == Ack::Doubt(of)) }
        _ => false,
    }
}

// A node starts in a slot.
fn starts(run: &RunRows, slot: u32, node: u8) -> bool
    requires slot { slot < run.now.slots }
    requires node { node < length run.now.list.slots }
    ensures { result ≡ is_started (entry_in_slot node (run_slot run.now slot)) }
{
    matches!(run.row(slot, node).entry, Entry::Started)
}

/// The newest entry of a node before a slot that speaks of another. A join speaks for the node on whose frame it was, as
/// this one was sent.
pub(crate) fn said(run: &RunRows, node: u8, of: u8, before: u32) -> Spot
    requires node { node < length run.now.list.slots }
    requires before { before ≤ run.now.slots }
    ensures value { result ≡ said node of (past_slots run.now before) }
    ensures node { result.node < length run.now.list.slots }
{
    let mut who = node;
    let mut at = before;
    while at > 0 {
        at -= 1;
        if speaks_of(run, at, who, of) {
            match joined_from(run, at, who) {
                None => return Spot {
                    slot: at,
                    node: who,
                },
                Some(from) => {
                    if starts(run, at, from) {
                        return Spot {
                            slot: at,
                            node: from,
                        };
                    }
                    who = from;
                }
            }
        }
    }
    Spot { slot: 0, node: who }
}

/// A node's newest start or join before a slot, or that of the node on whose frame it joined.
pub fn root(run: &RunRows, node: u8, before: u32) -> Spot
    requires node { node < length run.now.list.slots }
    requires before { before ≤ run.now.slots }
    ensures value { result ≡ root node (past_slots run.now before) }
    ensures node { result.node < length run.now.list.slots }
{
    let mut who = node;
    let mut at = before;
    while at > 0 {
        at -= 1;
        if is_of(Kind::Stint, &run.row(at, who).entry) {
            match joined_from(run, at, who) {
                None => return Spot {
                    slot: at,
                    node: who,
                },
                Some(from) => {
                    if starts(run, at, from) {
                        return Spot {
                            slot: at,
                            node: from,
                        };
                    }
                    who = from;
                }
            }
        }
    }
    Spot { slot: 0, node: who }
}

/// Adds the root, and all joins on the way to it.
pub(crate) fn add_path(
    run: &RunRows,
    node: u8,
    before: u32,
    out: &mut Sources,
) -> Result<(), Memory>
    requires node { node < length run.now.list.slots }
    requires before { before ≤ run.now.slots }
    ensures { OnOk result (AddsSources out.old out.new (only_entries (path node (past_slots run.now before)))) }
{
    let mut who = node;
    let mut at = before;
    while at > 0 {
        at -= 1;
        if is_of(Kind::Stint, &run.row(at, who).entry) {
            out.add_entry(Spot {
                slot: at,
                node: who,
            })?;
            match joined_from(run, at, who) {
                None => return Ok(()),
                Some(from) => {
                    if starts(run, at, from) {
                        return out.add_entry(Spot {
                            slot: at,
                            node: from,
                        });
                    }
                    who = from;
                }
            }
        }
    }
    Ok(())
}
