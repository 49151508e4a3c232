//! The causes of frames that are due, and of answers to a node's own frame.
ghost use Rattle.causes.specs.Judged.{against_sources, correct_cause, denied_cause, doubt_entries, second_channel};
ghost use Rattle.causes.specs.Judged.{or_itself, sees_second, sender_heard, tentative_cause};
ghost use Rattle.causes.specs.LinesOf.{heard_in, spoilt_in};
ghost use Rattle.causes.specs.RunSlots.{RunSlot, doubted_in};
ghost use Rattle.entry_causes.specs.Hearing.{IsHeardInSlot, is_heard_as_sent, signal_heard};
ghost use Rattle.ttp_world.specs.declared.medl.Medl.{Medl};
ghost use Rattle.causes.specs.Said.{said};
ghost use Rattle.causes.specs.Sources.{only_entries};
ghost use Rattle.run_looks.specs.Added.{AddsSources};
ghost use Rattle.run_rows.specs.Rows.{past_slots, run_slot};
ghost use Rattle.std.specs.Prelude.{IfOk, OnOk, [], if◌then◌else◌, length, ◌∷◌, ◌<◌, ◌≡◌, ◌≤◌};

use crate::bus::{Heard, add_spoilt, heard_in};
use crate::places::place_slot;
use crate::said::said;
use crate::view::view_on;
use causes::{Because, Cause, Spot};
use run_looks::{Sources, Verdicts, add_judged_since_own, is_judged_so};
use run_rows::RunRows;
use std::alloc::Global;
use ttp_base::Memory;
use ttp_world::{Ack, Channel, ChannelView};

/// The node about which a node is in doubt as a slot begins.
pub(crate) fn doubted_in(run: &RunRows, slot: u32, node: u8) -> Option<u8>
    requires slot { slot < run.now.slots }
    requires node { node < length run.now.list.slots }
    ensures { result ≡ doubted_in node (run_slot run.now slot) }
{
    match run.row(slot, node).begun.ack {
        Ack::Doubt(doubted) => Some(doubted),
        Ack::Closed | Ack::First => None,
    }
}

// Adds a node's misses since its newest tentative entry before a slot, and this one.
fn add_doubt_entries(run: &RunRows, node: u8, before: u32, out: &mut Sources) -> Result<(), Memory>
    requires node { node < length run.now.list.slots }
    requires before { before ≤ run.now.slots }
    ensures { OnOk result (AddsSources out.old out.new (only_entries (doubt_entries node (past_slots run.now before)))) }
{
    let mut at = before;
    while at > 0 {
        at -= 1;
        let entry = &run.row(at, node).entry;
        if is_judged_so(Verdicts::Tentative, entry) {
            return out.add_entry(Spot { slot: at, node });
        }
        if is_judged_so(Verdicts::Miss, entry) {
            out.add_entry(Spot { slot: at, node })?;
        }
    }
    Ok(())
}

/// The cause of a correct entry.
pub(crate) fn correct_cause(
    alloc: Global,
    run: &RunRows,
    node: u8,
    slot: u32,
) -> Result<Cause, Memory>
    requires node { node < length run.now.list.slots }
    requires slot { slot < run.now.slots }
    ensures { IfOk result (λ cause. cause ≡ correct_cause node (run_slot run.now slot) (past_slots run.now slot)) }
{
    let mut out = Sources::none(alloc);
    match doubted_in(run, slot, node) {
        None => Ok(out.cause_by(Because::DueFrame)),
        Some(lacked) => {
            add_doubt_entries(run, node, slot, &mut out)?;
            Ok(out.cause_by(Because::HoldsOne {
                sender: place_slot(run, slot, node),
                held: node,
                lacked,
            }))
        }
    }
}

fn sees_second(view: ChannelView) -> bool
    ensures { result ≡ sees_second view }
{
    matches!(view, ChannelView::Second)
}

// The channel that brings the frame of the second candidate.
fn second_channel(run: &RunRows, slot: u32, node: u8) -> Channel
    requires slot { slot < run.now.slots }
    requires node { node < length run.now.list.slots }
    ensures { result ≡ second_channel node (run_slot run.now slot) }
{
    if sees_second(view_on(run, slot, node, Channel::A)) {
        Channel::A
    } else {
        Channel::B
    }
}

// The node whose frame is heard; 0, where none is.
fn sender_heard(heard: &Heard) -> u8
    ensures value { result ≡ sender_heard (signal_heard heard.now) }
    ensures node { (list : Medl) → (s : RunSlot) → 0 < length list.slots → IsHeardInSlot list s heard.now → result < length list.slots }
{
    match heard {
        Heard::Silence => 0,
        Heard::Noise => 0,
        Heard::Bits { sender, .. } => *sender,
    }
}

// What is heard came as it was sent.
fn came_as_sent(heard: &Heard) -> bool
    ensures { result ≡ is_heard_as_sent heard.now }
{
    match heard {
        Heard::Silence => true,
        Heard::Noise => true,
        Heard::Bits { is_as_sent, .. } => *is_as_sent,
    }
}

// Adds what a sender said of a node, or what flips made of its frame.
fn add_said(
    run: &RunRows,
    node: u8,
    slot: u32,
    sender: u8,
    is_as_sent: bool,
    out: &mut Sources,
) -> Result<(), Memory>
    requires node { node < length run.now.list.slots }
    requires slot { slot < run.now.slots }
    requires sender { sender < length run.now.list.slots }
    ensures { OnOk result (AddsSources out.old out.new
        (if is_as_sent then only_entries (said sender node (past_slots run.now slot) ∷ []) else spoilt_in node (run_slot run.now slot))) }
{
    if is_as_sent {
        out.add_entry(said(run, sender, node, slot))
    } else {
        add_spoilt(run, slot, node, out)
    }
}

// Adds what the sender of a frame that is heard said of a node, or what flips made of its frame, and tells the sender.
fn add_against(run: &RunRows, node: u8, slot: u32, out: &mut Sources) -> Result<u8, Memory>
    requires node { node < length run.now.list.slots }
    requires slot { slot < run.now.slots }
    ensures { IfOk result (λ sender. (sender ≡ sender_heard (heard_in node (run_slot run.now slot) (second_channel node (run_slot run.now slot))))
        × AddsSources out.old out.new (against_sources node (run_slot run.now slot) (past_slots run.now slot)
        (heard_in node (run_slot run.now slot) (second_channel node (run_slot run.now slot))))) }
{
    let heard = heard_in(run, slot, node, second_channel(run, slot, node));
    let sender = sender_heard(&heard);
    add_said(run, node, slot, sender, came_as_sent(&heard), out)?;
    Ok(sender)
}

/// The cause of a tentative entry.
pub(crate) fn tentative_cause(
    alloc: Global,
    run: &RunRows,
    node: u8,
    slot: u32,
) -> Result<Cause, Memory>
    requires node { node < length run.now.list.slots }
    requires slot { slot < run.now.slots }
    ensures { IfOk result (λ cause. cause ≡ tentative_cause node (run_slot run.now slot) (past_slots run.now slot)) }
{
    let mut out = Sources::none(alloc);
    let sender = add_against(run, node, slot, &mut out)?;
    add_judged_since_own(run, Verdicts::Miss, node, slot, &mut out)?;
    Ok(out.cause_by(Because::HoldsNot {
        sender,
        lacked: node,
    }))
}

// The node that a node doubts, or else the node itself.
fn doubted_or_itself(run: &RunRows, slot: u32, node: u8) -> u8
    requires slot { slot < run.now.slots }
    requires node { node < length run.now.list.slots }
    ensures { result ≡ or_itself node (doubted_in node (run_slot run.now slot)) }
{
    match doubted_in(run, slot, node) {
        Some(doubted) => doubted,
        None => node,
    }
}

/// The cause of a denial.
pub(crate) fn denied_cause(
    alloc: Global,
    run: &RunRows,
    node: u8,
    slot: u32,
) -> Result<Cause, Memory>
    requires node { node < length run.now.list.slots }
    requires slot { slot < run.now.slots }
    ensures { IfOk result (λ cause. cause ≡ denied_cause node (run_slot run.now slot) (past_slots run.now slot)) }
{
    let mut out = Sources::none(alloc);
    let sender = add_against(run, node, slot, &mut out)?;
    add_doubt_entries(run, node, slot, &mut out)?;
    Ok(out.cause_by(Because::HoldsOne {
        sender,
        held: doubted_or_itself(run, slot, node),
        lacked: node,
    }))
}
