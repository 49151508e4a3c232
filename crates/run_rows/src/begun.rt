//! What nodes are as a slot begins.
ghost use Rattle.std.specs.Prelude.{◌≡◌, ◌<◌, ◌≤◌, ◌&&◌, length, not, unsigned_abs};
ghost use Rattle.ttp_world.specs.declared.script.TheConstants.{SLOT_LIMIT};
ghost use Rattle.ttp_world.specs.Medl.{IsValid};
ghost use Rattle.ttp_world.specs.Messages.{has_averaged};
ghost use Rattle.ttp_world.specs.Past.{NodePast, state_of};
ghost use Rattle.ttp_world.specs.Script.{IsValidScript, is_on};
ghost use Rattle.ttp_world.specs.World.{begun_node};
ghost use Rattle.controller.specs.Limits.{most_clock};
ghost use Rattle.controller.specs.PlantWithin.{most_ahead};
ghost use Rattle.run_costs.specs.Standing.{IsRunAfter};
ghost use Rattle.run_costs.specs.States.{off_state};
ghost use Rattle.run_rows.specs.Begun.{AreBegun, begun_shown, is_off_phase};
ghost use Rattle.run_rows.specs.Kept.{AreKeptOf, kept_of};

use crate::row::{Kept, NodeBegun};
use run_costs::Run;
use ttp_base::NodeSet;
use ttp_world::{Ack, CState, Entry, Medl, NodeState, Phase, Script};

fn is_off(phase: Phase) -> bool
    ensures { result ≡ is_off_phase phase }
{
    matches!(phase, Phase::Off)
}

// A node that was in this phase stays off in a slot.
fn stays_off(list: &Medl, script: &Script, slot: u32, node: u8, phase: Phase) -> bool
    requires script { IsValidScript list.now script.now }
    requires node { node < length list.now.slots }
    ensures { result ≡ (is_off_phase phase && not (is_on script.now node slot)) }
{
    is_off(phase) && !script.is_on(node, slot)
}

// The clock of a node in a slot, with the slot's jumps, by its phase and its clock before.
fn clock_in(list: &Medl, script: &Script, slot: u32, node: u8, phase: Phase, offset: i64) -> i64
    requires script { IsValidScript list.now script.now }
    requires slot { slot ≤ SLOT_LIMIT }
    requires node { node < length list.now.slots }
    requires near { unsigned_abs offset ≤ most_ahead slot }
    ensures value { (past : NodePast) → past.phase ≡ phase → past.offset ≡ offset
        → result ≡ (begun_node list.now script.now slot past node).clock }
    ensures near { unsigned_abs result ≤ most_clock }
{
    if stays_off(list, script, slot, node, phase) {
        offset
    } else {
        offset + script.incidents(node, slot).jump
    }
}

// Four deviations were averaged at the end of the newest slot.
fn has_averaged(list: &Medl, phase: Phase, kept: &Kept) -> bool
    requires { IsValid list.now }
    ensures { (past : NodePast) → past.phase ≡ phase → kept.now ≡ kept_of past → result ≡ has_averaged list.now past }
{
    let ends_round = u16::from(kept.place.slot) + 1 == u16::from(list.nodes());
    matches!(phase, Phase::Active) && ends_round && kept.notes == 4
}

// What a node is as a slot begins, by what is shown and kept of it.
fn begun_by(
    list: &Medl,
    script: &Script,
    slot: u32,
    node: u8,
    state: &NodeState,
    kept: &Kept,
) -> NodeBegun
    requires valid { IsValid list.now }
    requires script { IsValidScript list.now script.now }
    requires slot { slot ≤ SLOT_LIMIT }
    requires node { node < length list.now.slots }
    requires near { unsigned_abs state.now.offset ≤ most_ahead slot }
    ensures value { (past : NodePast) → state.now ≡ state_of past → kept.now ≡ kept_of past
        → result ≡ begun_shown list.now (begun_node list.now script.now slot past node) }
    ensures near { unsigned_abs result.clock ≤ most_clock }
{
    let CState {
        time,
        round,
        slot: at,
        ..
    } = kept.place;
    NodeBegun {
        cstate: CState {
            time,
            round,
            slot: at,
            members: state.members,
        },
        accepted: state.accepted,
        rejected: state.rejected,
        ack: state.ack,
        limit: kept.limit,
        has_averaged: has_averaged(list, state.phase, kept),
        clock: clock_in(list, script, slot, node, state.phase, state.offset),
    }
}

// What is shown of a node before slot 0.
fn off() -> NodeState
    ensures { result ≡ off_state }
{
    NodeState {
        phase: Phase::Off,
        entry: Entry::Off,
        members: NodeSet::empty(),
        accepted: 0,
        rejected: 0,
        ack: Ack::Closed,
        offset: 0,
    }
}

// What stands in the places behind the last node.
fn nothing_begun() -> NodeBegun {
    NodeBegun {
        cstate: CState {
            time: 0,
            round: 0,
            slot: 0,
            members: NodeSet::empty(),
        },
        accepted: 0,
        rejected: 0,
        ack: Ack::Closed,
        limit: 0,
        has_averaged: false,
        clock: 0,
    }
}

/// What all nodes are as slot 0 begins.
pub(crate) fn first_begun(list: &Medl, script: &Script, kept: &[Kept; 24]) -> [NodeBegun; 24]
    requires list { IsValid list.now }
    requires script { IsValidScript list.now script.now }
    requires kept { AreKeptOf list.now script.now 0 (length list.now.slots) kept.now }
    ensures { AreBegun list.now script.now 0 (length list.now.slots) result }
{
    let mut begun = [nothing_begun(); 24];
    for node in 0..list.nodes() {
        let at = usize::from(node);
        begun[at] = begun_by(list, script, 0, node, &off(), &kept[at]);
    }
    begun
}

/// What all nodes are as a later slot begins, which a run has not done yet.
pub(crate) fn all_begun(
    list: &Medl,
    script: &Script,
    slot: u32,
    run: &Run,
    kept: &[Kept; 24],
) -> [NodeBegun; 24]
    requires list { IsValid list.now }
    requires script { IsValidScript list.now script.now }
    requires later { 0 < slot }
    requires slot { slot ≤ SLOT_LIMIT }
    requires run { IsRunAfter run.now list.now script.now slot }
    requires kept { AreKeptOf list.now script.now slot (length list.now.slots) kept.now }
    ensures { AreBegun list.now script.now slot (length list.now.slots) result }
{
    let states = run.states(list);
    let mut begun = [nothing_begun(); 24];
    for node in 0..list.nodes() {
        let at = usize::from(node);
        begun[at] = begun_by(list, script, slot, node, &states[at], &kept[at]);
    }
    begun
}
