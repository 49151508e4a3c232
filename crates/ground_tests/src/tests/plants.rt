//! A cold start of four nodes, worked out by hand.
ghost use Rattle.std.specs.Prelude.{◌≡◌, ◌<◌, ◌≤◌, ℕ, [], All, Some, length, pos, replicate, IfOk};
ghost use Rattle.ttp_world.specs.Medl.{IsValid, plan_at};
ghost use Rattle.ttp_world.specs.Script.{IsValidScript};

use super::lists::{bare_nodes, let_go};
use controller::{Controller, Plant, is_loaded, laws};
use medium::Arrival;
use std::alloc::Global;
use ttp_base::{List, Memory};
use ttp_world::{Ack, Channel, Chosen, Entry, Events, Medl, Payload, Phase, Script, Verdict};

/// All four nodes are switched on in the first slot, and nothing else happens.
pub(super) fn quiet_script(alloc: Global) -> Result<Script, Memory>
    ensures slots { IfOk result (λ script. script.slots ≡ 12) }
    ensures on { IfOk result (λ script. script.on ≡ replicate 4 (Some 0)) }
    ensures drift { IfOk result (λ script. script.drift ≡ replicate 4 (pos 0)) }
    ensures events { IfOk result (λ script. script.events ≡ []) }
{
    let Ok(on) = vec![in alloc; Some(0u32); 4] else {
        return Err(Memory);
    };
    let Ok(drift) = vec![in alloc; 0i64; 4] else {
        return Err(Memory);
    };
    Ok(Script {
        slots: 12,
        on: List::from_vec(on),
        drift: List::from_vec(drift),
        events: Events::none(alloc),
    })
}

// Nothing for a node to send.
fn nothing() -> Chosen
    ensures { result.payload ≡ [] }
{
    Chosen {
        number: 0,
        payload: Payload {
            len: 0,
            bytes: [0; 240],
        },
    }
}

/// Nothing for each of four nodes.
pub(super) fn nothing_for_all() -> [Chosen; 4]
    ensures { All (λ message. message.payload ≡ []) result }
{
    [nothing(), nothing(), nothing(), nothing()]
}

/// The plant of this list after so many slots in which no node has anything to send.
pub(super) fn after_of(
    alloc: Global,
    list: &Medl,
    script: &Script,
    slots: u32,
) -> Result<Plant, Memory>
    requires valid { IsValid list.now }
    requires nodes { length list.now.slots ≡ 4 }
    requires bare { (k : ℕ) → (plan_at list.now k).payload ≡ 0 }
    requires script { IsValidScript list.now script.now }
    requires slots { slots ≤ script.now.slots }
    ensures { IfOk result (λ plant. length plant.list.slots ≡ 4) }
{
    let chosen = nothing_for_all();
    let mut plant = Plant::new(alloc, list)?;
    for _ in 0..slots {
        plant.slot(list, script, &chosen);
    }
    Ok(plant)
}

// The cluster after so many slots.
fn after(alloc: Global, slots: u32) -> Result<Plant, Memory>
    requires { slots ≤ 12 }
    ensures { IfOk result (λ plant. length plant.list.slots ≡ 4) }
{
    let Ok(list) = bare_nodes(alloc) else {
        return Err(Memory);
    };
    let Ok(script) = quiet_script(alloc) else {
        return Err(Memory);
    };
    let plant = after_of(alloc, &list, &script, slots);
    let_go(script);
    plant
}

// Whether a plant shows what it shows before the first slot.
fn is_unused(plant: &Plant) -> bool
    requires { length plant.now.list.slots ≡ 4 }
{
    plant.node(0).phase == Phase::Off
        && plant.delivered(1).is_none()
        && plant.status(3).words == [0, 0, 0, 0]
}

// Whether a plant shows of node 2 what another shows, of which nothing was delivered.
fn is_like(copy: &Plant, plant: &Plant) -> bool
    requires copy { length copy.now.list.slots ≡ 4 }
    requires plant { length plant.now.list.slots ≡ 4 }
{
    copy.node(2) == plant.node(2) && copy.delivered(2).is_none()
}

// Whether the frame of node 0's new controller carries no message.
fn is_quiet(alloc: Global, list: &Medl) -> bool
    requires { IsValid list.now }
{
    match &Controller::new(alloc, list, 0) {
        Ok(node) => !is_loaded(node),
        Err(_) => false,
    }
}

// Whether a plant shows nothing, and a copy of it the same.
fn copies(alloc: Global, list: &Medl) -> bool
    requires valid { IsValid list.now }
    requires slots { length list.now.slots ≡ 4 }
{
    let Ok(plant) = Plant::new(alloc, list) else {
        return false;
    };
    let Ok(mut copy) = Plant::new(alloc, list) else {
        return false;
    };
    copy.copy_from(&plant);
    is_unused(&plant) && is_like(&copy, &plant)
}

// Whether node 2's clock stands at 0 after so many slots.
fn stands_at_0(alloc: Global, slots: u32) -> bool
    requires { slots ≤ 12 }
{
    match &after(alloc, slots) {
        Ok(plant) => plant.node(2).offset == 0,
        Err(_) => false,
    }
}

// Whether node 0 heard the first frame of node 1, and holds itself and node 1 for answered.
fn is_answered(plant: &Plant) -> bool
    requires { length plant.now.list.slots ≡ 4 }
{
    let first = plant.node(0);
    let entry = Entry::Judged {
        sender: 1,
        verdict: Verdict::Correct,
        deviation: 0,
    };
    first.entry == entry && first.ack == Ack::Closed && first.accepted == 2
}

// Whether node 1 sent a frame that carries no message.
fn is_sent(plant: &Plant) -> bool
    requires { length plant.now.list.slots ≡ 4 }
{
    plant.node(1).entry == Entry::Sent { message: None } && plant.delivered(0).is_none()
}

// Whether the status words of nodes 0 and 1 tell of that slot.
fn is_told(plant: &Plant) -> bool
    requires { length plant.now.list.slots ≡ 4 }
{
    plant.status(0).words == [9, 1, 0x0001_0001_0003, 512]
        && plant.status(1).words == [9, 41, 0x0001_0001_0003, 256]
}

// Whether its frame lies on both channels: header, C-state and check word.
fn is_carried(plant: &Plant) -> bool {
    let a = plant.carried(Channel::A);
    let b = plant.carried(Channel::B);
    matches!(a, Arrival::Bits { bytes, offset: 0 } if bytes.len() == 10)
        && matches!(b, Arrival::Bits { bytes, offset: 0 } if bytes.len() == 10)
}

// Whether a controller and a plant of the cluster begin so, before the first slot.
fn begins(alloc: Global) -> bool {
    match &bare_nodes(alloc) {
        Ok(list) => is_quiet(alloc, list) && copies(alloc, list),
        Err(_) => false,
    }
}

// Whether the tenth slot was the first one after the start.
fn has_started(alloc: Global) -> bool {
    match &after(alloc, 10) {
        Ok(plant) => is_answered(plant) && is_sent(plant) && is_carried(plant) && is_told(plant),
        Err(_) => false,
    }
}

#[test]
fn a_cluster_starts(rt: HostRuntime) {
    let alloc = rt.alloc();
    laws::plants_of_scripts_that_agree();
    // Node 0 waits for two rounds, then starts, and node 1 sends the first frame after it.
    for slots in 1..10u32 {
        assert!(rt; stands_at_0(alloc, slots));
    }
    assert!(rt; begins(alloc) && has_started(alloc));
}
