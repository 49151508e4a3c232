//! A slot whose first pass and third pass go over two parts of the nodes, as two threads share them.
ghost use Rattle.std.specs.Prelude.{◌≡◌, ◌<◌, ◌≤◌, ◌+◌, ℕ, List, length, All, IfOk};
ghost use Rattle.ttp_world.specs.declared.node.Chosen.{Chosen as Choice};
ghost use Rattle.ttp_world.specs.declared.script.TheConstants.{SLOT_LIMIT, DRIFT_LIMIT};
ghost use Rattle.ttp_world.specs.Diary.{History};
ghost use Rattle.ttp_world.specs.Medl.{IsValid, plan_at};
ghost use Rattle.ttp_world.specs.Script.{IsValidScript, IsWithinSpan};
ghost use Rattle.ttp_world.specs.World.{slot_after, frames_in};
ghost use Rattle.controller.specs.Limits.{IsBegun, IsPlanned};
ghost use Rattle.controller.specs.Passes.{ArePayloadsBefore, ArePayloadsFor, StandAfter, HaveBegun, HavePlanned};
ghost use Rattle.controller.specs.Passes.{CarriesFrames, HaveEnded};
ghost use Rattle.controller.specs.PlantStands.{plant_of, MayStep, Steps};
ghost use Rattle.controller.specs.PlantWithin.{most_ahead, most_ahead_in, IsEnded, AreSeats, AreIncidents};
ghost use Rattle.controller.specs.PlantWithin.{IsFromWithin};

use super::lists::{bare_nodes, let_go};
use super::plants::{after_of, nothing_for_all, quiet_script};
use controller::{Plant, Seat, begin_all, plan_all, seats_of, take_all};
use medium::Medium;
use std::alloc::Global;
use ttp_base::Memory;
use ttp_world::{Chosen, Medl, Script};

// The first pass over the nodes before `cut`, and then over the others.
#[tactic(auto, using(controller::proofs::Parts::halves))]
fn begin_in_parts(seats: &mut [Seat], list: &Medl, script: &Script, cut: u8, slot: u32)
    requires list { IsValid list.now }
    requires on { length script.now.on ≡ length list.now.slots }
    requires slot { slot ≤ SLOT_LIMIT }
    requires nodes { length seats.old ≡ length list.now.slots }
    requires cut { cut ≤ length list.now.slots }
    requires seats { AreSeats list.now IsEnded (most_ahead slot) 0 seats.old }
    ensures count { length seats.new ≡ length seats.old }
    ensures incidents { AreIncidents script.now slot 0 seats.new }
    ensures seats { AreSeats list.now IsBegun (most_ahead_in slot) 0 seats.new }
    ensures begin { (history : History) → length history ≡ slot → StandAfter script.now history 0 seats.old
        → HaveBegun (slot_after list.now script.now history) 0 seats.new }
    ensures payloads { (chosen : List Choice) → ArePayloadsBefore script.now slot chosen 0 seats.old
        → ArePayloadsFor chosen 0 seats.new }
{
    let (front, back) = seats.split_at_mut(cut as usize);
    begin_all(front, list, script, 0, slot);
    begin_all(back, list, script, cut, slot);
}

// The third pass over the nodes from `cut` on, and then over the others.
#[tactic(auto, using(controller::proofs::Parts::halves))]
fn take_in_parts(seats: &mut [Seat], medium: &Medium, list: &Medl, script: &Script, cut: u8)
    requires list { IsValid list.now }
    requires nodes { length seats.old ≡ length list.now.slots }
    requires cut { cut ≤ length list.now.slots }
    requires drifts { length script.now.drift ≡ length list.now.slots }
    requires drift { All (IsWithinSpan DRIFT_LIMIT) script.now.drift }
    requires slot { medium.now.slot < SLOT_LIMIT }
    requires medium { IsFromWithin medium.now script.now (most_ahead_in medium.now.slot) }
    requires incidents { AreIncidents script.now medium.now.slot 0 seats.old }
    requires seats { AreSeats list.now IsPlanned (most_ahead_in medium.now.slot) 0 seats.old }
    ensures count { length seats.new ≡ length seats.old }
    ensures seats { AreSeats list.now IsEnded (most_ahead (medium.now.slot + 1)) 0 seats.new }
    ensures end { (history : History) (chosen : List Choice)
        → HavePlanned (slot_after list.now script.now history) chosen 0 seats.old
        → CarriesFrames (slot_after list.now script.now history)
        (frames_in (slot_after list.now script.now history) chosen) medium.now
        → HaveEnded list.now script.now history chosen 0 seats.new }
{
    let (front, back) = seats.split_at_mut(cut as usize);
    take_all(back, medium, list, script, cut);
    take_all(front, medium, list, script, 0);
}

// A slot of all nodes, in which two passes go over parts of them.
fn step_in_parts(
    seats: &mut [Seat],
    medium: &mut Medium,
    list: &Medl,
    script: &Script,
    cut: u8,
    slot: u32,
    chosen: &[Chosen],
)
    requires list { IsValid list.now }
    requires script { IsValidScript list.now script.now }
    requires cut { cut ≤ length list.now.slots }
    requires slot { slot < script.now.slots }
    requires nodes { length seats.old ≡ length list.now.slots }
    requires seats { AreSeats list.now IsEnded (most_ahead slot) 0 seats.old }
    requires count { length chosen.now ≡ length list.now.slots }
    requires chosen { MayStep (plant_of list.now slot seats.old medium.old) script.now chosen.now }
    ensures nodes { length seats.new ≡ length seats.old }
    ensures seats { AreSeats list.now IsEnded (most_ahead (slot + 1)) 0 seats.new }
    ensures steps { let old = plant_of list.now slot seats.old medium.old in
        let new = plant_of list.now (slot + 1) seats.new medium.new in
        Steps old new script.now chosen.now }
{
    begin_in_parts(seats, list, script, cut, slot);
    plan_all(seats, medium, list, script, slot, chosen);
    take_in_parts(seats, medium, list, script, cut);
}

// The seats of this list's nodes after so many slots, each of which is taken by the next cut.
fn parts_of(alloc: Global, list: &Medl, script: &Script, slots: u32) -> Result<Vec<Seat>, Memory>
    requires valid { IsValid list.now }
    requires nodes { length list.now.slots ≡ 4 }
    requires bare { (k : ℕ) → (plan_at list.now k).payload ≡ 0 }
    requires script { IsValidScript list.now script.now }
    requires slots { slots ≤ script.now.slots }
    ensures { IfOk result (λ seats. length seats.items ≡ 4) }
{
    let chosen = nothing_for_all();
    let Ok(mut medium) = Medium::new(alloc, list) else {
        return Err(Memory);
    };
    let mut seats = seats_of(alloc, list)?;
    for slot in 0..slots {
        let cut = (slot % 5) as u8;
        step_in_parts(&mut seats, &mut medium, list, script, cut, slot, &chosen);
    }
    Ok(seats)
}

// Whether a plant shows of a node what its seat shows.
fn shows(whole: &Plant, seat: &Seat, k: u8) -> bool
    requires { k < length whole.now.list.slots }
{
    whole.node(k) == seat.controller.state() && whole.status(k) == seat.outcome.status
}

// Whether after so many slots a node is the same both ways.
fn is_same(alloc: Global, slots: u32, k: u8) -> bool
    requires slots { slots ≤ 12 }
    requires k { k < 4 }
{
    let Ok(list) = bare_nodes(alloc) else {
        return false;
    };
    let Ok(script) = quiet_script(alloc) else {
        return false;
    };
    let whole = after_of(alloc, &list, &script, slots);
    let parts = parts_of(alloc, &list, &script, slots);
    let_go(script);
    match (&whole, &parts) {
        (Ok(whole), Ok(parts)) => shows(whole, &parts[k as usize], k),
        _ => false,
    }
}

#[test]
fn a_slot_is_taken_in_parts(rt: HostRuntime) {
    for slots in 0..13u32 {
        for k in 0..4u8 {
            assert!(rt; is_same(rt.alloc(), slots, k));
        }
    }
}

// That a thread may be handed such a value, and may share one.
fn may_cross<T: Send + Sync>(_value: &T) {}

// That the seats and the medium of a cluster may cross to a thread; whether there is memory for them.
fn cross(alloc: Global, list: &Medl) -> bool
    requires { IsValid list.now }
{
    let Ok(seats) = seats_of(alloc, list) else {
        return false;
    };
    may_cross(&seats);
    let Ok(medium) = Medium::new(alloc, list) else {
        return false;
    };
    may_cross(&medium);
    true
}

fn crosses(alloc: Global) -> bool {
    match &bare_nodes(alloc) {
        Ok(list) => cross(alloc, list),
        Err(_) => false,
    }
}

#[test]
fn parts_may_go_to_threads(rt: HostRuntime) {
    assert!(rt; crosses(rt.alloc()));
}
