//! The places of a cycle of two rounds of four slots, one after the other, worked out by hand.
ghost use Rattle.std.specs.Prelude.{◌≡◌, length, IfOk};
ghost use Rattle.ttp_world.specs.Medl.{IsValid};

use super::lists::add_slot;
use node_parts::slot_clock::SlotClock;
use std::alloc::Global;
use ttp_base::{List, Memory, NodeSet};
use ttp_world::{CState, Kind, Medl};

// The kinds of a node's frames in the two rounds.
const KINDS: &[Kind] = &[Kind::I, Kind::I];

// Four nodes and two rounds.
fn four_nodes(alloc: Global) -> Result<Medl, Memory>
    ensures valid { IfOk result IsValid }
    ensures rounds { IfOk result (λ list. list.rounds ≡ 2) }
    ensures slots { IfOk result (λ list. length list.slots ≡ 4) }
{
    let Ok(slots) = add_slot(alloc, List::new(alloc), KINDS, 0, true) else {
        return Err(Memory);
    };
    let Ok(slots) = add_slot(alloc, slots, KINDS, 0, true) else {
        return Err(Memory);
    };
    let Ok(slots) = add_slot(alloc, slots, KINDS, 0, true) else {
        return Err(Memory);
    };
    let Ok(slots) = add_slot(alloc, slots, KINDS, 0, true) else {
        return Err(Memory);
    };
    Ok(Medl {
        version: 1,
        rounds: 2,
        schedule: 0,
        buffers: 2,
        drift: 0,
        error: 0,
        window: 1,
        modes: 1,
        slots,
    })
}

// The time, round and slot of each place, and whether it ends a round.
const PLACES: &[(u16, u8, u8, bool)] = &[
    (65534, 0, 2, false),
    (65535, 0, 3, true),
    (0, 1, 0, false),
    (1, 1, 1, false),
    (2, 1, 2, false),
    (3, 1, 3, true),
    (4, 0, 0, false),
];

// Whether a clock stands at a place.
fn stands_at(clock: &SlotClock, members: NodeSet, place: &(u16, u8, u8, bool)) -> bool {
    let (time, round, slot, last) = *place;
    let cstate = clock.cstate(members);
    let is_state = cstate.time == time
        && cstate.round == round
        && cstate.slot == slot
        && cstate.members == members;
    is_state && is_at(clock, round, slot) && clock.ends_round() == last
}

fn is_at(clock: &SlotClock, round: u8, slot: u8) -> bool {
    clock.round() == round
        && clock.sender() == slot
        && clock.is_slot_of(slot)
        && !clock.is_slot_of(200)
}

fn follows(clock: &mut SlotClock, members: NodeSet) -> bool {
    for place in PLACES {
        if !stands_at(clock, members, place) {
            return false;
        }
        clock.next();
    }
    true
}

// Whether the places of a list follow one another.
fn follow_in(list: &Medl) -> bool
    requires valid { IsValid list.now }
    requires rounds { list.now.rounds ≡ 2 }
    requires slots { length list.now.slots ≡ 4 }
{
    let members = NodeSet::empty().with(1).with(3);
    let place = CState {
        time: 65534,
        round: 0,
        slot: 2,
        members,
    };
    follows(&mut SlotClock::at(list, &place), members)
}

fn follow_in_list(alloc: Global) -> bool {
    match &four_nodes(alloc) {
        Ok(list) => follow_in(list),
        Err(_) => false,
    }
}

#[test]
fn places_follow_one_another(rt: HostRuntime) {
    assert!(rt; follow_in_list(rt.alloc()));
}
