//! A place of a list's cycle.
ghost use Rattle.std.specs.Prelude.{◌≡◌, ◌+◌, ◌<◌, ◌↔◌, IsTrue, length};
ghost use Rattle.ttp_world.specs.Diary.{joined_place, cstate_at};
ghost use Rattle.ttp_world.specs.Medl.{IsValid};
ghost use Rattle.node_parts.specs.ClockStandsFor.{ClockStandsFor, StandsAtNext};

use std::marker::Model;
use ttp_base::NodeSet;
use ttp_world::{CState, Medl};

/// A place of a list's cycle: a time in slots, a round and a slot.
///
/// Contracts see it as the place, and the list's numbers of rounds and of slots. A copy goes on by
/// itself.
#[derive(Clone, Copy)]
pub struct SlotClock {
    time: u16,
    round: u8,
    slot: u8,
    // How many rounds a cycle has, and how many slots a round.
    rounds: u8,
    slots: u8,
}

impl Model for SlotClock {
    ghost use Rattle.std.specs.Prelude.{◌<◌, ◌≤◌};
    ghost use Rattle.node_parts.specs.PlaceInCycle.{PlaceInCycle};

    ghost Value = { PlaceInCycle };

    ghost view = { λ c. record {
      place = record { time = c.time; round = c.round; slot = c.slot };
      rounds = c.rounds;
      slots = c.slots;
    } };

    ghost invariant = { λ c. (c.round < c.rounds) × (c.rounds ≤ 64) × (c.slot < c.slots) × (c.slots ≤ 24) };

    ghost inverse = { λ v. record {
      time = v.place.time;
      round = v.place.round;
      slot = v.place.slot;
      rounds = v.rounds;
      slots = v.slots;
    } };
}

impl SlotClock {
    /// The clock at the place of a C-state.
    pub fn at(list: &Medl, cstate: &CState) -> SlotClock
        requires valid { IsValid list.now }
        requires round { cstate.now.round < list.now.rounds }
        requires slot { cstate.now.slot < length list.now.slots }
        ensures { ClockStandsFor result list.now (joined_place cstate.now) }
    {
        SlotClock {
            time: cstate.time,
            round: cstate.round,
            slot: cstate.slot,
            rounds: list.rounds,
            slots: list.nodes(),
        }
    }

    /// Goes on by one slot: after the last slot of a round to the next round, and after the last round
    /// to the first.
    pub fn next(&mut self)
        ensures { StandsAtNext self.old self.new }
    {
        self.time = self.time.wrapping_add(1);
        if self.slot + 1 == self.slots {
            self.slot = 0;
            self.round = (self.round + 1) % self.rounds;
        } else {
            self.slot += 1;
        }
    }

    /// Whether this is the slot of a node, which may be any number.
    pub fn is_slot_of(&self, node: u8) -> bool
        ensures { IsTrue result ↔ (node ≡ self.now.place.slot) }
    {
        node == self.slot
    }

    /// The node that sends in this slot.
    pub fn sender(&self) -> u8
        ensures value { result ≡ self.now.place.slot }
        ensures exists { result < self.now.slots }
    {
        self.slot
    }

    /// The round of the cluster cycle.
    pub fn round(&self) -> u8
        ensures value { result ≡ self.now.place.round }
        ensures exists { result < self.now.rounds }
    {
        self.round
    }

    /// Whether this is the last slot of a round.
    pub fn ends_round(&self) -> bool
        ensures { IsTrue result ↔ (self.now.place.slot + 1 ≡ self.now.slots) }
    {
        self.slot + 1 == self.slots
    }

    /// The C-state of this place with some members.
    pub fn cstate(&self, members: NodeSet) -> CState
        ensures { result ≡ cstate_at self.now.place members }
    {
        CState {
            time: self.time,
            round: self.round,
            slot: self.slot,
            members,
        }
    }
}
