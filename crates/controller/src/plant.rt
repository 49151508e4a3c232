//! A plant: all nodes of a cluster and the medium between them, slot by slot.
//!
//! A slot is the three passes over all its seats.
ghost use Rattle.std.specs.Prelude.{◌≡◌, ◌<◌, ◌≤◌, ◌+◌, [], length, slice_get, unsigned_abs, IfOk};
ghost use Rattle.std.specs.Option.{option_copied};
ghost use Rattle.ttp_world.specs.declared.script.Script.{Script};
ghost use Rattle.ttp_world.specs.Medl.{IsValid};
ghost use Rattle.ttp_world.specs.Script.{IsValidScript};
ghost use Rattle.controller.specs.PlantStands.{PlantStandsFor, plant_of, MayStep, Steps};
ghost use Rattle.medium.specs.StandsFor.{ShowsCarried};
ghost use Rattle.controller.specs.PlantStands.{ShowsNode, outcome_at, outcomes_of, no_outcomes};
ghost use Rattle.controller.specs.PlantWithin.{IsEnded, IsControllerOf, AreSeats, most_ahead};

use crate::passes::{begin_all, plan_all, take_all};
use crate::seat::{Seat, copy_seats, seats_of};
use medium::{Arrival, Medium};
use std::alloc::Global;
use std::marker::Model;
use std::snapshot::Snapshot;
use ttp_base::Memory;
use ttp_world::{Channel, Chosen, Delivered, Medl, NodeState, Script, StatusWords};

/// The whole cluster, stepped on one thread.
///
/// It *stands for* a history of the cluster under a script: each controller stands for its node's
/// diary. A slot takes it to that history with one row more, which is the world's.
#[derive(Drop)]
pub struct Plant {
    // The list that it was made with. Proofs alone read it, and it takes no bytes.
    given: Snapshot<Medl>,
    // How many slots there were.
    slot: u32,
    medium: Medium,
    seats: Vec<Seat>,
}

impl Model for Plant {
    ghost use Rattle.controller.specs.PlantView.{PlantView};
    ghost use Rattle.controller.specs.PlantWithin.{IsPlantWithin};

    ghost Value = { PlantView };

    ghost use Rattle.controller.specs.PlantStands.{plant_of};

    ghost view = { λ p. plant_of p.given.value p.slot p.seats.items p.medium };

    ghost invariant = { λ p. IsPlantWithin p.given.value p.slot p.seats.items };
}

// A slot of all nodes: the three passes, one after another.
fn step(
    seats: &mut [Seat],
    medium: &mut Medium,
    list: &Medl,
    script: &Script,
    slot: u32,
    chosen: &[Chosen],
)
    requires list { IsValid list.now }
    requires script { IsValidScript list.now script.now }
    requires slot { slot < script.now.slots }
    requires nodes { length seats.old ≡ length list.now.slots }
    requires seats { AreSeats list.now IsEnded (most_ahead slot) 0 seats.old }
    requires count { length chosen.now ≡ length list.now.slots }
    requires chosen { MayStep (plant_of list.now slot seats.old medium.old) script.now chosen.now }
    ensures nodes { length seats.new ≡ length seats.old }
    ensures seats { AreSeats list.now IsEnded (most_ahead (slot + 1)) 0 seats.new }
    ensures steps { let old = plant_of list.now slot seats.old medium.old in
        let new = plant_of list.now (slot + 1) seats.new medium.new in
        Steps old new script.now chosen.now }
{
    begin_all(seats, list, script, 0, slot);
    plan_all(seats, medium, list, script, slot, chosen);
    take_all(seats, medium, list, script, 0);
}

impl Plant {
    /// The cluster of a list before the first slot: each node is off, and nothing is left for any
    /// host. Only this call takes memory; `Memory` where that was refused.
    pub fn new(alloc: Global, list: &Medl) -> Result<Plant, Memory>
        requires { IsValid list.now }
        ensures list { IfOk result (λ plant. plant.list ≡ list.now) }
        ensures stands { (script : Script) → IfOk result (λ plant. PlantStandsFor plant script []) }
        ensures outcomes { IfOk result (λ plant. outcomes_of plant.seats ≡ no_outcomes list.now) }
    {
        Ok(Plant {
            given: Snapshot::of(list),
            slot: 0,
            medium: Medium::new(alloc, list)?,
            seats: seats_of(alloc, list)?,
        })
    }

    /// Takes the cluster through one slot. Each node whose frame carries a message in it sends the one
    /// that is chosen for it, which is to have as much payload as the list gives the node; what is
    /// there for the others is not read. It takes no memory.
    pub fn slot(&mut self, list: &Medl, script: &Script, chosen: &[Chosen])
        requires list { list.now ≡ self.old.list }
        requires script { IsValidScript list.now script.now }
        requires slot { self.old.slot < script.now.slots }
        requires count { length chosen.now ≡ length list.now.slots }
        requires chosen { MayStep self.old script.now chosen.now }
        ensures list { self.new.list ≡ self.old.list }
        ensures slot { self.new.slot ≡ self.old.slot + 1 }
        ensures steps { Steps self.old self.new script.now chosen.now }
    {
        step(
            &mut self.seats,
            &mut self.medium,
            list,
            script,
            self.slot,
            chosen,
        );
        self.slot += 1;
    }

    /// Makes it a copy of another plant of the same list, which stands for what that one stands for. So a
    /// run may be taken to a slot once, and from there on by many scripts. It takes no memory.
    pub fn copy_from(&mut self, other: &Plant)
        requires { other.now.list ≡ self.old.list }
        ensures { self.new ≡ other.now }
    {
        copy_seats(&mut self.seats, &other.seats);
        self.medium.copy_from(&other.medium);
        self.slot = other.slot;
    }

    fn seat(&self, k: u8) -> &Seat
        requires { k < length self.now.list.slots }
        ensures there { slice_get self.now.seats k ≡ Some result.now }
        ensures is { IsControllerOf self.now.list IsEnded (most_ahead self.now.slot) k result.now.controller }
    {
        &self.seats[k as usize]
    }

    /// What is shown of a node after the newest slot. Its clock is no further from 0 than the slots so
    /// far can have taken it.
    pub fn node(&self, k: u8) -> NodeState
        requires { k < length self.now.list.slots }
        ensures shows { ShowsNode self.now k result }
        ensures near { unsigned_abs result.offset ≤ most_ahead self.now.slot }
    {
        self.seat(k).controller.state()
    }

    /// What a node delivered in the newest slot, if it delivered.
    #[tactic(auto, using(crate::proofs::Plants::outcome_there))]
    pub fn delivered(&self, k: u8) -> Option<&Delivered>
        requires { k < length self.now.list.slots }
        ensures { option_copied result ≡ (outcome_at self.now k).delivered }
    {
        self.seat(k).outcome.delivered.as_ref()
    }

    /// What the newest slot carried on a channel, for a receiver without faults: the bytes of a frame are lent as they
    /// lie there.
    pub fn carried(&self, channel: Channel) -> Arrival<'_>
        ensures { ShowsCarried self.now.carried channel result }
    {
        self.medium.carried(channel)
    }

    /// The status of a node after the newest slot, zeros before the first.
    #[tactic(auto, using(crate::proofs::Plants::outcome_there))]
    pub fn status(&self, k: u8) -> StatusWords
        requires { k < length self.now.list.slots }
        ensures { result ≡ (outcome_at self.now k).status }
    {
        self.seat(k).outcome.status
    }
}
