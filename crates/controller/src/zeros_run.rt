//! A run of a cluster, slot by slot, in which every frame with payload carries zeros.
//!
//! Clocks, entries and what a run costs do not depend on what frames carry (`laws::runs_are_alike` of frame_fates), so
//! what is seen of them in this run is what is seen in every other one of the script.
ghost use Rattle.std.specs.Prelude.{◌≡◌, ◌+◌, ◌++◌, ◌^◌, ◌<◌, ◌≤◌, ℕ, length, unsigned_abs, IfOk, OnOk};
ghost use Rattle.ttp_world.specs.declared.script.Script.{Script};
ghost use Rattle.ttp_world.specs.Medl.{IsValid};
ghost use Rattle.ttp_world.specs.Script.{IsValidScript};
ghost use Rattle.ttp_world.specs.World.{node_past};
ghost use Rattle.ttp_world.specs.ZerosWorld.{all_zeros, zeros_world};
ghost use Rattle.controller.specs.ZerosRun.{RunStandsAfter};

use crate::plant::Plant;
use std::alloc::Global;
use ttp_base::{List, Memory};
use ttp_world::{Chosen, Medl, Payload, SLOT_LIMIT, Script};

/// A run between two slots.
#[derive(Drop)]
pub struct ZerosRun {
    plant: Plant,
    // Message 0 of each node.
    zeros: List<Chosen>,
}

/// Adds message 0 of each of the list's nodes, which is zeros. `Memory` where that was refused.
pub fn push_zeros(messages: &mut List<Chosen>, list: &Medl) -> Result<(), Memory>
    requires { IsValid list.now }
    ensures { OnOk result (messages.new ≡ messages.old ++ all_zeros list.now) }
{
    for node in 0..list.nodes() {
        let payload = Payload::zeros(list.slots.get(usize::from(node)).payload);
        messages.push(Chosen { number: 0, payload })?;
    }
    Ok(())
}

impl ZerosRun {
    /// The run of a list before its first slot. No other call on a run takes memory; `Memory` where that was
    /// refused.
    pub fn new(alloc: Global, list: &Medl) -> Result<ZerosRun, Memory>
        requires { IsValid list.now }
        ensures { (script : Script) → IfOk result (λ run. RunStandsAfter run list.now script 0) }
    {
        let plant = Plant::new(alloc, list)?;
        let mut zeros = List::new(alloc);
        push_zeros(&mut zeros, list)?;
        Ok(ZerosRun { plant, zeros })
    }

    /// One slot, the first that the run has not done yet.
    pub fn step(&mut self, list: &Medl, script: &Script, slot: u32)
        requires list { IsValid list.now }
        requires script { IsValidScript list.now script.now }
        requires slot { slot < script.now.slots }
        requires stands { RunStandsAfter self.old list.now script.now slot }
        ensures { RunStandsAfter self.new list.now script.now (slot + 1) }
    {
        self.plant.slot(list, script, self.zeros.as_slice());
    }

    /// Makes it a copy of another run of the same list. It takes no memory.
    pub fn copy_from(&mut self, other: &ZerosRun)
        requires list { other.now.plant.list ≡ self.old.plant.list }
        requires zeros { other.now.zeros ≡ self.old.zeros }
        ensures { self.new ≡ other.now }
    {
        self.plant.copy_from(&other.plant);
    }

    /// The cluster after the newest slot.
    pub fn plant(&self) -> &Plant
        ensures { result.now ≡ self.now.plant }
    {
        &self.plant
    }

    /// A node's clock after the newest slot, which is no further from 0 than 2^53 microticks.
    pub fn clock(&self, list: &Medl, node: u8) -> i64
        requires list { self.now.plant.list ≡ list.now }
        requires node { node < length list.now.slots }
        ensures shows { (script : Script) (slots : ℕ) → RunStandsAfter self.now list.now script slots
            → result ≡ (node_past list.now script (zeros_world list.now script slots) node).offset }
        ensures near { (script : Script) (slots : ℕ) → RunStandsAfter self.now list.now script slots
            → slots ≤ SLOT_LIMIT
            → unsigned_abs result ≤ 2 ^ 53 }
    {
        self.plant.node(node).offset
    }
}
