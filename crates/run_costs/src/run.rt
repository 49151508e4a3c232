//! A run of a cluster in which every frame with payload carries zeros, with what is shown of its nodes.
ghost use Rattle.std.specs.Prelude.{◌≡◌, ◌+◌, ◌<◌, ◌≤◌, ℕ, length, IfOk};
ghost use Rattle.ttp_world.specs.declared.medl.Medl.{Medl};
ghost use Rattle.ttp_world.specs.declared.script.Script.{Script};
ghost use Rattle.ttp_world.specs.Medl.{IsValid};
ghost use Rattle.ttp_world.specs.Script.{IsValidScript};
ghost use Rattle.ttp_world.specs.ZerosWorld.{zeros_world};
ghost use Rattle.run_costs.specs.States.{AreShown};
ghost use Rattle.run_costs.specs.Standing.{AreOfPlant, IsRunAfter};

use controller::{Plant, ZerosRun};
use std::alloc::Global;
use ttp_base::{Memory, NodeSet};
use ttp_world::{Ack, Entry, Medl, NodeState, Phase, Script};

/// A run between two slots.
#[derive(Drop)]
pub struct Run {
    cluster: ZerosRun,
    // What is shown of each node after the newest slot.
    states: [NodeState; 24],
}

// What is shown of a node that is off.
fn off() -> NodeState {
    NodeState {
        phase: Phase::Off,
        entry: Entry::Off,
        members: NodeSet::empty(),
        accepted: 0,
        rejected: 0,
        ack: Ack::Closed,
        offset: 0,
    }
}

// Takes down what is shown of each node of a plant.
fn note_states(plant: &Plant, nodes: u8, states: &mut [NodeState; 24])
    requires nodes { nodes ≡ length plant.now.list.slots }
    requires few { nodes ≤ 24 }
    ensures { AreOfPlant plant.now nodes states.new }
{
    for node in 0..nodes {
        states[usize::from(node)] = plant.node(node);
    }
}

// Takes over what is shown of the nodes of another run.
fn copy_states(to: &mut [NodeState; 24], from: &[NodeState; 24])
    ensures { to.new ≡ from.now }
{
    to.copy_from_slice(from);
}

impl Run {
    /// The run of a list before its first slot. Only this call takes memory.
    pub fn new(alloc: Global, list: &Medl) -> Result<Run, Memory>
        requires { IsValid list.now }
        ensures { (script : Script) → IfOk result (λ run. IsRunAfter run list.now script 0) }
    {
        Ok(Run {
            cluster: ZerosRun::new(alloc, list)?,
            states: [off(); 24],
        })
    }

    /// One slot, the first that the run has not done yet.
    pub fn step(&mut self, list: &Medl, script: &Script, slot: u32)
        requires list { IsValid list.now }
        requires script { IsValidScript list.now script.now }
        requires slot { slot < script.now.slots }
        requires stands { IsRunAfter self.old list.now script.now slot }
        ensures { IsRunAfter self.new list.now script.now (slot + 1) }
    {
        self.cluster.step(list, script, slot);
        note_states(self.cluster.plant(), list.nodes(), &mut self.states);
    }

    /// Makes it a copy of another run of the same list. It takes no memory.
    pub fn copy_from(&mut self, other: &Run)
        requires list { other.now.cluster.plant.list ≡ self.old.cluster.plant.list }
        requires zeros { other.now.cluster.zeros ≡ self.old.cluster.zeros }
        ensures { self.new ≡ other.now }
    {
        self.cluster.copy_from(&other.cluster);
        copy_states(&mut self.states, &other.states);
    }

    /// What is shown of each node after the newest slot, in the order of the nodes.
    pub fn states(&self, list: &Medl) -> &[NodeState]
        requires valid { IsValid list.now }
        ensures { (script : Script) (slots : ℕ) → IsRunAfter self.now list.now script slots → 0 < slots
            → AreShown list.now script (zeros_world list.now script slots) result.now }
    {
        &self.states[..usize::from(list.nodes())]
    }
}
