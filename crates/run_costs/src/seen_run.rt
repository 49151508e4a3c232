//! A run, and what was seen of it so far; and how it goes on by a script with one event more.
ghost use Rattle.std.specs.Prelude.{◌≡◌, ◌+◌, ◌<◌, ◌≤◌, ℕ, Bool, true, length, map, IfOk};
ghost use Rattle.ttp_base.specs.NodeSet.{has_node};
ghost use Rattle.ttp_world.specs.declared.script.Script.{Script};
ghost use Rattle.ttp_world.specs.Medl.{IsValid};
ghost use Rattle.ttp_world.specs.Script.{IsValidScript};
ghost use Rattle.campaign.specs.Cost.{cost_of, leaves, memberships, has_two};
ghost use Rattle.campaign.specs.Tried.{with_fault};
ghost use Rattle.ttp_world.specs.ZerosWorld.{zeros_world};
ghost use Rattle.run_costs.specs.Later.{comes_later};
ghost use Rattle.run_costs.specs.States.{AreShown};
ghost use Rattle.run_costs.specs.Standing.{IsRunAfter, IsRunOfList, IsSeenAfter};
ghost use Rattle.run_costs.specs.Told.{AreSound};

use crate::run::Run;
use crate::seen_costs::{SeenCost, are_split};
use campaign::Cost;
use controller::laws::plants_of_scripts_that_agree;
use std::alloc::Global;
use ttp_base::{Memory, NodeSet};
use ttp_world::{Event, Medl, NodeState, Script};

/// A run between two slots, and what was seen of it.
#[derive(Drop)]
pub struct SeenRun {
    run: Run,
    seen: SeenCost,
    // How many slots it has done.
    pub(crate) slots: u32,
}

/// Whether an event begins in a slot or later, and is one that a campaign tries.
pub(crate) fn is_later_fault(slot: u32, event: &Event) -> bool
    ensures { result ≡ true → comes_later slot event.now ≡ true }
{
    match event {
        Event::Send { from, .. } | Event::Receive { from, .. } => slot <= *from,
        Event::Jump { slot: at, .. } => slot <= *at,
        _ => false,
    }
}

impl SeenRun {
    /// The run of a list by a script before its first slot. Only this call takes memory.
    pub fn new(alloc: Global, list: &Medl, script: &Script) -> Result<SeenRun, Memory>
        requires valid { IsValid list.now }
        requires script { IsValidScript list.now script.now }
        ensures { IfOk result (λ run. IsSeenAfter run list.now script.now 0) }
    {
        Ok(SeenRun {
            run: Run::new(alloc, list)?,
            seen: SeenCost::new(list, script),
            slots: 0,
        })
    }

    /// One slot, the first that the run has not done yet. Returns the nodes that are correct after it.
    pub fn step(&mut self, list: &Medl, script: &Script, slot: u32) -> NodeSet
        requires valid { IsValid list.now }
        requires script { IsValidScript list.now script.now }
        requires slot { slot < script.now.slots }
        requires stands { IsSeenAfter self.old list.now script.now slot }
        ensures run { IsSeenAfter self.new list.now script.now (slot + 1) }
        ensures correct { AreSound list.now script.now slot result }
    {
        self.run.step(list, script, slot);
        let correct = self.seen.add(list, script, self.run.states(list), slot);
        self.slots = slot + 1;
        correct
    }

    /// Makes it the run by a script before its first slot, as a copy of a run that has done none. It takes no memory.
    pub fn begin(&mut self, start: &Run, list: &Medl, script: &Script)
        requires valid { IsValid list.now }
        requires script { IsValidScript list.now script.now }
        requires own { IsRunOfList self.old.run list.now }
        requires start { IsRunAfter start.now list.now script.now 0 }
        ensures { IsSeenAfter self.new list.now script.now 0 }
    {
        self.run.copy_from(start);
        self.seen = SeenCost::new(list, script);
        self.slots = 0;
    }

    /// Makes it a copy of another run of the same list. It takes no memory.
    pub fn copy_from(&mut self, other: &SeenRun, list: &Medl)
        requires own { IsRunOfList self.old.run list.now }
        requires other { IsRunOfList other.now.run list.now }
        ensures { self.new ≡ other.now }
    {
        self.run.copy_from(&other.run);
        self.seen = other.seen;
        self.slots = other.slots;
    }

    /// Makes it the run by a script with one event more, which comes later, as far as another run by the script
    /// without it has come: no slot is run again.
    pub fn go_on_from(&mut self, past: &SeenRun, list: &Medl, more: &Script, event: &Event)
        requires valid { IsValid list.now }
        requires script { IsValidScript list.now more.now }
        requires slots { past.now.slots ≤ more.now.slots }
        requires own { IsRunOfList self.old.run list.now }
        requires other { IsRunOfList past.now.run list.now }
        ensures { (script : Script) → more.now ≡ with_fault script event.now
            → comes_later past.now.slots event.now ≡ true → IsSeenAfter past.now list.now script past.now.slots
            → IsSeenAfter self.new list.now more.now past.now.slots }
    {
        plants_of_scripts_that_agree();
        self.run.copy_from(&past.run);
        self.seen = past.seen.with_later(list, more, event, past.slots);
        self.slots = past.slots;
    }

    /// What the run cost so far.
    ///
    /// # Errors
    ///
    /// Where memory was refused.
    pub fn cost(&self, alloc: Global, list: &Medl) -> Result<Cost, Memory>
        requires { IsValid list.now }
        ensures { (script : Script) (slots : ℕ) → IsSeenAfter self.now list.now script slots → 0 < slots
            → IfOk result (λ cost. cost ≡ cost_of list.now script (zeros_world list.now script slots)) }
    {
        self.seen.cost(alloc, list, self.run.states(list))
    }

    /// The nodes that left so far.
    pub fn left(&self, list: &Medl) -> NodeSet
        requires { IsValid list.now }
        ensures { (script : Script) (slots : ℕ) → IsSeenAfter self.now list.now script slots
            → result ≡ map (λ leave. leave.node) (leaves list.now (zeros_world list.now script slots)) }
    {
        self.seen.left(list)
    }

    /// Whether these nodes hold two memberships or more after the newest slot, of those that are active and not in doubt.
    pub fn are_split(&self, list: &Medl, among: NodeSet) -> bool
        requires valid { IsValid list.now }
        requires run { (script : Script) × (slots : ℕ) × IsSeenAfter self.now list.now script slots × (0 < slots) }
        ensures { (script : Script) (slots : ℕ) (meant : ℕ → Bool) → IsSeenAfter self.now list.now script slots → 0 < slots
            → ((k : ℕ) → k < length list.now.slots → has_node among k ≡ meant k)
            → result ≡ has_two (memberships list.now (zeros_world list.now script slots) meant) }
    {
        are_split(self.run.states(list), among)
    }

    /// What is shown of each node after the newest slot, in the order of the nodes.
    pub fn states(&self, list: &Medl) -> &[NodeState]
        requires valid { IsValid list.now }
        ensures { (script : Script) (slots : ℕ) → IsSeenAfter self.now list.now script slots → 0 < slots
            → AreShown list.now script (zeros_world list.now script slots) result.now }
    {
        self.run.states(list)
    }
}
