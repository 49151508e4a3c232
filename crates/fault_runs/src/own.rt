//! The script's own run, from which the runs of a slot's faults go on.
ghost use Rattle.std.specs.Prelude.{◌≡◌, ◌+◌, ◌<◌, ◌≤◌, ℕ, true, IfOk};
ghost use Rattle.ttp_world.specs.declared.script.Script.{Script};
ghost use Rattle.ttp_world.specs.Medl.{IsValid};
ghost use Rattle.ttp_world.specs.Script.{IsValidScript};
ghost use Rattle.campaign.specs.Tried.{with_fault};
ghost use Rattle.ttp_world.specs.ZerosWorld.{zeros_world};
ghost use Rattle.run_costs.specs.Later.{comes_later};
ghost use Rattle.run_costs.specs.Standing.{IsRunOfList, IsSeenAfter};
ghost use Rattle.run_costs.specs.States.{AreShown};
ghost use Rattle.fault_runs.specs.Tries.{IsOwnAfter, IsOwnOf};

use run_costs::SeenRun;
use std::alloc::Global;
use ttp_base::Memory;
use ttp_world::{Event, Medl, NodeState, Script};

/// The script's own run, and what it was before its newest slot.
#[derive(Drop)]
pub struct OwnRun {
    run: SeenRun,
    /// Before the newest slot; or before the first one, where there was none.
    pub before: SeenRun,
}

impl OwnRun {
    /// Before the first slot.
    pub fn new(alloc: Global, list: &Medl, script: &Script) -> Result<OwnRun, Memory>
        requires valid { IsValid list.now }
        requires script { IsValidScript list.now script.now }
        ensures { IfOk result (λ own. IsOwnAfter own list.now script.now 0) }
    {
        let run = SeenRun::new(alloc, list, script)?;
        let before = SeenRun::new(alloc, list, script)?;
        Ok(OwnRun { run, before })
    }

    /// One slot more.
    pub fn step(&mut self, list: &Medl, script: &Script, slot: u32)
        requires valid { IsValid list.now }
        requires script { IsValidScript list.now script.now }
        requires slot { slot < script.now.slots }
        requires own { IsOwnAfter self.old list.now script.now slot }
        ensures own { IsOwnAfter self.new list.now script.now (slot + 1) }
        ensures before { IsSeenAfter self.new.before list.now script.now slot }
    {
        self.before.copy_from(&self.run, list);
        self.run.step(list, script, slot);
    }

    /// Makes it the run by a script with one event more, which comes later, as far as another run by the script without it has
    /// come: no slot is run again, and it takes no memory. What it was before its newest slot is the same run.
    pub fn go_on_from(&mut self, past: &SeenRun, list: &Medl, more: &Script, event: &Event)
        requires valid { IsValid list.now }
        requires script { IsValidScript list.now more.now }
        requires slots { past.now.slots ≤ more.now.slots }
        requires own { IsOwnOf self.old list.now }
        requires other { IsRunOfList past.now.run list.now }
        ensures { (script : Script) → more.now ≡ with_fault script event.now
            → comes_later past.now.slots event.now ≡ true → IsSeenAfter past.now list.now script past.now.slots
            → IsOwnAfter self.new list.now more.now past.now.slots }
    {
        self.run.go_on_from(past, list, more, event);
        self.before.go_on_from(past, list, more, event);
    }

    /// What is shown of each node after the newest slot, in the order of the nodes.
    pub fn states(&self, list: &Medl) -> &[NodeState]
        requires valid { IsValid list.now }
        ensures { (script : Script) (slots : ℕ) → IsOwnAfter self.now list.now script slots → 0 < slots
            → AreShown list.now script (zeros_world list.now script slots) result.now }
    {
        self.run.states(list)
    }
}
