//! A run, and what was seen of it where one node counts as faulty besides.
ghost use Rattle.std.specs.Prelude.{◌≡◌, ◌+◌, ◌<◌, ◌≤◌, ◌||◌, ℕ, true, length, IfOk};
ghost use Rattle.ttp_world.specs.declared.script.Script.{Script};
ghost use Rattle.ttp_world.specs.Medl.{IsValid};
ghost use Rattle.ttp_world.specs.Script.{IsValidScript};
ghost use Rattle.campaign.specs.Tried.{with_fault};
ghost use Rattle.ttp_world.specs.ZerosWorld.{zeros_world};
ghost use Rattle.clock_margins.specs.Outcomes.{outcome_beside};
ghost use Rattle.run_costs.specs.Later.{comes_later};
ghost use Rattle.run_costs.specs.Standing.{IsRunAfter, IsRunOfList};
ghost use Rattle.margin_runs.specs.Tries.{IsBesideAfter};

use clock_margins::Outcome;
use run_costs::{Run, SeenRun};
use std::alloc::Global;
use ttp_base::Memory;
use ttp_world::{Event, Medl, Script};

/// A run between two slots, and whether memberships were split in it.
#[derive(Drop)]
pub(crate) struct BesideRun {
    pub(crate) run: SeenRun,
    /// The node whose clock is swept.
    pub(crate) node: u8,
    // Whether correct nodes but this one held two memberships or more after some slot.
    split: bool,
}

fn either(one: bool, other: bool) -> bool
    ensures { result ≡ (one || other) }
{
    one || other
}

impl BesideRun {
    /// Before the first slot.
    pub(crate) fn new(
        alloc: Global,
        list: &Medl,
        script: &Script,
        node: u8,
    ) -> Result<BesideRun, Memory>
        requires valid { IsValid list.now }
        requires script { IsValidScript list.now script.now }
        requires node { node < length list.now.slots }
        ensures run { IfOk result (λ run. IsBesideAfter run list.now script.now 0) }
        ensures node { IfOk result (λ run. run.node ≡ node) }
    {
        let run = SeenRun::new(alloc, list, script)?;
        Ok(BesideRun {
            run,
            node,
            split: false,
        })
    }

    /// One slot, the first that the run has not done yet.
    pub(crate) fn step(&mut self, list: &Medl, script: &Script, slot: u32)
        requires valid { IsValid list.now }
        requires script { IsValidScript list.now script.now }
        requires slot { slot < script.now.slots }
        requires run { IsBesideAfter self.old list.now script.now slot }
        ensures run { IsBesideAfter self.new list.now script.now (slot + 1) }
        ensures node { self.new.node ≡ self.old.node }
    {
        let correct = self.run.step(list, script, slot).without(self.node);
        let are_split = self.run.are_split(list, correct);
        self.split = either(are_split, self.split);
    }

    /// Makes it the run by a script before its first slot, as a copy of a run that has done none. It takes no memory.
    pub(crate) fn begin(&mut self, start: &Run, list: &Medl, script: &Script)
        requires valid { IsValid list.now }
        requires script { IsValidScript list.now script.now }
        requires own { IsRunOfList self.old.run.run list.now }
        requires node { self.old.node < length list.now.slots }
        requires start { IsRunAfter start.now list.now script.now 0 }
        ensures run { IsBesideAfter self.new list.now script.now 0 }
        ensures node { self.new.node ≡ self.old.node }
    {
        self.run.begin(start, list, script);
        self.split = false;
    }

    /// Makes it the run by a script with one event more, which comes later, as far as another run by the script without it has
    /// come: no slot is run again. It takes no memory.
    pub(crate) fn go_on_from(&mut self, past: &BesideRun, list: &Medl, more: &Script, event: &Event)
        requires valid { IsValid list.now }
        requires script { IsValidScript list.now more.now }
        requires slots { past.now.run.slots ≤ more.now.slots }
        requires own { IsRunOfList self.old.run.run list.now }
        requires other { IsRunOfList past.now.run.run list.now }
        requires node { self.old.node ≡ past.now.node }
        ensures run { (script : Script) → more.now ≡ with_fault script event.now
            → comes_later past.now.run.slots event.now ≡ true
            → IsBesideAfter past.now list.now script past.now.run.slots
            → IsBesideAfter self.new list.now more.now past.now.run.slots }
        ensures node { self.new.node ≡ self.old.node }
    {
        self.run.go_on_from(&past.run, list, more, event);
        self.split = past.split;
    }

    /// What is told of the run so far.
    ///
    /// # Errors
    ///
    /// Where memory was refused.
    pub(crate) fn outcome(&self, alloc: Global, list: &Medl) -> Result<Outcome, Memory>
        requires valid { IsValid list.now }
        requires node { self.now.node < length list.now.slots }
        ensures { (script : Script) (slots : ℕ) → IsBesideAfter self.now list.now script slots → 0 < slots
            → IfOk result (λ outcome. outcome
            ≡ outcome_beside list.now script self.now.node (zeros_world list.now script slots)) }
    {
        let cost = self.run.cost(alloc, list)?;
        Ok(Outcome {
            left: self.run.left(list),
            hurt: cost.hurt.without(self.node),
            split: self.split,
            end: cost.end,
        })
    }
}
