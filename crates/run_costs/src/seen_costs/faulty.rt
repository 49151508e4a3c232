//! The faulty nodes of a run, by whichever test its script is put to.
ghost use Rattle.std.specs.Prelude.{◌≡◌, ℕ, ◌+◌, ◌<◌, ◌≤◌, true};
ghost use Rattle.ttp_world.specs.declared.medl.Medl.{Medl};
ghost use Rattle.ttp_world.specs.declared.script.Script.{Script};
ghost use Rattle.ttp_world.specs.Medl.{IsValid};
ghost use Rattle.ttp_world.specs.Script.{IsValidScript};
ghost use Rattle.hypothesis.specs.Standing.{HaveSameNodes};
ghost use Rattle.campaign.specs.Cost.{faulty_by_test};
ghost use Rattle.campaign.specs.Tried.{with_fault};
ghost use Rattle.run_costs.specs.FaultyAt.{KnowsFaulty, IsFaultyAt};
ghost use Rattle.run_costs.specs.Later.{comes_later, is_loss};

use hypothesis::{BackFaulty, KeptFaulty, has_arm, start_of};
use ttp_base::NodeSet;
use ttp_world::{Event, Medl, Script};

/// A walk over the slots of a run, which tells who is faulty after each.
#[derive(Clone, Copy)]
pub(crate) enum Faulty {
    /// Nobody ever is.
    Nobody,
    Kept(KeptFaulty),
    Back(BackFaulty),
}

// Whether an event says that frames are lost.
fn is_loss(event: &Event) -> bool
    ensures { result ≡ is_loss event.now }
{
    matches!(event, Event::Send { .. } | Event::Receive { .. })
}

impl Faulty {
    /// Before the first slot.
    pub(crate) fn new(list: &Medl, script: &Script) -> Faulty
        requires valid { IsValid list.now }
        requires script { IsValidScript list.now script.now }
        ensures { IsFaultyAt list.now script.now 0 result }
    {
        match start_of(list, script) {
            Some(start) if has_arm(script) => Faulty::Back(BackFaulty::new(list, script, start)),
            Some(start) => Faulty::Kept(KeptFaulty::new(list, script, start)),
            None => Faulty::Nobody,
        }
    }

    /// Goes over the next slot of the run, and tells who is faulty after it.
    pub(crate) fn step(&mut self, list: &Medl, script: &Script, slot: u32) -> NodeSet
        requires valid { IsValid list.now }
        requires script { IsValidScript list.now script.now }
        requires slot { slot < script.now.slots }
        requires at { IsFaultyAt list.now script.now slot self.old }
        ensures at { IsFaultyAt list.now script.now (slot + 1) self.new }
        ensures faulty { HaveSameNodes result (faulty_by_test list.now script.now slot) }
    {
        match self {
            Faulty::Nobody => NodeSet::empty(),
            Faulty::Kept(walk) => walk.step(list, script, slot),
            Faulty::Back(walk) => walk.step(list, script, slot),
        }
    }

    // Over the first slots, so many.
    fn after(list: &Medl, script: &Script, slots: u32) -> Faulty
        requires valid { IsValid list.now }
        requires script { IsValidScript list.now script.now }
        requires slots { slots ≤ script.now.slots }
        ensures { IsFaultyAt list.now script.now slots result }
    {
        let mut faulty = Faulty::new(list, script);
        for slot in 0..slots {
            faulty.step(list, script, slot);
        }
        faulty
    }

    // The walk over the same slots by a script that may say something else of those to come.
    fn forgetting(&self) -> Faulty
        ensures { (list : Medl) (script : Script) (slot : ℕ) → KnowsFaulty list script slot self.now
            → IsFaultyAt list script slot result }
    {
        match self {
            Faulty::Nobody => Faulty::Nobody,
            Faulty::Kept(walk) => Faulty::Kept(walk.forgetting()),
            Faulty::Back(walk) => Faulty::Back(walk.forgetting()),
        }
    }

    /// The walk over the same slots by a script with one event more, which comes later. A loss leaves who is
    /// faulty as it is. A jump may be one that no rule allows, and what a walk knows of the jumps is said of all that
    /// the script has: so the slots are gone over again.
    pub(crate) fn with_later(&self, list: &Medl, more: &Script, event: &Event, slots: u32) -> Faulty
        requires valid { IsValid list.now }
        requires script { IsValidScript list.now more.now }
        requires slots { slots ≤ more.now.slots }
        ensures { (script : Script) → more.now ≡ with_fault script event.now → comes_later slots event.now ≡ true
            → IsFaultyAt list.now script slots self.now → IsFaultyAt list.now more.now slots result }
    {
        if is_loss(event) {
            self.forgetting()
        } else {
            Faulty::after(list, more, slots)
        }
    }
}
