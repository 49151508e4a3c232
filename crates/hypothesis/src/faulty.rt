//! The faulty nodes of a run, slot by slot, whichever rules its script breaks.
ghost use Rattle.std.specs.Prelude.{◌≡◌, ℕ, ◌+◌, ◌*◌, ◌<◌, Some, None};
ghost use Rattle.ttp_base.specs.NodeSet.{most_nodes};
ghost use Rattle.ttp_world.specs.Hypothesis.{ClusterStart, start_of, faulty_after, numbers_of};
ghost use Rattle.ttp_world.specs.Medl.{IsValid};
ghost use Rattle.ttp_world.specs.Returning.{disturbance_broken, back_faulty_after, arms_broken};
ghost use Rattle.ttp_world.specs.Script.{IsValidScript};
ghost use Rattle.ttp_world.specs.declared.medl.Medl.{Medl};
ghost use Rattle.ttp_world.specs.declared.script.Script.{Script};
ghost use Rattle.hypothesis.specs.FaultyRuns.{KnowsKept, IsKeptAt, KnowsBack, IsBackAt, AreFaultsAt};
ghost use Rattle.hypothesis.specs.Standing.{told_start, HaveSameNodes};

use crate::back_walk::{arms_broken, back_faults_in};
use crate::incidents::{KeptIncidents, nothing_kept};
use crate::losses::Jumps;
use crate::newest::{NewestSlots, no_slots};
use crate::outside::disturbance_broken;
use crate::start::Start;
use crate::walk::{SlotFaults, faults_in};
use ttp_base::NodeSet;
use ttp_world::{Medl, SLOT_LIMIT, Script};

/// A walk over the slots of a run, by the single-fault hypothesis: a node that is faulty stays so. A slot
/// whose losses break the rule on them makes nobody faulty by these.
///
/// It takes no memory. A slot in which something else happens than in the one before costs a look-up for each
/// node, one in which a frame may be lost or a clock jumps goes over the nodes, and each other a few steps.
/// Where the script has jumps that no rule allows, the first goes over all events, and the second for each node.
#[derive(Clone, Copy)]
pub struct KeptFaulty {
    start: Start,
    jumps: Jumps,
    faulty: NodeSet,
    kept: KeptIncidents,
}

/// The same by the test on armed nodes: four rounds after it was armed a node that was faulty is so no
/// longer.
#[derive(Clone, Copy)]
pub struct BackFaulty {
    start: Start,
    jumps: Jumps,
    newest: NewestSlots,
    faulty: NodeSet,
    kept: KeptIncidents,
}

// Which jumps a script has.
fn jumps_of(list: &Medl, script: &Script) -> Jumps
    requires valid { IsValid list.now }
    requires script { IsValidScript list.now script.now }
    ensures { result ≡ Jumps.Far → disturbance_broken list.now script.now ≡ None }
{
    match disturbance_broken(list, script) {
        None => Jumps::Far,
        Some(_) => Jumps::Any,
    }
}

impl KeptFaulty {
    /// Before the first slot, where the cluster of a script starts so.
    pub fn new(list: &Medl, script: &Script, start: Start) -> KeptFaulty
        requires valid { IsValid list.now }
        requires script { IsValidScript list.now script.now }
        requires start { start_of list.now script.now ≡ Some (told_start start) }
        ensures { IsKeptAt list.now script.now 0 result }
    {
        KeptFaulty {
            start,
            jumps: jumps_of(list, script),
            faulty: NodeSet::empty(),
            kept: nothing_kept(),
        }
    }

    /// The walk over the same slots by a script that may say something else of those to come.
    pub fn forgetting(&self) -> KeptFaulty
        ensures { (list : Medl) (script : Script) (slot : ℕ) → KnowsKept list script slot self.now
            → IsKeptAt list script slot result }
    {
        KeptFaulty {
            start: self.start,
            jumps: self.jumps,
            faulty: self.faulty,
            kept: nothing_kept(),
        }
    }

    /// Goes over the next slot, and tells who is faulty after it.
    pub fn step(&mut self, list: &Medl, script: &Script, slot: u32) -> NodeSet
        requires valid { IsValid list.now }
        requires script { IsValidScript list.now script.now }
        requires at { IsKeptAt list.now script.now slot self.old }
        ensures at { IsKeptAt list.now script.now (slot + 1) self.new }
        ensures faulty { HaveSameNodes result (faulty_after list.now script.now slot) }
    {
        let faults = faults_in(
            list,
            script,
            self.start,
            self.jumps,
            slot,
            self.faulty,
            &mut self.kept,
        );
        self.faulty = faults.faulty;
        faults.faulty
    }
}

impl BackFaulty {
    /// Before the first slot, where the cluster of a script starts so.
    pub fn new(list: &Medl, script: &Script, start: Start) -> BackFaulty
        requires valid { IsValid list.now }
        requires script { IsValidScript list.now script.now }
        requires start { start_of list.now script.now ≡ Some (told_start start) }
        ensures { IsBackAt list.now script.now 0 result }
    {
        BackFaulty {
            start,
            jumps: jumps_of(list, script),
            newest: no_slots(),
            faulty: NodeSet::empty(),
            kept: nothing_kept(),
        }
    }

    /// The walk over the same slots by a script that may say something else of those to come.
    pub fn forgetting(&self) -> BackFaulty
        ensures { (list : Medl) (script : Script) (slot : ℕ) → KnowsBack list script slot self.now
            → IsBackAt list script slot result }
    {
        BackFaulty {
            start: self.start,
            jumps: self.jumps,
            newest: self.newest,
            faulty: self.faulty,
            kept: nothing_kept(),
        }
    }

    /// Goes over the next slot, which may lie behind the run, and tells what it makes of the faulty nodes.
    pub fn step_faults(&mut self, list: &Medl, script: &Script, slot: u32) -> SlotFaults
        requires valid { IsValid list.now }
        requires script { IsValidScript list.now script.now }
        requires slot { slot < SLOT_LIMIT + 3 * most_nodes }
        requires at { IsBackAt list.now script.now slot self.old }
        ensures at { IsBackAt list.now script.now (slot + 1) self.new }
        ensures faults { (start : ClusterStart) → start_of list.now script.now ≡ Some start
            → AreFaultsAt list.now script.now start slot result }
    {
        let faults = back_faults_in(
            list,
            script,
            self.start,
            self.jumps,
            &mut self.newest,
            self.faulty,
            &mut self.kept,
        );
        self.faulty = faults.faulty;
        faults
    }

    /// Goes over the next slot of the run, and tells who is faulty after it.
    pub fn step(&mut self, list: &Medl, script: &Script, slot: u32) -> NodeSet
        requires valid { IsValid list.now }
        requires script { IsValidScript list.now script.now }
        requires slot { slot < script.now.slots }
        requires at { IsBackAt list.now script.now slot self.old }
        ensures at { IsBackAt list.now script.now (slot + 1) self.new }
        ensures faulty { HaveSameNodes result (numbers_of (back_faulty_after list.now script.now slot)) }
    {
        let faults = back_faults_in(
            list,
            script,
            self.start,
            self.jumps,
            &mut self.newest,
            self.faulty,
            &mut self.kept,
        );
        self.faulty = faults.faulty;
        faults.faulty
    }
}

/// The first slot with an arm line that does not meet what is asked of it, whichever other rules the script breaks.
/// Takes no memory, and costs what [`crate::returns`] does; where a script has jumps that no rule allows, all
/// events are gone over where what happens to a node changes.
pub fn first_broken_arm(list: &Medl, script: &Script, start: Start) -> Option<u32>
    requires valid { IsValid list.now }
    requires script { IsValidScript list.now script.now }
    ensures { result ≡ arms_broken list.now script.now (told_start start) }
{
    arms_broken(list, script, start, jumps_of(list, script))
}
