//! The walk over the slots of a run, in which nodes become faulty.
ghost use Rattle.std.specs.Prelude.{◌≡◌, ◌+◌, ◌*◌, ◌<◌, List, Some, None, true, MatchOption};
ghost use Rattle.ttp_base.specs.NodeSet.{most_nodes};
ghost use Rattle.ttp_world.specs.Hypothesis.{FaultyNode, numbers_of, breaks_in, start_of, started_keep, unless};
ghost use Rattle.ttp_world.specs.Medl.{IsValid};
ghost use Rattle.ttp_world.specs.Returning.{disturbance_broken};
ghost use Rattle.ttp_world.specs.Script.{IsValidScript};
ghost use Rattle.ttp_world.specs.declared.keep.Keep.TheVariants as keep;
ghost use Rattle.ttp_world.specs.declared.script.Script.{Script};
ghost use Rattle.hypothesis.specs.SlotIncidents.{AreIncidentsIn, AreKeptFrom};
ghost use Rattle.hypothesis.specs.Standing.{told_start, HaveSameNodes};
ghost use Rattle.hypothesis.specs.Walks.{Course, keep_course, AreFaultsIn, AreFaultsOf, HasWalked};

use crate::distances::{earliest_with, early_with};
use crate::incidents::{KeptIncidents, SlotIncidents, go_on, nothing_kept};
use crate::losses::{Jumps, is_breaking, is_calm, jumpers_in, loss_in, nodes_made, united};
use crate::start::Start;
use crate::steady::unsteady_with;
use ttp_base::NodeSet;
use ttp_world::{Keep, Medl, SLOT_LIMIT, Script};

/// What a slot makes of the faulty nodes.
#[derive(Clone, Copy)]
pub struct SlotFaults {
    /// The nodes that are faulty at its beginning.
    pub before: NodeSet,
    /// Those that become faulty in it since their clocks jump, and the one that does so by a loss, if one does.
    pub jumped: NodeSet,
    pub made: NodeSet,
    /// The faulty nodes after the slot.
    pub faulty: NodeSet,
    /// How many became faulty in it.
    pub count: u8,
    /// Whether its losses are those of more than one fault.
    pub breaks: bool,
}

/// What the slots so far have shown.
#[derive(Clone, Copy)]
pub(crate) struct Walk {
    /// The faulty nodes.
    pub(crate) faulty: NodeSet,
    /// The first slot in which a fault may come.
    pub(crate) earliest: u32,
    /// The first slot with a fault that came too early.
    pub(crate) early: Option<u32>,
    /// The first slot, from that of the start on, after which fewer than four nodes to measure are
    /// left.
    pub(crate) unsteady: Option<u32>,
}

// What a slot makes of the nodes that are faulty at its beginning, where this happens to the nodes in it.
fn faults_of(
    list: &Medl,
    script: &Script,
    start: Start,
    jumps: Jumps,
    slot: u32,
    faulty: NodeSet,
    incidents: &SlotIncidents,
) -> SlotFaults
    requires valid { IsValid list.now }
    requires script { IsValidScript list.now script.now }
    requires inside { jumps ≡ Jumps.Far → disturbance_broken list.now script.now ≡ None }
    requires incidents { AreIncidentsIn list.now script.now slot incidents.now }
    ensures { (before : List FaultyNode) → HaveSameNodes faulty (numbers_of before)
        → AreFaultsIn list.now script.now (told_start start) slot before result }
{
    let jumpers = jumpers_in(list, script, jumps, incidents, faulty, slot);
    let fallen = united(jumpers, faulty);
    let loss = loss_in(list, script, start, incidents, fallen, slot);
    let made = nodes_made(loss);
    SlotFaults {
        before: faulty,
        jumped: jumpers,
        made,
        faulty: united(made, fallen),
        count: made.count() + jumpers.count(),
        breaks: is_breaking(loss),
    }
}

/// What a slot makes of the nodes that are faulty at its beginning. A few steps where nothing happens in it
/// that makes one faulty, and nothing else than in the slot before.
pub(crate) fn faults_in(
    list: &Medl,
    script: &Script,
    start: Start,
    jumps: Jumps,
    slot: u32,
    faulty: NodeSet,
    kept: &mut KeptIncidents,
) -> SlotFaults
    requires valid { IsValid list.now }
    requires script { IsValidScript list.now script.now }
    requires inside { jumps ≡ Jumps.Far → disturbance_broken list.now script.now ≡ None }
    requires kept { AreKeptFrom list.now script.now slot kept.old }
    ensures kept { AreKeptFrom list.now script.now (slot + 1) kept.new }
    ensures faults { (before : List FaultyNode) → HaveSameNodes faulty (numbers_of before)
        → AreFaultsIn list.now script.now (told_start start) slot before result }
{
    go_on(list, script, jumps, slot, kept);
    if is_calm(list, start, kept, slot) {
        return SlotFaults {
            before: faulty,
            jumped: NodeSet::empty(),
            made: NodeSet::empty(),
            faulty,
            count: 0,
            breaks: false,
        };
    }
    faults_of(list, script, start, jumps, slot, faulty, &kept.incidents)
}

/// A walk before the first slot.
pub(crate) fn first_walk(list: &Medl, start: Start) -> Walk
    requires valid { IsValid list.now }
    requires bound { start.slot < SLOT_LIMIT + 3 * most_nodes }
    ensures { (script : Script) (course : Course) → start_of list.now script ≡ Some (told_start start)
        → HasWalked list.now script (told_start start) course 0 result }
{
    Walk {
        faulty: NodeSet::empty(),
        earliest: start.slot + 2 * u32::from(list.nodes()),
        early: None,
        unsteady: None,
    }
}

/// The walk over one slot more, which makes these faults, unless its losses are those of more than one.
pub(crate) fn walk_with(
    list: &Medl,
    script: &Script,
    start: Start,
    slot: u32,
    walk: Walk,
    faults: SlotFaults,
) -> Option<Walk>
    requires valid { IsValid list.now }
    requires script { IsValidScript list.now script.now }
    requires bound { slot < SLOT_LIMIT + 3 * most_nodes }
    ensures { (course : Course) → HasWalked list.now script.now (told_start start) course slot walk
        → AreFaultsOf course slot faults
        → MatchOption result ((slot < script.now.slots) × (course.breaks slot ≡ true))
        (λ walk. HasWalked list.now script.now (told_start start) course (slot + 1) walk) }
{
    let is_within_run = slot < script.slots;
    if is_within_run && faults.breaks {
        return None;
    }
    let count = if is_within_run { faults.count } else { 0 };
    let gap = 2 * u32::from(list.nodes());
    Some(Walk {
        faulty: faults.faulty,
        earliest: earliest_with(gap, walk.earliest, count, slot),
        early: early_with(walk.early, walk.earliest, count, slot),
        unsteady: unsteady_with(
            list,
            script,
            start,
            slot,
            walk.faulty,
            faults.faulty,
            walk.unsteady,
        ),
    })
}

// The walk over one slot more, unless the slot's losses are those of more than one fault.
fn walk_over(
    list: &Medl,
    script: &Script,
    start: Start,
    slot: u32,
    walk: Walk,
    kept: &mut KeptIncidents,
) -> Option<Walk>
    requires valid { IsValid list.now }
    requires script { IsValidScript list.now script.now }
    requires inside { disturbance_broken list.now script.now ≡ None }
    requires bound { slot < SLOT_LIMIT + 3 * most_nodes }
    requires walked { HasWalked list.now script.now (told_start start)
        (keep_course list.now script.now (told_start start)) slot walk }
    requires kept { AreKeptFrom list.now script.now slot kept.old }
    ensures kept { AreKeptFrom list.now script.now (slot + 1) kept.new }
    ensures walk { MatchOption result
        ((slot < script.now.slots) × (breaks_in list.now script.now (told_start start) slot ≡ true))
        (λ walk. HasWalked list.now script.now (told_start start)
        (keep_course list.now script.now (told_start start)) (slot + 1) walk) }
{
    let faults = faults_in(list, script, start, Jumps::Far, slot, walk.faulty, kept);
    walk_with(list, script, start, slot, walk, faults)
}

// What a walk over the whole run says of the rules on the distances of faults and on nodes to
// measure.
fn walk_keep(start: Start, walk: Walk) -> Keep
    ensures { result ≡ unless 6 walk.early (unless 7 walk.unsteady (keep.Yes start.slot)) }
{
    match (walk.early, walk.unsteady) {
        (Some(slot), _) => Keep::No { rule: 6, slot },
        (None, Some(slot)) => Keep::No { rule: 7, slot },
        (None, None) => Keep::Yes { start: start.slot },
    }
}

/// Whether a script keeps the rules on faults, where its cluster starts. The walk goes to the slot of
/// the start also where the run ends before it.
pub(crate) fn started_keep(list: &Medl, script: &Script, start: Start) -> Keep
    requires valid { IsValid list.now }
    requires script { IsValidScript list.now script.now }
    requires inside { disturbance_broken list.now script.now ≡ None }
    requires starts { start_of list.now script.now ≡ Some (told_start start) }
    requires bound { start.slot < SLOT_LIMIT + 3 * most_nodes }
    ensures { result ≡ started_keep list.now script.now (Some (told_start start)) }
{
    let mut walk = first_walk(list, start);
    let mut kept = nothing_kept();
    for slot in 0..script.slots.max(start.slot) {
        match walk_over(list, script, start, slot, walk, &mut kept) {
            Some(next) => walk = next,
            None => return Keep::No { rule: 5, slot },
        }
    }
    walk_keep(start, walk)
}
