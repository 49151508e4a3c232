//! What a whole run came to, and from which slot on nothing more came of it.
ghost use Rattle.std.specs.Prelude.{◌≡◌, ℕ, ◌+◌, ◌<◌, true, length, filter, IfOk, if◌then◌else◌};
ghost use Rattle.std.specs.List.{list_any};
ghost use Rattle.ttp_base.specs.NodeSet.{below};
ghost use Rattle.ttp_world.specs.declared.script.Script.{Script};
ghost use Rattle.ttp_world.specs.Medl.{IsValid};
ghost use Rattle.ttp_world.specs.Script.{IsValidScript};
ghost use Rattle.ttp_world.specs.ZerosWorld.{zeros_world};
ghost use Rattle.run_costs.specs.Standing.{IsSeenAfter};
ghost use Rattle.fault_runs.specs.Merging.{has_just_left, HasSettledAt, IsWholeRun};

use campaign::Cost;
use run_costs::SeenRun;
use std::alloc::Global;
use ttp_base::{Memory, NodeSet};
use ttp_world::{Entry, Medl, NodeState, Script};

/// What a whole run cost, and from which slot on nothing was added to that.
#[derive(Drop)]
pub(crate) struct WholeRun {
    pub(crate) cost: Cost,
    /// From this slot on nobody left, and the nodes that were active and not in doubt held one membership, or there
    /// were none.
    pub(crate) settled: u32,
}

// All nodes of a list.
fn everyone(list: &Medl) -> NodeSet
    requires { IsValid list.now }
    ensures { result ≡ filter (λ _. true) (below (length list.now.slots)) }
{
    let mut all = NodeSet::empty();
    for node in 0..list.nodes() {
        all = all.with(node);
    }
    all
}

// Whether a node left in the newest slot.
fn has_just_left(state: &NodeState) -> bool
    ensures { result ≡ has_just_left state.now }
{
    matches!(state.entry, Entry::Left { .. })
}

// Whether some node left in the newest slot.
fn has_leave(states: &[NodeState]) -> bool
    ensures { result ≡ list_any has_just_left states.now }
{
    for state in states {
        if has_just_left(state) {
            return true;
        }
    }
    false
}

// Whether nobody left in the newest slot, and no two memberships are held after it.
fn is_settled(list: &Medl, run: &SeenRun) -> bool
    requires valid { IsValid list.now }
    requires run { (script : Script) × (slot : ℕ) × IsSeenAfter run.now list.now script (slot + 1) }
    ensures { (script : Script) (slot : ℕ) → IsSeenAfter run.now list.now script (slot + 1) → result ≡ true
        → HasSettledAt list.now (zeros_world list.now script (slot + 1)) }
{
    if has_leave(run.states(list)) {
        return false;
    }
    !run.are_split(list, everyone(list))
}

// From which slot on a run is settled, with one slot more.
fn settled_after(before: u32, slot: u32, is_settled: bool) -> u32
    requires { slot < u32.MAX }
    ensures { result ≡ (if is_settled then before else slot + 1) }
{
    if is_settled { before } else { slot + 1 }
}

/// What the run of a script came to, from its first slot to its last.
///
/// # Errors
///
/// Where memory was refused.
pub(crate) fn whole_of(alloc: Global, list: &Medl, script: &Script) -> Result<WholeRun, Memory>
    requires valid { IsValid list.now }
    requires script { IsValidScript list.now script.now }
    ensures { IfOk result (λ whole. IsWholeRun list.now script.now whole) }
{
    let mut run = SeenRun::new(alloc, list, script)?;
    let mut settled = 0;
    for slot in 0..script.slots {
        run.step(list, script, slot);
        settled = settled_after(settled, slot, is_settled(list, &run));
    }
    let cost = run.cost(alloc, list)?;
    Ok(WholeRun { cost, settled })
}
