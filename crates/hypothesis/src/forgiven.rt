//! Nodes that are faulty no longer, since they were armed four rounds ago.
ghost use Rattle.std.specs.Prelude.{◌≡◌, ℕ, ◌<◌, ◌≤◌, ◌&&◌, not, List, filter};
ghost use Rattle.ttp_base.specs.NodeSet.{most_nodes, has_node};
ghost use Rattle.ttp_world.specs.Hypothesis.{ClusterStart, FaultyNode, numbers_of};
ghost use Rattle.ttp_world.specs.Returning.{four_rounds, faulty_then, slots_before};
ghost use Rattle.ttp_world.specs.Script.{is_armed};
ghost use Rattle.ttp_world.specs.declared.medl.Medl.{Medl};
ghost use Rattle.ttp_world.specs.declared.script.Script.{Script};
ghost use Rattle.hypothesis.specs.FaultySlots.{kept_slots, AreNewest};
ghost use Rattle.hypothesis.specs.Standing.{HaveSameNodes};

use crate::newest::{NewestSlots, slot_at};
use ttp_base::NodeSet;
use ttp_world::Script;

/// The nodes that were faulty at the beginning of the slot so many ago, or none where the run is younger.
pub(crate) fn faulty_then(newest: &NewestSlots, rounds: u32) -> NodeSet
    requires some { 0 < rounds }
    requires kept { rounds ≤ kept_slots }
    ensures { (list : Medl) (script : Script) (start : ClusterStart) → rounds ≡ four_rounds list
        → AreNewest list script start newest.now
        → HaveSameNodes result (faulty_then list (slots_before list script start newest.now.end)) }
{
    if newest.end < rounds {
        NodeSet::empty()
    } else {
        slot_at(newest, newest.end - rounds).stayed
    }
}

// Whether a node was armed in a slot at whose beginning these were faulty, and was one of them.
fn is_forgiven(script: &Script, then: NodeSet, slot: u32, node: u8) -> bool
    requires { node < most_nodes }
    ensures { result ≡ (has_node then node && is_armed script.now node slot) }
{
    then.has(node) && script.incidents(node, slot).armed
}

// Whether one of the faulty nodes is faulty still.
fn stays(script: &Script, then: NodeSet, slot: u32, faulty: NodeSet, node: u8) -> bool
    requires { node < most_nodes }
    ensures { result ≡ (not (has_node then node && is_armed script.now node slot) && has_node faulty node) }
{
    !is_forgiven(script, then, slot, node) && faulty.has(node)
}

/// Those of the faulty nodes that were not both armed in a slot and faulty at its beginning. Takes no
/// look-up where none was.
pub(crate) fn stayed_in(script: &Script, then: NodeSet, slot: u32, faulty: NodeSet) -> NodeSet
    ensures { (thens : List ℕ) (before : List FaultyNode) → HaveSameNodes then thens
        → HaveSameNodes faulty (numbers_of before)
        → HaveSameNodes result (numbers_of
        (filter (λ f. not (has_node thens f.node && is_armed script.now f.node slot)) before)) }
{
    if then.first().is_none() {
        return faulty;
    }
    let mut stayed = NodeSet::empty();
    for node in 0..24u8 {
        if stays(script, then, slot, faulty, node) {
            stayed = stayed.with(node);
        }
    }
    stayed
}
