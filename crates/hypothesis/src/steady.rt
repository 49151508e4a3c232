//! Nodes to measure: at the start, and after each slot from then on, four nodes with `sync` are not
//! faulty.
ghost use Rattle.std.specs.Prelude.{◌≡◌, ◌+◌, ◌*◌, ◌<◌, nat_le, length, filter};
ghost use Rattle.ttp_base.specs.NodeSet.{most_nodes};
ghost use Rattle.ttp_world.specs.Hypothesis.{is_steady, nodes_of, numbers_of};
ghost use Rattle.ttp_world.specs.Medl.{IsValid};
ghost use Rattle.ttp_world.specs.Script.{IsValidScript};
ghost use Rattle.hypothesis.specs.Standing.{told_start, HaveSameNodes};
ghost use Rattle.hypothesis.specs.Walks.{Course, first_unsteady};

use crate::start::{Start, is_ever_on};
use ttp_base::NodeSet;
use ttp_world::{Medl, SLOT_LIMIT, Script};

/// Whether a node with `sync` is ever on and not faulty, where these are.
pub fn is_steady(list: &Medl, script: &Script, faulty: NodeSet, node: u8) -> bool
    requires valid { IsValid list.now }
    requires script { IsValidScript list.now script.now }
    requires node { node < length list.now.slots }
    ensures { result ≡ is_steady list.now script.now faulty node }
{
    list.slots.get(node as usize).sync && is_ever_on(script, node) && !faulty.has(node)
}

/// Whether four nodes with `sync` are ever on and not faulty, where these are faulty. Takes no
/// memory, and goes over the nodes up to the fourth.
pub fn has_four_steady(list: &Medl, script: &Script, faulty: NodeSet) -> bool
    requires valid { IsValid list.now }
    requires script { IsValidScript list.now script.now }
    ensures { result ≡ nat_le 4 (length (filter (is_steady list.now script.now faulty) (nodes_of list.now))) }
{
    let mut steady = NodeSet::empty();
    for node in 0..list.nodes() {
        if is_steady(list, script, faulty, node) {
            steady = steady.with(node);
            if steady.count() >= 4 {
                return true;
            }
        }
    }
    false
}

/// The first slot, from that of the start on, after which there are fewer than four, once one slot
/// more has made of the faulty nodes before it those after it. Where they are the same, nothing changes.
pub(crate) fn unsteady_with(
    list: &Medl,
    script: &Script,
    start: Start,
    slot: u32,
    before: NodeSet,
    faulty: NodeSet,
    unsteady: Option<u32>,
) -> Option<u32>
    requires valid { IsValid list.now }
    requires script { IsValidScript list.now script.now }
    requires bound { slot < SLOT_LIMIT + 3 * most_nodes }
    ensures { (course : Course) → HaveSameNodes before (numbers_of (course.after slot)) → HaveSameNodes faulty (numbers_of (course.after (slot + 1)))
        → unsteady ≡ first_unsteady list.now script.now (told_start start) course slot
        → result ≡ first_unsteady list.now script.now (told_start start) course (slot + 1) }
{
    if unsteady.is_some() || slot + 1 < start.slot {
        return unsteady;
    }
    if start.slot <= slot && before == faulty {
        return unsteady;
    }
    if has_four_steady(list, script, faulty) {
        None
    } else {
        Some(slot.max(start.slot))
    }
}
