//! What the nodes of a list know of modes, slot by slot.
ghost use Rattle.std.specs.Prelude.{List as Items, ◌∷◌, [], IfOk};
ghost use Rattle.ttp_world.specs.declared.node.Entry.{Entry};
ghost use Rattle.ttp_world.specs.declared.script.Script.{Script as Said};
ghost use Rattle.ttp_world.specs.Diary.{History};
ghost use Rattle.ttp_world.specs.Medl.{IsValid};
ghost use Rattle.mode_change.specs.Knowing.{HasStepped, IsPastRow, KnowAll};

use crate::node::{NodeModes, new_node, node_after};
use controller::Plant;
use std::alloc::Global;
use ttp_base::{List, Memory};
use ttp_world::{Chosen, Medl};

/// What is known of all nodes before the first slot.
pub(crate) fn new_nodes(alloc: Global, list: &Medl) -> Result<Vec<NodeModes>, Memory>
    requires { IsValid list.now }
    ensures { (script : Said) → IfOk result (λ nodes. KnowAll nodes.items list.now script []) }
{
    let mut nodes = List::new(alloc);
    for _ in 0..list.nodes() {
        nodes.push(new_node(list))?;
    }
    Ok(nodes.into_vec())
}

/// Notes one slot more of all nodes, which the plant is past.
pub(crate) fn know_slot(plant: &Plant, chosen: &[Chosen], nodes: &mut [NodeModes], list: &Medl)
    requires list { IsValid list.now }
    requires stepped { HasStepped plant.now chosen.now nodes.old list.now }
    ensures { (script : Said) (row : Items Entry) (history : History)
        → IsPastRow plant.now chosen.now list.now script row history → KnowAll nodes.old list.now script history
        → KnowAll nodes.new list.now script (row ∷ history) }
{
    for node in 0..list.nodes() {
        let k = usize::from(node);
        let entry = plant.node(node).entry;
        let after = node_after(
            &nodes[k],
            list,
            node,
            &entry,
            &chosen[k],
            plant.delivered(node),
        );
        nodes[k] = after;
    }
}
