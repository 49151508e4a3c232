//! The start: one starter alone reaches the first slot in which one would start, and each node that
//! is ever on is on by then.
ghost use Rattle.std.specs.Prelude.{◌≡◌, ◌+◌, ◌*◌, ◌<◌, length, filter, IfSome};
ghost use Rattle.std.specs.List.{filter_map};
ghost use Rattle.ttp_base.specs.NodeSet.{most_nodes};
ghost use Rattle.ttp_world.specs.Hypothesis.{nodes_of, least_of, start_slot, starts_in, are_all_on, only_starter};
ghost use Rattle.ttp_world.specs.Hypothesis.{start_of};
ghost use Rattle.ttp_world.specs.Medl.{IsValid};
ghost use Rattle.ttp_world.specs.Script.{is_ever_on, IsValidScript};
ghost use Rattle.hypothesis.specs.SoleStart.{sole_start};
ghost use Rattle.hypothesis.specs.Standing.{told_start_if};

use crate::nodes::lesser;
use ttp_base::NodeSet;
use ttp_world::{Medl, SLOT_LIMIT, Script};

/// The slot of the start, counted from 0, and the node that starts.
#[derive(Clone, Copy)]
pub struct Start {
    pub slot: u32,
    pub node: u8,
}

/// Whether a node is ever on.
pub fn is_ever_on(script: &Script, node: u8) -> bool
    requires { node < length script.now.on }
    ensures { result ≡ is_ever_on script.now node }
{
    script.on.get(node as usize).is_some()
}

// When a node would start on a silent bus, where it may.
fn start_slot(list: &Medl, script: &Script, node: u8) -> Option<u32>
    requires valid { IsValid list.now }
    requires script { IsValidScript list.now script.now }
    requires node { node < length list.now.slots }
    ensures value { result ≡ start_slot list.now script.now node }
    ensures bound { IfSome result (λ slot. slot < SLOT_LIMIT + 3 * most_nodes) }
{
    if !list.slots.get(node as usize).start {
        return None;
    }
    match script.on.get(node as usize) {
        Some(on) => Some(*on + 2 * u32::from(list.nodes()) + u32::from(node)),
        None => None,
    }
}

/// The first slot in which a node would start on a silent bus. Goes over the nodes.
pub fn first_start(list: &Medl, script: &Script) -> Option<u32>
    requires valid { IsValid list.now }
    requires script { IsValidScript list.now script.now }
    ensures value { result ≡ least_of (filter_map (start_slot list.now script.now) (nodes_of list.now)) }
    ensures bound { IfSome result (λ slot. slot < SLOT_LIMIT + 3 * most_nodes) }
{
    let mut least = None;
    for node in 0..list.nodes() {
        if let Some(slot) = start_slot(list, script, node) {
            least = Some(lesser(slot, least));
        }
    }
    least
}

// Whether each node that is ever on is on in a slot.
fn are_all_on(list: &Medl, script: &Script, slot: u32) -> bool
    requires valid { IsValid list.now }
    requires script { IsValidScript list.now script.now }
    ensures { result ≡ are_all_on list.now script.now slot }
{
    for node in 0..list.nodes() {
        if is_ever_on(script, node) && !script.is_on(node, slot) {
            return false;
        }
    }
    true
}

// Whether a node would start in a slot.
fn starts_in(list: &Medl, script: &Script, slot: u32, node: u8) -> bool
    requires valid { IsValid list.now }
    requires script { IsValidScript list.now script.now }
    requires node { node < length list.now.slots }
    ensures { result ≡ starts_in list.now script.now slot node }
{
    match start_slot(list, script, node) {
        Some(start) => start == slot,
        None => false,
    }
}

/// The nodes that would start in a slot on a silent bus. Goes over the nodes.
pub fn starters_in(list: &Medl, script: &Script, slot: u32) -> NodeSet
    requires valid { IsValid list.now }
    requires script { IsValidScript list.now script.now }
    ensures { result ≡ filter (starts_in list.now script.now slot) (nodes_of list.now) }
{
    let mut starters = NodeSet::empty();
    for node in 0..list.nodes() {
        if starts_in(list, script, slot, node) {
            starters = starters.with(node);
        }
    }
    starters
}

// The start in a slot that one starter alone reaches.
fn only_starter(slot: u32, starters: NodeSet) -> Option<Start>
    ensures { told_start_if result ≡ only_starter slot starters }
{
    match starters.first() {
        Some(node) if starters.count() == 1 => Some(Start { slot, node }),
        _ => None,
    }
}

/// The first slot in which a node would start on a silent bus, and that node, where it is one alone.
/// Others may come on after it. Takes no memory, and goes over the nodes.
pub fn sole_start(list: &Medl, script: &Script) -> Option<Start>
    requires valid { IsValid list.now }
    requires script { IsValidScript list.now script.now }
    ensures value { told_start_if result ≡ sole_start list.now script.now }
    ensures bound { IfSome result (λ start. start.slot < SLOT_LIMIT + 3 * most_nodes) }
{
    match first_start(list, script) {
        Some(slot) => only_starter(slot, starters_in(list, script, slot)),
        None => None,
    }
}

/// The start, where there is one that keeps the rule: one node alone starts, and each that is ever on
/// is on by then. The slot may lie past the run's last. Takes no memory, and goes over the nodes.
pub fn start_of(list: &Medl, script: &Script) -> Option<Start>
    requires valid { IsValid list.now }
    requires script { IsValidScript list.now script.now }
    ensures value { told_start_if result ≡ start_of list.now script.now }
    ensures bound { IfSome result (λ start. start.slot < SLOT_LIMIT + 3 * most_nodes) }
{
    match first_start(list, script) {
        Some(slot) if are_all_on(list, script, slot) => {
            only_starter(slot, starters_in(list, script, slot))
        }
        _ => None,
    }
}
