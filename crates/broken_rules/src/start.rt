//! Why a cluster has no start.
ghost use Rattle.std.specs.Prelude.{◌≡◌, filter};
ghost use Rattle.ttp_world.specs.Hypothesis.{nodes_of, starts_in};
ghost use Rattle.ttp_world.specs.Medl.{may_start, IsValid};
ghost use Rattle.ttp_world.specs.Script.{is_ever_on, IsValidScript};
ghost use Rattle.broken_rules.specs.Start.{is_late, why_at, why_no_start, no_start};

use hypothesis::{first_start, is_ever_on, start_of, starters_in};
use ttp_base::NodeSet;
use ttp_world::{Medl, Script};

/// Why no node starts alone, with all others on by then: the first of these.
#[derive(Clone, Copy)]
pub enum NoStart {
    /// No node of the list may start.
    NoStarter,
    /// No node is ever on.
    NobodyOn,
    /// None of those that may start is ever on, which are these.
    NoStarterOn { starters: NodeSet },
    /// Two or more would start in this slot. These are the two lowest.
    Rivals { slot: u32, first: u8, second: u8 },
    /// One starts in this slot, and these nodes come on later.
    Late { slot: u32, nodes: NodeSet },
}

// The nodes of the list that may start.
fn starters_of(list: &Medl) -> NodeSet
    requires { IsValid list.now }
    ensures { result ≡ filter (may_start list.now) (nodes_of list.now) }
{
    let mut starters = NodeSet::empty();
    for node in 0..list.nodes() {
        if list.slots.get(node as usize).start {
            starters = starters.with(node);
        }
    }
    starters
}

// The nodes that are ever on.
fn ever_on(list: &Medl, script: &Script) -> NodeSet
    requires valid { IsValid list.now }
    requires script { IsValidScript list.now script.now }
    ensures { result ≡ filter (is_ever_on script.now) (nodes_of list.now) }
{
    let mut on = NodeSet::empty();
    for node in 0..list.nodes() {
        if is_ever_on(script, node) {
            on = on.with(node);
        }
    }
    on
}

// The nodes that come on after a slot.
fn late_nodes(list: &Medl, script: &Script, slot: u32) -> NodeSet
    requires valid { IsValid list.now }
    requires script { IsValidScript list.now script.now }
    ensures { result ≡ filter (is_late script.now slot) (nodes_of list.now) }
{
    let mut late = NodeSet::empty();
    for node in 0..list.nodes() {
        if is_ever_on(script, node) && !script.is_on(node, slot) {
            late = late.with(node);
        }
    }
    late
}

// What is wrong with the first slot in which a node would start.
fn why_at(list: &Medl, script: &Script, slot: u32) -> NoStart
    requires valid { IsValid list.now }
    requires script { IsValidScript list.now script.now }
    ensures { result ≡ why_at list.now script.now slot (filter (starts_in list.now script.now slot) (nodes_of list.now)) }
{
    let starters = starters_in(list, script, slot);
    if let Some(first) = starters.first() {
        if let Some(second) = starters.without(first).first() {
            return NoStart::Rivals {
                slot,
                first,
                second,
            };
        }
    }
    NoStart::Late {
        slot,
        nodes: late_nodes(list, script, slot),
    }
}

// Why there is no start, where there is none.
fn why_no_start(list: &Medl, script: &Script) -> NoStart
    requires valid { IsValid list.now }
    requires script { IsValidScript list.now script.now }
    ensures { result ≡ why_no_start list.now script.now }
{
    let starters = starters_of(list);
    if starters.first().is_none() {
        return NoStart::NoStarter;
    }
    if ever_on(list, script).first().is_none() {
        return NoStart::NobodyOn;
    }
    match first_start(list, script) {
        None => NoStart::NoStarterOn { starters },
        Some(slot) => why_at(list, script, slot),
    }
}

/// Why there is no start, if there is none. Goes over the nodes.
pub(crate) fn no_start(list: &Medl, script: &Script) -> Option<NoStart>
    requires valid { IsValid list.now }
    requires script { IsValidScript list.now script.now }
    ensures { result ≡ no_start list.now script.now }
{
    match start_of(list, script) {
        Some(_) => None,
        None => Some(why_no_start(list, script)),
    }
}
