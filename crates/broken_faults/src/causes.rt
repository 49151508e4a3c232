//! The lines of a script that caused a fault.
ghost use Rattle.std.specs.Prelude.{◌≡◌, ◌<◌, IfSome};
ghost use Rattle.ttp_base.specs.NodeSet.{most_nodes};
ghost use Rattle.ttp_world.specs.Medl.{IsValid};
ghost use Rattle.ttp_world.specs.Script.{IsValidEvent, IsValidScript};
ghost use Rattle.hypothesis.specs.FaultyRuns.{AreFaultsAt};
ghost use Rattle.hypothesis.specs.Standing.{told_start};
ghost use Rattle.hypothesis.specs.Walks.{all_in};
ghost use Rattle.broken_faults.specs.Faults.{place_of_first, may_cause_loss, is_jump_in, cause_of};
ghost use Rattle.broken_faults.specs.Seen.{told_faults, IsFault};

use crate::losses::losers_in;
use hypothesis::{SlotFaults, Start, expected_sender};
use ttp_base::NodeSet;
use ttp_world::{Event, Medl, Script};

// Whether a line may have caused the loss of a sender's frame to these.
fn may_cause_loss(
    list: &Medl,
    script: &Script,
    sender: u8,
    lost: NodeSet,
    slot: u32,
    event: &Event,
) -> bool
    requires valid { IsValid list.now }
    requires event { IsValidEvent list.now script.now event.now }
    ensures { result ≡ may_cause_loss sender lost slot event.now }
{
    match event {
        Event::Send { node, from, to, .. } => *node == sender && (*from <= slot && slot <= *to),
        Event::Receive { node, from, to, .. } => lost.has(*node) && (*from <= slot && slot <= *to),
        _ => false,
    }
}

/// The place of the first line that may have caused the loss of a sender's frame to these. Goes over the events.
pub(crate) fn cause_of_loss(
    list: &Medl,
    script: &Script,
    sender: u8,
    lost: NodeSet,
    slot: u32,
) -> Option<usize>
    requires valid { IsValid list.now }
    requires script { IsValidScript list.now script.now }
    ensures { result ≡ place_of_first (may_cause_loss sender lost slot) script.now }
{
    let events = script.events.as_slice();
    for place in 0..events.len() {
        if may_cause_loss(list, script, sender, lost, slot, &events[place]) {
            return Some(place);
        }
    }
    None
}

// Whether a line lets the clock of a node jump in a slot.
fn is_jump_in(node: u8, slot: u32, event: &Event) -> bool
    ensures { result ≡ is_jump_in node slot event.now }
{
    match event {
        Event::Jump {
            node: k,
            slot: at,
            ..
        } => *k == node && *at == slot,
        _ => false,
    }
}

// The place of a node's first jump in a slot.
fn first_jump_in(script: &Script, node: u8, slot: u32) -> Option<usize>
    ensures { result ≡ place_of_first (is_jump_in node slot) script.now }
{
    let events = script.events.as_slice();
    for place in 0..events.len() {
        if is_jump_in(node, slot, &events[place]) {
            return Some(place);
        }
    }
    None
}

/// A fault of a run, with all that its slot makes of the nodes, and whether the slot's loss made its node faulty.
#[derive(Clone, Copy)]
pub(crate) struct Fault {
    pub(crate) slot: u32,
    pub(crate) node: u8,
    pub(crate) is_lost: bool,
    pub(crate) faults: SlotFaults,
}

/// The fault of a node whose clock jumps in a slot.
pub(crate) fn by_jump(
    list: &Medl,
    script: &Script,
    start: Start,
    slot: u32,
    node: u8,
    faults: &SlotFaults,
) -> Fault
    requires node { node < most_nodes }
    requires faults { AreFaultsAt list.now script.now (told_start start) slot faults.now }
    ensures known { IsFault list.now script.now (told_start start) result }
    ensures slot { result.slot ≡ slot }
    ensures node { result.node ≡ node }
{
    Fault {
        slot,
        node,
        is_lost: faults.made.has(node),
        faults: *faults,
    }
}

/// That of the node that a slot's loss makes faulty, if it makes one so.
pub(crate) fn by_loss(
    list: &Medl,
    script: &Script,
    start: Start,
    slot: u32,
    faults: &SlotFaults,
) -> Option<Fault>
    requires faults { AreFaultsAt list.now script.now (told_start start) slot faults.now }
    ensures known { IfSome result (IsFault list.now script.now (told_start start)) }
    ensures told { told_faults result ≡ all_in slot faults.now.made }
{
    match faults.made.first() {
        Some(node) => Some(Fault {
            slot,
            node,
            is_lost: true,
            faults: *faults,
        }),
        None => None,
    }
}

/// The place of the line that caused a fault. Goes over the events once.
pub(crate) fn cause_of(list: &Medl, script: &Script, start: Start, fault: &Fault) -> Option<usize>
    requires valid { IsValid list.now }
    requires script { IsValidScript list.now script.now }
    requires known { IsFault list.now script.now (told_start start) fault.now }
    ensures { result ≡ cause_of list.now script.now (told_start start)
        (record { slot = fault.now.slot; node = fault.now.node }) }
{
    if !fault.is_lost {
        return first_jump_in(script, fault.node, fault.slot);
    }
    let sender = expected_sender(list, start, fault.slot);
    let lost = losers_in(list, script, start, &fault.faults, sender, fault.slot);
    cause_of_loss(list, script, sender, lost, fault.slot)
}
