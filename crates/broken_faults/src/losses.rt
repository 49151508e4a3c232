//! Frames that some nodes lose and others hear.
ghost use Rattle.std.specs.Prelude.{◌≡◌, ◌<◌, ◌&&◌, not, ◌++◌, length, Some};
ghost use Rattle.ttp_base.specs.NodeSet.{has_node, most_nodes};
ghost use Rattle.ttp_world.specs.Hypothesis.{jumpers_in, loses, start_of};
ghost use Rattle.ttp_world.specs.Medl.{IsValid};
ghost use Rattle.ttp_world.specs.Script.{IsValidScript};
ghost use Rattle.hypothesis.specs.FaultyRuns.{AreFaultsAt};
ghost use Rattle.hypothesis.specs.Standing.{told_start};
ghost use Rattle.broken_faults.specs.Faults.{is_to_hear, losers_in, hearers_in, faulty_in, lost_in, lost_frame};

use crate::causes::cause_of_loss;
use hypothesis::{BackFaulty, SlotFaults, Start, expected_sender, is_lost};
use ttp_base::NodeSet;
use ttp_world::{Medl, Script};

/// A frame that some lost who were due to hear it, but neither one alone nor all.
#[derive(Clone, Copy)]
pub struct LostFrame {
    pub slot: u32,
    pub sender: u8,
    /// Who lost it, and who else was due to hear it.
    pub lost: NodeSet,
    pub heard: NodeSet,
    /// The place among the script's events of the first line that may have caused it.
    pub cause: Option<usize>,
}

// Whether a node loses a sender's frame.
fn loses(script: &Script, sender: u8, slot: u32, node: u8) -> bool
    ensures { result ≡ loses script.now sender slot node }
{
    let sending = script.incidents(sender, slot);
    let hearing = script.incidents(node, slot);
    is_lost(&sending, &hearing)
}

// Whether a node is faulty once clocks have jumped in a slot, where the slot makes these faults.
fn has_fallen(
    list: &Medl,
    script: &Script,
    start: Start,
    faults: &SlotFaults,
    slot: u32,
    node: u8,
) -> bool
    requires node { node < most_nodes }
    requires faults { AreFaultsAt list.now script.now (told_start start) slot faults.now }
    ensures { result ≡ has_node (jumpers_in list.now script.now (faulty_in list.now script.now (told_start start) slot) slot
        ++ faulty_in list.now script.now (told_start start) slot) node }
{
    if faults.jumped.has(node) {
        return true;
    }
    faults.before.has(node)
}

// Whether a node is due to hear it, where the slot makes these faults.
fn is_to_hear(
    list: &Medl,
    script: &Script,
    start: Start,
    faults: &SlotFaults,
    sender: u8,
    slot: u32,
    node: u8,
) -> bool
    requires valid { IsValid list.now }
    requires script { IsValidScript list.now script.now }
    requires node { node < length list.now.slots }
    requires faults { AreFaultsAt list.now script.now (told_start start) slot faults.now }
    ensures { result ≡ is_to_hear list.now script.now (faulty_in list.now script.now (told_start start) slot) sender slot node }
{
    script.is_on(node, slot)
        && !has_fallen(list, script, start, faults, slot, node)
        && node != sender
}

// Whether a node that is due to hear it loses it.
fn is_loser(
    list: &Medl,
    script: &Script,
    start: Start,
    faults: &SlotFaults,
    sender: u8,
    slot: u32,
    node: u8,
) -> bool
    requires valid { IsValid list.now }
    requires script { IsValidScript list.now script.now }
    requires node { node < length list.now.slots }
    requires faults { AreFaultsAt list.now script.now (told_start start) slot faults.now }
    ensures { result ≡ (is_to_hear list.now script.now (faulty_in list.now script.now (told_start start) slot) sender slot node
        && loses script.now sender slot node) }
{
    is_to_hear(list, script, start, faults, sender, slot, node) && loses(script, sender, slot, node)
}

// Whether one hears it.
fn is_hearer(
    list: &Medl,
    script: &Script,
    start: Start,
    faults: &SlotFaults,
    sender: u8,
    slot: u32,
    node: u8,
) -> bool
    requires valid { IsValid list.now }
    requires script { IsValidScript list.now script.now }
    requires node { node < length list.now.slots }
    requires faults { AreFaultsAt list.now script.now (told_start start) slot faults.now }
    ensures { result ≡ (is_to_hear list.now script.now (faulty_in list.now script.now (told_start start) slot) sender slot node
        && not (loses script.now sender slot node)) }
{
    is_to_hear(list, script, start, faults, sender, slot, node)
        && !loses(script, sender, slot, node)
}

/// Those that are due to hear a sender's frame and lose it. Goes over the nodes.
pub(crate) fn losers_in(
    list: &Medl,
    script: &Script,
    start: Start,
    faults: &SlotFaults,
    sender: u8,
    slot: u32,
) -> NodeSet
    requires valid { IsValid list.now }
    requires script { IsValidScript list.now script.now }
    requires faults { AreFaultsAt list.now script.now (told_start start) slot faults.now }
    ensures { result ≡ losers_in list.now script.now (faulty_in list.now script.now (told_start start) slot) sender slot }
{
    let mut lost = NodeSet::empty();
    for node in 0..list.nodes() {
        if is_loser(list, script, start, faults, sender, slot, node) {
            lost = lost.with(node);
        }
    }
    lost
}

// Those that hear it.
fn hearers_in(
    list: &Medl,
    script: &Script,
    start: Start,
    faults: &SlotFaults,
    sender: u8,
    slot: u32,
) -> NodeSet
    requires valid { IsValid list.now }
    requires script { IsValidScript list.now script.now }
    requires faults { AreFaultsAt list.now script.now (told_start start) slot faults.now }
    ensures { result ≡ hearers_in list.now script.now (faulty_in list.now script.now (told_start start) slot) sender slot }
{
    let mut heard = NodeSet::empty();
    for node in 0..list.nodes() {
        if is_hearer(list, script, start, faults, sender, slot, node) {
            heard = heard.with(node);
        }
    }
    heard
}

// The frame of a slot, and who lost it.
fn lost_in(list: &Medl, script: &Script, start: Start, faults: &SlotFaults, slot: u32) -> LostFrame
    requires valid { IsValid list.now }
    requires script { IsValidScript list.now script.now }
    requires faults { AreFaultsAt list.now script.now (told_start start) slot faults.now }
    ensures { result ≡ lost_in list.now script.now (told_start start) slot }
{
    let sender = expected_sender(list, start, slot);
    let lost = losers_in(list, script, start, faults, sender, slot);
    LostFrame {
        slot,
        sender,
        lost,
        heard: hearers_in(list, script, start, faults, sender, slot),
        cause: cause_of_loss(list, script, sender, lost, slot),
    }
}

/// The frame of the first slot whose losses are those of more than one fault.
pub(crate) fn lost_frame(list: &Medl, script: &Script, start: Start) -> Option<LostFrame>
    requires valid { IsValid list.now }
    requires script { IsValidScript list.now script.now }
    requires start { start_of list.now script.now ≡ Some (told_start start) }
    ensures { result ≡ lost_frame list.now script.now (told_start start) }
{
    let mut walk = BackFaulty::new(list, script, start);
    for slot in 0..script.slots {
        let faults = walk.step_faults(list, script, slot);
        if faults.breaks {
            return Some(lost_in(list, script, start, &faults, slot));
        }
    }
    None
}
