//! Faults that come less than two rounds after the start or the fault before.
ghost use Rattle.std.specs.Prelude.{◌≡◌, ◌+◌, ◌*◌, ◌<◌, ◌∷◌, [], slice_get, Some};
ghost use Rattle.ttp_base.specs.NodeSet.{most_nodes};
ghost use Rattle.ttp_world.specs.Hypothesis.{start_of};
ghost use Rattle.ttp_world.specs.Medl.{IsValid};
ghost use Rattle.ttp_world.specs.Script.{IsValidScript};
ghost use Rattle.hypothesis.specs.FaultyRuns.{AreFaultsAt};
ghost use Rattle.hypothesis.specs.Standing.{told_start};
ghost use Rattle.hypothesis.specs.Walks.{all_in};
ghost use Rattle.broken_faults.specs.Faults.{slot_since, new_faults_in, early_fault};
ghost use Rattle.broken_faults.specs.Seen.{IsFault, LooksOver};

use crate::causes::{Fault, by_jump, by_loss, cause_of};
use hypothesis::{BackFaulty, SlotFaults, Start};
use ttp_world::{Medl, SLOT_LIMIT, Script};

/// What a fault is to lie two rounds behind.
#[derive(Clone, Copy)]
pub enum Since {
    /// The start, in this slot.
    Start { slot: u32 },
    /// The fault of this node in this slot.
    Fault { slot: u32, node: u8 },
}

/// A node that becomes faulty too early.
#[derive(Clone, Copy)]
pub struct EarlyFault {
    pub slot: u32,
    pub node: u8,
    /// The first slot in which it might have.
    pub earliest: u32,
    pub since: Since,
    /// The place among the script's events of the line that caused it.
    pub cause: Option<usize>,
}

fn slot_since(since: Since) -> u32
    ensures { result ≡ slot_since since }
{
    match since {
        Since::Start { slot } | Since::Fault { slot, .. } => slot,
    }
}

// A fault more, if it comes too early. The next one is to lie behind it.
fn early_with(
    list: &Medl,
    script: &Script,
    start: Start,
    fault: &Fault,
    since: &mut Since,
) -> Option<EarlyFault>
    requires valid { IsValid list.now }
    requires script { IsValidScript list.now script.now }
    requires bound { slot_since since.old < SLOT_LIMIT + 3 * most_nodes }
    requires known { IsFault list.now script.now (told_start start) fault.now }
    ensures since { since.new ≡ Since.Fault fault.now.slot fault.now.node }
    ensures early { LooksOver list.now script.now (told_start start) since.old
        (all_in fault.now.slot (fault.now.node ∷ [])) result since.new }
{
    let before = *since;
    let earliest = slot_since(before) + 2 * u32::from(list.nodes());
    *since = Since::Fault {
        slot: fault.slot,
        node: fault.node,
    };
    if fault.slot < earliest {
        Some(EarlyFault {
            slot: fault.slot,
            node: fault.node,
            earliest,
            since: before,
            cause: cause_of(list, script, start, fault),
        })
    } else {
        None
    }
}

// The faults by jumps of a slot more, of which this node's is the first.
fn early_first(
    list: &Medl,
    script: &Script,
    start: Start,
    faults: &SlotFaults,
    slot: u32,
    node: u8,
    since: &mut Since,
) -> Option<EarlyFault>
    requires valid { IsValid list.now }
    requires script { IsValidScript list.now script.now }
    requires slot { slot < script.now.slots }
    requires bound { slot_since since.old < SLOT_LIMIT + 3 * most_nodes }
    requires faults { AreFaultsAt list.now script.now (told_start start) slot faults.now }
    requires first { slice_get faults.now.jumped 0 ≡ Some node }
    ensures bound { slot_since since.new < SLOT_LIMIT + 3 * most_nodes }
    ensures early { LooksOver list.now script.now (told_start start) since.old (all_in slot faults.now.jumped) result since.new }
{
    let fault = by_jump(list, script, start, slot, node, faults);
    let early = early_with(list, script, start, &fault, since);
    if early.is_some() {
        return early;
    }
    match faults.jumped.without(node).first() {
        Some(next) => {
            let second = by_jump(list, script, start, slot, next, faults);
            early_with(list, script, start, &second, since)
        }
        None => None,
    }
}

// The faults by jumps of a slot more, up to one that comes too early. Of two the second does.
fn early_jump(
    list: &Medl,
    script: &Script,
    start: Start,
    faults: &SlotFaults,
    slot: u32,
    since: &mut Since,
) -> Option<EarlyFault>
    requires valid { IsValid list.now }
    requires script { IsValidScript list.now script.now }
    requires slot { slot < script.now.slots }
    requires bound { slot_since since.old < SLOT_LIMIT + 3 * most_nodes }
    requires faults { AreFaultsAt list.now script.now (told_start start) slot faults.now }
    ensures bound { slot_since since.new < SLOT_LIMIT + 3 * most_nodes }
    ensures early { LooksOver list.now script.now (told_start start) since.old (all_in slot faults.now.jumped) result since.new }
{
    match faults.jumped.first() {
        Some(node) => early_first(list, script, start, faults, slot, node, since),
        None => None,
    }
}

// The one by a loss more, if there is one.
fn early_loss(
    list: &Medl,
    script: &Script,
    start: Start,
    faults: &SlotFaults,
    slot: u32,
    since: &mut Since,
) -> Option<EarlyFault>
    requires valid { IsValid list.now }
    requires script { IsValidScript list.now script.now }
    requires slot { slot < script.now.slots }
    requires bound { slot_since since.old < SLOT_LIMIT + 3 * most_nodes }
    requires faults { AreFaultsAt list.now script.now (told_start start) slot faults.now }
    ensures bound { slot_since since.new < SLOT_LIMIT + 3 * most_nodes }
    ensures early { LooksOver list.now script.now (told_start start) since.old (all_in slot faults.now.made) result since.new }
{
    match by_loss(list, script, start, slot, faults) {
        Some(fault) => early_with(list, script, start, &fault, since),
        None => None,
    }
}

// The faults of a slot more, up to one that comes too early.
fn early_in(
    list: &Medl,
    script: &Script,
    start: Start,
    faults: &SlotFaults,
    slot: u32,
    since: &mut Since,
) -> Option<EarlyFault>
    requires valid { IsValid list.now }
    requires script { IsValidScript list.now script.now }
    requires slot { slot < script.now.slots }
    requires bound { slot_since since.old < SLOT_LIMIT + 3 * most_nodes }
    requires faults { AreFaultsAt list.now script.now (told_start start) slot faults.now }
    ensures bound { slot_since since.new < SLOT_LIMIT + 3 * most_nodes }
    ensures early { LooksOver list.now script.now (told_start start) since.old
        (new_faults_in list.now script.now (told_start start) slot) result since.new }
{
    let early = early_jump(list, script, start, faults, slot, since);
    if early.is_some() {
        return early;
    }
    early_loss(list, script, start, faults, slot, since)
}

/// The first fault that comes too early.
pub(crate) fn early_fault(list: &Medl, script: &Script, start: Start) -> Option<EarlyFault>
    requires valid { IsValid list.now }
    requires script { IsValidScript list.now script.now }
    requires start { start_of list.now script.now ≡ Some (told_start start) }
    requires bound { start.slot < SLOT_LIMIT + 3 * most_nodes }
    ensures { result ≡ early_fault list.now script.now (told_start start) }
{
    let mut walk = BackFaulty::new(list, script, start);
    let mut since = Since::Start { slot: start.slot };
    for slot in 0..script.slots {
        let faults = walk.step_faults(list, script, slot);
        let early = early_in(list, script, start, &faults, slot, &mut since);
        if early.is_some() {
            return early;
        }
    }
    None
}
