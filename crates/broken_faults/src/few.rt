//! Fewer than four nodes to measure clocks by.
ghost use Rattle.std.specs.Prelude.{◌≡◌, ℕ, ◌+◌, ◌*◌, ◌<◌, true, length, filter, find, Some, IfSome, option_map};
ghost use Rattle.ttp_base.specs.NodeSet.{most_nodes};
ghost use Rattle.ttp_world.specs.Hypothesis.{is_steady, nodes_of, slots_since_start, start_of};
ghost use Rattle.ttp_world.specs.Medl.{IsValid};
ghost use Rattle.ttp_world.specs.Returning.{has_four_before, lacks_four_after};
ghost use Rattle.ttp_world.specs.Script.{IsValidScript};
ghost use Rattle.hypothesis.specs.FaultyRuns.{AreFaultsAt};
ghost use Rattle.hypothesis.specs.Standing.{told_start};
ghost use Rattle.hypothesis.specs.Walks.{all_in};
ghost use Rattle.broken_faults.specs.Faults.{cause_of, cause_if, new_faults_in, newest_fault, few_after, few_in, too_few_left};
ghost use Rattle.broken_faults.specs.Seen.{told_fault, IsFault, IsSeenAt};

use crate::causes::{Fault, by_jump, by_loss, cause_of};
use hypothesis::{BackFaulty, SlotFaults, Start, has_four_steady, is_steady};
use ttp_base::NodeSet;
use ttp_world::{Medl, SLOT_LIMIT, Script};

/// Fewer than four nodes to measure are left.
#[derive(Clone, Copy)]
pub struct TooFew {
    pub slot: u32,
    pub left: NodeSet,
    /// The place among the script's events of the line that caused the newest fault, if there is one.
    pub cause: Option<usize>,
}

// The nodes with `sync` that are ever on and not faulty, where these are.
fn left_of(list: &Medl, script: &Script, faulty: NodeSet) -> NodeSet
    requires valid { IsValid list.now }
    requires script { IsValidScript list.now script.now }
    ensures { result ≡ filter (is_steady list.now script.now faulty) (nodes_of list.now) }
{
    let mut left = NodeSet::empty();
    for node in 0..list.nodes() {
        if is_steady(list, script, faulty, node) {
            left = left.with(node);
        }
    }
    left
}

/// What the slots so far have shown: who is faulty after them, and the newest fault.
#[derive(Clone, Copy)]
pub(crate) struct Seen {
    walk: BackFaulty,
    faulty: NodeSet,
    newest: Option<Fault>,
}

// Nothing so far.
fn nothing_seen(list: &Medl, script: &Script, start: Start) -> Seen
    requires valid { IsValid list.now }
    requires script { IsValidScript list.now script.now }
    requires start { start_of list.now script.now ≡ Some (told_start start) }
    ensures { IsSeenAt list.now script.now (told_start start) 0 result }
{
    Seen {
        walk: BackFaulty::new(list, script, start),
        faulty: NodeSet::empty(),
        newest: None,
    }
}

// The newest of those that jump in a slot, and of one before it.
fn newest_jump(
    list: &Medl,
    script: &Script,
    start: Start,
    slot: u32,
    faults: &SlotFaults,
    before: Option<Fault>,
) -> Option<Fault>
    requires valid { IsValid list.now }
    requires faults { AreFaultsAt list.now script.now (told_start start) slot faults.now }
    requires known { IfSome before (IsFault list.now script.now (told_start start)) }
    ensures told { told_fault result ≡ newest_fault (told_fault before) (all_in slot faults.now.jumped) }
    ensures known { IfSome result (IsFault list.now script.now (told_start start)) }
{
    let mut newest = before;
    for node in 0..list.nodes() {
        if faults.jumped.has(node) {
            let fault = by_jump(list, script, start, slot, node, faults);
            newest = Some(fault);
        }
    }
    newest
}

// The newest fault, once a slot has made these.
fn newest_with(
    list: &Medl,
    script: &Script,
    start: Start,
    slot: u32,
    faults: &SlotFaults,
    before: Option<Fault>,
) -> Option<Fault>
    requires valid { IsValid list.now }
    requires faults { AreFaultsAt list.now script.now (told_start start) slot faults.now }
    requires known { IfSome before (IsFault list.now script.now (told_start start)) }
    ensures told { told_fault result
        ≡ newest_fault (told_fault before) (new_faults_in list.now script.now (told_start start) slot) }
    ensures known { IfSome result (IsFault list.now script.now (told_start start)) }
{
    match by_loss(list, script, start, slot, faults) {
        Some(fault) => Some(fault),
        None => newest_jump(list, script, start, slot, faults, before),
    }
}

// One slot more.
fn see_slot(list: &Medl, script: &Script, start: Start, slot: u32, seen: &mut Seen)
    requires valid { IsValid list.now }
    requires script { IsValidScript list.now script.now }
    requires start { start_of list.now script.now ≡ Some (told_start start) }
    requires slot { slot < SLOT_LIMIT + 3 * most_nodes }
    requires seen { IsSeenAt list.now script.now (told_start start) slot seen.old }
    ensures { IsSeenAt list.now script.now (told_start start) (slot + 1) seen.new }
{
    let faults = seen.walk.step_faults(list, script, slot);
    seen.faulty = faults.faulty;
    seen.newest = newest_with(list, script, start, slot, &faults, seen.newest);
}

// The line that caused the newest fault, if there is one.
fn cause_if(list: &Medl, script: &Script, start: Start, newest: &Option<Fault>) -> Option<usize>
    requires valid { IsValid list.now }
    requires script { IsValidScript list.now script.now }
    requires known { IfSome newest.now (IsFault list.now script.now (told_start start)) }
    ensures { result ≡ cause_if (cause_of list.now script.now (told_start start)) (told_fault newest.now) }
{
    match newest {
        Some(fault) => cause_of(list, script, start, fault),
        None => None,
    }
}

// Who is left after the slots so far, in this slot.
fn few_after(list: &Medl, script: &Script, start: Start, slot: u32, seen: &Seen) -> TooFew
    requires valid { IsValid list.now }
    requires script { IsValidScript list.now script.now }
    requires known { IfSome seen.now.newest (IsFault list.now script.now (told_start start)) }
    ensures { (count : ℕ) → IsSeenAt list.now script.now (told_start start) count seen.now
        → result ≡ few_after list.now script.now (told_start start) slot count }
{
    TooFew {
        slot,
        left: left_of(list, script, seen.faulty),
        cause: cause_if(list, script, start, &seen.newest),
    }
}

// What is seen of the slots before the start.
fn seen_before(list: &Medl, script: &Script, start: Start) -> Seen
    requires valid { IsValid list.now }
    requires script { IsValidScript list.now script.now }
    requires start { start_of list.now script.now ≡ Some (told_start start) }
    requires bound { start.slot < SLOT_LIMIT + 3 * most_nodes }
    ensures { IsSeenAt list.now script.now (told_start start) start.slot result }
{
    let mut seen = nothing_seen(list, script, start);
    for slot in 0..start.slot {
        see_slot(list, script, start, slot, &mut seen);
    }
    seen
}

// The first slot from that of the start on after which fewer than four are left, where there are enough at it.
fn few_since(list: &Medl, script: &Script, start: Start, before: Seen) -> Option<TooFew>
    requires valid { IsValid list.now }
    requires script { IsValidScript list.now script.now }
    requires start { start_of list.now script.now ≡ Some (told_start start) }
    requires bound { start.slot < SLOT_LIMIT + 3 * most_nodes }
    requires seen { IsSeenAt list.now script.now (told_start start) start.slot before }
    requires enough { has_four_before list.now script.now (told_start start) start.slot ≡ true }
    ensures { result ≡ option_map (few_in list.now script.now (told_start start))
        (find (lacks_four_after list.now script.now (told_start start)) (slots_since_start script.now (told_start start))) }
{
    let mut seen = before;
    for slot in start.slot..script.slots {
        see_slot(list, script, start, slot, &mut seen);
        if !has_four_steady(list, script, seen.faulty) {
            return Some(few_after(list, script, start, slot, &seen));
        }
    }
    None
}

/// The first slot, from that of the start on, after which fewer than four are left; that of the start also where
/// they are too few at it.
pub(crate) fn too_few_left(list: &Medl, script: &Script, start: Start) -> Option<TooFew>
    requires valid { IsValid list.now }
    requires script { IsValidScript list.now script.now }
    requires start { start_of list.now script.now ≡ Some (told_start start) }
    requires bound { start.slot < SLOT_LIMIT + 3 * most_nodes }
    ensures { result ≡ too_few_left list.now script.now (told_start start) }
{
    let seen = seen_before(list, script, start);
    if has_four_steady(list, script, seen.faulty) {
        few_since(list, script, start, seen)
    } else {
        Some(few_after(list, script, start, start.slot, &seen))
    }
}
