//! Why an arm line does not give its node its place: its conditions one by one.
ghost use Rattle.std.specs.Prelude.{◌≡◌, ◌+◌, ◌<◌, min, ◌||◌, ◌++◌, length, slice_get, Some, option_map, IfSome};
ghost use Rattle.ttp_base.specs.NodeSet.{has_node, most_nodes};
ghost use Rattle.ttp_world.specs.Hypothesis.{jumpers_in, loss_in, nodes_made, numbers_of, start_of};
ghost use Rattle.ttp_world.specs.Medl.{IsValid};
ghost use Rattle.ttp_world.specs.Returning.{faulty_at, four_rounds, is_offered, run_slots};
ghost use Rattle.ttp_world.specs.Script.{IsValidScript};
ghost use Rattle.hypothesis.specs.FaultyRuns.{AreFaultsAt, IsBackAt};
ghost use Rattle.hypothesis.specs.Standing.{told_start, HaveSameNodes};
ghost use Rattle.broken_arms.specs.Arms.{deaf_in, faulty_from, joins, last_in_rounds, near_fault, own_line_slot, own_event_slot};
ghost use Rattle.broken_arms.specs.Arms.{unheard, unheard_in, by_own_line, by_near_fault, why_not_owed};
ghost use Rattle.broken_arms.specs.Since.{IsSince};
ghost use Rattle.broken_faults.specs.Faults.{faulty_in};

use hypothesis::{
    BackFaulty, SlotFaults, Start, expected_sender, four_rounds, is_deaf, is_only_arm, lesser,
    offers_place, touches, two_rounds,
};
use ttp_base::NodeSet;
use ttp_world::{Event, Medl, SLOT_LIMIT, Script};

/// Why an arm line does not give its node its place: the first of these.
#[derive(Clone, Copy)]
pub enum NotOwed {
    /// It is not faulty before.
    NotFaulty,
    /// It is faulty since this slot, and may be armed from that one on.
    TooSoon {
        since: u32,
        due: u32,
    },
    /// This node becomes faulty in this slot, where none may from one slot to another.
    Joins {
        node: u8,
        slot: u32,
        from: u32,
        to: u32,
    },
    /// Another arm line stands in the slots up to this one.
    OtherArm {
        to: u32,
    },
    /// A line of its sending, its hearing or its clock stands in this slot, where none may up to another.
    OwnLine {
        slot: u32,
        to: u32,
    },
    /// This node, which is on and not faulty, does not hear its slot.
    Unheard {
        node: u8,
        slot: u32,
    },
    /// No other node sends a frame to join on in the slots up to this one.
    NoPlace {
        to: u32,
    },
}

// The end of the four rounds from a slot on, or that of the run.
fn end_of(list: &Medl, script: &Script, slot: u32) -> u32
    requires valid { IsValid list.now }
    requires slot { slot < SLOT_LIMIT }
    ensures { result ≡ min (slot + four_rounds list.now) script.now.slots }
{
    (slot + four_rounds(list)).min(script.slots)
}

// Whether a node becomes faulty in a slot that makes these faults.
fn has_joined(
    list: &Medl,
    script: &Script,
    start: Start,
    faults: &SlotFaults,
    node: u8,
    slot: u32,
) -> bool
    requires node { node < most_nodes }
    requires faults { AreFaultsAt list.now script.now (told_start start) slot faults.now }
    ensures { result
        ≡ (has_node (jumpers_in list.now script.now (faulty_in list.now script.now (told_start start) slot) slot) node
        || has_node (nodes_made (loss_in list.now script.now (told_start start)
        (faulty_in list.now script.now (told_start start) slot) slot)) node) }
{
    if faults.jumped.has(node) {
        return true;
    }
    faults.made.has(node)
}

// Since when a node is faulty after a slot, where it was so before it since another, if it was.
fn since_with(
    list: &Medl,
    script: &Script,
    start: Start,
    faults: &SlotFaults,
    node: u8,
    slot: u32,
    since: Option<u32>,
) -> Option<u32>
    requires node { node < most_nodes }
    requires faults { AreFaultsAt list.now script.now (told_start start) slot faults.now }
    requires since { IsSince list.now script.now (told_start start) node slot since }
    ensures { IsSince list.now script.now (told_start start) node (slot + 1) result }
{
    if faults.before.has(node) {
        return since;
    }
    if has_joined(list, script, start, faults, node, slot) {
        return Some(slot);
    }
    None
}

// Since when a node is faulty that is so at the beginning of a slot.
fn faulty_from(list: &Medl, script: &Script, start: Start, node: u8, slot: u32) -> Option<u32>
    requires valid { IsValid list.now }
    requires script { IsValidScript list.now script.now }
    requires start { start_of list.now script.now ≡ Some (told_start start) }
    requires slot { slot < script.now.slots }
    requires node { node < length list.now.slots }
    ensures value { faulty_from (faulty_at list.now script.now (told_start start) slot) node ≡ result }
    ensures bound { IfSome result (λ since. since < slot) }
{
    let mut walk = BackFaulty::new(list, script, start);
    let mut since = None;
    for at in 0..slot {
        let faults = walk.step_faults(list, script, at);
        since = since_with(list, script, start, &faults, node, at, since);
    }
    let last = walk.step_faults(list, script, slot);
    if last.before.has(node) {
        return since;
    }
    None
}

// A walk over the slots before a slot.
fn walk_to(list: &Medl, script: &Script, start: Start, slot: u32) -> BackFaulty
    requires valid { IsValid list.now }
    requires script { IsValidScript list.now script.now }
    requires start { start_of list.now script.now ≡ Some (told_start start) }
    requires slot { slot < script.now.slots }
    ensures { IsBackAt list.now script.now slot result }
{
    let mut walk = BackFaulty::new(list, script, start);
    for at in 0..slot {
        walk.step_faults(list, script, at);
    }
    walk
}

// The first node that becomes faulty in a slot.
fn first_of(faults: &SlotFaults) -> Option<u8>
    ensures { result ≡ slice_get (faults.now.jumped ++ faults.now.made) 0 }
{
    let jumped = faults.jumped.first();
    if jumped.is_some() {
        return jumped;
    }
    faults.made.first()
}

// The first node that becomes faulty in the two rounds up to a slot or in the four from it on.
fn near_fault(list: &Medl, script: &Script, start: Start, slot: u32) -> Option<NotOwed>
    requires valid { IsValid list.now }
    requires script { IsValidScript list.now script.now }
    requires start { start_of list.now script.now ≡ Some (told_start start) }
    requires slot { slot < script.now.slots }
    ensures { result ≡ option_map (joins list.now script.now slot)
        (near_fault list.now script.now (told_start start) slot) }
{
    let from = (slot + 1).saturating_sub(two_rounds(list));
    let end = end_of(list, script, slot);
    let mut walk = walk_to(list, script, start, from);
    for at in from..end {
        let faults = walk.step_faults(list, script, at);
        if let Some(node) = first_of(&faults) {
            return Some(NotOwed::Joins {
                node,
                slot: at,
                from,
                to: end - 1,
            });
        }
    }
    None
}

// The first of the four rounds' slots in which a line of a node's sending, hearing or clock stands.
fn own_event_slot(list: &Medl, node: u8, slot: u32, event: &Event) -> Option<u32>
    requires valid { IsValid list.now }
    requires slot { slot < SLOT_LIMIT }
    ensures { result ≡ own_event_slot list.now node slot event.now }
{
    match event {
        Event::Send {
            node: k,
            from,
            to,
            ..
        }
        | Event::Receive {
            node: k,
            from,
            to,
            ..
        } => {
            if *k == node && touches(list, slot, *from, *to) {
                Some((*from).max(slot))
            } else {
                None
            }
        }
        Event::Jump {
            node: k,
            slot: at,
            ..
        } => {
            if *k == node && touches(list, slot, *at, *at) {
                Some(*at)
            } else {
                None
            }
        }
        _ => None,
    }
}

// That of all events.
fn own_line_slot(list: &Medl, script: &Script, node: u8, slot: u32) -> Option<u32>
    requires valid { IsValid list.now }
    requires slot { slot < SLOT_LIMIT }
    ensures { result ≡ own_line_slot list.now script.now node slot }
{
    let events = script.events.as_slice();
    let mut least = None;
    for place in (0..events.len()).rev() {
        if let Some(at) = own_event_slot(list, node, slot, &events[place]) {
            least = Some(lesser(at, least));
        }
    }
    least
}

// The least node that is on and not faulty, where these are, and hears nothing in a slot.
fn deaf_in(list: &Medl, script: &Script, start: Start, faulty: NodeSet, slot: u32) -> Option<u8>
    requires valid { IsValid list.now }
    requires script { IsValidScript list.now script.now }
    requires faulty { HaveSameNodes faulty (numbers_of (faulty_at list.now script.now (told_start start) slot)) }
    ensures { result ≡ deaf_in list.now script.now (told_start start) slot }
{
    for node in 0..list.nodes() {
        if is_deaf(script, faulty, slot, node) {
            return Some(node);
        }
    }
    None
}

// The same of a slot that is a node's.
fn unheard_in(
    list: &Medl,
    script: &Script,
    start: Start,
    faulty: NodeSet,
    node: u8,
    slot: u32,
) -> Option<NotOwed>
    requires valid { IsValid list.now }
    requires script { IsValidScript list.now script.now }
    requires faulty { HaveSameNodes faulty (numbers_of (faulty_at list.now script.now (told_start start) slot)) }
    ensures { result ≡ unheard_in list.now script.now (told_start start) node slot }
{
    if expected_sender(list, start, slot) != node {
        return None;
    }
    match deaf_in(list, script, start, faulty, slot) {
        Some(node) => Some(NotOwed::Unheard { node, slot }),
        None => None,
    }
}

// The first of the four rounds' slots that is a node's and that another does not hear, which is on and not faulty.
fn first_unheard(list: &Medl, script: &Script, start: Start, node: u8, slot: u32) -> Option<NotOwed>
    requires valid { IsValid list.now }
    requires script { IsValidScript list.now script.now }
    requires start { start_of list.now script.now ≡ Some (told_start start) }
    requires slot { slot < script.now.slots }
    ensures { result ≡ unheard list.now script.now (told_start start) node
        (run_slots script.now slot (four_rounds list.now)) }
{
    let mut walk = walk_to(list, script, start, slot);
    for at in slot..end_of(list, script, slot) {
        let faults = walk.step_faults(list, script, at);
        let unheard = unheard_in(list, script, start, faults.before, node, at);
        if unheard.is_some() {
            return unheard;
        }
    }
    None
}

// Whether another node sends a frame to join on in the two rounds from a slot on, as far as the run has them.
fn is_offered(list: &Medl, script: &Script, start: Start, node: u8, slot: u32) -> bool
    requires valid { IsValid list.now }
    requires script { IsValidScript list.now script.now }
    requires start { start_of list.now script.now ≡ Some (told_start start) }
    requires slot { slot < script.now.slots }
    ensures { result ≡ is_offered list.now script.now (told_start start) node slot }
{
    let end = slot + two_rounds(list);
    if script.slots < end {
        return true;
    }
    let mut walk = walk_to(list, script, start, slot);
    for at in slot..end {
        let faults = walk.step_faults(list, script, at);
        if offers_place(list, script, start, faults.before, node, at) {
            return true;
        }
    }
    false
}

// The last three conditions: no line of the node's own, it is heard, and it is offered a place.
fn alone_fails(
    list: &Medl,
    script: &Script,
    start: Start,
    node: u8,
    slot: u32,
    to: u32,
) -> Option<NotOwed>
    requires valid { IsValid list.now }
    requires script { IsValidScript list.now script.now }
    requires start { start_of list.now script.now ≡ Some (told_start start) }
    requires slot { slot < script.now.slots }
    requires to { to ≡ last_in_rounds list.now script.now slot }
    ensures { result ≡ by_own_line list.now script.now (told_start start) node slot (own_line_slot list.now script.now node slot) }
{
    if let Some(at) = own_line_slot(list, script, node, slot) {
        return Some(NotOwed::OwnLine { slot: at, to });
    }
    let unheard = first_unheard(list, script, start, node, slot);
    if unheard.is_some() {
        return unheard;
    }
    if is_offered(list, script, start, node, slot) {
        return None;
    }
    Some(NotOwed::NoPlace {
        to: slot + two_rounds(list) - 1,
    })
}

// Those but the first: no node becomes faulty near, and no other arm line stands.
fn long_faulty_fails(
    list: &Medl,
    script: &Script,
    start: Start,
    node: u8,
    slot: u32,
) -> Option<NotOwed>
    requires valid { IsValid list.now }
    requires script { IsValidScript list.now script.now }
    requires start { start_of list.now script.now ≡ Some (told_start start) }
    requires slot { slot < script.now.slots }
    ensures { result ≡ by_near_fault list.now script.now (told_start start) node slot
        (near_fault list.now script.now (told_start start) slot) }
{
    let near = near_fault(list, script, start, slot);
    if near.is_some() {
        return near;
    }
    let to = end_of(list, script, slot) - 1;
    if is_only_arm(list, script, slot) {
        alone_fails(list, script, start, node, slot, to)
    } else {
        Some(NotOwed::OtherArm { to })
    }
}

// All of them, where the node is faulty since a slot.
fn faulty_fails(
    list: &Medl,
    script: &Script,
    start: Start,
    node: u8,
    slot: u32,
    since: u32,
) -> Option<NotOwed>
    requires valid { IsValid list.now }
    requires script { IsValidScript list.now script.now }
    requires start { start_of list.now script.now ≡ Some (told_start start) }
    requires slot { slot < script.now.slots }
    requires since { faulty_from (faulty_at list.now script.now (told_start start) slot) node ≡ Some since }
    requires bound { since < slot }
    ensures { result ≡ why_not_owed list.now script.now (told_start start) node slot }
{
    let due = since + two_rounds(list);
    if slot < due {
        return Some(NotOwed::TooSoon { since, due });
    }
    long_faulty_fails(list, script, start, node, slot)
}

/// Why an arm line of a node in a slot does not give it its place, if it does not. Goes over the slots four times.
pub(crate) fn why_not_owed(
    list: &Medl,
    script: &Script,
    start: Start,
    node: u8,
    slot: u32,
) -> Option<NotOwed>
    requires valid { IsValid list.now }
    requires script { IsValidScript list.now script.now }
    requires start { start_of list.now script.now ≡ Some (told_start start) }
    requires slot { slot < script.now.slots }
    requires node { node < length list.now.slots }
    ensures { result ≡ why_not_owed list.now script.now (told_start start) node slot }
{
    match faulty_from(list, script, start, node, slot) {
        None => Some(NotOwed::NotFaulty),
        Some(since) => faulty_fails(list, script, start, node, slot, since),
    }
}
