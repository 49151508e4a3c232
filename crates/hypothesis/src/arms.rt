//! Arm lines: what is asked of each, in the four rounds from its slot on.
ghost use Rattle.std.specs.Prelude.{◌≡◌, ℕ, ◌+◌, ◌^◌, ◌<◌, ◌≤◌, nat_lt, min, ◌&&◌, List, length, None};
ghost use Rattle.std.specs.List.{list_any};
ghost use Rattle.ttp_base.specs.NodeSet.{most_nodes};
ghost use Rattle.ttp_world.specs.Hypothesis.{ClusterStart, nodes_of, numbers_of};
ghost use Rattle.ttp_world.specs.Medl.{IsValid};
ghost use Rattle.ttp_world.specs.Returning.{is_long_faulty, two_rounds, four_rounds, is_apart, is_only_arm};
ghost use Rattle.ttp_world.specs.Returning.{is_arm_line, is_left_alone};
ghost use Rattle.ttp_world.specs.Returning.{is_line_of, touches, is_sound, is_deaf, is_missed_in, is_heard, round_of};
ghost use Rattle.ttp_world.specs.Returning.{offers_place, is_offered, may_return, fails_if_armed, breaks_arm_in};
ghost use Rattle.ttp_world.specs.Returning.{disturbance_broken, faulty_at};
ghost use Rattle.ttp_world.specs.Script.{IsValidScript};
ghost use Rattle.ttp_world.specs.declared.medl.Medl.{Medl};
ghost use Rattle.ttp_world.specs.declared.script.Script.{Script};
ghost use Rattle.hypothesis.specs.FaultySlots.{kept_slots, AreNewest, HasRoundsFrom};
ghost use Rattle.hypothesis.specs.SlotIncidents.{AreKeptFrom};
ghost use Rattle.hypothesis.specs.Standing.{told_start, HaveSameNodes};
ghost use Rattle.hypothesis.specs.Walks.{joined_in};

use crate::incidents::{KeptIncidents, go_on};
use crate::losses::{Jumps, expected_sender};
use crate::newest::{NewestSlots, slot_at};
use crate::start::Start;
use ttp_base::NodeSet;
use ttp_world::{Event, Kind, Medl, SLOT_LIMIT, Script};

/// Two rounds, in slots.
pub fn two_rounds(list: &Medl) -> u32
    requires { IsValid list.now }
    ensures { result ≡ two_rounds list.now }
{
    2 * u32::from(list.nodes())
}

/// Four rounds, in slots.
pub fn four_rounds(list: &Medl) -> u32
    requires { IsValid list.now }
    ensures { result ≡ four_rounds list.now }
{
    4 * u32::from(list.nodes())
}

// The end of so many slots from a slot on, or that of the run.
fn end_of(script: &Script, slot: u32, count: u32) -> u32
    requires { slot + count < 2 ^ 32 }
    ensures { result ≡ min (slot + count) script.now.slots }
{
    (slot + count).min(script.slots)
}

// Whether a node becomes faulty in a slot.
fn joins_in(newest: &NewestSlots, slot: u32) -> bool
    requires come { slot < newest.now.end }
    requires kept { newest.now.end ≤ slot + kept_slots }
    ensures { (list : Medl) (script : Script) (start : ClusterStart) → AreNewest list script start newest.now
        → result ≡ nat_lt 0 (length (joined_in list script start slot)) }
{
    slot_at(newest, slot).joined > 0
}

// Whether no node becomes faulty in the two rounds up to a slot and the four from it on.
fn is_apart(list: &Medl, script: &Script, newest: &NewestSlots, slot: u32) -> bool
    requires valid { IsValid list.now }
    requires script { IsValidScript list.now script.now }
    requires slot { slot < script.now.slots }
    requires come { HasRoundsFrom list.now script.now slot newest.now.end }
    ensures { (start : ClusterStart) → AreNewest list.now script.now start newest.now
        → result ≡ is_apart list.now script.now start slot }
{
    let from = (slot + 1).saturating_sub(two_rounds(list));
    for at in from..end_of(script, slot, four_rounds(list)) {
        if joins_in(newest, at) {
            return false;
        }
    }
    true
}

// Whether an event is an arm line in the four rounds from a slot on.
fn is_arm_line(list: &Medl, slot: u32, event: &Event) -> bool
    requires valid { IsValid list.now }
    requires slot { slot < SLOT_LIMIT }
    ensures { result ≡ is_arm_line list.now slot event.now }
{
    match event {
        Event::Arm { slot: at, .. } => slot <= *at && *at < slot + four_rounds(list),
        _ => false,
    }
}

/// Whether there is one arm line alone in the four rounds from a slot on. Goes over all events.
pub fn is_only_arm(list: &Medl, script: &Script, slot: u32) -> bool
    requires valid { IsValid list.now }
    requires script { IsValidScript list.now script.now }
    requires slot { slot < script.now.slots }
    ensures { result ≡ is_only_arm list.now script.now slot }
{
    let mut count = 0usize;
    for event in script.events.as_slice() {
        if is_arm_line(list, slot, event) {
            count += 1;
        }
    }
    count == 1
}

/// Whether slots lie in the four rounds from a slot on, some of them.
pub fn touches(list: &Medl, slot: u32, from: u32, to: u32) -> bool
    requires valid { IsValid list.now }
    requires slot { slot < SLOT_LIMIT }
    ensures { result ≡ touches list.now slot from to }
{
    from < slot + four_rounds(list) && slot <= to
}

// Whether an event speaks of what a node sends or hears, or of its clock, in the four rounds from a slot on.
fn is_line_of(list: &Medl, node: u8, slot: u32, event: &Event) -> bool
    requires valid { IsValid list.now }
    requires slot { slot < SLOT_LIMIT }
    ensures { result ≡ is_line_of list.now node slot event.now }
{
    match event {
        Event::Send {
            node: named,
            from,
            to,
            ..
        }
        | Event::Receive {
            node: named,
            from,
            to,
            ..
        } => *named == node && touches(list, slot, *from, *to),
        Event::Jump {
            node: named,
            slot: at,
            ..
        } => *named == node && touches(list, slot, *at, *at),
        _ => false,
    }
}

// Whether no event does.
fn is_left_alone(list: &Medl, script: &Script, node: u8, slot: u32) -> bool
    requires valid { IsValid list.now }
    requires script { IsValidScript list.now script.now }
    requires slot { slot < script.now.slots }
    ensures { result ≡ is_left_alone list.now script.now node slot }
{
    for event in script.events.as_slice() {
        if is_line_of(list, node, slot, event) {
            return false;
        }
    }
    true
}

/// Whether a node is on and not faulty, where these are.
pub fn is_sound(script: &Script, faulty: NodeSet, slot: u32, node: u8) -> bool
    requires on { node < length script.now.on }
    requires node { node < most_nodes }
    ensures { result ≡ is_sound script.now faulty slot node }
{
    script.is_on(node, slot) && !faulty.has(node)
}

/// Whether a node that is on and not faulty hears nothing in a slot, where these are. Costs a look-up.
pub fn is_deaf(script: &Script, faulty: NodeSet, slot: u32, node: u8) -> bool
    requires on { node < length script.now.on }
    requires node { node < most_nodes }
    ensures { result ≡ is_deaf script.now faulty slot node }
{
    if !is_sound(script, faulty, slot, node) {
        return false;
    }
    let hearing = script.incidents(node, slot);
    (hearing.receive_silence.a || hearing.receive_noise.a)
        && (hearing.receive_silence.b || hearing.receive_noise.b)
}

// Whether some node that is not faulty hears nothing in a slot, where these are.
fn is_any_deaf(list: &Medl, script: &Script, faulty: NodeSet, slot: u32) -> bool
    requires valid { IsValid list.now }
    requires script { IsValidScript list.now script.now }
    ensures { (faulties : List ℕ) → HaveSameNodes faulty faulties
        → result ≡ list_any (is_deaf script.now faulties slot) (nodes_of list.now) }
{
    for node in 0..list.nodes() {
        if is_deaf(script, faulty, slot, node) {
            return true;
        }
    }
    false
}

// Whether a slot is a node's, and some node that is not faulty hears nothing in it, where these are.
fn is_missed_in(
    list: &Medl,
    script: &Script,
    start: Start,
    faulty: NodeSet,
    node: u8,
    slot: u32,
) -> bool
    requires valid { IsValid list.now }
    requires script { IsValidScript list.now script.now }
    ensures { HaveSameNodes faulty (numbers_of (faulty_at list.now script.now (told_start start) slot))
        → result ≡ is_missed_in list.now script.now (told_start start) node slot }
{
    expected_sender(list, start, slot) == node && is_any_deaf(list, script, faulty, slot)
}

// Whether in the four rounds from a slot on each node that is not faulty hears a node's frames, on one
// channel at least.
fn is_heard(
    list: &Medl,
    script: &Script,
    start: Start,
    newest: &NewestSlots,
    node: u8,
    slot: u32,
) -> bool
    requires valid { IsValid list.now }
    requires script { IsValidScript list.now script.now }
    requires slot { slot < script.now.slots }
    requires come { HasRoundsFrom list.now script.now slot newest.now.end }
    requires newest { AreNewest list.now script.now (told_start start) newest.now }
    ensures { result ≡ is_heard list.now script.now (told_start start) node slot }
{
    for at in slot..end_of(script, slot, four_rounds(list)) {
        if is_missed_in(list, script, start, slot_at(newest, at).stayed, node, at) {
            return false;
        }
    }
    true
}

// The round of the cluster cycle of a slot, from the start on.
fn round_of(list: &Medl, start: Start, slot: u32) -> u8
    requires valid { IsValid list.now }
    ensures value { result ≡ round_of list.now (told_start start) slot }
    ensures bound { result < list.now.rounds }
{
    let turns = u64::from(start.node) + u64::from(slot.saturating_sub(start.slot));
    (turns / u64::from(list.nodes()) % u64::from(list.rounds)) as u8
}

/// Whether another node that is not faulty sends a frame in a slot that can be joined on, where these are. A few steps.
pub fn offers_place(
    list: &Medl,
    script: &Script,
    start: Start,
    faulty: NodeSet,
    node: u8,
    slot: u32,
) -> bool
    requires valid { IsValid list.now }
    requires script { IsValidScript list.now script.now }
    ensures { HaveSameNodes faulty (numbers_of (faulty_at list.now script.now (told_start start) slot))
        → result ≡ offers_place list.now script.now (told_start start) node slot }
{
    let sender = expected_sender(list, start, slot);
    sender != node
        && is_sound(script, faulty, slot, sender)
        && list.kind_at(round_of(list, start, slot), sender) != Kind::N
}

// Whether one does in the two rounds from a slot on, as far as they are asked for.
fn is_offered(
    list: &Medl,
    script: &Script,
    start: Start,
    newest: &NewestSlots,
    node: u8,
    slot: u32,
) -> bool
    requires valid { IsValid list.now }
    requires script { IsValidScript list.now script.now }
    requires slot { slot < script.now.slots }
    requires come { HasRoundsFrom list.now script.now slot newest.now.end }
    requires newest { AreNewest list.now script.now (told_start start) newest.now }
    ensures { result ≡ is_offered list.now script.now (told_start start) node slot }
{
    let end = slot + two_rounds(list);
    if script.slots < end {
        return true;
    }
    for at in slot..end {
        if offers_place(list, script, start, slot_at(newest, at).stayed, node, at) {
            return true;
        }
    }
    false
}

// Whether a node has been faulty for two rounds, and no node becomes faulty near the slot. A node that is
// faulty has been so for two rounds where no node became faulty in them.
fn is_long_faulty(
    list: &Medl,
    script: &Script,
    start: Start,
    newest: &NewestSlots,
    node: u8,
    slot: u32,
) -> bool
    requires valid { IsValid list.now }
    requires script { IsValidScript list.now script.now }
    requires slot { slot < script.now.slots }
    requires node { node < length list.now.slots }
    requires come { HasRoundsFrom list.now script.now slot newest.now.end }
    requires newest { AreNewest list.now script.now (told_start start) newest.now }
    ensures { result ≡ (is_long_faulty list.now script.now (told_start start) node slot
        && is_apart list.now script.now (told_start start) slot) }
{
    if !is_apart(list, script, newest, slot) {
        return false;
    }
    slot_at(newest, slot).stayed.has(node)
}

// Whether an arm line meets all that is asked of it.
fn may_return(
    list: &Medl,
    script: &Script,
    start: Start,
    newest: &NewestSlots,
    node: u8,
    slot: u32,
) -> bool
    requires valid { IsValid list.now }
    requires script { IsValidScript list.now script.now }
    requires slot { slot < script.now.slots }
    requires node { node < length list.now.slots }
    requires come { HasRoundsFrom list.now script.now slot newest.now.end }
    requires newest { AreNewest list.now script.now (told_start start) newest.now }
    ensures { result ≡ may_return list.now script.now (told_start start) node slot }
{
    is_long_faulty(list, script, start, newest, node, slot)
        && is_only_arm(list, script, slot)
        && is_left_alone(list, script, node, slot)
        && is_heard(list, script, start, newest, node, slot)
        && is_offered(list, script, start, newest, node, slot)
}

// Whether a node does not meet what is asked of it, if it is armed in the slot.
fn fails_if_armed(
    list: &Medl,
    script: &Script,
    start: Start,
    newest: &NewestSlots,
    node: u8,
    slot: u32,
    armed: bool,
) -> bool
    requires valid { IsValid list.now }
    requires script { IsValidScript list.now script.now }
    requires slot { slot < script.now.slots }
    requires node { node < length list.now.slots }
    requires come { HasRoundsFrom list.now script.now slot newest.now.end }
    requires newest { AreNewest list.now script.now (told_start start) newest.now }
    ensures { result ≡ fails_if_armed list.now script.now (told_start start) node slot armed }
{
    if !armed {
        return false;
    }
    !may_return(list, script, start, newest, node, slot)
}

/// Whether a node that is armed in a slot does not meet what is asked of it. A few steps where none is and
/// the same happens as in the slot before.
pub(crate) fn breaks_arm_in(
    list: &Medl,
    script: &Script,
    start: Start,
    jumps: Jumps,
    newest: &NewestSlots,
    slot: u32,
    kept: &mut KeptIncidents,
) -> bool
    requires valid { IsValid list.now }
    requires script { IsValidScript list.now script.now }
    requires slot { slot < script.now.slots }
    requires come { HasRoundsFrom list.now script.now slot newest.now.end }
    requires newest { AreNewest list.now script.now (told_start start) newest.now }
    requires inside { jumps ≡ Jumps.Far → disturbance_broken list.now script.now ≡ None }
    requires kept { AreKeptFrom list.now script.now slot kept.old }
    ensures kept { AreKeptFrom list.now script.now (slot + 1) kept.new }
    ensures value { result ≡ breaks_arm_in list.now script.now (told_start start) slot }
{
    go_on(list, script, jumps, slot, kept);
    if !kept.incidents.kinds.arm {
        return false;
    }
    for node in 0..list.nodes() {
        let armed = kept.incidents.nodes[node as usize].incidents.armed;
        if fails_if_armed(list, script, start, newest, node, slot, armed) {
            return true;
        }
    }
    false
}
