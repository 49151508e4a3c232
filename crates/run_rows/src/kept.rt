//! What is kept of nodes from slot to slot.
ghost use Rattle.std.specs.Prelude.{◌≡◌, ◌<◌, ◌+◌, length, min, [], is_some};
ghost use Rattle.ttp_world.specs.After.{is_active_entry, limit_after, place_after};
ghost use Rattle.ttp_world.specs.Clock.{begins_round, deviation_noted};
ghost use Rattle.ttp_world.specs.Diary.{cstate_at, joined_place, next_place};
ghost use Rattle.ttp_world.specs.Medl.{IsValid};
ghost use Rattle.run_costs.specs.Standing.{IsRunAfter};
ghost use Rattle.run_rows.specs.Kept.{AreKeptOf, kept_next, notes_added, notes_counted};

use crate::row::Kept;
use node_parts::slot_clock::SlotClock;
use run_costs::Run;
use ttp_base::NodeSet;
use ttp_world::{CState, Entry, Medl, Script, Verdict};

// A place without members.
fn place_at(time: u16, round: u8, slot: u8) -> CState
    ensures { result ≡ cstate_at record { time = time; round = round; slot = slot } [] }
{
    CState {
        time,
        round,
        slot,
        members: NodeSet::empty(),
    }
}

// The place one slot later.
fn next_place(list: &Medl, place: &CState) -> CState
    requires valid { IsValid list.now }
    requires round { place.now.round < list.now.rounds }
    requires slot { place.now.slot < length list.now.slots }
    ensures { result ≡ cstate_at (next_place list.now (joined_place place.now)) [] }
{
    let mut clock = SlotClock::at(list, place);
    clock.next();
    clock.cstate(NodeSet::empty())
}

// The place after one more entry of a node.
fn place_after(list: &Medl, node: u8, place: &CState, entry: &Entry) -> CState
    requires valid { IsValid list.now }
    requires round { place.now.round < list.now.rounds }
    requires slot { place.now.slot < length list.now.slots }
    ensures { result ≡ cstate_at (place_after list.now node (joined_place place.now) entry.now) [] }
{
    match entry {
        Entry::Started => place_at(0, 0, node),
        Entry::Joined { cstate, .. } => place_at(cstate.time, cstate.round, cstate.slot),
        Entry::Sent { .. } | Entry::Judged { .. } => next_place(list, place),
        Entry::Off | Entry::Waited | Entry::Retried | Entry::Gone | Entry::Left { .. } => {
            place_at(0, 0, 0)
        }
    }
}

// An entry after which the node is active.
fn is_active(entry: &Entry) -> bool
    ensures { result ≡ is_active_entry entry.now }
{
    matches!(
        entry,
        Entry::Started | Entry::Joined { .. } | Entry::Sent { .. } | Entry::Judged { .. }
    )
}

// An entry notes a deviation in a slot with sync.
fn is_noted(entry: &Entry) -> bool
    ensures { result ≡ is_some (deviation_noted entry.now) }
{
    match entry {
        Entry::Started | Entry::Sent { .. } | Entry::Joined { .. } => true,
        Entry::Judged { verdict, .. } => *verdict == Verdict::Correct,
        Entry::Off | Entry::Waited | Entry::Retried | Entry::Gone | Entry::Left { .. } => false,
    }
}

// An entry in a slot of the round is the first of a round or of a stint.
fn begins_round(place: &CState, entry: &Entry) -> bool
    ensures { result ≡ begins_round (joined_place place.now) entry.now }
{
    place.slot == 0 || matches!(entry, Entry::Started | Entry::Joined { .. })
}

// How many deviations an entry adds to the notes of its slot's round.
fn notes_added(list: &Medl, place: &CState, entry: &Entry) -> u8
    requires { place.now.slot < length list.now.slots }
    ensures value { result ≡ notes_added list.now (joined_place place.now) entry.now }
{
    if list.slots.get(usize::from(place.slot)).sync && is_noted(entry) {
        1
    } else {
        0
    }
}

// How many there are after it, where those of four or more are four.
fn notes_after(list: &Medl, notes: u8, place: &CState, entry: &Entry) -> u8
    requires { place.now.slot < length list.now.slots }
    ensures { result ≡ min (notes_counted list.now notes (joined_place place.now) entry.now) 4 }
{
    if !is_active(entry) {
        return 0;
    }
    let before = if begins_round(place, entry) { 0 } else { notes };
    notes_added(list, place, entry)
        .saturating_add(before)
        .min(4)
}

// How many silent slots a node waits for, after one more entry.
fn limit_after(list: &Medl, node: u8, limit: u8, entry: &Entry) -> u8
    requires valid { IsValid list.now }
    requires node { node < length list.now.slots }
    ensures { result ≡ limit_after list.now node limit entry.now }
{
    match entry {
        Entry::Retried => list.nodes() + node,
        Entry::Left { .. } | Entry::Gone => 2 * list.nodes() + node,
        _ => limit,
    }
}

// What is kept of a node after one more entry.
fn kept_next(list: &Medl, node: u8, kept: &Kept, entry: &Entry) -> Kept
    requires valid { IsValid list.now }
    requires node { node < length list.now.slots }
    requires round { kept.now.place.round < list.now.rounds }
    requires slot { kept.now.place.slot < length list.now.slots }
    requires after { (place_after list.now node (joined_place kept.now.place) entry.now).slot < length list.now.slots }
    ensures { result ≡ kept_next list.now node kept.now entry.now }
{
    let place = place_after(list, node, &kept.place, entry);
    Kept {
        place,
        notes: notes_after(list, kept.notes, &place, entry),
        limit: limit_after(list, node, kept.limit, entry),
    }
}

// What is kept of nobody.
fn nothing_kept() -> Kept {
    Kept {
        place: place_at(0, 0, 0),
        notes: 0,
        limit: 0,
    }
}

/// What is kept of nodes before slot 0.
pub(crate) fn first_kept(list: &Medl, script: &Script) -> [Kept; 24]
    requires { IsValid list.now }
    ensures { AreKeptOf list.now script.now 0 (length list.now.slots) result }
{
    let mut kept = [nothing_kept(); 24];
    for node in 0..list.nodes() {
        kept[usize::from(node)] = Kept {
            place: place_at(0, 0, 0),
            notes: 0,
            limit: 2 * list.nodes() + node,
        };
    }
    kept
}

/// What is kept of them behind a slot, by what is shown of them after it.
pub(crate) fn all_kept_after(
    list: &Medl,
    script: &Script,
    slot: u32,
    run: &Run,
    kept: &[Kept; 24],
) -> [Kept; 24]
    requires list { IsValid list.now }
    requires run { IsRunAfter run.now list.now script.now (slot + 1) }
    requires kept { AreKeptOf list.now script.now slot (length list.now.slots) kept.now }
    ensures { AreKeptOf list.now script.now (slot + 1) (length list.now.slots) result }
{
    let states = run.states(list);
    let mut after = [nothing_kept(); 24];
    for node in 0..list.nodes() {
        let at = usize::from(node);
        after[at] = kept_next(list, node, &kept[at], &states[at].entry);
    }
    after
}
