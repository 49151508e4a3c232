//! What one node knows of modes, slot by slot.
ghost use Rattle.std.specs.Prelude.{◌≡◌, ◌<◌, length, IfSome, None};
ghost use Rattle.std.specs.Option.{option_copied};
ghost use Rattle.ttp_world.specs.After.{place_after};
ghost use Rattle.ttp_world.specs.Diary.{Place, no_place, start_place};
ghost use Rattle.ttp_world.specs.Medl.{IsValid};
ghost use Rattle.node_parts.specs.ClockStandsFor.{ClockStandsFor, StandsAtNext};
ghost use Rattle.mode_change.specs.Knowing.{IsJoinOfList, IsFromList, AreSmall, mode_by};
ghost use Rattle.mode_change.specs.Modes.{mode_asked, mode_delivered, no_modes, modes_with, with_request, ends_cycle};
ghost use Rattle.mode_change.specs.Modes.{switched_at, is_live, is_delivery_live};

use node_parts::slot_clock::SlotClock;
use ttp_base::NodeSet;
use ttp_world::{CState, Chosen, Delivered, Entry, Medl};

/// Which mode a node runs, where it knows that, and which one it runs next, where it was asked for one.
/// A mode is a number below the list's `modes`.
#[derive(Clone, Copy, PartialEq, Eq)]
pub struct Modes {
    pub mode: Option<u8>,
    pub next: Option<u8>,
}

// The mode for which a payload of a node asks.
fn mode_asked(list: &Medl, node: u8, payload: &[u8]) -> Option<u8>
    requires valid { IsValid list.now }
    requires node { node < length list.now.slots }
    ensures value { result ≡ mode_asked list.now node payload.now }
    ensures small { IfSome result (λ m. m < 8) }
{
    if !list.slots.get(usize::from(node)).requests {
        return None;
    }
    match payload {
        [first, ..] if 1 <= *first && *first <= list.modes => Some(*first - 1),
        _ => None,
    }
}

// The mode for which what a node delivered asks.
fn mode_delivered(list: &Medl, delivered: Option<&Delivered>) -> Option<u8>
    requires valid { IsValid list.now }
    requires from { IsFromList list.now (option_copied delivered) }
    ensures value { result ≡ mode_delivered list.now (option_copied delivered.entry) }
    ensures small { IfSome result (λ m. m < 8) }
{
    match delivered {
        Some(delivered) => mode_asked(list, delivered.sender, delivered.payload.bytes()),
        None => None,
    }
}

// The mode for which a node was asked in a slot, by its entry, the message that was chosen for its frame,
// and what it delivered.
fn mode_by(
    list: &Medl,
    node: u8,
    entry: &Entry,
    chosen: &Chosen,
    delivered: Option<&Delivered>,
) -> Option<u8>
    requires valid { IsValid list.now }
    requires node { node < length list.now.slots }
    requires from { IsFromList list.now (option_copied delivered) }
    ensures value { result ≡ mode_by list.now node entry.now chosen.now.payload
        (option_copied delivered.entry) }
    ensures small { IfSome result (λ m. m < 8) }
{
    match entry {
        Entry::Sent { message: Some(_) } => mode_asked(list, node, chosen.payload.bytes()),
        _ => mode_delivered(list, delivered),
    }
}

// Whether a payload of a node is live in a mode.
fn is_live(list: &Medl, node: u8, mode: u8) -> bool
    requires node { node < length list.now.slots }
    requires mode { mode < 8 }
    ensures { result ≡ is_live list.now node mode }
{
    (list.slots.get(usize::from(node)).live >> mode) % 2 == 1
}

// Whether what a node delivered is live in the mode that it knows.
fn is_delivery_live(list: &Medl, delivered: Option<&Delivered>, mode: Option<u8>) -> Option<bool>
    requires from { IsFromList list.now (option_copied delivered) }
    requires mode { IfSome mode (λ m. m < 8) }
    ensures { result ≡ is_delivery_live list.now (option_copied delivered.entry) mode }
{
    match (delivered, mode) {
        (Some(delivered), Some(mode)) => Some(is_live(list, delivered.sender, mode)),
        _ => None,
    }
}

// With the entry of a slot: a stint begins, goes on or ends.
fn modes_with(entry: &Entry, modes: Modes) -> Modes
    requires { AreSmall modes }
    ensures value { result ≡ modes_with entry.now modes }
    ensures small { AreSmall result }
{
    match entry {
        Entry::Started => Modes {
            mode: Some(0),
            next: None,
        },
        Entry::Joined { cstate, .. } => Modes {
            mode: if cstate.time == 0 { Some(0) } else { None },
            next: None,
        },
        Entry::Sent { .. } | Entry::Judged { .. } => modes,
        _ => Modes {
            mode: None,
            next: None,
        },
    }
}

// With what a node was asked for, in place of what it was asked for before.
fn with_request(request: Option<u8>, modes: Modes) -> Modes
    requires request { IfSome request (λ m. m < 8) }
    requires small { AreSmall modes }
    ensures value { result ≡ with_request request modes }
    ensures small { AreSmall result }
{
    Modes {
        mode: modes.mode,
        next: match request {
            Some(mode) => Some(mode),
            None => modes.next,
        },
    }
}

// Where a cycle ends, the next mode becomes the mode, if there is one.
fn switched_at(ends: bool, modes: Modes) -> Modes
    requires { AreSmall modes }
    ensures value { result ≡ switched_at ends modes }
    ensures small { AreSmall result }
{
    if !ends {
        return modes;
    }
    Modes {
        mode: match modes.next {
            Some(mode) => Some(mode),
            None => modes.mode,
        },
        next: None,
    }
}

// The clock in a slot of the first round at time 0.
fn clock_at(list: &Medl, slot: u8) -> SlotClock
    requires valid { IsValid list.now }
    requires slot { slot < length list.now.slots }
    ensures { ClockStandsFor result list.now (start_place slot) }
{
    let members = NodeSet::empty();
    let cstate = CState {
        time: 0,
        round: 0,
        slot,
        members,
    };
    SlotClock::at(list, &cstate)
}

// One slot later.
fn next_clock(old: SlotClock) -> SlotClock
    ensures { StandsAtNext old result }
{
    let mut clock = old;
    clock.next();
    clock
}

// The place of a node after a slot, by its entry.
fn clock_after(old: SlotClock, list: &Medl, node: u8, entry: &Entry) -> SlotClock
    requires valid { IsValid list.now }
    requires node { node < length list.now.slots }
    requires join { IsJoinOfList list.now entry.now }
    ensures { (place : Place) → ClockStandsFor old list.now place
        → ClockStandsFor result list.now (place_after list.now node place entry.now) }
{
    match entry {
        Entry::Started => clock_at(list, node),
        Entry::Joined { cstate, .. } => SlotClock::at(list, cstate),
        Entry::Sent { .. } => next_clock(old),
        Entry::Judged { .. } => next_clock(old),
        _ => clock_at(list, 0),
    }
}

// Whether a place is the last of a cluster cycle.
fn ends_cycle(clock: &SlotClock, list: &Medl) -> bool
    ensures { (place : Place) → ClockStandsFor clock.now list.now place → result ≡ ends_cycle list.now place }
{
    clock.ends_round() && u16::from(clock.round()) + 1 == u16::from(list.rounds)
}

/// What is known of a node after a slot.
#[derive(Clone, Copy)]
pub(crate) struct NodeModes {
    // Where it stands in the cluster cycle; at its beginning, where it is not active.
    pub(crate) clock: SlotClock,
    pub(crate) modes: Modes,
    // Whether what it delivered in the newest slot was live.
    pub(crate) live: Option<bool>,
}

/// A node that has done nothing yet.
pub(crate) fn new_node(list: &Medl) -> NodeModes
    requires { IsValid list.now }
    ensures clock { ClockStandsFor result.clock list.now no_place }
    ensures modes { result.modes ≡ no_modes }
    ensures live { result.live ≡ None }
{
    NodeModes {
        clock: clock_at(list, 0),
        modes: Modes {
            mode: None,
            next: None,
        },
        live: None,
    }
}

/// What is known of a node after one slot more, by its entry, the message that was chosen for its frame, and what it
/// delivered.
pub(crate) fn node_after(
    old: &NodeModes,
    list: &Medl,
    node: u8,
    entry: &Entry,
    chosen: &Chosen,
    delivered: Option<&Delivered>,
) -> NodeModes
    requires valid { IsValid list.now }
    requires node { node < length list.now.slots }
    requires join { IsJoinOfList list.now entry.now }
    requires from { IsFromList list.now (option_copied delivered) }
    requires small { AreSmall old.now.modes }
    ensures clock { (place : Place) → ClockStandsFor old.now.clock list.now place
        → ClockStandsFor result.clock list.now (place_after list.now node place entry.now) }
    ensures modes { (place : Place) → ClockStandsFor old.now.clock list.now place
        → result.modes ≡ switched_at (ends_cycle list.now (place_after list.now node place entry.now))
        (with_request (mode_by list.now node entry.now chosen.now.payload (option_copied delivered.entry))
        (modes_with entry.now old.now.modes)) }
    ensures live { result.live
        ≡ is_delivery_live list.now (option_copied delivered.entry) old.now.modes.mode }
    ensures small { AreSmall result.modes }
{
    let clock = clock_after(old.clock, list, node, entry);
    let live = is_delivery_live(list, delivered, old.modes.mode);
    let request = mode_by(list, node, entry, chosen, delivered);
    let asked = with_request(request, modes_with(entry, old.modes));
    NodeModes {
        clock,
        modes: switched_at(ends_cycle(&clock, list), asked),
        live,
    }
}
