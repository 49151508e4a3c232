//! What a node has sent in a slot.
ghost use Rattle.std.specs.Prelude.{◌≡◌, ◌<◌, ℕ, ℤ, List as Items, length, IfSome};
ghost use Rattle.ttp_world.specs.declared.node.Chosen.{Chosen as Choice};
ghost use Rattle.ttp_world.specs.declared.node.Entry.{Entry as Did};
ghost use Rattle.ttp_world.specs.declared.script.Script.{Script as Said};
ghost use Rattle.ttp_world.specs.Diary.{History};
ghost use Rattle.ttp_world.specs.Medl.{IsValid, is_wide};
ghost use Rattle.ttp_frame.specs.Shape.{HaveRoom};
ghost use Rattle.ttp_world.specs.Medium.{is_sending};
ghost use Rattle.ttp_world.specs.World.{node_of, slot_after};
ghost use Rattle.bus_frames.specs.Standing.{IsPastSlot, IsSendable, SlotStands, sending_by, sending_told};

use crate::state::state_told;
use controller::Plant;
use ttp_world::{CState, Entry, Medl};

const COLD_START: u8 = 3;

/// What a node sends in a slot.
#[derive(Clone, Copy)]
pub struct Sending {
    /// The node.
    pub node: u8,
    /// The header of its frame: 0 for an implicit C-state, 1 for an explicit one without payload, 2 for an
    /// explicit one with payload, and 3 for a cold start.
    pub header: u8,
    /// How many bytes of payload the frame has.
    pub size: u8,
    /// The node's C-state, of which it is itself a member.
    pub state: CState,
    /// Its clock at the beginning of the slot, with the slot's jumps, in microticks.
    pub clock: i64,
}

// Whether an entry is of a frame that the node sent.
pub(crate) fn is_sending(entry: Entry) -> bool
    ensures { result ≡ is_sending entry }
{
    matches!(entry, Entry::Started | Entry::Sent { .. })
}

// What a node has sent, by what is shown of it after the slot, the C-state that its status tells, and its
// clock.
fn sending_by(list: &Medl, node: u8, entry: Entry, state: CState, clock: i64) -> Option<Sending>
    requires valid { IsValid list.now }
    requires round { state.round < list.now.rounds }
    requires slot { state.slot < length list.now.slots }
    requires room { HaveRoom (is_wide list.now) state.members }
    ensures told { result ≡ sending_by list.now node entry state clock }
    ensures sendable { IfSome result (IsSendable list.now) }
{
    match entry {
        Entry::Started => Some(Sending {
            node,
            header: COLD_START,
            size: 0,
            state,
            clock,
        }),
        Entry::Sent { .. } => Some(Sending {
            node,
            header: list.kind_at(state.round, state.slot).header(),
            size: list.payload_length(state.round, state.slot),
            state,
            clock,
        }),
        _ => None,
    }
}

/// What a node has sent in the slot that the plant is past, if it has, by its clock in that slot.
pub(crate) fn sending_of(list: &Medl, plant: &Plant, node: u8, clock: i64) -> Option<Sending>
    requires valid { IsValid list.now }
    requires node { node < length list.now.slots }
    requires past { IsPastSlot plant.now list.now }
    ensures told { (chosen : Items Choice) (offsets : Items ℤ) (script : Said) (slot : ℕ) (row : Items Did) (before : History)
        → SlotStands plant.now chosen offsets list.now script slot row before
        → clock ≡ (node_of (slot_after list.now script before) node).clock
        → result ≡ sending_told list.now script row before node }
    ensures sendable { IfSome result (IsSendable list.now) }
{
    let shown = plant.node(node);
    if !is_sending(shown.entry) {
        return None;
    }
    let state = state_told(list, plant.status(node).words[2], shown.members);
    sending_by(list, node, shown.entry, state, clock)
}
