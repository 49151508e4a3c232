//! The message descriptor list.

ghost use Rattle.std.specs.Prelude.{◌≡◌, IfOk};

use std::alloc::Global;
use ttp_base::{List, Memory};

/// What a node sends in its slot.
///
/// A frame with explicit C-state carries the sender's controller state; one with implicit C-state
/// does not, and its check word is computed over the frame together with that state.
#[derive(Clone, Copy, PartialEq, Eq)]
pub enum Kind {
    /// Explicit C-state, no payload.
    I,
    /// Implicit C-state, with payload.
    N,
    /// Explicit C-state, with payload.
    X,
}

impl Kind {
    ghost use Rattle.std.specs.Prelude.{◌≡◌};
    ghost use Rattle.ttp_world.specs.Frame.{header_of};

    /// The header of a frame of this kind: the frame's first byte.
    pub fn header(self) -> u8
        ensures { result ≡ header_of self }
    {
        match self {
            Kind::N => 0,
            Kind::I => 1,
            Kind::X => 2,
        }
    }
}

/// One slot of the TDMA round. Node k owns slot k.
#[derive(Drop)]
pub struct SlotPlan {
    /// The kind of the slot's frame in each round of the cluster cycle.
    pub kinds: List<Kind>,
    /// How many bytes of payload the slot's N and X frames carry, up to 240.
    pub payload: u8,
    /// Whether the slot's frame is measured for clock synchronization.
    pub sync: bool,
    /// Whether the slot's node may send a cold-start frame.
    pub start: bool,
    /// Whether the payload of the slot's frames asks for modes.
    pub requests: bool,
    /// The modes in which the slot's payload is live: bit m, the least significant first, is mode m.
    pub live: u8,
}

/// A message descriptor list (MEDL, SAE AS6003), which all nodes of a cluster share. The ranges are
/// those of a valid one.
#[derive(Drop)]
pub struct Medl {
    /// 1 for up to 16 nodes, and 2 for up to 24, whose frames carry one byte of members more.
    pub version: u8,
    /// How many TDMA rounds a cluster cycle has, 1 to 64.
    pub rounds: u8,
    /// The schedule's number, 24 bits, from which each check word starts.
    pub schedule: u32,
    /// How many buffers each ring of the host interface has, 1 to 16.
    pub buffers: u8,
    /// The largest drift of a clock in one slot, in microticks, 0 to 1,000.
    pub drift: i64,
    /// The largest reading error of a measured deviation, in microticks, 0 to 1,000.
    pub error: i64,
    /// How far a frame may lie from its receiver's clock, either way, and still be accepted, in
    /// microticks, 1 to 1,000,000.
    pub window: i64,
    /// How many modes the cluster's hosts can agree on, 1 to 8.
    pub modes: u8,
    /// The slots of the round, in order, 4 to 16 or in version 2 to 24. Four or more have `sync`.
    pub slots: List<SlotPlan>,
}

impl SlotPlan {
    ghost use Rattle.std.specs.Prelude.{◌≡◌, IfOk};

    // A copy of a slot.
    fn copy(&self, alloc: Global) -> Result<SlotPlan, Memory>
        ensures { IfOk result (λ copy. copy ≡ self.now) }
    {
        let Ok(kinds) = Vec::from_slice(alloc, self.kinds.as_slice()) else {
            return Err(Memory);
        };
        Ok(SlotPlan {
            kinds: List::from_vec(kinds),
            payload: self.payload,
            sync: self.sync,
            start: self.start,
            requests: self.requests,
            live: self.live,
        })
    }
}

impl Medl {
    ghost use Rattle.std.specs.Prelude.{◌≡◌, ◌<◌, length, IfOk};
    ghost use Rattle.ttp_world.specs.Medl.{IsValid, kind_at, payload_length, is_wide};

    /// A copy of the list. Takes memory for its slots and their kinds; `Memory` where that was
    /// refused.
    pub fn copy(&self, alloc: Global) -> Result<Medl, Memory>
        ensures { IfOk result (λ copy. copy ≡ self.now) }
    {
        let slots = copy_of(alloc, self.slots.as_slice())?;
        Ok(Medl {
            version: self.version,
            rounds: self.rounds,
            schedule: self.schedule,
            buffers: self.buffers,
            drift: self.drift,
            error: self.error,
            window: self.window,
            modes: self.modes,
            slots,
        })
    }

    /// How many nodes the cluster has: one for each slot.
    pub fn nodes(&self) -> u8
        requires { IsValid self.now }
        ensures { result ≡ length self.now.slots }
    {
        self.slots.len() as u8
    }

    /// Whether the list has room for 24 nodes, and its frames for as many members; else for 16.
    pub fn is_wide(&self) -> bool
        ensures { result ≡ is_wide self.now }
    {
        self.version == 2
    }

    /// The kind of a slot's frame in a round of the cluster cycle.
    pub fn kind_at(&self, round: u8, slot: u8) -> Kind
        requires valid { IsValid self.now }
        requires round { round < self.now.rounds }
        requires slot { slot < length self.now.slots }
        ensures { result ≡ kind_at self.now round slot }
    {
        *self.slots.get(slot as usize).kinds.get(round as usize)
    }

    /// The bytes of payload that a slot's frame carries in a round of the cluster cycle.
    pub fn payload_length(&self, round: u8, slot: u8) -> u8
        requires valid { IsValid self.now }
        requires round { round < self.now.rounds }
        requires slot { slot < length self.now.slots }
        ensures { result ≡ payload_length self.now round slot }
    {
        match self.kind_at(round, slot) {
            Kind::I => 0,
            Kind::N | Kind::X => self.slots.get(slot as usize).payload,
        }
    }
}

// A copy of slots.
fn copy_of(alloc: Global, slots: &[SlotPlan]) -> Result<List<SlotPlan>, Memory>
    ensures { IfOk result (λ copy. copy ≡ slots.now) }
{
    let mut copy = List::new(alloc);
    for slot in slots {
        copy.push(slot.copy(alloc)?)?;
    }
    Ok(copy)
}
