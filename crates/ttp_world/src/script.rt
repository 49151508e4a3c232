//! What a script says: which nodes are switched on, their clocks, faults, and what hosts do.

ghost use Rattle.std.specs.Prelude.{◌≡◌, ℕ, ◌++◌, ◌<◌, ◌≤◌, length, drop, replicate, option_map};
ghost use Rattle.std.specs.List.{filter_map};
ghost use Rattle.ttp_world.specs.declared.script.Channel.{Channel};
ghost use Rattle.ttp_world.specs.Script.{is_on, incidents_of, flipped_bits, bits_on, AreBounded};
ghost use Rattle.ttp_world.specs.Script.{host_write, write_at, writes_in, reads_in};

use crate::events::{Events, FlippedBit, Incidents, LastLookUp, Standing};
use crate::host_lines::{HostRead, Written, write_of};
use std::marker::Model;
use ttp_base::List;

/// The most slots of a run.
pub const SLOT_LIMIT: u32 = 20_000;

/// The most events of a script.
pub const EVENT_LIMIT: usize = 131_072;

/// The most events of a script that speak of hosts: writes and reads.
pub const HOST_EVENT_LIMIT: usize = 95_325;

/// The largest drift of a node's clock in one slot, in microticks, either way.
pub const DRIFT_LIMIT: u32 = 1_000;

/// The largest reading error of one event, in microticks, either way.
pub const ERROR_LIMIT: u32 = 10_000;

/// The largest jump of one event, in microticks, either way.
pub const JUMP_LIMIT: u32 = 1_000_000;

/// The first bit of a frame that can be flipped: the first after the header.
pub const FIRST_FLIPPED_BIT: u16 = 8;

/// The last bit that an event can flip: the last of 256 bytes.
pub const LAST_FLIPPED_BIT: u16 = 2_047;

/// The most bytes of a frame's payload.
pub const PAYLOAD_LIMIT: usize = 240;

/// One of the two channels of the bus.
#[derive(Clone, Copy, PartialEq, Eq)]
pub enum Channel {
    A,
    B,
}

/// Some of the two channels.
#[derive(Clone, Copy, PartialEq, Eq)]
pub struct Channels {
    pub a: bool,
    pub b: bool,
}

/// What a send or receive fault makes of a frame.
#[derive(Clone, Copy, PartialEq, Eq)]
pub enum Fault {
    /// Nothing is left.
    Silence,
    /// Bits that are no frame are left.
    Noise,
}

/// What a host reads: its own node's status, or the messages of a node that sends payload.
#[derive(Clone, Copy, PartialEq, Eq)]
pub enum Source {
    /// The status ring of the host's own node.
    Status,
    /// The ring of the messages that this node sent.
    Node(u8),
}

/// The payload of a frame, at most 240 bytes, which contracts see as the list of its bytes.
#[derive(Drop)]
pub struct Payload {
    /// How many bytes there are.
    pub len: u8,
    /// The bytes, with zeros after them.
    pub bytes: [u8; PAYLOAD_LIMIT],
}

impl Model for Payload {
    ghost use Rattle.std.specs.Prelude.{◌≡◌, List, ℕ, ◌-◌, ◌≤◌, take, drop, replicate};

    ghost Value = { List ℕ };

    ghost view = { λ p. take p.len p.bytes };

    ghost invariant = { λ p. (p.len ≤ 240) × (drop p.len p.bytes ≡ replicate (240 - p.len) 0) };
}

impl Payload {
    /// So many zeros.
    pub fn zeros(len: u8) -> Payload
        requires { len ≤ PAYLOAD_LIMIT }
        ensures { result ≡ replicate len 0 }
    {
        Payload {
            len,
            bytes: [0; PAYLOAD_LIMIT],
        }
    }

    /// The payload of these bytes, which are copied.
    pub fn of(bytes: &[u8]) -> Payload
        requires { length bytes.now ≤ PAYLOAD_LIMIT }
        ensures { result ≡ bytes.now }
    {
        let mut copied = [0; PAYLOAD_LIMIT];
        put_front(&mut copied, bytes);
        Payload {
            len: bytes.len() as u8,
            bytes: copied,
        }
    }

    /// The bytes, at most 240.
    pub fn bytes(&self) -> &[u8]
        ensures value { result.now ≡ self.now }
        ensures bound { length result.now ≤ PAYLOAD_LIMIT }
    {
        &self.bytes[..self.len as usize]
    }
}

// Writes bytes to the front of others.
fn put_front(out: &mut [u8; PAYLOAD_LIMIT], bytes: &[u8])
    requires { length bytes.now ≤ PAYLOAD_LIMIT }
    ensures { out.new ≡ bytes.now ++ drop (length bytes.now) out.old }
{
    out[..bytes.len()].copy_from_slice(bytes);
}

/// One line of a script that speaks of slots. Slots are counted from 0, and a fault that has two of
/// them stands in both and in those between.
#[derive(Drop)]
pub enum Event {
    /// What a node sends is silenced or turned into noise, on these channels.
    Send {
        node: u8,
        channels: Channels,
        fault: Fault,
        from: u32,
        to: u32,
    },
    /// What a node hears is silenced or turned into noise, on these channels.
    Receive {
        node: u8,
        channels: Channels,
        fault: Fault,
        from: u32,
        to: u32,
    },
    /// A bit of the frame that a node sends is flipped, on these channels. Bits are counted from
    /// the first byte's most significant.
    Flip {
        node: u8,
        channels: Channels,
        bit: u16,
        slot: u32,
    },
    /// A reading error of a receiver, in microticks.
    Error {
        node: u8,
        value: i64,
        from: u32,
        to: u32,
    },
    /// A jump of a node's clock, in microticks.
    Jump {
        node: u8,
        value: i64,
        slot: u32,
    },
    /// A node that has left listens again from this slot on.
    Arm {
        node: u8,
        slot: u32,
    },
    /// A node's host writes a message.
    Write {
        node: u8,
        slot: u32,
        payload: Payload,
    },
    /// A node's host reads a message.
    Read {
        node: u8,
        slot: u32,
        source: Source,
    },
}

/// A script for a list: what happens to a cluster, slot by slot.
#[derive(Drop)]
pub struct Script {
    /// How many slots the run has.
    pub slots: u32,
    /// For each node the slot in which it is switched on, if it ever is.
    pub on: List<Option<u32>>,
    /// For each node how far its clock drifts in a slot, in microticks.
    pub drift: List<i64>,
    /// What happens in slots, in the order of the script.
    pub events: Events,
}

impl Script {
    /// Whether a node is on in a slot: from the slot on in which it is switched on.
    pub fn is_on(&self, node: u8, slot: u32) -> bool
        requires { node < length self.now.on }
        ensures { result ≡ is_on self.now node slot }
    {
        match self.on.get(node as usize) {
            Some(on) => *on <= slot,
            None => false,
        }
    }

    /// What happens to a node in a slot, all but what its host does. Costs a binary search.
    pub fn incidents(&self, node: u8, slot: u32) -> Incidents
        ensures value { result ≡ incidents_of self.now node slot }
        ensures bounds { AreBounded result }
    {
        self.events.incidents(node, slot, &mut LastLookUp::none())
    }

    /// The same, looked for from where the last look-up ended. A caller that goes from slot to slot keeps
    /// one for each node; then it costs a few steps.
    pub fn incidents_after(&self, node: u8, slot: u32, last: &mut LastLookUp) -> Incidents
        ensures value { result ≡ incidents_of self.now node slot }
        ensures bounds { AreBounded result }
    {
        self.events.incidents(node, slot, last)
    }

    /// The same, and the first slot after that one in which something else may happen, which costs a step
    /// more. A caller that goes from slot to slot asks again from that slot on, and not before it.
    pub fn incidents_from(&self, node: u8, slot: u32, last: &mut LastLookUp) -> Standing
        ensures value { result.incidents ≡ incidents_of self.now node slot }
        ensures bounds { AreBounded result.incidents }
        ensures behind { slot < u32.MAX → slot < result.until }
        ensures stands { (t : ℕ) → slot ≤ t → t < result.until → incidents_of self.now node t ≡ result.incidents }
    {
        self.events.standing(node, slot, last)
    }

    /// The bits that are flipped in the frame that a node sends in a slot, each with its channels, in
    /// the order of the script. Costs two binary searches.
    pub fn flips(&self, node: u8, slot: u32) -> &[FlippedBit]
        ensures { (c : Channel) → bits_on c result.now ≡ flipped_bits self.now node c slot }
    {
        self.events.flips(node, slot)
    }

    /// The places of what hosts write in a slot, in the order of the script: [`Script::write`] gives
    /// the message at a place. Costs two binary searches.
    pub fn writes(&self, slot: u32) -> &[usize]
        ensures { filter_map (write_at self.now) result.now ≡ writes_in self.now slot }
    {
        self.events.writes(slot)
    }

    /// The message that a host writes at a place, if there is one.
    pub fn write(&self, place: usize) -> Option<Written<'_>>
        ensures { option_map host_write result ≡ write_at self.now place }
    {
        match self.events.as_slice().get(place) {
            Some(event) => write_of(event),
            None => None,
        }
    }

    /// What hosts read in a slot, in the order of the script. Costs two binary searches.
    pub fn reads(&self, slot: u32) -> &[HostRead]
        ensures { result.now ≡ reads_in self.now slot }
    {
        self.events.reads(slot)
    }
}
