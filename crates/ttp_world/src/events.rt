//! The events of a script, which are found by node and slot.
ghost use Rattle.std.specs.Prelude.{◌≡◌, ℕ, ◌<◌, ◌≤◌, [], length, All, IfOk};
ghost use Rattle.std.specs.List.{filter_map};
ghost use Rattle.ttp_world.specs.declared.script.Channel.{Channel};
ghost use Rattle.ttp_world.specs.Events.{bits_on, flipped_bit, incidents_in, IsBounded, AreBounded};
ghost use Rattle.ttp_world.specs.HostLines.{keyed_read, keyed_writes};
ghost use Rattle.ttp_world.specs.Sorted.{values_of};

use crate::host_lines::HostRead;
use crate::index::{Index, incidents_before, key_of, slot_of_step, steps_up_to};
use crate::script::{Channels, EVENT_LIMIT, Event};
use std::alloc::Global;
use std::marker::Model;
use ttp_base::{List, Memory};

/// What happens to a node in a slot, all but what its host does.
#[derive(Clone, Copy, PartialEq, Eq)]
pub struct Incidents {
    /// The channels on which what it sends is silenced.
    pub send_silence: Channels,
    /// The channels on which what it sends is turned into noise.
    pub send_noise: Channels,
    /// The channels on which what it hears is silenced.
    pub receive_silence: Channels,
    /// The channels on which what it hears is turned into noise.
    pub receive_noise: Channels,
    /// Whether a bit of the frame that it sends is flipped, on either channel.
    pub has_flip: bool,
    /// Whether it is armed to listen again.
    pub armed: bool,
    /// The sum of its reading errors, in microticks.
    pub error: i64,
    /// The sum of the jumps of its clock, in microticks.
    pub jump: i64,
}

/// What happens to a node from a slot on, and how long it does.
#[derive(Clone, Copy)]
pub struct Standing {
    /// What happens to it in that slot, all but what its host does.
    pub incidents: Incidents,
    /// The first slot after that one in which something else may happen, or the largest number where no event
    /// says so: in each slot before it the same happens.
    pub until: u32,
}

/// A bit of a frame that is flipped on these channels.
#[derive(Clone, Copy, PartialEq, Eq)]
pub struct FlippedBit {
    pub channels: Channels,
    /// Counted from the first byte's most significant.
    pub bit: u16,
}

/// The events of a script, which contracts see as the list of them in the order of the script.
///
/// They have an index, which is made once: what happens to a node in a slot is found by a binary
/// search in it, however many events there are and however many cover the slot.
#[derive(Drop)]
pub struct Events {
    items: List<Event>,
    index: Index,
}

impl Model for Events {
    ghost use Rattle.std.specs.Prelude.{List as Items};
    ghost use Rattle.ttp_world.specs.declared.script.Event.{Event};

    ghost Value = { Items Event };

    ghost use Rattle.ttp_world.specs.Index.{AreFew, IsIndexOf};

    ghost view = { λ e. e.items };

    ghost invariant = { λ e. AreFew e.items × IsIndexOf e.items e.index };
}

/// Where the last look-up ended. The next one begins there, and is short where it asks for the same node
/// in one of the next slots. No answer rests on it.
#[derive(Clone, Copy)]
pub struct LastLookUp {
    steps: usize,
}

impl LastLookUp {
    /// There was none yet.
    pub fn none() -> LastLookUp {
        LastLookUp { steps: 0 }
    }
}

impl Events {
    /// No events. Takes no memory.
    pub fn none(alloc: Global) -> Events
        ensures { result ≡ [] }
    {
        Events {
            items: List::new(alloc),
            index: Index::empty(alloc),
        }
    }

    /// These events, with their index. Takes time as a sort of the events does, and memory that
    /// grows with their number; `Memory` where that was refused.
    pub fn index(alloc: Global, items: List<Event>) -> Result<Events, Memory>
        requires count { length items ≤ EVENT_LIMIT }
        requires values { All IsBounded items }
        ensures { IfOk result (λ events. events ≡ items) }
    {
        let index = Index::of(alloc, items.as_slice())?;
        Ok(Events { items, index })
    }

    /// All events, in the order of the script.
    pub fn as_slice(&self) -> &[Event]
        ensures { result.now ≡ self.now }
    {
        self.items.as_slice()
    }

    /// What happens to a node in a slot, which is looked for from where the last look-up ended. Costs a
    /// few steps where it is near, else a binary search.
    pub(crate) fn incidents(&self, node: u8, slot: u32, last: &mut LastLookUp) -> Incidents
        ensures value { result ≡ incidents_in self.now node slot }
        ensures bounds { AreBounded result }
    {
        let steps = self.index.steps.as_slice();
        let place = steps_up_to(steps, last.steps, key_of(node, slot));
        last.steps = place;
        incidents_before(steps, place)
    }

    /// The same, and how long it stands. Costs a step more.
    pub(crate) fn standing(&self, node: u8, slot: u32, last: &mut LastLookUp) -> Standing
        ensures value { result.incidents ≡ incidents_in self.now node slot }
        ensures bounds { AreBounded result.incidents }
        ensures behind { slot < u32.MAX → slot < result.until }
        ensures stands { (t : ℕ) → slot ≤ t → t < result.until → incidents_in self.now node t ≡ result.incidents }
    {
        let steps = self.index.steps.as_slice();
        let place = steps_up_to(steps, last.steps, key_of(node, slot));
        last.steps = place;
        Standing {
            incidents: incidents_before(steps, place),
            until: slot_of_step(steps, place, node),
        }
    }

    /// The bits that are flipped in the frame that a node sends in a slot, in the order of the
    /// script. Costs two binary searches.
    pub(crate) fn flips(&self, node: u8, slot: u32) -> &[FlippedBit]
        ensures { (c : Channel) → bits_on c result.now ≡ filter_map (flipped_bit node c slot) self.now }
    {
        self.index.flips.at(key_of(node, slot))
    }

    /// The places of the writes of a slot among all events, in the order of the script. Costs two
    /// binary searches.
    pub(crate) fn writes(&self, slot: u32) -> &[usize]
        ensures { result.now ≡ values_of slot (keyed_writes 0 self.now) }
    {
        self.index.writes.at(u64::from(slot))
    }

    /// The reads of a slot, in the order of the script. Costs two binary searches.
    pub(crate) fn reads(&self, slot: u32) -> &[HostRead]
        ensures { result.now ≡ values_of slot (filter_map keyed_read self.now) }
    {
        self.index.reads.at(u64::from(slot))
    }
}
