//! What hosts can read.
ghost use Rattle.std.specs.Prelude.{◌≡◌, ◌↔◌, ◌+◌, ◌*◌, ◌<◌, ◌≤◌, ◌^◌, [], length, slice_get, slice_set};
ghost use Rattle.std.specs.Prelude.{IsTrue, IfOk, Some, replicate};
ghost use Rattle.ttp_world.specs.declared.medl.Medl.{Medl as List_};
ghost use Rattle.ttp_world.specs.declared.node.Chosen.{Chosen};
ghost use Rattle.ttp_world.specs.Diary.{History};
ghost use Rattle.ttp_world.specs.declared.script.Script.{Script as Said};
ghost use Rattle.ttp_world.specs.Medl.{IsValid};
ghost use Rattle.trace_check.specs.Incoming.{TellsRings, AreFloorsWithin, IsHostAndSource, IsRingKept, first_payloads};
ghost use Rattle.trace_check.specs.Incoming.{newest_before, floor_of, floor_place};

use controller::push_zeros;
use std::alloc::Global;
use ttp_base::{List, Memory};
use ttp_world::{Chosen, Delivered, HostRead, Medl, Payload, Source, StatusWords};

/// The newest message of each ring that hosts read, as it was before a slot, and which hosts have already
/// read a newer one in the slot.
#[derive(Drop)]
pub(crate) struct Incoming {
    nodes: usize,
    // A row for each receiver, and in it a message for each sender.
    payloads: Vec<Chosen>,
    statuses: Vec<StatusWords>,
    // For each host and each of its sources, first its status, the number of the newest message that it
    // got while that message was new.
    floors: Vec<u64>,
}

// For each of the list's nodes as a receiver the zeros of each as a sender.
fn first_payloads(alloc: Global, list: &Medl) -> Result<Vec<Chosen>, Memory>
    requires { IsValid list.now }
    ensures { IfOk result (λ payloads. payloads.items ≡ first_payloads list.now (length list.now.slots)) }
{
    let mut payloads = List::new(alloc);
    for _ in 0..list.nodes() {
        push_zeros(&mut payloads, list)?;
    }
    Ok(payloads.into_vec())
}

// For each of the list's nodes the status before the first slot.
fn first_statuses(alloc: Global, list: &Medl) -> Result<Vec<StatusWords>, Memory>
    requires { IsValid list.now }
    ensures { IfOk result (λ statuses.
        statuses.items ≡ replicate (length list.now.slots) (record { words = replicate 4 0 })) }
{
    let mut statuses = List::new(alloc);
    for _ in 0..list.nodes() {
        statuses.push(StatusWords { words: [0; 4] })?;
    }
    Ok(statuses.into_vec())
}

// So many zeros.
fn first_floors(alloc: Global, count: usize) -> Result<Vec<u64>, Memory>
    ensures { IfOk result (λ floors. floors.items ≡ replicate count 0) }
{
    let mut floors = List::new(alloc);
    for _ in 0..count {
        floors.push(0u64)?;
    }
    Ok(floors.into_vec())
}

impl Incoming {
    /// Each ring has nothing but the zeros.
    pub(crate) fn new(alloc: Global, list: &Medl) -> Result<Incoming, Memory>
        requires { IsValid list.now }
        ensures tells { (script : Said) → IfOk result (λ rings. TellsRings rings list.now script []) }
        ensures floors { (script : Said) → IfOk result (λ rings. AreFloorsWithin rings list.now script []) }
    {
        let nodes = list.slots.len();
        Ok(Incoming {
            nodes,
            payloads: first_payloads(alloc, list)?,
            statuses: first_statuses(alloc, list)?,
            floors: first_floors(alloc, nodes * (nodes + 1))?,
        })
    }

    /// The newest message from a sender.
    pub(crate) fn payload(&self, receiver: u8, sender: u8) -> &Chosen
        requires { receiver * self.now.nodes + sender < length self.now.payloads.items }
        ensures { slice_get self.now.payloads.items (receiver * self.now.nodes + sender) ≡ Some result.now }
    {
        &self.payloads[usize::from(receiver) * self.nodes + usize::from(sender)]
    }

    /// The newest status.
    pub(crate) fn status(&self, node: u8) -> &StatusWords
        requires { node < length self.now.statuses.items }
        ensures { slice_get self.now.statuses.items node ≡ Some result.now }
    {
        &self.statuses[usize::from(node)]
    }

    /// The number of the newest message of the ring that is read, as it was before this slot.
    pub(crate) fn newest(&self, slot: u32, read: &HostRead) -> u64
        requires { IsRingKept self.now read.now }
        ensures { (list : List_) (script : Said) (history : History) → slot ≡ length history
            → TellsRings self.now list script history → IsHostAndSource list read.now.host read.now.source
            → result ≡ newest_before list script history read.now }
    {
        match read.source {
            Source::Status => u64::from(slot),
            Source::Node(sender) => self.payload(read.host, sender).number,
        }
    }

    fn floor_place(&self, read: &HostRead) -> usize
        requires { self.now.nodes < 256 }
        ensures { result ≡ floor_place self.now.nodes read.now.host read.now.source }
    {
        let row = usize::from(read.host) * (self.nodes + 1);
        match read.source {
            Source::Status => row,
            Source::Node(sender) => row + (1 + usize::from(sender)),
        }
    }

    /// Whether a host may still read the message of this number: it has read no newer one.
    pub(crate) fn may_read(&self, read: &HostRead, number: u64) -> bool
        requires nodes { self.now.nodes < 256 }
        requires place { floor_place self.now.nodes read.now.host read.now.source < length self.now.floors.items }
        ensures { IsTrue result ↔ (floor_of self.now read.now.host read.now.source ≤ number) }
    {
        self.floors[self.floor_place(read)] <= number
    }

    /// A host has read a message that is new in the slot.
    pub(crate) fn read_new(&mut self, read: &HostRead, number: u64)
        requires nodes { self.old.nodes < 256 }
        requires place { floor_place self.old.nodes read.now.host read.now.source < length self.old.floors.items }
        ensures floors { self.new.floors.items
            ≡ slice_set self.old.floors.items (floor_place self.old.nodes read.now.host read.now.source) number }
        ensures nodes { self.new.nodes ≡ self.old.nodes }
        ensures payloads { self.new.payloads ≡ self.old.payloads }
        ensures statuses { self.new.statuses ≡ self.old.statuses }
    {
        let place = self.floor_place(read);
        self.floors[place] = number;
    }

    /// A receiver gets a message of a sender.
    pub(crate) fn deliver(&mut self, receiver: u8, delivered: &Delivered)
        requires place { receiver * self.old.nodes + delivered.now.sender < length self.old.payloads.items }
        requires few { (message : Chosen) → slice_get self.old.payloads.items
            (receiver * self.old.nodes + delivered.now.sender) ≡ Some message → message.number + 1 < 2 ^ 64 }
        ensures payloads { (message : Chosen) →
            let place = receiver * self.old.nodes + delivered.now.sender in
            slice_get self.old.payloads.items place ≡ Some message
            → self.new.payloads.items ≡ slice_set self.old.payloads.items place
            (record { number = message.number + 1; payload = delivered.now.payload }) }
        ensures nodes { self.new.nodes ≡ self.old.nodes }
        ensures statuses { self.new.statuses ≡ self.old.statuses }
        ensures floors { self.new.floors ≡ self.old.floors }
    {
        let place = usize::from(receiver) * self.nodes + usize::from(delivered.sender);
        let number = self.payloads[place].number + 1;
        self.payloads[place] = Chosen {
            number,
            payload: Payload::of(delivered.payload.bytes()),
        };
    }

    /// A node publishes its status.
    pub(crate) fn publish(&mut self, node: u8, status: StatusWords)
        requires { node < length self.old.statuses.items }
        ensures statuses { self.new.statuses.items ≡ slice_set self.old.statuses.items node status }
        ensures nodes { self.new.nodes ≡ self.old.nodes }
        ensures payloads { self.new.payloads ≡ self.old.payloads }
        ensures floors { self.new.floors ≡ self.old.floors }
    {
        self.statuses[usize::from(node)] = status;
    }
}
