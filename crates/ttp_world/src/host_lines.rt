//! What hosts do, in the order of the script.
ghost use Rattle.std.specs.Prelude.{◌≡◌, [], ◌∷◌, ◌++◌, IfOk, OnOk, option_map};
ghost use Rattle.std.specs.List.{cons_option, filter_map};
ghost use Rattle.ttp_world.specs.HostLines.{keyed_read, keyed_write, keyed_writes};
ghost use Rattle.ttp_world.specs.Script.{host_write, write_of};

use crate::script::{Event, Payload, Source};
use crate::sorted::Keyed;
use std::alloc::Global;
use ttp_base::{List, Memory};

/// A read of a node's host: whose host reads, and from which ring.
#[derive(Clone, Copy, PartialEq, Eq)]
pub struct HostRead {
    pub host: u8,
    pub source: Source,
}

/// A message that a node's host writes to its outgoing ring, as it lies in the script.
#[derive(Clone, Copy)]
pub struct Written<'a> {
    pub host: u8,
    pub payload: &'a Payload,
}

// The read that an event is.
fn keyed_read(event: &Event) -> Option<Keyed<HostRead>>
    ensures { result ≡ keyed_read event.now }
{
    match event {
        Event::Read { node, slot, source } => Some(Keyed {
            key: u64::from(*slot),
            value: HostRead {
                host: *node,
                source: *source,
            },
        }),
        Event::Send { .. }
        | Event::Receive { .. }
        | Event::Flip { .. }
        | Event::Error { .. }
        | Event::Jump { .. }
        | Event::Arm { .. }
        | Event::Write { .. } => None,
    }
}

// The place of an event, if it is a write.
fn keyed_write(place: usize, event: &Event) -> Option<Keyed<usize>>
    ensures { result ≡ keyed_write place event.now }
{
    match event {
        Event::Write { slot, .. } => Some(Keyed {
            key: u64::from(*slot),
            value: place,
        }),
        Event::Send { .. }
        | Event::Receive { .. }
        | Event::Flip { .. }
        | Event::Error { .. }
        | Event::Jump { .. }
        | Event::Arm { .. }
        | Event::Read { .. } => None,
    }
}

/// The message that an event writes.
pub(crate) fn write_of(event: &Event) -> Option<Written<'_>>
    ensures { option_map host_write result ≡ write_of event.now }
{
    match event {
        Event::Write { node, payload, .. } => Some(Written {
            host: *node,
            payload,
        }),
        Event::Send { .. }
        | Event::Receive { .. }
        | Event::Flip { .. }
        | Event::Error { .. }
        | Event::Jump { .. }
        | Event::Arm { .. }
        | Event::Read { .. } => None,
    }
}

// Adds the read that an event is, if it is one.
fn add_read(reads: &mut List<Keyed<HostRead>>, event: &Event) -> Result<(), Memory>
    ensures { OnOk result (reads.new ≡ reads.old ++ filter_map keyed_read (event.now ∷ [])) }
{
    if let Some(read) = keyed_read(event) {
        reads.push(read)?;
    }
    Ok(())
}

// Adds the place of an event, if it is a write.
fn add_write(writes: &mut List<Keyed<usize>>, place: usize, event: &Event) -> Result<(), Memory>
    ensures { OnOk result (writes.new ≡ writes.old ++ cons_option (keyed_write place event.now) []) }
{
    if let Some(write) = keyed_write(place, event) {
        writes.push(write)?;
    }
    Ok(())
}

/// The reads of hosts, with their slots.
pub(crate) fn reads_of(alloc: Global, events: &[Event]) -> Result<List<Keyed<HostRead>>, Memory>
    ensures { IfOk result (λ reads. reads ≡ filter_map keyed_read events.now) }
{
    let mut reads = List::new(alloc);
    for event in events {
        add_read(&mut reads, event)?;
    }
    Ok(reads)
}

/// The places of the writes of hosts among all events, with their slots.
pub(crate) fn writes_of(alloc: Global, events: &[Event]) -> Result<List<Keyed<usize>>, Memory>
    ensures { IfOk result (λ writes. writes ≡ keyed_writes 0 events.now) }
{
    let mut writes = List::new(alloc);
    for place in 0..events.len() {
        add_write(&mut writes, place, &events[place])?;
    }
    Ok(writes)
}
