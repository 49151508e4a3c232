//! What hosts do: in each slot the sender's host writes, and that of the node after it reads.
ghost use Rattle.std.specs.Prelude.{◌≡◌, ◌<◌, ◌≤◌, ◌++◌, length, replicate, OnOk};
ghost use Rattle.ttp_world.specs.Medl.{IsValid};
ghost use Rattle.script_gen.specs.Generator.{write_by, reads_by, host_events};

use ttp_base::{List, Memory};
use ttp_world::{Event, Medl, PAYLOAD_LIMIT, Payload, SLOT_LIMIT, Source};

// The payload of this byte alone, so often.
fn filled(size: u8, byte: u8) -> Payload
    requires { size ≤ PAYLOAD_LIMIT }
    ensures { result ≡ replicate size byte }
{
    let bytes = [byte; PAYLOAD_LIMIT];
    Payload::of(&bytes[..size as usize])
}

// Adds what the sender's host writes.
fn add_write(list: &Medl, slot: u32, sender: u8, events: &mut List<Event>) -> Result<(), Memory>
    requires valid { IsValid list.now }
    requires sender { sender < length list.now.slots }
    ensures { OnOk result (events.new ≡ events.old ++ write_by list.now slot sender) }
{
    let size = list.slots.get(sender as usize).payload;
    if list.buffers >= 2 && size >= 1 {
        events.push(Event::Write {
            node: sender,
            slot,
            payload: filled(size, (slot % 256) as u8),
        })?;
    }
    Ok(())
}

// Adds what the host after it reads.
fn add_reads(
    list: &Medl,
    slot: u32,
    host: u8,
    sender: u8,
    events: &mut List<Event>,
) -> Result<(), Memory>
    requires valid { IsValid list.now }
    requires sender { sender < length list.now.slots }
    ensures { OnOk result (events.new ≡ events.old ++ reads_by list.now slot host sender) }
{
    events.push(Event::Read {
        node: host,
        slot,
        source: Source::Status,
    })?;
    if list.slots.get(sender as usize).payload >= 1 {
        events.push(Event::Read {
            node: host,
            slot,
            source: Source::Node(sender),
        })?;
    }
    Ok(())
}

/// Adds what hosts write and read, slot by slot.
pub(crate) fn add_host_events(
    list: &Medl,
    slots: u32,
    events: &mut List<Event>,
) -> Result<(), Memory>
    requires valid { IsValid list.now }
    requires slots { slots ≤ SLOT_LIMIT }
    ensures { OnOk result (events.new ≡ events.old ++ host_events list.now slots) }
{
    let nodes = u32::from(list.nodes());
    for slot in 0..slots {
        let sender = (slot % nodes) as u8;
        add_write(list, slot, sender, events)?;
        add_reads(list, slot, ((slot + 1) % nodes) as u8, sender, events)?;
    }
    Ok(())
}
