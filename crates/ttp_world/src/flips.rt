//! Flipped bits in the order of their nodes and slots.
ghost use Rattle.std.specs.Prelude.{◌≡◌, [], ◌∷◌, ◌++◌, All, IfOk, OnOk};
ghost use Rattle.std.specs.List.{filter_map};
ghost use Rattle.ttp_world.specs.Flips.{keyed_flip, HasFlipKey};

use crate::events::FlippedBit;
use crate::index::key_of;
use crate::script::Event;
use crate::sorted::Keyed;
use std::alloc::Global;
use ttp_base::{List, Memory};

// The bit that an event flips.
fn keyed_flip(event: &Event) -> Option<Keyed<FlippedBit>>
    ensures value { result ≡ keyed_flip event.now }
    ensures slots { HasFlipKey event.now }
{
    match event {
        Event::Flip {
            node,
            channels,
            bit,
            slot,
        } => Some(Keyed {
            key: key_of(*node, *slot),
            value: FlippedBit {
                channels: *channels,
                bit: *bit,
            },
        }),
        Event::Send { .. }
        | Event::Receive { .. }
        | Event::Error { .. }
        | Event::Jump { .. }
        | Event::Arm { .. }
        | Event::Write { .. }
        | Event::Read { .. } => None,
    }
}

// Adds the flip of an event, if it is one.
fn add_flip(flips: &mut List<Keyed<FlippedBit>>, event: &Event) -> Result<(), Memory>
    ensures ok { OnOk result (flips.new ≡ flips.old ++ filter_map keyed_flip (event.now ∷ [])) }
    ensures slots { HasFlipKey event.now }
{
    if let Some(flip) = keyed_flip(event) {
        flips.push(flip)?;
    }
    Ok(())
}

/// The flips of all events, in the order of the script.
pub(crate) fn flips_of(alloc: Global, events: &[Event]) -> Result<List<Keyed<FlippedBit>>, Memory>
    ensures value { IfOk result (λ flips. flips ≡ filter_map keyed_flip events.now) }
    ensures slots { IfOk result (λ _. All HasFlipKey events.now) }
{
    let mut flips = List::new(alloc);
    for event in events {
        add_flip(&mut flips, event)?;
    }
    Ok(flips)
}
