//! A script with one event more.
ghost use Rattle.std.specs.Prelude.{◌≡◌, ◌<◌, ◌++◌, ◌∷◌, [], length, All, IfOk};
ghost use Rattle.ttp_world.specs.declared.script.TheConstants.{EVENT_LIMIT};
ghost use Rattle.ttp_world.specs.Script.{IsBounded};
ghost use Rattle.campaign.specs.Tried.{with_fault};

use std::alloc::Global;
use ttp_base::{List, Memory};
use ttp_world::{Event, Events, Payload, Script};

/// The same event.
pub fn copy_of(event: &Event) -> Event
    ensures { result ≡ event.now }
{
    match event {
        Event::Send {
            node,
            channels,
            fault,
            from,
            to,
        } => Event::Send {
            node: *node,
            channels: *channels,
            fault: *fault,
            from: *from,
            to: *to,
        },
        Event::Receive {
            node,
            channels,
            fault,
            from,
            to,
        } => Event::Receive {
            node: *node,
            channels: *channels,
            fault: *fault,
            from: *from,
            to: *to,
        },
        Event::Flip {
            node,
            channels,
            bit,
            slot,
        } => Event::Flip {
            node: *node,
            channels: *channels,
            bit: *bit,
            slot: *slot,
        },
        Event::Error {
            node,
            value,
            from,
            to,
        } => Event::Error {
            node: *node,
            value: *value,
            from: *from,
            to: *to,
        },
        Event::Jump { node, value, slot } => Event::Jump {
            node: *node,
            value: *value,
            slot: *slot,
        },
        Event::Arm { node, slot } => Event::Arm {
            node: *node,
            slot: *slot,
        },
        Event::Write {
            node,
            slot,
            payload,
        } => Event::Write {
            node: *node,
            slot: *slot,
            payload: Payload::of(payload.bytes()),
        },
        Event::Read { node, slot, source } => Event::Read {
            node: *node,
            slot: *slot,
            source: *source,
        },
    }
}

// These events, and one more behind them.
fn events_with(alloc: Global, events: &[Event], fault: &Event) -> Result<List<Event>, Memory>
    ensures { IfOk result (λ all. all ≡ events.now ++ fault.now ∷ []) }
{
    let mut all = List::new(alloc);
    for event in events {
        all.push(copy_of(event))?;
    }
    all.push(copy_of(fault))?;
    Ok(all)
}

/// The script with one event more, behind the others. All events are copied, and their index is made anew:
/// it takes time as a sort of the events does, and memory that grows with their number.
///
/// # Errors
///
/// Where memory was refused.
pub fn with_fault(alloc: Global, script: &Script, fault: &Event) -> Result<Script, Memory>
    requires room { length script.now.events < EVENT_LIMIT }
    requires events { All IsBounded script.now.events }
    requires fault { IsBounded fault.now }
    ensures { IfOk result (λ more. more ≡ with_fault script.now fault.now) }
{
    let Ok(on) = Vec::from_slice(alloc, script.on.as_slice()) else {
        return Err(Memory);
    };
    let Ok(drift) = Vec::from_slice(alloc, script.drift.as_slice()) else {
        return Err(Memory);
    };
    let events = events_with(alloc, script.events.as_slice(), fault)?;
    Ok(Script {
        slots: script.slots,
        on: List::from_vec(on),
        drift: List::from_vec(drift),
        events: Events::index(alloc, events)?,
    })
}
