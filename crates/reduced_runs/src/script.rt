//! A script without some of its fault lines.
ghost use Rattle.std.specs.Prelude.{◌≡◌, ◌==◌, ◌≤◌, length, All, IfOk};
ghost use Rattle.std.specs.List.{list_any};
ghost use Rattle.ttp_world.specs.declared.script.TheConstants.{EVENT_LIMIT};
ghost use Rattle.ttp_world.specs.Script.{IsBounded};
ghost use Rattle.causes.specs.Story.{is_fault_event};
ghost use Rattle.causes.specs.Reduced.{events_kept, with_faults_at};

use single_faults::copy_of;
use std::alloc::Global;
use ttp_base::{List, Memory};
use ttp_world::{Event, Events, Script};

// An event is a fault: a loss, a flip or a jump.
fn is_fault(event: &Event) -> bool
    ensures { result ≡ is_fault_event event.now }
{
    matches!(
        event,
        Event::Send { .. } | Event::Receive { .. } | Event::Flip { .. } | Event::Jump { .. }
    )
}

// A place is one of some.
fn is_among(places: &[usize], place: usize) -> bool
    ensures { result ≡ list_any (λ other. other == place) places.now }
{
    places.iter().any(|other| *other == place)
}

// The events without the faults that stand at none of these places.
fn kept_events(alloc: Global, events: &[Event], places: &[usize]) -> Result<List<Event>, Memory>
    ensures { IfOk result (λ kept. kept ≡ events_kept places.now 0 events.now) }
{
    let mut kept = List::new(alloc);
    for place in 0..events.len() {
        let event = &events[place];
        if !is_fault(event) || is_among(places, place) {
            kept.push(copy_of(event))?;
        }
    }
    Ok(kept)
}

/// The script without its fault lines but those at some places among its events.
///
/// # Errors
///
/// Where memory was refused.
#[tactic(auto, using(crate::proofs::Valid::kept_bounded, crate::proofs::Valid::kept_fewer))]
pub fn with_faults_at(alloc: Global, script: &Script, places: &[usize]) -> Result<Script, Memory>
    requires count { length script.now.events ≤ EVENT_LIMIT }
    requires events { All IsBounded script.now.events }
    ensures { IfOk result (λ fewer. fewer ≡ with_faults_at places.now script.now) }
{
    let Ok(on) = Vec::from_slice(alloc, script.on.as_slice()) else {
        return Err(Memory);
    };
    let Ok(drift) = Vec::from_slice(alloc, script.drift.as_slice()) else {
        return Err(Memory);
    };
    let events = kept_events(alloc, script.events.as_slice(), places)?;
    Ok(Script {
        slots: script.slots,
        on: List::from_vec(on),
        drift: List::from_vec(drift),
        events: Events::index(alloc, events)?,
    })
}
