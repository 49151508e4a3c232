//! Faults: so far apart that each is over when the next one comes, and so few that four nodes with `sync`
//! are left.
ghost use Rattle.std.specs.Prelude.{◌≡◌, ◌*◌, ◌<◌, ◌++◌, length, count_by, OnOk};
ghost use Rattle.ttp_world.specs.Medl.{IsValid};
ghost use Rattle.script_gen.specs.Generator.{starter_of, most_faults, fault_slot_of, fault_by, fault_events};

use crate::draws::Draws;
use ttp_base::{List, Memory};
use ttp_world::{Channels, Event, Fault, Medl, SlotPlan};

// The least slot that may start, or 0 where none may.
fn starter_of(list: &Medl) -> u8
    requires { IsValid list.now }
    ensures { result ≡ starter_of list.now }
{
    for node in 0..list.nodes() {
        if list.slots.get(node as usize).start {
            return node;
        }
    }
    0
}

// How many slots have `sync`.
fn sync_count(slots: &[SlotPlan]) -> usize
    ensures { result ≡ count_by (λ plan. plan.sync) slots.now }
{
    let mut count = 0;
    for plan in slots {
        if plan.sync {
            count += 1;
        }
    }
    count
}

// The most faults: half of the nodes, and so many that four with `sync` are left.
fn most_faults(list: &Medl) -> u8
    requires { IsValid list.now }
    ensures { result ≡ most_faults list.now }
{
    let spare = sync_count(list.slots.as_slice()) as u8 - 4;
    spare.min(list.nodes() / 2)
}

// Fault j, where node `starter` starts and this was drawn for it.
fn fault_by(list: &Medl, starter: u8, j: u8, slot: u32, draw: u32) -> Event
    requires valid { IsValid list.now }
    requires starter { starter ≡ starter_of list.now }
    requires few { j < most_faults list.now }
    requires slot { slot ≡ fault_slot_of list.now j }
    ensures { result ≡ fault_by list.now j draw }
{
    let turn = starter + 2 * j;
    let channels = Channels { a: true, b: true };
    if draw % 2 == 0 {
        Event::Send {
            node: turn % list.nodes(),
            channels,
            fault: Fault::Noise,
            from: slot,
            to: slot,
        }
    } else {
        Event::Receive {
            node: (turn + 1) % list.nodes(),
            channels,
            fault: Fault::Noise,
            from: slot,
            to: slot,
        }
    }
}

/// Draws the faults, and adds those that the run is long enough for.
pub(crate) fn add_faults(
    list: &Medl,
    slots: u32,
    draws: &mut Draws,
    events: &mut List<Event>,
) -> Result<(), Memory>
    requires valid { IsValid list.now }
    requires draws { draws.old.count ≡ 2 * length list.now.slots }
    ensures { OnOk result (events.new ≡ events.old ++ fault_events list.now slots draws.old.number) }
{
    let nodes = u32::from(list.nodes());
    let starter = starter_of(list);
    let first = u32::from(starter) + 4 * nodes;
    for j in 0..most_faults(list) {
        let draw = draws.draw();
        let slot = first + u32::from(j) * (2 * nodes + 2);
        if slot < slots {
            events.push(fault_by(list, starter, j, slot, draw))?;
        }
    }
    Ok(())
}
