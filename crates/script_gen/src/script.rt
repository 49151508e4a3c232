//! The script, part after part.
ghost use Rattle.std.specs.Prelude.{◌≡◌, ◌≤◌, [], replicate, Some, None, IsSome, IfOk};
ghost use Rattle.ttp_world.specs.declared.keep.Keep.TheVariants as keep;
ghost use Rattle.ttp_world.specs.Hypothesis.{window_broken, keeps};
ghost use Rattle.ttp_world.specs.Medl.{IsValid};
ghost use Rattle.ttp_world.specs.Script.{IsValidScript};
ghost use Rattle.script_gen.specs.Generator.{first_starter, start_slot_of, generated};

use crate::clocks::add_clocks;
use crate::draws::Draws;
use crate::faults::add_faults;
use crate::hosts::add_host_events;
use std::alloc::Global;
use ttp_base::{List, Memory};
use ttp_world::{Event, Events, Medl, SLOT_LIMIT, Script};

// Room for all events: one for each node, a fault for each second one at most, and three for each slot at most.
fn room(alloc: Global, nodes: u8, slots: u32) -> Result<List<Event>, Memory>
    requires { slots ≤ SLOT_LIMIT }
    ensures { IfOk result (λ events. events ≡ []) }
{
    let most = 2 * nodes as usize + 3 * slots as usize;
    Ok(List::from_vec(Vec::with_capacity(alloc, most)?))
}

// Nodes that are all on from slot 0.
fn all_on(alloc: Global, nodes: u8) -> Result<List<Option<u32>>, Memory>
    ensures { IfOk result (λ on. on ≡ replicate nodes (Some 0)) }
{
    Ok(List::from_vec(vec![in alloc; Some(0u32); nodes as usize]?))
}

/// The script that a number gives for a list, in a run of so many slots.
///
/// It is `generated` of them, and nothing else; only want of memory is answered instead. It is valid for the
/// list. Where the list's window is as wide as correct clocks need and some node may start, it keeps the
/// single-fault hypothesis, with the least node that may start as the one that does. The slot of that start
/// may lie past the run's last slot.
///
/// The room for all events is taken at once, and each slot costs up to three of them. At the end they are put
/// into an index, at the cost of a sort.
pub fn generate(alloc: Global, list: &Medl, slots: u32, number: u64) -> Result<Script, Memory>
    requires valid { IsValid list.now }
    requires slots { (1 ≤ slots) × (slots ≤ SLOT_LIMIT) }
    ensures script { IfOk result (λ script. script ≡ generated list.now slots number) }
    ensures valid { IfOk result (IsValidScript list.now) }
    ensures keeps { window_broken list.now ≡ None → IsSome (first_starter list.now)
        → IfOk result (λ script. keeps list.now script ≡ keep.Yes (start_slot_of list.now)) }
{
    let mut draws = Draws::from(number);
    let mut drift = List::new(alloc);
    let mut events = room(alloc, list.nodes(), slots)?;
    add_clocks(list, slots, &mut draws, &mut drift, &mut events)?;
    add_faults(list, slots, &mut draws, &mut events)?;
    add_host_events(list, slots, &mut events)?;
    let on = all_on(alloc, list.nodes())?;
    let events = Events::index(alloc, events)?;
    Ok(Script {
        slots,
        on,
        drift,
        events,
    })
}
