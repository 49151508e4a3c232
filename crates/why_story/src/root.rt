//! The root that an entry names beside its causes.
ghost use Rattle.std.specs.Prelude.{◌≡◌, ◌<◌, ◌≤◌, length, IfOk};
ghost use Rattle.ttp_base.specs.NodeSet.{most_nodes};
ghost use Rattle.ttp_world.specs.After.{is_active_entry};
ghost use Rattle.causes.specs.Causes.{cause_at};
ghost use Rattle.causes.specs.Story.{added_root, has_fault_line, has_spot, is_fault_event, leads_to_fault};
ghost use Rattle.causes.specs.Story.{states_fault, was_active};
ghost use Rattle.why_story.specs.RunSource.{AreRunSpots, source_slots, slots_up_to, spot_at};

use crate::causes_of::Causes;
use crate::reach::reached;
use causes::{ScriptLine, Spot, Told};
use std::alloc::Global;
use ttp_base::{List, Memory};
use ttp_world::{Entry, Event, Script};

// An event is a loss, a flip or a jump.
fn is_fault_event(event: &Event) -> bool
    ensures { result ≡ is_fault_event event.now }
{
    matches!(
        event,
        Event::Send { .. } | Event::Receive { .. } | Event::Flip { .. } | Event::Jump { .. }
    )
}

/// Whether a line of a script states a fault.
pub fn states_fault(script: &Script, line: &ScriptLine) -> bool
    ensures { result ≡ states_fault script.now line.now }
{
    match line {
        ScriptLine::Event(place) => match script.events.as_slice().get(*place) {
            Some(event) => is_fault_event(event),
            None => false,
        },
        ScriptLine::On(_) | ScriptLine::Drift(_) => false,
    }
}

// Whether an entry names one.
fn has_fault_line(script: &Script, told: &Told) -> bool
    ensures { result ≡ has_fault_line script.now told.now }
{
    told.cause
        .lines
        .as_slice()
        .iter()
        .any(|line| states_fault(script, line))
}

// Whether what is reached from an entry names one, in the slots before one.
fn leads_to_fault<C: Causes>(
    alloc: Global,
    causes: &C,
    script: &Script,
    nodes: u8,
    slot: u32,
    from: Spot,
) -> Result<bool, Memory>
    requires slot { slot < length (C.source causes.now).history }
    requires nodes { nodes ≡ length (C.source causes.now).list.slots }
    requires most { nodes ≤ most_nodes }
    ensures { IfOk result (λ leads. leads
        ≡ leads_to_fault script.now (slots_up_to (source_slots (C.source causes.now)) slot) from) }
{
    let told = reached(alloc, causes, nodes, slot, &[from])?;
    for one in told.as_slice() {
        if has_fault_line(script, one) {
            return Ok(true);
        }
    }
    Ok(false)
}

fn is_active_entry(entry: &Entry) -> bool
    ensures { result ≡ is_active_entry entry.now }
{
    matches!(
        entry,
        Entry::Started | Entry::Sent { .. } | Entry::Joined { .. } | Entry::Judged { .. }
    )
}

// Whether a node was active before a slot.
fn was_active<C: Causes>(causes: &C, slot: u32, node: u8) -> bool
    requires slot { slot < length (C.source causes.now).history }
    requires node { node < length (C.source causes.now).list.slots }
    ensures { result ≡ was_active node (slots_up_to (source_slots (C.source causes.now)) slot) }
{
    slot != 0 && is_active_entry(&causes.entry(slot - 1, node))
}

fn is_among(entries: &[Spot], spot: Spot) -> bool
    ensures { result ≡ has_spot entries.now spot }
{
    entries
        .iter()
        .any(|other| spot.slot == other.slot && spot.node == other.node)
}

/// The root that a node's entry of a slot names beside its causes, if it names one.
///
/// # Errors
///
/// Where memory was refused.
pub(crate) fn added_root<C: Causes>(
    alloc: Global,
    causes: &C,
    script: &Script,
    nodes: u8,
    slot: u32,
    node: u8,
) -> Result<List<Spot>, Memory>
    requires slot { slot < length (C.source causes.now).history }
    requires nodes { nodes ≡ length (C.source causes.now).list.slots }
    requires most { nodes ≤ most_nodes }
    requires node { node < nodes }
    ensures within { IfOk result (AreRunSpots (C.source causes.now)) }
    ensures value { IfOk result (λ added. added ≡ added_root script.now node (slots_up_to (source_slots (C.source causes.now)) slot)
        (cause_at (source_slots (C.source causes.now)) (spot_at slot node)).entries) }
{
    let mut root = List::new(alloc);
    if !was_active(causes, slot, node) {
        return Ok(root);
    }
    let origin = causes.root(slot, node);
    let cause = causes.cause(alloc, slot, node)?;
    if !is_among(cause.entries.as_slice(), origin)
        && leads_to_fault(alloc, causes, script, nodes, slot, origin)?
    {
        root.push(origin)?;
    }
    Ok(root)
}
