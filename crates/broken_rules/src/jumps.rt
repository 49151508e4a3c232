//! Flipped bits, and jumps of a clock that do not go far or are not the node's first.
ghost use Rattle.std.specs.Prelude.{◌≡◌, ◌<◌};
ghost use Rattle.ttp_base.specs.NodeSet.{most_nodes};
ghost use Rattle.ttp_world.specs.Medl.{IsValid};
ghost use Rattle.ttp_world.specs.Script.{IsValidEvent, IsValidScript};
ghost use Rattle.broken_rules.specs.Jumps.{HoldFirstJumps, jump_disturbs, disturbed_at, earlier, first_disturbed};

use hypothesis::{is_far_jump, lesser};
use ttp_world::{Event, Medl, Script};

/// What a line of a script does to a frame or a clock that no rule allows.
#[derive(Clone, Copy)]
pub enum Disturbance {
    /// A bit of this node's frame is flipped.
    FlippedBit { node: u8 },
    /// This node's clock jumps, and has done so before, first in this slot.
    JumpsAgain { node: u8, first: u32 },
    /// The jumps of this node's clock in the slot add up to so many microticks, which is less than four windows
    /// either way.
    ShortJump { node: u8, sum: i64 },
}

/// The first slot with something that no rule allows: the place of its first such line among the script's events, and
/// what the line does.
#[derive(Clone, Copy)]
pub struct Disturbed {
    pub slot: u32,
    pub place: usize,
    pub by: Disturbance,
}

/// For each node the slot of its first jump, if it has one.
#[derive(Clone, Copy)]
struct FirstJumps {
    slots: [Option<u32>; 24],
}

// The first jump of each node.
fn first_jumps(list: &Medl, script: &Script) -> FirstJumps
    requires valid { IsValid list.now }
    requires script { IsValidScript list.now script.now }
    ensures { HoldFirstJumps script.now result.slots }
{
    let mut slots = [None; 24];
    for event in script.events.as_slice() {
        if let Event::Jump { node, slot, .. } = event {
            slots[*node as usize] = Some(lesser(*slot, slots[*node as usize]));
        }
    }
    FirstJumps { slots }
}

// What is not allowed of a node's jump in a slot, if something is.
fn jump_disturbs(
    list: &Medl,
    script: &Script,
    first: &FirstJumps,
    node: u8,
    slot: u32,
) -> Option<Disturbance>
    requires valid { IsValid list.now }
    requires node { node < most_nodes }
    requires first { HoldFirstJumps script.now first.now.slots }
    ensures { result ≡ jump_disturbs list.now script.now node slot }
{
    let known = first.slots[node as usize];
    match known {
        Some(first) if first < slot => Some(Disturbance::JumpsAgain { node, first }),
        _ => {
            let sum = script.incidents(node, slot).jump;
            if is_far_jump(list, sum) {
                None
            } else {
                Some(Disturbance::ShortJump { node, sum })
            }
        }
    }
}

// What an event does that is not allowed, with its slot and its place among the events.
fn disturbed_at(
    list: &Medl,
    script: &Script,
    first: &FirstJumps,
    place: usize,
    event: &Event,
) -> Option<Disturbed>
    requires valid { IsValid list.now }
    requires event { IsValidEvent list.now script.now event.now }
    requires first { HoldFirstJumps script.now first.now.slots }
    ensures { result ≡ disturbed_at list.now script.now place event.now }
{
    match event {
        Event::Flip { node, slot, .. } => Some(Disturbed {
            slot: *slot,
            place,
            by: Disturbance::FlippedBit { node: *node },
        }),
        Event::Jump { node, slot, .. } => match jump_disturbs(list, script, first, *node, *slot) {
            Some(by) => Some(Disturbed {
                slot: *slot,
                place,
                by,
            }),
            None => None,
        },
        _ => None,
    }
}

// The one in the lesser slot, the first of two in one.
fn earlier(first: Disturbed, later: Option<Disturbed>) -> Disturbed
    ensures { result ≡ earlier first later }
{
    match later {
        Some(later) if later.slot < first.slot => later,
        _ => first,
    }
}

/// What is not allowed in the first slot in which something is not, by its first line. Goes over the events twice, and
/// looks each jump up.
pub(crate) fn first_disturbed(list: &Medl, script: &Script) -> Option<Disturbed>
    requires valid { IsValid list.now }
    requires script { IsValidScript list.now script.now }
    ensures { result ≡ first_disturbed list.now script.now }
{
    let first = first_jumps(list, script);
    let events = script.events.as_slice();
    let mut earliest = None;
    for place in (0..events.len()).rev() {
        if let Some(found) = disturbed_at(list, script, &first, place, &events[place]) {
            earliest = Some(earlier(found, earliest));
        }
    }
    earliest
}
