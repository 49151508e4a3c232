//! What stands outside the hypothesis: flipped bits, armed nodes, and jumps of a clock that do not
//! go far or are not the node's first.
ghost use Rattle.std.specs.Prelude.{◌≡◌, ◌<◌};
ghost use Rattle.ttp_base.specs.NodeSet.{most_nodes};
ghost use Rattle.ttp_world.specs.Hypothesis.{four_windows, is_far_jump, is_allowed_jump, outside_slot, outside_broken};
ghost use Rattle.ttp_world.specs.Medl.{IsValid, IsWithin};
ghost use Rattle.ttp_world.specs.Returning.{disturbed_slot, disturbance_broken};
ghost use Rattle.ttp_world.specs.Script.{IsValidEvent, IsValidScript};
ghost use Rattle.hypothesis.specs.Jumps.{AreFirstJumps};

use crate::nodes::lesser;
use ttp_world::{Event, Medl, Script};

/// For each node the slot of its first jump, or the largest number where it has none.
#[derive(Clone, Copy)]
struct FirstJumps {
    slots: [u32; 24],
}

// The first jump of each node.
fn first_jumps(list: &Medl, script: &Script) -> FirstJumps
    requires valid { IsValid list.now }
    requires script { IsValidScript list.now script.now }
    ensures { AreFirstJumps script.now.events result.slots }
{
    let mut slots = [u32::MAX; 24];
    for event in script.events.as_slice() {
        if let Event::Jump { node, slot, .. } = event {
            if *slot < slots[*node as usize] {
                slots[*node as usize] = *slot;
            }
        }
    }
    FirstJumps { slots }
}

/// Four windows, in microticks.
pub fn four_windows(list: &Medl) -> i64
    requires { IsValid list.now }
    ensures value { result ≡ four_windows list.now }
    ensures bound { IsWithin 4 4000000 result }
{
    list.window * 4
}

/// Whether a jump goes as far as four windows, either way.
pub fn is_far_jump(list: &Medl, jump: i64) -> bool
    requires { IsValid list.now }
    ensures { result ≡ is_far_jump list.now jump }
{
    let far = four_windows(list);
    far <= jump || jump <= -far
}

// Whether the jumps of a node's clock in a slot are its first and go far.
fn is_allowed_jump(list: &Medl, script: &Script, first: &FirstJumps, node: u8, slot: u32) -> bool
    requires valid { IsValid list.now }
    requires node { node < most_nodes }
    requires first { AreFirstJumps script.now.events first.now.slots }
    ensures { result ≡ is_allowed_jump list.now script.now node slot }
{
    is_far_jump(list, script.incidents(node, slot).jump) && !(first.slots[node as usize] < slot)
}

// The slot that a flipped bit or a jump puts outside the hypothesis, if it does.
fn disturbed_slot(list: &Medl, script: &Script, first: &FirstJumps, event: &Event) -> Option<u32>
    requires valid { IsValid list.now }
    requires event { IsValidEvent list.now script.now event.now }
    requires first { AreFirstJumps script.now.events first.now.slots }
    ensures { result ≡ disturbed_slot list.now script.now event.now }
{
    match event {
        Event::Flip { slot, .. } => Some(*slot),
        Event::Jump { node, slot, .. } => {
            if is_allowed_jump(list, script, first, *node, *slot) {
                None
            } else {
                Some(*slot)
            }
        }
        _ => None,
    }
}

// The slot that an event puts outside the hypothesis, if it does.
fn outside_slot(list: &Medl, script: &Script, first: &FirstJumps, event: &Event) -> Option<u32>
    requires valid { IsValid list.now }
    requires event { IsValidEvent list.now script.now event.now }
    requires first { AreFirstJumps script.now.events first.now.slots }
    ensures { result ≡ outside_slot list.now script.now event.now }
{
    match event {
        Event::Arm { slot, .. } => Some(*slot),
        _ => disturbed_slot(list, script, first, event),
    }
}

/// The least slot of what stands outside the hypothesis where nodes may be armed.
pub(crate) fn disturbance_broken(list: &Medl, script: &Script) -> Option<u32>
    requires valid { IsValid list.now }
    requires script { IsValidScript list.now script.now }
    ensures { result ≡ disturbance_broken list.now script.now }
{
    let first = first_jumps(list, script);
    let mut least = None;
    for event in script.events.as_slice() {
        if let Some(slot) = disturbed_slot(list, script, &first, event) {
            least = Some(lesser(slot, least));
        }
    }
    least
}

/// The least slot of what stands outside the hypothesis.
pub(crate) fn outside_broken(list: &Medl, script: &Script) -> Option<u32>
    requires valid { IsValid list.now }
    requires script { IsValidScript list.now script.now }
    ensures { result ≡ outside_broken list.now script.now }
{
    let first = first_jumps(list, script);
    let mut least = None;
    for event in script.events.as_slice() {
        if let Some(slot) = outside_slot(list, script, &first, event) {
            least = Some(lesser(slot, least));
        }
    }
    least
}
