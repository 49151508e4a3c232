//! Clocks: each drift and each sum of reading errors is within its bound, which is wider where the
//! two-faced node sends.
ghost use Rattle.std.specs.Prelude.{◌≡◌, ◌*◌, ◌+◌, ◌<◌, ◌≤ℤ◌, IfSome, pos};
ghost use Rattle.ttp_base.specs.NodeSet.{most_nodes};
ghost use Rattle.ttp_world.specs.Medl.{IsValid};
ghost use Rattle.ttp_world.specs.Script.{IsValidScript};
ghost use Rattle.hypothesis.specs.Standing.{told_start_if};
ghost use Rattle.two_faced.specs.Faced.{is_faced_slot, allowed_error, errors_allowed_in, faced_clocks_broken};

use crate::bounds::room;
use hypothesis::{Start, drifts_hold, errors_hold_within, expected_sender};
use ttp_world::{Medl, SLOT_LIMIT, Script};

// Whether two rounds have passed since the start and the node is due to send.
fn is_faced_slot(list: &Medl, node: u8, start: Option<Start>, slot: u32) -> bool
    requires valid { IsValid list.now }
    requires start { IfSome start (λ start. start.slot < SLOT_LIMIT + 3 * most_nodes) }
    ensures { result ≡ is_faced_slot list.now node (told_start_if start) slot }
{
    match start {
        Some(start) => {
            start.slot + 2 * u32::from(list.nodes()) <= slot
                && expected_sender(list, start, slot) == node
        }
        None => false,
    }
}

// How far a node's reading errors may add up in a slot, either way.
fn allowed_error(list: &Medl, node: u8, start: Option<Start>, slot: u32) -> i64
    requires valid { IsValid list.now }
    requires start { IfSome start (λ start. start.slot < SLOT_LIMIT + 3 * most_nodes) }
    ensures value { result ≡ allowed_error list.now node (told_start_if start) slot }
    ensures sign { pos 0 ≤ℤ result }
{
    if is_faced_slot(list, node, start, slot) {
        list.error.max(room(list))
    } else {
        list.error
    }
}

// Whether each node's reading errors of a slot add up to no more than is allowed.
fn errors_allowed_in(
    list: &Medl,
    script: &Script,
    node: u8,
    start: Option<Start>,
    slot: u32,
) -> bool
    requires valid { IsValid list.now }
    requires start { IfSome start (λ start. start.slot < SLOT_LIMIT + 3 * most_nodes) }
    ensures { result ≡ errors_allowed_in list.now script.now node (told_start_if start) slot }
{
    errors_hold_within(list, script, allowed_error(list, node, start, slot), slot)
}

/// The slot that is named where a drift or a sum of reading errors is past its bound: 0 for a
/// drift, else the first with such a sum.
pub(crate) fn faced_clocks_broken(
    list: &Medl,
    script: &Script,
    node: u8,
    start: Option<Start>,
) -> Option<u32>
    requires valid { IsValid list.now }
    requires script { IsValidScript list.now script.now }
    requires start { IfSome start (λ start. start.slot < SLOT_LIMIT + 3 * most_nodes) }
    ensures { result ≡ faced_clocks_broken list.now script.now node (told_start_if start) }
{
    if !drifts_hold(list, script) {
        return Some(0);
    }
    for slot in 0..script.slots {
        if !errors_allowed_in(list, script, node, start, slot) {
            return Some(slot);
        }
    }
    None
}
