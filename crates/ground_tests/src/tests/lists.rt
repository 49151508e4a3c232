//! Lists of four nodes, and where scripts are let go.
ghost use Rattle.std.specs.Prelude.{◌≡◌, ◌≤◌, ℕ, [], ◌∷◌, ◌++◌, length, true, false, IfOk};
ghost use Rattle.ttp_world.specs.Medl.{IsValid, plan_at};

use std::alloc::Global;
use ttp_base::{List, Memory};
use ttp_world::{Kind, Medl, Script, SlotPlan};

/// Lets a script go. A function of its own, since what a script holds is let go part by part in each function that
/// may do so.
pub(super) fn let_go(_script: Script) {}

const I: &[Kind] = &[Kind::I];

const X: &[Kind] = &[Kind::X];

const N: &[Kind] = &[Kind::N];

/// Adds the slot of one more node, whose frames have these kinds.
pub(super) fn add_slot(
    alloc: Global,
    slots: List<SlotPlan>,
    kinds: &[Kind],
    payload: u8,
    start: bool,
) -> Result<List<SlotPlan>, Memory>
    ensures { IfOk result (λ more. more ≡ slots ++ record {
      kinds = kinds.now;
      payload = payload;
      sync = true;
      start = start;
      requests = false;
      live = 1;
    } ∷ []) }
{
    let Ok(kinds) = Vec::from_slice(alloc, kinds) else {
        return Err(Memory);
    };
    let plan = SlotPlan {
        kinds: List::from_vec(kinds),
        payload,
        sync: true,
        start,
        requests: false,
        live: 1,
    };
    let mut slots = slots;
    match slots.push(plan) {
        Ok(()) => Ok(slots),
        Err(_) => Err(Memory),
    }
}

/// Four nodes whose frames are all bare, each of which may start.
pub(super) fn bare_nodes(alloc: Global) -> Result<Medl, Memory>
    ensures valid { IfOk result IsValid }
    ensures slots { IfOk result (λ list. length list.slots ≡ 4) }
    ensures buffers { IfOk result (λ list. list.buffers ≡ 2) }
    ensures bare { (k : ℕ) → IfOk result (λ list. (plan_at list k).payload ≡ 0) }
{
    let Ok(slots) = add_slot(alloc, List::new(alloc), I, 0, true) else {
        return Err(Memory);
    };
    let Ok(slots) = add_slot(alloc, slots, I, 0, true) else {
        return Err(Memory);
    };
    let Ok(slots) = add_slot(alloc, slots, I, 0, true) else {
        return Err(Memory);
    };
    let Ok(slots) = add_slot(alloc, slots, I, 0, true) else {
        return Err(Memory);
    };
    Ok(Medl {
        version: 1,
        rounds: 1,
        schedule: 0,
        buffers: 2,
        drift: 0,
        error: 0,
        window: 1,
        modes: 1,
        slots,
    })
}

/// Four nodes with frames of all kinds, of which node 0 alone may start, and node 1 sends its C-state and two bytes
/// of payload.
pub(super) fn mixed_nodes(alloc: Global) -> Result<Medl, Memory>
    ensures { IfOk result IsValid }
{
    let Ok(slots) = add_slot(alloc, List::new(alloc), I, 0, true) else {
        return Err(Memory);
    };
    let Ok(slots) = add_slot(alloc, slots, X, 2, false) else {
        return Err(Memory);
    };
    let Ok(slots) = add_slot(alloc, slots, N, 2, false) else {
        return Err(Memory);
    };
    let Ok(slots) = add_slot(alloc, slots, I, 0, false) else {
        return Err(Memory);
    };
    Ok(Medl {
        version: 1,
        rounds: 1,
        schedule: 7,
        buffers: 2,
        drift: 0,
        error: 1,
        window: 100,
        modes: 1,
        slots,
    })
}
