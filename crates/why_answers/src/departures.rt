//! The newest departure of a node.
ghost use Rattle.std.specs.Prelude.{◌≡◌, ◌+◌, ◌<◌, length, IfOk, IfSome};
ghost use Rattle.ttp_world.specs.Medl.{IsValid};
ghost use Rattle.ttp_world.specs.Script.{IsValidScript};
ghost use Rattle.run_costs.specs.Standing.{IsRunAfter};
ghost use Rattle.why_answers.specs.Answer.{departure_before, departure_slot};

use run_costs::Run;
use std::alloc::Global;
use ttp_base::Memory;
use ttp_world::{Entry, Medl, Script};

// The slot of a node's newest departure, of a run that has done this slot, by that before it.
fn departure_after(
    list: &Medl,
    script: &Script,
    slot: u32,
    run: &Run,
    node: u8,
    before: Option<u32>,
) -> Option<u32>
    requires valid { IsValid list.now }
    requires node { node < length list.now.slots }
    requires run { IsRunAfter run.now list.now script.now (slot + 1) }
    requires before { before ≡ departure_before list.now script.now slot node }
    requires earlier { IfSome before (λ t. t < slot) }
    ensures value { result ≡ departure_before list.now script.now (slot + 1) node }
    ensures within { IfSome result (λ t. t < slot + 1) }
{
    let states = run.states(list);
    let at = usize::from(node);
    let entry = states[at].entry;
    match entry {
        Entry::Left { .. } => Some(slot),
        _ => before,
    }
}

/// The slot of a node's newest departure in the whole run, if it left. No slot but the newest is kept.
///
/// # Errors
///
/// Where memory was refused.
pub(crate) fn departure_slot(
    alloc: Global,
    list: &Medl,
    script: &Script,
    node: u8,
) -> Result<Option<u32>, Memory>
    requires valid { IsValid list.now }
    requires script { IsValidScript list.now script.now }
    requires node { node < length list.now.slots }
    ensures value { IfOk result (λ slot. slot ≡ departure_slot list.now script.now node) }
    ensures within { IfOk result (λ slot. IfSome slot (λ t. t < script.now.slots)) }
{
    let mut run = Run::new(alloc, list)?;
    let mut departure = None;
    for slot in 0..script.slots {
        run.step(list, script, slot);
        departure = departure_after(list, script, slot, &run, node, departure);
    }
    Ok(departure)
}
