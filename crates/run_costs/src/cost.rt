//! What a run costs.
ghost use Rattle.std.specs.Prelude.{◌≡◌, IfOk};
ghost use Rattle.ttp_world.specs.Medl.{IsValid};
ghost use Rattle.ttp_world.specs.Script.{IsValidScript};
ghost use Rattle.campaign.specs.Lines.{summary};
ghost use Rattle.campaign.specs.Tried.{with_fault};
ghost use Rattle.run_costs.specs.Standing.{IsRunOfList, IsSeenAfter};

use crate::seen_run::{SeenRun, is_later_fault};
use campaign::Cost;
use std::alloc::Global;
use ttp_base::Memory;
use ttp_world::{Event, Medl, Script};

/// What the run of a script costs, from its first slot to its last.
///
/// # Errors
///
/// Where memory was refused.
pub fn cost_of(alloc: Global, list: &Medl, script: &Script) -> Result<Cost, Memory>
    requires valid { IsValid list.now }
    requires script { IsValidScript list.now script.now }
    ensures { IfOk result (λ cost. cost ≡ (summary list.now script.now).cost) }
{
    let mut run = SeenRun::new(alloc, list, script)?;
    for slot in 0..script.slots {
        run.step(list, script, slot);
    }
    run.cost(alloc, list)
}

/// What the run of a script with one event more costs, `more`, by a run of the script without it, `past`. Where
/// that has come no further than to the slot in which the event begins, none of its slots is run again: `run`
/// takes them over, of which no more is asked than that it is one of the list. An event that a campaign does
/// not try may change what is read of earlier slots: then the run is made from its first slot on.
///
/// # Errors
///
/// Where memory was refused.
pub fn cost_from(
    alloc: Global,
    list: &Medl,
    script: &Script,
    event: &Event,
    more: &Script,
    past: &SeenRun,
    run: &mut SeenRun,
) -> Result<Cost, Memory>
    requires valid { IsValid list.now }
    requires script { IsValidScript list.now more.now }
    requires more { more.now ≡ with_fault script.now event.now }
    requires past { IsSeenAfter past.now list.now script.now past.now.slots }
    requires run { IsRunOfList run.old.run list.now }
    ensures cost { IfOk result (λ cost. cost ≡ (summary list.now more.now).cost) }
    ensures run { IsRunOfList run.new.run list.now }
{
    if !is_later_fault(past.slots, event) {
        return cost_of(alloc, list, more);
    }
    run.go_on_from(past, list, more, event);
    for slot in past.slots..more.slots {
        run.step(list, more, slot);
    }
    run.cost(alloc, list)
}
