//! Clocks: how each drifts, and how each reading errs.
ghost use Rattle.std.specs.Prelude.{◌≡◌, ◌+◌, ◌*◌, ◌<◌, ◌≤◌, ◌++◌, [], length, map, OnOk};
ghost use Rattle.ttp_base.specs.NodeSet.{below};
ghost use Rattle.ttp_world.specs.Medl.{IsValid, IsWithin};
ghost use Rattle.script_gen.specs.Draws.{drawn};
ghost use Rattle.script_gen.specs.Generator.{spread_over, drift_by, error_events};

use crate::draws::{Draws, MOST_DRAWS};
use ttp_base::{List, Memory};
use ttp_world::{Event, Medl};

// Draws a number from minus a bound up to it.
fn spread(bound: i64, draws: &mut Draws) -> i64
    requires bound { IsWithin 0 1000 bound }
    requires few { draws.old.count < MOST_DRAWS }
    ensures value { result ≡ spread_over bound (drawn draws.old.number draws.old.count) }
    ensures number { draws.new.number ≡ draws.old.number }
    ensures count { draws.new.count ≡ draws.old.count + 1 }
{
    let width = 2 * bound.unsigned_abs() + 1;
    let draw = u64::from(draws.draw()) % width;
    draw as i64 - bound
}

/// Draws the drift of each node and its reading error, which is an event of all slots.
pub(crate) fn add_clocks(
    list: &Medl,
    slots: u32,
    draws: &mut Draws,
    drift: &mut List<i64>,
    events: &mut List<Event>,
) -> Result<(), Memory>
    requires valid { IsValid list.now }
    requires slots { 1 ≤ slots }
    requires draws { draws.old.count ≡ 0 }
    requires drift { drift.old ≡ [] }
    ensures drift { OnOk result (drift.new ≡ map (drift_by list.now draws.old.number) (below (length list.now.slots))) }
    ensures events { OnOk result (events.new ≡ events.old ++ error_events list.now slots draws.old.number) }
    ensures number { draws.new.number ≡ draws.old.number }
    ensures count { OnOk result (draws.new.count ≡ 2 * length list.now.slots) }
{
    for node in 0..list.nodes() {
        drift.push(spread(list.drift, draws))?;
        events.push(Event::Error {
            node,
            value: spread(list.error, draws),
            from: 0,
            to: slots - 1,
        })?;
    }
    Ok(())
}
