//! The scripts of values.
ghost use Rattle.std.specs.Prelude.{◌≡◌, ◌<◌, ◌≤◌, ℕ, ℤ, set, length, IfOk};
ghost use Rattle.ttp_world.specs.declared.medl.Medl.{Medl};
ghost use Rattle.ttp_world.specs.declared.script.TheConstants.{DRIFT_LIMIT};
ghost use Rattle.ttp_world.specs.Events.{IsWithinSpan};
ghost use Rattle.ttp_world.specs.Medl.{IsValid};
ghost use Rattle.ttp_world.specs.Script.{IsValidScript};
ghost use Rattle.campaign.specs.CostText.{test_words};
ghost use Rattle.clock_margins.specs.Sweeps.{with_drift};

use hypothesis::{has_arm, keeps, returns};
use line_form::Text;
use margin_text::{kept_words, owed_words};
use single_faults::copy_of;
use std::alloc::Global;
use ttp_base::{List, Memory};
use ttp_world::{Event, Events, Medl, Script};

/// What the test of a script says, as a campaign has it.
pub(crate) fn test_of(list: &Medl, script: &Script) -> Text<64>
    requires valid { IsValid list.now }
    requires script { IsValidScript list.now script.now }
    ensures { result ≡ test_words list.now script.now }
{
    if has_arm(script) {
        owed_words(returns(list, script))
    } else {
        kept_words(keeps(list, script))
    }
}

// A copy of events.
fn copies_of(alloc: Global, events: &[Event]) -> Result<List<Event>, Memory>
    ensures { IfOk result (λ all. all ≡ events.now) }
{
    let mut all = List::new(alloc);
    for event in events {
        all.push(copy_of(event))?;
    }
    Ok(all)
}

/// A copy of a script.
pub(crate) fn copy_of_script(alloc: Global, script: &Script) -> Result<Script, Memory>
    requires list { (list : Medl) × IsValidScript list script.now }
    ensures { IfOk result (λ copy. copy ≡ script.now) }
{
    let Ok(on) = Vec::from_slice(alloc, script.on.as_slice()) else {
        return Err(Memory);
    };
    let Ok(drift) = Vec::from_slice(alloc, script.drift.as_slice()) else {
        return Err(Memory);
    };
    let events = copies_of(alloc, script.events.as_slice())?;
    Ok(Script {
        slots: script.slots,
        on: List::from_vec(on),
        drift: List::from_vec(drift),
        events: Events::index(alloc, events)?,
    })
}

// Drifts in which one node's is replaced.
fn drift_set(drift: List<i64>, node: u8, value: &i64) -> List<i64>
    requires { node < length drift }
    ensures { result ≡ set drift node value.now }
{
    let mut drift = drift.into_vec();
    drift[usize::from(node)] = *value;
    List::from_vec(drift)
}

/// The script with another drift of one node. It takes no memory.
pub(crate) fn with_drift(script: Script, node: u8, value: &i64) -> Script
    requires { node < length script.drift }
    ensures { result ≡ with_drift script node value.now }
{
    let Script {
        slots,
        on,
        drift,
        events,
    } = script;
    Script {
        slots,
        on,
        drift: drift_set(drift, node, value),
        events,
    }
}

/// A valid script stays valid with another drift of one node.
pub(crate) fn drift_is_valid(list: &Medl, script: &Script)
    requires { IsValidScript list.now script.now }
    ensures { (node : ℕ) (value : ℤ) → node < length list.now.slots → IsWithinSpan DRIFT_LIMIT value
        → IsValidScript list.now (with_drift script.now node value) }
{}
