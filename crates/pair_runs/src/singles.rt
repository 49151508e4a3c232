//! What single faults cost, kept for the slots that pairs reach to.
ghost use Rattle.std.specs.Prelude.{◌≡◌, ◌<◌, true, length, All, IfSome, IfOk, OnOk};
ghost use Rattle.ttp_world.specs.declared.medl.Medl.{Medl};
ghost use Rattle.ttp_world.specs.declared.script.Script.{Script};
ghost use Rattle.ttp_world.specs.declared.script.TheConstants.{EVENT_LIMIT};
ghost use Rattle.ttp_world.specs.Medl.{IsValid};
ghost use Rattle.ttp_world.specs.Script.{IsValidScript};
ghost use Rattle.campaign.specs.Lines.{summary_with};
ghost use Rattle.single_faults.specs.Tried.{MayStand};
ghost use Rattle.run_costs.specs.Standing.{IsRunOfList};
ghost use Rattle.fault_pairs.specs.Classes.{harm_of};
ghost use Rattle.pair_runs.specs.Tries.{IsSingle, IsPastRun};

use crate::harm::harm_of;
use fault_pairs::Harm;
use run_costs::{SeenRun, cost_from, cost_of};
use single_faults::laws::more_is_valid;
use single_faults::{copy_of, with_fault};
use std::alloc::Global;
use ttp_base::Memory;
use ttp_world::{Channels, Event, Fault, Medl, Script};

/// A fault that is alone in a script, and what it costs.
#[derive(Drop)]
pub(crate) struct Single {
    fault: Event,
    harm: Harm,
}

/// Those of a slot.
#[derive(Drop)]
pub(crate) struct Singles {
    pub(crate) all: Vec<Single>,
}

/// What the run of a script with one event more does, by a run of the script without it.
pub(crate) fn harm_with(
    alloc: Global,
    list: &Medl,
    script: &Script,
    fault: &Event,
    past: &SeenRun,
    run: &mut SeenRun,
) -> Result<Harm, Memory>
    requires valid { IsValid list.now }
    requires script { IsValidScript list.now script.now }
    requires room { length script.now.events < EVENT_LIMIT }
    requires fault { MayStand list.now script.now fault.now }
    requires past { IsPastRun list.now script.now past.now }
    requires run { IsRunOfList run.old.run list.now }
    ensures harm { IfOk result (λ harm. harm ≡ harm_of (summary_with list.now script.now fault.now).cost) }
    ensures run { OnOk result (IsRunOfList run.new.run list.now) }
{
    more_is_valid(list, script, fault);
    let more = with_fault(alloc, script, fault)?;
    let cost = cost_from(alloc, list, script, fault, &more, past, run)?;
    Ok(harm_of(&cost))
}

/// What a fault alone costs, run from the script's first slot on.
pub(crate) fn harm_alone(
    alloc: Global,
    list: &Medl,
    script: &Script,
    fault: &Event,
) -> Result<Harm, Memory>
    requires valid { IsValid list.now }
    requires script { IsValidScript list.now script.now }
    requires room { length script.now.events < EVENT_LIMIT }
    requires fault { MayStand list.now script.now fault.now }
    ensures { IfOk result (λ harm. harm ≡ harm_of (summary_with list.now script.now fault.now).cost) }
{
    more_is_valid(list, script, fault);
    let more = with_fault(alloc, script, fault)?;
    let cost = cost_of(alloc, list, &more)?;
    Ok(harm_of(&cost))
}

// Adds those of some faults.
fn add_singles(
    alloc: Global,
    list: &Medl,
    script: &Script,
    faults: &[Event],
    past: &SeenRun,
    run: &mut SeenRun,
    all: &mut Vec<Single>,
) -> Result<(), Memory>
    requires valid { IsValid list.now }
    requires script { IsValidScript list.now script.now }
    requires room { length script.now.events < EVENT_LIMIT }
    requires faults { All (MayStand list.now script.now) faults.now }
    requires past { IsPastRun list.now script.now past.now }
    requires run { IsRunOfList run.old.run list.now }
    requires all { All (IsSingle list.now script.now) all.old.items }
    ensures all { OnOk result (All (IsSingle list.now script.now) all.new.items) }
    ensures run { OnOk result (IsRunOfList run.new.run list.now) }
{
    for fault in faults {
        let harm = harm_with(alloc, list, script, fault, past, run)?;
        let single = Single {
            fault: copy_of(fault),
            harm,
        };
        all.push(single)?;
    }
    Ok(())
}

impl Singles {
    /// Of no slot.
    pub(crate) fn none(alloc: Global) -> Singles
        ensures { (list : Medl) (script : Script) → All (IsSingle list script) result.all.items }
    {
        Singles {
            all: Vec::new(alloc),
        }
    }

    /// All of them.
    pub(crate) fn kept(&self) -> &[Single]
        ensures { result.now ≡ self.now.all.items }
    {
        self.all.as_slice()
    }

    /// Those of some faults that may stand in a script, by its run as far as it has come. Each is run once, in `run`.
    pub(crate) fn of(
        alloc: Global,
        list: &Medl,
        script: &Script,
        faults: &[Event],
        past: &SeenRun,
        run: &mut SeenRun,
    ) -> Result<Singles, Memory>
        requires valid { IsValid list.now }
        requires script { IsValidScript list.now script.now }
        requires room { length script.now.events < EVENT_LIMIT }
        requires faults { All (MayStand list.now script.now) faults.now }
        requires past { IsPastRun list.now script.now past.now }
        requires run { IsRunOfList run.old.run list.now }
        ensures all { IfOk result (λ singles. All (IsSingle list.now script.now) singles.all.items) }
        ensures run { OnOk result (IsRunOfList run.new.run list.now) }
    {
        let mut all = Vec::new(alloc);
        add_singles(alloc, list, script, faults, past, run, &mut all)?;
        Ok(Singles { all })
    }
}

// Whether two losses are the same, but for their node.
fn is_same_loss(
    one: Channels,
    other: Channels,
    fault: Fault,
    another: Fault,
    slots: (u32, u32),
    others: (u32, u32),
) -> bool
    ensures { result ≡ true → (one ≡ other) × (fault ≡ another) × (slots ≡ others) }
{
    one == other && fault == another && slots == others
}

// Whether a fault is this one.
fn is_same_fault(one: &Event, other: &Event) -> bool
    ensures { result ≡ true → one.now ≡ other.now }
{
    match (one, other) {
        (
            Event::Send {
                node,
                channels,
                fault,
                from,
                to,
            },
            Event::Send {
                node: k,
                channels: c,
                fault: f,
                from: s,
                to: t,
            },
        ) => *node == *k && is_same_loss(*channels, *c, *fault, *f, (*from, *to), (*s, *t)),
        (
            Event::Receive {
                node,
                channels,
                fault,
                from,
                to,
            },
            Event::Receive {
                node: k,
                channels: c,
                fault: f,
                from: s,
                to: t,
            },
        ) => *node == *k && is_same_loss(*channels, *c, *fault, *f, (*from, *to), (*s, *t)),
        (
            Event::Jump { node, value, slot },
            Event::Jump {
                node: k,
                value: v,
                slot: s,
            },
        ) => *node == *k && *value == *v && *slot == *s,
        _ => false,
    }
}

/// What a fault costs alone, if it is one of these.
pub(crate) fn find(singles: &[Single], fault: &Event) -> Option<Harm>
    ensures { (list : Medl) (script : Script) → All (IsSingle list script) singles.now
        → IfSome result (λ harm. harm ≡ harm_of (summary_with list script fault.now).cost) }
{
    for single in singles {
        if is_same_fault(&single.fault, fault) {
            return Some(single.harm);
        }
    }
    None
}
