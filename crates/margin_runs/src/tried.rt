//! The runs of values, side by side.
ghost use Rattle.std.specs.Prelude.{◌≡◌, ◌≤◌, [], ℤ, map, All, Some, None, IfOk, OnOk};
ghost use Rattle.std.specs.Thread.{IsSync};
ghost use Rattle.ttp_world.specs.declared.script.TheConstants.{DRIFT_LIMIT, JUMP_LIMIT};
ghost use Rattle.ttp_world.specs.Events.{IsWithinSpan};
ghost use Rattle.ttp_world.specs.Medl.{IsValid};
ghost use Rattle.ttp_world.specs.Script.{IsValidScript};
ghost use Rattle.clock_margins.specs.Outcomes.{told_by_script, told_of_value};
ghost use Rattle.clock_margins.specs.Sweeps.{with_drift};
ghost use Rattle.margin_text.specs.Taken.{value_told};
ghost use Rattle.run_costs.specs.Standing.{IsRunOfList};
ghost use Rattle.margin_runs.specs.Tries.{IsBesideAfter, IsUnbegun, MayTrySweep, IsPastOfSweep, clock_limit, are_told};

use crate::beside::BesideRun;
use crate::scripts::{copy_of_script, drift_is_valid, test_of, with_drift};
use clock_margins::Sweep;
use margin_text::Told;
use run_costs::Run;
use single_faults::laws::more_is_valid;
use single_faults::with_fault;
use std::alloc::Global;
use std::thread::{Threads, join};
use ttp_base::Memory;
use ttp_world::{Event, Medl, Script};

/// What all sweeps read.
#[derive(Clone, Copy)]
pub(crate) struct SweepSetting<'a> {
    pub(crate) alloc: Global,
    pub(crate) list: &'a Medl,
    pub(crate) script: &'a Script,
    /// How far values go either way.
    pub(crate) reach: u32,
    /// In how many threads they are run.
    pub(crate) threads: usize,
}

// Runs the slots from one on, and tells of the run of a value, whose script this is.
fn try_script(
    alloc: Global,
    list: &Medl,
    more: &Script,
    value: &i64,
    first: u32,
    run: &mut BesideRun,
) -> Result<Told, Memory>
    requires valid { IsValid list.now }
    requires script { IsValidScript list.now more.now }
    requires first { first ≤ more.now.slots }
    requires run { IsBesideAfter run.old list.now more.now first }
    ensures told { IfOk result (λ told. value_told told ≡ told_by_script list.now more.now run.old.node value.now) }
    ensures run { OnOk result (IsRunOfList run.new.run.run list.now) }
    ensures node { OnOk result (run.new.node ≡ run.old.node) }
{
    for slot in first..more.slots {
        run.step(list, more, slot);
    }
    let outcome = run.outcome(alloc, list)?;
    Ok(Told {
        value: *value,
        test: test_of(list, more),
        outcome,
    })
}

// What is told of a drift, made in `run` by a script whose drift of the node is any other.
fn try_drift(
    common: &SweepSetting,
    sweep: Sweep,
    start: &Run,
    value: &i64,
    more: Script,
    run: &mut BesideRun,
) -> Result<(Told, Script), Memory>
    requires may { MayTrySweep common.now sweep }
    requires start { IsUnbegun start.now common.now.list.now }
    requires value { IsWithinSpan DRIFT_LIMIT value.now }
    requires more { (v : ℤ) × (more ≡ with_drift common.now.script.now sweep.node v) }
    requires own { IsRunOfList run.old.run.run common.now.list.now }
    requires node { run.old.node ≡ sweep.node }
    ensures told { IfOk result (λ told. value_told told.0
        ≡ told_by_script common.now.list.now (with_drift common.now.script.now sweep.node value.now)
        sweep.node value.now) }
    ensures more { IfOk result (λ told. told.1 ≡ with_drift common.now.script.now sweep.node value.now) }
    ensures run { OnOk result (IsRunOfList run.new.run.run common.now.list.now) }
    ensures node { OnOk result (run.new.node ≡ run.old.node) }
{
    drift_is_valid(common.list, common.script);
    let more = with_drift(more, sweep.node, value);
    run.begin(start, common.list, &more);
    let told = try_script(common.alloc, common.list, &more, value, 0, run)?;
    Ok((told, more))
}

// What is told of a jump, made in `run` by the script's own run before its slot.
fn try_jump(
    common: &SweepSetting,
    sweep: Sweep,
    past: &BesideRun,
    slot: u32,
    value: &i64,
    run: &mut BesideRun,
) -> Result<Told, Memory>
    requires may { MayTrySweep common.now sweep }
    requires past { IsPastOfSweep common.now sweep past.now }
    requires slot { sweep.slot ≡ Some slot }
    requires value { IsWithinSpan JUMP_LIMIT value.now }
    requires own { IsRunOfList run.old.run.run common.now.list.now }
    requires node { run.old.node ≡ sweep.node }
    ensures told { IfOk result (λ told. value_told told
        ≡ told_of_value common.now.list.now common.now.script.now sweep value.now) }
    ensures run { OnOk result (IsRunOfList run.new.run.run common.now.list.now) }
    ensures node { OnOk result (run.new.node ≡ run.old.node) }
{
    let (list, script) = (common.list, common.script);
    let node = sweep.node;
    let jump = Event::Jump {
        node,
        value: *value,
        slot,
    };
    more_is_valid(list, script, &jump);
    let more = with_fault(common.alloc, script, &jump)?;
    run.go_on_from(past, list, &more, &jump);
    try_script(common.alloc, list, &more, value, slot, run)
}

// Adds what is told of some drifts, one after another.
fn add_drifts(
    common: &SweepSetting,
    sweep: Sweep,
    start: &Run,
    values: &[i64],
    run: &mut BesideRun,
    all: &mut Vec<Told>,
) -> Result<(), Memory>
    requires may { MayTrySweep common.now sweep }
    requires start { IsUnbegun start.now common.now.list.now }
    requires drift { sweep.slot ≡ None }
    requires values { All (IsWithinSpan (clock_limit sweep.slot)) values.now }
    requires own { IsRunOfList run.old.run.run common.now.list.now }
    requires node { run.old.node ≡ sweep.node }
    requires none { all.old.items ≡ [] }
    ensures { OnOk result (are_told all.new.items
        ≡ map (told_of_value common.now.list.now common.now.script.now sweep) values.now) }
{
    let copy = copy_of_script(common.alloc, common.script)?;
    let mut more = with_drift(copy, sweep.node, &0);
    for value in values {
        let both = try_drift(common, sweep, start, value, more, run)?;
        let (told, next) = both;
        more = next;
        all.push(told)?;
    }
    Ok(())
}

// Tells of the runs of some jumps, each from its slot on.
fn add_jumps(
    common: &SweepSetting,
    sweep: Sweep,
    past: &BesideRun,
    slot: u32,
    values: &[i64],
    run: &mut BesideRun,
    all: &mut Vec<Told>,
) -> Result<(), Memory>
    requires may { MayTrySweep common.now sweep }
    requires past { IsPastOfSweep common.now sweep past.now }
    requires slot { sweep.slot ≡ Some slot }
    requires values { All (IsWithinSpan (clock_limit sweep.slot)) values.now }
    requires own { IsRunOfList run.old.run.run common.now.list.now }
    requires node { run.old.node ≡ sweep.node }
    requires none { all.old.items ≡ [] }
    ensures { OnOk result (are_told all.new.items
        ≡ map (told_of_value common.now.list.now common.now.script.now sweep) values.now) }
{
    for value in values {
        all.push(try_jump(common, sweep, past, slot, value, run)?)?;
    }
    Ok(())
}

// What is told of some values, one after another.
fn try_each(
    common: &SweepSetting,
    sweep: Sweep,
    past: &BesideRun,
    values: &[i64],
) -> Result<Vec<Told>, Memory>
    requires may { MayTrySweep common.now sweep }
    requires past { IsPastOfSweep common.now sweep past.now }
    requires values { All (IsWithinSpan (clock_limit sweep.slot)) values.now }
    ensures { IfOk result (λ all. are_told all.items
        ≡ map (told_of_value common.now.list.now common.now.script.now sweep) values.now) }
{
    let mut all = Vec::new(common.alloc);
    let mut run = BesideRun::new(common.alloc, common.list, common.script, sweep.node)?;
    match sweep.slot {
        Some(slot) => add_jumps(common, sweep, past, slot, values, &mut run, &mut all)?,
        None => {
            let start = Run::new(common.alloc, common.list)?;
            add_drifts(common, sweep, &start, values, &mut run, &mut all)?
        }
    }
    Ok(all)
}

/// What is told of some values, in their order; of jumps by the script's own run before their slot. They are halved until there
/// is a part for each of so many threads, and each part is run in a thread of its own, or in this one where the system gives none.
#[cycle(halves)]
#[tactic(auto, using(crate::proofs::ToldParts::halves_told))]
pub(crate) fn try_beside<R: Threads + Sync>(
    rt: &R,
    common: &SweepSetting,
    sweep: Sweep,
    past: &BesideRun,
    values: &[i64],
    threads: usize,
) -> Result<Vec<Told>, Memory>
    requires may { MayTrySweep common.now sweep }
    requires past { IsPastOfSweep common.now sweep past.now }
    requires values { All (IsWithinSpan (clock_limit sweep.slot)) values.now }
    ensures { IfOk result (λ all. are_told all.items
        ≡ map (told_of_value common.now.list.now common.now.script.now sweep) values.now) }
{
    if threads < 2 || values.len() < 2 {
        return try_each(common, sweep, past, values);
    }
    let (front, back) = values.split_at(values.len() / 2);
    let half = threads - threads / 2;
    let try_front = || -> Result<Vec<Told>, Memory>
        requires { IsSync R.row × MayTrySweep common.now sweep × IsPastOfSweep common.now sweep past.now
            × All (IsWithinSpan (clock_limit sweep.slot)) front.now }
        ensures { IfOk result (λ all. are_told all.items ≡ map (told_of_value common.entry.now.list.now
            common.entry.now.script.now sweep) front.entry.now) }
    { try_beside(rt, common, sweep, past, front, half) };
    let try_back = || -> Result<Vec<Told>, Memory>
        requires { IsSync R.row × MayTrySweep common.now sweep × IsPastOfSweep common.now sweep past.now
            × All (IsWithinSpan (clock_limit sweep.slot)) back.now }
        ensures { IfOk result (λ all. are_told all.items ≡ map (told_of_value common.entry.now.list.now
            common.entry.now.script.now sweep) back.entry.now) }
    { try_beside(rt, common, sweep, past, back, half) };
    let (first, second) = join(rt, try_front, try_back);
    let mut all = first?;
    let mut rest = second?;
    all.append(&mut rest)?;
    Ok(all)
}
