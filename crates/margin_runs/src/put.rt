//! Margins, written.
ghost use Rattle.std.specs.Prelude.{◌≡◌, ◌+◌, ◌*◌, ◌^◌, ◌<◌, ◌≤◌, nat_le, ◌&&◌, [], ◌∷◌, ◌++◌, ℕ, pos, neg_ℤ, ◌+ℤ◌, List, length, IfOk, IfErr, OnOk};
ghost use Rattle.std.specs.List.{cons_option};
ghost use Rattle.ttp_base.specs.NodeSet.{most_nodes};
ghost use Rattle.ttp_base.specs.Outside.{Output, WroteLines};
ghost use Rattle.ttp_world.specs.declared.script.TheConstants.{EVENT_LIMIT, DRIFT_LIMIT, JUMP_LIMIT};
ghost use Rattle.ttp_world.specs.Medl.{IsValid};
ghost use Rattle.ttp_world.specs.Script.{IsValidScript, is_ever_on};
ghost use Rattle.ttp_world.specs.ZerosWorld.{zeros_world};
ghost use Rattle.clock_margins.specs.declared.margin.Sweep.{Sweep};
ghost use Rattle.clock_margins.specs.MarginText.{tolds_of, margin_lines};
ghost use Rattle.clock_margins.specs.Outcomes.{ValueTold};
ghost use Rattle.clock_margins.specs.Ranges.{ranges_of};
ghost use Rattle.clock_margins.specs.Sweeps.{reach, value_limit, values_from};
ghost use Rattle.fault_runs.specs.Ends.{LeftBy, LeftFewerBy};
ghost use Rattle.margin_laws.specs.Behind.{open_range};
ghost use Rattle.margin_text.specs.Taken.{value_told, IsSweptOf, HasFew, AreCountsUpTo, IsFewOf};
ghost use Rattle.run_costs.specs.States.{AreShown, state_at};
ghost use Rattle.run_costs.specs.Standing.{IsRunAfter};
ghost use Rattle.margin_runs.specs.Tries.{IsBesideAfter, MayTrySweep, IsPastOfSweep, are_told, range_lines};
ghost use Rattle.margin_runs.specs.Written.{AreWritable, IsPutOf, closed_lines, tolds_so_far, most_values, most_in_sweep, most_in_slot};
ghost use Rattle.margin_runs.specs.Written.{AreSwept, MayPut, lines_of_sweep, margin_of_sweep, lines_swept, drifts_of, all_drifts};
ghost use Rattle.margin_runs.specs.Written.{jump_sweeps_of, jumps_in, jumps_asked, all_jumps, all_sweeps, lines_in_front};

use crate::beside::BesideRun;
use crate::tried::{SweepSetting, try_beside};
use campaign::Span;
use clock_margins::{Margin, Sweep, Total};
use fault_runs::{CampaignFault, put_own_line};
use hypothesis::four_windows;
use line_form::Text;
use margin_text::{
    ROOM, Swept, Told, form_all, form_head, form_margin, form_range, no_sweeps, with_margin,
};
use run_costs::Run;
use single_faults::is_timed;
use std::alloc::Global;
use std::thread::Threads;
use ttp_base::{Memory, Sink};
use ttp_world::{DRIFT_LIMIT, Entry, JUMP_LIMIT, Medl, NodeState, Script};

// How many values are tried side by side, at most.
const AT_ONCE: u32 = 512;

// Writes a line.
fn put_line<K: Sink>(line: &Text<ROOM>, out: &mut K) -> Result<(), CampaignFault>
    ensures ok { OnOk result (WroteLines (K.output out.old) (K.output out.new) (line.now ∷ [])) }
    ensures err { IfErr result (λ why. LeftFewerBy why (K.output out.old) (K.output out.new) (line.now ∷ [])) }
{
    match out.write(line.bytes()) {
        Ok(()) => Ok(()),
        Err(_) => Err(CampaignFault::Failed),
    }
}

// The most that a line of a script says of a drift, or of a jump where slots are asked for.
fn limit_for(asked: Option<Span>) -> u32
    ensures value { result ≡ value_limit asked }
    ensures few { result ≤ 1000000 }
{
    match asked {
        None => DRIFT_LIMIT,
        Some(_) => JUMP_LIMIT,
    }
}

// How far values go either way.
fn reach_of(list: &Medl, asked: Option<Span>) -> u32
    requires valid { IsValid list.now }
    ensures reach { result ≡ reach list.now asked }
    ensures few { result ≤ value_limit asked }
{
    let far = four_windows(list).unsigned_abs();
    let limit = limit_for(asked);
    far.min(u64::from(limit)) as u32
}

// Takes the next value. Where a range ends before it, its line is written.
fn put_told<K: Sink>(
    list: &Medl,
    sweep: Sweep,
    told: Told,
    line: &mut Text<ROOM>,
    swept: &mut Swept,
    out: &mut K,
) -> Result<(), CampaignFault>
    requires valid { IsValid list.now }
    requires few { HasFew (2 ^ 62) swept.old }
    requires node { sweep.node < most_nodes }
    requires swept { (tolds : List ValueTold) × IsSweptOf tolds swept.old × AreWritable (tolds ++ value_told told ∷ []) }
    ensures ok { (start : Output) (tolds : List ValueTold)
        → IsPutOf start (K.output out.old) list.now sweep tolds swept.old
        → OnOk result (IsPutOf start (K.output out.new) list.now sweep (tolds ++ value_told told ∷ []) swept.new) }
    ensures err { (start : Output) (tolds : List ValueTold)
        → IsPutOf start (K.output out.old) list.now sweep tolds swept.old
        → IfErr result (λ why. LeftBy why start (K.output out.new)
        (closed_lines list.now sweep (tolds ++ value_told told ∷ []))) }
{
    match swept.take(told) {
        Some(range) => {
            form_range(line, list, sweep, &range);
            put_line(line, out)
        }
        None => Ok(()),
    }
}

// Notes some values of a sweep, and writes the line of each range that they end.
fn put_tolds<K: Sink>(
    list: &Medl,
    sweep: Sweep,
    all: Vec<Told>,
    line: &mut Text<ROOM>,
    swept: &mut Swept,
    out: &mut K,
) -> Result<(), CampaignFault>
    requires valid { IsValid list.now }
    requires put { (start : Output) × (tolds : List ValueTold)
        × IsPutOf start (K.output out.old) list.now sweep tolds swept.old
        × AreWritable (tolds ++ are_told all.items) × (length (tolds ++ are_told all.items) ≤ 2 ^ 62) }
    ensures ok { (start : Output) (tolds : List ValueTold)
        → IsPutOf start (K.output out.old) list.now sweep tolds swept.old
        → OnOk result (IsPutOf start (K.output out.new) list.now sweep (tolds ++ are_told all.items) swept.new) }
    ensures err { (start : Output) (tolds : List ValueTold)
        → IsPutOf start (K.output out.old) list.now sweep tolds swept.old
        → IfErr result (λ why. LeftBy why start (K.output out.new)
        (closed_lines list.now sweep (tolds ++ are_told all.items))) }
{
    for told in all {
        if let Err(why) = put_told(list, sweep, told, line, swept, out) {
            return Err(why);
        }
    }
    Ok(())
}

// The value at a place, counted from the least one on.
fn value_at(reach: u32, place: u32) -> i64
    ensures { result ≡ neg_ℤ (pos reach) +ℤ pos place }
{
    i64::from(place) - i64::from(reach)
}

// The next values of a sweep, behind those that are done.
fn some_values(alloc: Global, reach: u32, done: u32, some: u32) -> Result<Vec<i64>, Memory>
    requires reach { reach ≤ 1000000 }
    requires count { done + some ≤ 2 * reach + 1 }
    ensures { IfOk result (λ values. values.items ≡ values_from (neg_ℤ (pos reach) +ℤ pos done) some) }
{
    let mut values = Vec::new(alloc);
    for place in 0..some {
        values.push(value_at(reach, done + place))?;
    }
    Ok(values)
}

// Runs so many values more, and takes them.
fn put_values<R: Threads + Sync, K: Sink>(
    rt: &R,
    common: &SweepSetting,
    sweep: Sweep,
    past: &BesideRun,
    done: u32,
    some: u32,
    line: &mut Text<ROOM>,
    swept: &mut Swept,
    out: &mut K,
) -> Result<(), CampaignFault>
    requires may { MayTrySweep common.now sweep }
    requires past { IsPastOfSweep common.now sweep past.now }
    requires count { done + some ≤ 2 * common.now.reach + 1 }
    requires put { (start : Output) × IsPutOf start (K.output out.old) common.now.list.now sweep
        (tolds_so_far common.now sweep done) swept.old }
    ensures ok { (start : Output) → IsPutOf start (K.output out.old) common.now.list.now sweep
        (tolds_so_far common.now sweep done) swept.old
        → OnOk result (IsPutOf start (K.output out.new) common.now.list.now sweep
        (tolds_so_far common.now sweep (done + some)) swept.new) }
    ensures err { (start : Output) → IsPutOf start (K.output out.old) common.now.list.now sweep
        (tolds_so_far common.now sweep done) swept.old
        → IfErr result (λ why. LeftBy why start (K.output out.new) (closed_lines common.now.list.now sweep
        (tolds_so_far common.now sweep (done + some)))) }
{
    let Ok(values) = some_values(common.alloc, common.reach, done, some) else {
        return Err(CampaignFault::Memory);
    };
    let values = values.as_slice();
    let Ok(all) = try_beside(rt, common, sweep, past, values, common.threads) else {
        return Err(CampaignFault::Memory);
    };
    put_tolds(common.list, sweep, all, line, swept, out)
}

// Runs all values of a sweep, and writes the lines of all ranges but the last.
fn put_ranges<R: Threads + Sync, K: Sink>(
    rt: &R,
    common: &SweepSetting,
    sweep: Sweep,
    past: &BesideRun,
    line: &mut Text<ROOM>,
    swept: &mut Swept,
    out: &mut K,
) -> Result<(), CampaignFault>
    requires may { MayTrySweep common.now sweep }
    requires past { IsPastOfSweep common.now sweep past.now }
    requires put { (start : Output) × IsPutOf start (K.output out.old) common.now.list.now sweep [] swept.old }
    ensures ok { (start : Output) → IsPutOf start (K.output out.old) common.now.list.now sweep [] swept.old
        → OnOk result (IsPutOf start (K.output out.new) common.now.list.now sweep
        (tolds_of common.now.list.now common.now.script.now common.now.reach sweep) swept.new) }
    ensures err { (start : Output) → IsPutOf start (K.output out.old) common.now.list.now sweep [] swept.old
        → IfErr result (λ why. LeftBy why start (K.output out.new) (lines_of_sweep common.now sweep)) }
{
    let count = 2 * common.reach + 1;
    let mut done = 0;
    while done < count {
        let some = AT_ONCE.min(count - done);
        if let Err(why) = put_values(rt, common, sweep, past, done, some, line, swept, out) {
            return Err(why);
        }
        done += some;
    }
    Ok(())
}

// The line of the last range.
fn put_last<K: Sink>(
    list: &Medl,
    sweep: Sweep,
    line: &mut Text<ROOM>,
    swept: &Swept,
    out: &mut K,
) -> Result<(), CampaignFault>
    requires valid { IsValid list.now }
    requires swept { (tolds : List ValueTold) × IsSweptOf tolds swept.now × AreWritable tolds }
    requires node { sweep.node < most_nodes }
    ensures ok { (tolds : List ValueTold) → IsSweptOf tolds swept.now
        → OnOk result (WroteLines (K.output out.old) (K.output out.new)
        (range_lines list.now sweep (cons_option (open_range (ranges_of tolds)) []))) }
    ensures err { (tolds : List ValueTold) → IsSweptOf tolds swept.now
        → IfErr result (λ why. LeftBy why (K.output out.old) (K.output out.new)
        (range_lines list.now sweep (cons_option (open_range (ranges_of tolds)) []))) }
{
    match swept.last() {
        Some(range) => {
            form_range(line, list, sweep, range);
            put_line(line, out)
        }
        None => Ok(()),
    }
}

// The lines of a sweep. Returns what it comes to.
fn put_sweep<R: Threads + Sync, K: Sink>(
    rt: &R,
    common: &SweepSetting,
    sweep: Sweep,
    past: &BesideRun,
    line: &mut Text<ROOM>,
    out: &mut K,
) -> Result<Margin, CampaignFault>
    requires may { MayTrySweep common.now sweep }
    requires past { IsPastOfSweep common.now sweep past.now }
    ensures margin { IfOk result (λ margin. margin ≡ margin_of_sweep common.now sweep) }
    ensures few { IfOk result (λ margin. AreCountsUpTo most_values margin.counts) }
    ensures ok { OnOk result (WroteLines (K.output out.old) (K.output out.new) (lines_of_sweep common.now sweep)) }
    ensures err { IfErr result (λ why.
        LeftBy why (K.output out.old) (K.output out.new) (lines_of_sweep common.now sweep)) }
{
    let mut swept = Swept::new(sweep.node);
    if let Err(why) = put_ranges(rt, common, sweep, past, line, &mut swept, out) {
        return Err(why);
    }
    if let Err(why) = put_last(common.list, sweep, line, &swept, out) {
        return Err(why);
    }
    let margin = swept.margin(common.reach);
    form_margin(line, sweep, &margin);
    if let Err(why) = put_line(line, out) {
        return Err(why);
    }
    Ok(margin)
}

// Writes the lines of a sweep, and counts its margin.
fn put_counted<R: Threads + Sync, K: Sink>(
    rt: &R,
    common: &SweepSetting,
    sweep: Sweep,
    past: &BesideRun,
    line: &mut Text<ROOM>,
    total: &mut Total,
    out: &mut K,
) -> Result<(), CampaignFault>
    requires may { MayTrySweep common.now sweep }
    requires past { IsPastOfSweep common.now sweep past.now }
    requires few { IsFewOf (2 ^ 61) total.old }
    ensures few { (most : ℕ) → IsFewOf most total.old → OnOk result (IsFewOf (most + most_in_sweep) total.new) }
    ensures ok { (start : Output) (swept : List Sweep)
        → AreSwept start (K.output out.old) common.now swept total.old
        → OnOk result (AreSwept start (K.output out.new) common.now (swept ++ sweep ∷ []) total.new) }
    ensures err { (start : Output) (swept : List Sweep)
        → AreSwept start (K.output out.old) common.now swept total.old
        → IfErr result (λ why. LeftBy why start (K.output out.new)
        (lines_swept common.now (swept ++ sweep ∷ []))) }
{
    match put_sweep(rt, common, sweep, past, line, out) {
        Ok(margin) => {
            *total = with_margin(total, &margin);
            Ok(())
        }
        Err(why) => Err(why),
    }
}

// Whether a node is ever on.
fn is_ever_on(script: &Script, node: u8) -> bool
    requires node { node < length script.now.on }
    ensures { result ≡ is_ever_on script.now node }
{
    script.on.get(usize::from(node)).is_some()
}

// The drift of a node, if it is ever on.
fn put_drift<R: Threads + Sync, K: Sink>(
    rt: &R,
    common: &SweepSetting,
    node: u8,
    line: &mut Text<ROOM>,
    total: &mut Total,
    out: &mut K,
) -> Result<(), CampaignFault>
    requires may { MayPut common.now }
    requires node { node < length common.now.list.now.slots }
    requires reach { common.now.reach ≤ DRIFT_LIMIT }
    requires few { IsFewOf (2 ^ 61) total.old }
    ensures few { (most : ℕ) → IsFewOf most total.old → OnOk result (IsFewOf (most + most_in_sweep) total.new) }
    ensures ok { (begin : Output) (swept : List Sweep)
        → AreSwept begin (K.output out.old) common.now swept total.old
        → OnOk result (AreSwept begin (K.output out.new) common.now
        (swept ++ drifts_of common.now.script.now node) total.new) }
    ensures err { (begin : Output) (swept : List Sweep)
        → AreSwept begin (K.output out.old) common.now swept total.old
        → IfErr result (λ why. LeftBy why begin (K.output out.new)
        (lines_swept common.now (swept ++ drifts_of common.now.script.now node))) }
{
    if !is_ever_on(common.script, node) {
        return Ok(());
    }
    let Ok(past) = BesideRun::new(common.alloc, common.list, common.script, node) else {
        return Err(CampaignFault::Memory);
    };
    let sweep = Sweep { node, slot: None };
    put_counted(rt, common, sweep, &past, line, total, out)
}

// The drifts of all nodes.
fn put_drifts<R: Threads + Sync, K: Sink>(
    rt: &R,
    common: &SweepSetting,
    line: &mut Text<ROOM>,
    total: &mut Total,
    out: &mut K,
) -> Result<(), CampaignFault>
    requires may { MayPut common.now }
    requires reach { common.now.reach ≤ DRIFT_LIMIT }
    requires few { IsFewOf 0 total.old }
    ensures ok { (begin : Output) → AreSwept begin (K.output out.old) common.now [] total.old
        → OnOk result (AreSwept begin (K.output out.new) common.now
        (all_drifts common.now.list.now common.now.script.now) total.new) }
    ensures err { (begin : Output) → AreSwept begin (K.output out.old) common.now [] total.old
        → IfErr result (λ why. LeftBy why begin (K.output out.new)
        (lines_swept common.now (all_drifts common.now.list.now common.now.script.now))) }
{
    for node in 0..common.list.nodes() {
        if let Err(why) = put_drift(rt, common, node, line, total, out) {
            return Err(why);
        }
    }
    Ok(())
}

// The script's own run before a slot, where a node counts as faulty besides.
fn past_of(common: &SweepSetting, node: u8, slot: u32) -> Result<BesideRun, Memory>
    requires may { MayPut common.now }
    requires node { node < length common.now.list.now.slots }
    requires slot { slot < common.now.script.now.slots }
    ensures run { IfOk result (λ run. IsBesideAfter run common.now.list.now common.now.script.now slot) }
    ensures node { IfOk result (λ run. run.node ≡ node) }
{
    let (list, script) = (common.list, common.script);
    let mut past = BesideRun::new(common.alloc, list, script, node)?;
    for before in 0..slot {
        past.step(list, script, before);
    }
    Ok(past)
}

// The jump of a node in a slot, by what it did there.
fn put_jump<R: Threads + Sync, K: Sink>(
    rt: &R,
    common: &SweepSetting,
    slot: u32,
    node: u8,
    entry: &Entry,
    line: &mut Text<ROOM>,
    total: &mut Total,
    out: &mut K,
) -> Result<(), CampaignFault>
    requires may { MayPut common.now }
    requires node { node < length common.now.list.now.slots }
    requires slot { slot < common.now.script.now.slots }
    requires reach { common.now.reach ≤ JUMP_LIMIT }
    requires few { IsFewOf (2 ^ 61) total.old }
    ensures few { (most : ℕ) → IsFewOf most total.old → OnOk result (IsFewOf (most + most_in_sweep) total.new) }
    ensures ok { (begin : Output) (swept : List Sweep)
        → AreSwept begin (K.output out.old) common.now swept total.old
        → OnOk result (AreSwept begin (K.output out.new) common.now
        (swept ++ jump_sweeps_of slot node entry.now) total.new) }
    ensures err { (begin : Output) (swept : List Sweep)
        → AreSwept begin (K.output out.old) common.now swept total.old
        → IfErr result (λ why. LeftBy why begin (K.output out.new)
        (lines_swept common.now (swept ++ jump_sweeps_of slot node entry.now))) }
{
    if !is_timed(entry) {
        return Ok(());
    }
    let Ok(past) = past_of(common, node, slot) else {
        return Err(CampaignFault::Memory);
    };
    let sweep = Sweep {
        node,
        slot: Some(slot),
    };
    put_counted(rt, common, sweep, &past, line, total, out)
}

// What a node did, by what is shown of it.
fn entry_in(states: &[NodeState], node: u8) -> &Entry
    requires { node < length states.now }
    ensures { result.now ≡ (state_at states.now node).entry }
{
    &states[usize::from(node)].entry
}

// The jumps of all nodes in a slot, by what is shown of them after it.
fn put_slot<R: Threads + Sync, K: Sink>(
    rt: &R,
    common: &SweepSetting,
    slot: u32,
    states: &[NodeState],
    line: &mut Text<ROOM>,
    total: &mut Total,
    out: &mut K,
) -> Result<(), CampaignFault>
    requires may { MayPut common.now }
    requires slot { slot < common.now.script.now.slots }
    requires shown { AreShown common.now.list.now common.now.script.now
        (zeros_world common.now.list.now common.now.script.now (slot + 1)) states.now }
    requires reach { common.now.reach ≤ JUMP_LIMIT }
    requires few { IsFewOf (most_in_slot * slot) total.old }
    ensures few { OnOk result (IsFewOf (most_in_slot * (slot + 1)) total.new) }
    ensures ok { (begin : Output) (swept : List Sweep)
        → AreSwept begin (K.output out.old) common.now swept total.old
        → OnOk result (AreSwept begin (K.output out.new) common.now
        (swept ++ jumps_in common.now.list.now common.now.script.now slot) total.new) }
    ensures err { (begin : Output) (swept : List Sweep)
        → AreSwept begin (K.output out.old) common.now swept total.old
        → IfErr result (λ why. LeftBy why begin (K.output out.new)
        (lines_swept common.now (swept ++ jumps_in common.now.list.now common.now.script.now slot))) }
{
    for node in 0..common.list.nodes() {
        let entry = entry_in(states, node);
        if let Err(why) = put_jump(rt, common, slot, node, entry, line, total, out) {
            return Err(why);
        }
    }
    Ok(())
}

// Whether a slot is in the range.
fn is_in_range(asked: Span, slot: u32) -> bool
    ensures { result ≡ (nat_le asked.first slot && nat_le slot asked.last) }
{
    asked.first <= slot && slot <= asked.last
}

// The next slot of the script's own run, and the jumps in it, if it is in the range.
fn put_asked<R: Threads + Sync, K: Sink>(
    rt: &R,
    common: &SweepSetting,
    asked: Span,
    own: &mut Run,
    slot: u32,
    line: &mut Text<ROOM>,
    total: &mut Total,
    out: &mut K,
) -> Result<(), CampaignFault>
    requires may { MayPut common.now }
    requires slot { slot < common.now.script.now.slots }
    requires own { IsRunAfter own.old common.now.list.now common.now.script.now slot }
    requires reach { common.now.reach ≤ JUMP_LIMIT }
    requires few { IsFewOf (most_in_slot * slot) total.old }
    ensures own { IsRunAfter own.new common.now.list.now common.now.script.now (slot + 1) }
    ensures few { OnOk result (IsFewOf (most_in_slot * (slot + 1)) total.new) }
    ensures ok { (begin : Output) (swept : List Sweep)
        → AreSwept begin (K.output out.old) common.now swept total.old
        → OnOk result (AreSwept begin (K.output out.new) common.now
        (swept ++ jumps_asked common.now.list.now common.now.script.now asked slot) total.new) }
    ensures err { (begin : Output) (swept : List Sweep)
        → AreSwept begin (K.output out.old) common.now swept total.old
        → IfErr result (λ why. LeftBy why begin (K.output out.new)
        (lines_swept common.now (swept ++ jumps_asked common.now.list.now common.now.script.now asked slot))) }
{
    own.step(common.list, common.script, slot);
    if !is_in_range(asked, slot) {
        return Ok(());
    }
    let states = own.states(common.list);
    put_slot(rt, common, slot, states, line, total, out)
}

// The jumps in all slots of a range.
fn put_slots<R: Threads + Sync, K: Sink>(
    rt: &R,
    common: &SweepSetting,
    asked: Span,
    own: &mut Run,
    line: &mut Text<ROOM>,
    total: &mut Total,
    out: &mut K,
) -> Result<(), CampaignFault>
    requires may { MayPut common.now }
    requires own { IsRunAfter own.old common.now.list.now common.now.script.now 0 }
    requires reach { common.now.reach ≤ JUMP_LIMIT }
    requires few { IsFewOf 0 total.old }
    ensures ok { (begin : Output) → AreSwept begin (K.output out.old) common.now [] total.old
        → OnOk result (AreSwept begin (K.output out.new) common.now
        (all_jumps common.now.list.now common.now.script.now asked) total.new) }
    ensures err { (begin : Output) → AreSwept begin (K.output out.old) common.now [] total.old
        → IfErr result (λ why. LeftBy why begin (K.output out.new)
        (lines_swept common.now (all_jumps common.now.list.now common.now.script.now asked))) }
{
    for slot in 0..common.script.slots {
        if let Err(why) = put_asked(rt, common, asked, own, slot, line, total, out) {
            return Err(why);
        }
    }
    Ok(())
}

// All sweeps that are asked for.
fn put_sweeps<R: Threads + Sync, K: Sink>(
    rt: &R,
    common: &SweepSetting,
    asked: Option<Span>,
    line: &mut Text<ROOM>,
    total: &mut Total,
    out: &mut K,
) -> Result<(), CampaignFault>
    requires may { MayPut common.now }
    requires reach { common.now.reach ≤ value_limit asked }
    requires few { IsFewOf 0 total.old }
    ensures ok { (begin : Output) → AreSwept begin (K.output out.old) common.now [] total.old
        → OnOk result (AreSwept begin (K.output out.new) common.now
        (all_sweeps common.now.list.now common.now.script.now asked) total.new) }
    ensures err { (begin : Output) → AreSwept begin (K.output out.old) common.now [] total.old
        → IfErr result (λ why. LeftBy why begin (K.output out.new)
        (lines_swept common.now (all_sweeps common.now.list.now common.now.script.now asked))) }
{
    match asked {
        None => put_drifts(rt, common, line, total, out),
        Some(asked) => {
            let Ok(mut own) = Run::new(common.alloc, common.list) else {
                return Err(CampaignFault::Memory);
            };
            put_slots(rt, common, asked, &mut own, line, total, out)
        }
    }
}

// The first line and that of the script's own run.
fn put_front<K: Sink>(
    common: &SweepSetting,
    asked: Option<Span>,
    line: &mut Text<ROOM>,
    out: &mut K,
) -> Result<(), CampaignFault>
    requires may { MayPut common.now }
    requires reach { common.now.reach ≡ reach common.now.list.now asked }
    ensures ok { OnOk result (WroteLines (K.output out.old) (K.output out.new)
        (lines_in_front common.now.list.now common.now.script.now asked)) }
    ensures err { IfErr result (λ why. LeftFewerBy why (K.output out.old) (K.output out.new)
        (lines_in_front common.now.list.now common.now.script.now asked)) }
{
    form_head(line, common.list, common.script, asked, common.reach);
    if let Err(why) = put_line(line, out) {
        return Err(why);
    }
    put_own_line(common.alloc, common.list, common.script, out)
}

/// Writes the margins of a script over the drifts of all nodes, or over the jumps in the slots of a range, each line as one
/// piece. Slots that the script does not have are passed over.
///
/// A value of a drift runs the cluster once, and one of a jump from its slot on; the slots before are run once for each sweep.
/// The test of each script goes over all slots. 512 values are run side by side, in as many threads as are asked for, rounded up
/// to a power of two. What is written is the same. Between two lines it keeps the open range, the sums and the script's own run.
///
/// # Errors
///
/// `Failed` where the sink's count of faults rose: then the text is cut short. `Memory` where memory was refused: then some of
/// its first lines were written, and never all.
pub fn put_margins<R: Threads + Sync, K: Sink>(
    rt: &R,
    alloc: Global,
    list: &Medl,
    script: &Script,
    asked: Option<Span>,
    threads: usize,
    out: &mut K,
) -> Result<(), CampaignFault>
    requires valid { IsValid list.now }
    requires script { IsValidScript list.now script.now }
    requires room { length script.now.events < EVENT_LIMIT }
    ensures ok { OnOk result
        (WroteLines (K.output out.old) (K.output out.new) (margin_lines list.now script.now asked)) }
    ensures err { IfErr result (λ why. LeftFewerBy why (K.output out.old) (K.output out.new)
        (margin_lines list.now script.now asked)) }
{
    let reach = reach_of(list, asked);
    let common = SweepSetting {
        alloc,
        list,
        script,
        reach,
        threads,
    };
    let mut line = Text::new();
    let mut total = no_sweeps();
    if let Err(why) = put_front(&common, asked, &mut line, out) {
        return Err(why);
    }
    if let Err(why) = put_sweeps(rt, &common, asked, &mut line, &mut total, out) {
        return Err(why);
    }
    form_all(&mut line, asked, &total);
    put_line(&line, out)
}
