//! The text of all pairs, written.
ghost use Rattle.std.specs.Prelude.{◌≡◌, ◌+◌, ◌-◌, ◌<◌, ◌≤◌, ◌^◌, ◌==◌, suc, min, [], ◌∷◌, ℕ, List as Items, map};
ghost use Rattle.std.specs.Prelude.{length, All, Err, OnOk, IfOk, IfErr};
ghost use Rattle.ttp_base.specs.Outside.{WroteLines, CutShort};
ghost use Rattle.ttp_world.specs.declared.script.TheConstants.{EVENT_LIMIT};
ghost use Rattle.ttp_world.specs.Medl.{IsValid};
ghost use Rattle.ttp_world.specs.Script.{IsValidScript};
ghost use Rattle.campaign.specs.CostText.{cost_words};
ghost use Rattle.campaign.specs.Lines.{summary};
ghost use Rattle.campaign.specs.Tried.{with_fault};
ghost use Rattle.single_faults.specs.Tried.{MayStand};
ghost use Rattle.run_costs.specs.Standing.{IsSeenAfter};
ghost use Rattle.fault_runs.specs.declared.put.CampaignFault.TheVariants as fault;
ghost use Rattle.fault_runs.specs.Ends.{LeftBy, LeftFewerBy, WroteFewer};
ghost use Rattle.fault_runs.specs.Tries.{IsOwnAfter, IsOwnOf};
ghost use Rattle.fault_pairs.specs.Classes.{harm_of};
ghost use Rattle.fault_pairs.specs.Pairs.{FirstFault, seconds_of, firsts_among};
ghost use Rattle.fault_pairs.specs.PairText.{lines_of_told, first_fault_line, pair_counts_line};
ghost use Rattle.fault_pairs.specs.PairText.{pairs_lines};
ghost use Rattle.fault_pairs.specs.Sums.{PairTold, distances};
ghost use Rattle.pair_classes.specs.Summed.{AreSumsOf};
ghost use Rattle.pair_runs.specs.Counted.{most_tried, most_of_first, most_of_slot, distances_of, HasFewPairs, HasFewSums};
ghost use Rattle.pair_runs.specs.Counted.{PutPairs, PutFirsts};
ghost use Rattle.pair_runs.specs.Tries.{IsSingle, MayPair, IsPastRun, MayBegin, MayTryPairs, first_of, told_pair, shortened};
ghost use Rattle.pair_runs.specs.Written.{AreSingles, IsAhead, IsWorkspace, faults_at, told_second, tolds_behind, first_with};
ghost use Rattle.pair_runs.specs.Written.{tolds_of_firsts, text_of_firsts, firsts_of, firsts_between, all_firsts};
ghost use Rattle.pair_runs.specs.Written.{opening_lines, ending_lines, lines_at, distance_lines};

use crate::ahead::{OwnAhead, faults_at, place_of};
use crate::harm::harm_of;
use crate::singles::{Single, Singles};
use crate::tally::Tally;
use crate::tried::{FirstSetting, PairResult, PairsSetting, try_beside};
use campaign::Cost;
use fault_pairs::PairCounts;
use fault_runs::campaign_text::{put_cost, put_own};
use fault_runs::{CampaignFault, OwnRun};
use pair_classes::{Sums, has_line};
use pair_text::{put_apart, put_first, put_head, put_sum};
use run_costs::{SeenRun, cost_from, cost_of};
use single_faults::laws::more_is_valid;
use single_faults::with_fault;
use std::alloc::Global;
use std::thread::Threads;
use ttp_base::{GrowingText, Memory, Sink};
use ttp_world::{Event, Medl, Script};

/// Where runs and lines are made.
#[derive(Drop)]
pub(crate) struct Workspace {
    // A run that is made for one fault, and forgotten.
    run: SeenRun,
    // That of the script with the first fault.
    past: OwnRun,
    line: GrowingText,
}

// Writes a line.
fn write<K: Sink>(line: &[u8], out: &mut K) -> Result<(), CampaignFault>
    ensures ok { OnOk result (WroteLines (K.output out.old) (K.output out.new) (line.now ∷ [])) }
    ensures err { IfErr result (λ why. LeftFewerBy why (K.output out.old) (K.output out.new) (line.now ∷ [])) }
    ensures left { IfErr result (λ why. LeftBy why (K.output out.old) (K.output out.new) (line.now ∷ [])) }
{
    match out.write(line) {
        Ok(()) => Ok(()),
        Err(_) => Err(CampaignFault::Failed),
    }
}

// Writes the line that was to be formed, if it was.
fn put_formed<K: Sink>(
    formed: Result<(), Memory>,
    line: &GrowingText,
    out: &mut K,
) -> Result<(), CampaignFault>
    ensures ok { (due : Items ℕ) → OnOk formed (line.now ≡ due)
        → OnOk result (WroteLines (K.output out.old) (K.output out.new) (due ∷ [])) }
    ensures err { (due : Items ℕ) → OnOk formed (line.now ≡ due)
        → IfErr result (λ why. LeftFewerBy why (K.output out.old) (K.output out.new) (due ∷ [])) }
{
    match formed {
        Ok(()) => write(line.bytes(), out),
        Err(_) => Err(CampaignFault::Memory),
    }
}

// How many distances are counted.
fn distances_of(common: &PairsSetting) -> u32
    requires { MayPair common.now }
    ensures { result ≡ distances_of common.now }
{
    if common.within < common.script.slots {
        common.within + 1
    } else {
        common.script.slots
    }
}

// The slot behind the last one that pairs of a slot reach to.
fn end_behind(common: &PairsSetting, slot: u32) -> u32
    requires may { MayPair common.now }
    requires slot { slot < common.now.script.now.slots }
    ensures { result ≡ min (suc (slot + common.now.within)) common.now.script.now.slots }
{
    if common.within < common.script.slots - slot {
        slot + common.within + 1
    } else {
        common.script.slots
    }
}

// The slot behind the last one of the range.
fn end_of(common: &PairsSetting) -> u32
    requires { MayPair common.now }
    ensures { result ≡ min (suc common.now.last) common.now.script.now.slots }
{
    if common.last < common.script.slots {
        common.last + 1
    } else {
        common.script.slots
    }
}

// Counts a pair, and writes its line where it has one.
fn put_told<K: Sink>(
    told: &PairResult,
    apart: u32,
    tally: &mut Tally,
    out: &mut K,
) -> Result<(), CampaignFault>
    requires few { (distances : ℕ) × (most : ℕ) × HasFewPairs distances most tally.old × (apart < distances) × (most < 2 ^ 62) }
    ensures few { (distances most : ℕ) → HasFewPairs distances most tally.old → HasFewPairs distances (most + 1) tally.new }
    ensures ok { (pair : PairTold) → told.now ≡ shortened pair → pair.apart ≡ apart
        → OnOk result (PutPairs (K.output out.old) (K.output out.new) tally.old tally.new (pair ∷ [])) }
    ensures err { (pair : PairTold) → told.now ≡ shortened pair
        → IfErr result (λ why. LeftBy why (K.output out.old) (K.output out.new) (lines_of_told (pair ∷ []))) }
{
    tally.count(apart, told.yes, told.class);
    if has_line(told.class) {
        return write(told.line.bytes(), out);
    }
    Ok(())
}

// Counts the pairs of one second slot, and writes the lines of those whose class has one.
fn put_tolds<K: Sink>(
    all: &[PairResult],
    apart: u32,
    tally: &mut Tally,
    out: &mut K,
) -> Result<(), CampaignFault>
    requires count { length all.now ≤ most_tried }
    requires few { (distances : ℕ) × (most : ℕ) × HasFewPairs distances most tally.old × (apart < distances)
        × (most + most_tried < 2 ^ 62) }
    ensures ok { (pairs : Items PairTold) → all.now ≡ map shortened pairs → All (λ (pair : PairTold). pair.apart ≡ apart) pairs
        → OnOk result (PutPairs (K.output out.old) (K.output out.new) tally.old tally.new pairs) }
    ensures err { (pairs : Items PairTold) → all.now ≡ map shortened pairs → All (λ (pair : PairTold). pair.apart ≡ apart) pairs
        → IfErr result (λ why. LeftBy why (K.output out.old) (K.output out.new) (lines_of_told pairs)) }
{
    for told in all {
        if let Err(why) = put_told(told, apart, tally, out) {
            return Err(why);
        }
    }
    Ok(())
}

// The pairs of a first fault and some second ones, so many slots behind it.
fn put_seconds<R: Threads + Sync, K: Sink>(
    rt: &R,
    setting: &FirstSetting,
    apart: u32,
    past: &SeenRun,
    singles: &[Single],
    faults: &[Event],
    tally: &mut Tally,
    out: &mut K,
) -> Result<(), CampaignFault>
    requires may { MayTryPairs setting.now }
    requires past { IsPastRun setting.now.common.list.now setting.now.more.now past.now }
    requires singles { All (IsSingle setting.now.common.list.now setting.now.common.script.now) singles.now }
    requires faults { All (MayStand setting.now.common.list.now setting.now.common.script.now) faults.now }
    requires count { length faults.now ≤ most_tried }
    requires apart { apart < distances_of setting.now.common }
    requires few { (most : ℕ) × HasFewPairs (distances_of setting.now.common) most tally.old × (most + most_tried < 2 ^ 62) }
    ensures ok { OnOk result (PutPairs (K.output out.old) (K.output out.new) tally.old tally.new
        (map (told_pair setting.now apart) faults.now)) }
    ensures err { IfErr result (λ why. LeftBy why (K.output out.old) (K.output out.new)
        (lines_of_told (map (told_pair setting.now apart) faults.now))) }
{
    let threads = setting.common.threads;
    let Ok(all) = try_beside(rt, setting, apart, past, singles, faults, threads) else {
        return Err(CampaignFault::Memory);
    };
    put_tolds(all.as_slice(), apart, tally, out)
}

// Those of a later slot, which is the next one of the run with the first fault.
fn put_later<R: Threads + Sync, K: Sink>(
    rt: &R,
    setting: &FirstSetting,
    rows: &[Singles],
    later: u32,
    past: &mut OwnRun,
    tally: &mut Tally,
    out: &mut K,
) -> Result<(), CampaignFault>
    requires may { MayTryPairs setting.now }
    requires rows { AreSingles setting.now.common.list.now setting.now.common.script.now rows.now }
    requires behind { setting.now.slot ≤ later }
    requires later { later < setting.now.common.script.now.slots }
    requires near { later - setting.now.slot < distances_of setting.now.common }
    requires past { IsOwnAfter past.old setting.now.common.list.now setting.now.more.now later }
    requires few { (most : ℕ) × HasFewPairs (distances_of setting.now.common) most tally.old × (most + most_tried < 2 ^ 62) }
    ensures past { IsOwnAfter past.new setting.now.common.list.now setting.now.more.now (later + 1) }
    ensures ok { OnOk result (PutPairs (K.output out.old) (K.output out.new) tally.old tally.new
        (map (told_pair setting.now (later - setting.now.slot)) (faults_at setting.now.common.list.now setting.now.more.now later))) }
    ensures err { IfErr result (λ why. LeftBy why (K.output out.old) (K.output out.new) (lines_of_told
        (map (told_pair setting.now (later - setting.now.slot)) (faults_at setting.now.common.list.now setting.now.more.now later)))) }
{
    let (list, more) = (setting.common.list, setting.more);
    past.step(list, more, later);
    let Ok(faults) = faults_at(setting.common.alloc, list, more, past, later) else {
        return Err(CampaignFault::Memory);
    };
    let row = &rows[place_of(later)];
    let apart = later - setting.slot;
    put_seconds(
        rt,
        setting,
        apart,
        &past.before,
        row.kept(),
        faults.as_slice(),
        tally,
        out,
    )
}

// Those of all later slots.
fn put_behind<R: Threads + Sync, K: Sink>(
    rt: &R,
    setting: &FirstSetting,
    rows: &[Singles],
    past: &mut OwnRun,
    tally: &mut Tally,
    out: &mut K,
) -> Result<(), CampaignFault>
    requires may { MayTryPairs setting.now }
    requires rows { AreSingles setting.now.common.list.now setting.now.common.script.now rows.now }
    requires past { IsOwnAfter past.old setting.now.common.list.now setting.now.more.now (setting.now.slot + 1) }
    requires few { (most : ℕ) × HasFewPairs (distances_of setting.now.common) most tally.old × (most + most_of_first < 2 ^ 62) }
    ensures past { OnOk result (IsOwnOf past.new setting.now.common.list.now) }
    ensures ok { OnOk result (PutPairs (K.output out.old) (K.output out.new) tally.old tally.new (tolds_behind setting.now)) }
    ensures err { IfErr result (λ why. LeftBy why (K.output out.old) (K.output out.new)
        (lines_of_told (tolds_behind setting.now))) }
{
    for later in setting.slot + 1..end_behind(&setting.common, setting.slot) {
        if let Err(why) = put_later(rt, setting, rows, later, past, tally, out) {
            return Err(why);
        }
    }
    Ok(())
}

// All pairs of a first fault, by the run with it before its slot.
fn put_pairs_of<R: Threads + Sync, K: Sink>(
    rt: &R,
    setting: &FirstSetting,
    rows: &[Singles],
    past: &mut OwnRun,
    tally: &mut Tally,
    out: &mut K,
) -> Result<(), CampaignFault>
    requires may { MayTryPairs setting.now }
    requires rows { AreSingles setting.now.common.list.now setting.now.common.script.now rows.now }
    requires behind { length setting.now.behind.now ≤ most_tried }
    requires past { IsOwnAfter past.old setting.now.common.list.now setting.now.more.now setting.now.slot }
    requires few { (most : ℕ) × HasFewPairs (distances_of setting.now.common) most tally.old × (most + most_of_first < 2 ^ 61) }
    ensures past { OnOk result (IsOwnOf past.new setting.now.common.list.now) }
    ensures ok { OnOk result (PutPairs (K.output out.old) (K.output out.new) tally.old tally.new
        (map (told_second setting.now) (seconds_of setting.now.common.list.now setting.now.common.script.now
        setting.now.common.within (first_of setting.now)))) }
    ensures err { IfErr result (λ why. LeftBy why (K.output out.old) (K.output out.new) (lines_of_told
        (map (told_second setting.now) (seconds_of setting.now.common.list.now setting.now.common.script.now
        setting.now.common.within (first_of setting.now))))) }
{
    past.step(setting.common.list, setting.more, setting.slot);
    let row = &rows[place_of(setting.slot)];
    let (before, behind) = (&past.before, setting.behind);
    if let Err(why) = put_seconds(rt, setting, 0, before, row.kept(), behind, tally, out) {
        return Err(why);
    }
    put_behind(rt, setting, rows, past, tally, out)
}

// The line of a first fault, whose script this is.
fn put_first_line<K: Sink>(
    list: &Medl,
    one: &Event,
    more: &Script,
    cost: &Cost,
    counts: &PairCounts,
    line: &mut GrowingText,
    out: &mut K,
) -> Result<(), CampaignFault>
    requires valid { IsValid list.now }
    requires script { IsValidScript list.now more.now }
    requires cost { cost.now ≡ (summary list.now more.now).cost }
    ensures ok { (first : FirstFault) → first.fault ≡ one.now → OnOk result (WroteLines (K.output out.old) (K.output out.new)
        (first_fault_line list.now first (summary list.now more.now) counts.now ∷ [])) }
    ensures err { (first : FirstFault) → first.fault ≡ one.now
        → IfErr result (λ why. LeftFewerBy why (K.output out.old) (K.output out.new)
        (first_fault_line list.now first (summary list.now more.now) counts.now ∷ [])) }
{
    line.clear();
    let formed = put_first(line, list, one, more, cost, counts);
    put_formed(formed, line, out)
}

// A first fault, whose cost this is: the lines of its pairs, and its own.
fn put_course<R: Threads + Sync, K: Sink>(
    rt: &R,
    setting: &FirstSetting,
    cost: &Cost,
    before: &SeenRun,
    rows: &[Singles],
    work: &mut Workspace,
    tally: &mut Tally,
    out: &mut K,
) -> Result<(), CampaignFault>
    requires may { MayTryPairs setting.now }
    requires cost { cost.now ≡ (summary setting.now.common.list.now setting.now.more.now).cost }
    requires before { IsSeenAfter before.now setting.now.common.list.now setting.now.common.script.now setting.now.slot }
    requires rows { AreSingles setting.now.common.list.now setting.now.common.script.now rows.now }
    requires behind { length setting.now.behind.now ≤ most_tried }
    requires work { IsWorkspace setting.now.common.list.now work.old }
    requires few { (most : ℕ) × HasFewSums (distances_of setting.now.common) most tally.old.sums × (most + most_of_first < 2 ^ 61) }
    ensures work { OnOk result (IsWorkspace setting.now.common.list.now work.new) }
    ensures few { (most : ℕ) → HasFewSums (distances_of setting.now.common) most tally.old.sums
        → OnOk result (HasFewSums (distances_of setting.now.common) (most + most_of_first) tally.new.sums) }
    ensures ok { OnOk result (PutFirsts (K.output out.old) (K.output out.new) tally.old tally.new
        (tolds_of_firsts setting.now.common (first_of setting.now ∷ [])) (text_of_firsts setting.now.common (first_of setting.now ∷ []))) }
    ensures err { IfErr result (λ why. LeftBy why (K.output out.old) (K.output out.new)
        (text_of_firsts setting.now.common (first_of setting.now ∷ []))) }
{
    let (list, more) = (setting.common.list, setting.more);
    tally.begin();
    work.past.go_on_from(before, list, more, setting.one);
    if let Err(why) = put_pairs_of(rt, setting, rows, &mut work.past, tally, out) {
        return Err(why);
    }
    put_first_line(
        list,
        setting.one,
        more,
        cost,
        &tally.counts,
        &mut work.line,
        out,
    )
}

// A first fault, and those that are tried behind it in its slot.
fn put_group<R: Threads + Sync, K: Sink>(
    rt: &R,
    common: &PairsSetting,
    before: &SeenRun,
    rows: &[Singles],
    slot: u32,
    one: &Event,
    behind: &[Event],
    work: &mut Workspace,
    tally: &mut Tally,
    out: &mut K,
) -> Result<(), CampaignFault>
    requires may { MayPair common.now }
    requires slot { slot < common.now.script.now.slots }
    requires before { IsSeenAfter before.now common.now.list.now common.now.script.now slot }
    requires rows { AreSingles common.now.list.now common.now.script.now rows.now }
    requires one { MayBegin common.now.list.now common.now.script.now slot one.now }
    requires behind { All (MayStand common.now.list.now common.now.script.now) behind.now }
    requires count { length behind.now ≤ most_tried }
    requires work { IsWorkspace common.now.list.now work.old }
    requires few { (most : ℕ) × HasFewSums (distances_of common.now) most tally.old.sums × (most + most_of_first < 2 ^ 61) }
    ensures work { OnOk result (IsWorkspace common.now.list.now work.new) }
    ensures few { (most : ℕ) → HasFewSums (distances_of common.now) most tally.old.sums
        → OnOk result (HasFewSums (distances_of common.now) (most + most_of_first) tally.new.sums) }
    ensures ok { OnOk result (PutFirsts (K.output out.old) (K.output out.new) tally.old tally.new
        (tolds_of_firsts common.now (first_with slot one.now behind.now ∷ []))
        (text_of_firsts common.now (first_with slot one.now behind.now ∷ []))) }
    ensures err { IfErr result (λ why. LeftBy why (K.output out.old) (K.output out.new)
        (text_of_firsts common.now (first_with slot one.now behind.now ∷ []))) }
{
    let (alloc, list, script) = (common.alloc, common.list, common.script);
    more_is_valid(list, script, one);
    let Ok(more) = with_fault(alloc, script, one) else {
        return Err(CampaignFault::Memory);
    };
    let Ok(cost) = cost_from(alloc, list, script, one, &more, before, &mut work.run) else {
        return Err(CampaignFault::Memory);
    };
    let setting = FirstSetting {
        common: PairsSetting {
            alloc,
            list: &*list,
            script: &*script,
            first: common.first,
            last: common.last,
            within: common.within,
            own: common.own,
            threads: common.threads,
        },
        slot,
        one: &*one,
        behind: &*behind,
        first: harm_of(&cost),
        more: &more,
    };
    put_course(rt, &setting, &cost, before, rows, work, tally, out)
}

// All first faults of a slot.
fn put_groups<R: Threads + Sync, K: Sink>(
    rt: &R,
    common: &PairsSetting,
    before: &SeenRun,
    rows: &[Singles],
    slot: u32,
    faults: &[Event],
    work: &mut Workspace,
    tally: &mut Tally,
    out: &mut K,
) -> Result<(), CampaignFault>
    requires may { MayPair common.now }
    requires slot { slot < common.now.script.now.slots }
    requires before { IsSeenAfter before.now common.now.list.now common.now.script.now slot }
    requires rows { AreSingles common.now.list.now common.now.script.now rows.now }
    requires faults { All (MayBegin common.now.list.now common.now.script.now slot) faults.now }
    requires count { length faults.now ≤ most_tried }
    requires work { IsWorkspace common.now.list.now work.old }
    requires few { (most : ℕ) × HasFewSums (distances_of common.now) most tally.old.sums × (most + most_of_slot < 2 ^ 60) }
    ensures work { OnOk result (IsWorkspace common.now.list.now work.new) }
    ensures ok { OnOk result (PutFirsts (K.output out.old) (K.output out.new) tally.old tally.new
        (tolds_of_firsts common.now (firsts_among slot faults.now)) (text_of_firsts common.now (firsts_among slot faults.now))) }
    ensures few { (most : ℕ) → HasFewSums (distances_of common.now) most tally.old.sums
        → OnOk result (HasFewSums (distances_of common.now) (most + most_of_slot) tally.new.sums) }
    ensures err { IfErr result (λ why. LeftBy why (K.output out.old) (K.output out.new)
        (text_of_firsts common.now (firsts_among slot faults.now))) }
{
    for i in 0..faults.len() {
        let (one, behind) = (&faults[i], &faults[i + 1..]);
        if let Err(why) = put_group(
            rt, common, before, rows, slot, one, behind, work, tally, out,
        ) {
            return Err(why);
        }
    }
    Ok(())
}

// The next slot of the script's own run, and its first faults.
fn put_slot<R: Threads + Sync, K: Sink>(
    rt: &R,
    common: &PairsSetting,
    slot: u32,
    own: &mut OwnRun,
    ahead: &mut OwnAhead,
    work: &mut Workspace,
    tally: &mut Tally,
    out: &mut K,
) -> Result<(), CampaignFault>
    requires may { MayPair common.now }
    requires slot { slot < common.now.script.now.slots }
    requires own { IsOwnAfter own.old common.now.list.now common.now.script.now slot }
    requires ahead { IsAhead common.now.list.now common.now.script.now ahead.old }
    requires work { IsWorkspace common.now.list.now work.old }
    requires few { (most : ℕ) × HasFewSums (distances_of common.now) most tally.old.sums × (most + most_of_slot < 2 ^ 60) }
    ensures own { IsOwnAfter own.new common.now.list.now common.now.script.now (slot + 1) }
    ensures ahead { OnOk result (IsAhead common.now.list.now common.now.script.now ahead.new) }
    ensures work { OnOk result (IsWorkspace common.now.list.now work.new) }
    ensures few { (most : ℕ) → HasFewSums (distances_of common.now) most tally.old.sums
        → OnOk result (HasFewSums (distances_of common.now) (most + most_of_slot) tally.new.sums) }
    ensures ok { OnOk result (PutFirsts (K.output out.old) (K.output out.new) tally.old tally.new
        (tolds_of_firsts common.now (firsts_of common.now slot)) (text_of_firsts common.now (firsts_of common.now slot))) }
    ensures err { IfErr result (λ why. LeftBy why (K.output out.old) (K.output out.new)
        (text_of_firsts common.now (firsts_of common.now slot))) }
{
    let (alloc, list, script) = (common.alloc, common.list, common.script);
    own.step(list, script, slot);
    let Ok(()) = ahead.look_to(common, end_behind(common, slot), &mut work.run) else {
        return Err(CampaignFault::Memory);
    };
    let Ok(faults) = faults_at(alloc, list, script, own, slot) else {
        return Err(CampaignFault::Memory);
    };
    let (before, rows) = (&own.before, ahead.rows.as_slice());
    put_groups(
        rt,
        common,
        before,
        rows,
        slot,
        faults.as_slice(),
        work,
        tally,
        out,
    )
}

// Runs the slots before the range.
fn skip(list: &Medl, script: &Script, end: u32, own: &mut OwnRun)
    requires valid { IsValid list.now }
    requires script { IsValidScript list.now script.now }
    requires end { end ≤ script.now.slots }
    requires own { IsOwnAfter own.old list.now script.now 0 }
    ensures { IsOwnAfter own.new list.now script.now end }
{
    for slot in 0..end {
        own.step(list, script, slot);
    }
}

// All first faults of a range of slots, from one on, by the script's own run before it.
fn put_range<R: Threads + Sync, K: Sink>(
    rt: &R,
    common: &PairsSetting,
    from: u32,
    end: u32,
    own: &mut OwnRun,
    ahead: &mut OwnAhead,
    work: &mut Workspace,
    tally: &mut Tally,
    out: &mut K,
) -> Result<(), CampaignFault>
    requires may { MayPair common.now }
    requires end { end ≤ common.now.script.now.slots }
    requires from { from ≤ end }
    requires own { IsOwnAfter own.old common.now.list.now common.now.script.now from }
    requires ahead { IsAhead common.now.list.now common.now.script.now ahead.old }
    requires work { IsWorkspace common.now.list.now work.old }
    requires few { HasFewSums (distances_of common.now) 0 tally.old.sums }
    ensures ok { OnOk result (PutFirsts (K.output out.old) (K.output out.new) tally.old tally.new
        (tolds_of_firsts common.now (firsts_between common.now from (end - from)))
        (text_of_firsts common.now (firsts_between common.now from (end - from)))) }
    ensures err { IfErr result (λ why. LeftBy why (K.output out.old) (K.output out.new)
        (text_of_firsts common.now (firsts_between common.now from (end - from)))) }
{
    for slot in from..end {
        if let Err(why) = put_slot(rt, common, slot, own, ahead, work, tally, out) {
            return Err(why);
        }
    }
    Ok(())
}

// The line of counts of a distance, where some pair has it.
fn put_distance<K: Sink>(
    sums: &Sums,
    distance: u32,
    line: &mut GrowingText,
    out: &mut K,
) -> Result<(), CampaignFault>
    requires { distance < length sums.now.apart.items }
    ensures ok { (distances : ℕ) (tolds : Items PairTold) → AreSumsOf distances tolds sums.now
        → OnOk result (WroteLines (K.output out.old) (K.output out.new) (lines_at tolds distance)) }
    ensures err { (distances : ℕ) (tolds : Items PairTold) → AreSumsOf distances tolds sums.now
        → IfErr result (λ why. LeftBy why (K.output out.old) (K.output out.new) (lines_at tolds distance)) }
{
    let counts = sums.apart[distance as usize];
    if counts.pairs == 0 {
        return Ok(());
    }
    line.clear();
    let formed = put_apart(line, distance, &counts);
    put_formed(formed, line, out)
}

// Those of all distances.
fn put_distances<K: Sink>(
    sums: &Sums,
    distances: u32,
    line: &mut GrowingText,
    out: &mut K,
) -> Result<(), CampaignFault>
    requires { (tolds : Items PairTold) × AreSumsOf distances tolds sums.now }
    ensures ok { (tolds : Items PairTold) → AreSumsOf distances tolds sums.now
        → OnOk result (WroteLines (K.output out.old) (K.output out.new) (distance_lines tolds distances)) }
    ensures err { (tolds : Items PairTold) → AreSumsOf distances tolds sums.now
        → IfErr result (λ why. LeftBy why (K.output out.old) (K.output out.new) (distance_lines tolds distances)) }
{
    for distance in 0..distances {
        if let Err(why) = put_distance(sums, distance, line, out) {
            return Err(why);
        }
    }
    Ok(())
}

// A line of counts under a name.
fn put_counts_line<K: Sink>(
    name: &str,
    counts: &PairCounts,
    line: &mut GrowingText,
    out: &mut K,
) -> Result<(), CampaignFault>
    ensures ok { OnOk result (WroteLines (K.output out.old) (K.output out.new) (pair_counts_line name.now counts.now ∷ [])) }
    ensures err { IfErr result (λ why. LeftFewerBy why (K.output out.old) (K.output out.new)
        (pair_counts_line name.now counts.now ∷ [])) }
{
    line.clear();
    let formed = put_sum(line, name, counts);
    put_formed(formed, line, out)
}

// The sums of all pairs.
fn put_sums<K: Sink>(
    sums: &Sums,
    distances: u32,
    line: &mut GrowingText,
    out: &mut K,
) -> Result<(), CampaignFault>
    requires { (tolds : Items PairTold) × AreSumsOf distances tolds sums.now }
    ensures ok { (tolds : Items PairTold) → AreSumsOf distances tolds sums.now
        → OnOk result (WroteLines (K.output out.old) (K.output out.new) (ending_lines distances tolds)) }
    ensures err { (tolds : Items PairTold) → AreSumsOf distances tolds sums.now
        → IfErr result (λ why. LeftFewerBy why (K.output out.old) (K.output out.new) (ending_lines distances tolds)) }
{
    if let Err(why) = put_distances(sums, distances, line, out) {
        return Err(why);
    }
    if let Err(why) = put_counts_line("kept ", &sums.kept, line, out) {
        return Err(why);
    }
    put_counts_line("broken ", &sums.broken, line, out)
}

// The head, and the line of the script's own run, with these words of what it cost.
fn put_front<K: Sink>(
    common: &PairsSetting,
    words: &[u8],
    line: &mut GrowingText,
    out: &mut K,
) -> Result<(), CampaignFault>
    requires may { MayPair common.now }
    requires words { words.now ≡ cost_words common.now.list.now (summary common.now.list.now common.now.script.now).cost }
    ensures ok { OnOk result (WroteLines (K.output out.old) (K.output out.new) (opening_lines common.now)) }
    ensures err { IfErr result (λ why. LeftFewerBy why (K.output out.old) (K.output out.new) (opening_lines common.now)) }
{
    let (list, script) = (common.list, common.script);
    line.clear();
    let formed = put_head(line, list, script, common.first, common.last, common.within);
    if let Err(why) = put_formed(formed, line, out) {
        return Err(why);
    }
    line.clear();
    let formed = put_own(line, list, script, words);
    put_formed(formed, line, out)
}

// All first faults, by the script's own run, which has not begun.
fn put_slots<R: Threads + Sync, K: Sink>(
    rt: &R,
    common: &PairsSetting,
    own: &mut OwnRun,
    ahead: &mut OwnAhead,
    work: &mut Workspace,
    tally: &mut Tally,
    out: &mut K,
) -> Result<(), CampaignFault>
    requires may { MayPair common.now }
    requires own { IsOwnAfter own.old common.now.list.now common.now.script.now 0 }
    requires ahead { IsAhead common.now.list.now common.now.script.now ahead.old }
    requires work { IsWorkspace common.now.list.now work.old }
    requires few { HasFewSums (distances_of common.now) 0 tally.old.sums }
    ensures ok { OnOk result (PutFirsts (K.output out.old) (K.output out.new) tally.old tally.new
        (tolds_of_firsts common.now (all_firsts common.now)) (text_of_firsts common.now (all_firsts common.now))) }
    ensures err { IfErr result (λ why. LeftBy why (K.output out.old) (K.output out.new)
        (text_of_firsts common.now (all_firsts common.now))) }
{
    let end = end_of(common);
    let from = common.first.min(end);
    skip(common.list, common.script, from, own);
    put_range(rt, common, from, end, own, ahead, work, tally, out)
}

// All lines, by runs that have not begun.
fn put_lines<R: Threads + Sync, K: Sink>(
    rt: &R,
    common: &PairsSetting,
    words: &[u8],
    own: &mut OwnRun,
    ahead: &mut OwnAhead,
    work: &mut Workspace,
    tally: &mut Tally,
    out: &mut K,
) -> Result<(), CampaignFault>
    requires may { MayPair common.now }
    requires words { words.now ≡ cost_words common.now.list.now (summary common.now.list.now common.now.script.now).cost }
    requires own { IsOwnAfter own.old common.now.list.now common.now.script.now 0 }
    requires ahead { IsAhead common.now.list.now common.now.script.now ahead.old }
    requires work { IsWorkspace common.now.list.now work.old }
    requires few { HasFewSums (distances_of common.now) 0 tally.old.sums }
    requires none { AreSumsOf (distances_of common.now) [] tally.old.sums }
    ensures ok { OnOk result (WroteLines (K.output out.old) (K.output out.new)
        (pairs_lines common.now.list.now common.now.script.now common.now.first common.now.last common.now.within)) }
    ensures err { IfErr result (λ why. LeftFewerBy why (K.output out.old) (K.output out.new)
        (pairs_lines common.now.list.now common.now.script.now common.now.first common.now.last common.now.within)) }
{
    if let Err(why) = put_front(common, words, &mut work.line, out) {
        return Err(why);
    }
    if let Err(why) = put_slots(rt, common, own, ahead, work, tally, out) {
        return Err(why);
    }
    put_sums(&tally.sums, distances_of(common), &mut work.line, out)
}

// The words of what a run cost.
fn words_of(alloc: Global, list: &Medl, cost: &Cost) -> Result<GrowingText, Memory>
    requires valid { IsValid list.now }
    requires cost { (script : Script) × (cost.now ≡ (summary list.now script).cost) }
    ensures { IfOk result (λ words. words ≡ cost_words list.now cost.now) }
{
    let mut words = GrowingText::new(alloc);
    put_cost(&mut words, list, cost)?;
    Ok(words)
}

// Runs that have not begun.
fn new_work(alloc: Global, list: &Medl, script: &Script) -> Result<Workspace, Memory>
    requires valid { IsValid list.now }
    requires script { IsValidScript list.now script.now }
    ensures { IfOk result (λ work. IsWorkspace list.now work) }
{
    Ok(Workspace {
        run: SeenRun::new(alloc, list, script)?,
        past: OwnRun::new(alloc, list, script)?,
        line: GrowingText::new(alloc),
    })
}

// All lines, by the words of what the script's own run cost.
fn put_all<R: Threads + Sync, K: Sink>(
    rt: &R,
    common: &PairsSetting,
    words: &[u8],
    out: &mut K,
) -> Result<(), CampaignFault>
    requires may { MayPair common.now }
    requires words { words.now ≡ cost_words common.now.list.now (summary common.now.list.now common.now.script.now).cost }
    ensures ok { OnOk result (WroteLines (K.output out.old) (K.output out.new)
        (pairs_lines common.now.list.now common.now.script.now common.now.first common.now.last common.now.within)) }
    ensures err { IfErr result (λ why. LeftFewerBy why (K.output out.old) (K.output out.new)
        (pairs_lines common.now.list.now common.now.script.now common.now.first common.now.last common.now.within)) }
{
    let (alloc, list, script) = (common.alloc, common.list, common.script);
    let Ok(mut own) = OwnRun::new(alloc, list, script) else {
        return Err(CampaignFault::Memory);
    };
    let Ok(mut ahead) = OwnAhead::new(alloc, list, script) else {
        return Err(CampaignFault::Memory);
    };
    let Ok(mut work) = new_work(alloc, list, script) else {
        return Err(CampaignFault::Memory);
    };
    let Ok(mut tally) = Tally::new(alloc, distances_of(common)) else {
        return Err(CampaignFault::Memory);
    };
    put_lines(
        rt, common, words, &mut own, &mut ahead, &mut work, &mut tally, out,
    )
}

/// Writes what every two faults cost of which the first begins in the slots of a range and the second in the same slot or up to so
/// many slots later, each line as one piece. Slots that the script does not have are passed over.
///
/// A pair costs a run from the slot of its second fault to the script's last one, and the test of the script with both. The slots
/// before a first fault are run once, those between the two once for each first fault. What a fault costs alone is asked once for
/// each of 256 slots at a time, and again, from its first slot on, for each pair that reaches further or whose second fault the script's
/// own run does not have. The runs of a slot are made in as many threads as are asked for, rounded up to a power of two; with 0 or 1 they are made
/// in this one. What is written is the same. The lines of a slot are held until all of its runs were made.
///
/// # Errors
///
/// `Failed` where the sink's count of faults rose: then the text is cut short. `Memory` where memory was refused: then some of
/// its first lines were written, and never all.
pub fn put_pairs<R: Threads + Sync, K: Sink>(
    rt: &R,
    alloc: Global,
    list: &Medl,
    script: &Script,
    first: u32,
    last: u32,
    within: u32,
    threads: usize,
    out: &mut K,
) -> Result<(), CampaignFault>
    requires valid { IsValid list.now }
    requires script { IsValidScript list.now script.now }
    requires room { length script.now.events + 1 < EVENT_LIMIT }
    ensures ok { OnOk result
        (WroteLines (K.output out.old) (K.output out.new) (pairs_lines list.now script.now first last within)) }
    ensures failed { result ≡ Err fault.Failed
        → CutShort (K.output out.old) (K.output out.new) (pairs_lines list.now script.now first last within) }
    ensures memory { result ≡ Err fault.Memory
        → WroteFewer (K.output out.old) (K.output out.new) (pairs_lines list.now script.now first last within) }
{
    let Ok(cost) = cost_of(alloc, list, script) else {
        return Err(CampaignFault::Memory);
    };
    let Ok(words) = words_of(alloc, list, &cost) else {
        return Err(CampaignFault::Memory);
    };
    let common = PairsSetting {
        alloc,
        list,
        script,
        first,
        last,
        within,
        own: harm_of(&cost),
        threads,
    };
    put_all(rt, &common, words.bytes(), out)
}
