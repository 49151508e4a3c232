//! The runs of pairs, side by side.
ghost use Rattle.std.specs.Prelude.{◌≡◌, [], map, All, IfOk, OnOk, if◌then◌else◌};
ghost use Rattle.std.specs.Thread.{IsSync};
ghost use Rattle.ttp_world.specs.Medl.{IsValid};
ghost use Rattle.ttp_world.specs.Script.{IsValidScript};
ghost use Rattle.campaign.specs.Cost.{says_yes, is_kept, is_owed};
ghost use Rattle.campaign.specs.Lines.{summary, summary_with};
ghost use Rattle.campaign.specs.Tried.{with_fault};
ghost use Rattle.single_faults.specs.Tried.{MayStand};
ghost use Rattle.run_costs.specs.Standing.{IsRunOfList};
ghost use Rattle.fault_pairs.specs.Classes.{harm_of, has_line};
ghost use Rattle.fault_pairs.specs.Pairs.{second_apart};
ghost use Rattle.fault_pairs.specs.PairText.{pair_line};
ghost use Rattle.pair_classes.specs.Ordered.{AreOrdered};
ghost use Rattle.pair_runs.specs.Tries.{IsSingle, IsPastRun, MayTryPairs, first_of, pair_tried};

use crate::harm::harm_of;
use crate::singles::{Single, find, harm_alone};
use campaign::Cost;
use fault_pairs::{Harm, PairClass};
use fault_runs::campaign_text::fault_node;
use hypothesis::{has_arm, keeps, returns};
use pair_classes::{Harms, has_line, pair_class};
use pair_text::{Pair, put_pair};
use run_costs::{SeenRun, cost_from};
use single_faults::laws::more_is_valid;
use single_faults::with_fault;
use std::alloc::Global;
use std::thread::{Threads, join};
use ttp_base::{GrowingText, Memory};
use ttp_world::{Back, Event, Keep, Medl, Script};

/// What all pairs read.
#[derive(Clone, Copy)]
pub(crate) struct PairsSetting<'a> {
    pub(crate) alloc: Global,
    pub(crate) list: &'a Medl,
    pub(crate) script: &'a Script,
    pub(crate) first: u32,
    pub(crate) last: u32,
    pub(crate) within: u32,
    /// What the script's own run did.
    pub(crate) own: Harm,
    pub(crate) threads: usize,
}

/// What all pairs of a first fault read.
#[derive(Clone, Copy)]
pub(crate) struct FirstSetting<'a> {
    pub(crate) common: PairsSetting<'a>,
    /// The slot, the first fault, those that are tried behind it in the slot, and what it costs alone.
    pub(crate) slot: u32,
    pub(crate) one: &'a Event,
    pub(crate) behind: &'a [Event],
    pub(crate) first: Harm,
    /// The script with the first fault.
    pub(crate) more: &'a Script,
}

/// What is told of a pair.
#[derive(Drop)]
pub(crate) struct PairResult {
    pub(crate) yes: bool,
    pub(crate) class: PairClass,
    /// Its line, where its class has one.
    pub(crate) line: GrowingText,
}

fn is_kept(keep: Keep) -> bool
    ensures { result ≡ is_kept keep }
{
    matches!(keep, Keep::Yes { .. })
}

fn is_owed(back: Back) -> bool
    ensures { result ≡ is_owed back }
{
    matches!(back, Back::Yes { .. })
}

// Whether the test of a script says yes.
fn says_yes(list: &Medl, script: &Script) -> bool
    requires valid { IsValid list.now }
    requires script { IsValidScript list.now script.now }
    ensures { result ≡ says_yes list.now script.now }
{
    if has_arm(script) {
        is_owed(returns(list, script))
    } else {
        is_kept(keeps(list, script))
    }
}

// The line of a pair of this class, so many slots apart; `both` is the script with both faults, and `cost` what its run cost.
fn form_line(
    setting: &FirstSetting,
    apart: u32,
    two: &Event,
    class: PairClass,
    harms: &Harms,
    both: &Script,
    cost: &Cost,
) -> Result<GrowingText, Memory>
    requires may { MayTryPairs setting.now }
    requires script { IsValidScript setting.now.common.list.now both.now }
    requires ordered { AreOrdered harms.now }
    requires cost { cost.now ≡ (summary setting.now.common.list.now both.now).cost }
    requires harm { harms.now.both ≡ harm_of cost.now }
    ensures { IfOk result (λ line. line ≡ pair_line setting.now.common.list.now class (first_of setting.now)
        (second_apart apart two.now) setting.now.common.own harms.now.one harms.now.two
        (summary setting.now.common.list.now both.now)) }
{
    let mut line = GrowingText::new(setting.common.alloc);
    let pair = Pair {
        slot: setting.slot,
        apart,
        one: setting.one,
        two,
    };
    let list = setting.common.list;
    put_pair(
        &mut line,
        list,
        class,
        &pair,
        &setting.common.own,
        harms,
        both,
        cost,
    )?;
    Ok(line)
}

// The line of a pair where its class has one, and else an empty one.
fn line_of(
    setting: &FirstSetting,
    apart: u32,
    two: &Event,
    class: PairClass,
    harms: &Harms,
    both: &Script,
    cost: &Cost,
) -> Result<GrowingText, Memory>
    requires may { MayTryPairs setting.now }
    requires script { IsValidScript setting.now.common.list.now both.now }
    requires ordered { AreOrdered harms.now }
    requires cost { cost.now ≡ (summary setting.now.common.list.now both.now).cost }
    requires harm { harms.now.both ≡ harm_of cost.now }
    ensures { IfOk result (λ line. line ≡ (if has_line class then pair_line setting.now.common.list.now class (first_of setting.now)
        (second_apart apart two.now) setting.now.common.own harms.now.one harms.now.two
        (summary setting.now.common.list.now both.now) else [])) }
{
    if has_line(class) {
        return form_line(setting, apart, two, class, harms, both, cost);
    }
    Ok(GrowingText::new(setting.common.alloc))
}

// What a second fault costs alone: it is known, or run from the first slot on.
fn alone(setting: &FirstSetting, singles: &[Single], two: &Event) -> Result<Harm, Memory>
    requires may { MayTryPairs setting.now }
    requires singles { All (IsSingle setting.now.common.list.now setting.now.common.script.now) singles.now }
    requires two { MayStand setting.now.common.list.now setting.now.common.script.now two.now }
    ensures { IfOk result (λ harm. harm
        ≡ harm_of (summary_with setting.now.common.list.now setting.now.common.script.now two.now).cost) }
{
    let (list, script) = (setting.common.list, setting.common.script);
    match find(singles, two) {
        Some(harm) => Ok(harm),
        None => harm_alone(setting.common.alloc, list, script, two),
    }
}

// What is told of a pair so many slots apart, by the script with both faults and what its run cost.
fn told_by(
    setting: &FirstSetting,
    apart: u32,
    two: &Event,
    harms: &Harms,
    both: &Script,
    cost: &Cost,
) -> Result<PairResult, Memory>
    requires may { MayTryPairs setting.now }
    requires two { MayStand setting.now.common.list.now setting.now.common.script.now two.now }
    requires both { both.now ≡ with_fault setting.now.more.now two.now }
    requires script { IsValidScript setting.now.common.list.now both.now }
    requires cost { cost.now ≡ (summary setting.now.common.list.now both.now).cost }
    requires harm { harms.now.both ≡ harm_of cost.now }
    requires first { harms.now.one ≡ setting.now.first }
    requires second { harms.now.two
        ≡ harm_of (summary_with setting.now.common.list.now setting.now.common.script.now two.now).cost }
    ensures { IfOk result (λ told. told ≡ pair_tried setting.now apart two.now) }
{
    let class = pair_class(fault_node(setting.one), fault_node(two), harms);
    let line = line_of(setting, apart, two, class, harms, both, cost)?;
    Ok(PairResult {
        yes: says_yes(setting.common.list, both),
        class,
        line,
    })
}

// The run of a pair, whose script this is, by the run with the first fault as far as it has come. It is made in `run`.
fn try_both(
    setting: &FirstSetting,
    apart: u32,
    past: &SeenRun,
    singles: &[Single],
    two: &Event,
    both: &Script,
    run: &mut SeenRun,
) -> Result<PairResult, Memory>
    requires may { MayTryPairs setting.now }
    requires past { IsPastRun setting.now.common.list.now setting.now.more.now past.now }
    requires singles { All (IsSingle setting.now.common.list.now setting.now.common.script.now) singles.now }
    requires two { MayStand setting.now.common.list.now setting.now.common.script.now two.now }
    requires both { both.now ≡ with_fault setting.now.more.now two.now }
    requires script { IsValidScript setting.now.common.list.now both.now }
    requires run { IsRunOfList run.old.run setting.now.common.list.now }
    ensures told { IfOk result (λ told. told ≡ pair_tried setting.now apart two.now) }
    ensures run { OnOk result (IsRunOfList run.new.run setting.now.common.list.now) }
{
    let (alloc, list) = (setting.common.alloc, setting.common.list);
    let cost = cost_from(alloc, list, setting.more, two, both, past, run)?;
    let harms = Harms {
        both: harm_of(&cost),
        one: setting.first,
        two: alone(setting, singles, two)?,
    };
    told_by(setting, apart, two, &harms, both, &cost)
}

// Runs the script with the first fault and this second one, and tells of the pair.
fn try_one(
    setting: &FirstSetting,
    apart: u32,
    past: &SeenRun,
    singles: &[Single],
    two: &Event,
    run: &mut SeenRun,
) -> Result<PairResult, Memory>
    requires may { MayTryPairs setting.now }
    requires past { IsPastRun setting.now.common.list.now setting.now.more.now past.now }
    requires singles { All (IsSingle setting.now.common.list.now setting.now.common.script.now) singles.now }
    requires two { MayStand setting.now.common.list.now setting.now.common.script.now two.now }
    requires run { IsRunOfList run.old.run setting.now.common.list.now }
    ensures told { IfOk result (λ told. told ≡ pair_tried setting.now apart two.now) }
    ensures run { OnOk result (IsRunOfList run.new.run setting.now.common.list.now) }
{
    more_is_valid(setting.common.list, setting.more, two);
    let both = with_fault(setting.common.alloc, setting.more, two)?;
    try_both(setting, apart, past, singles, two, &both, run)
}

// Adds those of some second faults, one after another.
fn add_each(
    setting: &FirstSetting,
    apart: u32,
    past: &SeenRun,
    singles: &[Single],
    faults: &[Event],
    run: &mut SeenRun,
    all: &mut Vec<PairResult>,
) -> Result<(), Memory>
    requires may { MayTryPairs setting.now }
    requires past { IsPastRun setting.now.common.list.now setting.now.more.now past.now }
    requires singles { All (IsSingle setting.now.common.list.now setting.now.common.script.now) singles.now }
    requires faults { All (MayStand setting.now.common.list.now setting.now.common.script.now) faults.now }
    requires run { IsRunOfList run.old.run setting.now.common.list.now }
    requires none { all.old.items ≡ [] }
    ensures { OnOk result (all.new.items ≡ map (pair_tried setting.now apart) faults.now) }
{
    for two in faults {
        all.push(try_one(setting, apart, past, singles, two, run)?)?;
    }
    Ok(())
}

// Those of some second faults. A run is made where there are any.
fn try_each(
    setting: &FirstSetting,
    apart: u32,
    past: &SeenRun,
    singles: &[Single],
    faults: &[Event],
) -> Result<Vec<PairResult>, Memory>
    requires may { MayTryPairs setting.now }
    requires past { IsPastRun setting.now.common.list.now setting.now.more.now past.now }
    requires singles { All (IsSingle setting.now.common.list.now setting.now.common.script.now) singles.now }
    requires faults { All (MayStand setting.now.common.list.now setting.now.common.script.now) faults.now }
    ensures { IfOk result (λ all. all.items ≡ map (pair_tried setting.now apart) faults.now) }
{
    let mut all = Vec::new(setting.common.alloc);
    if faults.is_empty() {
        return Ok(all);
    }
    let (list, script) = (setting.common.list, setting.common.script);
    let mut run = SeenRun::new(setting.common.alloc, list, script)?;
    add_each(setting, apart, past, singles, faults, &mut run, &mut all)?;
    Ok(all)
}

/// What is told of the pairs of a first fault and some second ones, so many slots behind it, in their order, by the run with the
/// first one as far as it has come and by what single faults cost. The second ones are halved until there is a part for each of
/// so many threads, and each part is run in a thread of its own, or in this one where the system gives none.
#[cycle(halves)]
#[tactic(auto, using(crate::proofs::Tries::halves_tried))]
pub(crate) fn try_beside<R: Threads + Sync>(
    rt: &R,
    setting: &FirstSetting,
    apart: u32,
    past: &SeenRun,
    singles: &[Single],
    faults: &[Event],
    threads: usize,
) -> Result<Vec<PairResult>, Memory>
    requires may { MayTryPairs setting.now }
    requires past { IsPastRun setting.now.common.list.now setting.now.more.now past.now }
    requires singles { All (IsSingle setting.now.common.list.now setting.now.common.script.now) singles.now }
    requires faults { All (MayStand setting.now.common.list.now setting.now.common.script.now) faults.now }
    ensures { IfOk result (λ all. all.items ≡ map (pair_tried setting.now apart) faults.now) }
{
    if threads < 2 || faults.len() < 2 {
        return try_each(setting, apart, past, singles, faults);
    }
    let (front, back) = faults.split_at(faults.len() / 2);
    let half = threads - threads / 2;
    let try_front = || -> Result<Vec<PairResult>, Memory>
        requires { IsSync R.row × MayTryPairs setting.now × IsPastRun setting.now.common.list.now setting.now.more.now past.now
            × All (IsSingle setting.now.common.list.now setting.now.common.script.now) singles.now
            × All (MayStand setting.now.common.list.now setting.now.common.script.now) front.now }
        ensures { IfOk result (λ all. all.items ≡ map (pair_tried setting.entry.now apart) front.entry.now) }
    { try_beside(rt, setting, apart, past, singles, front, half) };
    let try_back = || -> Result<Vec<PairResult>, Memory>
        requires { IsSync R.row × MayTryPairs setting.now × IsPastRun setting.now.common.list.now setting.now.more.now past.now
            × All (IsSingle setting.now.common.list.now setting.now.common.script.now) singles.now
            × All (MayStand setting.now.common.list.now setting.now.common.script.now) back.now }
        ensures { IfOk result (λ all. all.items ≡ map (pair_tried setting.entry.now apart) back.entry.now) }
    { try_beside(rt, setting, apart, past, singles, back, half) };
    let (first, second) = join(rt, try_front, try_back);
    let mut all = first?;
    let mut rest = second?;
    all.append(&mut rest)?;
    Ok(all)
}
