//! The runs of faults, side by side.
ghost use Rattle.std.specs.Prelude.{◌≡◌, ◌<◌, [], map, All, IfOk, OnOk};
ghost use Rattle.std.specs.Thread.{IsSync};
ghost use Rattle.ttp_world.specs.Medl.{IsValid};
ghost use Rattle.ttp_world.specs.Script.{IsValidScript};
ghost use Rattle.campaign.specs.declared.cost.Cost.{Cost};
ghost use Rattle.campaign.specs.Cost.{says_yes};
ghost use Rattle.campaign.specs.CostText.{cost_words};
ghost use Rattle.campaign.specs.Lines.{fault_line};
ghost use Rattle.campaign.specs.Tried.{with_fault};
ghost use Rattle.fault_runs.specs.Listing.{in_order};
ghost use Rattle.fault_runs.specs.Told.{told_summary};
ghost use Rattle.single_faults.specs.Tried.{MayStand};
ghost use Rattle.run_costs.specs.Standing.{IsRunOfList};
ghost use Rattle.fault_runs.specs.Merging.{IsOwnIn};
ghost use Rattle.fault_runs.specs.Tries.{MayTry, tried_of};

use crate::campaign_text::{put_cost, put_run};
use crate::merged::cost_beside;
use campaign::Cost;
use run_costs::SeenRun;
use single_faults::laws::more_is_valid;
use single_faults::with_fault;
use std::alloc::Global;
use std::thread::{Threads, available_parallelism, join};
use ttp_base::{GrowingText, Memory, NodeSet};
use ttp_world::{Entry, Event, Medl, Script};

/// What all runs of a campaign read.
#[derive(Clone, Copy)]
pub(crate) struct CampaignSetting<'a> {
    pub(crate) alloc: Global,
    pub(crate) list: &'a Medl,
    pub(crate) script: &'a Script,
    /// The first and the last slot of the range.
    pub(crate) first: u32,
    pub(crate) last: u32,
    /// In how many threads the runs of a slot are made.
    pub(crate) threads: usize,
    /// The words of what the script's own run costs.
    pub(crate) own: &'a [u8],
    /// From which slot on that run is settled.
    pub(crate) settled: u32,
    /// The memberships that are left in it.
    pub(crate) end: &'a [NodeSet],
}

/// The run of a script with one fault more: its line, and what is counted of it.
#[derive(Drop)]
pub(crate) struct Tried {
    pub(crate) line: GrowingText,
    pub(crate) yes: bool,
    pub(crate) cost: Cost,
    /// Whether it costs what the script's own run does.
    pub(crate) is_same: bool,
}

/// The words of a cost, in place of those that were there.
pub(crate) fn form_words(list: &Medl, cost: &Cost, words: &mut GrowingText) -> Result<(), Memory>
    requires valid { IsValid list.now }
    requires hurt { in_order cost.now.hurt ≡ cost.now.hurt }
    ensures { OnOk result (words.new ≡ cost_words list.now cost.now) }
{
    words.clear();
    put_cost(words, list, cost)
}

// The line of a fault, with these words of what the run of its script cost, and whether the test of that script says yes.
fn line_of(
    alloc: Global,
    list: &Medl,
    more: &Script,
    fault: &Event,
    words: &[u8],
) -> Result<(GrowingText, bool), Memory>
    requires valid { IsValid list.now }
    requires script { IsValidScript list.now more.now }
    ensures line { (cost : Cost) → words.now ≡ cost_words list.now cost
        → IfOk result (λ shown. shown.0 ≡ fault_line list.now fault.now (told_summary list.now more.now cost)) }
    ensures yes { IfOk result (λ shown. shown.1 ≡ says_yes list.now more.now) }
{
    let mut line = GrowingText::new(alloc);
    let yes = put_run(&mut line, list, more, fault, words)?;
    Ok((line, yes))
}

// The run of a fault, whose script this is.
fn try_more(
    common: &CampaignSetting,
    past: &SeenRun,
    row: &[Entry],
    slot: u32,
    fault: &Event,
    more: &Script,
    words: &mut GrowingText,
    run: &mut SeenRun,
) -> Result<Tried, Memory>
    requires may { MayTry common.now }
    requires own { IsOwnIn common.now.list.now common.now.script.now slot past.now row.now }
    requires more { more.now ≡ with_fault common.now.script.now fault.now }
    requires script { IsValidScript common.now.list.now more.now }
    requires run { IsRunOfList run.old.run common.now.list.now }
    ensures tried { IfOk result (λ tried. tried ≡ tried_of common.now.list.now common.now.script.now fault.now) }
    ensures run { OnOk result (IsRunOfList run.new.run common.now.list.now) }
{
    let list = common.list;
    let cost = cost_beside(common, fault, more, past, row, slot, run)?;
    form_words(list, &cost, words)?;
    let shown = line_of(common.alloc, list, more, fault, words.bytes())?;
    let is_same = common.own == words.bytes();
    let (line, yes) = shown;
    Ok(Tried {
        line,
        yes,
        cost,
        is_same,
    })
}

// The run of a fault, by the script's own run before its slot and what each node does in that slot. Its cost is formed in
// `words`, and it is made in `run`.
fn try_one(
    common: &CampaignSetting,
    past: &SeenRun,
    row: &[Entry],
    slot: u32,
    fault: &Event,
    words: &mut GrowingText,
    run: &mut SeenRun,
) -> Result<Tried, Memory>
    requires may { MayTry common.now }
    requires own { IsOwnIn common.now.list.now common.now.script.now slot past.now row.now }
    requires fault { MayStand common.now.list.now common.now.script.now fault.now }
    requires run { IsRunOfList run.old.run common.now.list.now }
    ensures tried { IfOk result (λ tried. tried ≡ tried_of common.now.list.now common.now.script.now fault.now) }
    ensures run { OnOk result (IsRunOfList run.new.run common.now.list.now) }
{
    more_is_valid(common.list, common.script, fault);
    let more = with_fault(common.alloc, common.script, fault)?;
    try_more(common, past, row, slot, fault, &more, words, run)
}

// Adds those of some faults, one after another.
fn add_each(
    common: &CampaignSetting,
    past: &SeenRun,
    row: &[Entry],
    slot: u32,
    faults: &[Event],
    words: &mut GrowingText,
    run: &mut SeenRun,
    all: &mut Vec<Tried>,
) -> Result<(), Memory>
    requires may { MayTry common.now }
    requires own { IsOwnIn common.now.list.now common.now.script.now slot past.now row.now }
    requires faults { All (MayStand common.now.list.now common.now.script.now) faults.now }
    requires run { IsRunOfList run.old.run common.now.list.now }
    requires none { all.old.items ≡ [] }
    ensures { OnOk result (all.new.items ≡ map (tried_of common.now.list.now common.now.script.now) faults.now) }
{
    for fault in faults {
        all.push(try_one(common, past, row, slot, fault, words, run)?)?;
    }
    Ok(())
}

// Adds those of some faults, made in one run after another.
fn add_all(
    common: &CampaignSetting,
    past: &SeenRun,
    row: &[Entry],
    slot: u32,
    faults: &[Event],
    all: &mut Vec<Tried>,
) -> Result<(), Memory>
    requires may { MayTry common.now }
    requires own { IsOwnIn common.now.list.now common.now.script.now slot past.now row.now }
    requires faults { All (MayStand common.now.list.now common.now.script.now) faults.now }
    requires none { all.old.items ≡ [] }
    ensures { OnOk result (all.new.items ≡ map (tried_of common.now.list.now common.now.script.now) faults.now) }
{
    let mut words = GrowingText::new(common.alloc);
    let mut run = SeenRun::new(common.alloc, common.list, common.script)?;
    add_each(common, past, row, slot, faults, &mut words, &mut run, all)
}

// Those of some faults. A run is made where there are any.
fn try_each(
    common: &CampaignSetting,
    past: &SeenRun,
    row: &[Entry],
    slot: u32,
    faults: &[Event],
) -> Result<Vec<Tried>, Memory>
    requires may { MayTry common.now }
    requires own { IsOwnIn common.now.list.now common.now.script.now slot past.now row.now }
    requires faults { All (MayStand common.now.list.now common.now.script.now) faults.now }
    ensures { IfOk result (λ all. all.items ≡ map (tried_of common.now.list.now common.now.script.now) faults.now) }
{
    let mut all = Vec::new(common.alloc);
    if faults.is_empty() {
        return Ok(all);
    }
    add_all(common, past, row, slot, faults, &mut all)?;
    Ok(all)
}

/// Those of some faults of a slot, in their order, by the script's own run before it and what each node does in it. They
/// are halved until there is a part for each of so many threads, and each part is run in a thread of its own, or in this
/// one where the system gives none.
#[cycle(halves)]
#[tactic(auto, using(crate::proofs::Tries::halves_tried))]
pub(crate) fn try_beside<R: Threads + Sync>(
    rt: &R,
    common: &CampaignSetting,
    past: &SeenRun,
    row: &[Entry],
    slot: u32,
    faults: &[Event],
    threads: usize,
) -> Result<Vec<Tried>, Memory>
    requires may { MayTry common.now }
    requires own { IsOwnIn common.now.list.now common.now.script.now slot past.now row.now }
    requires faults { All (MayStand common.now.list.now common.now.script.now) faults.now }
    ensures { IfOk result (λ all. all.items ≡ map (tried_of common.now.list.now common.now.script.now) faults.now) }
{
    if threads < 2 || faults.len() < 2 {
        return try_each(common, past, row, slot, faults);
    }
    let (front, back) = faults.split_at(faults.len() / 2);
    let half = threads - threads / 2;
    let try_front = || -> Result<Vec<Tried>, Memory>
        requires { IsSync R.row × MayTry common.now × IsOwnIn common.now.list.now common.now.script.now slot past.now row.now
            × All (MayStand common.now.list.now common.now.script.now) front.now }
        ensures { IfOk result (λ all. all.items
            ≡ map (tried_of common.entry.now.list.now common.entry.now.script.now) front.entry.now) }
    { try_beside(rt, common, past, row, slot, front, half) };
    let try_back = || -> Result<Vec<Tried>, Memory>
        requires { IsSync R.row × MayTry common.now × IsOwnIn common.now.list.now common.now.script.now slot past.now row.now
            × All (MayStand common.now.list.now common.now.script.now) back.now }
        ensures { IfOk result (λ all. all.items
            ≡ map (tried_of common.entry.now.list.now common.entry.now.script.now) back.entry.now) }
    { try_beside(rt, common, past, row, slot, back, half) };
    let (first, second) = join(rt, try_front, try_back);
    let mut all = first?;
    let mut rest = second?;
    all.append(&mut rest)?;
    Ok(all)
}

/// How many processors there are for threads; one, where nobody knows.
pub fn processors(rt: &impl Threads) -> usize
    ensures { 0 < result }
{
    match available_parallelism(rt) {
        Ok(count) => count.get(),
        Err(_) => 1,
    }
}
