//! A campaign, written.
ghost use Rattle.std.specs.Prelude.{◌≡◌, ◌+◌, ◌<◌, ◌≤◌, ◌^◌, ◌*◌, ℕ, suc, min, nat_le, ◌&&◌, [], ◌∷◌, ◌++◌, List as Items};
ghost use Rattle.std.specs.Prelude.{length, map, Err, IsOk, OnOk, IfOk, IfErr};
ghost use Rattle.ttp_base.specs.Outside.{WroteLines, CutShort};
ghost use Rattle.ttp_world.specs.declared.medl.Medl.{Medl};
ghost use Rattle.ttp_world.specs.declared.script.Event.{Event};
ghost use Rattle.ttp_world.specs.declared.script.Script.{Script};
ghost use Rattle.ttp_world.specs.declared.script.TheConstants.{EVENT_LIMIT};
ghost use Rattle.ttp_world.specs.Medl.{IsValid};
ghost use Rattle.ttp_world.specs.Script.{IsValidScript};
ghost use Rattle.campaign.specs.CostText.{cost_words};
ghost use Rattle.campaign.specs.Lines.{Summary, summary, own_line, campaign_lines};
ghost use Rattle.campaign.specs.declared.cost.Cost.{Cost};
ghost use Rattle.campaign.specs.Tried.{row_of};
ghost use Rattle.ttp_world.specs.ZerosWorld.{zeros_world};
ghost use Rattle.fault_runs.specs.declared.put.CampaignFault.TheVariants as fault;
ghost use Rattle.fault_runs.specs.Ends.{LeftBy, LeftFewerBy, WroteFewer};
ghost use Rattle.fault_runs.specs.Runs.{entries_of, fault_lines, front_lines, end_lines};
ghost use Rattle.fault_runs.specs.Runs.{most_tried, HasAtMost, AreCountsOf, IsTallyOf};
ghost use Rattle.fault_runs.specs.Merging.{IsWholeRun};
ghost use Rattle.fault_runs.specs.Tries.{MayTry, IsOwnAfter, tried_at, all_tried, tried_of, tried_lines};

use crate::own::OwnRun;
use crate::tally::Tally;
use crate::tried::{CampaignSetting, Tried, form_words, try_beside};
use crate::whole::{WholeRun, whole_of};
use campaign::Cost;
use single_faults::faults_in;
use std::alloc::Global;
use std::thread::Threads;
use ttp_base::{GrowingText, List, Memory, Sink};
use ttp_world::{Entry, Event, Medl, NodeState, Script};

/// Why a campaign was not written whole.
#[derive(Clone, Copy, PartialEq, Eq)]
pub enum CampaignFault {
    /// The sink's count of faults rose.
    Failed,
    /// Memory was refused.
    Memory,
}

// Writes the line that was to be formed, if it was.
fn put_formed<K: Sink>(
    formed: Result<(), Memory>,
    tally: &Tally,
    out: &mut K,
) -> Result<(), CampaignFault>
    ensures ok { (line : Items ℕ) → OnOk formed (tally.now.line ≡ line)
        → OnOk result (WroteLines (K.output out.old) (K.output out.new) (line ∷ [])) }
    ensures err { (line : Items ℕ) → OnOk formed (tally.now.line ≡ line)
        → IfErr result (λ why. LeftFewerBy why (K.output out.old) (K.output out.new) (line ∷ [])) }
    ensures formed { OnOk result (IsOk formed) }
{
    match formed {
        Ok(()) => match out.write(tally.line.bytes()) {
            Ok(()) => Ok(()),
            Err(_) => Err(CampaignFault::Failed),
        },
        Err(_) => Err(CampaignFault::Memory),
    }
}

// Counts the run of one fault, and writes its line.
fn put_tried<K: Sink>(tried: &Tried, tally: &mut Tally, out: &mut K) -> Result<(), CampaignFault>
    requires few { HasAtMost (2 ^ 62) tally.old }
    ensures told { (list : Medl) (script : Script) (faults : Items Event) (fault : Event)
        → tried.now ≡ tried_of list script fault → IsTallyOf list script faults tally.old
        → IsTallyOf list script (faults ++ fault ∷ []) tally.new }
    ensures few { (most : ℕ) → HasAtMost most tally.old → HasAtMost (most + 1) tally.new }
    ensures ok { OnOk result (WroteLines (K.output out.old) (K.output out.new) (tried.now.line ∷ [])) }
    ensures err { IfErr result
        (λ why. LeftBy why (K.output out.old) (K.output out.new) (tried.now.line ∷ [])) }
{
    tally.count(tried);
    match out.write(tried.line.bytes()) {
        Ok(()) => Ok(()),
        Err(_) => Err(CampaignFault::Failed),
    }
}

// Counts the runs of a slot's faults, and writes their lines.
fn put_all<K: Sink>(
    all: &[Tried],
    slot: u32,
    tally: &mut Tally,
    out: &mut K,
) -> Result<(), CampaignFault>
    requires count { length all.now ≤ most_tried }
    requires few { HasAtMost (most_tried * slot) tally.old }
    ensures told { (list : Medl) (script : Script) (before faults : Items Event)
        → all.now ≡ map (tried_of list script) faults → IsTallyOf list script before tally.old
        → OnOk result (IsTallyOf list script (before ++ faults) tally.new) }
    ensures few { OnOk result (HasAtMost (most_tried * (slot + 1)) tally.new) }
    ensures ok { OnOk result (WroteLines (K.output out.old) (K.output out.new) (tried_lines all.now)) }
    ensures err { IfErr result
        (λ why. LeftBy why (K.output out.old) (K.output out.new) (tried_lines all.now)) }
{
    for tried in all {
        if let Err(why) = put_tried(tried, tally, out) {
            return Err(why);
        }
    }
    Ok(())
}

/// What each node did, by what is shown of it.
///
/// # Errors
///
/// Where memory was refused.
pub fn row_of(alloc: Global, states: &[NodeState]) -> Result<List<Entry>, Memory>
    ensures { IfOk result (λ row. row ≡ entries_of states.now) }
{
    let mut row = List::new(alloc);
    for state in states {
        row.push(state.entry)?;
    }
    Ok(row)
}

// Whether a slot is in the range.
fn is_in_range(first: u32, last: u32, slot: u32) -> bool
    ensures { result ≡ (nat_le first slot && nat_le slot last) }
{
    first <= slot && slot <= last
}

// The faults that are tried in a slot, by what each node does in it: none where it is not in the range.
fn tried_in(common: &CampaignSetting, row: &[Entry], slot: u32) -> Result<List<Event>, Memory>
    requires may { MayTry common.now }
    requires slot { slot < common.now.script.now.slots }
    requires row { row.now
        ≡ row_of (zeros_world common.now.list.now common.now.script.now common.now.script.now.slots) slot }
    ensures { IfOk result (λ faults. faults ≡ tried_at common.now slot) }
{
    if is_in_range(common.first, common.last, slot) {
        return faults_in(common.alloc, common.list, common.script, row, slot);
    }
    Ok(List::new(common.alloc))
}

// The next slot of the script's own run, and the runs of its faults.
fn put_slot<R: Threads + Sync, K: Sink>(
    rt: &R,
    common: &CampaignSetting,
    own: &mut OwnRun,
    slot: u32,
    tally: &mut Tally,
    out: &mut K,
) -> Result<(), CampaignFault>
    requires may { MayTry common.now }
    requires slot { slot < common.now.script.now.slots }
    requires run { IsOwnAfter own.old common.now.list.now common.now.script.now slot }
    requires few { HasAtMost (most_tried * slot) tally.old }
    ensures run { IsOwnAfter own.new common.now.list.now common.now.script.now (slot + 1) }
    ensures told { (before : Items Event) → IsTallyOf common.now.list.now common.now.script.now before tally.old
        → OnOk result (IsTallyOf common.now.list.now common.now.script.now (before ++ tried_at common.now slot) tally.new) }
    ensures few { OnOk result (HasAtMost (most_tried * (slot + 1)) tally.new) }
    ensures ok { OnOk result (WroteLines (K.output out.old) (K.output out.new)
        (fault_lines common.now.list.now common.now.script.now (tried_at common.now slot))) }
    ensures err { IfErr result (λ why. LeftBy why (K.output out.old) (K.output out.new)
        (fault_lines common.now.list.now common.now.script.now (tried_at common.now slot))) }
{
    own.step(common.list, common.script, slot);
    let Ok(row) = row_of(common.alloc, own.states(common.list)) else {
        return Err(CampaignFault::Memory);
    };
    let row = row.as_slice();
    let Ok(faults) = tried_in(common, row, slot) else {
        return Err(CampaignFault::Memory);
    };
    let (past, faults, threads) = (&own.before, faults.as_slice(), common.threads);
    let Ok(all) = try_beside(rt, common, past, row, slot, faults, threads) else {
        return Err(CampaignFault::Memory);
    };
    put_all(all.as_slice(), slot, tally, out)
}

// The slot behind the last one of the range that the script has.
fn end_of(script: &Script, last: u32) -> u32
    ensures { result ≡ min (suc last) script.now.slots }
{
    if last < script.slots {
        last + 1
    } else {
        script.slots
    }
}

// The runs of all faults, by the script's own run, which has not begun, and goes no further than the range.
fn put_slots<R: Threads + Sync, K: Sink>(
    rt: &R,
    common: &CampaignSetting,
    own: &mut OwnRun,
    tally: &mut Tally,
    out: &mut K,
) -> Result<(), CampaignFault>
    requires may { MayTry common.now }
    requires run { IsOwnAfter own.old common.now.list.now common.now.script.now 0 }
    requires few { HasAtMost 0 tally.old }
    requires told { IsTallyOf common.now.list.now common.now.script.now [] tally.old }
    ensures told { OnOk result (IsTallyOf common.now.list.now common.now.script.now (all_tried common.now) tally.new) }
    ensures ok { OnOk result (WroteLines (K.output out.old) (K.output out.new)
        (fault_lines common.now.list.now common.now.script.now (all_tried common.now))) }
    ensures err { IfErr result (λ why. LeftBy why (K.output out.old) (K.output out.new)
        (fault_lines common.now.list.now common.now.script.now (all_tried common.now))) }
{
    for slot in 0..end_of(common.script, common.last) {
        if let Err(why) = put_slot(rt, common, own, slot, tally, out) {
            return Err(why);
        }
    }
    Ok(())
}

// The head, and the line of the script's own run.
fn put_front<K: Sink>(
    common: &CampaignSetting,
    tally: &mut Tally,
    out: &mut K,
) -> Result<(), CampaignFault>
    requires may { MayTry common.now }
    requires told { IsTallyOf common.now.list.now common.now.script.now [] tally.old }
    requires few { HasAtMost 0 tally.old }
    ensures told { OnOk result (IsTallyOf common.now.list.now common.now.script.now [] tally.new) }
    ensures few { OnOk result (HasAtMost 0 tally.new) }
    ensures ok { OnOk result (WroteLines (K.output out.old) (K.output out.new)
        (front_lines common.now.list.now common.now.script.now common.now.first common.now.last)) }
    ensures err { IfErr result (λ why. LeftFewerBy why (K.output out.old) (K.output out.new)
        (front_lines common.now.list.now common.now.script.now common.now.first common.now.last)) }
{
    let formed = tally.form_head(common);
    if let Err(why) = put_formed(formed, tally, out) {
        return Err(why);
    }
    let formed = tally.form_own(common.list, common.script, common.own);
    put_formed(formed, tally, out)
}

// The lines of counts.
fn put_end<K: Sink>(tally: &mut Tally, out: &mut K) -> Result<(), CampaignFault>
    ensures ok { (list : Medl) (own : Cost) (runs : Items Summary) → AreCountsOf list own runs tally.old
        → OnOk result (WroteLines (K.output out.old) (K.output out.new) (end_lines list own runs)) }
    ensures err { (list : Medl) (own : Cost) (runs : Items Summary) → AreCountsOf list own runs tally.old
        → IfErr result (λ why. LeftFewerBy why (K.output out.old) (K.output out.new) (end_lines list own runs)) }
{
    let formed = tally.form_kept();
    if let Err(why) = put_formed(formed, tally, out) {
        return Err(why);
    }
    let formed = tally.form_broken();
    put_formed(formed, tally, out)
}

// All lines, by the script's own run, which has not begun.
fn put_lines<R: Threads + Sync, K: Sink>(
    rt: &R,
    common: &CampaignSetting,
    own: &mut OwnRun,
    out: &mut K,
) -> Result<(), CampaignFault>
    requires may { MayTry common.now }
    requires run { IsOwnAfter own.old common.now.list.now common.now.script.now 0 }
    ensures ok { OnOk result (WroteLines (K.output out.old) (K.output out.new)
        (campaign_lines common.now.list.now common.now.script.now common.now.first common.now.last)) }
    ensures err { IfErr result (λ why. LeftFewerBy why (K.output out.old) (K.output out.new)
        (campaign_lines common.now.list.now common.now.script.now common.now.first common.now.last)) }
{
    let mut tally = Tally::new(common.alloc);
    if let Err(why) = put_front(common, &mut tally, out) {
        return Err(why);
    }
    if let Err(why) = put_slots(rt, common, own, &mut tally, out) {
        return Err(why);
    }
    put_end(&mut tally, out)
}

// The words of what a run costs.
fn words_of(alloc: Global, list: &Medl, cost: &Cost) -> Result<GrowingText, Memory>
    requires valid { IsValid list.now }
    requires cost { (script : Script) × (cost.now ≡ (summary list.now script).cost) }
    ensures { IfOk result (λ words. words ≡ cost_words list.now cost.now) }
{
    let mut words = GrowingText::new(alloc);
    form_words(list, cost, &mut words)?;
    Ok(words)
}

// What the script's own run came to, and the words of what it costs.
fn own_whole(alloc: Global, list: &Medl, script: &Script) -> Result<(WholeRun, GrowingText), Memory>
    requires valid { IsValid list.now }
    requires script { IsValidScript list.now script.now }
    ensures whole { IfOk result (λ own. IsWholeRun list.now script.now own.0) }
    ensures words { IfOk result (λ own. own.1 ≡ cost_words list.now (summary list.now script.now).cost) }
{
    let whole = whole_of(alloc, list, script)?;
    let words = words_of(alloc, list, &whole.cost)?;
    Ok((whole, words))
}

/// Writes the line of the script's own run alone, as a campaign has it. It runs the cluster once.
///
/// # Errors
///
/// As of [`put_campaign`]: the line was cut short, or nothing was written.
pub fn put_own_line<K: Sink>(
    alloc: Global,
    list: &Medl,
    script: &Script,
    out: &mut K,
) -> Result<(), CampaignFault>
    requires valid { IsValid list.now }
    requires script { IsValidScript list.now script.now }
    requires room { length script.now.events < EVENT_LIMIT }
    ensures ok { OnOk result (WroteLines (K.output out.old) (K.output out.new)
        (own_line list.now (summary list.now script.now) ∷ [])) }
    ensures err { IfErr result (λ why. LeftFewerBy why (K.output out.old) (K.output out.new)
        (own_line list.now (summary list.now script.now) ∷ [])) }
{
    let Ok(own) = own_whole(alloc, list, script) else {
        return Err(CampaignFault::Memory);
    };
    let (_, words) = own;
    let mut tally = Tally::new(alloc);
    let formed = tally.form_own(list, script, words.bytes());
    put_formed(formed, &tally, out)
}

/// Writes the campaign of a script over the slots of a range, each line as one piece. Slots that the script
/// does not have are passed over.
///
/// A campaign of n lines runs the cluster n times, each time from the slot of the fault to the script's last one, or that
/// one slot alone where a loss in it changes nothing that a node does and the own run is settled behind it. The own run
/// is made once to its end, for its line, and once to the end of the range. The test of each script goes over all slots.
/// The runs of a slot are made in as many threads as are asked for, rounded up to a power of two; with 0 or 1 they are
/// made in this one, and [`crate::processors`] says how many are of use. What is written is the same. Between two slots it
/// keeps the script's own run; the lines of a slot are held until all of its runs were made.
///
/// # Errors
///
/// `Failed` where the sink's count of faults rose: then the text is cut short. `Memory` where memory was
/// refused: then some of its first lines were written, and never all. What the script's own run takes is
/// taken before the first line.
pub fn put_campaign<R: Threads + Sync, K: Sink>(
    rt: &R,
    alloc: Global,
    list: &Medl,
    script: &Script,
    first: u32,
    last: u32,
    threads: usize,
    out: &mut K,
) -> Result<(), CampaignFault>
    requires valid { IsValid list.now }
    requires script { IsValidScript list.now script.now }
    requires room { length script.now.events < EVENT_LIMIT }
    ensures ok { OnOk result
        (WroteLines (K.output out.old) (K.output out.new) (campaign_lines list.now script.now first last)) }
    ensures failed { result ≡ Err fault.Failed
        → CutShort (K.output out.old) (K.output out.new) (campaign_lines list.now script.now first last) }
    ensures memory { result ≡ Err fault.Memory
        → WroteFewer (K.output out.old) (K.output out.new) (campaign_lines list.now script.now first last) }
{
    let Ok(own) = own_whole(alloc, list, script) else {
        return Err(CampaignFault::Memory);
    };
    let (whole, words) = own;
    let Ok(mut own) = OwnRun::new(alloc, list, script) else {
        return Err(CampaignFault::Memory);
    };
    let common = CampaignSetting {
        alloc,
        list,
        script,
        first,
        last,
        threads,
        own: words.bytes(),
        settled: whole.settled,
        end: whole.cost.end.as_slice(),
    };
    put_lines(rt, &common, &mut own, out)
}
