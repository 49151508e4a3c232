//! The run of a fault, which is the script's own where the fault changes nothing that a node does.
ghost use Rattle.std.specs.Prelude.{◌≡◌, ℕ, ◌+◌, ◌<◌, ◌≤◌, true, length, IfOk, OnOk};
ghost use Rattle.ttp_world.specs.Diary.{entry_of};
ghost use Rattle.ttp_world.specs.Medl.{IsValid};
ghost use Rattle.ttp_world.specs.Script.{IsValidScript};
ghost use Rattle.campaign.specs.Lines.{summary};
ghost use Rattle.campaign.specs.Tried.{with_fault};
ghost use Rattle.run_costs.specs.Standing.{IsRunOfList, IsSeenAfter};
ghost use Rattle.run_costs.specs.States.{state_at};
ghost use Rattle.fault_runs.specs.Merging.{is_loss_in, is_waiting, IsSameDeed, IsOwnIn};
ghost use Rattle.fault_runs.specs.Tries.{MayTry};

use crate::tried::CampaignSetting;
use campaign::Cost;
use run_costs::{SeenRun, cost_from};
use std::alloc::Global;
use ttp_base::{List, Memory, NodeSet};
use ttp_world::{Entry, Event, Medl, NodeState, Script};

// Whether an event loses frames in this slot alone.
fn is_loss_in(slot: u32, event: &Event) -> bool
    ensures { result ≡ is_loss_in slot event.now }
{
    match event {
        Event::Send { from, to, .. } | Event::Receive { from, to, .. } => {
            *from == slot && *to == slot
        }
        _ => false,
    }
}

// Whether a node listened and did not join.
fn is_waiting(entry: &Entry) -> bool
    ensures { result ≡ is_waiting entry.now }
{
    matches!(entry, Entry::Waited)
}

// Whether both are the same message, or none.
fn is_same_message(one: Option<u64>, other: Option<u64>) -> bool
    ensures { result ≡ true → one ≡ other }
{
    match (one, other) {
        (Some(one), Some(other)) => one == other,
        (None, None) => true,
        _ => false,
    }
}

// Whether two entries are the same, of a node that is off or has left, or is active and stays so.
fn is_same(one: &Entry, other: &Entry) -> bool
    ensures { result ≡ true → one.now ≡ other.now }
{
    match (one, other) {
        (Entry::Off, Entry::Off) | (Entry::Gone, Entry::Gone) => true,
        (Entry::Sent { message }, Entry::Sent { message: other }) => {
            is_same_message(*message, *other)
        }
        (
            Entry::Judged {
                sender,
                verdict,
                deviation,
            },
            Entry::Judged {
                sender: s,
                verdict: v,
                deviation: d,
            },
        ) => *sender == *s && *verdict == *v && *deviation == *d,
        _ => false,
    }
}

// Whether a node did the same in both slots, and did not wait.
fn is_same_deed(one: &Entry, other: &Entry) -> bool
    ensures { result ≡ true → IsSameDeed one.now other.now }
{
    if is_waiting(one) {
        return false;
    }
    is_same(one, other)
}

// Whether each node did what stands in a row.
fn did_same(states: &[NodeState], row: &[Entry]) -> bool
    requires { length states.now ≡ length row.now }
    ensures { result ≡ true → (k : ℕ) → k < length states.now
        → IsSameDeed (state_at states.now k).entry (entry_of row.now k) }
{
    for k in 0..states.len() {
        if !is_same_deed(&states[k].entry, &row[k]) {
            return false;
        }
    }
    true
}

// A cost with these memberships left.
fn with_end(alloc: Global, cost: Cost, end: &[NodeSet]) -> Result<Cost, Memory>
    ensures { IfOk result (λ all. all ≡ record cost { end = end.now }) }
{
    let Ok(end) = Vec::from_slice(alloc, end) else {
        return Err(Memory);
    };
    Ok(Cost {
        left: cost.left,
        hurt: cost.hurt,
        split: cost.split,
        end: List::from_vec(end),
    })
}

// What a run costs that has come to this slot.
fn cost_on(
    alloc: Global,
    list: &Medl,
    script: &Script,
    slot: u32,
    run: &mut SeenRun,
) -> Result<Cost, Memory>
    requires valid { IsValid list.now }
    requires script { IsValidScript list.now script.now }
    requires slot { slot ≤ script.now.slots }
    requires run { IsSeenAfter run.old list.now script.now slot }
    ensures cost { IfOk result (λ cost. cost ≡ (summary list.now script.now).cost) }
    ensures run { IsRunOfList run.new.run list.now }
{
    for next in slot..script.slots {
        run.step(list, script, next);
    }
    run.cost(alloc, list)
}

// Whether an event loses frames in this slot alone, and the own run, which is settled from another on, is so behind it.
fn may_merge(slot: u32, event: &Event, settled: u32) -> bool
    ensures loss { result ≡ true → is_loss_in slot event.now ≡ true }
    ensures settled { result ≡ true → settled ≤ slot + 1 }
{
    is_loss_in(slot, event) && settled.saturating_sub(1) <= slot
}

// What the run of a script with a loss in this slot alone costs, by the script's own run, which is settled behind it.
fn cost_merged(
    common: &CampaignSetting,
    event: &Event,
    more: &Script,
    past: &SeenRun,
    row: &[Entry],
    slot: u32,
    run: &mut SeenRun,
) -> Result<Cost, Memory>
    requires may { MayTry common.now }
    requires script { IsValidScript common.now.list.now more.now }
    requires more { more.now ≡ with_fault common.now.script.now event.now }
    requires loss { is_loss_in slot event.now ≡ true }
    requires settled { common.now.settled ≤ slot + 1 }
    requires own { IsOwnIn common.now.list.now common.now.script.now slot past.now row.now }
    requires run { IsRunOfList run.old.run common.now.list.now }
    ensures cost { IfOk result (λ cost. cost ≡ (summary common.now.list.now more.now).cost) }
    ensures run { OnOk result (IsRunOfList run.new.run common.now.list.now) }
{
    let (alloc, list) = (common.alloc, common.list);
    run.go_on_from(past, list, more, event);
    run.step(list, more, slot);
    if did_same(run.states(list), row) {
        let cost = run.cost(alloc, list)?;
        return with_end(alloc, cost, common.end);
    }
    cost_on(alloc, list, more, slot + 1, run)
}

/// What the run of a script with one event more costs, `more`, by the script's own run before a slot, `past`, and what each
/// node does in that slot, `row`. Of a loss in this slot alone, in which no node does anything else than in the own run,
/// that one slot is run, where the own run is settled behind it: the rest is the same. Of another event that begins in
/// this slot or later, the slots from this one on are run, in `run`.
///
/// # Errors
///
/// Where memory was refused.
pub(crate) fn cost_beside(
    common: &CampaignSetting,
    event: &Event,
    more: &Script,
    past: &SeenRun,
    row: &[Entry],
    slot: u32,
    run: &mut SeenRun,
) -> Result<Cost, Memory>
    requires may { MayTry common.now }
    requires script { IsValidScript common.now.list.now more.now }
    requires more { more.now ≡ with_fault common.now.script.now event.now }
    requires own { IsOwnIn common.now.list.now common.now.script.now slot past.now row.now }
    requires run { IsRunOfList run.old.run common.now.list.now }
    ensures cost { IfOk result (λ cost. cost ≡ (summary common.now.list.now more.now).cost) }
    ensures run { OnOk result (IsRunOfList run.new.run common.now.list.now) }
{
    if may_merge(slot, event, common.settled) {
        return cost_merged(common, event, more, past, row, slot, run);
    }
    let (alloc, list, script) = (common.alloc, common.list, common.script);
    cost_from(alloc, list, script, event, more, past, run)
}
