//! How an entry of a run came about.
ghost use Rattle.causes.specs.Causes.{judged_cause, left_cause, newest_cause};
ghost use Rattle.run_rows.specs.Rows.{past_slots, run_slot};
ghost use Rattle.std.specs.Prelude.{IfOk, length, ◌+◌, ◌<◌, ◌≡◌};

use crate::judged::{correct_cause, denied_cause, tentative_cause};
use crate::listening::{join_cause, off_cause, start_cause, wait_cause};
use crate::missed::missed_cause;
use crate::own::{clique_cause, gone_cause, retry_cause, unacknowledged_cause};
use causes::{Because, Cause};
use run_looks::Sources;
use run_rows::RunRows;
use std::alloc::Global;
use ttp_base::Memory;
use ttp_world::{Entry, Reason, Verdict};

// Of a judgement.
fn judged_cause(
    alloc: Global,
    run: &RunRows,
    node: u8,
    slot: u32,
    verdict: Verdict,
) -> Result<Cause, Memory>
    requires node { node < length run.now.list.slots }
    requires slot { slot < run.now.slots }
    ensures { IfOk result (λ cause. cause ≡ judged_cause node (run_slot run.now slot) (past_slots run.now slot) verdict) }
{
    match verdict {
        Verdict::Correct => correct_cause(alloc, run, node, slot),
        Verdict::Tentative => tentative_cause(alloc, run, node, slot),
        Verdict::Denied => denied_cause(alloc, run, node, slot),
        Verdict::Null => missed_cause(alloc, run, node, slot, Verdict::Null),
        Verdict::Invalid => missed_cause(alloc, run, node, slot, Verdict::Invalid),
        Verdict::Incorrect => missed_cause(alloc, run, node, slot, Verdict::Incorrect),
    }
}

// Of a departure.
fn left_cause(
    alloc: Global,
    run: &RunRows,
    node: u8,
    slot: u32,
    reason: Reason,
) -> Result<Cause, Memory>
    requires node { node < length run.now.list.slots }
    requires slot { slot < run.now.slots }
    ensures { IfOk result (λ cause. cause ≡ left_cause node (run_slot run.now slot) (past_slots run.now slot) reason) }
{
    match reason {
        Reason::Denied => denied_cause(alloc, run, node, slot),
        Reason::Unacknowledged => unacknowledged_cause(alloc, run, node, slot),
        Reason::Clique => clique_cause(alloc, run, node, slot),
    }
}

/// How the entry of a node in a slot of a run came about.
///
/// # Errors
///
/// Where memory was refused.
pub fn cause(alloc: Global, run: &RunRows, slot: u32, node: u8) -> Result<Cause, Memory>
    requires slot { slot < run.now.slots }
    requires node { node < length run.now.list.slots }
    ensures { IfOk result (λ cause. cause ≡ newest_cause node (past_slots run.now (slot + 1))) }
{
    match run.row(slot, node).entry {
        Entry::Off => off_cause(alloc, run, node),
        Entry::Waited => wait_cause(alloc, run, node, slot),
        Entry::Retried => retry_cause(alloc, run, node, slot),
        Entry::Gone => gone_cause(alloc, run, node, slot),
        Entry::Started => start_cause(alloc, run, node, slot),
        Entry::Sent { .. } => Ok(Sources::none(alloc).cause_by(Because::OwnSlot)),
        Entry::Joined { .. } => join_cause(alloc, run, node, slot),
        Entry::Judged { verdict, .. } => judged_cause(alloc, run, node, slot, verdict),
        Entry::Left { reason, .. } => left_cause(alloc, run, node, slot, reason),
    }
}
