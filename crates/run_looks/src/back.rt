//! Back in time: the newest entry of a kind, and what a node judged since its own.
ghost use Rattle.std.specs.Prelude.{◌≡◌, ◌≤◌, ◌<◌, ◌-◌, length, OnOk};
ghost use Rattle.causes.specs.RunSlots.{is_judged_so, judged_since_own, newest_departure, own_slot};
ghost use Rattle.causes.specs.Sources.{only_entries};
ghost use Rattle.run_looks.specs.Added.{AddsSources};
ghost use Rattle.run_looks.specs.Back.{IsBackTo, is_among_verdicts, is_of_kind, judged_in};
ghost use Rattle.run_rows.specs.Rows.{run_slot, past_slots};

use crate::sources::Sources;
use causes::Spot;
use run_rows::RunRows;
use ttp_base::Memory;
use ttp_world::{Entry, Verdict};

/// Kinds of entries.
#[derive(Clone, Copy)]
pub enum Kind {
    /// A start, a join or a frame.
    Own,
    /// A departure.
    Left,
    /// A start or a join.
    Stint,
    /// Any but a wait.
    NotWaited,
}

/// An entry is of a kind.
pub fn is_of(kind: Kind, entry: &Entry) -> bool
    ensures { result ≡ is_of_kind kind entry.now }
{
    match kind {
        Kind::Own => matches!(
            entry,
            Entry::Started | Entry::Sent { .. } | Entry::Joined { .. }
        ),
        Kind::Left => matches!(entry, Entry::Left { .. }),
        Kind::Stint => matches!(entry, Entry::Started | Entry::Joined { .. }),
        Kind::NotWaited => !matches!(entry, Entry::Waited),
    }
}

/// The number of the slot behind a node's newest entry of a kind before a slot; 0 where there is none.
pub fn back_to(run: &RunRows, kind: Kind, node: u8, before: u32) -> u32
    requires node { node < length run.now.list.slots }
    requires before { before ≤ run.now.slots }
    ensures { IsBackTo run.now kind node before result }
{
    let mut at = before;
    while at > 0 && !is_of(kind, &run.row(at - 1, node).entry) {
        at -= 1;
    }
    at
}

/// A node's entry of the newest of so many slots; of slot 0, where there are none.
pub fn newest_spot(node: u8, slots: u32) -> Spot
    ensures { result ≡ record { slot = slots - 1; node = node } }
{
    Spot {
        slot: slots.saturating_sub(1),
        node,
    }
}

/// A node's newest departure before a slot; its entry of slot 0, where it never left.
pub fn newest_departure(run: &RunRows, node: u8, before: u32) -> Spot
    requires node { node < length run.now.list.slots }
    requires before { before ≤ run.now.slots }
    ensures { result ≡ newest_departure node (past_slots run.now before) }
{
    newest_spot(node, back_to(run, Kind::Left, node, before))
}

/// The slot of a node's newest own entry before a slot; 0, where there is none.
pub fn own_slot(run: &RunRows, node: u8, before: u32) -> u32
    requires node { node < length run.now.list.slots }
    requires before { before ≤ run.now.slots }
    ensures { result ≡ own_slot node (past_slots run.now before) }
{
    back_to(run, Kind::Own, node, before).saturating_sub(1)
}

/// Some verdicts.
#[derive(Clone, Copy)]
pub enum Verdicts {
    Correct,
    Tentative,
    Incorrect,
    /// What did not come as it is due.
    Miss,
    MissOrTentative,
    /// What counts as rejected.
    Rejected,
    /// What counts as neither accepted nor rejected.
    Quiet,
}

fn is_among(verdicts: Verdicts, verdict: Verdict) -> bool
    ensures { result ≡ is_among_verdicts verdicts verdict }
{
    match verdicts {
        Verdicts::Correct => verdict == Verdict::Correct,
        Verdicts::Tentative => verdict == Verdict::Tentative,
        Verdicts::Incorrect => verdict == Verdict::Incorrect,
        Verdicts::Miss => matches!(
            verdict,
            Verdict::Null | Verdict::Invalid | Verdict::Incorrect
        ),
        Verdicts::MissOrTentative => matches!(
            verdict,
            Verdict::Null | Verdict::Invalid | Verdict::Incorrect | Verdict::Tentative
        ),
        Verdicts::Rejected => matches!(verdict, Verdict::Invalid | Verdict::Incorrect),
        Verdicts::Quiet => matches!(verdict, Verdict::Null | Verdict::Tentative),
    }
}

/// An entry is a judgement with such a verdict.
pub fn is_judged_so(verdicts: Verdicts, entry: &Entry) -> bool
    ensures { result ≡ is_judged_so (is_among_verdicts verdicts) entry.now }
{
    match entry {
        Entry::Judged { verdict, .. } => is_among(verdicts, *verdict),
        _ => false,
    }
}

// Adds a node's entry of a slot, if it is a judgement with such a verdict.
fn add_judged(
    run: &RunRows,
    verdicts: Verdicts,
    node: u8,
    slot: u32,
    out: &mut Sources,
) -> Result<(), Memory>
    requires node { node < length run.now.list.slots }
    requires slot { slot < run.now.slots }
    ensures { OnOk result (AddsSources out.old out.new (only_entries
        (judged_in (is_among_verdicts verdicts) node (run_slot run.now slot)))) }
{
    if is_judged_so(verdicts, &run.row(slot, node).entry) {
        out.add_entry(Spot { slot, node })?;
    }
    Ok(())
}

/// Adds a node's judgements with such verdicts since its own entry before a slot, the newest first.
///
/// # Errors
///
/// Where memory was refused; some of them may have been added.
pub fn add_judged_since_own(
    run: &RunRows,
    verdicts: Verdicts,
    node: u8,
    before: u32,
    out: &mut Sources,
) -> Result<(), Memory>
    requires node { node < length run.now.list.slots }
    requires before { before ≤ run.now.slots }
    ensures { OnOk result (AddsSources out.old out.new (only_entries
        (judged_since_own (is_among_verdicts verdicts) node (past_slots run.now before)))) }
{
    let mut at = before;
    while at > 0 && !is_of(Kind::Own, &run.row(at - 1, node).entry) {
        at -= 1;
        add_judged(run, verdicts, node, at, out)?;
    }
    Ok(())
}

/// How many judgements with such verdicts a node made since its own entry before a slot.
pub fn count_judged_since_own(run: &RunRows, verdicts: Verdicts, node: u8, before: u32) -> u32
    requires node { node < length run.now.list.slots }
    requires before { before ≤ run.now.slots }
    ensures { result ≡ length (judged_since_own (is_among_verdicts verdicts) node (past_slots run.now before)) }
{
    let mut count = 0;
    let mut at = before;
    while at > 0 && !is_of(Kind::Own, &run.row(at - 1, node).entry) {
        at -= 1;
        if is_judged_so(verdicts, &run.row(at, node).entry) {
            count += 1;
        }
    }
    count
}
