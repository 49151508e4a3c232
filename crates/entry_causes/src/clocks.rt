//! The causes of a frame that came outside the window.
ghost use Rattle.causes.specs.Clocks.{clock_reason, clock_taken, comes_on, error_lines, is_outside, is_unread};
ghost use Rattle.causes.specs.Clocks.{jumps_borne, noted_clock, outside_drift_lines, sender_or, spots_joined};
ghost use Rattle.causes.specs.Clocks.{stint_join, unread_entries};
ghost use Rattle.causes.specs.RunSlots.{back_to, entry_in_slot};
ghost use Rattle.causes.specs.Sources.{has_sources, only_entries, only_lines, sources_of};
ghost use Rattle.entry_causes.specs.Hearing.{joined_shown};
ghost use Rattle.entry_causes.specs.Notes.{both_noted, entries_noted, both_jumps, notes_noted, outside_lines};
ghost use Rattle.entry_causes.specs.Notes.{two_noted, unread_in};
ghost use Rattle.run_looks.specs.Added.{AddsSources};
ghost use Rattle.run_rows.specs.Rows.{past_slots, run_slot};
ghost use Rattle.std.specs.Option.{option_map};
ghost use Rattle.std.specs.Prelude.{IfOk, IfSome, OnOk, [], if◌then◌else◌, length, nat_le, not, ℕ, pos, take, ◌&&◌, ◌++◌, ◌-◌, ◌<◌, ◌==◌, ◌||◌, ◌∷◌, ◌≡◌};
ghost use Rattle.std.specs.Prelude.{◌≤ℤ◌, ◌≤◌};
ghost use Rattle.ttp_world.proofs.Places.{IsOfList};
ghost use Rattle.ttp_world.specs.Diary.{begins_stint};

use crate::bus::{JoinedFrame, frame_joined};
use crate::listening::join_cause;
use crate::places::{place_slot, slot_behind};
use crate::said::joins;
use crate::view::deviation_in;
use causes::{Cause, ClockNote, Miss, ScriptLine, Spot};
use run_looks::{Kind, Question, Sources, Verdicts, add_lines, back_to, is_judged_so};
use run_rows::RunRows;
use std::alloc::Global;
use ttp_base::{List, Memory};
use ttp_world::{Entry, Medl};

// The sender of the frame on which a node joined, or the node itself.
fn sender_or(node: u8, joined: Option<JoinedFrame>) -> u8
    ensures value { result ≡ sender_or node (option_map joined_shown joined) }
    ensures node { (n : ℕ) → node < n → IfSome joined (λ joined. joined.sender < n) → result < n }
{
    match joined {
        Some(joined) => joined.sender,
        None => node,
    }
}

// The node whose clock a node has from a slot on.
fn clock_taken(run: &RunRows, slot: u32, node: u8) -> u8
    requires slot { slot < run.now.slots }
    requires node { node < length run.now.list.slots }
    ensures value { result ≡ clock_taken node (run_slot run.now slot) }
    ensures node { result < length run.now.list.slots }
{
    if joins(run, slot, node) {
        sender_or(node, frame_joined(run, slot, node))
    } else {
        node
    }
}

fn comes_on(run: &RunRows, slot: u32, node: u8) -> bool
    requires node { node < length run.now.list.slots }
    ensures { result ≡ comes_on node (run_slot run.now slot) }
{
    match *run.script().on.get(node as usize) {
        Some(on) => on == slot,
        None => false,
    }
}

fn either(a: bool, b: bool) -> bool
    ensures { result ≡ (a || b) }
{
    a || b
}

// The jumps that a clock bears are those from a slot on, where later ones have ended with an average or not, and the one
// before has or not.
fn begins_jumps(run: &RunRows, slot: u32, node: u8, averaged: bool, was_averaged: bool) -> bool
    requires node { node < length run.now.list.slots }
    ensures { result ≡ (comes_on node (run_slot run.now slot) || (averaged && was_averaged)) }
{
    comes_on(run, slot, node) || (averaged && was_averaged)
}

// Adds the jumps that a node's clock bears in the newest of so many slots.
fn add_jumps_borne(run: &RunRows, node: u8, slots: u32, out: &mut Sources) -> Result<(), Memory>
    requires node { node < length run.now.list.slots }
    requires slots { slots ≤ run.now.slots }
    ensures { OnOk result (AddsSources out.old out.new (only_lines (jumps_borne node (past_slots run.now slots)))) }
{
    let mut who = node;
    let mut averaged = false;
    let mut at = slots;
    while at > 0 {
        at -= 1;
        who = clock_taken(run, at, who);
        let question = Question::Jumps {
            node: who,
            slot: at,
        };
        add_lines(run, question, out)?;
        let was_averaged = run.row(at, who).begun.has_averaged;
        if begins_jumps(run, at, who, averaged, was_averaged) {
            return Ok(());
        }
        averaged = either(averaged, was_averaged);
    }
    Ok(())
}

fn is_outside(bound: &i64, value: &i64) -> bool
    requires { pos 0 ≤ℤ bound.now }
    ensures { result ≡ is_outside bound.now value.now }
{
    !(-*bound <= *value && *value <= *bound)
}

// Adds the lines of a node's reading errors, where their sum is outside the list's bound.
fn add_error_lines(run: &RunRows, slot: u32, node: u8, out: &mut Sources) -> Result<(), Memory>
    ensures { OnOk result (AddsSources out.old out.new (only_lines (error_lines node (run_slot run.now slot)))) }
{
    let incidents = run.script().incidents(node, slot);
    if is_outside(&run.list().error, &incidents.error) {
        return add_lines(run, Question::Errs { node, slot }, out);
    }
    Ok(())
}

// Adds the line of a node's drift, where it is outside the list's bound.
fn add_outside_drift(run: &RunRows, slot: u32, node: u8, out: &mut Sources) -> Result<(), Memory>
    requires node { node < length run.now.list.slots }
    ensures { OnOk result (AddsSources out.old out.new (only_lines (outside_drift_lines node (run_slot run.now slot)))) }
{
    if is_outside(&run.list().drift, run.script().drift.get(node as usize)) {
        return out.add_line(ScriptLine::Drift(node));
    }
    Ok(())
}

// A judgement of a node with sync that gave no clock.
fn is_unread(list: &Medl, entry: &Entry) -> bool
    requires { IsOfList list.now entry.now }
    ensures { result ≡ is_unread list.now entry.now }
{
    match entry {
        Entry::Judged { sender, .. } => {
            is_judged_so(Verdicts::MissOrTentative, entry)
                && list.slots.get(usize::from(*sender)).sync
        }
        _ => false,
    }
}

// A node's entry of a slot gave no clock, where its stint had begun.
fn counts(run: &RunRows, slot: u32, node: u8, stint: u32) -> bool
    requires slot { slot < run.now.slots }
    requires node { node < length run.now.list.slots }
    ensures { result ≡ (nat_le stint slot && is_unread run.now.list (entry_in_slot node (run_slot run.now slot))) }
{
    let list = run.list();
    stint <= slot && is_unread(list, &run.row(slot, node).entry)
}

// Adds a node's entries in some slots of its stint that gave no clock, the newest first.
fn add_unread_in(
    run: &RunRows,
    node: u8,
    stint: u32,
    from: u32,
    before: u32,
    out: &mut Sources,
) -> Result<(), Memory>
    requires node { node < length run.now.list.slots }
    requires before { before ≤ run.now.slots }
    requires from { from ≤ before }
    ensures { OnOk result (AddsSources out.old out.new (only_entries
        (unread_in run.now.list node stint (take (before - from) (past_slots run.now before))))) }
{
    let mut at = before;
    while at > from {
        at -= 1;
        if counts(run, at, node, stint) {
            out.add_entry(Spot { slot: at, node })?;
        }
    }
    Ok(())
}

// Adds a node's entries of its newest whole round that gave no clock, where it was not corrected at the end of it.
fn add_unread(run: &RunRows, node: u8, slot: u32, out: &mut Sources) -> Result<(), Memory>
    requires node { node < length run.now.list.slots }
    requires slot { slot < run.now.slots }
    ensures { OnOk result (AddsSources out.old out.new (only_entries (unread_entries node (run_slot run.now slot) (past_slots run.now slot)))) }
{
    let stint = back_to(run, Kind::Stint, node, slot);
    let back = u32::from(place_slot(run, slot, node));
    if slot < back {
        return Ok(());
    }
    let first = slot - back;
    let averaged = run.row(first, node).begun.has_averaged;
    if averaged {
        return Ok(());
    }
    let from = first.saturating_sub(u32::from(run.nodes()));
    add_unread_in(run, node, stint, from, first, out)
}

fn has_sources(cause: &Cause) -> bool
    ensures { result ≡ has_sources (sources_of cause.now) }
{
    !(cause.lines.len() == 0 && cause.entries.len() == 0)
}

// A slot whose entry has this cause, where there is one.
fn caused_at(cause: &Cause, slot: u32) -> Option<u32>
    ensures { result ≡ if has_sources (sources_of cause.now) then Some slot else None }
{
    if has_sources(cause) { Some(slot) } else { None }
}

// The slot in which a node's stint began, where it is a join with causes.
fn stint_join(alloc: Global, run: &RunRows, node: u8, slot: u32) -> Result<Option<u32>, Memory>
    requires node { node < length run.now.list.slots }
    requires slot { slot ≤ run.now.slots }
    ensures { IfOk result (λ joined. joined ≡ stint_join node (back_to begins_stint node (past_slots run.now slot))) }
{
    let behind = back_to(run, Kind::Stint, node, slot);
    if behind == 0 {
        return Ok(None);
    }
    if joins(run, behind - 1, node) {
        let cause = join_cause(alloc, run, node, behind - 1)?;
        return Ok(caused_at(&cause, behind - 1));
    }
    Ok(None)
}

// Adds a node's entry of a slot, if there is one.
fn add_joined(node: u8, joined: Option<u32>, out: &mut Sources) -> Result<(), Memory>
    ensures { OnOk result (AddsSources out.old out.new (only_entries (spots_joined node joined))) }
{
    match joined {
        Some(slot) => out.add_entry(Spot { slot, node }),
        None => Ok(()),
    }
}

// There are more than there were.
fn has_grown(before: usize, after: usize) -> bool
    ensures { result ≡ not (after - before == 0) }
{
    before < after
}

// Adds what is said of a node's clock beside the deviation.
fn add_noted(
    alloc: Global,
    run: &RunRows,
    node: u8,
    slot: u32,
    notes: &mut List<ClockNote>,
    out: &mut Sources,
) -> Result<(), Memory>
    requires node { node < length run.now.list.slots }
    requires slot { slot < run.now.slots }
    ensures entries { OnOk result (AddsSources out.old out.new (only_entries (noted_clock node (run_slot run.now slot) (past_slots run.now slot)).entries)) }
    ensures notes { OnOk result (notes.new ≡ notes.old ++ (noted_clock node (run_slot run.now slot) (past_slots run.now slot)).note ∷ []) }
{
    let before = out.entries.len();
    add_unread(run, node, slot, out)?;
    let is_uncorrected = has_grown(before, out.entries.len());
    let joined = stint_join(alloc, run, node, slot)?;
    add_joined(node, joined, out)?;
    notes.push(ClockNote {
        node,
        is_uncorrected,
        joined,
    })
}

// Adds the lines of jumps that both clocks bear.
fn add_jumps(
    run: &RunRows,
    sender: u8,
    node: u8,
    slot: u32,
    out: &mut Sources,
) -> Result<(), Memory>
    requires sender { sender < length run.now.list.slots }
    requires node { node < length run.now.list.slots }
    requires slot { slot < run.now.slots }
    ensures { OnOk result (AddsSources out.old out.new (only_lines (both_jumps sender node (run_slot run.now slot) (past_slots run.now slot)))) }
{
    let slots = slot_behind(run, slot);
    add_jumps_borne(run, sender, slots, out)?;
    add_jumps_borne(run, node, slots, out)
}

// Adds the lines of reading errors and drifts that are out of specification.
fn add_out_of_bounds(
    run: &RunRows,
    sender: u8,
    node: u8,
    slot: u32,
    out: &mut Sources,
) -> Result<(), Memory>
    requires sender { sender < length run.now.list.slots }
    requires node { node < length run.now.list.slots }
    ensures { OnOk result (AddsSources out.old out.new (only_lines (outside_lines sender node (run_slot run.now slot)))) }
{
    add_error_lines(run, slot, node, out)?;
    add_outside_drift(run, slot, sender, out)?;
    add_outside_drift(run, slot, node, out)
}

// Adds what is said of two clocks.
fn add_two_noted(
    alloc: Global,
    run: &RunRows,
    first: u8,
    second: u8,
    slot: u32,
    out: &mut Sources,
) -> Result<List<ClockNote>, Memory>
    requires first { first < length run.now.list.slots }
    requires second { second < length run.now.list.slots }
    requires slot { slot < run.now.slots }
    ensures entries { OnOk result (AddsSources out.old out.new (only_entries
        (entries_noted (two_noted first second (run_slot run.now slot) (past_slots run.now slot))))) }
    ensures notes { IfOk result (λ notes. notes ≡ notes_noted (two_noted first second (run_slot run.now slot) (past_slots run.now slot))) }
{
    let mut notes = List::new(alloc);
    add_noted(alloc, run, first, slot, &mut notes, out)?;
    add_noted(alloc, run, second, slot, &mut notes, out)?;
    Ok(notes)
}

// Adds what is said of both clocks, of that of the lower node first.
fn add_both_noted(
    alloc: Global,
    run: &RunRows,
    sender: u8,
    node: u8,
    slot: u32,
    out: &mut Sources,
) -> Result<List<ClockNote>, Memory>
    requires sender { sender < length run.now.list.slots }
    requires node { node < length run.now.list.slots }
    requires slot { slot < run.now.slots }
    ensures entries { OnOk result (AddsSources out.old out.new (only_entries
        (entries_noted (both_noted sender node (run_slot run.now slot) (past_slots run.now slot))))) }
    ensures notes { IfOk result (λ notes. notes ≡ notes_noted (both_noted sender node (run_slot run.now slot) (past_slots run.now slot))) }
{
    if sender < node {
        add_two_noted(alloc, run, sender, node, slot, out)
    } else {
        add_two_noted(alloc, run, node, sender, slot, out)
    }
}

// Adds what is said of both clocks, where neither bears a jump.
fn add_notes(
    alloc: Global,
    run: &RunRows,
    sender: u8,
    node: u8,
    slot: u32,
    has_jumps: bool,
    out: &mut Sources,
) -> Result<List<ClockNote>, Memory>
    requires sender { sender < length run.now.list.slots }
    requires node { node < length run.now.list.slots }
    requires slot { slot < run.now.slots }
    ensures entries { OnOk result (AddsSources out.old out.new (only_entries
        (if has_jumps then [] else entries_noted (both_noted sender node (run_slot run.now slot) (past_slots run.now slot))))) }
    ensures notes { IfOk result (λ notes. notes
        ≡ if has_jumps then [] else notes_noted (both_noted sender node (run_slot run.now slot) (past_slots run.now slot))) }
{
    if has_jumps {
        return Ok(List::new(alloc));
    }
    add_both_noted(alloc, run, sender, node, slot, out)
}

/// Adds why a frame of a sender came so late to a node, and tells it.
pub(crate) fn add_clock_reason(
    alloc: Global,
    run: &RunRows,
    sender: u8,
    node: u8,
    slot: u32,
    out: &mut Sources,
) -> Result<Miss, Memory>
    requires sender { sender < length run.now.list.slots }
    requires node { node < length run.now.list.slots }
    requires slot { slot < run.now.slots }
    ensures { IfOk result (λ miss. (miss ≡ (clock_reason sender node (run_slot run.now slot) (past_slots run.now slot)).miss) × AddsSources out.old out.new (clock_reason sender node (run_slot run.now slot) (past_slots run.now slot)).sources) }
{
    let before = out.lines.len();
    add_jumps(run, sender, node, slot, out)?;
    let has_jumps = has_grown(before, out.lines.len());
    add_out_of_bounds(run, sender, node, slot, out)?;
    let notes = add_notes(alloc, run, sender, node, slot, has_jumps, out)?;
    Ok(Miss::Clock {
        deviation: deviation_in(run, slot, node, sender),
        notes,
    })
}
