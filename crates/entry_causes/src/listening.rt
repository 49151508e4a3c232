//! The causes of what a node does that listens, or is off.
ghost use Rattle.causes.specs.LinesOf.{lines_where, spoilt_in};
ghost use Rattle.causes.specs.Listening.{back_to_listening, hears_nothing, is_empty, join_cause, listening_from};
ghost use Rattle.causes.specs.Listening.{listening_node, listening_sources, missing_node, off_cause, silenced_in};
ghost use Rattle.causes.specs.Listening.{kept_from_joining, on_line_unless, silent_node, sources_before_join, start_cause, wait_cause, wait_sources};
ghost use Rattle.causes.specs.Listening.{would_send};
ghost use Rattle.causes.specs.RunSlots.{is_gone_entry, is_left, is_retried, is_waited, newest_departure, past_in};
ghost use Rattle.causes.specs.Sources.{all_sources, no_sources, only_entries, only_lines, sources_of, with_sources};
ghost use Rattle.entry_causes.specs.Told.{is_named};
ghost use Rattle.run_looks.specs.Added.{AddsSources};
ghost use Rattle.run_looks.specs.Questions.{is_meant};
ghost use Rattle.run_rows.specs.Rows.{past_slots, run_slot};
ghost use Rattle.std.specs.List.{list_any};
ghost use Rattle.std.specs.Prelude.{IfOk, OnOk, [], filter, flat_map, if◌then◌else◌, length, map, not, take, ◌&&◌, ◌+◌, ◌-◌, ◌<◌, ◌==◌, ◌||◌, ◌∷◌};
ghost use Rattle.std.specs.Prelude.{◌≡◌, ◌≤◌};
ghost use Rattle.ttp_base.specs.NodeSet.{below};
ghost use Rattle.ttp_world.specs.Events.{arms};
ghost use Rattle.ttp_world.specs.Script.{on_slot};

use crate::bus::{JoinedFrame, add_spoilt, frame_joined, has_joinable};
use crate::places::place_slot;
use crate::senders::{add_silencing, has_frames, hears_nothing};
use causes::{Because, Cause, ScriptLine, Spot};
use run_looks::{Kind, Question, Sources, back_to, first_line, newest_departure};
use run_rows::RunRows;
use std::alloc::Global;
use ttp_base::Memory;
use ttp_world::{Channel, Entry};

// Adds the first line that is meant, if there is one.
fn add_first_line(run: &RunRows, question: Question, out: &mut Sources) -> Result<(), Memory>
    ensures { OnOk result (AddsSources out.old out.new
        (only_lines (take 1 (lines_where (is_meant question) run.now.script)))) }
{
    match first_line(run, question) {
        Some(line) => out.add_line(line),
        None => Ok(()),
    }
}

// Adds a node's newest departure before a slot, and the first line that arms it in the slot.
fn add_left_and_armed(run: &RunRows, node: u8, slot: u32, out: &mut Sources) -> Result<(), Memory>
    requires node { node < length run.now.list.slots }
    requires slot { slot ≤ run.now.slots }
    ensures { OnOk result (AddsSources out.old out.new record {
      lines = take 1 (lines_where (arms node slot) run.now.script);
      entries = newest_departure node (past_slots run.now slot) ∷ [];
    }) }
{
    add_first_line(run, Question::Arms { node, slot }, out)?;
    out.add_entry(newest_departure(run, node, slot))
}

/// The slot from which on a node listens in a slot.
pub(crate) fn listening_from(run: &RunRows, node: u8, before: u32) -> u32
    requires node { node < length run.now.list.slots }
    requires before { before ≤ run.now.slots }
    ensures value { result ≡ listening_from node (past_slots run.now before) }
    ensures within { result ≤ before }
    ensures is { back_to_listening node (past_slots run.now before) ≡ past_slots run.now result }
{
    back_to(run, Kind::NotWaited, node, before)
}

fn is_retried(entry: &Entry) -> bool
    ensures { result ≡ is_retried entry.now }
{
    matches!(entry, Entry::Retried)
}

// A node leaves, or is gone.
fn is_out(entry: &Entry) -> bool
    ensures { result ≡ (is_left entry.now || is_gone_entry entry.now) }
{
    matches!(entry, Entry::Left { .. } | Entry::Gone)
}

/// Adds why a node listens in a slot.
pub(crate) fn add_listening(
    run: &RunRows,
    node: u8,
    before: u32,
    out: &mut Sources,
) -> Result<(), Memory>
    requires node { node < length run.now.list.slots }
    requires before { before ≤ run.now.slots }
    ensures { OnOk result (AddsSources out.old out.new (listening_sources node (past_slots run.now before))) }
{
    let from = listening_from(run, node, before);
    if from == 0 {
        return Ok(());
    }
    let entry = &run.row(from - 1, node).entry;
    if is_retried(entry) {
        return out.add_entry(Spot {
            slot: from - 1,
            node,
        });
    }
    if is_out(entry) {
        return add_left_and_armed(run, node, from, out);
    }
    Ok(())
}

// An entry makes its node listen, and is named for it.
fn is_named(entry: &Entry) -> bool
    ensures { result ≡ is_named entry.now }
{
    matches!(entry, Entry::Retried | Entry::Left { .. } | Entry::Gone)
}

/// Why a node listens in a slot is an entry.
pub(crate) fn listens_by_entry(run: &RunRows, node: u8, before: u32) -> bool
    requires node { node < length run.now.list.slots }
    requires before { before ≤ run.now.slots }
    ensures { result ≡ not (length (listening_sources node (past_slots run.now before)).entries == 0) }
{
    let from = listening_from(run, node, before);
    if from == 0 {
        return false;
    }
    is_named(&run.row(from - 1, node).entry)
}

// Adds what kept a node from joining in a slot.
fn add_kept_in(run: &RunRows, node: u8, slot: u32, out: &mut Sources) -> Result<(), Memory>
    requires slot { slot < run.now.slots }
    ensures { OnOk result (AddsSources out.old out.new (kept_from_joining node (run_slot run.now slot))) }
{
    if has_joinable(run, slot) {
        add_spoilt(run, slot, node, out)
    } else {
        Ok(())
    }
}

// Adds what kept it from joining in each slot from one on, the newest first.
fn add_kept(
    run: &RunRows,
    node: u8,
    from: u32,
    before: u32,
    out: &mut Sources,
) -> Result<(), Memory>
    requires before { before ≤ run.now.slots }
    ensures { OnOk result (AddsSources out.old out.new
        (all_sources (map (kept_from_joining node) (take (before - from) (past_slots run.now before))))) }
{
    let mut at = before;
    while at > from {
        at -= 1;
        add_kept_in(run, node, at, out)?;
    }
    Ok(())
}

/// Adds the sources of a wait of a node in a slot.
pub(crate) fn add_wait(run: &RunRows, node: u8, slot: u32, out: &mut Sources) -> Result<(), Memory>
    requires node { node < length run.now.list.slots }
    requires slot { slot < run.now.slots }
    ensures { OnOk result (AddsSources out.old out.new (wait_sources node (past_slots run.now (slot + 1)))) }
{
    add_listening(run, node, slot, out)?;
    add_kept_in(run, node, slot, out)?;
    add_kept(run, node, listening_from(run, node, slot), slot, out)
}

// Adds those of a wait in the newest slot before one, be it a wait or not.
fn add_wait_before(run: &RunRows, node: u8, before: u32, out: &mut Sources) -> Result<(), Memory>
    requires node { node < length run.now.list.slots }
    requires before { before ≤ run.now.slots }
    ensures { OnOk result (AddsSources out.old out.new (wait_sources node (past_slots run.now before))) }
{
    if before == 0 {
        return Ok(());
    }
    add_wait(run, node, before - 1, out)
}

/// The cause of being off.
pub(crate) fn off_cause(alloc: Global, run: &RunRows, node: u8) -> Result<Cause, Memory>
    requires { node < length run.now.list.slots }
    ensures { IfOk result (λ cause. cause ≡ off_cause node (on_slot run.now.script node)) }
{
    let mut out = Sources::none(alloc);
    match *run.script().on.get(usize::from(node)) {
        Some(slot) => {
            out.add_line(ScriptLine::On(node))?;
            Ok(out.cause_by(Because::SwitchedOn(slot)))
        }
        None => Ok(out.cause_by(Because::NeverOn)),
    }
}

/// The cause of a wait.
pub(crate) fn wait_cause(alloc: Global, run: &RunRows, node: u8, slot: u32) -> Result<Cause, Memory>
    requires node { node < length run.now.list.slots }
    requires slot { slot < run.now.slots }
    ensures { IfOk result (λ cause. cause ≡ wait_cause node (run_slot run.now slot) (past_slots run.now slot)) }
{
    let mut out = Sources::none(alloc);
    add_wait(run, node, slot, &mut out)?;
    Ok(out.cause_by(Because::NothingToJoin(listening_from(run, node, slot))))
}

fn is_waited(entry: &Entry) -> bool
    ensures { result ≡ is_waited entry.now }
{
    matches!(entry, Entry::Waited)
}

// Adds those of the wait in the slot before, or else why the node listens.
fn add_before_join(run: &RunRows, node: u8, before: u32, out: &mut Sources) -> Result<(), Memory>
    requires node { node < length run.now.list.slots }
    requires before { before ≤ run.now.slots }
    ensures { OnOk result (AddsSources out.old out.new (sources_before_join node (past_slots run.now before))) }
{
    if before == 0 {
        return Ok(());
    }
    if is_waited(&run.row(before - 1, node).entry) {
        return add_wait_before(run, node, before, out);
    }
    add_listening(run, node, before, out)
}

// Adds those, and what spoils both channels, where flips changed the frame.
fn add_join_on(
    run: &RunRows,
    node: u8,
    slot: u32,
    joined: &JoinedFrame,
    out: &mut Sources,
) -> Result<(), Memory>
    requires node { node < length run.now.list.slots }
    requires slot { slot < run.now.slots }
    ensures { OnOk result (AddsSources out.old out.new (with_sources (sources_before_join node (past_slots run.now slot))
        (if joined.now.is_as_sent then no_sources else spoilt_in node (run_slot run.now slot)))) }
{
    add_before_join(run, node, slot, out)?;
    if joined.is_as_sent {
        return Ok(());
    }
    add_spoilt(run, slot, node, out)
}

/// The cause of a join.
pub(crate) fn join_cause(alloc: Global, run: &RunRows, node: u8, slot: u32) -> Result<Cause, Memory>
    requires node { node < length run.now.list.slots }
    requires slot { slot < run.now.slots }
    ensures { IfOk result (λ cause. cause ≡ join_cause node (run_slot run.now slot) (past_slots run.now slot)) }
{
    let mut out = Sources::none(alloc);
    match frame_joined(run, slot, node) {
        None => Ok(out.cause_by(Because::TakesOver(node))),
        Some(joined) => {
            add_join_on(run, node, slot, &joined, &mut out)?;
            Ok(out.cause_by(Because::TakesOver(joined.sender)))
        }
    }
}

// Adds what silenced a slot to a node in which somebody sent.
fn add_silenced(run: &RunRows, slot: u32, node: u8, out: &mut Sources) -> Result<(), Memory>
    requires slot { slot < run.now.slots }
    ensures { OnOk result (AddsSources out.old out.new (silenced_in node (run_slot run.now slot))) }
{
    if !has_frames(run, slot) {
        return Ok(());
    }
    add_silencing(run, slot, node, Channel::A, out)?;
    add_silencing(run, slot, node, Channel::B, out)
}

// A node that left in a slot would have sent in a later one by its place.
fn would_send(run: &RunRows, node: u8, left: u32, later: u32) -> bool
    requires node { node < length run.now.list.slots }
    requires left { left < run.now.slots }
    ensures { result ≡ would_send node (run_slot run.now left) (run_slot run.now later) }
{
    let nodes = run.list().nodes();
    if left > later {
        return false;
    }
    let coming = u64::from(place_slot(run, left, node)) + u64::from(later - left);
    coming % u64::from(nodes) == u64::from(node)
}

// It would have been heard in it by another.
fn would_reach(run: &RunRows, node: u8, left: u32, listener: u8, later: u32) -> bool
    requires node { node < length run.now.list.slots }
    requires left { left < run.now.slots }
    ensures { result ≡ (not (hears_nothing listener (run_slot run.now later))
        && would_send node (run_slot run.now left) (run_slot run.now later)) }
{
    !hears_nothing(run, later, listener) && would_send(run, node, left, later)
}

// It would have been heard by another in one of some slots.
fn would_be_heard(run: &RunRows, node: u8, left: u32, listener: u8, from: u32, before: u32) -> bool
    requires node { node < length run.now.list.slots }
    requires left { left < run.now.slots }
    requires before { before ≤ run.now.slots }
    ensures { result ≡ list_any (would_send node (run_slot run.now left))
        (filter (λ u. not (hears_nothing listener u)) (take (before - from) (past_slots run.now before))) }
{
    let mut at = before;
    while at > from {
        at -= 1;
        if would_reach(run, node, left, listener, at) {
            return true;
        }
    }
    false
}

// A node could have heard something in one of some slots.
fn is_ever_audible(run: &RunRows, node: u8, from: u32, before: u32) -> bool
    requires before { before ≤ run.now.slots }
    ensures { result ≡ not (is_empty
        (filter (λ u. not (hears_nothing node u)) (take (before - from) (past_slots run.now before)))) }
{
    let mut at = before;
    while at > from {
        at -= 1;
        if !hears_nothing(run, at, node) {
            return true;
        }
    }
    false
}

fn is_gone(entry: &Entry) -> bool
    ensures { result ≡ is_gone_entry entry.now }
{
    matches!(entry, Entry::Gone)
}

// Adds the newest departure of a node that is gone, where it would have been heard.
fn add_missing(
    run: &RunRows,
    node: u8,
    listener: u8,
    from: u32,
    slot: u32,
    out: &mut Sources,
) -> Result<(), Memory>
    requires node { node < length run.now.list.slots }
    requires slot { slot < run.now.slots }
    ensures { OnOk result (AddsSources out.old out.new (only_entries (missing_node node (run_slot run.now slot) (past_slots run.now slot)
        (filter (λ u. not (hears_nothing listener u)) (take (slot - from) (past_slots run.now slot)))))) }
{
    if !is_gone(&run.row(slot, node).entry) {
        return Ok(());
    }
    let behind = back_to(run, Kind::Left, node, slot);
    if behind == 0 {
        return Ok(());
    }
    if would_be_heard(run, node, behind - 1, listener, from, slot) {
        return out.add_entry(Spot {
            slot: behind - 1,
            node,
        });
    }
    Ok(())
}

fn is_listening(entry: &Entry) -> bool
    ensures { result ≡ (is_waited entry.now || is_retried entry.now) }
{
    matches!(entry, Entry::Waited | Entry::Retried)
}

// Adds the entry of a node that listened in the slot before.
fn add_listening_node(run: &RunRows, node: u8, before: u32, out: &mut Sources) -> Result<(), Memory>
    requires node { node < length run.now.list.slots }
    requires before { before ≤ run.now.slots }
    ensures { OnOk result (AddsSources out.old out.new (only_entries (listening_node node (past_slots run.now before)))) }
{
    if before == 0 {
        return Ok(());
    }
    if is_listening(&run.row(before - 1, node).entry) {
        return out.add_entry(Spot {
            slot: before - 1,
            node,
        });
    }
    Ok(())
}

// Adds why another node did not send in the silent slots.
fn add_silent_node(
    run: &RunRows,
    node: u8,
    listener: u8,
    from: u32,
    slot: u32,
    out: &mut Sources,
) -> Result<(), Memory>
    requires node { node < length run.now.list.slots }
    requires slot { slot < run.now.slots }
    ensures { OnOk result (AddsSources out.old out.new (only_entries (silent_node listener (run_slot run.now slot) (past_slots run.now slot)
        (filter (λ u. not (hears_nothing listener u)) (take (slot - from) (past_slots run.now slot))) node))) }
{
    if node == listener {
        return Ok(());
    }
    add_missing(run, node, listener, from, slot, out)?;
    if is_ever_audible(run, listener, from, slot) {
        return add_listening_node(run, node, slot, out);
    }
    Ok(())
}

// Adds the line that switches a node on, where no entry made it listen.
fn add_on_line_unless(run: &RunRows, node: u8, before: u32, out: &mut Sources) -> Result<(), Memory>
    requires node { node < length run.now.list.slots }
    requires before { before ≤ run.now.slots }
    ensures { OnOk result (AddsSources out.old out.new
        (on_line_unless node (listening_sources node (past_slots run.now before)))) }
{
    if listens_by_entry(run, node, before) {
        Ok(())
    } else {
        out.add_line(ScriptLine::On(node))
    }
}

// Adds what silenced each slot from one on to a node, the newest first.
fn add_silent_slots(
    run: &RunRows,
    node: u8,
    from: u32,
    before: u32,
    out: &mut Sources,
) -> Result<(), Memory>
    requires before { before ≤ run.now.slots }
    ensures { OnOk result (AddsSources out.old out.new
        (all_sources (map (silenced_in node) (take (before - from) (past_slots run.now before))))) }
{
    let mut at = before;
    while at > from {
        at -= 1;
        add_silenced(run, at, node, out)?;
    }
    Ok(())
}

// Adds why the other nodes did not send in them.
fn add_silent_nodes(
    run: &RunRows,
    node: u8,
    from: u32,
    slot: u32,
    out: &mut Sources,
) -> Result<(), Memory>
    requires slot { slot < run.now.slots }
    ensures { OnOk result (AddsSources out.old out.new (only_entries
        (flat_map (silent_node node (run_slot run.now slot) (past_slots run.now slot)
        (filter (λ u. not (hears_nothing node u)) (take (slot - from) (past_slots run.now slot))))
        (below (length run.now.list.slots))))) }
{
    for other in 0..run.nodes() {
        add_silent_node(run, other, node, from, slot, out)?;
    }
    Ok(())
}

// Adds the sources of a cold start that silent slots bring about.
fn add_start(
    run: &RunRows,
    node: u8,
    slot: u32,
    limit: u32,
    out: &mut Sources,
) -> Result<(), Memory>
    requires node { node < length run.now.list.slots }
    requires slot { slot < run.now.slots }
    requires limit { limit ≡ (past_in node (run_slot run.now slot)).limit }
    ensures { OnOk result (AddsSources out.old out.new (sources_of (start_cause node (run_slot run.now slot) (past_slots run.now slot)))) }
{
    let from = slot.saturating_sub(limit);
    add_wait_before(run, node, slot, out)?;
    add_on_line_unless(run, node, slot, out)?;
    add_silent_slots(run, node, from, slot, out)?;
    add_silent_nodes(run, node, from, slot, out)
}

/// The cause of a cold start.
pub(crate) fn start_cause(
    alloc: Global,
    run: &RunRows,
    node: u8,
    slot: u32,
) -> Result<Cause, Memory>
    requires node { node < length run.now.list.slots }
    requires slot { slot < run.now.slots }
    ensures { IfOk result (λ cause. cause ≡ start_cause node (run_slot run.now slot) (past_slots run.now slot)) }
{
    let limit = u32::from(run.row(slot, node).begun.limit);
    let mut out = Sources::none(alloc);
    add_start(run, node, slot, limit, &mut out)?;
    Ok(out.cause_by(Because::Silence(limit)))
}
