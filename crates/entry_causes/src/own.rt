//! The causes of what a node does in its own slot, and of having left.
ghost use Rattle.causes.specs.OwnSlots.{answer_of, answers_node, clique_cause, gone_cause, lacked_by, lacked_by_miss};
ghost use Rattle.causes.specs.OwnSlots.{lacked_since_own, oldest, quiet_entries, rejected_peers, retry_cause};
ghost use Rattle.causes.specs.Missed.{missed_cause};
ghost use Rattle.causes.specs.OwnSlots.{settled_doubts, shared_by, start_again, unacknowledged_cause};
ghost use Rattle.causes.specs.Said.{said};
ghost use Rattle.entry_causes.specs.Shared.{AnswersBy};
ghost use Rattle.entry_causes.specs.Told.{settled_in};
ghost use Rattle.causes.specs.Members.{newest_entry_of};
ghost use Rattle.causes.specs.RunSlots.{back_to, doubted_in, is_incorrect, is_joined, is_rejected, is_sent, judged_so, place_of_node, since_own};
ghost use Rattle.causes.specs.Sources.{only_entries};
ghost use Rattle.run_looks.specs.Added.{AddsSources};
ghost use Rattle.run_rows.specs.Rows.{past_slots, run_slot};
ghost use Rattle.std.specs.Option.{option_map};
ghost use Rattle.std.specs.Prelude.{IfOk, IfSome, OnOk, Some, [], filter, flat_map, nat_lt, not, ◌&&◌, ◌++◌, ◌+◌, if◌then◌else◌, is_some, length, map, ℕ, ◌∷◌, ◌<◌, ◌||◌, ◌≡◌, ◌≤◌};
ghost use Rattle.ttp_base.specs.NodeSet.{below, has_node};
ghost use Rattle.ttp_world.specs.Acknowledgement.{is_correct, is_sent_or_joined};
ghost use Rattle.ttp_world.specs.declared.node.Verdict.TheVariants as verdict;
ghost use Rattle.causes.specs.declared.cause.Miss.TheVariants as miss;

use crate::judged::doubted_in;
use crate::listening::listens_by_entry;
use crate::members::is_joined;
use crate::missed::missed_cause;
use crate::places::{cstate_in, members_sent, place_slot};
use crate::said::said;
use causes::{Because, Cause, Miss, Spot};
use run_looks::{
    Kind, Sources, Verdicts, add_judged_since_own, back_to, count_judged_since_own, is_judged_so,
    newest_departure, own_slot,
};
use run_rows::RunRows;
use std::alloc::Global;
use ttp_base::{List, Memory, NodeSet};
use ttp_world::{Entry, Verdict};

// Adds the newest own entry of a node before a slot, where an entry before that made it listen.
fn add_start_again(run: &RunRows, node: u8, before: u32, out: &mut Sources) -> Result<(), Memory>
    requires node { node < length run.now.list.slots }
    requires before { before ≤ run.now.slots }
    ensures { OnOk result (AddsSources out.old out.new (only_entries
        (start_again node (back_to is_sent_or_joined node (past_slots run.now before))))) }
{
    let behind = back_to(run, Kind::Own, node, before);
    if behind == 0 {
        return Ok(());
    }
    if listens_by_entry(run, node, behind - 1) {
        return out.add_entry(Spot {
            slot: behind - 1,
            node,
        });
    }
    Ok(())
}

/// The cause of a retry.
pub(crate) fn retry_cause(
    alloc: Global,
    run: &RunRows,
    node: u8,
    slot: u32,
) -> Result<Cause, Memory>
    requires node { node < length run.now.list.slots }
    requires slot { slot ≤ run.now.slots }
    ensures { IfOk result (λ cause. cause ≡ retry_cause node (past_slots run.now slot)) }
{
    let mut out = Sources::none(alloc);
    add_judged_since_own(run, Verdicts::MissOrTentative, node, slot, &mut out)?;
    add_start_again(run, node, slot, &mut out)?;
    Ok(out.cause_by(Because::NoneSinceColdStart(own_slot(run, node, slot))))
}

/// The cause of being gone.
pub(crate) fn gone_cause(alloc: Global, run: &RunRows, node: u8, slot: u32) -> Result<Cause, Memory>
    requires node { node < length run.now.list.slots }
    requires slot { slot ≤ run.now.slots }
    ensures { IfOk result (λ cause. cause ≡ gone_cause node (past_slots run.now slot)) }
{
    let left = newest_departure(run, node, slot);
    let mut out = Sources::none(alloc);
    out.add_entry(left)?;
    Ok(out.cause_by(Because::LeftIn(left.slot)))
}

/// The cause of leaving unacknowledged.
pub(crate) fn unacknowledged_cause(
    alloc: Global,
    run: &RunRows,
    node: u8,
    slot: u32,
) -> Result<Cause, Memory>
    requires node { node < length run.now.list.slots }
    requires slot { slot ≤ run.now.slots }
    ensures { IfOk result (λ cause. cause ≡ unacknowledged_cause node (past_slots run.now slot)) }
{
    let mut out = Sources::none(alloc);
    add_judged_since_own(run, Verdicts::MissOrTentative, node, slot, &mut out)?;
    Ok(out.cause_by(Because::NoneSinceOwn(own_slot(run, node, slot))))
}

// A node is in doubt about another as a slot begins.
fn doubts(run: &RunRows, slot: u32, node: u8) -> bool
    requires slot { slot < run.now.slots }
    requires node { node < length run.now.list.slots }
    ensures { result ≡ is_some (doubted_in node (run_slot run.now slot)) }
{
    match doubted_in(run, slot, node) {
        Some(_) => true,
        None => false,
    }
}

// Adds a node's entry of a slot, where it is correct and in doubt.
fn add_settled(run: &RunRows, node: u8, slot: u32, out: &mut Sources) -> Result<(), Memory>
    requires node { node < length run.now.list.slots }
    requires slot { slot < run.now.slots }
    ensures { OnOk result (AddsSources out.old out.new (only_entries (settled_in node (run_slot run.now slot ∷ [])))) }
{
    if !is_judged_so(Verdicts::Correct, &run.row(slot, node).entry) {
        return Ok(());
    }
    if doubts(run, slot, node) {
        return out.add_entry(Spot { slot, node });
    }
    Ok(())
}

// Adds a node's correct entries in doubt since its own.
fn add_settled_doubts(run: &RunRows, node: u8, before: u32, out: &mut Sources) -> Result<(), Memory>
    requires node { node < length run.now.list.slots }
    requires before { before ≤ run.now.slots }
    ensures { OnOk result (AddsSources out.old out.new (only_entries (settled_doubts node (past_slots run.now before)))) }
{
    let from = back_to(run, Kind::Own, node, before);
    let mut at = before;
    while at > from {
        at -= 1;
        add_settled(run, node, at, out)?;
    }
    Ok(())
}

// With some more a node would have accepted more than it rejected.
fn is_exceeded(rejected: u8, accepted: u8, more: u32) -> bool
    ensures { result ≡ nat_lt rejected (accepted + more) }
{
    u64::from(rejected) < u64::from(accepted) + u64::from(more)
}

// Adds those that count as neither, where with them the node would have accepted more than it rejected.
fn add_quiet(run: &RunRows, node: u8, slot: u32, out: &mut Sources) -> Result<(), Memory>
    requires node { node < length run.now.list.slots }
    requires slot { slot < run.now.slots }
    ensures { OnOk result (AddsSources out.old out.new (only_entries (quiet_entries node (run_slot run.now slot) (past_slots run.now slot)))) }
{
    let begun = &run.row(slot, node).begun;
    let quiet = count_judged_since_own(run, Verdicts::Quiet, node, slot);
    if is_exceeded(begun.rejected, begun.accepted, quiet) {
        return add_judged_since_own(run, Verdicts::Quiet, node, slot, out);
    }
    Ok(())
}

// With a node that is told.
fn with_told(set: NodeSet, member: u8, is_told: bool) -> NodeSet
    ensures { (j : ℕ) → j < 24 → has_node result j ≡ (has_node (if is_told then member ∷ [] else []) j || has_node set j) }
{
    if !is_told {
        return set;
    }
    if member < 24 {
        return set.with(member);
    }
    set
}

// With the node that, by a reason, a sender holds and a node does not.
fn lacked_by_miss(node: u8, miss: &Miss, set: NodeSet) -> NodeSet
    ensures { (j : ℕ) → j < 24 → has_node result j ≡ (has_node (lacked_by_miss node miss.now) j || has_node set j) }
{
    match miss {
        Miss::Differs { member, lacks, .. } => with_told(set, *member, *lacks == node),
        _ => set,
    }
}

fn lacked_by(node: u8, because: &Because, set: NodeSet) -> NodeSet
    ensures { (j : ℕ) → j < 24 → has_node result j ≡ (has_node (lacked_by node because.now) j || has_node set j) }
{
    match because {
        Because::Missed(miss) => lacked_by_miss(node, miss, set),
        Because::MissedOnEach { a, b } => { lacked_by_miss(node, b, lacked_by_miss(node, a, set)) }
        _ => set,
    }
}

// With the nodes that, by its entry of a slot, senders hold and a node does not, where that is incorrect.
fn with_lacked(
    alloc: Global,
    run: &RunRows,
    node: u8,
    slot: u32,
    set: NodeSet,
) -> Result<NodeSet, Memory>
    requires node { node < length run.now.list.slots }
    requires slot { slot < run.now.slots }
    ensures { IfOk result (λ with. (j : ℕ) → j < 24 → has_node with j
        ≡ (has_node (flat_map (λ s. lacked_by node (missed_cause node s (past_slots run.now slot) verdict.Incorrect).because)
        (judged_so is_incorrect node (run_slot run.now slot ∷ []))) j || has_node set j)) }
{
    if is_judged_so(Verdicts::Incorrect, &run.row(slot, node).entry) {
        let cause = missed_cause(alloc, run, node, slot, Verdict::Incorrect)?;
        return Ok(lacked_by(node, &cause.because, set));
    }
    Ok(set)
}

// The nodes that, by its incorrect entries since its own, senders hold and a node does not.
fn lacked_since_own(alloc: Global, run: &RunRows, node: u8, before: u32) -> Result<NodeSet, Memory>
    requires node { node < length run.now.list.slots }
    requires before { before ≤ run.now.slots }
    ensures { IfOk result (λ set. (j : ℕ) → j < 24 → has_node set j ≡ has_node (lacked_since_own node (past_slots run.now before)) j) }
{
    let from = back_to(run, Kind::Own, node, before);
    let mut lacked = NodeSet::empty();
    for at in from..before {
        lacked = with_lacked(alloc, run, node, at, lacked)?;
    }
    Ok(lacked)
}

// With the peer of a node's entry of a slot, where it rejected the frame.
fn with_rejected_peer(run: &RunRows, node: u8, slot: u32, set: NodeSet) -> NodeSet
    requires node { node < length run.now.list.slots }
    requires slot { slot < run.now.slots }
    ensures { (j : ℕ) → j < 24 → has_node result j
        ≡ (has_node (map (λ s. (place_of_node node s).slot) (judged_so is_rejected node (run_slot run.now slot ∷ []))) j
        || has_node set j) }
{
    if is_judged_so(Verdicts::Rejected, &run.row(slot, node).entry) {
        set.with(cstate_in(run, slot, node, NodeSet::empty()).slot)
    } else {
        set
    }
}

// With the peers of those that it rejected since its own before a slot.
fn with_rejected_peers(run: &RunRows, node: u8, before: u32, slot: u32, told: NodeSet) -> NodeSet
    requires node { node < length run.now.list.slots }
    requires before { before ≤ run.now.slots }
    requires slot { slot ≤ before }
    ensures { (j : ℕ) → j < 24 → has_node result j ≡ (has_node told j || has_node (rejected_peers node (past_slots run.now before) slot) j) }
{
    let from = back_to(run, Kind::Own, node, before);
    let mut told = told;
    for at in from..slot {
        told = with_rejected_peer(run, node, at, told);
    }
    told
}

// The slot of a node's first correct entry since its own before a slot.
fn first_correct(run: &RunRows, node: u8, before: u32) -> Option<u32>
    requires node { node < length run.now.list.slots }
    requires before { before ≤ run.now.slots }
    ensures value { option_map (λ at. run_slot run.now at) result
        ≡ oldest (judged_so is_correct node (since_own node (past_slots run.now before))) }
    ensures before { IfSome result (λ at. at < before) }
{
    let from = back_to(run, Kind::Own, node, before);
    for at in from..before {
        if is_judged_so(Verdicts::Correct, &run.row(at, node).entry) {
            return Some(at);
        }
    }
    None
}

fn is_sent(entry: &Entry) -> bool
    ensures { result ≡ is_sent entry.now }
{
    matches!(entry, Entry::Sent { .. })
}

// A correct entry came in no doubt, and its peer sent its own frame.
fn answers_node(run: &RunRows, slot: u32, node: u8) -> bool
    requires slot { slot < run.now.slots }
    requires node { node < length run.now.list.slots }
    ensures { result ≡ answers_node node (run_slot run.now slot) }
{
    if doubts(run, slot, node) {
        return false;
    }
    is_sent(&run.row(slot, place_slot(run, slot, node)).entry)
}

// A node's entry of the newest of so many slots is a join.
fn has_joined(run: &RunRows, node: u8, slots: u32) -> bool
    requires node { node < length run.now.list.slots }
    requires slots { slots ≤ run.now.slots }
    ensures { result ≡ is_joined (newest_entry_of node (past_slots run.now slots)) }
{
    if slots == 0 {
        return false;
    }
    is_joined(&run.row(slots - 1, node).entry)
}

// The slot of the frame that answered a node since its own.
fn answer_of(run: &RunRows, node: u8, before: u32) -> Option<u32>
    requires node { node < length run.now.list.slots }
    requires before { before ≤ run.now.slots }
    ensures value { option_map (λ at. run_slot run.now at) result ≡ answer_of node (past_slots run.now before) }
    ensures before { IfSome result (λ at. at < before) }
{
    let behind = back_to(run, Kind::Own, node, before);
    if has_joined(run, node, behind) {
        return None;
    }
    match first_correct(run, node, before) {
        Some(slot) => {
            if answers_node(run, slot, node) {
                Some(slot)
            } else {
                None
            }
        }
        None => None,
    }
}

// A node is told, and the sender of a frame lacks it.
fn lacks_too(told: NodeSet, sent: NodeSet, member: u8) -> bool
    requires { member < 24 }
    ensures { result ≡ (has_node told member && not (has_node sent member)) }
{
    if !told.has(member) {
        return false;
    }
    !sent.has(member)
}

// Adds what a sender said of a node before a slot, and the node, where it is told and the sender lacks it.
fn add_if_lacked(
    run: &RunRows,
    sender: u8,
    before: u32,
    told: NodeSet,
    sent: NodeSet,
    member: u8,
    lacked: &mut List<u8>,
    out: &mut Sources,
) -> Result<(), Memory>
    requires sender { sender < length run.now.list.slots }
    requires before { before ≤ run.now.slots }
    requires member { member < 24 }
    ensures lacked { OnOk result (lacked.new ≡ lacked.old
        ++ (if has_node told member && not (has_node sent member) then member ∷ [] else [])) }
    ensures entries { OnOk result (AddsSources out.old out.new (only_entries (map (λ j. said sender j (past_slots run.now before))
        (if has_node told member && not (has_node sent member) then member ∷ [] else [])))) }
{
    if !lacks_too(told, sent, member) {
        return Ok(());
    }
    out.add_entry(said(run, sender, member, before))?;
    lacked.push(member)
}

// Adds what a sender said before a slot of each node that is told and that it lacks, and tells them.
fn add_lacked(
    alloc: Global,
    run: &RunRows,
    sender: u8,
    before: u32,
    told: NodeSet,
    sent: NodeSet,
    out: &mut Sources,
) -> Result<List<u8>, Memory>
    requires sender { sender < length run.now.list.slots }
    requires before { before ≤ run.now.slots }
    ensures few { length run.now.list.slots ≤ 24 }
    ensures told { IfOk result (λ lacked. (lacked ≡ filter (λ j. has_node told j && not (has_node sent j)) (below (length run.now.list.slots)))
        × AddsSources out.old out.new (only_entries (map (λ j. said sender j (past_slots run.now before))
        (filter (λ j. has_node told j && not (has_node sent j)) (below (length run.now.list.slots)))))) }
{
    let mut lacked = List::new(alloc);
    for member in 0..run.list().nodes() {
        add_if_lacked(run, sender, before, told, sent, member, &mut lacked, out)?;
    }
    Ok(lacked)
}

// Adds what the frame of a slot that answered a node shares with it, and tells the nodes that both lack.
fn add_shared(
    alloc: Global,
    run: &RunRows,
    node: u8,
    before: u32,
    slot: u32,
    out: &mut Sources,
) -> Result<List<u8>, Memory>
    requires node { node < length run.now.list.slots }
    requires before { before ≤ run.now.slots }
    requires slot { slot < before }
    ensures { IfOk result (λ lacked. (lacked ≡ (shared_by node (past_slots run.now before) (Some (run_slot run.now slot))).lacked)
        × AddsSources out.old out.new (only_entries (shared_by node (past_slots run.now before) (Some (run_slot run.now slot))).entries)) }
{
    let peer = place_slot(run, slot, node);
    let lacked = lacked_since_own(alloc, run, node, before)?;
    let told = with_rejected_peers(run, node, before, slot, lacked);
    let sent = members_sent(run, slot, peer);
    add_lacked(alloc, run, peer, slot, told, sent, out)
}

// What the frame that answered a node shares with it.
struct Shared {
    peer: u8,
    lacked: List<u8>,
}

// Adds what the frame that answered a node since its own shares with it, if there is one, and tells it.
fn add_answer(
    alloc: Global,
    run: &RunRows,
    node: u8,
    before: u32,
    out: &mut Sources,
) -> Result<Shared, Memory>
    requires node { node < length run.now.list.slots }
    requires before { before ≤ run.now.slots }
    ensures { IfOk result (λ shared. AnswersBy shared out.old out.new
        (shared_by node (past_slots run.now before) (answer_of node (past_slots run.now before)))) }
{
    match answer_of(run, node, before) {
        Some(answered) => {
            let lacked = add_shared(alloc, run, node, before, answered, out)?;
            Ok(Shared {
                peer: place_slot(run, answered, node),
                lacked,
            })
        }
        None => Ok(Shared {
            peer: node,
            lacked: List::new(alloc),
        }),
    }
}

/// The cause of leaving by the clique test.
pub(crate) fn clique_cause(
    alloc: Global,
    run: &RunRows,
    node: u8,
    slot: u32,
) -> Result<Cause, Memory>
    requires node { node < length run.now.list.slots }
    requires slot { slot < run.now.slots }
    ensures { IfOk result (λ cause. cause ≡ clique_cause node (run_slot run.now slot) (past_slots run.now slot)) }
{
    let mut out = Sources::none(alloc);
    add_judged_since_own(run, Verdicts::Rejected, node, slot, &mut out)?;
    add_settled_doubts(run, node, slot, &mut out)?;
    add_quiet(run, node, slot, &mut out)?;
    let Shared { peer, lacked } = add_answer(alloc, run, node, slot, &mut out)?;
    let begun = &run.row(slot, node).begun;
    Ok(out.cause_by(Because::Outvoted {
        accepted: begun.accepted,
        rejected: begun.rejected,
        since: own_slot(run, node, slot),
        peer,
        lacked,
    }))
}
