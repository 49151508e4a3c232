//! The causes of null, invalid and incorrect.
ghost use Rattle.causes.specs.LinesOf.{noisy_in, silencing_in};
ghost use Rattle.causes.specs.Missed.{absence_reason, absence_since, bits_reason, channel_reason, decides, decides_by, elsewhere};
ghost use Rattle.causes.specs.Missed.{frame_reason, is_same_place, is_same_view, is_seen_as, missed_cause, nobody_reason};
ghost use Rattle.causes.specs.Missed.{noise_reason};
ghost use Rattle.causes.specs.RunSlots.{entry_in_slot, is_started, place_of_node};
ghost use Rattle.causes.specs.Sources.{by_lines, sources_of};
ghost use Rattle.entry_causes.specs.Senders.{sends_in};
ghost use Rattle.run_looks.specs.Added.{AddsSources};
ghost use Rattle.run_rows.specs.Rows.{past_slots, run_slot};
ghost use Rattle.std.specs.Prelude.{IfOk, IsTrue, drop, filter, length, ℕ, ◌<◌, ◌≡◌, ◌≤◌};
ghost use Rattle.ttp_base.specs.NodeSet.{below, has_node};
ghost use Rattle.ttp_world.specs.Medium.{Bits};
ghost use Rattle.causes.specs.declared.cause.Miss.TheVariants as miss;
ghost use Rattle.ttp_world.specs.declared.node.Entry.TheVariants as entry;

use crate::bus::{Heard, heard_in, size_of};
use crate::clocks::add_clock_reason;
use crate::flips::add_flipping;
use crate::frames::frame_sent;
use crate::members::add_members_reason;
use crate::places::{cstate_in, place_slot};
use crate::said::add_path;
use crate::senders::{add_silencing, add_spots, has_frames, noisy_in, remaining_in};
use crate::view::{deviation_in, is_within_window, view_of_bytes, view_of_sent};
use causes::{Because, Cause, Miss, ScriptLine, Spot};
use node_parts::reception::rank_of;
use run_looks::{Question, Sources, first_line, newest_departure};
use run_rows::RunRows;
use std::alloc::Global;
use ttp_base::{List, Memory, NodeSet};
use ttp_world::{Channel, ChannelView, Entry, Reason, Verdict};

// Adds the paths of two nodes that are at different places.
fn add_elsewhere(
    run: &RunRows,
    sender: u8,
    node: u8,
    before: u32,
    out: &mut Sources,
) -> Result<Miss, Memory>
    requires sender { sender < length run.now.list.slots }
    requires node { node < length run.now.list.slots }
    requires before { before ≤ run.now.slots }
    ensures { IfOk result (λ miss. (miss ≡ (elsewhere sender node (past_slots run.now before)).miss) × AddsSources out.old out.new (elsewhere sender node (past_slots run.now before)).sources) }
{
    add_path(run, node, before, out)?;
    add_path(run, sender, before, out)?;
    Ok(Miss::Elsewhere(sender))
}

// Two nodes are at the same place in a slot.
fn is_same_place(run: &RunRows, slot: u32, one: u8, other: u8) -> bool
    requires slot { slot < run.now.slots }
    requires one { one < length run.now.list.slots }
    requires other { other < length run.now.list.slots }
    ensures { result ≡ is_same_place (place_of_node one (run_slot run.now slot)) (place_of_node other (run_slot run.now slot)) }
{
    let one = cstate_in(run, slot, one, NodeSet::empty());
    let other = cstate_in(run, slot, other, NodeSet::empty());
    one.time == other.time && one.round == other.round && one.slot == other.slot
}

fn is_started(entry: &Entry) -> bool
    ensures { result ≡ is_started entry.now }
{
    matches!(entry, Entry::Started)
}

// Of a channel that brings a frame as it was sent, or one that is seen as that would be.
fn add_frame_reason(
    alloc: Global,
    run: &RunRows,
    sender: u8,
    node: u8,
    slot: u32,
    out: &mut Sources,
) -> Result<Miss, Memory>
    requires sender { sender < length run.now.list.slots }
    requires node { node < length run.now.list.slots }
    requires slot { slot < run.now.slots }
    ensures { IfOk result (λ miss. (miss ≡ (frame_reason sender node (run_slot run.now slot) (past_slots run.now slot)).miss) × AddsSources out.old out.new (frame_reason sender node (run_slot run.now slot) (past_slots run.now slot)).sources) }
{
    if is_started(&run.row(slot, sender).entry) {
        out.add_entry(Spot { slot, node: sender })?;
        return Ok(Miss::ColdStart(sender));
    }
    let deviation = deviation_in(run, slot, node, sender);
    if !is_within_window(run.list(), &deviation) {
        return add_clock_reason(alloc, run, sender, node, slot, out);
    }
    if !is_same_place(run, slot, sender, node) {
        return add_elsewhere(run, sender, node, slot, out);
    }
    add_members_reason(run, sender, node, slot, out)
}

// The lines that were added to the sources from a place on, once more.
fn lines_from(alloc: Global, out: &Sources, from: usize) -> Result<List<ScriptLine>, Memory>
    requires { from ≤ length out.now.lines }
    ensures { IfOk result (λ lines. lines ≡ drop from out.now.lines) }
{
    let mut lines = List::new(alloc);
    for at in from..out.lines.len() {
        lines.push(*out.lines.get(at))?;
    }
    Ok(lines)
}

// The nodes of a set, as a list.
fn nodes_of(alloc: Global, nodes: u8, set: NodeSet) -> Result<List<u8>, Memory>
    requires few { nodes ≤ 24 }
    requires set { set ≡ filter (has_node set) (below nodes) }
    ensures { IfOk result (λ list. list ≡ set) }
{
    let mut list = List::new(alloc);
    for node in 0..nodes {
        if set.has(node) {
            list.push(node)?;
        }
    }
    Ok(list)
}

fn is_same_view(one: ChannelView, other: ChannelView) -> bool
    ensures { result ≡ is_same_view one other }
{
    rank_of(one) == rank_of(other)
}

// Of bits: whether they are seen as they would be without flips.
fn add_bits_reason(
    alloc: Global,
    run: &RunRows,
    sender: u8,
    node: u8,
    slot: u32,
    channel: Channel,
    bytes: &[u8],
    out: &mut Sources,
) -> Result<Miss, Memory>
    requires sender { sender < length run.now.list.slots }
    requires node { node < length run.now.list.slots }
    requires slot { slot < run.now.slots }
    requires sends { IsTrue (sends_in (run_slot run.now slot) sender) }
    ensures { IfOk result (λ miss. (miss ≡ (bits_reason node (run_slot run.now slot) (past_slots run.now slot) channel sender (Bits sender bytes.now)).miss) × AddsSources out.old out.new (bits_reason node (run_slot run.now slot) (past_slots run.now slot) channel sender (Bits sender bytes.now)).sources) }
{
    let sent = frame_sent(run, slot, sender);
    let seen = view_of_bytes(run, slot, node, sender, bytes);
    if is_same_view(seen, view_of_sent(run, slot, node, sender)) {
        return add_frame_reason(alloc, run, sender, node, slot, out);
    }
    let from = out.lines.len();
    add_flipping(run, slot, sender, channel, size_of(&sent), out)?;
    Ok(Miss::Flipped(lines_from(alloc, out, from)?))
}

// Of noise: a line, or else the nodes whose frames meet.
fn add_noise_reason(
    alloc: Global,
    run: &RunRows,
    node: u8,
    slot: u32,
    channel: Channel,
    out: &mut Sources,
) -> Result<Miss, Memory>
    requires slot { slot < run.now.slots }
    ensures { IfOk result (λ miss. (miss ≡ (noise_reason (run_slot run.now slot) channel (noisy_in node (run_slot run.now slot) channel)).miss) × AddsSources out.old out.new (noise_reason (run_slot run.now slot) channel (noisy_in node (run_slot run.now slot) channel)).sources) }
{
    match noisy_in(run, slot, node, channel) {
        Some(line) => {
            out.add_line(line)?;
            Ok(Miss::Noisy(line))
        }
        None => {
            let remaining = remaining_in(run, slot, channel);
            add_spots(run, slot, remaining, out)?;
            Ok(Miss::Collision(nodes_of(alloc, run.list().nodes(), remaining)?))
        }
    }
}

fn add_silence_reason(
    alloc: Global,
    run: &RunRows,
    node: u8,
    slot: u32,
    channel: Channel,
    out: &mut Sources,
) -> Result<Miss, Memory>
    requires slot { slot < run.now.slots }
    ensures { IfOk result (λ told. (told ≡ (by_lines miss.Silenced (silencing_in node (run_slot run.now slot) channel)).miss)
        × AddsSources out.old out.new (by_lines miss.Silenced (silencing_in node (run_slot run.now slot) channel)).sources) }
{
    let from = out.lines.len();
    add_silencing(run, slot, node, channel, out)?;
    Ok(Miss::Silenced(lines_from(alloc, out, from)?))
}

// Adds the reason of a channel in a slot in which somebody sent.
fn add_channel_reason(
    alloc: Global,
    run: &RunRows,
    node: u8,
    slot: u32,
    channel: Channel,
    out: &mut Sources,
) -> Result<Miss, Memory>
    requires node { node < length run.now.list.slots }
    requires slot { slot < run.now.slots }
    ensures { IfOk result (λ miss. (miss ≡ (channel_reason node (run_slot run.now slot) (past_slots run.now slot) channel).miss) × AddsSources out.old out.new (channel_reason node (run_slot run.now slot) (past_slots run.now slot) channel).sources) }
{
    match heard_in(run, slot, node, channel) {
        Heard::Silence => add_silence_reason(alloc, run, node, slot, channel, out),
        Heard::Noise => add_noise_reason(alloc, run, node, slot, channel, out),
        Heard::Bits { sender, frame, .. } => {
            add_bits_reason(
                alloc,
                run,
                sender,
                node,
                slot,
                channel,
                frame.as_slice(),
                out,
            )
        }
    }
}

// Adds a departure since which a node is not there.
fn add_absence_since(left: Spot, out: &mut Sources) -> Result<Miss, Memory>
    ensures { IfOk result (λ miss. (miss ≡ (absence_since left.node left).miss) × AddsSources out.old out.new (absence_since left.node left).sources) }
{
    out.add_entry(left)?;
    Ok(Miss::Left {
        node: left.node,
        slot: left.slot,
    })
}

// Adds why the peer did not send that left in the slot.
fn add_leaving(
    run: &RunRows,
    peer: u8,
    node: u8,
    slot: u32,
    reason: Reason,
    out: &mut Sources,
) -> Result<Miss, Memory>
    requires peer { peer < length run.now.list.slots }
    requires node { node < length run.now.list.slots }
    requires slot { slot < run.now.slots }
    ensures { (to : ℕ) → IfOk result (λ miss. (miss ≡ (absence_reason peer node (run_slot run.now slot) (past_slots run.now slot) (entry.Left reason to)).miss) × AddsSources out.old out.new (absence_reason peer node (run_slot run.now slot) (past_slots run.now slot) (entry.Left reason to)).sources) }
{
    match reason {
        Reason::Denied => add_elsewhere(run, peer, node, slot, out),
        Reason::Unacknowledged => add_absence_since(Spot { slot, node: peer }, out),
        Reason::Clique => add_absence_since(Spot { slot, node: peer }, out),
    }
}

// Adds why the peer did not send, by what it did.
fn add_absence(
    run: &RunRows,
    peer: u8,
    node: u8,
    slot: u32,
    out: &mut Sources,
) -> Result<Miss, Memory>
    requires peer { peer < length run.now.list.slots }
    requires node { node < length run.now.list.slots }
    requires slot { slot < run.now.slots }
    ensures { IfOk result (λ miss. (miss ≡ (absence_reason peer node (run_slot run.now slot) (past_slots run.now slot) (entry_in_slot peer (run_slot run.now slot))).miss) × AddsSources out.old out.new (absence_reason peer node (run_slot run.now slot) (past_slots run.now slot) (entry_in_slot peer (run_slot run.now slot))).sources) }
{
    match run.row(slot, peer).entry {
        Entry::Off => Ok(Miss::Off(peer)),
        Entry::Gone => add_absence_since(newest_departure(run, peer, slot), out),
        Entry::Left { reason, .. } => add_leaving(run, peer, node, slot, reason, out),
        Entry::Waited => {
            out.add_entry(Spot { slot, node: peer })?;
            Ok(Miss::Listens(peer))
        }
        Entry::Retried => {
            out.add_entry(Spot { slot, node: peer })?;
            Ok(Miss::Retries(peer))
        }
        Entry::Started => add_elsewhere(run, peer, node, slot, out),
        Entry::Sent { .. } => add_elsewhere(run, peer, node, slot, out),
        Entry::Joined { .. } => add_elsewhere(run, peer, node, slot, out),
        Entry::Judged { .. } => add_elsewhere(run, peer, node, slot, out),
    }
}

// Adds why nobody was heard in a slot in which nobody sent.
fn add_nobody_reason(run: &RunRows, node: u8, slot: u32, out: &mut Sources) -> Result<Miss, Memory>
    requires node { node < length run.now.list.slots }
    requires slot { slot < run.now.slots }
    ensures { IfOk result (λ miss. (miss ≡ (nobody_reason node (run_slot run.now slot) (past_slots run.now slot)).miss) × AddsSources out.old out.new (nobody_reason node (run_slot run.now slot) (past_slots run.now slot)).sources) }
{
    let question = Question::Deafens {
        receiver: node,
        slot,
    };
    match first_line(run, question) {
        Some(line) => {
            out.add_line(line)?;
            Ok(Miss::Deaf(line))
        }
        None => add_absence(run, place_slot(run, slot, node), node, slot, out),
    }
}

fn is_seen_as(verdict: Verdict, view: ChannelView) -> bool
    ensures { result ≡ is_seen_as verdict view }
{
    match verdict {
        Verdict::Invalid => matches!(view, ChannelView::Bad),
        Verdict::Incorrect => matches!(view, ChannelView::Other),
        _ => false,
    }
}

// Bits are seen as the verdict says, and would be so as they were sent.
fn decides_bits(
    run: &RunRows,
    node: u8,
    slot: u32,
    verdict: Verdict,
    sender: u8,
    bytes: &[u8],
) -> bool
    requires node { node < length run.now.list.slots }
    requires slot { slot < run.now.slots }
    requires sender { sender < length run.now.list.slots }
    requires sends { IsTrue (sends_in (run_slot run.now slot) sender) }
    ensures { result ≡ decides_by node (run_slot run.now slot) verdict (Bits sender bytes.now) }
{
    if !is_seen_as(verdict, view_of_bytes(run, slot, node, sender, bytes)) {
        return false;
    }
    is_seen_as(verdict, view_of_sent(run, slot, node, sender))
}

// A channel brings a frame that is seen as the verdict says, and would be so as it was sent.
fn decides(run: &RunRows, node: u8, slot: u32, verdict: Verdict, channel: Channel) -> bool
    requires node { node < length run.now.list.slots }
    requires slot { slot < run.now.slots }
    ensures { result ≡ decides node (run_slot run.now slot) verdict channel }
{
    match heard_in(run, slot, node, channel) {
        Heard::Silence => false,
        Heard::Noise => false,
        Heard::Bits { sender, frame, .. } => {
            decides_bits(run, node, slot, verdict, sender, frame.as_slice())
        }
    }
}

// Adds the reasons of an entry, and tells them.
fn add_missed(
    alloc: Global,
    run: &RunRows,
    node: u8,
    slot: u32,
    verdict: Verdict,
    out: &mut Sources,
) -> Result<Because, Memory>
    requires node { node < length run.now.list.slots }
    requires slot { slot < run.now.slots }
    ensures { IfOk result (λ because. (because ≡ (missed_cause node (run_slot run.now slot) (past_slots run.now slot) verdict).because)
        × AddsSources out.old out.new (sources_of (missed_cause node (run_slot run.now slot) (past_slots run.now slot) verdict))) }
{
    if !has_frames(run, slot) {
        return Ok(Because::Missed(add_nobody_reason(run, node, slot, out)?));
    }
    if decides(run, node, slot, verdict, Channel::A) {
        let on_a = add_channel_reason(alloc, run, node, slot, Channel::A, out)?;
        return Ok(Because::Missed(on_a));
    }
    if decides(run, node, slot, verdict, Channel::B) {
        let on_b = add_channel_reason(alloc, run, node, slot, Channel::B, out)?;
        return Ok(Because::Missed(on_b));
    }
    let a = add_channel_reason(alloc, run, node, slot, Channel::A, out)?;
    let b = add_channel_reason(alloc, run, node, slot, Channel::B, out)?;
    Ok(Because::MissedOnEach { a, b })
}

/// The cause of a node's null, invalid or incorrect entry in a slot.
pub(crate) fn missed_cause(
    alloc: Global,
    run: &RunRows,
    node: u8,
    slot: u32,
    verdict: Verdict,
) -> Result<Cause, Memory>
    requires node { node < length run.now.list.slots }
    requires slot { slot < run.now.slots }
    ensures { IfOk result (λ cause. cause ≡ missed_cause node (run_slot run.now slot) (past_slots run.now slot) verdict) }
{
    let mut out = Sources::none(alloc);
    let because = add_missed(alloc, run, node, slot, verdict, &mut out)?;
    Ok(out.cause_by(because))
}
