//! Who sends in a slot, and the lines and entries that silence a channel or make noise on it.
ghost use Rattle.std.specs.Prelude.{◌≡◌, ◌<◌, [], ◌∷◌, length, OnOk};
ghost use Rattle.std.specs.List.{filter_map};
ghost use Rattle.causes.specs.LinesOf.{has_frames, noisy_in, remaining_in, senders_of, silencing_in, spots_in, widest_line};
ghost use Rattle.causes.specs.Listening.{hears_nothing};
ghost use Rattle.causes.specs.Sources.{only_entries, only_lines};
ghost use Rattle.entry_causes.specs.Senders.{is_left_on, the_one};
ghost use Rattle.run_looks.specs.Added.{AddsSources};
ghost use Rattle.run_rows.specs.Rows.{run_slot};
ghost use Rattle.ttp_world.specs.declared.script.Fault.TheVariants as fault;
ghost use Rattle.ttp_world.specs.Events.{is_send_fault};
ghost use Rattle.ttp_world.specs.Medium.{is_sending};
ghost use Rattle.ttp_world.specs.Membership.{AreNodes};

use causes::{ScriptLine, Spot};
use medium::is_among;
use run_looks::{Question, Sources, widest_line};
use run_rows::RunRows;
use ttp_base::{Memory, NodeSet};
use ttp_world::{Channel, Entry, Fault};

/// An entry is of a frame that the node sent.
pub(crate) fn is_sending(entry: &Entry) -> bool
    ensures { result ≡ is_sending entry.now }
{
    matches!(entry, Entry::Started | Entry::Sent { .. })
}

/// The nodes that send in a slot.
pub(crate) fn senders_in(run: &RunRows, slot: u32) -> NodeSet
    requires { slot < run.now.slots }
    ensures value { result ≡ senders_of (run_slot run.now slot).frames }
    ensures nodes { AreNodes run.now.list result }
{
    let mut senders = NodeSet::empty();
    for node in 0..run.list().nodes() {
        if is_sending(&run.row(slot, node).entry) {
            senders = senders.with(node);
        }
    }
    senders
}

/// Somebody sends in a slot.
pub(crate) fn has_frames(run: &RunRows, slot: u32) -> bool
    requires { slot < run.now.slots }
    ensures { result ≡ has_frames (run_slot run.now slot).frames }
{
    senders_in(run, slot).count() != 0
}

// A node sends in a slot a frame of which something remains on a channel.
fn is_remaining(run: &RunRows, slot: u32, channel: Channel, node: u8) -> bool
    requires slot { slot < run.now.slots }
    requires node { node < length run.now.list.slots }
    ensures { result ≡ is_left_on channel (run_slot run.now slot) node }
{
    is_sending(&run.row(slot, node).entry)
        && !is_among(channel, run.script().incidents(node, slot).send_silence)
}

/// The nodes of whose frames something remains on a channel.
pub(crate) fn remaining_in(run: &RunRows, slot: u32, channel: Channel) -> NodeSet
    requires { slot < run.now.slots }
    ensures value { result ≡ remaining_in channel (run_slot run.now slot) }
    ensures nodes { AreNodes run.now.list result }
{
    let mut remaining = NodeSet::empty();
    for node in 0..run.list().nodes() {
        if is_remaining(run, slot, channel, node) {
            remaining = remaining.with(node);
        }
    }
    remaining
}

/// The one of some nodes, if it is one.
pub(crate) fn alone(nodes: NodeSet) -> Option<u8>
    ensures { result ≡ the_one nodes }
{
    if nodes.count() == 1 {
        nodes.first()
    } else {
        None
    }
}

/// A node is deaf in a slot: both of its channels are silenced.
pub(crate) fn hears_nothing(run: &RunRows, slot: u32, node: u8) -> bool
    ensures { result ≡ hears_nothing node (run_slot run.now slot) }
{
    let silent = run.script().incidents(node, slot).receive_silence;
    silent.a && silent.b
}

// Adds what silences the frames of a node on a channel.
fn add_sender_silencing(
    run: &RunRows,
    slot: u32,
    channel: Channel,
    sender: u8,
    out: &mut Sources,
) -> Result<(), Memory>
    ensures { OnOk result (AddsSources out.old out.new (only_lines
        (filter_map (λ p. widest_line (is_send_fault fault.Silence p channel slot) run.now.script) (sender ∷ [])))) }
{
    let question = Question::StrikesSender {
        kind: Fault::Silence,
        sender,
        channel,
        slot,
    };
    match widest_line(run, question) {
        Some(line) => out.add_line(line),
        None => Ok(()),
    }
}

// What silences the frames of each of some nodes on a channel.
fn add_each_silencing(
    run: &RunRows,
    slot: u32,
    channel: Channel,
    senders: NodeSet,
    out: &mut Sources,
) -> Result<(), Memory>
    requires { AreNodes run.now.list senders }
    ensures { OnOk result (AddsSources out.old out.new (only_lines
        (filter_map (λ p. widest_line (is_send_fault fault.Silence p channel slot) run.now.script) senders))) }
{
    for sender in 0..run.list().nodes() {
        if senders.has(sender) {
            add_sender_silencing(run, slot, channel, sender, out)?;
        }
    }
    Ok(())
}

/// Adds the silencing lines of a channel to a node in a slot in which somebody sends.
pub(crate) fn add_silencing(
    run: &RunRows,
    slot: u32,
    node: u8,
    channel: Channel,
    out: &mut Sources,
) -> Result<(), Memory>
    requires { slot < run.now.slots }
    ensures { OnOk result (AddsSources out.old out.new (only_lines
        (silencing_in node (run_slot run.now slot) channel))) }
{
    let senders = senders_in(run, slot);
    let question = Question::Strikes {
        kind: Fault::Silence,
        receiver: node,
        sender: alone(senders),
        channel,
        slot,
    };
    match widest_line(run, question) {
        Some(line) => out.add_line(line),
        None => add_each_silencing(run, slot, channel, senders, out),
    }
}

/// The noisy line, if there is one.
pub(crate) fn noisy_in(run: &RunRows, slot: u32, node: u8, channel: Channel) -> Option<ScriptLine>
    requires { slot < run.now.slots }
    ensures { result ≡ noisy_in node (run_slot run.now slot) channel }
{
    let question = Question::Strikes {
        kind: Fault::Noise,
        receiver: node,
        sender: alone(remaining_in(run, slot, channel)),
        channel,
        slot,
    };
    widest_line(run, question)
}

/// Adds the entries of some nodes in a slot.
pub(crate) fn add_spots(
    run: &RunRows,
    slot: u32,
    nodes: NodeSet,
    out: &mut Sources,
) -> Result<(), Memory>
    requires { AreNodes run.now.list nodes }
    ensures { OnOk result (AddsSources out.old out.new (only_entries (spots_in (run_slot run.now slot) nodes))) }
{
    for node in 0..run.list().nodes() {
        if nodes.has(node) {
            out.add_entry(Spot { slot, node })?;
        }
    }
    Ok(())
}
