//! What a node hears of the frames of a slot.
ghost use Rattle.causes.specs.Judged.{came_as_sent};
ghost use Rattle.causes.specs.LinesOf.{bytes_sent, heard_in, noise_sources, noisy_in, spoilt_by, spoilt_in};
ghost use Rattle.causes.specs.Listening.{has_joinable};
ghost use Rattle.causes.specs.RunSlots.{RunSlot};
ghost use Rattle.causes.specs.Said.{frame_joined, frame_to_join};
ghost use Rattle.entry_causes.specs.Hearing.{IsHeardBelow, IsHeardFrom, IsHeardInSlot, is_heard_as_sent};
ghost use Rattle.entry_causes.specs.Hearing.{joined_shown, sends_joinable, signal_heard};
ghost use Rattle.entry_causes.specs.Senders.{sends_in};
ghost use Rattle.run_looks.specs.Added.{AddsSources};
ghost use Rattle.run_rows.specs.Rows.{run_slot};
ghost use Rattle.std.specs.Option.{option_map};
ghost use Rattle.std.specs.Prelude.{IfSome, IsTrue, OnOk, length, ℕ, ◌<◌, ◌≡◌, ◌≤◌};
ghost use Rattle.ttp_world.specs.Medium.{Bits, flip_bits, signal_of, with_noise};
ghost use Rattle.ttp_world.specs.Medl.{IsValid};
ghost use Rattle.ttp_world.specs.Script.{flipped_bits, has_receive_fault, has_send_fault};
ghost use Rattle.ttp_world.specs.declared.script.Fault.TheVariants as fault;

use crate::flips::{add_flipping, flip_frame};
use crate::frames::frame_sent;
use crate::senders::{
    add_silencing, add_spots, alone, has_frames, is_sending, noisy_in, remaining_in,
};
use medium::{Outgoing, is_among};
use run_looks::Sources;
use run_rows::RunRows;
use ttp_base::Memory;
use ttp_frame::read_explicit;
use ttp_world::{Channel, Medl};

/// What a node hears on a channel.
#[derive(Drop)]
pub(crate) enum Heard {
    Silence,
    Noise,
    Bits {
        sender: u8,
        frame: Outgoing,
        is_as_sent: bool,
    },
}

// The frame of a node, as its flips leave it on a channel.
fn bits_of(run: &RunRows, slot: u32, channel: Channel, sender: u8) -> Heard
    requires slot { slot < run.now.slots }
    requires sender { sender < length run.now.list.slots }
    requires sends { IsTrue (sends_in (run_slot run.now slot) sender) }
    ensures signal { signal_heard result ≡ Bits sender (flip_bits (bytes_sent (run_slot run.now slot).frames sender)
        (flipped_bits run.now.script sender channel slot)) }
    ensures as_sent { is_heard_as_sent result ≡ came_as_sent (run_slot run.now slot) (signal_heard result) }
    ensures sender { IsHeardFrom sender result }
{
    let sent = frame_sent(run, slot, sender);
    let mut frame = frame_sent(run, slot, sender);
    flip_frame(&mut frame, run.script().flips(sender, slot), channel);
    let is_as_sent = frame.as_slice() == sent.as_slice();
    Heard::Bits {
        sender,
        frame,
        is_as_sent,
    }
}

// A node's frame is made noise on a channel in a slot.
fn is_sent_noisy(run: &RunRows, slot: u32, channel: Channel, sender: u8) -> bool
    ensures { result ≡ has_send_fault run.now.script fault.Noise sender channel slot }
{
    is_among(channel, run.script().incidents(sender, slot).send_noise)
}

// What is heard of the frame of a node that sends alone on a channel, be it through noise.
fn heard_of(run: &RunRows, slot: u32, channel: Channel, sender: u8, noisy: bool) -> Heard
    requires slot { slot < run.now.slots }
    requires sender { sender < length run.now.list.slots }
    requires sends { IsTrue (sends_in (run_slot run.now slot) sender) }
    ensures signal { signal_heard result ≡ with_noise noisy
        (signal_of run.now.script slot channel (record { sender = sender; bytes = bytes_sent (run_slot run.now slot).frames sender })) }
    ensures as_sent { is_heard_as_sent result ≡ came_as_sent (run_slot run.now slot) (signal_heard result) }
    ensures sender { IsHeardFrom sender result }
{
    if noisy {
        return Heard::Noise;
    }
    if is_sent_noisy(run, slot, channel, sender) {
        return Heard::Noise;
    }
    bits_of(run, slot, channel, sender)
}

// A node hears silence on a channel in a slot, whatever is there.
fn is_silenced(run: &RunRows, slot: u32, channel: Channel, node: u8) -> bool
    ensures { result ≡ has_receive_fault (run_slot run.now slot).begun.script fault.Silence node channel (run_slot run.now slot).begun.number }
{
    is_among(channel, run.script().incidents(node, slot).receive_silence)
}

// A node hears noise on a channel in a slot where something is there.
fn is_noisy(run: &RunRows, slot: u32, channel: Channel, node: u8) -> bool
    ensures { result ≡ has_receive_fault (run_slot run.now slot).begun.script fault.Noise node channel (run_slot run.now slot).begun.number }
{
    is_among(channel, run.script().incidents(node, slot).receive_noise)
}

/// What a node hears on a channel in a slot.
pub(crate) fn heard_in(run: &RunRows, slot: u32, node: u8, channel: Channel) -> Heard
    requires slot { slot < run.now.slots }
    ensures signal { signal_heard result ≡ heard_in node (run_slot run.now slot) channel }
    ensures as_sent { is_heard_as_sent result ≡ came_as_sent (run_slot run.now slot) (heard_in node (run_slot run.now slot) channel) }
    ensures sender { IsHeardInSlot run.now.list (run_slot run.now slot) result }
{
    if is_silenced(run, slot, channel, node) {
        return Heard::Silence;
    }
    let remaining = remaining_in(run, slot, channel);
    if remaining.count() == 0 {
        return Heard::Silence;
    }
    match alone(remaining) {
        Some(sender) => heard_of(
            run,
            slot,
            channel,
            sender,
            is_noisy(run, slot, channel, node),
        ),
        None => Heard::Noise,
    }
}

// Adds what makes noise on a channel to a node.
fn add_noise(
    run: &RunRows,
    slot: u32,
    node: u8,
    channel: Channel,
    out: &mut Sources,
) -> Result<(), Memory>
    requires slot { slot < run.now.slots }
    ensures { OnOk result (AddsSources out.old out.new (noise_sources channel (run_slot run.now slot) (noisy_in node (run_slot run.now slot) channel))) }
{
    match noisy_in(run, slot, node, channel) {
        Some(line) => out.add_line(line),
        None => add_spots(run, slot, remaining_in(run, slot, channel), out),
    }
}

/// How many bytes a frame has.
pub(crate) fn size_of(frame: &Outgoing) -> u16
    ensures value { result ≡ length frame.now }
    ensures fits { result ≤ 256 }
{
    frame.len
}

// Adds what spoils a channel to a node.
fn add_spoilt_on(
    run: &RunRows,
    slot: u32,
    node: u8,
    channel: Channel,
    out: &mut Sources,
) -> Result<(), Memory>
    requires slot { slot < run.now.slots }
    ensures { OnOk result (AddsSources out.old out.new (spoilt_by node (run_slot run.now slot) channel (heard_in node (run_slot run.now slot) channel))) }
{
    match heard_in(run, slot, node, channel) {
        Heard::Silence => add_silencing(run, slot, node, channel, out),
        Heard::Noise => add_noise(run, slot, node, channel, out),
        Heard::Bits { sender, frame, .. } => {
            add_flipping(run, slot, sender, channel, size_of(&frame), out)
        }
    }
}

/// Adds what spoils both channels to a node in a slot.
pub(crate) fn add_spoilt(
    run: &RunRows,
    slot: u32,
    node: u8,
    out: &mut Sources,
) -> Result<(), Memory>
    requires slot { slot < run.now.slots }
    ensures { OnOk result (AddsSources out.old out.new (spoilt_in node (run_slot run.now slot))) }
{
    if has_frames(run, slot) {
        add_spoilt_on(run, slot, node, Channel::A, out)?;
        return add_spoilt_on(run, slot, node, Channel::B, out);
    }
    Ok(())
}

// A node sends a frame in a slot on which, as it is sent, another can join.
fn sends_joinable(run: &RunRows, slot: u32, node: u8) -> bool
    requires slot { slot < run.now.slots }
    requires node { node < length run.now.list.slots }
    ensures { result ≡ sends_joinable (run_slot run.now slot) node }
{
    is_sending(&run.row(slot, node).entry)
        && read_explicit(frame_sent(run, slot, node).as_slice(), run.list()).is_some()
}

/// A frame was sent in a slot on which, as it was sent, a node can join.
pub(crate) fn has_joinable(run: &RunRows, slot: u32) -> bool
    requires slot { slot < run.now.slots }
    ensures { result ≡ has_joinable (run_slot run.now slot) }
{
    for node in 0..run.nodes() {
        if sends_joinable(run, slot, node) {
            return true;
        }
    }
    false
}

/// The frame on which a node joins: its sender, and whether it came as it was sent.
#[derive(Clone, Copy)]
pub(crate) struct JoinedFrame {
    pub(crate) sender: u8,
    pub(crate) is_as_sent: bool,
}

// The frame of a channel, where a node can join on it.
fn frame_to_join(list: &Medl, heard: &Heard) -> Option<JoinedFrame>
    requires { IsValid list.now }
    ensures value { (s : RunSlot) → is_heard_as_sent heard.now ≡ came_as_sent s (signal_heard heard.now)
        → option_map joined_shown result ≡ frame_to_join list.now s (signal_heard heard.now) }
    ensures sender { (n : ℕ) → IsHeardBelow n heard.now → IfSome result (λ joined. joined.sender < n) }
{
    match heard {
        Heard::Silence | Heard::Noise => None,
        Heard::Bits {
            sender,
            frame,
            is_as_sent,
        } => {
            if read_explicit(frame.as_slice(), list).is_some() {
                Some(JoinedFrame {
                    sender: *sender,
                    is_as_sent: *is_as_sent,
                })
            } else {
                None
            }
        }
    }
}

// The frame of a channel in a slot, where a node can join on it.
fn frame_on(run: &RunRows, slot: u32, node: u8, channel: Channel) -> Option<JoinedFrame>
    requires slot { slot < run.now.slots }
    ensures value { option_map joined_shown result
        ≡ frame_to_join (run_slot run.now slot).begun.list (run_slot run.now slot) (heard_in node (run_slot run.now slot) channel) }
    ensures sender { IfSome result (λ joined. joined.sender < length run.now.list.slots) }
{
    let heard = heard_in(run, slot, node, channel);
    frame_to_join(run.list(), &heard)
}

/// The frame on which a node joins in a slot: on the first channel that brings it one.
pub(crate) fn frame_joined(run: &RunRows, slot: u32, node: u8) -> Option<JoinedFrame>
    requires slot { slot < run.now.slots }
    ensures value { option_map joined_shown result ≡ frame_joined node (run_slot run.now slot) }
    ensures sender { IfSome result (λ joined. joined.sender < length run.now.list.slots) }
{
    match frame_on(run, slot, node, Channel::A) {
        Some(joined) => Some(joined),
        None => frame_on(run, slot, node, Channel::B),
    }
}
