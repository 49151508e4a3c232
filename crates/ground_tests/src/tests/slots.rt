//! Slots of one controller: what comes to it, and what is due of it.
ghost use Rattle.std.specs.Prelude.{◌≡◌, ◌≤◌, true, unsigned_abs};
ghost use Rattle.ttp_world.specs.Medl.{IsValid};
ghost use Rattle.controller.specs.PlantWithin.{IsEnded};
ghost use Rattle.controller.specs.Limits.{offset_of_arrival};

use super::frames::{encoded, state};
use controller::{Controller, Intent, Outcome};
use medium::Arrival;
use std::alloc::Global;
use ttp_frame::FrameIn;
use ttp_world::{Ack, Delivered, Entry, Medl, NodeState, Phase, Reason, StatusWords, Verdict};

/// A frame of the first round: its header, the time, slot and members of its C-state, and its payload.
pub(super) struct FirstFrame {
    pub header: u8,
    pub time: u16,
    pub slot: u8,
    pub members: u32,
    pub payload: &'static [u8],
}

/// What comes on a channel: bytes and frames by the offset of the node that sent them.
#[derive(Clone, Copy)]
pub(super) enum Came {
    Silence,
    Noise,
    Bytes(&'static [u8], i16),
    Frame(&'static FirstFrame, i16),
}

/// What a node is due to enter.
#[derive(Clone, Copy)]
pub(super) enum DueEntry {
    Off,
    Waited,
    Started,
    /// A frame without a message.
    Sent,
    /// It joins on this frame, which comes so late.
    Joined(&'static FirstFrame, i64),
    /// Of the sender's frame, which comes so late.
    Judged(u8, Verdict, i64),
    Left(Reason, u8),
}

/// How a slot is for a node, and what the node is due to do in it.
pub(super) struct SlotCase {
    /// Whether it is to be on.
    pub on: bool,
    pub jump: i8,
    pub error: i8,
    pub drift: i8,
    /// Whether it sends.
    pub sends: bool,
    pub entry: DueEntry,
    /// The first byte of what is delivered.
    pub byte: Option<u8>,
    /// The members, the acknowledgement and the clock of a node that has just started, joined or sent.
    pub fresh: Option<(u32, Ack, i64)>,
}

/// What comes on channels A and B, and the slot.
pub(super) type SlotStep = (Came, Came, SlotCase);

/// A node that is on, whose clock goes on as it should, waits.
pub(super) const WAITS: SlotCase = SlotCase {
    on: true,
    jump: 0,
    error: 0,
    drift: 0,
    sends: false,
    entry: DueEntry::Waited,
    byte: None,
    fresh: None,
};

fn frame_in(frame: &FirstFrame) -> FrameIn<'_> {
    FrameIn {
        wide: false,
        header: frame.header,
        cstate: state(frame.time, 0, frame.slot, frame.members),
        payload: frame.payload,
    }
}

// The length of the frame that comes, which is put into the buffer's front.
fn put(came: Came, out: &mut [u8; 256]) -> usize
    ensures { result ≤ 256 }
{
    match came {
        Came::Frame(frame, _) => encoded(&frame_in(frame), 7, out),
        _ => 0,
    }
}

// What comes, where these are the bytes of the frame.
fn arrival_of(came: Came, frame: &[u8]) -> Arrival<'_>
    ensures { unsigned_abs (offset_of_arrival result) ≤ 40000 }
{
    match came {
        Came::Silence => Arrival::Silence,
        Came::Noise => Arrival::Noise,
        Came::Bytes(bytes, offset) => Arrival::Bits {
            bytes,
            offset: i64::from(offset),
        },
        Came::Frame(_, offset) => Arrival::Bits {
            bytes: frame,
            offset: i64::from(offset),
        },
    }
}

// Takes a node through a slot in which its frame carries no payload, and tells whether it sends as is due.
fn goes(
    node: &mut Controller,
    list: &Medl,
    slot: &SlotCase,
    jump: i64,
    a: &Arrival,
    b: &Arrival,
    error: i64,
    drift: i64,
    outcome: &mut Outcome,
) -> bool
    requires list { list.now ≡ node.old.list }
    requires turn { IsEnded node.old.turn }
    requires jump { unsigned_abs jump ≤ 1000 }
    requires a { unsigned_abs (offset_of_arrival a.now) ≤ 40000 }
    requires b { unsigned_abs (offset_of_arrival b.now) ≤ 40000 }
    requires error { unsigned_abs error ≤ 1000 }
    requires drift { unsigned_abs drift ≤ 1000 }
    ensures list { list.now ≡ node.new.list }
    ensures turn { result ≡ true → IsEnded node.new.turn }
{
    if list.window.unsigned_abs() > 1000 || node.state().offset.unsigned_abs() > 1000 {
        return false;
    }
    node.begin(list, slot.on, false, jump);
    if node.intent() == Intent::Loaded || node.clock().unsigned_abs() > 2000 {
        return false;
    }
    let sent = node.plan(list, 0, &[]).is_some();
    node.take(list, a, b, error, drift, outcome);
    sent == slot.sends
}

fn entry_of(due: DueEntry) -> Entry {
    match due {
        DueEntry::Off => Entry::Off,
        DueEntry::Waited => Entry::Waited,
        DueEntry::Started => Entry::Started,
        DueEntry::Sent => Entry::Sent { message: None },
        DueEntry::Joined(frame, deviation) => Entry::Joined {
            sender: frame.slot,
            cstate: state(frame.time, 0, frame.slot, frame.members),
            deviation,
        },
        DueEntry::Judged(sender, verdict, deviation) => Entry::Judged {
            sender,
            verdict,
            deviation,
        },
        DueEntry::Left(reason, peer) => Entry::Left { reason, peer },
    }
}

// The first byte of what is delivered.
fn first_byte(outcome: &Outcome) -> Option<u8> {
    match &outcome.delivered {
        Some(Delivered { payload, .. }) if payload.len == 2 => Some(payload.bytes[0]),
        _ => None,
    }
}

// Whether a node is active, has counted no frame, and shows these.
fn is_fresh(state: &NodeState, members: u32, ack: Ack, offset: i64) -> bool {
    state.phase == Phase::Active
        && state.members.bits() == members
        && state.accepted == 1
        && state.rejected == 0
        && state.ack == ack
        && state.offset == offset
}

// Whether a node shows after a slot what is due.
fn shows(state: &NodeState, slot: &SlotCase) -> bool {
    state.entry == entry_of(slot.entry)
        && match slot.fresh {
            Some((members, ack, offset)) => is_fresh(state, members, ack, offset),
            None => true,
        }
}

// Takes a node through a slot, and tells whether it does what is due.
fn follows(node: &mut Controller, list: &Medl, step: &SlotStep) -> bool
    requires list { list.now ≡ node.old.list }
    requires turn { IsEnded node.old.turn }
    ensures list { list.now ≡ node.new.list }
    ensures turn { result ≡ true → IsEnded node.new.turn }
{
    let (on_a, on_b, slot) = step;
    let mut frames = ([0u8; 256], [0u8; 256]);
    let len_a = put(*on_a, &mut frames.0);
    let len_b = put(*on_b, &mut frames.1);
    let a = arrival_of(*on_a, &frames.0[..len_a]);
    let b = arrival_of(*on_b, &frames.1[..len_b]);
    let mut outcome = Outcome {
        delivered: None,
        status: StatusWords { words: [0; 4] },
    };
    let (jump, error, drift) = (
        i64::from(slot.jump),
        i64::from(slot.error),
        i64::from(slot.drift),
    );
    goes(node, list, slot, jump, &a, &b, error, drift, &mut outcome)
        && shows(&node.state(), slot)
        && first_byte(&outcome) == slot.byte
}

fn follows_each(node: &mut Controller, list: &Medl, steps: &[SlotStep]) -> bool
    requires list { list.now ≡ node.old.list }
    requires turn { IsEnded node.old.turn }
{
    for step in steps {
        if !follows(node, list, step) {
            return false;
        }
    }
    true
}

// Whether a node that begins off does what is due in each of its first slots.
fn goes_on(alloc: Global, list: &Medl, number: u8, steps: &[SlotStep]) -> bool
    requires { IsValid list.now }
{
    if usize::from(number) >= list.slots.len() {
        return false;
    }
    match &mut Controller::new(alloc, list, number) {
        Ok(node) => node.state().phase == Phase::Off && follows_each(node, list, steps),
        Err(_) => false,
    }
}

/// A node by its number, and its first slots.
pub(super) type FirstSlots = (u8, &'static [SlotStep]);

/// Whether the node of each run does what is due.
pub(super) fn each_goes(alloc: Global, list: &Medl, runs: &[FirstSlots]) -> bool
    requires { IsValid list.now }
{
    for (number, steps) in runs {
        if !goes_on(alloc, list, *number, steps) {
            return false;
        }
    }
    true
}
