//! What a third node hears of two others by the faults of each kind, worked out by hand.
ghost use Rattle.ttp_world.specs.Events.{IsBounded};

use super::lists::let_go;
use medium::{Arrival, Medium, Outgoing, received};
use std::alloc::Global;
use ttp_base::List;
use ttp_world::Fault::{self, Noise, Silence};
use ttp_world::{Channel, Channels, Event, Events, Medl, Script};

const A: Channels = Channels { a: true, b: false };

const B: Channels = Channels { a: false, b: true };

const BOTH: Channels = Channels { a: true, b: true };

// A line of a script that speaks of slot 3: faults by the node whose they are.
#[derive(Clone, Copy)]
enum Said {
    None,
    Send(u8, Channels, Fault),
    Receive(u8, Channels, Fault),
    Flip(u8, Channels, u16),
}

// What is heard on a channel: bits by their bytes, and by the offset of the node that sent them.
#[derive(Clone, Copy)]
enum Sound {
    Silence,
    Noise,
    Bits(&'static [u8], i64),
}

// Whether nodes 0 and 1 send.
const NEITHER: [bool; 2] = [false, false];

const FIRST: [bool; 2] = [true, false];

const SECOND: [bool; 2] = [false, true];

const EACH: [bool; 2] = [true, true];

// What they send, and how far their clocks are ahead.
const SENT: [([u8; 3], i64); 2] = [([0x10, 0xa5, 0xff], -7), ([0x11, 0x00, 0x3c], 40)];
// What is heard of these two without faults.
const ZERO: Sound = Sound::Bits(&[0x10, 0xa5, 0xff], -7);

const ONE: Sound = Sound::Bits(&[0x11, 0x00, 0x3c], 40);

fn event(line: Said) -> Event
    ensures { IsBounded result }
{
    match line {
        Said::None => Event::Arm { node: 9, slot: 3 },
        Said::Send(node, channels, fault) => Event::Send {
            node,
            channels,
            fault,
            from: 3,
            to: 3,
        },
        Said::Receive(node, channels, fault) => Event::Receive {
            node,
            channels,
            fault,
            from: 2,
            to: 4,
        },
        Said::Flip(node, channels, bit) => Event::Flip {
            node,
            channels,
            bit,
            slot: 3,
        },
    }
}

fn script(alloc: Global, lines: [Said; 2]) -> Option<Script> {
    let Ok(events) = vec![in alloc; event(lines[0]), event(lines[1])] else {
        return None;
    };
    match Events::index(alloc, List::from_vec(events)) {
        Ok(events) => Some(Script {
            slots: 6,
            on: List::new(alloc),
            drift: List::new(alloc),
            events,
        }),
        Err(_) => None,
    }
}

fn is_heard(arrival: &Arrival, heard: Sound) -> bool {
    match (arrival, heard) {
        (Arrival::Silence, Sound::Silence) | (Arrival::Noise, Sound::Noise) => true,
        (Arrival::Bits { bytes, offset }, Sound::Bits(wanted, ahead)) => {
            *bytes == wanted && *offset == ahead
        }
        _ => false,
    }
}

// A list whose only use is to be there.
fn empty_list(alloc: Global) -> Medl {
    Medl {
        version: 1,
        rounds: 1,
        schedule: 0,
        buffers: 2,
        drift: 0,
        error: 0,
        window: 1,
        modes: 1,
        slots: List::new(alloc),
    }
}

fn outgoing(bytes: [u8; 3]) -> Outgoing {
    let mut frame = Outgoing {
        len: 3,
        bytes: [0xee; 256],
    };
    frame.bytes[0] = bytes[0];
    frame.bytes[1] = bytes[1];
    frame.bytes[2] = bytes[2];
    frame
}

// Puts a node's frame on the medium, in its slot.
fn put_in_slot(medium: &mut Medium, script: &Script, node: u8, frame: &Outgoing, offset: i64) {
    let incidents = script.incidents(node, medium.slot());
    medium.put(script, &incidents, node, frame, offset);
}

// Two lines of the script, who sends, and what node 2 hears on channels A and B.
type SlotHeard = ([Said; 2], [bool; 2], Sound, Sound);

const ROWS: &[SlotHeard] = &[
    (
        [Said::None, Said::None],
        NEITHER,
        Sound::Silence,
        Sound::Silence,
    ),
    ([Said::None, Said::None], FIRST, ZERO, ZERO),
    ([Said::None, Said::None], SECOND, ONE, ONE),
    // Two frames, a frame and noise, a frame beside a silenced one, and silence over noise.
    ([Said::None, Said::None], EACH, Sound::Noise, Sound::Noise),
    (
        [Said::Send(0, BOTH, Noise), Said::None],
        EACH,
        Sound::Noise,
        Sound::Noise,
    ),
    (
        [Said::Send(1, BOTH, Noise), Said::None],
        EACH,
        Sound::Noise,
        Sound::Noise,
    ),
    ([Said::Send(0, BOTH, Silence), Said::None], EACH, ONE, ONE),
    ([Said::Send(1, BOTH, Silence), Said::None], EACH, ZERO, ZERO),
    (
        [Said::Send(0, A, Silence), Said::None],
        EACH,
        ONE,
        Sound::Noise,
    ),
    (
        [Said::Send(0, A, Silence), Said::Send(1, B, Silence)],
        EACH,
        ONE,
        ZERO,
    ),
    (
        [Said::Send(0, B, Noise), Said::None],
        FIRST,
        ZERO,
        Sound::Noise,
    ),
    (
        [Said::Send(0, A, Noise), Said::Send(0, A, Silence)],
        FIRST,
        Sound::Silence,
        ZERO,
    ),
    (
        [Said::Send(0, A, Noise), Said::Send(0, A, Silence)],
        EACH,
        ONE,
        Sound::Noise,
    ),
    ([Said::Send(2, BOTH, Noise), Said::None], FIRST, ZERO, ZERO),
    // Flips inside, past the end, of one bit twice, of two bits, and of another node.
    (
        [Said::Flip(0, A, 8), Said::None],
        FIRST,
        Sound::Bits(&[0x10, 0x25, 0xff], -7),
        ZERO,
    ),
    (
        [Said::Flip(0, B, 23), Said::None],
        FIRST,
        ZERO,
        Sound::Bits(&[0x10, 0xa5, 0xfe], -7),
    ),
    ([Said::Flip(0, BOTH, 24), Said::None], FIRST, ZERO, ZERO),
    (
        [Said::Flip(0, A, 12), Said::Flip(0, BOTH, 12)],
        FIRST,
        ZERO,
        Sound::Bits(&[0x10, 0xad, 0xff], -7),
    ),
    (
        [Said::Flip(1, A, 8), Said::Flip(1, A, 16)],
        SECOND,
        Sound::Bits(&[0x11, 0x80, 0xbc], 40),
        ONE,
    ),
    ([Said::Flip(1, BOTH, 8), Said::None], FIRST, ZERO, ZERO),
    // The receiver's own faults over a frame, noise and silence, and another receiver's.
    (
        [Said::Receive(2, A, Silence), Said::None],
        FIRST,
        Sound::Silence,
        ZERO,
    ),
    (
        [Said::Receive(2, B, Noise), Said::None],
        FIRST,
        ZERO,
        Sound::Noise,
    ),
    (
        [Said::Receive(2, A, Silence), Said::Receive(2, B, Noise)],
        EACH,
        Sound::Silence,
        Sound::Noise,
    ),
    (
        [Said::Receive(2, A, Silence), Said::Receive(2, B, Noise)],
        NEITHER,
        Sound::Silence,
        Sound::Silence,
    ),
    (
        [Said::Receive(2, A, Noise), Said::Receive(2, A, Silence)],
        FIRST,
        Sound::Silence,
        ZERO,
    ),
    (
        [Said::Receive(2, A, Noise), Said::Send(0, A, Silence)],
        FIRST,
        Sound::Silence,
        ZERO,
    ),
    (
        [
            Said::Receive(0, BOTH, Noise),
            Said::Receive(1, BOTH, Silence),
        ],
        FIRST,
        ZERO,
        ZERO,
    ),
];

// Puts the frames of those that send on the medium, in slot 3.
fn put_frames(medium: &mut Medium, script: &Script, sends: [bool; 2]) {
    medium.begin(3);
    for node in 0..2u8 {
        if sends[node as usize] {
            let (bytes, offset) = SENT[node as usize];
            put_in_slot(medium, script, node, &outgoing(bytes), offset);
        }
    }
}

// Whether node 2 hears on channels A and B what it is due to hear, by a script of the lines of a row.
fn hears(medium: &mut Medium, script: &Script, row: &SlotHeard) -> bool {
    let (_, sends, a, b) = *row;
    put_frames(medium, script, sends);
    let incidents = script.incidents(2, 3);
    is_heard(&medium.heard(&incidents, Channel::A), a)
        && is_heard(&medium.heard(&incidents, Channel::B), b)
}

fn are_heard(alloc: Global, medium: &mut Medium, row: &SlotHeard) -> bool {
    let Some(script) = script(alloc, row.0) else {
        return false;
    };
    let is_right = hears(medium, &script, row);
    let_go(script);
    is_right
}

fn each_is_heard(alloc: Global, medium: &mut Medium) -> bool {
    for row in ROWS {
        if !are_heard(alloc, medium, row) {
            return false;
        }
    }
    true
}

fn all_are_heard(alloc: Global) -> bool {
    match &mut Medium::new(alloc, &empty_list(alloc)) {
        Ok(medium) => each_is_heard(alloc, medium),
        Err(_) => false,
    }
}

#[test]
fn a_third_node_hears_what_is_left(rt: HostRuntime) {
    assert!(rt; all_are_heard(rt.alloc()));
}

// Whether node 2 hears nothing of the frame that a receiver without faults hears.
fn hears_less(medium: &mut Medium, script: &Script) -> bool {
    put_frames(medium, script, FIRST);
    let carried = medium.carried(Channel::A);
    let heard = received(&carried, &script.incidents(2, 3), Channel::A);
    is_heard(&carried, ZERO) && is_heard(heard, Sound::Silence)
}

// The receiver of node 2 is dead on channel A.
fn is_received(alloc: Global, medium: &mut Medium) -> bool {
    let Some(script) = script(alloc, [Said::Receive(2, A, Silence), Said::None]) else {
        return false;
    };
    let is_right = hears_less(medium, &script);
    let_go(script);
    is_right
}

fn less_is_received(alloc: Global) -> bool {
    match &mut Medium::new(alloc, &empty_list(alloc)) {
        Ok(medium) => is_received(alloc, medium),
        Err(_) => false,
    }
}

// Whether a copy of a medium carries what it carries.
fn is_copied(alloc: Global, medium: &mut Medium) -> bool {
    let Some(script) = script(alloc, [Said::None, Said::None]) else {
        return false;
    };
    put_frames(medium, &script, FIRST);
    let_go(script);
    match &mut Medium::new(alloc, &empty_list(alloc)) {
        Ok(copy) => {
            copy.copy_from(medium);
            is_heard(&copy.carried(Channel::A), ZERO)
        }
        Err(_) => false,
    }
}

fn copies(alloc: Global) -> bool {
    match &mut Medium::new(alloc, &empty_list(alloc)) {
        Ok(medium) => is_copied(alloc, medium),
        Err(_) => false,
    }
}

#[test]
fn a_copy_carries_the_same(rt: HostRuntime) {
    assert!(rt; copies(rt.alloc()));
}

#[test]
fn a_receiver_with_a_fault_hears_less_than_is_carried(rt: HostRuntime) {
    assert!(rt; less_is_received(rt.alloc()));
}

#[test]
fn frames_have_their_bytes(rt: HostRuntime) {
    assert!(rt; outgoing([1, 2, 3]).as_slice() == [1, 2, 3].as_slice());
}
