//! Published frames, and frames beside those of an encoder that goes bit by bit.
ghost use Rattle.std.specs.Prelude.{◌≡◌, ◌*◌, ◌^◌, ◌<◌, ◌≤◌, length};
ghost use Rattle.ttp_world.specs.Medl.{member_bytes, IsValid};

use super::check_words::register_after;
use super::lists::mixed_nodes;
use std::alloc::Global;
use ttp_base::members_of;
use ttp_frame::{Expect, FrameIn, FrameMatch, encode, is_joinable_state, judge, read_explicit};
use ttp_world::{CState, Medl};

// The number of words that members have.
fn room(wide: bool) -> u32
    ensures { result ≡ 2 ^ (8 * member_bytes wide) }
{
    if wide { 0x100_0000 } else { 0x1_0000 }
}

/// The length of the frame in the buffer's front, of which the rest is kept; 0 where it is no frame.
pub(super) fn encoded(frame: &FrameIn, start: u32, out: &mut [u8; 256]) -> usize
    ensures { result ≤ 256 }
{
    let size = frame.payload.len();
    if frame.header > 3 || size > 240 || start >= 0x100_0000 {
        return 0;
    }
    if (frame.header == 1 || frame.header == 3) && size != 0 {
        return 0;
    }
    if frame.cstate.members.bits() >= room(frame.wide) {
        return 0;
    }
    encode(frame, start, out)
}

// Whether a frame is judged so, where one may be expected.
fn is_judged(bytes: &[u8], start: u32, expect: &Expect, cstate: &CState, due: FrameMatch) -> bool {
    if expect.header > 3 || expect.payload > 240 || start >= 0x100_0000 {
        return false;
    }
    if (expect.header == 1 || expect.header == 3) && expect.payload != 0 {
        return false;
    }
    if cstate.members.bits() >= room(expect.wide) {
        return false;
    }
    judge(bytes, start, expect, cstate) == due
}

/// A C-state, by the word of its members.
pub(super) fn state(time: u16, round: u8, slot: u8, members: u32) -> CState {
    CState {
        time,
        round,
        slot,
        members: members_of(members),
    }
}

// Whether members are wide, and the bytes of a cold start of node 0 alone.
const PUBLISHED: &[(bool, &[u8])] = &[
    (false, b"\x03\x00\x00\x00\x00\x00\x01\x64\xda\xb6"),
    (true, b"\x03\x00\x00\x00\x00\x00\x00\x01\x5e\x19\xa1"),
];

// The bytes of a frame without payload, the members of its receiver, and how it is judged.
const JUDGED: &[(&[u8], u32, FrameMatch)] = &[
    (b"\x00\xdd\xd7\x98", 1, FrameMatch::Match),
    (b"\x00\xdd\xd7\x98", 3, FrameMatch::Differs),
    (b"\x00\x3b\x15\x63", 3, FrameMatch::Match),
    (b"\x00\xdd\xd7", 1, FrameMatch::Invalid),
];

const BARE: Expect = Expect {
    wide: false,
    header: 0,
    payload: 0,
};

fn are_judged() -> bool {
    for (bytes, members, found) in JUDGED {
        if !is_judged(bytes, 0, &BARE, &state(0, 0, 0, *members), *found) {
            return false;
        }
    }
    true
}

fn are_encoded() -> bool {
    for (wide, bytes) in PUBLISHED {
        let mut out = [0xffu8; 256];
        let frame = FrameIn {
            wide: *wide,
            header: 3,
            cstate: state(0, 0, 0, 1),
            payload: &[],
        };
        let len = encoded(&frame, 0, &mut out);
        if &out[..len] != *bytes {
            return false;
        }
    }
    true
}

#[test]
fn published_frames(rt: HostRuntime) {
    assert!(rt; are_encoded() && are_judged());
}

// The bytes of an encoder that goes bit by bit: the first `len` of these.
#[derive(Clone, Copy)]
struct Slow {
    len: usize,
    bytes: [u8; 256],
}

const NO_BYTES: Slow = Slow {
    len: 0,
    bytes: [0; 256],
};

// Puts a byte behind the others.
fn push(slow: &mut Slow, byte: u8) {
    if slow.len < 256 {
        slow.bytes[slow.len] = byte;
        slow.len += 1;
    }
}

fn push_all(slow: &mut Slow, bytes: &[u8]) {
    for byte in bytes {
        push(slow, *byte);
    }
}

fn push_number(slow: &mut Slow, number: u32, count: u32)
    requires { count ≤ 4 }
{
    for k in 0..count {
        push(slow, ((number >> (8 * (count - 1 - k))) & 0xff) as u8);
    }
}

// Those that were put.
fn put_bytes(slow: &Slow) -> &[u8] {
    match slow.bytes.get(..slow.len) {
        Some(bytes) => bytes,
        None => &[],
    }
}

fn push_state(slow: &mut Slow, frame: &FrameIn) {
    push_number(slow, u32::from(frame.cstate.time), 2);
    push(slow, frame.cstate.round);
    push(slow, frame.cstate.slot);
    let count = if frame.wide { 3 } else { 2 };
    push_number(slow, frame.cstate.members.bits(), count);
}

// Whether these are the bytes of a frame. Its check word goes over all before it, and where the C-state is not sent,
// over the C-state first.
fn is_slow_frame(frame: &FrameIn, start: u32, bytes: &[u8]) -> bool {
    let mut slow = NO_BYTES;
    if frame.header == 0 {
        push_state(&mut slow, frame);
    }
    let unsent = slow.len;
    push(&mut slow, frame.header);
    if frame.header != 0 {
        push_state(&mut slow, frame);
    }
    push_all(&mut slow, frame.payload);
    let word = register_after(start, put_bytes(&slow));
    push_number(&mut slow, word, 3);
    put_bytes(&slow).get(unsent..) == Some(bytes)
}

// The next of a sequence of numbers that looks like chance.
fn next_number(number: &mut u32) -> u32 {
    *number = number.wrapping_mul(1_664_525).wrapping_add(1_013_904_223);
    *number >> 8
}

// Flips the bits of a pattern, the first at a place.
fn flip_run(bytes: &mut [u8], from: usize, pattern: u32)
    requires { from < 2 ^ 32 }
{
    for k in 0..24usize {
        let bit = from + k;
        if (pattern >> k) & 1 == 1 && bit / 8 < bytes.len() {
            bytes[bit / 8] ^= 0x80 >> (bit % 8);
        }
    }
}

// The first place at which a flipped bit is not seen. A bit of the header or one that an explicit C-state's
// word goes over leaves no frame; without that C-state it is another sender's.
fn unseen_bit(bytes: &mut [u8], start: u32, expect: &Expect, cstate: &CState) -> Option<usize>
    requires { length bytes.old ≤ 256 }
{
    for from in 0..8 * bytes.len() {
        let due = if expect.header == 0 && from >= 8 {
            FrameMatch::Differs
        } else {
            FrameMatch::Invalid
        };
        flip_run(bytes, from, 1);
        let is_seen = is_judged(bytes, start, expect, cstate, due);
        flip_run(bytes, from, 1);
        if !is_seen {
            return Some(from);
        }
    }
    None
}

// The first width of a run of up to 24 flipped bits that leaves a match, and is not past the end.
fn unseen_run(bytes: &mut [u8], start: u32, expect: &Expect, cstate: &CState) -> Option<u32>
    requires { length bytes.old ≤ 256 }
{
    let bits = 8 * bytes.len();
    let mut number = start;
    for width in 2..25u32 {
        let pattern = (next_number(&mut number) % (1 << width)) | 1 | (1 << (width - 1));
        let from = next_number(&mut number) as usize % (bits + 1);
        flip_run(bytes, from, pattern);
        let matches = is_judged(bytes, start, expect, cstate, FrameMatch::Match);
        flip_run(bytes, from, pattern);
        if matches != (from == bits) {
            return Some(width);
        }
    }
    None
}

// Numbers that look like chance for a payload.
fn some_payload(number: &mut u32) -> [u8; 240] {
    let mut payload = [0u8; 240];
    for byte in payload.iter_mut() {
        *byte = (next_number(number) & 0xff) as u8;
    }
    payload
}

fn some_state(number: &mut u32, wide: bool) -> CState {
    state(
        (next_number(number) & 0xffff) as u16,
        (next_number(number) & 0xff) as u8,
        (next_number(number) & 0xff) as u8,
        next_number(number) % room(wide),
    )
}

// The payload of each round's frame: a frame with a C-state and no data has none.
fn size_in(round: u32, header: u8) -> u8
    requires { round < 32 }
    ensures { result ≤ 240 }
{
    if header % 2 == 1 {
        0
    } else {
        [0, 1, 239, 240][(round / 8) as usize]
    }
}

// No single flipped bit, and no run of up to 24 of them, leaves a match.
fn flips_are_seen(bytes: &mut [u8], start: u32, expect: &Expect, cstate: &CState) -> bool
    requires { length bytes.old ≤ 256 }
{
    unseen_bit(bytes, start, expect, cstate).is_none()
        && unseen_run(bytes, start, expect, cstate).is_none()
        && is_judged(bytes, start, expect, cstate, FrameMatch::Match)
}

// A frame beside the slow one, and with flips.
fn is_right(frame: &FrameIn, size: u8, start: u32) -> bool {
    let mut out = [0xffu8; 256];
    let len = encoded(frame, start, &mut out);
    let expect = Expect {
        wide: frame.wide,
        header: frame.header,
        payload: size,
    };
    is_slow_frame(frame, start, &out[..len])
        && flips_are_seen(&mut out[..len], start, &expect, &frame.cstate)
}

// Whether the frame of a round is right.
fn is_as_slow(round: u32, number: &mut u32) -> bool
    requires { round < 32 }
{
    let payload = some_payload(number);
    let wide = round % 2 == 1;
    let header = (round / 2 % 4) as u8;
    let size = size_in(round, header);
    let frame = FrameIn {
        wide,
        header,
        cstate: some_state(number, wide),
        payload: &payload[..size as usize],
    };
    is_right(&frame, size, next_number(number) & 0xff_ffff)
}

fn are_as_slow() -> bool {
    let mut number = 1;
    for round in 0..32u32 {
        if !is_as_slow(round, &mut number) {
            return false;
        }
    }
    true
}

#[test]
fn frames_of_all_kinds(rt: HostRuntime) {
    assert!(rt; are_as_slow());
}

// A C-state's round, slot and members, and whether a node may join on it.
const STATES: &[(u8, u8, u32, bool)] = &[
    (0, 0, 0b1101, true),
    (0, 3, 0b1000, true),
    (0, 3, 0b0111, false),
    (0, 3, 0b11000, false),
    (0, 4, 0b10000, false),
    (1, 3, 0b1000, false),
];

fn are_joinable(list: &Medl) -> bool
    requires { IsValid list.now }
{
    for (round, slot, members, joinable) in STATES {
        if is_joinable_state(list, &state(513, *round, *slot, *members)) != *joinable {
            return false;
        }
    }
    true
}

// A frame's header, the round, slot and members of its C-state, its payload, and whether a node joins on it.
type JoinCase = (u8, u8, u8, u32, &'static str, bool);

const JOIN_CASES: &[JoinCase] = &[
    (3, 0, 0, 0b0001, "", true),
    (3, 0, 3, 0b1000, "", false),
    (1, 0, 0, 0b1101, "", true),
    (1, 0, 3, 0b1000, "", true),
    (1, 0, 3, 0b0111, "", false),
    (1, 0, 3, 0b11000, "", false),
    (1, 1, 3, 0b1000, "", false),
    (1, 0, 4, 0b10000, "", false),
    (1, 0, 1, 0b0010, "", false),
    (2, 0, 1, 0b0011, "ab", true),
    (2, 0, 1, 0b0011, "a", false),
    (2, 0, 2, 0b0100, "ab", false),
    (0, 0, 2, 0b0100, "ab", false),
];

// Whether the frame is read as it is due to be, and not at all without its last byte or with a flipped bit.
fn is_read(list: &Medl, out: &mut [u8; 256], len: usize, due: Option<CState>) -> bool
    requires valid { IsValid list.now }
    requires len { len ≤ 256 }
{
    let whole = read_explicit(&out[..len], list);
    let short = read_explicit(&out[..len.saturating_sub(1)], list);
    flip_run(out, 79, 1);
    whole == due && short.is_none() && read_explicit(&out[..len], list).is_none()
}

fn joins_as_due(list: &Medl, case: &JoinCase) -> bool
    requires { IsValid list.now }
{
    let (header, round, slot, members, payload, joins) = *case;
    let cstate = state(513, round, slot, members);
    let frame = FrameIn {
        wide: false,
        header,
        cstate,
        payload: payload.as_bytes(),
    };
    let mut out = [0u8; 256];
    let len = encoded(&frame, 7, &mut out);
    is_read(list, &mut out, len, if joins { Some(cstate) } else { None })
}

fn all_join_as_due(list: &Medl) -> bool
    requires { IsValid list.now }
{
    for case in JOIN_CASES {
        if !joins_as_due(list, case) {
            return false;
        }
    }
    true
}

// Whether nodes join on the states and on the frames of four nodes as they are due to.
fn join_in_list(alloc: Global) -> bool {
    match &mixed_nodes(alloc) {
        Ok(list) => are_joinable(list) && all_join_as_due(list),
        Err(_) => false,
    }
}

#[test]
fn nodes_join_on_states_and_frames_that_the_list_gives(rt: HostRuntime) {
    assert!(rt; join_in_list(rt.alloc()));
}
