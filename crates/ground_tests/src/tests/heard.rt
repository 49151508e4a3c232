//! What a node makes of right, wrong, late and missing frames, worked out by hand.
use super::lists::mixed_nodes;
use super::slots::{Came, DueEntry, FirstFrame, FirstSlots, SlotCase, SlotStep, WAITS, each_goes};
use std::alloc::Global;
use ttp_world::{Ack, Reason, Verdict};

// The frames of nodes 0 and 3 on which others join, where nodes 0, 1 and 3 are members.
const OF_0: FirstFrame = FirstFrame {
    header: 1,
    time: 4,
    slot: 0,
    members: 0b1011,
    payload: b"",
};

const OF_3: FirstFrame = FirstFrame {
    time: 3,
    slot: 3,
    ..OF_0
};

// Node 1's frame on channel A, with all three members.
const ALL_A: FirstFrame = FirstFrame {
    header: 2,
    time: 5,
    slot: 1,
    members: 0b1011,
    payload: &[7, 9],
};

// That on channel B.
const ALL_B: FirstFrame = FirstFrame {
    payload: &[8, 9],
    ..ALL_A
};

// Frames on channel A without node 3, or without node 0, among the members.
const NOT_3_A: FirstFrame = FirstFrame {
    members: 0b0011,
    ..ALL_A
};

const NOT_3_B: FirstFrame = FirstFrame {
    members: 0b0011,
    ..ALL_B
};

const NOT_0_A: FirstFrame = FirstFrame {
    members: 0b1010,
    ..ALL_A
};

const NOT_0_B: FirstFrame = FirstFrame {
    members: 0b1010,
    ..ALL_B
};

// Node 2's frame, without node 0.
const OF_2: FirstFrame = FirstFrame {
    header: 0,
    time: 6,
    slot: 2,
    members: 0b1110,
    payload: &[7, 9],
};

// What comes to a node whose clock is 4 ahead and that reads 1 too much: frames 7 late, or so late, by 997, that they
// are outside the window.
const RIGHT_A: Came = Came::Frame(&ALL_A, 10);

const RIGHT_B: Came = Came::Frame(&ALL_B, 10);

const LATE_A: Came = Came::Frame(&ALL_A, 1000);

const LATE_B: Came = Came::Frame(&ALL_B, 1000);

const WRONG_A: Came = Came::Frame(&NOT_3_A, 10);

const WRONG_B: Came = Came::Frame(&NOT_3_B, 10);

const WRONG_TO_0: Came = Came::Frame(&NOT_0_B, 10);

// A node's clock is 4 ahead after it has joined on such a frame, and owes no answer.
const JOINED_ON_0: SlotCase = SlotCase {
    entry: DueEntry::Joined(&OF_0, 4),
    fresh: Some((0b1011, Ack::Closed, 4)),
    ..WAITS
};

const JOINED_ON_3: SlotCase = SlotCase {
    entry: DueEntry::Joined(&OF_3, 4),
    ..JOINED_ON_0
};

const SENT: SlotCase = SlotCase {
    sends: true,
    entry: DueEntry::Sent,
    fresh: Some((0b1011, Ack::First, 4)),
    ..WAITS
};

// Node 3 joins on node 0's frame. Node 0 joins on node 3's frame and then sends one that is not answered.
const ANSWERED: SlotStep = (Came::Frame(&OF_0, 4), Came::Frame(&OF_0, 4), JOINED_ON_0);

const JOINS: SlotStep = (Came::Frame(&OF_3, 4), Came::Frame(&OF_3, 4), JOINED_ON_3);

const SENDS: SlotStep = (Came::Silence, Came::Silence, SENT);

// A receiver judges node 1's frame so.
const CORRECT_A: SlotCase = SlotCase {
    error: 1,
    entry: DueEntry::Judged(1, Verdict::Correct, 7),
    byte: Some(7),
    ..WAITS
};

const CORRECT_B: SlotCase = SlotCase {
    byte: Some(8),
    ..CORRECT_A
};

const INCORRECT: SlotCase = SlotCase {
    entry: DueEntry::Judged(1, Verdict::Incorrect, 7),
    byte: None,
    ..CORRECT_A
};

const TENTATIVE: SlotCase = SlotCase {
    entry: DueEntry::Judged(1, Verdict::Tentative, 7),
    ..INCORRECT
};

const INVALID: SlotCase = SlotCase {
    entry: DueEntry::Judged(1, Verdict::Invalid, 0),
    ..INCORRECT
};

const INVALID_LATE: SlotCase = SlotCase {
    entry: DueEntry::Judged(1, Verdict::Invalid, 997),
    ..INCORRECT
};

const NULL: SlotCase = SlotCase {
    entry: DueEntry::Judged(1, Verdict::Null, 0),
    ..INCORRECT
};

// Node 3, which is answered, or node 0, which is not, goes on with a slot in which this comes.
const JUDGEMENTS: &[FirstSlots] = &[
    (3, &[ANSWERED, (RIGHT_A, WRONG_B, CORRECT_A)]),
    (3, &[ANSWERED, (RIGHT_A, LATE_B, CORRECT_A)]),
    (3, &[ANSWERED, (Came::Noise, RIGHT_B, CORRECT_B)]),
    (3, &[ANSWERED, (LATE_A, RIGHT_B, CORRECT_B)]),
    (3, &[ANSWERED, (WRONG_A, RIGHT_B, CORRECT_B)]),
    (3, &[ANSWERED, (WRONG_A, Came::Silence, INCORRECT)]),
    (3, &[ANSWERED, (LATE_A, WRONG_B, INCORRECT)]),
    (0, &[JOINS, SENDS, (RIGHT_A, WRONG_TO_0, CORRECT_A)]),
    (0, &[JOINS, SENDS, (Came::Silence, WRONG_TO_0, TENTATIVE)]),
    (3, &[ANSWERED, (LATE_A, LATE_B, INVALID_LATE)]),
    (3, &[ANSWERED, (Came::Noise, Came::Silence, INVALID)]),
    (3, &[ANSWERED, (Came::Silence, Came::Silence, NULL)]),
];

fn each_goes_in_mixed(alloc: Global, runs: &[FirstSlots]) -> bool {
    match &mixed_nodes(alloc) {
        Ok(list) => each_goes(alloc, list, runs),
        Err(_) => false,
    }
}

#[test]
fn better_channel_decides(rt: HostRuntime) {
    assert!(rt; each_goes_in_mixed(rt.alloc(), JUDGEMENTS));
}

// A new node, whose clock jumps to 4, joins on node 1's frame, which comes 7 late, or 997.
const JOINED: SlotCase = SlotCase {
    jump: 4,
    error: 1,
    entry: DueEntry::Joined(&ALL_A, 7),
    ..WAITS
};

const JOINED_LATE: SlotCase = SlotCase {
    entry: DueEntry::Joined(&ALL_A, 997),
    ..JOINED
};

const NOT_JOINED: SlotCase = SlotCase {
    entry: DueEntry::Waited,
    ..JOINED
};

// Bytes that are no frame.
const NO_FRAME: Came = Came::Bytes(b"\x02", 10);

const JOINS_ON_1: &[FirstSlots] = &[
    (3, &[(RIGHT_A, LATE_A, JOINED)]),
    (3, &[(LATE_A, RIGHT_A, JOINED_LATE)]),
    (3, &[(Came::Noise, RIGHT_A, JOINED)]),
    (3, &[(Came::Silence, RIGHT_A, JOINED)]),
    (3, &[(NO_FRAME, RIGHT_A, JOINED)]),
    (3, &[(Came::Noise, NO_FRAME, NOT_JOINED)]),
    (3, &[(Came::Silence, Came::Silence, NOT_JOINED)]),
];

#[test]
fn nodes_join_on_either_channel(rt: HostRuntime) {
    assert!(rt; each_goes_in_mixed(rt.alloc(), JOINS_ON_1));
}

// Node 0, which nobody answers, holds the frame of node 1, which does not hold it for a member, for tentative, and
// leaves on the frame of node 2, which does not hold it for a member either.
const DOUBTS: SlotCase = SlotCase {
    error: 1,
    entry: DueEntry::Judged(1, Verdict::Tentative, -3),
    ..WAITS
};

const LEAVES: SlotCase = SlotCase {
    error: 1,
    entry: DueEntry::Left(Reason::Denied, 2),
    ..WAITS
};

const DENIED: &[FirstSlots] = &[(
    0,
    &[
        JOINS,
        SENDS,
        (Came::Frame(&NOT_0_A, 0), Came::Frame(&NOT_0_A, 0), DOUBTS),
        (Came::Frame(&OF_2, 0), Came::Frame(&OF_2, 0), LEAVES),
    ],
)];

#[test]
fn denied_node_leaves(rt: HostRuntime) {
    assert!(rt; each_goes_in_mixed(rt.alloc(), DENIED));
}
