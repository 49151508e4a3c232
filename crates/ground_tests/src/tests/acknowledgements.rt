//! The table of moves at single states, and the candidates beside them, worked out by hand.
use node_parts::acknowledgement::{AckMove, AckState};
use ttp_base::NodeSet;
use ttp_world::{Ack, Verdict};

// A state in which node 4 is doubted.
fn doubting() -> AckState {
    let mut state = AckState::new();
    state.after_send();
    state.step(4, Verdict::Tentative);
    state
}

// The states before a move: the last one in which node 4 is doubted.
#[derive(Clone, Copy)]
enum Before {
    Closed,
    First,
    Doubt,
}

fn state_of(before: Before) -> AckState {
    let mut state = AckState::new();
    match before {
        Before::Closed => state,
        Before::First => {
            state.after_send();
            state
        }
        Before::Doubt => doubting(),
    }
}

// A state, the verdict on the frame of node 5, and the move and the state that follow.
const ROWS: &[(Before, Verdict, AckMove, Ack)] = &[
    (
        Before::Closed,
        Verdict::Correct,
        AckMove::Accept,
        Ack::Closed,
    ),
    (
        Before::First,
        Verdict::Correct,
        AckMove::Accept,
        Ack::Closed,
    ),
    (
        Before::First,
        Verdict::Tentative,
        AckMove::Hold,
        Ack::Doubt(5),
    ),
    (
        Before::Doubt,
        Verdict::Correct,
        AckMove::Resolve { other: 4 },
        Ack::Closed,
    ),
    (
        Before::Doubt,
        Verdict::Denied,
        AckMove::Leave,
        Ack::Doubt(4),
    ),
    (
        Before::First,
        Verdict::Incorrect,
        AckMove::Reject { counted: true },
        Ack::First,
    ),
    (
        Before::Doubt,
        Verdict::Invalid,
        AckMove::Reject { counted: true },
        Ack::Doubt(4),
    ),
    (
        Before::First,
        Verdict::Null,
        AckMove::Reject { counted: false },
        Ack::First,
    ),
    (
        Before::Closed,
        Verdict::Tentative,
        AckMove::Reject { counted: true },
        Ack::Closed,
    ),
    (
        Before::Doubt,
        Verdict::Tentative,
        AckMove::Reject { counted: true },
        Ack::Doubt(4),
    ),
    (
        Before::First,
        Verdict::Denied,
        AckMove::Reject { counted: true },
        Ack::First,
    ),
];

fn follows(before: Before, verdict: Verdict, asked: AckMove, after: Ack) -> bool {
    let mut state = state_of(before);
    let answer = state.step(5, verdict);
    let is_closed = state.value() == Ack::Closed;
    answer == asked && state.value() == after && state.is_open() != is_closed
}

fn all_follow() -> bool {
    for (before, verdict, asked, after) in ROWS {
        if !follows(*before, *verdict, *asked, *after) {
            return false;
        }
    }
    true
}

#[test]
fn moves_follow_the_table(rt: HostRuntime) {
    assert!(rt; all_follow());
}

// Whether node 2 tells these candidates on a frame of node 5, where it holds nodes 1 and 4 for members.
fn has_candidates(state: &AckState, first: u32, second: Option<u32>) -> bool {
    let members = NodeSet::empty().with(1).with(4);
    let (one, other) = state.candidates(2, members, 5);
    one.bits() == first
        && match other {
            Some(other) => second == Some(other.bits()),
            None => second.is_none(),
        }
}

#[test]
fn candidates_tell_whether_a_frame_was_received(rt: HostRuntime) {
    let closed = state_of(Before::Closed);
    let first = state_of(Before::First);
    assert!(rt;
        has_candidates(&closed, 0b11_0010, None)
            && has_candidates(&first, 0b11_0110, Some(0b11_0010))
            && has_candidates(&doubting(), 0b10_0110, Some(0b11_0010))
    );
}
