//! Lines as the format of the trace gives them, of states that no run is asked for.
ghost use Rattle.std.specs.Prelude.{◌<◌, IsTrue};
ghost use Rattle.ttp_base.specs.NodeSet.{set_bits};
ghost use Rattle.ttp_world.specs.Medl.{member_limit};

use line_text::{
    NodeLines, RingMessage, put_back, put_keep, put_node_line, put_read_line, put_write_line,
};
use std::alloc::Global;
use ttp_base::{Line, List, Memory, MemorySink, NodeSet};
use ttp_world::{Ack, Back, Entry, Keep, Medl, NodeState, Phase, Source, Verdict};

// A list without slots: of it a line needs the version alone.
fn list(alloc: Global, version: u8) -> Medl {
    Medl {
        version,
        rounds: 1,
        schedule: 0,
        buffers: 2,
        drift: 0,
        error: 0,
        window: 1,
        modes: 1,
        slots: List::new(alloc),
    }
}

// A sink in which nothing fails, with so much room.
fn sink_with(alloc: Global, room: usize) -> Result<MemorySink, Memory> {
    MemorySink::new(alloc, room, List::new(alloc))
}

// An active node's line: the list's version, the node, the sender that it judged and how, a member beside four others,
// both counts, the acknowledgement, the clock and the message; and what is written of it into a sink with so much room.
#[derive(Clone, Copy)]
struct NodeCase {
    version: u8,
    node: u8,
    sender: u8,
    verdict: Verdict,
    member: u8,
    accepted: u8,
    rejected: u8,
    ack: Ack,
    offset: i64,
    message: Option<u64>,
    room: usize,
    text: &'static str,
}

const FIRST: NodeCase = NodeCase {
    version: 1,
    node: 0,
    sender: 2,
    verdict: Verdict::Correct,
    member: 2,
    accepted: 3,
    rejected: 0,
    ack: Ack::Closed,
    offset: 0,
    message: Some(2),
    room: 111,
    text: "slot 17 node 0 correct peer 2 msg 2 mem 001f acc 3 rej 0 ack none clock 0\n",
};

// Nodes of slot 17 that judge it alike, and then otherwise in one thing after another.
const ROWS: &[NodeCase] = &[
    FIRST,
    NodeCase {
        node: 1,
        text: "slot 17 node 1 correct peer 2 msg 2 mem 001f acc 3 rej 0 ack none clock 0\n",
        ..FIRST
    },
    NodeCase {
        node: 3,
        member: 4,
        text: "slot 17 node 3 correct peer 2 msg 2 mem 001b acc 3 rej 0 ack none clock 0\n",
        ..FIRST
    },
    NodeCase {
        node: 4,
        member: 4,
        message: Some(3),
        text: "slot 17 node 4 correct peer 2 msg 3 mem 001b acc 3 rej 0 ack none clock 0\n",
        ..FIRST
    },
    NodeCase {
        node: 5,
        member: 4,
        message: None,
        text: "slot 17 node 5 correct peer 2 msg - mem 001b acc 3 rej 0 ack none clock 0\n",
        ..FIRST
    },
    NodeCase {
        node: 6,
        verdict: Verdict::Tentative,
        member: 4,
        message: None,
        text: "slot 17 node 6 tentative peer 2 msg - mem 001b acc 3 rej 0 ack none clock 0\n",
        ..FIRST
    },
    NodeCase {
        node: 7,
        sender: 3,
        verdict: Verdict::Tentative,
        member: 4,
        message: None,
        text: "slot 17 node 7 tentative peer 3 msg - mem 001b acc 3 rej 0 ack none clock 0\n",
        ..FIRST
    },
];

// What the line of a row shows of its node.
fn state_of(row: &NodeCase, members: NodeSet) -> NodeState {
    NodeState {
        phase: Phase::Active,
        entry: Entry::Judged {
            sender: row.sender,
            verdict: row.verdict,
            deviation: 0,
        },
        members,
        accepted: row.accepted,
        rejected: row.rejected,
        ack: row.ack,
        offset: row.offset,
    }
}

// Whether members can be written in a list's digits.
fn fits(list: &Medl, members: NodeSet) -> bool
    ensures { IsTrue result → set_bits members < member_limit list.now }
{
    if list.version == 2 {
        members.bits() < 16_777_216
    } else {
        members.bits() < 65_536
    }
}

// Whether the line of a row's node is its text, whole or not at all.
fn is_line(alloc: Global, row: &NodeCase, newest: &mut NodeLines) -> bool {
    if row.member >= 24 {
        return false;
    }
    let members = NodeSet::empty().with(0).with(1).with(3).with(4);
    let state = state_of(row, members.with(row.member));
    let list = list(alloc, row.version);
    if !fits(&list, state.members) {
        return false;
    }
    let Ok(mut out) = sink_with(alloc, row.room) else {
        return false;
    };
    let is_whole = put_node_line(&list, row.node, &state, row.message, newest, &mut out).is_ok();
    is_whole != row.text.is_empty() && out.bytes() == row.text.as_bytes()
}

// Whether it is so of rows, one after another, in a slot.
fn are_lines(alloc: Global, slot: u32, rows: &[NodeCase]) -> bool {
    let mut newest = NodeLines::new();
    newest.begin(slot);
    for row in rows {
        if !is_line(alloc, row, &mut newest) {
            return false;
        }
    }
    true
}

#[test]
fn lines_of_one_slot(rt: HostRuntime) {
    assert!(rt; are_lines(rt.alloc(), 17, ROWS));
}

// The widest line with a message that there can be: the members of a list of version 2 have six digits.
const WIDEST: NodeCase = NodeCase {
    version: 2,
    node: 23,
    sender: 23,
    verdict: Verdict::Correct,
    member: 23,
    accepted: 255,
    rejected: 255,
    ack: Ack::Doubt(22),
    offset: -576_460_752_303_423_488,
    message: Some(20_000),
    room: 111,
    text: "slot 19999 node 23 correct peer 23 msg 20000 mem 80001b acc 255 rej 255 ack doubt:22 clock -576460752303423488\n",
};

const WHOLE: &[NodeCase] = &[WIDEST];

const REFUSED: &[NodeCase] = &[NodeCase {
    room: 110,
    text: "",
    ..WIDEST
}];

#[test]
fn a_wide_line_is_one_piece(rt: HostRuntime) {
    let alloc = rt.alloc();
    assert!(rt; are_lines(alloc, 19_999, WHOLE) && are_lines(alloc, 19_999, REFUSED));
}

const PART: [u64; 2] = [0xffee_ddcc_bbaa_9988, 0x7700_0000_0000_0000];

const HOST_LINES: &str = "slot 11 host 1 read 23 20000 ffeeddccbbaa998877\n\
    slot 11 host 1 read 0 0 77\n\
    slot 19999 host 23 write 60000\n";

// Whether the lines of messages of nine bytes and of one that a host reads, and of one that a host writes, are right.
fn are_host_lines(alloc: Global) -> bool {
    let nine = RingMessage {
        source: Source::Node(23),
        number: 20_000,
        words: &PART,
        size: 9,
    };
    let one = RingMessage {
        source: Source::Node(0),
        number: 0,
        words: &PART[1..],
        size: 1,
    };
    let Ok(mut sink) = sink_with(alloc, 200) else {
        return false;
    };
    let mut line = Line::new();
    put_read_line(11, 1, &nine, &mut line, &mut sink).is_ok()
        && put_read_line(11, 1, &one, &mut line, &mut sink).is_ok()
        && put_write_line(19_999, 23, 60_000, &mut line, &mut sink).is_ok()
        && sink.bytes() == HOST_LINES.as_bytes()
}

// Whether so many bytes are written where the longest line there is and then a short one come into a sink with so
// much room: a line that is longer than its sink is refused whole.
fn is_longest_line(alloc: Global, room: usize, written: usize) -> bool {
    let words: [u64; 30] = [0x6162_6364_6566_6768; 30];
    let message = RingMessage {
        source: Source::Node(23),
        number: 20_000,
        words: &words,
        size: 240,
    };
    let mut line = Line::new();
    let Ok(mut sink) = sink_with(alloc, room) else {
        return false;
    };
    let is_whole = put_read_line(19_999, 23, &message, &mut line, &mut sink).is_ok();
    let is_taken = put_write_line(3, 4, 5, &mut line, &mut sink).is_ok();
    let bytes = sink.bytes();
    is_whole == (written > 22)
        && is_taken
        && bytes.len() == written
        && bytes.ends_with(b"slot 3 host 4 write 5\n".as_slice())
}

// A payload of 240 bytes makes the longest line there is.
#[test]
fn lines_of_hosts(rt: HostRuntime) {
    let alloc = rt.alloc();
    assert!(rt;
        are_host_lines(alloc)
            && is_longest_line(alloc, 600, 33 + 480 + 1 + 22)
            && is_longest_line(alloc, 513, 22)
    );
}

#[derive(Clone, Copy)]
enum Answer {
    Keep(Keep),
    Back(Back),
}

// Answers, and what is written of their lines into a sink with so much room.
const ANSWERS: &[(Answer, usize, &str)] = &[
    (
        Answer::Keep(Keep::Yes { start: 20_070 }),
        22,
        "keeps yes start 20070\n",
    ),
    (Answer::Keep(Keep::No { rule: 4, slot: 0 }), 13, ""),
    (
        Answer::Back(Back::No { rule: 8, slot: 37 }),
        21,
        "returns no Q8 37\n",
    ),
    (Answer::Back(Back::No { rule: 2, slot: 0 }), 15, ""),
];

// Whether the line of an answer is its text, whole or not at all.
fn is_answer(alloc: Global, case: &(Answer, usize, &str)) -> bool {
    let (answer, room, text) = case;
    let Ok(mut out) = sink_with(alloc, *room) else {
        return false;
    };
    let is_whole = match answer {
        Answer::Keep(keep) => put_keep(keep, &mut out).is_ok(),
        Answer::Back(back) => put_back(back, &mut out).is_ok(),
    };
    is_whole != text.is_empty() && out.bytes() == text.as_bytes()
}

fn are_answers(alloc: Global) -> bool {
    for case in ANSWERS {
        if !is_answer(alloc, case) {
            return false;
        }
    }
    true
}

#[test]
fn answers_of_both_tests(rt: HostRuntime) {
    assert!(rt; are_answers(rt.alloc()));
}
