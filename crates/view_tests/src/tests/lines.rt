//! Lines of the format of the trace, and what is no such line.
use line_reader::{TraceLine, Word, read_line};
use ttp_base::Line;
use ttp_world::{Ack, Back, Keep, Source};

const LINES: &[&str] = &[
    "ttpbench trace 1 nodes 4 rounds 1 slots 12 schedule 000000",
    "ttpbench trace 255 nodes 255 rounds 255 slots 99999 schedule ffffff",
    "slot 0 node 3 off peer - msg - mem 0000 acc 0 rej 0 ack none clock 0",
    "slot 9 node 4 wait peer - msg - mem 000000 acc 0 rej 0 ack none clock 0",
    "slot 16 node 1 retry peer - msg - mem 0000 acc 0 rej 0 ack none clock 0",
    "slot 32 node 1 gone peer - msg - mem 0000 acc 0 rej 0 ack none clock -5",
    "slot 10 node 0 start peer 0 msg - mem 0001 acc 1 rej 0 ack first clock 0",
    "slot 10 node 1 join peer 0 msg - mem 0001 acc 1 rej 0 ack none clock 0",
    "slot 11 node 1 send peer 1 msg - mem 0003 acc 1 rej 0 ack first clock 0",
    "slot 17 node 2 send peer 2 msg 0 mem 001f acc 1 rej 0 ack first clock 0",
    "slot 11 node 0 correct peer 1 msg - mem 0003 acc 2 rej 0 ack none clock 0",
    "slot 71 node 0 correct peer 23 msg 999999 mem ffffff acc 24 rej 0 ack none clock 0",
    "slot 23 node 2 tentative peer 3 msg - mem 001f acc 1 rej 0 ack doubt:3 clock 0",
    "slot 24 node 3 incorrect peer 2 msg - mem 001b acc 2 rej 1 ack first clock 0",
    "slot 22 node 0 invalid peer 2 msg - mem 001b acc 2 rej 1 ack none clock 0",
    "slot 24 node 1 null peer 2 msg - mem 001b acc 2 rej 0 ack none clock 999999999999999999",
    "slot 24 node 2 denied peer 4 msg - mem 0000 acc 0 rej 0 ack none clock 0",
    "slot 33 node 3 unacknowledged peer 3 msg - mem 0000 acc 0 rej 0 ack none clock 0",
    "slot 99999 node 255 clique peer 255 msg - mem ffff acc 255 rej 255 ack doubt:255 clock -999999999999999999",
    "slot 17 host 2 write 1",
    "slot 99999 host 255 write 999999",
    "slot 11 host 1 read status 12 000000000000000b000000000000002900000001000100030000000000000100",
    "slot 17 host 0 read 2 1 0000000000000000",
    "slot 17 host 0 read 255 999999 fe",
    "keeps yes start 99999",
    "keeps no H255 99999",
    "returns yes start 99999",
    "returns no Q255 99999",
];

const NO_LINES: &[&str] = &[
    "",
    "slot 17 host 2 write 1\n",
    "slot 17 host 2 write 1 ",
    " slot 17 host 2 write 1",
    "slot 17  host 2 write 1",
    "slot 17 host 2 write",
    "slot 17 host 2 write ",
    "slot 17 host 2 write 01",
    "slot 017 host 2 write 1",
    "slot 00 host 2 write 1",
    "slot +17 host 2 write 1",
    "slot 100000 host 2 write 1",
    "slot 17 host 256 write 1",
    "slot 17 host 2 write 1000000",
    "slot 17 host 2 write -",
    "Slot 17 host 2 write 1",
    "slot 17 host 2 writes 1",
    "slot 17 host 2 read 1",
    "slot 17 host 0 read 2 1 ",
    "slot 17 host 0 read 2 1 0",
    "slot 17 host 0 read 2 1 0FE0",
    "slot 17 host 0 read 2 1 0g",
    "slot 17 host 0 read state 1 00",
    "slot 11 host 1 read status 12 00",
    "slot 11 host 1 read status 12 000000000000000b00000000000000290000000100010003000000000000010000",
    "keeps yes start 100000",
    "keeps no H256 1",
    "keeps no 4 1",
    "keeps no H04 1",
    "keeps no H4",
    "returns yes start 100000",
    "returns yes 12",
    "returns no Q256 1",
    "returns no H8 1",
    "returns no Q08 1",
    "returns no Q8",
    "ttpbench trace 1 nodes 4 rounds 1 slots 12 schedule 00000",
    "ttpbench trace 1 nodes 4 rounds 1 slots 12 schedule 00000A",
    "ttpbench trace 256 nodes 4 rounds 1 slots 12 schedule 000000",
    "ttpbench trace nodes 4 rounds 1 slots 12 schedule 000000",
];

// A node's line, of which one word is not as it is due.
const NO_LINES_OF_NODES: &[&str] = &[
    "slot 0 node 3 sleep peer - msg - mem 0000 acc 0 rej 0 ack none clock 0",
    "slot 0 node 3 off peer 3 msg - mem 0000 acc 0 rej 0 ack none clock 0",
    "slot 0 node 3 off peer - msg 0 mem 0000 acc 0 rej 0 ack none clock 0",
    "slot 9 node 4 wait peer 1 msg - mem 0000 acc 0 rej 0 ack none clock 0",
    "slot 10 node 0 start peer - msg - mem 0001 acc 1 rej 0 ack first clock 0",
    "slot 10 node 0 start peer 0 msg 1 mem 0001 acc 1 rej 0 ack first clock 0",
    "slot 11 node 1 send peer - msg 1 mem 0003 acc 1 rej 0 ack first clock 0",
    "slot 23 node 2 tentative peer 3 msg 2 mem 001f acc 1 rej 0 ack none clock 0",
    "slot 33 node 3 clique peer - msg - mem 0000 acc 0 rej 0 ack none clock 0",
    "slot 11 node 0 correct peer 1 msg 01 mem 0003 acc 2 rej 0 ack none clock 0",
    "slot 11 node 0 correct peer 1 msg - mem 00003 acc 2 rej 0 ack none clock 0",
    "slot 11 node 0 correct peer 1 msg - mem 001B acc 2 rej 0 ack none clock 0",
    "slot 11 node 0 correct peer 1 msg - mem 0003 acc 02 rej 0 ack none clock 0",
    "slot 11 node 0 correct peer 1 msg - mem 0003 acc 256 rej 0 ack none clock 0",
    "slot 11 node 0 correct peer 1 msg - mem 0003 acc 2 rej 0 ack second clock 0",
    "slot 11 node 0 correct peer 1 msg - mem 0003 acc 2 rej 0 ack doubt: clock 0",
    "slot 11 node 0 correct peer 1 msg - mem 0003 acc 2 rej 0 ack doubt:03 clock 0",
    "slot 11 node 0 correct peer 1 msg - mem 0003 acc 2 rej 0 ack none clock -0",
    "slot 11 node 0 correct peer 1 msg - mem 0003 acc 2 rej 0 ack none clock --1",
    "slot 11 node 0 correct peer 1 msg - mem 0003 acc 2 rej 0 ack none clock 1000000000000000000",
    "slot 11 node 0 correct peer 1 msg - mem 0003 acc 2 rej 0 ack none clock",
    "slot 11 node 0 correct peer 1 msg - mem 0003 acc 2 rej 0 ack none",
    "slot 11 node 0 correct msg - peer 1 mem 0003 acc 2 rej 0 ack none clock 0",
];

// Whether all texts are lines, or none is one.
fn are_lines(texts: &[&str], due: bool) -> bool {
    for text in texts {
        if read_line(text.as_bytes()).is_some() != due {
            return false;
        }
    }
    true
}

#[test]
fn lines(rt: HostRuntime) {
    assert!(rt; are_lines(LINES, true));
}

#[test]
fn no_lines(rt: HostRuntime) {
    assert!(rt; are_lines(NO_LINES, false) && are_lines(NO_LINES_OF_NODES, false));
}

// Which of these lines a text is, counted from 1; 0 is none of them.
fn number_of(text: &[u8]) -> u32 {
    match read_line(text) {
        Some(
            TraceLine::Node {
                slot: 23,
                node: 2,
                word: Word::Tentative,
                peer: Some(3),
                message: None,
                wide: true,
                accepted: 1,
                rejected: 2,
                ack: Ack::Doubt(3),
                offset: -7,
                ..
            },
        ) => 1,
        Some(
            TraceLine::Header {
                version: 2,
                nodes: 24,
                rounds: 64,
                slots: 20_000,
                schedule: 0xa0f1,
            },
        ) => 2,
        Some(
            TraceLine::Write {
                slot: 17,
                host: 2,
                number: 1,
            },
        ) => 3,
        Some(
            TraceLine::Read {
                slot: 17,
                host: 0,
                source: Source::Node(2),
                number: 19,
                ..
            },
        ) => 4,
        Some(TraceLine::Keep(Keep::No { rule: 6, slot: 41 })) => 5,
        Some(TraceLine::Back(Back::No { rule: 8, slot: 37 })) => 6,
        _ => 0,
    }
}

// The texts of these lines, in their order.
const VALUES: &[&str] = &[
    "slot 23 node 2 tentative peer 3 msg - mem 80001b acc 1 rej 2 ack doubt:3 clock -7",
    "ttpbench trace 2 nodes 24 rounds 64 slots 20000 schedule 00a0f1",
    "slot 17 host 2 write 1",
    "slot 17 host 0 read 2 19 0102ff",
    "keeps no H6 41",
    "returns no Q8 37",
];

fn have_values() -> bool {
    let mut number = 0u32;
    for text in VALUES {
        number = number.wrapping_add(1);
        if number_of(text.as_bytes()) != number {
            return false;
        }
    }
    true
}

#[test]
fn values_of_lines(rt: HostRuntime) {
    assert!(rt; have_values());
}

// The longest message has 240 bytes.
#[test]
fn the_longest_message(rt: HostRuntime) {
    let mut line = Line::new();
    line.put_text("slot 0 host 0 read 0 0 ");
    line.put_hex_bytes(&[0xa5; 240]);
    let is_line = read_line(line.bytes()).is_some();
    line.put_text("a5");
    assert!(rt; is_line && read_line(line.bytes()).is_none());
}
