//! A text that is a trace. Texts that are none are told where the real program runs.
use line_reader::Word;
use ttp_world::{Keep, Source};
use whole_trace::{HostLine, Hosts, SlotShown, Slots, Whole, read_whole};

// A trace of two slots.
const TRACE: &str = "\
    ttpbench trace 1 nodes 4 rounds 1 slots 2 schedule 00000a\n\
    slot 0 node 0 wait peer - msg - mem 0000 acc 0 rej 0 ack none clock 0\n\
    slot 0 node 1 wait peer - msg - mem 0000 acc 0 rej 0 ack none clock 0\n\
    slot 0 node 2 wait peer - msg - mem 0000 acc 0 rej 0 ack none clock 0\n\
    slot 0 node 3 off peer - msg - mem 0000 acc 0 rej 0 ack none clock -5\n\
    slot 0 host 2 write 1\n\
    slot 0 host 1 read 2 0 00\n\
    slot 1 node 0 start peer 0 msg - mem 0001 acc 1 rej 0 ack first clock 0\n\
    slot 1 node 1 join peer 0 msg - mem 0001 acc 1 rej 0 ack none clock 0\n\
    slot 1 node 2 join peer 0 msg - mem 0001 acc 1 rej 0 ack none clock 0\n\
    slot 1 node 3 off peer - msg - mem 0000 acc 0 rej 0 ack none clock -9\n\
    keeps yes start 1\n";

fn has_values(whole: &Whole) -> bool {
    whole.head().slots == 2 && whole.keep() == Keep::Yes { start: 1 } && whole.back().is_none()
}

fn has_host_lines(mut hosts: Hosts) -> bool {
    matches!(
        hosts.next_line(),
        Some(HostLine::Write { host: 2, number: 1 })
    ) && matches!(
        hosts.next_line(),
        Some(HostLine::Read {
            host: 1,
            source: Source::Node(2),
            number: 0,
            ..
        })
    ) && hosts.next_line().is_none()
}

fn is_first(slot: &SlotShown) -> bool {
    let nodes = slot.nodes();
    nodes.len() == 4 && nodes[3].offset == -5 && has_host_lines(slot.hosts())
}

fn is_second(slot: &SlotShown) -> bool {
    match slot.nodes().first() {
        Some(node) => node.word == Word::Start && slot.hosts().next_line().is_none(),
        None => false,
    }
}

fn has_slots(mut slots: Slots) -> bool {
    let Some(first) = slots.next_slot() else {
        return false;
    };
    let Some(second) = slots.next_slot() else {
        return false;
    };
    is_first(&first) && is_second(&second) && slots.next_slot().is_none()
}

fn is_whole(text: &[u8]) -> bool {
    match read_whole(text) {
        Ok(whole) => has_values(&whole) && has_slots(whole.slots()),
        Err(_) => false,
    }
}

#[test]
fn a_trace(rt: HostRuntime) {
    assert!(rt; is_whole(TRACE.as_bytes()));
}
