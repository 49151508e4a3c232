//! A node that hears nobody, slot by slot, worked out by hand.
use super::lists::bare_nodes;
use super::slots::{Came, DueEntry, FirstSlots, SlotCase, SlotStep, WAITS, each_goes};
use std::alloc::Global;
use ttp_world::{Ack, Verdict};

const OFF: SlotCase = SlotCase {
    on: false,
    entry: DueEntry::Off,
    ..WAITS
};

const STARTS: SlotCase = SlotCase {
    jump: 3,
    drift: -1,
    sends: true,
    entry: DueEntry::Started,
    fresh: Some((0b10, Ack::First, 2)),
    ..WAITS
};

// The slot of node 2.
const NULL: SlotCase = SlotCase {
    entry: DueEntry::Judged(2, Verdict::Null, 0),
    ..WAITS
};

// A slot in which it waits.
const WAITING: SlotStep = (Came::Silence, Came::Silence, WAITS);

// Node 1 comes on, and hears nothing for two rounds and one slot more.
const ALONE: &[FirstSlots] = &[(
    1,
    &[
        (Came::Silence, Came::Silence, OFF),
        WAITING,
        WAITING,
        WAITING,
        WAITING,
        WAITING,
        WAITING,
        WAITING,
        WAITING,
        WAITING,
        (Came::Silence, Came::Silence, STARTS),
        (Came::Silence, Came::Silence, NULL),
    ],
)];

fn starts_from_off(alloc: Global) -> bool {
    match &bare_nodes(alloc) {
        Ok(list) => each_goes(alloc, list, ALONE),
        Err(_) => false,
    }
}

#[test]
fn a_node_that_hears_nobody_starts(rt: HostRuntime) {
    assert!(rt; starts_from_off(rt.alloc()));
}
