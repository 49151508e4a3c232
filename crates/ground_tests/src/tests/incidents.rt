//! What happens to nodes in slots at the edges of events, worked out by hand.
ghost use Rattle.std.specs.Prelude.{◌≤◌, length, All};
ghost use Rattle.ttp_world.specs.Events.{IsBounded};

use super::lists::let_go;
use std::alloc::Global;
use ttp_base::List;
use ttp_world::{
    Channels, Event, Events, Fault, FlippedBit, HostRead, Incidents, Kind, LastLookUp, Medl,
    Payload, Script, SlotPlan, Source,
};

const ON_A: Channels = Channels { a: true, b: false };

const ON_B: Channels = Channels { a: false, b: true };

const ON_BOTH: Channels = Channels { a: true, b: true };

const ON_NONE: Channels = Channels { a: false, b: false };

const NOTHING: Incidents = Incidents {
    send_silence: ON_NONE,
    send_noise: ON_NONE,
    receive_silence: ON_NONE,
    receive_noise: ON_NONE,
    has_flip: false,
    armed: false,
    error: 0,
    jump: 0,
};

// A script of these, in whose 20,000 slots no node is told to be on.
fn script_of(alloc: Global, events: Vec<Event>) -> Option<Script>
    requires len { length events.items ≤ 100 }
    requires events { All IsBounded events.items }
{
    match Events::index(alloc, List::from_vec(events)) {
        Ok(events) => Some(Script {
            slots: 20_000,
            on: List::new(alloc),
            drift: List::new(alloc),
            events,
        }),
        Err(_) => None,
    }
}

// Faults, of which two touch and two overlap, and some that reach to the ends of the longest run; flips; errors and
// jumps that add up; and a node that is armed in the last slot.
const EVENTS: [Event; 15] = [
    Event::Send {
        node: 0,
        channels: ON_BOTH,
        fault: Fault::Silence,
        from: 3,
        to: 5,
    },
    Event::Send {
        node: 0,
        channels: ON_A,
        fault: Fault::Noise,
        from: 5,
        to: 5,
    },
    Event::Send {
        node: 0,
        channels: ON_A,
        fault: Fault::Silence,
        from: 6,
        to: 8,
    },
    Event::Receive {
        node: 23,
        channels: ON_B,
        fault: Fault::Noise,
        from: 0,
        to: 19_999,
    },
    Event::Receive {
        node: 23,
        channels: ON_A,
        fault: Fault::Silence,
        from: 19_999,
        to: 19_999,
    },
    Event::Flip {
        node: 2,
        channels: ON_A,
        bit: 9,
        slot: 4,
    },
    Event::Flip {
        node: 2,
        channels: ON_BOTH,
        bit: 9,
        slot: 4,
    },
    Event::Flip {
        node: 2,
        channels: ON_A,
        bit: 8,
        slot: 5,
    },
    Event::Flip {
        node: 2,
        channels: ON_B,
        bit: 2_047,
        slot: 4,
    },
    Event::Error {
        node: 1,
        value: 7,
        from: 10,
        to: 12,
    },
    Event::Error {
        node: 1,
        value: -3,
        from: 12,
        to: 14,
    },
    Event::Error {
        node: 1,
        value: 10_000,
        from: 12,
        to: 12,
    },
    Event::Jump {
        node: 1,
        value: 5,
        slot: 12,
    },
    Event::Jump {
        node: 1,
        value: -2,
        slot: 12,
    },
    Event::Arm {
        node: 22,
        slot: 19_999,
    },
];

const SILENCED: Incidents = Incidents {
    send_silence: ON_BOTH,
    ..NOTHING
};

const SILENCED_ON_A: Incidents = Incidents {
    send_silence: ON_A,
    ..NOTHING
};

const DEAF_ON_B: Incidents = Incidents {
    receive_noise: ON_B,
    ..NOTHING
};

const FLIPPED: Incidents = Incidents {
    has_flip: true,
    ..NOTHING
};

// A node, a slot, and what happens to the node in it.
const EDGES: [(u8, u32, Incidents); 21] = [
    (0, 2, NOTHING),
    (0, 3, SILENCED),
    (
        0,
        5,
        Incidents {
            send_noise: ON_A,
            ..SILENCED
        },
    ),
    (0, 6, SILENCED_ON_A),
    (0, 8, SILENCED_ON_A),
    (0, 9, NOTHING),
    (1, 3, NOTHING),
    (23, 0, DEAF_ON_B),
    (
        23,
        19_999,
        Incidents {
            receive_silence: ON_A,
            ..DEAF_ON_B
        },
    ),
    (23, 20_000, NOTHING),
    (22, 19_998, NOTHING),
    (
        22,
        19_999,
        Incidents {
            armed: true,
            ..NOTHING
        },
    ),
    (1, 9, NOTHING),
    (
        1,
        10,
        Incidents {
            error: 7,
            ..NOTHING
        },
    ),
    (
        1,
        12,
        Incidents {
            error: 10_004,
            jump: 3,
            ..NOTHING
        },
    ),
    (
        1,
        14,
        Incidents {
            error: -3,
            ..NOTHING
        },
    ),
    (1, 15, NOTHING),
    (2, 3, NOTHING),
    (2, 4, FLIPPED),
    (2, 5, FLIPPED),
    (2, 6, NOTHING),
];

// Whether what is due happens, looked for anew and from where the last look-up ended.
fn is_due(script: &Script, edge: &(u8, u32, Incidents), last: &mut LastLookUp) -> bool {
    script.incidents(edge.0, edge.1) == edge.2
        && script.incidents_after(edge.0, edge.1, last) == edge.2
}

// Whether what is due happens at each edge in the order of the table and then backwards, where each look-up begins
// behind its answer.
fn has_all_edges(script: &Script) -> bool {
    let mut last = LastLookUp::none();
    for k in 0..42usize {
        if !is_due(script, &EDGES[k.min(41 - k)], &mut last) {
            return false;
        }
    }
    true
}

// Whether node 0 is silent from slot 3 on, until something else happens in slot 5.
fn stands(script: &Script) -> bool {
    let standing = script.incidents_from(0, 3, &mut LastLookUp::none());
    standing.incidents == SILENCED && standing.until == 5
}

// A node, a slot, and the bits that are flipped, in the order of the script.
const FLIPS: &[(u8, u32, &[FlippedBit])] = &[
    (2, 3, &[]),
    (
        2,
        4,
        &[
            FlippedBit {
                channels: ON_A,
                bit: 9,
            },
            FlippedBit {
                channels: ON_BOTH,
                bit: 9,
            },
            FlippedBit {
                channels: ON_B,
                bit: 2_047,
            },
        ],
    ),
    (
        2,
        5,
        &[FlippedBit {
            channels: ON_A,
            bit: 8,
        }],
    ),
    (2, 6, &[]),
    (1, 4, &[]),
    (3, 4, &[]),
];

fn has_flips(script: &Script) -> bool {
    for (node, slot, due) in FLIPS {
        if script.flips(*node, *slot) != *due {
            return false;
        }
    }
    true
}

fn happens(alloc: Global) -> bool {
    let Ok(events) = Vec::from_array(alloc, EVENTS) else {
        return false;
    };
    let Some(script) = script_of(alloc, events) else {
        return false;
    };
    let is_right = has_all_edges(&script) && stands(&script) && has_flips(&script);
    let_go(script);
    is_right
}

#[test]
fn incidents_at_the_edges_of_events(rt: HostRuntime) {
    assert!(rt; happens(rt.alloc()));
}

// A slot, what hosts read in it, and the places of what they write.
const LINES: &[(u32, &[HostRead], &[usize])] = &[
    (
        7,
        &[
            HostRead {
                host: 3,
                source: Source::Node(1),
            },
            HostRead {
                host: 0,
                source: Source::Status,
            },
        ],
        &[2, 6],
    ),
    (
        6,
        &[HostRead {
            host: 2,
            source: Source::Status,
        }],
        &[],
    ),
    (9, &[], &[1]),
];

fn has_lines(script: &Script) -> bool {
    for (slot, reads, writes) in LINES {
        if script.reads(*slot) != *reads || script.writes(*slot) != *writes {
            return false;
        }
    }
    true
}

// A place, who writes there, if anybody does, and what.
const WRITES: &[(usize, Option<u8>, &[u8])] = &[
    (2, Some(1), &[2, 3]),
    (6, Some(0), &[]),
    (3, None, &[]),
    (7, None, &[]),
];

fn is_written(script: &Script, place: usize, host: Option<u8>, bytes: &[u8]) -> bool {
    match script.write(place) {
        Some(write) => host == Some(write.host) && write.payload.bytes() == bytes,
        None => host.is_none(),
    }
}

fn has_writes(script: &Script) -> bool {
    for (place, host, bytes) in WRITES {
        if !is_written(script, *place, *host, bytes) {
            return false;
        }
    }
    true
}

fn read(node: u8, slot: u32, source: Source) -> Event
    ensures { IsBounded result }
{
    Event::Read { node, slot, source }
}

fn write(node: u8, slot: u32, bytes: &[u8]) -> Event
    requires { length bytes.now ≤ 240 }
    ensures { IsBounded result }
{
    Event::Write {
        node,
        slot,
        payload: Payload::of(bytes),
    }
}

// Hosts that write and read twice in slot 7, among lines of other slots and kinds.
fn has_lines_of_hosts(alloc: Global) -> bool {
    let flip = Event::Flip {
        node: 1,
        channels: ON_A,
        bit: 9,
        slot: 7,
    };
    let Ok(events) = vec![in alloc;
        read(3, 7, Source::Node(1)),
        write(1, 9, &[1]),
        write(1, 7, &[2, 3]),
        flip,
        read(2, 6, Source::Status),
        read(0, 7, Source::Status),
        write(0, 7, &[]),
    ] else {
        return false;
    };
    let Some(script) = script_of(alloc, events) else {
        return false;
    };
    let is_right = has_lines(&script) && has_writes(&script);
    let_go(script);
    is_right
}

#[test]
fn lines_of_hosts_in_the_order_of_the_script(rt: HostRuntime) {
    assert!(rt; has_lines_of_hosts(rt.alloc()));
}

#[test]
fn header_of_each_kind(rt: HostRuntime) {
    assert!(rt; Kind::N.header() == 0 && Kind::I.header() == 1 && Kind::X.header() == 2);
}

fn is_quiet(script: &Script) -> bool {
    script.incidents(0, 0) == NOTHING
        && script.flips(0, 0).is_empty()
        && script.events.as_slice().is_empty()
}

// A node, a slot, and whether the node is on in it.
const SWITCHED: &[(u8, u32, bool)] = &[(0, 2, false), (0, 3, true), (1, 19_999, false)];

fn are_switched(script: &Script) -> bool {
    for (node, slot, on) in SWITCHED {
        if (*node as usize) >= script.on.len() || script.is_on(*node, *slot) != *on {
            return false;
        }
    }
    true
}

// Whether nothing happens by a script without events, in which node 0 is on from slot 3 on, and node 1 never.
fn nothing_happens(alloc: Global) -> bool {
    let Ok(on) = vec![in alloc; Some(3), None] else {
        return false;
    };
    let script = Script {
        slots: 20_000,
        on: List::from_vec(on),
        drift: List::new(alloc),
        events: Events::none(alloc),
    };
    let is_right = is_quiet(&script) && are_switched(&script);
    let_go(script);
    is_right
}

#[test]
fn nothing_happens_without_events(rt: HostRuntime) {
    assert!(rt; nothing_happens(rt.alloc()));
}

// A list whose fields are all told from one another.
fn full_list(alloc: Global) -> Option<Medl> {
    let Ok(kinds) = vec![in alloc; Kind::N] else {
        return None;
    };
    let mut slots = List::new(alloc);
    let plan = SlotPlan {
        kinds: List::from_vec(kinds),
        payload: 9,
        sync: true,
        start: false,
        requests: true,
        live: 5,
    };
    match slots.push(plan) {
        Ok(()) => Some(Medl {
            version: 2,
            rounds: 1,
            schedule: 77,
            buffers: 3,
            drift: 4,
            error: 5,
            window: 60,
            modes: 7,
            slots,
        }),
        Err(_) => None,
    }
}

fn is_copied_plan(plan: &SlotPlan) -> bool {
    plan.kinds.as_slice() == [Kind::N].as_slice()
        && [plan.payload, plan.live] == [9, 5]
        && [plan.sync, plan.start, plan.requests] == [true, false, true]
}

fn is_copied(copy: &Medl) -> bool {
    [copy.version, copy.rounds, copy.buffers, copy.modes] == [2, 1, 3, 7]
        && [copy.drift, copy.error, copy.window] == [4, 5, 60]
        && copy.schedule == 77
        && copy.slots.len() == 1
        && is_copied_plan(copy.slots.get(0))
}

fn copies(alloc: Global) -> bool {
    let Some(list) = full_list(alloc) else {
        return false;
    };
    match &list.copy(alloc) {
        Ok(copy) => is_copied(copy),
        Err(_) => false,
    }
}

#[test]
fn copy_of_a_list(rt: HostRuntime) {
    assert!(rt; copies(rt.alloc()));
}
