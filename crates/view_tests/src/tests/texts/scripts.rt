//! Scripts with what no trace shows whole. The expected values come from the format's own text, never from a run.
ghost use Rattle.std.specs.Prelude.{IfSome};
ghost use Rattle.ttp_world.specs.Medl.{IsValid};
ghost use Rattle.ttp_world.specs.Script.{IsValidScript};

use medl_text::read_medl;
use script_text::read_script;
use std::alloc::Global;
use ttp_world::{Channels, FlippedBit, HostRead, Incidents, Medl, Script, Source};

// The most bytes of a script file.
const LIMIT: usize = 1_048_576;

/// Four nodes, of which nodes 1 and 2 send payload.
pub(crate) const FOUR_NODES: &str =
    "version = 1\nrounds = 1\nschedule = 0\nbuffers = 2\ndrift = 0\nerror = 0\nwindow = 1\n
[[slot]]\nkinds = \"I\"\ndata = 0\nsync = true\nstart = true\n
[[slot]]\nkinds = \"N\"\ndata = 2\nsync = true\nstart = false\n
[[slot]]\nkinds = \"X\"\ndata = 2\nsync = true\nstart = false\n
[[slot]]\nkinds = \"I\"\ndata = 0\nsync = true\nstart = false\n";

/// The list of a text, where it has one.
pub(crate) fn list_of(alloc: Global, text: &str) -> Option<Medl>
    ensures { IfSome result IsValid }
{
    match read_medl(alloc, text.as_bytes()) {
        Ok(list) => Some(list),
        Err(_) => None,
    }
}

/// The script of a text that is not too long, where it has one.
pub(crate) fn script_of(alloc: Global, list: &Medl, text: &[u8]) -> Option<Script>
    requires { IsValid list.now }
    ensures { IfSome result (IsValidScript list.now) }
{
    if text.len() > LIMIT {
        return None;
    }
    match read_script(alloc, list, text) {
        Ok(script) => Some(script),
        Err(_) => None,
    }
}

/// The list of a text, and the script of one for it, where both have one.
pub(crate) fn read_both(alloc: Global, list: &str, script: &[u8]) -> Option<(Medl, Script)>
    ensures valid { IfSome result (λ r. IsValid r.0) }
    ensures script { IfSome result (λ r. IsValidScript r.0 r.1) }
{
    let Some(list) = list_of(alloc, list) else {
        return None;
    };
    match script_of(alloc, &list, script) {
        Some(script) => Some((list, script)),
        None => None,
    }
}

/// Lets a script go. A function of its own, since what a script holds is let go part by part in each function that
/// may do so.
pub(crate) fn let_go(_script: Script) {}

// Events of each form, and then lines of hosts in other spellings, from place 10 on.
const EVERY_FORM: &[u8] = b"slots 20\non 0 0\ndrift 3 -1000\nsend 2 AB noise 3 19\n\
    receive 3 B silence 4 4\nflip 1 A 2047 19\nflip 1 AB 8 0\nerror 2 -10000 0 19\n\
    error 2 10000 19 19\ndrift 0 1000\njump 0 1000000 3\njump 0 -0 19\n# twice\narm 3 7\n\
    arm 3 7\non 3 19\nwrite 1 3 aF09\n\t write \t001  4\tDEad \r\nread 1 3 status\n\
    read 0 3 1\nread  2\t19 000000001\t\n# write 1 5 0000\nwrite 2 3 0ff0\nread 0 3 1\n\
    write 1 19 ffFF\nread 3 0 2";

const ON_A: Channels = Channels { a: true, b: false };

const ON_B: Channels = Channels { a: false, b: true };

const ON_BOTH: Channels = Channels { a: true, b: true };

const ON_NONE: Channels = Channels { a: false, b: false };

const NOTHING: Incidents = Incidents {
    send_silence: ON_NONE,
    send_noise: ON_NONE,
    receive_silence: ON_NONE,
    receive_noise: ON_NONE,
    has_flip: false,
    armed: false,
    error: 0,
    jump: 0,
};

const IN_ERROR: Incidents = Incidents {
    error: -10_000,
    ..NOTHING
};

const NOISY: Incidents = Incidents {
    send_noise: ON_BOTH,
    ..NOTHING
};

const FLIPPED: Incidents = Incidents {
    has_flip: true,
    ..NOTHING
};

// A node, a slot, and what happens to the node in it.
const EDGES: &[(u8, u32, Incidents)] = &[
    (2, 0, IN_ERROR),
    (2, 2, IN_ERROR),
    (
        2,
        3,
        Incidents {
            error: -10_000,
            ..NOISY
        },
    ),
    (
        2,
        18,
        Incidents {
            error: -10_000,
            ..NOISY
        },
    ),
    (2, 19, NOISY),
    (3, 3, NOTHING),
    (
        3,
        4,
        Incidents {
            receive_silence: ON_B,
            ..NOTHING
        },
    ),
    (3, 5, NOTHING),
    (
        3,
        7,
        Incidents {
            armed: true,
            ..NOTHING
        },
    ),
    (3, 8, NOTHING),
    (1, 0, FLIPPED),
    (1, 19, FLIPPED),
    (0, 2, NOTHING),
    (
        0,
        3,
        Incidents {
            jump: 1_000_000,
            ..NOTHING
        },
    ),
    (0, 4, NOTHING),
    (0, 19, NOTHING),
];

fn has_edges(script: &Script) -> bool {
    for (node, slot, due) in EDGES {
        if script.incidents(*node, *slot) != *due {
            return false;
        }
    }
    true
}

const FIRST_FLIP: &[FlippedBit] = &[FlippedBit {
    channels: ON_BOTH,
    bit: 8,
}];

const LAST_FLIP: &[FlippedBit] = &[FlippedBit {
    channels: ON_A,
    bit: 2_047,
}];

const OF_NODE_1: HostRead = HostRead {
    host: 0,
    source: Source::Node(1),
};

const FIRST_READS: &[HostRead] = &[HostRead {
    host: 3,
    source: Source::Node(2),
}];

const READS: &[HostRead] = &[
    HostRead {
        host: 1,
        source: Source::Status,
    },
    OF_NODE_1,
    OF_NODE_1,
];

const LAST_READS: &[HostRead] = &[HostRead {
    host: 2,
    source: Source::Node(1),
}];

// A slot, the flipped bits of node 1 in it, the places of what hosts write in it, and what hosts read.
type SlotLooked = (
    u32,
    &'static [FlippedBit],
    &'static [usize],
    &'static [HostRead],
);

const SLOTS: &[SlotLooked] = &[
    (0, FIRST_FLIP, &[], FIRST_READS),
    (3, &[], &[10, 15], READS),
    (4, &[], &[11], &[]),
    (19, LAST_FLIP, &[17], LAST_READS),
];

fn has_slots(script: &Script) -> bool {
    for (slot, flips, writes, reads) in SLOTS {
        if script.flips(1, *slot) != *flips
            || script.writes(*slot) != *writes
            || script.reads(*slot) != *reads
        {
            return false;
        }
    }
    true
}

fn has_clocks(script: &Script) -> bool {
    script.slots == 20
        && script.events.as_slice().len() == 19
        && script.on.as_slice() == [Some(0), None, None, Some(19)].as_slice()
        && script.drift.as_slice() == [1_000, 0, 0, -1_000].as_slice()
}

/// Whether a host writes these bytes by the event at a place of a script.
pub(crate) fn is_written(script: &Script, place: usize, host: u8, bytes: &[u8]) -> bool {
    match script.write(place) {
        Some(write) => write.host == host && write.payload.bytes() == bytes,
        None => false,
    }
}

// A place, the host that writes by the event there, and its bytes.
const WRITTEN: &[(usize, u8, &[u8])] = &[
    (10, 1, &[0xaf, 0x09]),
    (15, 2, &[0x0f, 0xf0]),
    (11, 1, &[0xde, 0xad]),
    (17, 1, &[0xff, 0xff]),
];

fn has_writes(script: &Script) -> bool {
    for (place, host, bytes) in WRITTEN {
        if !is_written(script, *place, *host, bytes) {
            return false;
        }
    }
    true
}

// Whether the script with every form is read.
fn is_every_form_read(alloc: Global) -> bool {
    let Some((_list, script)) = read_both(alloc, FOUR_NODES, EVERY_FORM) else {
        return false;
    };
    let is_right = has_clocks(&script)
        && has_edges(&script)
        && has_slots(&script)
        && has_writes(&script);
    let_go(script);
    is_right
}

#[test]
fn a_script_with_every_form(rt: HostRuntime) {
    assert!(rt; is_every_form_read(rt.alloc()));
}
