//! Threads that are held until others have come so far. A host writes in the slot of its node's frame, beside the
//! fetch of its controller: a cluster that makes all writes before the fetches, or behind them, in one thread holds
//! one of them to the end, and both messages come in a frame. And controllers end a slot in two halves of as many
//! nodes, which run at once, and beside the hosts' reads.

use super::gate::{Beside, Hold, NOBODY, OPEN};
use super::{Call, FIVE_NODES, POLLED, RUN, let_go, run_bench, sink_of, text_of};
use cluster_run::Cluster;
use std::sync::Wait;
use std::thread::Threads;

// A run: its list and its script; who is held, and how many; lines that it has, and its end; and how often each place is
// passed.
#[derive(Clone, Copy)]
struct Case<'a> {
    list: &'a str,
    script: &'a str,
    holds: [Hold; 3],
    held: u64,
    lines: &'a [&'a str],
    end: &'a str,
    passes: [u64; 7],
}

// Whether a text has these parts.
fn has_each(text: &str, parts: &[&str]) -> bool {
    for part in parts {
        if !text.contains(*part) {
            return false;
        }
    }
    true
}

// The run has these lines, a thread is held at each hold, none of them to the end, and each place is passed once for
// each step.
fn runs_and_keeps<R: Threads + Wait + Sync + AllocGlobal>(
    rt: &R,
    case: &Case<'_>,
    kept: &mut Option<Cluster>,
) -> bool {
    let gate = Beside::new(case.holds);
    let call = Call {
        list: case.list,
        script: case.script,
        ..RUN
    };
    let Ok(mut out) = sink_of(rt.alloc(), &call) else {
        return false;
    };
    if run_bench(rt, &call, &mut out, &gate, kept) != Some(0) {
        return false;
    }
    let text = text_of(out.bytes());
    gate.has_held(case.held)
        && gate.has_passed(&case.passes)
        && has_each(text, case.lines)
        && text.ends_with(case.end)
}

fn runs_beside<R: Threads + Wait + Sync + AllocGlobal>(rt: &R, case: &Case<'_>) -> bool {
    let mut kept = None;
    let runs = runs_and_keeps(rt, case, &mut kept);
    let_go(kept);
    runs
}

// Before slot 17 five nodes publish 85 statuses of four words, and four deliver the message of slot 12, of
// one word. That message was fetched.
const MESSAGES: u64 = 89;

const WORDS: u64 = 344;

const FETCHES: u64 = 1;

// In 20 slots there are 100 statuses, eight messages are delivered and two fetched, and the host writes.
const LATE: Case<'static> = Case {
    list: "version = 1\nrounds = 1\nschedule = 0\nbuffers = 2\ndrift = 0\nerror = 0\nwindow = 2\n
[[slot]]\nkinds = \"I\"\ndata = 0\nsync = true\nstart = true\n
[[slot]]\nkinds = \"I\"\ndata = 0\nsync = true\nstart = false\n
[[slot]]\nkinds = \"N\"\ndata = 8\nsync = true\nstart = false\n
[[slot]]\nkinds = \"I\"\ndata = 0\nsync = true\nstart = false\n
[[slot]]\nkinds = \"I\"\ndata = 0\nsync = true\nstart = false\n",
    script: "slots 20\non 0 0\non 1 0\non 2 0\non 3 0\non 4 0\nwrite 2 17 0102030405060708\n",
    // The write waits at its word until the fetch has begun, and the fetch at its word until that one was put.
    holds: [
        Hold {
            place: 2,
            before: WORDS,
            other: 5,
            until: FETCHES + 1,
        },
        Hold {
            place: 5,
            before: FETCHES,
            other: 3,
            until: MESSAGES + 1,
        },
        NOBODY,
    ],
    held: 2,
    lines: &[
        "slot 17 node 2 send peer 2 msg 0 mem 001f acc 1 rej 0 ack first clock 0\n",
        "slot 17 host 2 write 1\n",
    ],
    end: "\nkeeps yes start 10\n",
    passes: [0, 109, 409, 109, 2, 2, 2],
};

const EARLY: Case<'static> = Case {
    list: "version = 1\nrounds = 1\nschedule = 0\nbuffers = 3\ndrift = 0\nerror = 0\nwindow = 1\n
[[slot]]\nkinds = \"I\"\ndata = 0\nsync = true\nstart = true\n
[[slot]]\nkinds = \"I\"\ndata = 0\nsync = true\nstart = false\n
[[slot]]\nkinds = \"N\"\ndata = 8\nsync = true\nstart = false\n
[[slot]]\nkinds = \"I\"\ndata = 0\nsync = true\nstart = false\n
[[slot]]\nkinds = \"I\"\ndata = 0\nsync = true\nstart = false\n",
    script: "slots 20\non 0 0\non 1 0\non 2 0\non 3 0\non 4 0\nwrite 2 17 0102030405060708\nwrite 2 17 1112131415161718\n",
    // The fetch waits until a second write begins, and this one until the fetch has all words of the first.
    holds: [
        Hold {
            place: 1,
            before: MESSAGES + 1,
            other: 6,
            until: FETCHES + 1,
        },
        Hold {
            place: 4,
            before: FETCHES,
            other: 1,
            until: MESSAGES + 2,
        },
        NOBODY,
    ],
    held: 2,
    lines: &[
        "slot 17 node 2 send peer 2 msg 1 mem 001f acc 1 rej 0 ack first clock 0\n",
        "slot 17 host 2 write 1\nslot 17 host 2 write 2\n",
    ],
    end: "\nkeeps yes start 10\n",
    passes: [0, 110, 410, 110, 2, 2, 2],
};

#[test]
fn hosts_write_beside_fetches(rt: HostRuntime) {
    assert!(rt; runs_beside(&rt, &LATE) && runs_beside(&rt, &EARLY));
}

// Four nodes publish 44 statuses before slot 11. In it the first one who comes waits until two more have, which are
// those of the other half; the last of these waits until the first half has its second one.
const HALVES: Case<'static> = Case {
    list: "version = 1\nrounds = 1\nschedule = 0\nbuffers = 2\ndrift = 0\nerror = 0\nwindow = 2\n
[[slot]]\nkinds = \"I\"\ndata = 0\nsync = true\nstart = true\n
[[slot]]\nkinds = \"I\"\ndata = 0\nsync = true\nstart = false\n
[[slot]]\nkinds = \"I\"\ndata = 0\nsync = true\nstart = false\n
[[slot]]\nkinds = \"I\"\ndata = 0\nsync = true\nstart = false\n",
    script: "slots 15\non 0 0\non 1 0\non 2 0\non 3 0\nread 1 11 status\n",
    holds: [
        Hold {
            place: 1,
            before: 44,
            other: 1,
            until: 47,
        },
        Hold {
            place: 1,
            before: 46,
            other: 1,
            until: 48,
        },
        NOBODY,
    ],
    held: 2,
    lines: &["\nslot 11 host 1 read status "],
    end: "\nkeeps yes start 8\n",
    passes: [0, 60, 240, 60, 1, 4, 1],
};

#[test]
fn two_halves_have_as_many_nodes(rt: HostRuntime) {
    assert!(rt; runs_beside(&rt, &HALVES));
}

// In slot 11, before which five nodes publish 55 statuses of four words, the first status to be written is held until
// a second one is, the first word of it until a read has begun, and the first word that is read until a word of a
// status is written.
const AT_ONCE: Case<'static> = Case {
    list: FIVE_NODES,
    script: POLLED,
    holds: [
        Hold {
            place: 1,
            before: 55,
            other: 1,
            until: 57,
        },
        Hold {
            place: 2,
            before: 220,
            other: 4,
            until: 1,
        },
        Hold {
            place: 5,
            before: 0,
            other: 2,
            until: 221,
        },
    ],
    held: 3,
    lines: &["\nslot 11 host 1 read status "],
    end: "\nkeeps yes start 10\n",
    passes: [0, 75, 300, 75, 1, 4, 1],
};

// Whether this is the cluster of five nodes after 15 slots.
fn is_done(cluster: &Cluster) -> bool {
    let report = cluster.report();
    cluster.done() == 15
        && cluster.slots() == 15
        && cluster.list().slots.len() == 5
        && cluster.script().on.len() == 5
        && report.slot == 14
        && report.nodes.len() == 5
}

fn is_kept(kept: &Option<Cluster>) -> bool {
    match kept {
        Some(cluster) => is_done(cluster),
        None => false,
    }
}

// Whether a call without words answers 2, and keeps no cluster.
fn is_no_form<R: Threads + Wait + Sync + AllocGlobal>(rt: &R, kept: &mut Option<Cluster>) -> bool {
    let call = Call { words: &[], ..RUN };
    let Ok(mut out) = sink_of(rt.alloc(), &call) else {
        return false;
    };
    run_bench(rt, &call, &mut out, &Beside::new(OPEN), kept) == Some(2) && kept.is_none()
}

// The cluster that ran is kept, until the next call.
#[test]
fn controllers_and_hosts_run_at_once(rt: HostRuntime) {
    let mut kept = None;
    let runs = runs_and_keeps(&rt, &AT_ONCE, &mut kept) && is_kept(&kept);
    let is_no_form = is_no_form(&rt, &mut kept);
    let_go(kept);
    assert!(rt; runs && is_no_form);
}
