//! Each command once, and sinks that fail at any line. What refuses a call is compared where the real program
//! runs.

use super::gate::{Beside, OPEN};
use super::{Call, POLLED, RUN, let_go, run_bench, sink_of};
use std::sync::Wait;
use std::thread::Threads;
use ttp_base::MemorySink;

// The words of a call, and the first line that it writes.
type FormCase = (&'static [&'static str], &'static str);

const COMMANDS: &[FormCase] = &[
    (
        &["schedule", "list"],
        "ttpbench schedule 1 nodes 5 rounds 1 schedule 000000\n",
    ),
    (
        &["run", "list", "script"],
        "ttpbench trace 1 nodes 5 rounds 1 slots 15 schedule 000000\n",
    ),
    (&["keeps", "list", "script"], "keeps yes start 10\n"),
    (&["verify", "list", "script", "trace"], "same\n"),
    (
        &["modes", "list", "script", "trace"],
        "ttpbench modes 1 nodes 5 slots 15\n",
    ),
    (
        &["precision", "list", "script", "3"],
        "precision node 3 start 10 bound 2 seen 0 slot 10\n",
    ),
    (&["sample", "list", "12", "7"], "sample slots 12 number 7\n"),
];

// Whether a call answers this, and writes into its sink.
fn is_status<R: Threads + Wait + Sync + AllocGlobal>(
    rt: &R,
    call: &Call<'_>,
    out: &mut MemorySink,
    status: u8,
) -> bool {
    let mut kept = None;
    let answer = run_bench(rt, call, out, &Beside::new(OPEN), &mut kept);
    let_go(kept);
    answer == Some(status)
}

// Whether a sink whose write of this number fails has this front of a text.
fn has_front<R: Threads + Wait + Sync + AllocGlobal>(
    rt: &R,
    call: &Call<'_>,
    bad_write: u32,
    front: Option<&[u8]>,
) -> bool {
    let call = Call { bad_write, ..*call };
    let Ok(mut out) = sink_of(rt.alloc(), &call) else {
        return false;
    };
    is_status(rt, &call, &mut out, 6) && front == Some(out.bytes())
}

// Whether a text is whole lines, and a sink that fails at any of them has those before it.
fn has_fronts<R: Threads + Wait + Sync + AllocGlobal>(
    rt: &R,
    call: &Call<'_>,
    text: &[u8],
) -> bool {
    let mut bad_write = 0u32;
    let mut before = 0usize;
    for k in 0..text.len() {
        if text[k] == b'\n' {
            bad_write = bad_write.wrapping_add(1);
            if !has_front(rt, call, bad_write, text.get(..before)) {
                return false;
            }
            before = k + 1;
        }
    }
    before == text.len()
}

// Whether a call answers as its row says, also where a line can't be written.
fn is_answered<R: Threads + Wait + Sync + AllocGlobal>(
    rt: &R,
    row: &FormCase,
    trace: &[u8],
) -> bool {
    let (words, line) = *row;
    let call = Call {
        words,
        trace,
        ..RUN
    };
    let Ok(mut out) = sink_of(rt.alloc(), &call) else {
        return false;
    };
    if !is_status(rt, &call, &mut out, 0) {
        return false;
    }
    let text = out.bytes();
    text.starts_with(line.as_bytes()) && has_fronts(rt, &call, text)
}

// All calls answer as their rows say.
fn are_answered<R: Threads + Wait + Sync + AllocGlobal>(rt: &R) -> bool {
    let Ok(mut trace) = sink_of(rt.alloc(), &RUN) else {
        return false;
    };
    let mut are_right = is_status(rt, &RUN, &mut trace, 0);
    for row in COMMANDS {
        are_right = are_right && is_answered(rt, row, trace.bytes());
    }
    are_right
}

#[test]
fn each_command_writes_its_text(rt: HostRuntime) {
    assert!(rt; are_answered(&rt));
}

const FRONT: &str = "ttpbench trace 1 nodes 5 rounds 1 slots 15 schedule 000000\n\
    slot 0 node 0 wait peer - msg - mem 0000 acc 0 rej 0 ack none clock 0\n";

const POLLED_RUN: Call<'static> = Call {
    script: POLLED,
    ..RUN
};

// Where hosts are at work and the third line can't be written, the first two are.
#[test]
fn a_sink_that_fails_where_hosts_read(rt: HostRuntime) {
    assert!(rt; has_front(&rt, &POLLED_RUN, 3, Some(FRONT.as_bytes())));
}
