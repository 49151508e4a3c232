//! Each command once, and sinks that fail at the first lines. What refuses a call is compared where the real
//! program runs.
use super::calls::{Call, answer, sink_of, text_of};
use std::thread::Threads;

// Five nodes, of which node 0 starts in slot 10.
const LIST: &str =
    "version = 1\nrounds = 1\nschedule = 0\nbuffers = 2\ndrift = 0\nerror = 0\nwindow = 1\n
[[slot]]\nkinds = \"I\"\ndata = 0\nsync = true\nstart = true\n
[[slot]]\nkinds = \"I\"\ndata = 0\nsync = true\nstart = false\n
[[slot]]\nkinds = \"I\"\ndata = 0\nsync = true\nstart = false\n
[[slot]]\nkinds = \"I\"\ndata = 0\nsync = true\nstart = false\n
[[slot]]\nkinds = \"I\"\ndata = 0\nsync = true\nstart = false\n";

const SCRIPT: &str = "slots 12\non 0 0\non 1 0\non 2 0\non 3 0\non 4 0\n";

// A slot in which all five listen, and its trace.
const SHORT: &str = "slots 1\non 0 0\non 1 0\non 2 0\non 3 0\non 4 0\n";

const LISTENING: &str = "ttpbench trace 1 nodes 5 rounds 1 slots 1 schedule 000000
slot 0 node 0 wait peer - msg - mem 0000 acc 0 rej 0 ack none clock 0
slot 0 node 1 wait peer - msg - mem 0000 acc 0 rej 0 ack none clock 0
slot 0 node 2 wait peer - msg - mem 0000 acc 0 rej 0 ack none clock 0
slot 0 node 3 wait peer - msg - mem 0000 acc 0 rej 0 ack none clock 0
slot 0 node 4 wait peer - msg - mem 0000 acc 0 rej 0 ack none clock 0
keeps yes start 10
";

// A slot of four nodes, of which node 0 listens.
const TRACE: &str = "ttpbench trace 1 nodes 4 rounds 1 slots 1 schedule 000000
slot 0 node 0 wait peer - msg - mem 0000 acc 0 rej 0 ack none clock 0
slot 0 node 1 off peer - msg - mem 0000 acc 0 rej 0 ack none clock 0
slot 0 node 2 off peer - msg - mem 0000 acc 0 rej 0 ack none clock 0
slot 0 node 3 off peer - msg - mem 0000 acc 0 rej 0 ack none clock 0
keeps no H4 0
";

const CAMPAIGN: &[&str] = &["campaign", "list", "script", "11", "11"];

// The words of a call, and the first line that it writes.
type LabCase = (&'static [&'static str], &'static str);

const COMMANDS: &[LabCase] = &[
    (&["wave", "trace"], "$version ttplab wave $end\n"),
    (
        &["picture", "trace", "0", "00009"],
        "<svg xmlns=\"http://www.w3.org/2000/svg\" width=\"1140\" height=\"510\" viewBox=\"0 0 1140 510\">\n",
    ),
    (
        CAMPAIGN,
        "ttplab campaign 1 nodes 5 slots 12 from 11 to 11\n",
    ),
    (
        &["--help"],
        "ttplab 1.0.0: pictures of traces, and campaigns of single faults, of clusters of TTP/C controllers\n",
    ),
    (
        &["--version"],
        "ttplab 1.0.0 (rattle-kit-13f logic dac8208d650f15bf)\n",
    ),
    (
        &["check", "list", "script"],
        "errors 0 warnings 0 keeps yes start 10\n",
    ),
    (
        &["frames", "list", "short", "listening"],
        "ttplab frames 1 nodes 5 rounds 1 slots 1 schedule 000000\n",
    ),
    (&["script", "list", "12", "7"], "slots 12\n"),
    (
        &["chart", "campaign"],
        "<svg xmlns=\"http://www.w3.org/2000/svg\" width=\"1320\" height=\"930\" viewBox=\"0 0 1320 930\">\n",
    ),
];

// How many lines of a text have a sink that fails at them.
const LINES: u32 = 5;

// Whether a sink whose write of this number fails has this front of a text.
fn has_front<R: AllocGlobal + Threads + Sync>(
    rt: &R,
    call: &Call<'_>,
    bad_write: u32,
    front: Option<&[u8]>,
) -> bool {
    let call = Call { bad_write, ..*call };
    let Ok(mut out) = sink_of(rt.alloc(), &call) else {
        return false;
    };
    answer(rt, &call, &mut out) == Some(6) && front == Some(out.bytes())
}

// Whether a sink that fails at one of the first lines of a text has those before it.
fn has_fronts<R: AllocGlobal + Threads + Sync>(rt: &R, call: &Call<'_>, text: &[u8]) -> bool {
    let mut bad_write = 0u32;
    let mut before = 0usize;
    for k in 0..text.len() {
        if text[k] == b'\n' && bad_write < LINES {
            bad_write = bad_write.wrapping_add(1);
            if !has_front(rt, call, bad_write, text.get(..before)) {
                return false;
            }
            before = k + 1;
        }
    }
    bad_write == LINES || before == text.len()
}

// Whether a call answers as its row says, also where a line can't be written.
fn is_answered<R: AllocGlobal + Threads + Sync>(
    rt: &R,
    row: &LabCase,
    files: &[(&str, &str)],
) -> bool {
    let (words, line) = *row;
    let call = Call {
        words,
        files,
        bad_write: 0,
    };
    let Ok(mut out) = sink_of(rt.alloc(), &call) else {
        return false;
    };
    if answer(rt, &call, &mut out) != Some(0) {
        return false;
    }
    let text = out.bytes();
    text.starts_with(line.as_bytes()) && has_fronts(rt, &call, text)
}

// The call that writes the campaign.
const MADE: Call<'static> = Call {
    words: CAMPAIGN,
    files: &[("list", LIST), ("script", SCRIPT)],
    bad_write: 0,
};

// All calls answer as their rows say.
fn are_answered<R: AllocGlobal + Threads + Sync>(rt: &R) -> bool {
    let Ok(mut campaign) = sink_of(rt.alloc(), &MADE) else {
        return false;
    };
    let mut are_right = answer(rt, &MADE, &mut campaign) == Some(0);
    let files = [
        ("list", LIST),
        ("script", SCRIPT),
        ("short", SHORT),
        ("listening", LISTENING),
        ("trace", TRACE),
        ("campaign", text_of(campaign.bytes())),
    ];
    for row in COMMANDS {
        are_right = are_right && is_answered(rt, row, &files);
    }
    are_right
}

#[test]
fn each_command_is_answered(rt: HostRuntime) {
    assert!(rt; are_answered(&rt));
}
