//! A script for a list of six nodes, worked out by a program of its own, which `.ci/calls.py` shows line by line.
use super::scripts::{is_written, let_go, list_of};
use script_gen::generate;
use std::alloc::Global;
use ttp_world::{Channels, Script};

const BOTH: Channels = Channels { a: true, b: true };

// Six nodes, of which the first and the fifth send payload and the second may start.
const SIX_NODES: &str =
    "version = 1\nrounds = 1\nschedule = 0\nbuffers = 2\ndrift = 3\nerror = 5\nwindow = 88\n
[[slot]]\nkinds = \"N\"\ndata = 2\nsync = true\nstart = false\n
[[slot]]\nkinds = \"I\"\ndata = 0\nsync = true\nstart = true\n
[[slot]]\nkinds = \"I\"\ndata = 0\nsync = true\nstart = false\n
[[slot]]\nkinds = \"I\"\ndata = 0\nsync = true\nstart = false\n
[[slot]]\nkinds = \"N\"\ndata = 3\nsync = true\nstart = false\n
[[slot]]\nkinds = \"I\"\ndata = 0\nsync = true\nstart = false\n";

// Node 1's frame is struck in slot 25, node 4 hears none in slot 39, and host 4 writes in its slot.
fn is_due(script: &Script) -> bool {
    let sends = script.incidents(1, 25);
    let hears = script.incidents(4, 39);
    script.slots == 60
        && script.on.as_slice() == [Some(0); 6].as_slice()
        && script.drift.as_slice() == [-3, 1, 2, 0, 2, -2].as_slice()
        && sends.error == 4
        && sends.send_noise == BOTH
        && hears.error == -5
        && hears.receive_noise == BOTH
        && is_written(script, 14, 4, &[4, 4, 4])
}

fn is_generated(alloc: Global) -> bool {
    let Some(list) = list_of(alloc, SIX_NODES) else {
        return false;
    };
    let Ok(script) = generate(alloc, &list, 60, 5) else {
        return false;
    };
    let is_right = is_due(&script);
    let_go(script);
    is_right
}

#[test]
fn a_script_of_six_nodes(rt: HostRuntime) {
    assert!(rt; is_generated(rt.alloc()));
}
