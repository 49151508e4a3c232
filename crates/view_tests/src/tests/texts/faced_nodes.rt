//! What no line shows of scripts in which one sender may be two-faced, worked out by hand from the rules.
ghost use Rattle.std.specs.Prelude.{◌≡◌};
ghost use Rattle.ttp_world.specs.Medl.{IsValid};
ghost use Rattle.ttp_world.specs.Script.{IsValidScript};
ghost use Rattle.two_faced.specs.declared.faced.Faced.TheVariants as faced;
ghost use Rattle.two_faced.specs.Faced.{faced_of};

use super::scripts::{let_go, list_of, read_both, script_of};
use std::alloc::Global;
use ttp_world::{Medl, Script};
use two_faced::{Faced, Seen, bound, find_faced, find_seen, halved};

// Four nodes, of which node 0 starts in slot 8; their clocks drift by up to one microtick.
const WIDE: &str =
    "version = 1\nrounds = 1\nschedule = 0\nbuffers = 2\ndrift = 1\nerror = 0\nwindow = 64\n
[[slot]]\nkinds = \"I\"\ndata = 0\nsync = true\nstart = true\n
[[slot]]\nkinds = \"I\"\ndata = 0\nsync = true\nstart = false\n
[[slot]]\nkinds = \"I\"\ndata = 0\nsync = true\nstart = false\n
[[slot]]\nkinds = \"I\"\ndata = 0\nsync = true\nstart = false\n";

const KEEPING: &str =
    "slots 28\non 0 0\non 1 0\non 2 0\non 3 0\ndrift 0 1\nerror 0 14 19 19\nerror 1 -14 19 19\n";

// Asks the law for a script that keeps the rules.
fn ask_law(list: &Medl, script: &Script, node: u8, start: u32)
    requires valid { IsValid list.now }
    requires script { IsValidScript list.now script.now }
    requires faced { faced_of list.now script.now node ≡ faced.Yes start }
{
    halved(list, script, node, start);
}

// Whether a script keeps the rules; the law then holds of it.
fn is_owed_law(list: &Medl, script: &Script, node: u8) -> bool
    requires valid { IsValid list.now }
    requires script { IsValidScript list.now script.now }
{
    match find_faced(list, script, node) {
        Faced::Yes { start } => {
            ask_law(list, script, node, start);
            true
        }
        Faced::No { .. } => false,
    }
}

fn is_kept(alloc: Global) -> bool {
    let Some((list, script)) = read_both(alloc, WIDE, KEEPING.as_bytes()) else {
        return false;
    };
    let is_right = bound(&list) == 50 && is_owed_law(&list, &script, 3);
    let_go(script);
    is_right
}

#[test]
fn a_script_that_keeps_the_rules_is_owed_the_law(rt: HostRuntime) {
    assert!(rt; is_kept(rt.alloc()));
}

// A script, and what is seen beside node 3: one node alone is on beside it, and nobody may start.
const DIFFERENCES: &[(&str, Seen)] = &[
    (
        "slots 28\non 0 0\non 3 0\ndrift 0 1\n",
        Seen { value: 0, slot: 8 },
    ),
    (
        "slots 28\non 1 0\non 2 0\ndrift 1 1\n",
        Seen { value: 0, slot: 0 },
    ),
];

fn is_seen(alloc: Global, list: &Medl, case: &(&str, Seen)) -> bool
    requires { IsValid list.now }
{
    let Some(script) = script_of(alloc, list, case.0.as_bytes()) else {
        return false;
    };
    let seen = find_seen(alloc, list, &script, 3);
    let_go(script);
    seen.ok() == Some(case.1)
}

fn are_seen(alloc: Global) -> bool {
    let Some(list) = list_of(alloc, WIDE) else {
        return false;
    };
    for case in DIFFERENCES {
        if !is_seen(alloc, &list, case) {
            return false;
        }
    }
    true
}

#[test]
fn differences_are_seen_beside_a_node(rt: HostRuntime) {
    assert!(rt; are_seen(rt.alloc()));
}
