//! Rules that are broken, of lists and scripts like those of the examples.
ghost use Rattle.std.specs.Prelude.{◌≤◌, length, IfSome};
ghost use Rattle.ttp_world.specs.Medl.{IsValid};
ghost use Rattle.ttp_world.specs.Script.{IsValidScript};

use broken_arms::{NotOwed, broken_arm};
use broken_faults::{LostFrame, broken_faults};
use broken_rules::{Answer, broken_rules};
use hypothesis::start_of;
use medl_text::read_medl;
use script_text::read_script;
use std::alloc::Global;
use ttp_world::{Back, Keep, Medl, Script};

// Five nodes in two rounds, of which nodes 0 and 1 may start.
const LIST: &[u8] =
    b"version = 1\nrounds = 2\nschedule = 7\nbuffers = 2\ndrift = 2\nerror = 1\nwindow = 100\n
[[slot]]\nkinds = \"II\"\ndata = 0\nsync = true\nstart = true\n
[[slot]]\nkinds = \"NX\"\ndata = 8\nsync = true\nstart = true\n
[[slot]]\nkinds = \"II\"\ndata = 0\nsync = true\nstart = false\n
[[slot]]\nkinds = \"IN\"\ndata = 4\nsync = true\nstart = false\n
[[slot]]\nkinds = \"II\"\ndata = 0\nsync = true\nstart = false\n
";

// Nodes 2 and 4 lose a frame of node 3, which is more than one fault.
const TWO_LOSE: &[u8] =
    b"slots 60\non 0 0\non 1 0\non 2 0\non 3 0\non 4 0\nreceive 2 AB silence 28 28\nreceive 4 AB noise 28 28\n";

// Node 3 fails in slot 28, and is armed too soon behind that.
const ARMED: &[u8] =
    b"slots 60\non 0 0\non 1 0\non 2 0\non 3 0\non 4 0\nsend 3 AB noise 28 28\narm 3 36\n";

// The list and one of the scripts.
fn both(alloc: Global, text: &[u8]) -> Option<(Medl, Script)>
    requires { length text.now ≤ 1048576 }
    ensures valid { IfSome result (λ r. IsValid r.0) }
    ensures script { IfSome result (λ r. IsValidScript r.0 r.1) }
{
    let Ok(list) = read_medl(alloc, LIST) else {
        return None;
    };
    match read_script(alloc, &list, text) {
        Ok(script) => Some((list, script)),
        Err(_) => None,
    }
}

// Whether nodes 2 and 4 lose the frame of node 3 in slot 28.
fn is_frame_28(lost: Option<LostFrame>) -> bool {
    match lost {
        Some(lost) => {
            lost.slot == 28
                && lost.sender == 3
                && lost.lost.count() == 2
                && lost.lost.has(2)
                && lost.lost.has(4)
        }
        None => false,
    }
}

// Whether a frame that two nodes lose breaks the rule on losses, and that alone.
fn loses_one_frame(list: &Medl, script: &Script) -> bool
    requires valid { IsValid list.now }
    requires script { IsValidScript list.now script.now }
{
    let Some(start) = start_of(list, script) else {
        return false;
    };
    let found = broken_faults(list, script, start);
    start.slot == 10 && is_frame_28(found.lost) && found.early.is_none() && found.few.is_none()
}

#[test]
fn a_frame_that_two_nodes_lose(rt: HostRuntime) {
    let is_told = match both(rt.alloc(), TWO_LOSE) {
        Some((list, script)) => loses_one_frame(&list, &script),
        None => false,
    };
    assert!(rt; is_told);
}

// Whether the arm line of node 3 comes two slots too soon.
fn is_armed_too_soon(list: &Medl, script: &Script) -> bool
    requires valid { IsValid list.now }
    requires script { IsValidScript list.now script.now }
{
    let Some(start) = start_of(list, script) else {
        return false;
    };
    match broken_arm(list, script, start) {
        Some(arm) => arm.slot == 36
            && arm.node == 3
            && matches!(arm.why, NotOwed::TooSoon { since: 28, due: 38 }),
        None => false,
    }
}

#[test]
fn an_arm_line_that_comes_too_soon(rt: HostRuntime) {
    let is_told = match both(rt.alloc(), ARMED) {
        Some((list, script)) => is_armed_too_soon(&list, &script),
        None => false,
    };
    assert!(rt; is_told);
}

// Whether the answers of the tests name these rules.
fn name_rules(lost: &(Medl, Script), armed: &(Medl, Script)) -> bool
    requires valid { IsValid lost.now.0 }
    requires script { IsValidScript lost.now.0 lost.now.1 }
    requires other { IsValid armed.now.0 }
    requires armed { IsValidScript armed.now.0 armed.now.1 }
{
    let first = broken_rules(&lost.0, &lost.1);
    let second = broken_rules(&armed.0, &armed.1);
    matches!(
        first.answer,
        Answer::Keeps {
            keep: Keep::No { rule: 5, slot: 28 }
        }
    ) && first.faults.lost.is_some()
        && first.arm.is_none()
        && matches!(
            second.answer,
            Answer::Returns {
                back: Back::No { rule: 8, slot: 36 }
            }
        )
        && second.arm.is_some()
}

#[test]
fn tests_name_the_rules_that_are_broken(rt: HostRuntime) {
    let alloc = rt.alloc();
    let is_told = match (both(alloc, TWO_LOSE), both(alloc, ARMED)) {
        (Some(lost), Some(armed)) => name_rules(&lost, &armed),
        _ => false,
    };
    assert!(rt; is_told);
}
