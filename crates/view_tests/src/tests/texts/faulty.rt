//! Who is faulty after a slot, by walks that forget before it what they keep of the script. The rules say that a node
//! whose frame is lost is faulty, and stays so until four rounds after it was armed.
ghost use Rattle.std.specs.Prelude.{◌≡◌, ◌<◌, Some};
ghost use Rattle.ttp_world.specs.Hypothesis.{start_of};
ghost use Rattle.ttp_world.specs.Medl.{IsValid};
ghost use Rattle.ttp_world.specs.Script.{IsValidScript};
ghost use Rattle.hypothesis.specs.Standing.{told_start};

use super::scripts::{FOUR_NODES, let_go, read_both};
use hypothesis::{BackFaulty, KeptFaulty, Start, start_of};
use std::alloc::Global;
use ttp_world::{Medl, Script};

// Node 0 starts in slot 8, and the frame of node 2 is lost in slot 14.
const LOST: &[u8] =
    b"slots 60\non 0 0\non 1 0\non 2 0\non 3 0\nsend 2 AB silence 14 14\narm 2 30\n";

// The faulty nodes after a slot as bits, by the single-fault hypothesis.
fn kept_after(list: &Medl, script: &Script, start: Start, last: u32) -> u32
    requires valid { IsValid list.now }
    requires script { IsValidScript list.now script.now }
    requires start { start_of list.now script.now ≡ Some (told_start start) }
{
    let mut walk = KeptFaulty::new(list, script, start);
    for slot in 0..last {
        walk.step(list, script, slot);
    }
    let mut again = walk.forgetting();
    again.step(list, script, last).bits()
}

// The faulty nodes after a slot by the test on armed nodes, walked from the start on.
fn back_after(list: &Medl, script: &Script, start: Start, last: u32) -> u32
    requires valid { IsValid list.now }
    requires script { IsValidScript list.now script.now }
    requires start { start_of list.now script.now ≡ Some (told_start start) }
    requires slot { last < script.now.slots }
{
    let mut walk = BackFaulty::new(list, script, start);
    for slot in 0..last {
        walk.step(list, script, slot);
    }
    let mut again = walk.forgetting();
    again.step(list, script, last).bits()
}

fn are_faulty(list: &Medl, script: &Script) -> bool
    requires valid { IsValid list.now }
    requires script { IsValidScript list.now script.now }
{
    let Some(start) = start_of(list, script) else {
        return false;
    };
    if script.slots < 60 {
        return false;
    }
    kept_after(list, script, start, 13) == 0
        && kept_after(list, script, start, 14) == 0b100
        && back_after(list, script, start, 14) == 0b100
        && back_after(list, script, start, 59) == 0
}

fn are_told(alloc: Global) -> bool {
    let Some((list, script)) = read_both(alloc, FOUR_NODES, LOST) else {
        return false;
    };
    let is_right = are_faulty(&list, &script);
    let_go(script);
    is_right
}

#[test]
fn faulty_nodes_after_a_slot(rt: HostRuntime) {
    assert!(rt; are_told(rt.alloc()));
}
