//! A trace of four nodes that stay off, and the same without its last line.
ghost use Rattle.ttp_world.specs.Medl.{IsValid};
ghost use Rattle.ttp_world.specs.Script.{IsValidScript};

use super::scripts::{FOUR_NODES, let_go, read_both};
use std::alloc::Global;
use trace_check::{Outcome, verify};
use ttp_world::{Medl, Script};

const LINES: &str = "ttpbench trace 1 nodes 4 rounds 1 slots 1 schedule 000000
slot 0 node 0 off peer - msg - mem 0000 acc 0 rej 0 ack none clock 0
slot 0 node 1 off peer - msg - mem 0000 acc 0 rej 0 ack none clock 0
slot 0 node 2 off peer - msg - mem 0000 acc 0 rej 0 ack none clock 0
slot 0 node 3 off peer - msg - mem 0000 acc 0 rej 0 ack none clock 0
keeps no H4 0
";

// Whether a trace is told so, by this list and this script.
fn has_outcome(alloc: Global, list: &Medl, script: &Script, trace: &[u8], due: Outcome) -> bool
    requires list { IsValid list.now }
    requires script { IsValidScript list.now script.now }
{
    match verify(alloc, list, script, trace) {
        Ok(outcome) => outcome == due,
        Err(_) => false,
    }
}

// Whether the trace is told from its lines before the last one, by this list and this script.
fn is_told(alloc: Global, list: &Medl, script: &Script) -> bool
    requires list { IsValid list.now }
    requires script { IsValidScript list.now script.now }
{
    let whole = LINES.as_bytes();
    let part = whole.get(..LINES.len().saturating_sub(14)).unwrap_or(whole);
    has_outcome(alloc, list, script, whole, Outcome::Same)
        && has_outcome(alloc, list, script, part, Outcome::Differs { line: 6 })
}

// Whether it is so for four nodes and a script that switches none on.
fn is_told_of_four(alloc: Global) -> bool {
    let Some((list, script)) = read_both(alloc, FOUR_NODES, b"slots 1\n") else {
        return false;
    };
    let is_right = is_told(alloc, &list, &script);
    let_go(script);
    is_right
}

#[test]
fn a_trace_is_told_from_a_part_of_it(rt: HostRuntime) {
    assert!(rt; is_told_of_four(rt.alloc()));
}
