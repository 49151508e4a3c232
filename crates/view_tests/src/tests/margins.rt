//! Margins of five nodes whose clocks stand still. The text is that of the format's description.
ghost use Rattle.ttp_world.specs.Medl.{IsValid};
ghost use Rattle.ttp_world.specs.Script.{IsValidScript};

use super::five::{FIVE, QUIET, sum_of};
use campaign::Span;
use fault_runs::{has_room, processors};
use margin_runs::put_margins;
use medl_text::read_medl;
use script_text::read_script;
use std::thread::Threads;
use ttp_base::{List, MemorySink};
use ttp_world::{Medl, Script};

// The text of their drifts: how many bytes it has, and their sum, in which each counts 31 times what the next one does, modulo
// 2^64.
const LENGTH: usize = 2327;

const SUM: u64 = 10_794_770_126_686_828_885;

// The last two lines of the jumps in a slot that the script does not have.
const NO_JUMPS: &[u8] =
    b"end 001f fault -\nall jump sweeps 0 values 0 nobody 0 itself 0 others 0 free - - least - most 0\n";

// Whether the margins of these slots, or of all drifts, have these bytes at their end, and of drifts their sum.
fn are_put<R: Threads + Sync + AllocGlobal>(
    rt: &R,
    list: &Medl,
    script: &Script,
    asked: Option<Span>,
    threads: usize,
) -> bool
    requires valid { IsValid list.now }
    requires script { IsValidScript list.now script.now }
{
    if !has_room(script) {
        return false;
    }
    let Ok(mut out) = MemorySink::new(rt.alloc(), 10_000, List::new(rt.alloc())) else {
        return false;
    };
    if put_margins(rt, rt.alloc(), list, script, asked, threads, &mut out).is_err() {
        return false;
    }
    match asked {
        None => out.bytes().len() == LENGTH && sum_of(out.bytes()) == SUM,
        Some(_) => out.bytes().ends_with(NO_JUMPS),
    }
}

fn are_put_of_five<R: Threads + Sync + AllocGlobal>(
    rt: &R,
    asked: Option<Span>,
    threads: usize,
) -> bool {
    let Ok(list) = read_medl(rt.alloc(), FIVE.as_bytes()) else {
        return false;
    };
    match read_script(rt.alloc(), &list, QUIET) {
        Ok(script) => are_put(rt, &list, &script, asked, threads),
        Err(_) => false,
    }
}

// Texts of other lists and scripts are compared where the real program runs.
#[test]
fn the_same_margins_in_several_threads(rt: HostRuntime) {
    assert!(rt; processors(&rt) >= 1);
    for threads in 1..4usize {
        assert!(rt; are_put_of_five(&rt, None, threads));
    }
}

#[test]
fn slots_past_the_end_have_no_margins(rt: HostRuntime) {
    let asked = Span {
        first: 45,
        last: 999_999_999,
    };
    assert!(rt; are_put_of_five(&rt, Some(asked), 1));
}
