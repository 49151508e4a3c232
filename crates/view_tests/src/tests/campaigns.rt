//! Campaigns over a list and a script as their files say them. The lines are those of the format's
//! description.
ghost use Rattle.ttp_world.specs.Medl.{IsValid};
ghost use Rattle.ttp_world.specs.Script.{IsValidScript};

use super::five::{FIVE, QUIET, sum_of};
use fault_runs::{has_room, processors, put_campaign};
use medl_text::read_medl;
use script_text::read_script;
use std::thread::Threads;
use ttp_base::{List, MemorySink};
use ttp_world::{Medl, Script};

// The slot of a campaign over that script, and its text: how many bytes it has, and their sum, in which each counts
// 31 times what the next one does, modulo 2^64. Both are taken of the text that stands with the format's
// description.
const SLOT: u32 = 22;

const LENGTH: usize = 8217;

const SUM: u64 = 73_808_455_622_624_466;

// Whether a campaign in so many threads has its text.
fn is_put<R: Threads + Sync + AllocGlobal>(
    rt: &R,
    list: &Medl,
    script: &Script,
    threads: usize,
) -> bool
    requires valid { IsValid list.now }
    requires script { IsValidScript list.now script.now }
{
    if !has_room(script) {
        return false;
    }
    let Ok(mut out) = MemorySink::new(rt.alloc(), 10_000, List::new(rt.alloc())) else {
        return false;
    };
    let put = put_campaign(rt, rt.alloc(), list, script, SLOT, SLOT, threads, &mut out);
    put.is_ok() && out.bytes().len() == LENGTH && sum_of(out.bytes()) == SUM
}

// Whether it is so for five nodes.
fn is_put_of_five<R: Threads + Sync + AllocGlobal>(rt: &R, threads: usize) -> bool {
    let Ok(list) = read_medl(rt.alloc(), FIVE.as_bytes()) else {
        return false;
    };
    match read_script(rt.alloc(), &list, QUIET) {
        Ok(script) => is_put(rt, &list, &script, threads),
        Err(_) => false,
    }
}

// The texts of other slots and scripts are compared where the real program runs.
#[test]
fn the_same_text_in_several_threads(rt: HostRuntime) {
    assert!(rt; processors(&rt) >= 1);
    for threads in 1..4usize {
        assert!(rt; is_put_of_five(&rt, threads));
    }
}
