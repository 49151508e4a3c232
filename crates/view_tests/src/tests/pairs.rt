//! Pairs of faults over a list and a script as their files say them. The lines are those of the format's description.
ghost use Rattle.ttp_world.specs.Medl.{IsValid};
ghost use Rattle.ttp_world.specs.Script.{IsValidScript};

use super::five::{FIVE, QUIET, sum_of};
use medl_text::read_medl;
use pair_runs::put_pairs;
use script_text::read_script;
use std::thread::Threads;
use ttp_base::{List, MemorySink};
use ttp_world::{EVENT_LIMIT, Medl, Script};

// The slot of both faults, and the text of these pairs: how many bytes it has, and their sum, in which each counts 31 times what
// the next one does, modulo 2^64. Both are taken of the text that stands with the format's description.
const SLOT: u32 = 22;

const LENGTH: usize = 14954;

const SUM: u64 = 12_355_141_633_198_118_327;

// Whether these pairs have their text in so many threads.
fn is_put<R: Threads + Sync + AllocGlobal>(
    rt: &R,
    list: &Medl,
    script: &Script,
    threads: usize,
) -> bool
    requires valid { IsValid list.now }
    requires script { IsValidScript list.now script.now }
{
    if script.events.as_slice().len() + 1 >= EVENT_LIMIT {
        return false;
    }
    let Ok(mut out) = MemorySink::new(rt.alloc(), 20_000, List::new(rt.alloc())) else {
        return false;
    };
    let put = put_pairs(
        rt,
        rt.alloc(),
        list,
        script,
        SLOT,
        SLOT,
        0,
        threads,
        &mut out,
    );
    put.is_ok() && out.bytes().len() == LENGTH && sum_of(out.bytes()) == SUM
}

// Whether it is so for five nodes.
fn is_put_of_five<R: Threads + Sync + AllocGlobal>(rt: &R, threads: usize) -> bool {
    let Ok(list) = read_medl(rt.alloc(), FIVE.as_bytes()) else {
        return false;
    };
    match read_script(rt.alloc(), &list, QUIET) {
        Ok(script) => is_put(rt, &list, &script, threads),
        Err(_) => false,
    }
}

#[test]
fn the_same_pairs_in_several_threads(rt: HostRuntime) {
    for threads in 1..3usize {
        assert!(rt; is_put_of_five(&rt, threads));
    }
}
