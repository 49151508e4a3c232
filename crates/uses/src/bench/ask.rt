//! A question to `bench` over files and output in memory.
ghost use Rattle.std.specs.Prelude.{◌≤◌};
ghost use Rattle.ttp_base.specs.MemoryLibrary.{library_faults, library_files};
ghost use Rattle.ttp_base.specs.MemorySink.{sink_output};
ghost use Rattle.commands.specs.Plan.{outside};
ghost use Rattle.commands.specs.Words.{texts_of};
ghost use Rattle.uses.specs.Asked.{IsAnswered};

use bench_call::{bench, let_go};
use std::alloc::Global;
use std::sync::Wait;
use std::thread::Threads;
use ttp_base::{MemoryLibrary, MemorySink, OpenGate};

/// The status of `bench`, behind an open gate. The cluster that it keeps is let go.
pub(crate) fn ask<R: Threads + Wait + Sync>(
    rt: &R,
    alloc: Global,
    words: &[String],
    library: &mut MemoryLibrary,
    out: &mut MemorySink,
) -> u8
    ensures answered { IsAnswered (texts_of words.now) (outside (library_files library.old) (sink_output out.old))
        (outside (library_files library.new) (sink_output out.new)) result }
    ensures faults { library_faults library.old ≤ library_faults library.new }
{
    let gate = OpenGate::new();
    let mut kept = None;
    let status = bench(rt, alloc, words, library, out, &gate, &mut kept);
    let_go(kept);
    status
}
