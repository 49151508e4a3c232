//! Commands over a library and a sink in memory: lines that fail, gates, and clusters that are kept.
//! What commands write to the byte is compared where the real program runs.

mod beside;
mod forms;
pub(super) mod gate;
mod kept;

use bench_call::bench;
use cluster_run::Cluster;
use gate::Beside;
use std::alloc::Global;
use std::sync::Wait;
use std::thread::Threads;
use ttp_base::{List, Memory, MemoryLibrary, MemorySink};

// Five nodes, of which node 0 may start.
const FIVE_NODES: &str =
    "version = 1\nrounds = 1\nschedule = 0\nbuffers = 2\ndrift = 0\nerror = 0\nwindow = 2\n
[[slot]]\nkinds = \"I\"\ndata = 0\nsync = true\nstart = true\n
[[slot]]\nkinds = \"I\"\ndata = 0\nsync = true\nstart = false\n
[[slot]]\nkinds = \"I\"\ndata = 0\nsync = true\nstart = false\n
[[slot]]\nkinds = \"I\"\ndata = 0\nsync = true\nstart = false\n
[[slot]]\nkinds = \"I\"\ndata = 0\nsync = true\nstart = false\n";

const START: &str = "slots 15\non 0 0\non 1 0\non 2 0\non 3 0\non 4 0\n";

// All five nodes are on, and host 1 reads its status in slot 11.
const POLLED: &str = "slots 15\non 0 0\non 1 0\non 2 0\non 3 0\non 4 0\nread 1 11 status\n";

// A call of `bench`: its words, what the library holds under `list`, `script` and `trace`, and which call of the
// sink fails; 0 is none.
#[derive(Clone, Copy)]
struct Call<'a> {
    words: &'a [&'a str],
    list: &'a str,
    script: &'a str,
    trace: &'a [u8],
    bad_write: u32,
}

// The run of five nodes, in which nothing fails.
const RUN: Call<'static> = Call {
    words: &["run", "list", "script"],
    list: FIVE_NODES,
    script: START,
    trace: b"",
    bad_write: 0,
};

fn library_of(alloc: Global, call: &Call<'_>) -> Option<MemoryLibrary> {
    let mut library = MemoryLibrary::new(alloc, List::new(alloc));
    let is_made = library.add("list", call.list.as_bytes()).is_ok()
        && library.add("script", call.script.as_bytes()).is_ok()
        && library.add("trace", call.trace).is_ok();
    if is_made { Some(library) } else { None }
}

// The sink of a call.
fn sink_of(alloc: Global, call: &Call<'_>) -> Result<MemorySink, Memory> {
    let mut fails = List::new(alloc);
    fails.push(call.bad_write)?;
    MemorySink::new(alloc, 65_536, fails)
}

fn words_of(alloc: Global, call: &Call<'_>) -> Result<Vec<String>, Memory> {
    let mut words = Vec::new(alloc);
    for word in call.words {
        words.push(String::from_str(alloc, word)?)?;
    }
    Ok(words)
}

// What a call answers that writes into this sink, with this gate and this cluster kept, if there is memory.
fn run_bench<R: Threads + Wait + Sync + AllocGlobal>(
    rt: &R,
    call: &Call<'_>,
    out: &mut MemorySink,
    gate: &Beside,
    kept: &mut Option<Cluster>,
) -> Option<u8> {
    let alloc = rt.alloc();
    let (Ok(words), Some(mut library)) = (words_of(alloc, call), library_of(alloc, call)) else {
        return None;
    };
    Some(bench(rt, alloc, &words, &mut library, out, gate, kept))
}

/// Lets a cluster go. A function of its own, since what a cluster holds is let go part by part in each
/// function that may do so.
pub(super) fn let_go(_kept: Option<Cluster>) {}

// Bytes as a text, which is empty where they are none.
fn text_of(bytes: &[u8]) -> &str {
    str::from_utf8(bytes).unwrap_or("")
}
