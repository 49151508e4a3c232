//! The end of a trace, and what `keeps` writes.
ghost use Rattle.std.specs.Prelude.{IfOk};
ghost use Rattle.uses.specs.LastLines.{AreTested, EndsWith};

use crate::bench::ask::ask;
use crate::bench::headline::safe_trace;
use crate::bench::memory::{Missing, holding, sink_of, words_of};
use std::alloc::Global;
use std::sync::Wait;
use std::thread::Threads;

// What `keeps` writes of these files.
fn tested<R: Threads + Wait + Sync>(
    rt: &R,
    alloc: Global,
    list: &[u8],
    script: &[u8],
    room: usize,
) -> Result<Vec<u8>, Missing>
    ensures { IfOk result (λ text. AreTested list.now script.now text.items) }
{
    let words = words_of(alloc, &["keeps", "list", "script"])?;
    let mut library = holding(alloc, list, script, &[])?;
    let mut out = sink_of(alloc, room)?;
    match ask(rt, alloc, &words, &mut library, &mut out) {
        0 => Ok(Vec::from_slice(alloc, out.bytes())?),
        status => Err(Missing::Status(status)),
    }
}

/// The text of a run, and what `keeps` writes of the same files: the text ends with it.
pub fn run_and_keeps<R: Threads + Wait + Sync>(
    rt: &R,
    alloc: Global,
    list: &[u8],
    script: &[u8],
    room: usize,
) -> Result<(Vec<u8>, Vec<u8>), Missing>
    ensures { IfOk result (λ texts. EndsWith texts.0.items texts.1.items) }
{
    let run = safe_trace(rt, alloc, list, script, room)?;
    let keeps = tested(rt, alloc, list, script, room)?;
    Ok((run, keeps))
}
