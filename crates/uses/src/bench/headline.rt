//! The text of a run, and the headline of it.
ghost use Rattle.std.specs.Prelude.{IfOk, IfErr};
ghost use Rattle.uses.specs.SafeTrace.{IsSafeTrace, IsMissed};

use crate::bench::ask::ask;
use crate::bench::memory::{Missing, holding, sink_of, words_of};
use std::alloc::Global;
use std::sync::Wait;
use std::thread::Threads;

/// The text of a run of a script for a list, whose files have these bytes, where the text has no more than
/// `room` bytes.
pub fn safe_trace<R: Threads + Wait + Sync>(
    rt: &R,
    alloc: Global,
    list: &[u8],
    script: &[u8],
    room: usize,
) -> Result<Vec<u8>, Missing>
    ensures trace { IfOk result (λ text. IsSafeTrace list.now script.now text.items) }
    ensures missing { IfErr result (IsMissed list.now script.now room) }
{
    let words = words_of(alloc, &["run", "list", "script"])?;
    let mut library = holding(alloc, list, script, &[])?;
    let mut out = sink_of(alloc, room)?;
    let status = ask(rt, alloc, &words, &mut library, &mut out);
    if status != 0 {
        return Err(Missing::Status(status));
    }
    Ok(Vec::from_slice(alloc, out.bytes())?)
}
