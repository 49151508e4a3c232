//! What `verify` says of a text that `run` wrote.
ghost use Rattle.std.specs.Prelude.{◌≡◌, ◌⊎◌, IfOk, IfErr};
ghost use Rattle.uses.specs.SafeTrace.{IsMissed};

use crate::bench::ask::ask;
use crate::bench::headline::safe_trace;
use crate::bench::memory::{Missing, holding, sink_of, words_of};
use std::alloc::Global;
use std::sync::Wait;
use std::thread::Threads;

// More bytes than the line of a verdict has.
const VERDICT_ROOM: usize = 256;

/// The status of `verify` for the text of a run: 0, or 7 where memory was refused.
pub fn verify_run<R: Threads + Wait + Sync>(
    rt: &R,
    alloc: Global,
    list: &[u8],
    script: &[u8],
    room: usize,
) -> Result<u8, Missing>
    ensures same { IfOk result (λ status. (status ≡ 0) ⊎ (status ≡ 7)) }
    ensures missing { IfErr result (IsMissed list.now script.now room) }
{
    let text = safe_trace(rt, alloc, list, script, room)?;
    let words = words_of(alloc, &["verify", "list", "script", "trace"])?;
    let mut library = holding(alloc, list, script, text.as_slice())?;
    let mut out = sink_of(alloc, VERDICT_ROOM)?;
    Ok(ask(rt, alloc, &words, &mut library, &mut out))
}
