//! The text of the command `modes MEDL SCRIPT TRACE`.
ghost use Rattle.std.specs.Prelude.{IsTrue};
ghost use Rattle.ttp_world.specs.Medl.{IsValid};
ghost use Rattle.ttp_world.specs.Script.{IsValidScript};
ghost use Rattle.trace_check.specs.Answer.{is_trace};
ghost use Rattle.commands.specs.Outcome.{ShowsEnding};
ghost use Rattle.commands.specs.Texts.{alone};
ghost use Rattle.ttp_top.specs.Calls.Answer.{ttpbench};
ghost use Rattle.ttp_top.specs.Calls.Forms.{modes_ending};

use mode_change::{ModeFault, put_modes};
use std::alloc::Global;
use ttp_base::Sink;
use ttp_world::{Medl, Script};

/// The text of modes for a trace.
pub(crate) fn show_text<K: Sink>(
    alloc: Global,
    list: &Medl,
    script: &Script,
    text: &[u8],
    out: &mut K,
) -> u8
    requires valid { IsValid list.now }
    requires script { IsValidScript list.now script.now }
    requires trace { IsTrue (is_trace list.now script.now text.now) }
    ensures { ShowsEnding ttpbench (modes_ending list.now script.now text.now) (K.output out.old) (K.output out.new)
        (alone result) }
{
    match put_modes(alloc, list, script, text, out) {
        Ok(()) => 0,
        Err(ModeFault::Failed) => 6,
        Err(ModeFault::Memory) => 7,
    }
}
