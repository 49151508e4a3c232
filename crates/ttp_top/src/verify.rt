//! The commands `verify MEDL SCRIPT TRACE` and `modes MEDL SCRIPT TRACE`, once the list and the script are there.
ghost use Rattle.ttp_world.specs.Medl.{IsValid};
ghost use Rattle.ttp_world.specs.Script.{IsValidScript};
ghost use Rattle.commands.specs.Files.{trace_plan};
ghost use Rattle.commands.specs.Outcome.{Follows, ShowsEnding};
ghost use Rattle.commands.specs.Plan.{outside, ends};
ghost use Rattle.commands.specs.Texts.{alone};
ghost use Rattle.ttp_top.specs.Calls.Answer.{ttpbench};
ghost use Rattle.ttp_top.specs.Calls.Forms.{judged_ending};

use crate::modes::show_text;
use commands::{load_trace, say};
use std::alloc::Global;
use trace_check::{Outcome, differs_line, verify as outcome_of};
use ttp_base::{Library, Sink};
use ttp_world::{Medl, Script};

/// What a command wants of a text.
#[derive(Clone, Copy)]
pub(crate) enum Wants {
    /// Whether it is a trace.
    Same,
    /// Which mode each node runs after each slot of the trace that it is to be.
    Modes,
}

// Whether a text is a trace, or the modes of one. Memory is taken before the first line is written.
fn show_outcome<K: Sink>(
    alloc: Global,
    list: &Medl,
    script: &Script,
    text: &[u8],
    wants: Wants,
    out: &mut K,
) -> u8
    requires valid { IsValid list.now }
    requires script { IsValidScript list.now script.now }
    ensures { ShowsEnding ttpbench (judged_ending wants list.now script.now text.now) (K.output out.old)
        (K.output out.new) (alone result) }
{
    match outcome_of(alloc, list, script, text) {
        Ok(Outcome::Same) => match wants {
            Wants::Same => say(out, b"same\n", 0),
            Wants::Modes => show_text(alloc, list, script, text, out),
        },
        Ok(Outcome::Differs { line }) => say(out, differs_line(line).bytes(), 1),
        Err(_) => 7,
    }
}

/// The answer to a question about the text of this name, for this script and this list.
pub(crate) fn judge<L: Library, K: Sink>(
    alloc: Global,
    list: &Medl,
    script: &Script,
    trace: &str,
    wants: Wants,
    library: &mut L,
    out: &mut K,
) -> u8
    requires valid { IsValid list.now }
    requires script { IsValidScript list.now script.now }
    ensures { Follows ttpbench (trace_plan trace.now (λ text. ends (judged_ending wants list.now script.now text)))
        (outside (L.files library.old) (K.output out.old)) (outside (L.files library.new) (K.output out.new))
        (alone result) }
{
    match load_trace(alloc, trace, library, out) {
        Ok(text) => show_outcome(alloc, list, script, text.as_slice(), wants, out),
        Err(status) => status,
    }
}
