//! Questions about a script for a list: the commands that load both, and run no cluster.
ghost use Rattle.ttp_world.specs.Medl.{IsValid};
ghost use Rattle.ttp_world.specs.Script.{IsValidScript};
ghost use Rattle.commands.specs.Files.{both_plan};
ghost use Rattle.commands.specs.Outcome.{Follows};
ghost use Rattle.commands.specs.Plan.{outside};
ghost use Rattle.commands.specs.Texts.{alone};
ghost use Rattle.ttp_top.specs.Calls.Answer.{ttpbench};
ghost use Rattle.ttp_top.specs.Calls.Forms.{plan_told};

use crate::faced::show_precision;
use crate::run::show_keep;
use crate::verify::{Wants, judge};
use crate::words::Question;
use commands::load_both;
use std::alloc::Global;
use ttp_base::{Library, Sink};
use ttp_world::{Medl, Script};

// The answer to a question about this script for this list.
fn tell<L: Library, K: Sink>(
    alloc: Global,
    list: &Medl,
    script: &Script,
    question: Question<'_>,
    library: &mut L,
    out: &mut K,
) -> u8
    requires valid { IsValid list.now }
    requires script { IsValidScript list.now script.now }
    ensures { Follows ttpbench (plan_told question.entry list.now script.now)
        (outside (L.files library.old) (K.output out.old)) (outside (L.files library.new) (K.output out.new))
        (alone result) }
{
    match question {
        Question::Keeps => show_keep(list, script, out),
        Question::Verify { trace } => judge(alloc, list, script, trace, Wants::Same, library, out),
        Question::Precision { node } => show_precision(alloc, list, script, node, out),
        Question::Modes { trace } => judge(alloc, list, script, trace, Wants::Modes, library, out),
    }
}

/// The answer to a question about the script of this name for the list of this name. The script is loaded only
/// for a list that is not refused, and a trace only where the script is not refused either.
pub(crate) fn ask<L: Library, K: Sink>(
    alloc: Global,
    list: &str,
    script: &str,
    question: Question<'_>,
    library: &mut L,
    out: &mut K,
) -> u8
    ensures { Follows ttpbench (both_plan list.now script.now (plan_told question.entry))
        (outside (L.files library.old) (K.output out.old)) (outside (L.files library.new) (K.output out.new))
        (alone result) }
{
    match load_both(alloc, list, script, library, out) {
        Ok((medl, right)) => tell(alloc, &medl, &right, question, library, out),
        Err(status) => status,
    }
}
