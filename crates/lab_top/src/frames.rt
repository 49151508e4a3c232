//! The command `frames LIST SCRIPT TRACE`.
ghost use Rattle.std.specs.Prelude.{Some, IsTrue};
ghost use Rattle.ttp_world.specs.Medl.{IsValid};
ghost use Rattle.ttp_world.specs.Script.{IsValidScript};
ghost use Rattle.trace_check.specs.Answer.{is_trace};
ghost use Rattle.commands.specs.Files.{trace_plan};
ghost use Rattle.commands.specs.Outcome.{Follows, ShowsEnding};
ghost use Rattle.commands.specs.Plan.{outside, ends};
ghost use Rattle.commands.specs.Texts.{alone};
ghost use Rattle.lab_top.specs.Forms.{frames_ending, lab_plan_of};
ghost use Rattle.lab_top.specs.Texts.{ttplab};
ghost use Rattle.lab_top.specs.Words.{frames};

use bus_frames::{FrameFault, put_frames};
use commands::{load_both, load_trace, say};
use std::alloc::Global;
use trace_check::{Outcome, differs_line, verify};
use ttp_base::{Library, Sink};
use ttp_world::{Medl, Script};

// The frames of a trace.
fn show_frames<K: Sink>(alloc: Global, list: &Medl, script: &Script, text: &[u8], out: &mut K) -> u8
    requires valid { IsValid list.now }
    requires script { IsValidScript list.now script.now }
    requires trace { IsTrue (is_trace list.now script.now text.now) }
    ensures { ShowsEnding ttplab (frames_ending list.now script.now text.now) (K.output out.old) (K.output out.new)
        (alone result) }
{
    match put_frames(alloc, list, script, text, out) {
        Ok(()) => 0,
        Err(FrameFault::Failed) => 6,
        Err(FrameFault::Memory) => 7,
    }
}

// The frames of a text, if it is a trace.
fn show_outcome<K: Sink>(
    alloc: Global,
    list: &Medl,
    script: &Script,
    text: &[u8],
    out: &mut K,
) -> u8
    requires valid { IsValid list.now }
    requires script { IsValidScript list.now script.now }
    ensures { ShowsEnding ttplab (frames_ending list.now script.now text.now) (K.output out.old) (K.output out.new)
        (alone result) }
{
    match verify(alloc, list, script, text) {
        Ok(Outcome::Same) => show_frames(alloc, list, script, text, out),
        Ok(Outcome::Differs { line }) => say(out, differs_line(line).bytes(), 1),
        Err(_) => 7,
    }
}

// The frames of the text of this name, if it is a trace.
fn judge<L: Library, K: Sink>(
    alloc: Global,
    list: &Medl,
    script: &Script,
    trace: &str,
    library: &mut L,
    out: &mut K,
) -> u8
    requires valid { IsValid list.now }
    requires script { IsValidScript list.now script.now }
    ensures { Follows ttplab (trace_plan trace.now (λ text. ends (frames_ending list.now script.now text)))
        (outside (L.files library.old) (K.output out.old)) (outside (L.files library.new) (K.output out.new))
        (alone result) }
{
    match load_trace(alloc, trace, library, out) {
        Ok(text) => show_outcome(alloc, list, script, text.as_slice(), out),
        Err(status) => status,
    }
}

/// The frames on the bus for the text of the third name, if it is a trace of the script of this name for the list of this
/// name; else its first wrong line.
pub(crate) fn frames<L: Library, K: Sink>(
    alloc: Global,
    list: &str,
    script: &str,
    trace: &str,
    library: &mut L,
    out: &mut K,
) -> u8
    ensures { Follows ttplab (lab_plan_of (Some (frames list.now script.now trace.now)))
        (outside (L.files library.old) (K.output out.old)) (outside (L.files library.new) (K.output out.new))
        (alone result) }
{
    match load_both(alloc, list, script, library, out) {
        Ok((medl, right)) => judge(alloc, &medl, &right, trace, library, out),
        Err(status) => status,
    }
}
