//! The forms that write lines of a list and a script, as `campaign LIST SCRIPT FIRST LAST` does.
//!
//! Such a form is a value with an impl of [`LinesOf`], which says its lines and writes them; [`write_lines`] does what they share.
ghost use Rattle.std.specs.Prelude.{◌<◌, length, List as Items, OnOk, IfErr};
ghost use Rattle.std.specs.Thread.{IsSync};
ghost use Rattle.ttp_base.specs.Outside.{WroteLines};
ghost use Rattle.ttp_base.specs.Text.{Lines};
ghost use Rattle.ttp_world.specs.declared.medl.Medl.{Medl};
ghost use Rattle.ttp_world.specs.declared.script.Script.{Script};
ghost use Rattle.ttp_world.specs.declared.script.TheConstants.{EVENT_LIMIT};
ghost use Rattle.ttp_world.specs.Medl.{IsValid};
ghost use Rattle.ttp_world.specs.Script.{IsValidScript};
ghost use Rattle.fault_runs.specs.Ends.{LeftFewerBy};
ghost use Rattle.commands.specs.Outcome.{Follows, ShowsEnding};
ghost use Rattle.commands.specs.Plan.{outside};
ghost use Rattle.commands.specs.Texts.{alone};
ghost use Rattle.lab_top.specs.Forms.{lines_ending, lines_plan};
ghost use Rattle.lab_top.specs.Texts.{ttplab};

use commands::load_both;
use fault_runs::CampaignFault;
use std::alloc::Global;
use std::thread::Threads;
use ttp_base::{Library, Sink};
use ttp_world::{Medl, Script};

/// What a form writes of a list and a script.
pub(crate) trait LinesOf {
    /// The lines.
    ghost lines: { Self → Medl → Script → Lines };

    /// Writes them, each as one piece. `Failed` where the sink's count rose, and `Memory` where memory was refused: then
    /// some of its first lines were written, or none, and never all. It may run threads, which are gone when it returns.
    fn put<R: Threads + Sync, K: Sink>(
        &self,
        rt: &R,
        alloc: Global,
        list: &Medl,
        script: &Script,
        out: &mut K,
    ) -> Result<(), CampaignFault>
        requires threads { IsSync R.row }
        requires valid { IsValid list.now }
        requires script { IsValidScript list.now script.now }
        requires room { length script.now.events < EVENT_LIMIT }
        ensures ok { OnOk result (WroteLines (K.output out.old) (K.output out.new) (lines self.now list.now script.now)) }
        ensures err { IfErr result (λ why. LeftFewerBy why (K.output out.old) (K.output out.new)
            (lines self.now list.now script.now)) };
}

// The lines of a list and a script.
fn show_lines<R: Threads + Sync, F: LinesOf, K: Sink>(
    rt: &R,
    form: &F,
    alloc: Global,
    list: &Medl,
    script: &Script,
    out: &mut K,
) -> u8
    requires valid { IsValid list.now }
    requires script { IsValidScript list.now script.now }
    requires room { length script.now.events < EVENT_LIMIT }
    ensures { ShowsEnding ttplab (lines_ending (F.lines form.now list.now script.now)) (K.output out.old) (K.output out.new)
        (alone result) }
{
    match form.put(rt, alloc, list, script, out) {
        Ok(()) => 0,
        Err(CampaignFault::Failed) => 6,
        Err(CampaignFault::Memory) => 7,
    }
}

/// The lines of the list of this name and the script of this name. A script that a file holds always has room for one event
/// more.
pub(crate) fn write_lines<R: Threads + Sync, F: LinesOf, L: Library, K: Sink>(
    rt: &R,
    form: &F,
    alloc: Global,
    list: &str,
    script: &str,
    library: &mut L,
    out: &mut K,
) -> u8
    ensures { Follows ttplab (lines_plan (F.lines form.now) list.now script.now)
        (outside (L.files library.old) (K.output out.old)) (outside (L.files library.new) (K.output out.new))
        (alone result) }
{
    match load_both(alloc, list, script, library, out) {
        Ok((medl, right)) => show_lines(rt, form, alloc, &medl, &right, out),
        Err(status) => status,
    }
}
