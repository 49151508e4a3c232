//! Laws over the definitions. The functions do nothing; their contracts are the laws.
ghost use Rattle.std.specs.Prelude.{All, IsTrue, Option};
ghost use Rattle.std.specs.List.{concat};
ghost use Rattle.ttp_world.specs.declared.medl.Medl.{Medl};
ghost use Rattle.ttp_world.specs.declared.script.Script.{Script};
ghost use Rattle.ttp_world.specs.Legal.{IsLegalRun};
ghost use Rattle.ttp_world.specs.Medl.{IsValid};
ghost use Rattle.ttp_world.specs.Script.{IsValidScript};
ghost use Rattle.ttp_world.specs.Trace.{trace_lines};
ghost use Rattle.ttp_world.specs.World.{Numbers};
ghost use Rattle.picture_text.specs.declared.window.Span.{Span as Slots};
ghost use Rattle.lab_laws.specs.TakenTrace.{IsOfBytes, trace_of_run};
ghost use Rattle.lab_top.specs.Views.{picture_view, has_slots, CanBeShown};

/// The text of a run can be shown, as the trace of the run, where it has the slots that are asked for. Where none
/// are asked for it has them.
pub fn runs_can_be_shown()
    ensures { (list : Medl) (script : Script) (numbers : Numbers) (asked : Option Slots) → IsValid list
        → IsValidScript list script → All IsOfBytes script.events → IsLegalRun list script numbers
        → IsTrue (has_slots (trace_of_run list script numbers) asked)
        → CanBeShown (picture_view asked) (concat (trace_lines list script numbers)) (trace_of_run list script numbers) }
{}
