//! Laws over the definitions. The functions do nothing; their contracts are the laws.
ghost use Rattle.std.specs.Prelude.{◌≡◌, All, length, Ok};
ghost use Rattle.std.specs.List.{concat};
ghost use Rattle.ttp_world.specs.declared.medl.Medl.{Medl};
ghost use Rattle.ttp_world.specs.declared.script.Script.{Script};
ghost use Rattle.ttp_world.specs.Legal.{IsLegalRun};
ghost use Rattle.ttp_world.specs.Medl.{IsValid};
ghost use Rattle.ttp_world.specs.Script.{IsValidScript};
ghost use Rattle.ttp_world.specs.Trace.{trace_lines};
ghost use Rattle.ttp_world.specs.World.{Numbers};
ghost use Rattle.whole_trace.specs.Whole.{whole_in};
ghost use Rattle.lab_laws.specs.TakenTrace.{IsOfBytes, trace_of_run};

/// The text of a run is taken for a trace, and for the one of the run, which has the script's slots.
pub fn run_is_taken()
    ensures trace { (list : Medl) (script : Script) (numbers : Numbers) → IsValid list → IsValidScript list script
        → All IsOfBytes script.events → IsLegalRun list script numbers
        → whole_in (concat (trace_lines list script numbers)) ≡ Ok (trace_of_run list script numbers) }
    ensures slots { (list : Medl) (script : Script) (numbers : Numbers) → IsLegalRun list script numbers
        → length (trace_of_run list script numbers).slots ≡ script.slots }
{}
