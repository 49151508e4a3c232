//! Laws of runs. The functions do nothing; their contracts are the laws over the definitions.
ghost use Rattle.std.specs.Prelude.{◌≡◌, true};
ghost use Rattle.std.specs.List.{concat};
ghost use Rattle.ttp_world.specs.declared.medl.Medl.{Medl};
ghost use Rattle.ttp_world.specs.declared.script.Script.{Script};
ghost use Rattle.ttp_world.specs.Legal.{IsLegalRun};
ghost use Rattle.ttp_world.specs.Medl.{IsValid};
ghost use Rattle.ttp_world.specs.Script.{IsValidScript};
ghost use Rattle.ttp_world.specs.Trace.{trace_lines};
ghost use Rattle.ttp_world.specs.World.{Numbers};
ghost use Rattle.trace_check.specs.Answer.{is_trace};
ghost use Rattle.ttp_top.specs.Scripts.Unhosted.{IsUnhosted};

/// For a script in which no host writes or reads a run has one list of legal numbers, and so one trace:
/// each frame with payload carries message 0.
pub fn one_run()
    ensures { (list : Medl) (script : Script) (numbers others : Numbers) → IsUnhosted script
        → IsLegalRun list script numbers → IsLegalRun list script others → numbers ≡ others }
{}

/// The text of a run is a trace for `verify` and `modes`: its own lines name the numbers that it was made with.
pub fn own_text()
    ensures { (list : Medl) (script : Script) (numbers : Numbers) → IsValid list → IsValidScript list script
        → IsLegalRun list script numbers → is_trace list script (concat (trace_lines list script numbers)) ≡ true }
{}
