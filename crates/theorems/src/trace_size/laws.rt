//! Laws of the crate. The functions do nothing; their contracts are the laws.
ghost use Rattle.std.specs.Prelude.{◌≤◌, length};
ghost use Rattle.std.specs.List.{concat};
ghost use Rattle.ttp_world.specs.declared.medl.Medl.{Medl};
ghost use Rattle.ttp_world.specs.declared.script.Script.{Script};
ghost use Rattle.ttp_world.specs.Legal.{IsLegalRun};
ghost use Rattle.ttp_world.specs.Medl.{IsValid};
ghost use Rattle.ttp_world.specs.Script.{IsValidScript};
ghost use Rattle.ttp_world.specs.Trace.{trace_lines};
ghost use Rattle.ttp_world.specs.World.{Numbers};
ghost use Rattle.theorems.specs.declared.trace_size.limit.TheConstants.{TRACE_LIMIT};

/// No trace is longer than the file of a trace may be.
pub fn within_limit()
    ensures { (list : Medl) (script : Script) (numbers : Numbers) → IsValid list → IsValidScript list script
        → IsLegalRun list script numbers → length (concat (trace_lines list script numbers)) ≤ TRACE_LIMIT }
{}
