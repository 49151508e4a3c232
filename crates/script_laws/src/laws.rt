//! The law of a script that is written and read again. The function does nothing; its contract is the law.
ghost use Rattle.std.specs.Prelude.{◌≡◌, ◌≤◌, ℕ, Ok};
ghost use Rattle.std.specs.List.{concat};
ghost use Rattle.ttp_world.specs.declared.medl.Medl.{Medl};
ghost use Rattle.ttp_world.specs.declared.script.TheConstants.{SLOT_LIMIT};
ghost use Rattle.ttp_world.specs.Medl.{IsValid};
ghost use Rattle.script_gen.specs.Generator.{generated};
ghost use Rattle.script_lines.specs.ScriptLines.{script_lines};
ghost use Rattle.script_text.specs.ScriptFile.{script_of};

/// The script that a number gives for a valid list is written as a text that is read as exactly this script.
pub fn read_back()
    ensures law { (list : Medl) (slots number : ℕ) → IsValid list → 1 ≤ slots → slots ≤ SLOT_LIMIT
        → script_of list (concat (script_lines (generated list slots number))) ≡ Ok (generated list slots number) }
{}
