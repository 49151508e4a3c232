//! What holds of stories. The function does nothing; its contract is the law.
ghost use Rattle.std.specs.Prelude.{ℕ, ◌∷◌, []};
ghost use Rattle.ttp_world.specs.declared.script.Script.{Script};
ghost use Rattle.causes.specs.RunSlots.{RunSlots, newest_spot};
ghost use Rattle.causes.specs.Story.{story};
ghost use Rattle.why_story.specs.Named.{AreNamed};

/// Each entry that a story tells is named by a newer one that it tells, but for the one that was asked for.
pub fn each_is_named()
    ensures { (script : Script) (run : RunSlots) (k : ℕ) → AreNamed (newest_spot k run ∷ []) (story script run k).told }
{}
