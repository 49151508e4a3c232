//! A law of plants. The function does nothing; its contract is the law.
ghost use Rattle.ttp_world.specs.declared.script.Script.{Script};
ghost use Rattle.ttp_world.specs.Diary.{History};
ghost use Rattle.controller.specs.Agreement.{AgreeBelow};
ghost use Rattle.controller.specs.PlantStands.{PlantStandsFor};
ghost use Rattle.controller.specs.PlantView.{PlantView};

/// What a plant stands for under one script it stands for under each other one that says the same of all
/// slots so far. So it may go on by such a script, and what its next slot makes of the history is the world's
/// under that script.
pub fn plants_of_scripts_that_agree()
    ensures { (plant : PlantView) (one other : Script) (history : History) → AgreeBelow one other plant.slot
        → PlantStandsFor plant one history → PlantStandsFor plant other history }
{}
