//! The laws of runs in which armed nodes return. The functions do nothing; their contracts are the laws.
ghost use Rattle.std.specs.Prelude.{◌≡◌, ℕ, suc, ◌-◌, ◌<◌, ◌≤◌, length};
ghost use Rattle.ttp_world.specs.declared.keep.Back.TheVariants as back;
ghost use Rattle.ttp_world.specs.declared.medl.Medl.{Medl};
ghost use Rattle.ttp_world.specs.declared.script.Script.{Script};
ghost use Rattle.ttp_world.specs.Hypothesis.{ClusterStart};
ghost use Rattle.ttp_world.specs.Legal.{IsLegal};
ghost use Rattle.ttp_world.specs.Medl.{IsValid};
ghost use Rattle.ttp_world.specs.Returning.{returns};
ghost use Rattle.ttp_world.specs.Script.{IsValidScript};
ghost use Rattle.ttp_world.specs.World.{Numbers, world};
ghost use Rattle.safety_laws.specs.BackPlan.{back_plan_of, ReturnsByPlan};
ghost use Rattle.safety_laws.specs.PlannedRun.{StandsBack};

/// A valid script whose test says that its armed nodes are guaranteed their places again follows a good plan
/// of faults from the start on, which is that of its faulty nodes and its arm lines.
pub fn returned_by_plan()
    ensures { (list : Medl) (script : Script) (slot : ℕ) → IsValid list → IsValidScript list script
        → returns list script ≡ back.Yes slot → ReturnsByPlan list script slot }
{}

/// A script whose test says that its armed nodes get their places again is a run by the plan of its faulty
/// nodes and its arm lines: so `safety_laws::steps::back_safe_by_fate` says what a correct node holds.
pub fn stands()
    ensures { (list : Medl) (script : Script) (slot : ℕ) (numbers : Numbers) → IsValid list → IsValidScript list script
        → returns list script ≡ back.Yes slot → IsLegal list script numbers
        → slot < length numbers → length numbers ≤ script.slots
        → (start : ClusterStart) × ((start.slot ≡ slot)
        × StandsBack list script start (back_plan_of list script start) (length numbers - suc slot)
        (world list script numbers)) }
{}
