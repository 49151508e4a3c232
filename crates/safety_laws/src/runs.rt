//! The laws of planned runs. The functions do nothing; their contracts are the laws.
ghost use Rattle.std.specs.Prelude.{◌≡◌, ℕ, suc, ◌+◌, ◌-◌, ◌<◌, ◌≤◌, [], length};
ghost use Rattle.ttp_world.specs.declared.keep.Keep.TheVariants as keep;
ghost use Rattle.ttp_world.specs.declared.medl.Medl.{Medl};
ghost use Rattle.ttp_world.specs.declared.script.Script.{Script};
ghost use Rattle.ttp_world.specs.Hypothesis.{ClusterStart, keeps};
ghost use Rattle.ttp_world.specs.Legal.{IsLegal};
ghost use Rattle.ttp_world.specs.Medl.{IsValid};
ghost use Rattle.ttp_world.specs.Script.{IsValidScript};
ghost use Rattle.ttp_world.specs.World.{Numbers, world};
ghost use Rattle.safety_laws.specs.Kept.{FollowsWithin};
ghost use Rattle.safety_laws.specs.Plan.{FaultPlan, fault_plan_of};
ghost use Rattle.safety_laws.specs.PlannedRun.{IsBegunAlone, StandsWithFaults};
ghost use Rattle.safety_laws.specs.ByPlan.{IsByPlan};

/// After each slot of a run from the start on, each node is what its fate by the plan says, and in each
/// slot since the start the nodes noted by the plan. What they noted keeps the clocks of the next slot
/// together, and that keeps their members.
pub fn by_plan()
    ensures { (list : Medl) (script : Script) (start : ClusterStart) (plan : FaultPlan) (turn : ℕ) (numbers : Numbers)
        → IsBegunAlone list script start plan → FollowsWithin list script start plan
        → length numbers ≡ suc (start.slot + turn) → start.slot + turn < script.slots → IsLegal list script numbers
        → IsByPlan list script start plan turn (world list script numbers) }
{}

/// A script that keeps the single-fault hypothesis is such a run, by the plan of the hypothesis's faulty
/// nodes: so [`crate::steps::safe_by_fate`] says who has left when, and which members a correct node
/// holds.
pub fn stands()
    ensures { (list : Medl) (script : Script) (slot : ℕ) (numbers : Numbers) → IsValid list → IsValidScript list script
        → keeps list script ≡ keep.Yes slot → IsLegal list script numbers
        → slot < length numbers → length numbers ≤ script.slots
        → (start : ClusterStart) × ((start.slot ≡ slot)
        × StandsWithFaults list script start (fault_plan_of list script start) (length numbers - suc slot)
        (world list script numbers)) }
{}
