//! A plan that was worked out by hand. The function has no code: its contract is the case, and the check
//! computes it.
ghost use Rattle.std.specs.Prelude.{◌≡◌, Some};
ghost use Rattle.ttp_world.specs.declared.keep.Back.TheVariants as back;
ghost use Rattle.ttp_world.specs.Hypothesis.{start_of};
ghost use Rattle.ttp_world.specs.Returning.{returns};
ghost use Rattle.safety_laws.specs.WorkedPlan.{seven_nodes, first_start, one_return};
ghost use Rattle.safety_laws.specs.BackPlan.{entry_slot, back_plan_of};
ghost use Rattle.safety_laws.specs.WorkedCase.{one_armed};

/// Node 2 of seven is lost in slot 30, the sixteenth from the start on, and armed two rounds later. Slot
/// 44 is its own, in which nobody else sends; so it enters in slot 45, by node 3's frame.
fn one_comes_back()
    ensures owed { returns seven_nodes one_armed ≡ back.Yes 14 }
    ensures start { start_of seven_nodes one_armed ≡ Some first_start }
    ensures entry { entry_slot seven_nodes one_armed first_start 2 44 ≡ 45 }
    ensures plan { back_plan_of seven_nodes one_armed first_start ≡ one_return }
{}
