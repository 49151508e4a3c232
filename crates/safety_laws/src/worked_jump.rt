//! A run that was worked out by hand. The function has no code: its contract is the case, and the
//! check computes it.
ghost use Rattle.std.specs.Prelude.{◌≡◌, pos, negsuc};
ghost use Rattle.ttp_world.specs.declared.keep.Keep.TheVariants as keep;
ghost use Rattle.ttp_world.specs.Hypothesis.{keeps, needed};
ghost use Rattle.ttp_world.specs.Medl.{IsValid};
ghost use Rattle.ttp_world.specs.World.{world};
ghost use Rattle.precision.specs.Together.{measured};
ghost use Rattle.safety_laws.specs.Kept.{FollowsWithin};
ghost use Rattle.safety_laws.specs.Jumps.{HasJumped};
ghost use Rattle.safety_laws.specs.NotedByPlan.{NotedByPlan};
ghost use Rattle.safety_laws.specs.WorkedJump.{five_clocks, late_jump, five_clocks_start, one_jump, no_numbers_in_jump};
ghost use Rattle.safety_laws.specs.WorkedJump.{run_of_late_jump};

/// Five nodes that start in slot 10. Two clocks drift apart, and node 3's jumps by 100 microticks in
/// slot 24, where a round ends: so what it noted before the jump corrects it once. All that the laws
/// ask of the run up to then is met. In slot 25 nodes 0 and 1 measure each other within the 21
/// microticks that are needed, and node 3 is far outside the window of 25, as they are for it.
fn a_clock_jumps()
    ensures keeps { keeps five_clocks late_jump ≡ keep.Yes 10 }
    ensures valid { IsValid five_clocks }
    ensures follows { FollowsWithin five_clocks late_jump five_clocks_start one_jump }
    ensures world { world five_clocks late_jump no_numbers_in_jump ≡ run_of_late_jump }
    ensures noted { NotedByPlan five_clocks late_jump five_clocks_start one_jump 14 run_of_late_jump }
    ensures jumped { HasJumped one_jump 15 3 14 }
    ensures sound { measured five_clocks late_jump run_of_late_jump 1 0 ≡ pos 5 }
    ensures frame { measured five_clocks late_jump run_of_late_jump 0 3 ≡ pos 98 }
    ensures others { measured five_clocks late_jump run_of_late_jump 3 0 ≡ negsuc 97 }
    ensures bound { needed five_clocks ≡ pos 21 }
{}
