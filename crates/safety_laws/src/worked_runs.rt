//! Runs that were worked out by hand. The functions have no code: their contracts are the cases, and
//! the check computes them. They show that what [`crate::safe`] asks can be met, and what it gives is
//! so while the fault lasts.
ghost use Rattle.std.specs.Prelude.{◌≡◌, true, false, [], ◌∷◌};
ghost use Rattle.ttp_world.specs.declared.keep.Keep.TheVariants as keep;
ghost use Rattle.ttp_world.specs.declared.node.Ack.TheVariants as ack;
ghost use Rattle.ttp_world.specs.declared.node.Phase.TheVariants as phase;
ghost use Rattle.ttp_world.specs.Acknowledgement.{ack_of};
ghost use Rattle.ttp_world.specs.Diary.{newest_entry, diary_of, phase_of};
ghost use Rattle.ttp_world.specs.Hypothesis.{keeps};
ghost use Rattle.ttp_world.specs.Legal.{IsLegal};
ghost use Rattle.ttp_world.specs.Safety.{members_of_node, IsSafe};
ghost use Rattle.safety_laws.specs.SameFrames.{accepts};
ghost use Rattle.safety_laws.specs.WorkedRuns.{five_measured, silenced, deafened, deafened_at_once, deafened_on};
ghost use Rattle.safety_laws.specs.WorkedRuns.{clock_jumped, quiet_numbers, run_of};

/// The frame of node 2 in slot 22 is lost to all others. So after slot 23 it is no member. The frame of
/// node 3 in that slot is its second candidate, which makes it doubt node 3, and node 4's frame in slot
/// 24 says the same: node 2 has left.
fn a_lost_frame()
    ensures keeps { keeps five_measured silenced ≡ keep.Yes 10 }
    ensures legal { IsLegal five_measured silenced (quiet_numbers 24) }
    ensures members { members_of_node five_measured (run_of silenced 24) 0 ≡ 0 ∷ 1 ∷ 3 ∷ 4 ∷ [] }
    ensures sender { ack_of (diary_of (run_of silenced 24) 2) ≡ ack.Doubt 3 }
    ensures safe { IsSafe five_measured silenced (run_of silenced 24) }
    ensures left { phase_of (diary_of (run_of silenced 25) 2) ≡ phase.Left }
{}

/// Node 3 loses node 2's frame in slot 22, and sends in slot 23 without node 2 among its members. So
/// node 2 doubts it and holds it still, and the others hold node 2 alone of the two. None of them accepts
/// node 3's frame (`tentative`, `other`), and the next good frame settles the doubt (`settled`).
fn a_doubt()
    ensures keeps { keeps five_measured deafened ≡ keep.Yes 10 }
    ensures legal { IsLegal five_measured deafened (quiet_numbers 24) }
    ensures doubt { ack_of (diary_of (run_of deafened 24) 2) ≡ ack.Doubt 3 }
    ensures tentative { accepts 3 (newest_entry (diary_of (run_of deafened 24) 2)) ≡ false }
    ensures other { accepts 3 (newest_entry (diary_of (run_of deafened 24) 0)) ≡ false }
    ensures settled { accepts 4 (newest_entry (diary_of (run_of deafened 25) 2)) ≡ true }
    ensures doubting { members_of_node five_measured (run_of deafened 24) 2 ≡ 0 ∷ 1 ∷ 2 ∷ 3 ∷ 4 ∷ [] }
    ensures members { members_of_node five_measured (run_of deafened 24) 0 ≡ 0 ∷ 1 ∷ 2 ∷ 4 ∷ [] }
    ensures safe { IsSafe five_measured deafened (run_of deafened 24) }
{}

/// Node 2 loses node 3's frame in slot 23, the slot after its own. So it accepts nobody's frame, and none
/// answers its own: it leaves in its next slot, the last of the round since then.
fn an_early_leave()
    ensures keeps { keeps five_measured deafened_at_once ≡ keep.Yes 10 }
    ensures waits { ack_of (diary_of (run_of deafened_at_once 27) 2) ≡ ack.First }
    ensures left { phase_of (diary_of (run_of deafened_at_once 28) 2) ≡ phase.Left }
{}

/// Node 2 loses node 4's frame in slot 24 and hears nothing more until its own slot. It has accepted node
/// 3's frame and rejects none, so it sends in slot 27. That frame is not answered: it leaves in slot 32,
/// the last by which a node of five that became faulty in slot 24 may.
fn a_late_leave()
    ensures keeps { keeps five_measured deafened_on ≡ keep.Yes 10 }
    ensures stays { phase_of (diary_of (run_of deafened_on 32) 2) ≡ phase.Active }
    ensures left { phase_of (diary_of (run_of deafened_on 33) 2) ≡ phase.Left }
{}

/// Node 3's clock jumps in slot 22, and its frame in slot 23 comes outside the window. It has left after
/// slot 28.
fn a_jump()
    ensures keeps { keeps five_measured clock_jumped ≡ keep.Yes 10 }
    ensures legal { IsLegal five_measured clock_jumped (quiet_numbers 24) }
    ensures members { members_of_node five_measured (run_of clock_jumped 24) 0 ≡ 0 ∷ 1 ∷ 2 ∷ 4 ∷ [] }
    ensures safe { IsSafe five_measured clock_jumped (run_of clock_jumped 24) }
    ensures left { phase_of (diary_of (run_of clock_jumped 29) 3) ≡ phase.Left }
{}
