//! The five tests of safety with armed nodes.
ghost use Rattle.std.specs.Prelude.{◌≡◌, [], ◌∷◌, true, false, None, Some};
ghost use Rattle.ttp_world.specs.declared.node.Entry.TheVariants as entry;
ghost use Rattle.ttp_world.specs.BackSafety.{IsBackSafe, back_correct_nodes, has_sent_in_stint, back_senders};
ghost use Rattle.ttp_world.specs.BackSafety.{newest_arm, has_left_since_arm, back_members_agree};
ghost use Rattle.ttp_world.specs.BackSafety.{none_has_left_since_arm, back_faulty_are_gone, armed_have_returned};
ghost use Rattle.world_rows.specs.Cases.{bare_run, after_slot};
ghost use Rattle.world_rows.specs.Rejoining.{window_of_two, rearmed_in, never_armed, sent_after_a_retry};
ghost use Rattle.world_rows.specs.Rejoining.{left_in_a_round, joined_again};

/// Node 2 became faulty in slot 26 and is armed in slot 40. After slot 37 it has been faulty for two
/// rounds, and has left. Slot 63 is the last of the four rounds from its arm line on: it is active, and
/// the members of all are one; it is not one of the correct nodes yet. After slot 64 it is, and has sent
/// in its stint. Asked after slot 63 as if it were not armed: it is faulty still, and active.
pub fn safe_with_an_armed_node()
    ensures { let run = bare_run window_of_two (rearmed_in 40) 65 in
        let gone = after_slot run 37 in
        let returned = after_slot run 63 in
        (IsBackSafe window_of_two (rearmed_in 40) gone)
        × (IsBackSafe window_of_two (rearmed_in 40) returned)
        × (back_correct_nodes window_of_two (rearmed_in 40) returned ≡ 0 ∷ 1 ∷ 3 ∷ 4 ∷ 5 ∷ [])
        × (back_faulty_are_gone window_of_two never_armed returned ≡ false)
        × (IsBackSafe window_of_two (rearmed_in 40) run)
        × (back_senders window_of_two (rearmed_in 40) run ≡ 0 ∷ 1 ∷ 2 ∷ 3 ∷ 4 ∷ 5 ∷ []) }
{}

/// A run in which node 2 is not armed and stays away, asked as if it were armed in slot 40: after slot 63
/// it has not returned; after slot 64, when it would be correct, it holds other members than the rest,
/// and has left.
pub fn run_that_fails_the_tests()
    ensures { let run = bare_run window_of_two never_armed 65 in
        (armed_have_returned window_of_two (rearmed_in 40) (after_slot run 63) ≡ false)
        × (back_members_agree window_of_two (rearmed_in 40) run ≡ false)
        × (none_has_left_since_arm window_of_two (rearmed_in 40) run ≡ false) }
{}

/// A node left in slot 28 and was armed in slot 40: up to slot 39 it was never armed and has left, from
/// slot 40 on it has not. One that joined again has not sent in its stint until it does.
pub fn since_an_arm_line()
    ensures never { newest_arm (rearmed_in 40) 2 40 ≡ None }
    ensures newest { newest_arm (rearmed_in 40) 2 45 ≡ Some 40 }
    ensures has_left { let run = bare_run window_of_two (rearmed_in 40) 45 in
        (has_left_since_arm (rearmed_in 40) (after_slot run 39) 2 ≡ true)
        × (has_left_since_arm (rearmed_in 40) run 2 ≡ false) }
    ensures sent { has_sent_in_stint sent_after_a_retry ≡ true }
    ensures left { has_sent_in_stint left_in_a_round ≡ false }
    ensures joined { has_sent_in_stint joined_again ≡ false }
    ensures sent_again { has_sent_in_stint (entry.Sent None ∷ joined_again) ≡ true }
{}
