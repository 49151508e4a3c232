//! Nodes that left and are armed to listen again.
ghost use Rattle.std.specs.Prelude.{◌≡◌, [], ◌∷◌, ◌++◌, pos, true, false, None, codes};
ghost use Rattle.ttp_world.specs.declared.keep.Keep.TheVariants as keep;
ghost use Rattle.ttp_world.specs.declared.node.Entry.TheVariants as entry;
ghost use Rattle.ttp_world.specs.declared.node.Act.TheVariants.{Off, Gone, Listen, Judge};
ghost use Rattle.ttp_world.specs.Act.{act};
ghost use Rattle.ttp_world.specs.Clock.{notes_of, correction_of};
ghost use Rattle.ttp_world.specs.Hypothesis.{keeps};
ghost use Rattle.ttp_world.specs.Past.{past_of, limit_of};
ghost use Rattle.world_rows.specs.Cases.{bare_list, bare_lines};
ghost use Rattle.world_rows.specs.Rejoining.{window_of_two, rearmed_in, armed_too_early, armed_twice, armed_listener};
ghost use Rattle.world_rows.specs.Rejoining.{armed_while_off, armed_after_a_retry, armed_on_a_silent_bus, entry_judged};
ghost use Rattle.world_rows.specs.Rejoining.{entry_joined, sent_after_a_retry, left_after_a_retry, left_in_a_round};
ghost use Rattle.world_rows.specs.Rejoining.{joined_again, act_after};
ghost use Rattle.world_rows.specs.Scripts.{two_starters_of_five};

/// Node 2 leaves in slot 28, is armed in slot 40 and joins in that very slot. It sends in its next
/// slot, and is a member again.
pub fn node_that_rejoins()
    ensures lines { bare_lines window_of_two (rearmed_in 40) 45 ((28, 2) ∷ (39, 2) ∷ (40, 2) ∷ (44, 2) ∷ (44, 3) ∷ [])
        ≡ codes "slot 28 node 2 denied peer 4 msg - mem 0000 acc 0 rej 0 ack none clock 0\n"
        ++ codes "slot 39 node 2 gone peer - msg - mem 0000 acc 0 rej 0 ack none clock 0\n"
        ++ codes "slot 40 node 2 join peer 4 msg - mem 003b acc 1 rej 0 ack none clock 0\n"
        ++ codes "slot 44 node 2 send peer 2 msg - mem 003f acc 1 rej 0 ack first clock 0\n"
        ++ codes "slot 44 node 3 correct peer 2 msg - mem 003f acc 6 rej 0 ack none clock 0\n" }
    ensures keeps { keeps window_of_two (rearmed_in 40) ≡ keep.No 3 40 }
    ensures armed_earlier { keeps window_of_two (rearmed_in 37) ≡ keep.No 3 37 }
    ensures narrow_window { keeps (bare_list 6) (rearmed_in 40) ≡ keep.No 3 40 }
{}

/// A node is armed before it leaves, and in the slot in which it leaves: neither has an effect.
pub fn armed_before_it_left()
    ensures lines { bare_lines (bare_list 5) armed_too_early 26 ((23, 2) ∷ (24, 2) ∷ (25, 2) ∷ [])
        ≡ codes "slot 23 node 2 tentative peer 3 msg - mem 001f acc 1 rej 0 ack doubt:3 clock 0\n"
        ++ codes "slot 24 node 2 denied peer 4 msg - mem 0000 acc 0 rej 0 ack none clock 0\n"
        ++ codes "slot 25 node 2 gone peer - msg - mem 0000 acc 0 rej 0 ack none clock 0\n" }
{}

/// A node that is armed twice in one slot and again in the next joins in the first and sends in the
/// second, as if it had been armed once.
pub fn armed_more_than_once()
    ensures lines { bare_lines (bare_list 5) armed_twice 28 ((25, 2) ∷ (26, 2) ∷ (27, 2) ∷ (27, 1) ∷ [])
        ≡ codes "slot 25 node 2 gone peer - msg - mem 0000 acc 0 rej 0 ack none clock 0\n"
        ++ codes "slot 26 node 2 join peer 1 msg - mem 001b acc 1 rej 0 ack none clock 0\n"
        ++ codes "slot 27 node 2 send peer 2 msg - mem 001f acc 1 rej 0 ack first clock 0\n"
        ++ codes "slot 27 node 1 correct peer 2 msg - mem 001f acc 2 rej 0 ack none clock 0\n" }
{}

/// A node that listens is armed: its silent slots count on, and it starts when it would have. A node
/// that is off is armed: it stays off.
pub fn armed_while_it_listens_or_is_off()
    ensures listening { bare_lines (bare_list 5) armed_listener 11 ((9, 0) ∷ (10, 0) ∷ [])
        ≡ codes "slot 9 node 0 wait peer - msg - mem 0000 acc 0 rej 0 ack none clock 0\n"
        ++ codes "slot 10 node 0 start peer 0 msg - mem 0001 acc 1 rej 0 ack first clock 0\n" }
    ensures off { bare_lines (bare_list 5) armed_while_off 9 ((3, 4) ∷ (7, 4) ∷ (8, 4) ∷ [])
        ≡ codes "slot 3 node 4 off peer - msg - mem 0000 acc 0 rej 0 ack none clock 0\n"
        ++ codes "slot 7 node 4 off peer - msg - mem 0000 acc 0 rej 0 ack none clock 0\n"
        ++ codes "slot 8 node 4 wait peer - msg - mem 0000 acc 0 rej 0 ack none clock 0\n" }
{}

/// A starter that withdrew its cold start in slot 16 and is armed in slot 18 still waits for five
/// silent slots, and starts in slot 22.
pub fn armed_after_its_retry()
    ensures lines { bare_lines two_starters_of_five armed_after_a_retry 23 ((16, 0) ∷ (18, 0) ∷ (21, 0) ∷ (22, 0) ∷ [])
        ≡ codes "slot 16 node 0 retry peer - msg - mem 0000 acc 0 rej 0 ack none clock 0\n"
        ++ codes "slot 18 node 0 wait peer - msg - mem 0000 acc 0 rej 0 ack none clock 0\n"
        ++ codes "slot 21 node 0 wait peer - msg - mem 0000 acc 0 rej 0 ack none clock 0\n"
        ++ codes "slot 22 node 0 start peer 0 msg - mem 0001 acc 1 rej 0 ack first clock 0\n" }
{}

/// A starter that left in slot 16 is armed in slot 18 on a bus that is silent since slot 17. The slot
/// of the arm line is its first silent one and slot 25 its eighth, so it starts in slot 26.
pub fn starter_armed_on_a_silent_bus()
    ensures lines { bare_lines (bare_list 4) armed_on_a_silent_bus 27
        ((16, 0) ∷ (17, 1) ∷ (17, 0) ∷ (18, 0) ∷ (25, 0) ∷ (26, 0) ∷ (26, 1) ∷ [])
        ≡ codes "slot 16 node 0 unacknowledged peer 0 msg - mem 0000 acc 0 rej 0 ack none clock 0\n"
        ++ codes "slot 17 node 1 unacknowledged peer 1 msg - mem 0000 acc 0 rej 0 ack none clock 0\n"
        ++ codes "slot 17 node 0 gone peer - msg - mem 0000 acc 0 rej 0 ack none clock 0\n"
        ++ codes "slot 18 node 0 wait peer - msg - mem 0000 acc 0 rej 0 ack none clock 0\n"
        ++ codes "slot 25 node 0 wait peer - msg - mem 0000 acc 0 rej 0 ack none clock 0\n"
        ++ codes "slot 26 node 0 start peer 0 msg - mem 0001 acc 1 rej 0 ack first clock 0\n"
        ++ codes "slot 26 node 1 gone peer - msg - mem 0000 acc 0 rej 0 ack none clock 0\n" }
{}

/// What a node does that is armed, or not: only one that has left listens again.
pub fn acts_of_armed_nodes()
    ensures just_left { act_after left_in_a_round true ≡ Listen }
    ensures not_armed { act_after left_in_a_round false ≡ Gone }
    ensures gone { act_after (entry.Gone ∷ left_in_a_round) true ≡ Listen }
    ensures stays_gone { act_after (entry.Gone ∷ left_in_a_round) false ≡ Gone }
    ensures active { act_after joined_again true ≡ Judge }
    ensures listening { act_after (entry.Waited ∷ []) true ≡ Listen }
    ensures off { act (bare_list 6) 2 false true (past_of (bare_list 6) 2 (entry.Off ∷ []) []) ≡ Off }
{}

/// How many silent slots node 2 of six waits for: 14, and eight after it withdrew a cold start, until
/// it leaves.
pub fn limits_of_a_starter()
    ensures at_first { limit_of (bare_list 6) 2 (entry.Waited ∷ entry.Waited ∷ []) ≡ 14 }
    ensures after_a_retry { limit_of (bare_list 6) 2 (entry.Retried ∷ entry.Started ∷ []) ≡ 8 }
    ensures joined_since { limit_of (bare_list 6) 2 sent_after_a_retry ≡ 8 }
    ensures left_since { limit_of (bare_list 6) 2 left_after_a_retry ≡ 14 }
    ensures gone_since { limit_of (bare_list 6) 2 (entry.Gone ∷ entry.Gone ∷ left_after_a_retry) ≡ 14 }
    ensures listens_again { limit_of (bare_list 6) 2 (entry.Waited ∷ entry.Gone ∷ left_after_a_retry) ≡ 14 }
    ensures retried_again { limit_of (bare_list 6) 2
        (entry.Waited ∷ entry.Retried ∷ entry.Started ∷ entry.Waited ∷ entry.Gone ∷ left_after_a_retry) ≡ 8 }
{}

/// A node that joins again has no notes from before it left, though the round is the same: after its
/// join it has one, and at the end of the round three, too few for a correction.
pub fn notes_of_a_node_that_rejoins()
    ensures active { notes_of (bare_list 6) 2
        (entry_judged 5 ∷ entry_judged 4 ∷ entry_judged 3 ∷ entry.Sent None ∷ entry_judged 1 ∷ entry_judged 0
        ∷ entry_joined 5 5 ∷ [])
        ≡ pos 1 ∷ pos 1 ∷ pos 1 ∷ pos 0 ∷ pos 1 ∷ pos 1 ∷ [] }
    ensures left { notes_of (bare_list 6) 2 left_in_a_round ≡ [] }
    ensures joined { notes_of (bare_list 6) 2 joined_again ≡ pos 0 ∷ [] }
    ensures end_of_the_round { notes_of (bare_list 6) 2 (entry_judged 5 ∷ entry_judged 4 ∷ joined_again)
        ≡ pos 1 ∷ pos 1 ∷ pos 0 ∷ [] }
    ensures no_correction { correction_of (bare_list 6) 2 (entry_judged 5 ∷ entry_judged 4 ∷ joined_again) ≡ pos 0 }
{}
