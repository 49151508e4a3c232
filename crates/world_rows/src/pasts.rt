//! What the rules of conduct read of a node's past, as whole records.
ghost use Rattle.std.specs.Prelude.{◌≡◌, ◌∷◌, [], pos, true};
ghost use Rattle.ttp_world.specs.declared.node.Entry.TheVariants as entry;
ghost use Rattle.ttp_world.specs.declared.node.Verdict.TheVariants as verdict;
ghost use Rattle.ttp_world.specs.After.{past_after};
ghost use Rattle.ttp_world.specs.Past.{no_past};
ghost use Rattle.world_rows.specs.Cases.{bare_list};
ghost use Rattle.world_rows.specs.Pasts.{past_of_six, slot_with, silent, busy, judged_late, off_past};
ghost use Rattle.world_rows.specs.Pasts.{listening_diary, listening_surroundings, listening_past, started_diary};
ghost use Rattle.world_rows.specs.Pasts.{started_past, retried_diary, retried_past, active_diary};
ghost use Rattle.world_rows.specs.Pasts.{surroundings_of_active, active_past, corrected_past, next_round_past};
ghost use Rattle.world_rows.specs.Pasts.{left_diary, surroundings_of_left, left_past, armed_past};

/// A node before its first slot, one that is off, and one that listens.
pub fn pasts_of_nodes_that_wait()
    ensures no_slot { no_past (bare_list 6) 3 ≡ off_past }
    ensures off { past_of_six 3 (entry.Off ∷ entry.Off ∷ []) (slot_with (pos 7) true ∷ silent ∷ []) ≡ off_past }
    ensures listening { past_of_six 3 listening_diary listening_surroundings ≡ listening_past }
{}

/// A node that started, and that withdrew its cold start.
pub fn pasts_of_a_starter()
    ensures started { past_of_six 1 started_diary (silent ∷ silent ∷ silent ∷ []) ≡ started_past }
    ensures retried { past_of_six 1 retried_diary (silent ∷ silent ∷ silent ∷ silent ∷ []) ≡ retried_past }
{}

/// An active node in the last slots of a round and in the first of the next. Its notes are those of
/// the round, and its counts those since its own frame.
pub fn pasts_of_an_active_node()
    ensures in_a_round { past_of_six 1 active_diary surroundings_of_active ≡ active_past }
    ensures last_slot { past_of_six 1 (entry.Judged 5 verdict.Null (pos 0) ∷ active_diary)
        (busy ∷ surroundings_of_active) ≡ corrected_past }
    ensures next_round { past_of_six 1 (judged_late 0 (pos 7) ∷ entry.Judged 5 verdict.Null (pos 0) ∷ active_diary)
        (busy ∷ busy ∷ surroundings_of_active) ≡ next_round_past }
{}

/// A node that left, and one that was armed since and listens.
pub fn pasts_of_a_node_that_left()
    ensures left { past_of_six 1 left_diary surroundings_of_left ≡ left_past }
    ensures armed { past_of_six 1 (entry.Waited ∷ left_diary) (silent ∷ surroundings_of_left) ≡ armed_past }
{}

/// What one more entry makes of such a record.
pub fn pasts_after_one_more_entry()
    ensures off { past_after (bare_list 6) 3 off_past entry.Off (slot_with (pos 7) true) ≡ off_past }
    ensures retried { past_after (bare_list 6) 1 started_past entry.Retried silent ≡ retried_past }
    ensures last_slot { past_after (bare_list 6) 1 active_past (entry.Judged 5 verdict.Null (pos 0)) busy
        ≡ corrected_past }
    ensures next_round { past_after (bare_list 6) 1 corrected_past (judged_late 0 (pos 7)) busy ≡ next_round_past }
    ensures armed { past_after (bare_list 6) 1 left_past entry.Waited silent ≡ armed_past }
{}
