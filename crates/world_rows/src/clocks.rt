//! Clocks: averages, and a cluster whose clocks drift and are corrected.
ghost use Rattle.std.specs.Prelude.{◌≡◌, [], ◌∷◌, pos, negsuc};
ghost use Rattle.ttp_world.specs.declared.keep.Keep.TheVariants as keep;
ghost use Rattle.ttp_world.specs.Clock.{fta};
ghost use Rattle.ttp_world.specs.Hypothesis.{keeps};
ghost use Rattle.world_rows.specs.Cases.{drifting_list, clocks_after, notes_at};
ghost use Rattle.world_rows.specs.Scripts.{drifting_run, drifting_with_a_loss};

/// Averages of notes, the newest first: of the last four the smallest and the largest are dropped,
/// the middle two are halved towards zero, and three are too few.
pub fn averages()
    ensures four { fta (pos 20 ∷ pos 1 ∷ pos 4 ∷ negsuc 2 ∷ []) ≡ pos 2 }
    ensures negative { fta (negsuc 19 ∷ negsuc 0 ∷ negsuc 3 ∷ negsuc 2 ∷ []) ≡ negsuc 2 }
    ensures three { fta (pos 1 ∷ pos 4 ∷ negsuc 2 ∷ []) ≡ pos 0 }
    ensures last_four { fta (pos 20 ∷ pos 1 ∷ pos 4 ∷ negsuc 2 ∷ pos 100 ∷ []) ≡ pos 2 }
{}

/// Node 0's clock gains a microtick a slot. The others take it over as they join; at the end of each
/// round node 0 notes how far they are behind and goes back by the average.
pub fn clocks_that_drift()
    ensures at_the_start { clocks_after (drifting_list (pos 64)) drifting_run 8 ≡ pos 9 ∷ pos 8 ∷ pos 8 ∷ pos 8 ∷ [] }
    ensures first_notes { notes_at (drifting_list (pos 64)) drifting_run 11 0
        ≡ negsuc 2 ∷ negsuc 1 ∷ negsuc 0 ∷ pos 0 ∷ [] }
    ensures first_correction { clocks_after
        (drifting_list (pos 64)) drifting_run 11 ≡ pos 11 ∷ pos 8 ∷ pos 8 ∷ pos 8 ∷ [] }
    ensures second_notes { notes_at (drifting_list (pos 64)) drifting_run 15 0
        ≡ negsuc 5 ∷ negsuc 4 ∷ negsuc 3 ∷ pos 0 ∷ [] }
    ensures second_correction { clocks_after (drifting_list (pos 64)) drifting_run 15
        ≡ pos 11 ∷ pos 8 ∷ pos 8 ∷ pos 8 ∷ [] }
    ensures keeps { keeps (drifting_list (pos 64)) drifting_run ≡ keep.Yes 8 }
    ensures narrow_window { keeps (drifting_list (pos 16)) drifting_run ≡ keep.No 2 0 }
{}

/// A round in which one frame is lost leaves three notes, and no correction.
pub fn three_notes_in_a_round()
    ensures notes { notes_at (drifting_list (pos 64)) drifting_with_a_loss 15 0 ≡ negsuc 5 ∷ negsuc 3 ∷ pos 0 ∷ [] }
    ensures no_correction { clocks_after (drifting_list (pos 64)) drifting_with_a_loss 15
        ≡ pos 15 ∷ pos 8 ∷ pos 8 ∷ pos 8 ∷ [] }
{}
