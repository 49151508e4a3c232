//! The law of two averages at notes that were worked out by hand. The function has no code: its
//! contract is the case, and the check computes it.
ghost use Rattle.std.specs.Prelude.{◌≡◌, pos, negsuc, true, [], ◌∷◌};
ghost use Rattle.ttp_world.specs.Clock.{fta};
ghost use Rattle.node_parts.specs.Pull.{without, are_near, are_within, twice_off, pulled};

/// The bound is reached: of these notes the middle two are -1 and 0, and 0 and 1, and half of their sums
/// is 0 either way. The notes differ by -2 and the averages by 0, where 4 is allowed for twice that.
fn bound_is_reached()
    ensures alike { are_near (negsuc 1) (pos 0) (without 1 (negsuc 1 ∷ pos 7 ∷ negsuc 0 ∷ pos 0 ∷ []))
        (without 1 (pos 0 ∷ negsuc 6 ∷ pos 1 ∷ pos 2 ∷ [])) ≡ true }
    ensures narrow { are_within (pos 2) (without 1 (negsuc 1 ∷ pos 7 ∷ negsuc 0 ∷ pos 0 ∷ [])) ≡ true }
    ensures first { fta (negsuc 1 ∷ pos 7 ∷ negsuc 0 ∷ pos 0 ∷ []) ≡ pos 0 }
    ensures second { fta (pos 0 ∷ negsuc 6 ∷ pos 1 ∷ pos 2 ∷ []) ≡ pos 0 }
    ensures off { twice_off (negsuc 1 ∷ pos 7 ∷ negsuc 0 ∷ pos 0 ∷ []) (pos 0 ∷ negsuc 6 ∷ pos 1 ∷ pos 2 ∷ [])
        (negsuc 1) ≡ pos 4 }
    ensures bound { pulled (pos 0) (pos 2) ≡ pos 4 }
{}
