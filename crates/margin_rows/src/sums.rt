//! Ranges of values, and what sums them up, of outcomes that are given.

ghost use Rattle.std.specs.Prelude.{◌≡◌, [], ◌∷◌, map, length, pos, negsuc, None, Some};
ghost use Rattle.clock_margins.specs.Ranges.{ranges_of};
ghost use Rattle.clock_margins.specs.Sums.{free_around, margin_of, total_of, least_to_greatest};
ghost use Rattle.clock_margins.specs.Sweeps.{values, values_from};
ghost use Rattle.margin_rows.specs.Given.{nobody_left, left_alone, hurting, ends_apart, told_of_outcomes, spans, all_around, only_above, of_none};
ghost use Rattle.margin_rows.specs.Given.{one_margin, other_margin, both_margins};

/// Nine values around 0. Those that leave two memberships are a range of their own, though they cost nobody either.
pub fn ranges_of_nine()
    ensures { spans (ranges_of (told_of_outcomes (hurting ∷ left_alone ∷ left_alone ∷ nobody_left ∷ nobody_left ∷ ends_apart ∷ left_alone ∷ hurting
        ∷ hurting ∷ []) (values 4)))
        ≡ (negsuc 3, negsuc 3) ∷ (negsuc 2, negsuc 1) ∷ (negsuc 0, pos 0) ∷ (pos 1, pos 1) ∷ (pos 2, pos 2) ∷ (pos 3, pos 4) ∷ [] }
{}

/// What sums them up: 0 and its neighbours up to those that cost somebody are free, and others are hurt from 3 on, and at -4.
pub fn a_sum_of_nine()
    ensures sum { margin_of 4 1 (told_of_outcomes (hurting ∷ left_alone ∷ left_alone ∷ nobody_left ∷ nobody_left ∷ ends_apart ∷ left_alone ∷ hurting
        ∷ hurting ∷ []) (values 4)) ≡ all_around }
    ensures above { margin_of 1 1 (told_of_outcomes (nobody_left ∷ hurting ∷ nobody_left ∷ []) (values 1)) ≡ only_above }
    ensures none { margin_of 1 1 (told_of_outcomes (nobody_left ∷ nobody_left ∷ nobody_left ∷ []) (values 1)) ≡ of_none }
{}

/// Where no value costs anybody all are free, and where 0 does none is.
pub fn what_is_free()
    ensures all { free_around 3 [] ≡ Some (record { least = negsuc 2; greatest = pos 3 }) }
    ensures none { free_around 3 (negsuc 1 ∷ pos 0 ∷ []) ≡ None }
    ensures near { free_around 9 (negsuc 7 ∷ negsuc 3 ∷ pos 6 ∷ pos 8 ∷ []) ≡ Some (record { least = negsuc 2; greatest = pos 5 }) }
{}

/// Sweeps: counts are added, what is free is what both have in common, and the least value is the nearer one to 0.
pub fn a_sum_of_sweeps()
    ensures sums { total_of (one_margin ∷ other_margin ∷ []) ≡ both_margins }
    ensures above { (total_of (other_margin ∷ [])).least ≡ Some 100 }
    ensures none { (total_of (of_none ∷ [])).least ≡ None }
{}
