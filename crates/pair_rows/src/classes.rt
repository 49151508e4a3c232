//! Classes and sums of harms and pairs that are given.

ghost use Rattle.std.specs.Prelude.{◌≡◌, [], ◌∷◌, map, true, false, codes};
ghost use Rattle.fault_pairs.specs.declared.pair.PairClass.TheVariants as class;
ghost use Rattle.fault_pairs.specs.Classes.{third_nodes};
ghost use Rattle.fault_pairs.specs.PairText.{newly_left, apart_line, sum_lines, lines_of_told};
ghost use Rattle.fault_pairs.specs.Sums.{pair_counts, distances};
ghost use Rattle.pair_rows.specs.Clusters.{quiet_run};
ghost use Rattle.pair_rows.specs.Given.{left_by, split_by, torn_by, dead_by, class_of_0_and_2, some_pairs};

/// Each class, where nothing worse applies.
pub fn each_class()
    ensures sum { class_of_0_and_2 (left_by (0 ∷ 2 ∷ [])) (left_by (0 ∷ [])) (left_by (2 ∷ [])) ≡ class.Sum }
    ensures less { class_of_0_and_2 (left_by (2 ∷ [])) (left_by (0 ∷ [])) (left_by (2 ∷ [])) ≡ class.Less }
    ensures own { class_of_0_and_2 (left_by (2 ∷ [])) (left_by []) (left_by []) ≡ class.Own }
    ensures divided { class_of_0_and_2 (split_by (0 ∷ 2 ∷ [])) (left_by (0 ∷ [])) (left_by (2 ∷ [])) ≡ class.Divided }
    ensures third { class_of_0_and_2 (left_by (1 ∷ [])) (left_by []) (left_by []) ≡ class.Third }
    ensures torn { class_of_0_and_2 (torn_by []) (split_by []) (split_by []) ≡ class.Torn }
    ensures dead { class_of_0_and_2 (dead_by []) (torn_by []) (torn_by []) ≡ class.Dead }
{}

/// Where more than one applies it is the worst.
pub fn the_worst_class()
    ensures own { class_of_0_and_2 (left_by (2 ∷ [])) (left_by (0 ∷ [])) (left_by []) ≡ class.Own }
    ensures divided { class_of_0_and_2 (split_by (2 ∷ [])) (left_by (0 ∷ [])) (left_by []) ≡ class.Divided }
    ensures third { class_of_0_and_2 (split_by (1 ∷ 2 ∷ [])) (left_by []) (left_by []) ≡ class.Third }
    ensures torn { class_of_0_and_2 (torn_by (1 ∷ 2 ∷ [])) (left_by []) (left_by []) ≡ class.Torn }
    ensures dead { class_of_0_and_2 (dead_by (1 ∷ 2 ∷ [])) (left_by []) (left_by []) ≡ class.Dead }
{}

/// What one of the faults costs alone is no more: a cluster that dies, is torn or divided by one, and a node that leaves by one.
pub fn what_one_costs_alone()
    ensures dead { class_of_0_and_2 (dead_by (0 ∷ [])) (dead_by (0 ∷ [])) (left_by []) ≡ class.Sum }
    ensures torn { class_of_0_and_2 (torn_by (0 ∷ [])) (left_by (0 ∷ [])) (torn_by []) ≡ class.Sum }
    ensures divided { class_of_0_and_2 (split_by []) (split_by []) (left_by []) ≡ class.Sum }
    ensures third { class_of_0_and_2 (left_by (1 ∷ [])) (left_by []) (left_by (1 ∷ [])) ≡ class.Sum }
    ensures own { class_of_0_and_2 (left_by (0 ∷ [])) (left_by []) (left_by (0 ∷ [])) ≡ class.Sum }
    ensures spared { class_of_0_and_2 (dead_by []) (dead_by (1 ∷ [])) (left_by []) ≡ class.Less }
{}

/// Third nodes have neither fault, and leave with neither alone. What left in the script's own run counts for no fault.
pub fn who_is_a_third_node()
    ensures third { third_nodes 0 2 (left_by (0 ∷ 1 ∷ 2 ∷ 3 ∷ 4 ∷ [])) (left_by (0 ∷ 3 ∷ [])) (left_by []) ≡ 1 ∷ 4 ∷ [] }
    ensures alone { newly_left (left_by (3 ∷ [])) (left_by (1 ∷ 3 ∷ 4 ∷ [])) ≡ 2 }
{}

/// Seven pairs by class, by distance and by what the test says. No pair is two or three slots apart, or more than four.
pub fn sums_of_seven()
    ensures all { pair_counts some_pairs
        ≡ record { pairs = 7; sum = 2; less = 1; own = 1; divided = 0; third = 1; torn = 1; dead = 1 } }
    ensures apart { distances (quiet_run 4 26) 999999999 some_pairs ≡ 0 ∷ 1 ∷ 4 ∷ [] }
    ensures lines { sum_lines (quiet_run 4 26) 9 some_pairs
        ≡ codes "apart 0 pairs 2 sum 0 less 0 own 1 divided 0 third 1 torn 0 dead 0\n"
        ∷ codes "apart 1 pairs 2 sum 1 less 0 own 0 divided 0 third 0 torn 0 dead 1\n"
        ∷ codes "apart 4 pairs 3 sum 1 less 1 own 0 divided 0 third 0 torn 1 dead 0\n"
        ∷ codes "kept pairs 3 sum 1 less 1 own 1 divided 0 third 0 torn 0 dead 0\n"
        ∷ codes "broken pairs 4 sum 1 less 0 own 0 divided 0 third 1 torn 1 dead 1\n" ∷ [] }
    ensures told { lines_of_told some_pairs ≡ codes "..." ∷ codes "..." ∷ codes "..." ∷ [] }
{}
