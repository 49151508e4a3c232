//! The laws of pairs. The functions do nothing, and take no memory; their contracts are the laws.
ghost use Rattle.std.specs.Prelude.{◌≡◌, ℕ, ◌+◌, ◌≤◌, ◌<◌, [], ◌∷◌, ◌++◌, List, map, length, true, None};
ghost use Rattle.ttp_world.specs.declared.script.Event.{Event};
ghost use Rattle.ttp_world.specs.declared.script.TheConstants.{EVENT_LIMIT};
ghost use Rattle.ttp_world.specs.Diary.{History};
ghost use Rattle.ttp_world.specs.Medl.{IsValid};
ghost use Rattle.ttp_world.specs.Script.{IsValidScript};
ghost use Rattle.campaign.specs.Lines.{own_line, summary};
ghost use Rattle.campaign.specs.Tried.{with_fault, faults_from};
ghost use Rattle.single_faults.specs.Tried.{MayStand};
ghost use Rattle.fault_pairs.specs.Pairs.{FirstFault, firsts_from};
ghost use Rattle.fault_pairs.specs.PairText.{pairs_head_line, sum_lines, pairs_lines, summary_of_both};
ghost use Rattle.fault_pairs.specs.Sums.{PairTold, pair_counts, told_apart, told_kept, told_broken, distances};
ghost use Rattle.pair_laws.specs.Added.{counts_of_both, sum_of_counts, classes_sum};
ghost use Rattle.pair_laws.specs.Ranges.{firsts_of_range, pairs_of_range, lines_of_range, counts_of_first};

use ttp_world::{Medl, Script};

/// In each line of counts the seven classes add up to the pairs.
pub fn classes_add_up()
    ensures { (tolds : List PairTold) → classes_sum (pair_counts tolds) ≡ (pair_counts tolds).pairs }
{}

/// The counts of all first faults of a range of slots (`firsts`), those of all distances that have a line (`apart`), and those
/// of the pairs whose test says yes and whose test says no (`tests`), add up to the counts of all its pairs.
pub fn sums_add_up(list: &Medl, script: &Script)
    ensures firsts { (first last within : ℕ)
        → sum_of_counts (map (counts_of_first list.now script.now within) (firsts_of_range list.now script.now first last))
        ≡ pair_counts (pairs_of_range list.now script.now first last within) }
    ensures apart { (first last within : ℕ)
        → sum_of_counts (map (λ d. pair_counts (told_apart d (pairs_of_range list.now script.now first last within)))
        (distances script.now within (pairs_of_range list.now script.now first last within)))
        ≡ pair_counts (pairs_of_range list.now script.now first last within) }
    ensures tests { (tolds : List PairTold)
        → counts_of_both (pair_counts (told_kept tolds)) (pair_counts (told_broken tolds)) ≡ pair_counts tolds }
{}

/// The lines of first faults and of their pairs stand behind the first two lines, in the order of the range, and are
/// followed by the sums (`text`). The lines and the pairs of two ranges, the second of which begins behind the first,
/// are those of both, one after the other (`lines`, `pairs`). Pairs of a distance, and of an answer of the test, are
/// picked range by range (`apart`, `kept`, `broken`), and counts add up (`counts`).
pub fn pieces_add_up(list: &Medl, script: &Script)
    ensures text { (first last within : ℕ) → pairs_lines list.now script.now first last within
        ≡ pairs_head_line list.now script.now first last within ∷ own_line list.now (summary list.now script.now)
        ∷ lines_of_range list.now script.now first last within
        ++ sum_lines script.now within (pairs_of_range list.now script.now first last within) }
    ensures lines { (first middle last within : ℕ) → first ≤ middle → middle ≤ last
        → lines_of_range list.now script.now first middle within ++ lines_of_range list.now script.now (middle + 1) last within
        ≡ lines_of_range list.now script.now first last within }
    ensures pairs { (first middle last within : ℕ) → first ≤ middle → middle ≤ last
        → pairs_of_range list.now script.now first middle within ++ pairs_of_range list.now script.now (middle + 1) last within
        ≡ pairs_of_range list.now script.now first last within }
    ensures apart { (some others : List PairTold) (d : ℕ)
        → told_apart d some ++ told_apart d others ≡ told_apart d (some ++ others) }
    ensures kept { (some others : List PairTold) → told_kept some ++ told_kept others ≡ told_kept (some ++ others) }
    ensures broken { (some others : List PairTold) → told_broken some ++ told_broken others ≡ told_broken (some ++ others) }
    ensures counts { (some others : List PairTold)
        → counts_of_both (pair_counts some) (pair_counts others) ≡ pair_counts (some ++ others) }
{}

/// The first faults of a range are the faults that a campaign tries there, in its order.
pub fn firsts_are_of_a_campaign(list: &Medl, script: &Script)
    ensures { (history : History) (first last : ℕ)
        → map (λ (one : FirstFault). one.fault) (firsts_from list.now script.now history first last)
        ≡ faults_from list.now script.now history first last }
{}

/// Where the test of a script with two faults says yes, no node that is correct by it has left in the run that the line
/// of the pair tells (`hurt`), and such nodes held one membership after each slot, whenever they were active and not in
/// doubt (`split`): of a range's pairs that say yes none is divided (`divided`). The script is to have room for two
/// events more.
pub fn yes_costs_nobody_else(list: &Medl, script: &Script)
    requires valid { IsValid list.now }
    requires script { IsValidScript list.now script.now }
    requires room { length script.now.events + 1 < EVENT_LIMIT }
    ensures hurt { (one two : Event) → MayStand list.now script.now one → MayStand list.now (with_fault script.now one) two
        → (summary_of_both list.now script.now one two).yes ≡ true
        → (summary_of_both list.now script.now one two).cost.hurt ≡ [] }
    ensures split { (one two : Event) → MayStand list.now script.now one → MayStand list.now (with_fault script.now one) two
        → (summary_of_both list.now script.now one two).yes ≡ true
        → (summary_of_both list.now script.now one two).cost.split ≡ None }
    ensures divided { (first last within : ℕ)
        → (pair_counts (told_kept (pairs_of_range list.now script.now first last within))).divided ≡ 0 }
{}
