//! The laws of margins. The functions do nothing; their contracts are the laws.
ghost use Rattle.std.specs.Prelude.{◌≡◌, ℕ, suc, ◌*◌, ◌++◌, List, flat_map, length, map};
ghost use Rattle.clock_margins.specs.declared.margin.Margin.{Margin};
ghost use Rattle.clock_margins.specs.declared.margin.Sweep.{Sweep};
ghost use Rattle.clock_margins.specs.MarginText.{tolds_of};
ghost use Rattle.clock_margins.specs.Ranges.{ranges_of};
ghost use Rattle.clock_margins.specs.Sums.{counts_by_cost, count_of_values, total_of};
ghost use Rattle.margin_laws.specs.Ranges.{told_in_range, AreApart};
ghost use Rattle.margin_laws.specs.Sums.{totals_together};

use ttp_world::{Medl, Script};

/// Told value by value, the ranges of a sweep are what is told of each of its values, in ascending order: each value lies in
/// one range, and what that says is read of the run of this value (`once`). Two ranges that follow each other differ in what
/// they say (`apart`).
///
/// It does nothing, and takes no memory.
pub fn each_value_is_in_one_range(list: &Medl, script: &Script)
    ensures once { (reach : ℕ) (sweep : Sweep)
        → flat_map told_in_range (ranges_of (tolds_of list.now script.now reach sweep)) ≡ tolds_of list.now script.now reach sweep }
    ensures apart { (reach : ℕ) (sweep : Sweep) → AreApart (ranges_of (tolds_of list.now script.now reach sweep)) }
{}

/// The values that cost nobody, the node itself and others are all values of a sweep, from the reach below 0 to that above it.
///
/// It does nothing, and takes no memory.
pub fn counts_add_up(list: &Medl, script: &Script)
    ensures { (reach : ℕ) (sweep : Sweep)
        → count_of_values (counts_by_cost sweep.node (tolds_of list.now script.now reach sweep)) ≡ suc (2 * reach) }
{}

/// What some sweeps and others come to is what all of them come to.
///
/// It does nothing, and takes no memory.
pub fn pieces_add_up()
    ensures { (some others : List Margin) → total_of (some ++ others) ≡ totals_together (total_of some) (total_of others) }
{}
