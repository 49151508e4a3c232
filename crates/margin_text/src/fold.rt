//! What sums up the values of a sweep, and some sweeps.
ghost use Rattle.std.specs.Prelude.{◌≡◌, ◌+◌, ◌*◌, ◌^◌, ◌<◌, ◌≤◌, [], ◌∷◌, ◌++◌, ℕ, pos, ◌+ℤ◌, ◌-ℤ◌, ◌<ℤ◌, ◌&&◌, ◌||◌, List, IfSome, if◌then◌else◌};
ghost use Rattle.ttp_base.specs.NodeSet.{most_nodes};
ghost use Rattle.clock_margins.specs.declared.margin.Margin.{Margin};
ghost use Rattle.clock_margins.specs.Outcomes.{ValueTold, is_nobody, is_itself, is_others};
ghost use Rattle.clock_margins.specs.Sums.{between_with, lies_below_0, lies_above_0, behind, before, common, nearer, depth_of, height_of, nearest, count_of_values};
ghost use Rattle.clock_margins.specs.Sums.{counts_with, free_around, costly, margin_of, no_values, total_of};
ghost use Rattle.margin_laws.specs.Behind.{noted_if, total_behind};
ghost use Rattle.margin_text.specs.Taken.{value_told, IsFoldOf, AreCountsUpTo, IsFewOf};

use crate::range::whom_it_costs;
use crate::told::Told;
use clock_margins::{Between, CostCounts, Costs, Margin, Total};

/// What sums up the values of a sweep so far.
#[derive(Clone, Copy)]
pub(crate) struct SweepFold {
    node: u8,
    counts: CostCounts,
    // Whether the value 0 costs somebody.
    zero_costs: bool,
    // The least and the greatest value below 0 that costs somebody, and those above 0.
    costs_below: Option<Between>,
    costs_above: Option<Between>,
    // The same of those that cost others, below 0 and from 0 on.
    below: Option<Between>,
    above: Option<Between>,
    most: u64,
}

fn between_with(value: i64, before: Option<Between>) -> Between
    ensures { result ≡ between_with value before }
{
    match before {
        None => Between {
            least: value,
            greatest: value,
        },
        Some(before) => Between {
            least: value.min(before.least),
            greatest: value.max(before.greatest),
        },
    }
}

// The least and the greatest of some values, with one more if it counts.
fn noted_if(counts: bool, value: i64, before: Option<Between>) -> Option<Between>
    ensures { result ≡ noted_if counts value before }
{
    if counts {
        Some(between_with(value, before))
    } else {
        before
    }
}

// No values.
fn no_values() -> CostCounts
    ensures none { result ≡ no_values }
    ensures few { AreCountsUpTo 0 result }
{
    CostCounts {
        nobody: 0,
        itself: 0,
        others: 0,
    }
}

// One value more, by whom it costs.
fn counted(counts: CostCounts, costs: Costs) -> CostCounts
    requires { AreCountsUpTo (2 ^ 62) counts }
    ensures few { (most : ℕ) → AreCountsUpTo most counts → AreCountsUpTo (most + 1) result }
    ensures counts { result ≡ counts_with counts (record {
      nobody = if is_nobody costs then 1 else 0;
      itself = if is_itself costs then 1 else 0;
      others = if is_others costs then 1 else 0;
    }) }
{
    match costs {
        Costs::Nobody => CostCounts {
            nobody: counts.nobody + 1,
            itself: counts.itself,
            others: counts.others,
        },
        Costs::Itself => CostCounts {
            nobody: counts.nobody,
            itself: counts.itself + 1,
            others: counts.others,
        },
        Costs::Others => CostCounts {
            nobody: counts.nobody,
            itself: counts.itself,
            others: counts.others + 1,
        },
    }
}

fn is_nobody(costs: Costs) -> bool
    ensures { result ≡ is_nobody costs }
{
    matches!(costs, Costs::Nobody)
}

fn is_others(costs: Costs) -> bool
    ensures { result ≡ is_others costs }
{
    matches!(costs, Costs::Others)
}

fn one_more(value: i64) -> i64
    requires { value <ℤ pos 0 }
    ensures { result ≡ value +ℤ pos 1 }
{
    value + 1
}

fn one_less(value: i64) -> i64
    requires { pos 0 <ℤ value }
    ensures { result ≡ value -ℤ pos 1 }
{
    value - 1
}

// One more than the greatest of these, or the least value of all.
fn least_free(reach: u32, costs: Option<Between>) -> i64
    requires reach { reach ≤ 1000000 }
    requires below { IfSome costs (λ b. b.greatest <ℤ pos 0) }
    ensures { result ≡ behind reach costs }
{
    match costs {
        Some(costs) => one_more(costs.greatest),
        None => -i64::from(reach),
    }
}

// One less than the least of these, or the greatest value of all.
fn greatest_free(reach: u32, costs: Option<Between>) -> i64
    requires reach { reach ≤ 1000000 }
    requires above { IfSome costs (λ b. pos 0 <ℤ b.least) }
    ensures { result ≡ before reach costs }
{
    match costs {
        Some(costs) => one_less(costs.least),
        None => i64::from(reach),
    }
}

fn is_below_0(value: i64) -> bool
    ensures { result ≡ lies_below_0 value }
{
    value < 0
}

fn is_above_0(value: i64) -> bool
    ensures { result ≡ lies_above_0 value }
{
    0 < value
}

fn either(one: bool, other: bool) -> bool
    ensures { result ≡ (one || other) }
{
    one || other
}

fn both(one: bool, other: bool) -> bool
    ensures { result ≡ (one && other) }
{
    one && other
}

impl SweepFold {
    /// Before the first value of this node.
    pub(crate) fn new(node: u8) -> SweepFold
        requires { node < most_nodes }
        ensures fold { IsFoldOf [] result }
        ensures node { result.node ≡ node }
        ensures few { AreCountsUpTo 0 result.counts }
    {
        SweepFold {
            node,
            counts: no_values(),
            zero_costs: false,
            costs_below: None,
            costs_above: None,
            below: None,
            above: None,
            most: 0,
        }
    }

    /// One value more.
    pub(crate) fn with(&self, told: &Told) -> SweepFold
        requires few { AreCountsUpTo (2 ^ 62) self.now.counts }
        requires node { self.now.node < most_nodes }
        ensures fold { (tolds : List ValueTold) → IsFoldOf tolds self.now
            → IsFoldOf (tolds ++ value_told told.now ∷ []) result }
        ensures node { result.node ≡ self.now.node }
        ensures few { (most : ℕ) → AreCountsUpTo most self.now.counts → AreCountsUpTo (most + 1) result.counts }
    {
        let costs = whom_it_costs(self.node, &told.outcome);
        let is_costly = !is_nobody(costs);
        let hurts = is_others(costs);
        let value = told.value;
        let is_below = is_below_0(value);
        let is_above = is_above_0(value);
        let at_0 = both(!is_below, !is_above);
        SweepFold {
            node: self.node,
            counts: counted(self.counts, costs),
            zero_costs: either(self.zero_costs, both(is_costly, at_0)),
            costs_below: noted_if(both(is_costly, is_below), value, self.costs_below),
            costs_above: noted_if(both(is_costly, is_above), value, self.costs_above),
            below: noted_if(both(hurts, is_below), value, self.below),
            above: noted_if(both(hurts, !is_below), value, self.above),
            most: self.most.max(u64::from(told.outcome.hurt.count())),
        }
    }

    // The values around 0 that cost nobody, if 0 does not.
    fn free(&self, reach: u32) -> Option<Between>
        requires reach { reach ≤ 1000000 }
        requires fold { (tolds : List ValueTold) × IsFoldOf tolds self.now }
        ensures { (tolds : List ValueTold) → IsFoldOf tolds self.now → result ≡ free_around reach (costly self.now.node tolds) }
    {
        if self.zero_costs {
            return None;
        }
        Some(Between {
            least: least_free(reach, self.costs_below),
            greatest: greatest_free(reach, self.costs_above),
        })
    }

    /// What sums it up, with so many ranges.
    pub(crate) fn margin(&self, reach: u32, ranges: u64) -> Margin
        requires reach { reach ≤ 1000000 }
        requires fold { (tolds : List ValueTold) × IsFoldOf tolds self.now }
        ensures { (tolds : List ValueTold) → IsFoldOf tolds self.now → ranges ≡ (margin_of reach self.now.node tolds).ranges
            → result ≡ margin_of reach self.now.node tolds }
    {
        Margin {
            ranges,
            counts: self.counts,
            free: self.free(reach),
            below: self.below,
            above: self.above,
            most: self.most,
        }
    }
}

/// No sweeps.
pub fn no_sweeps() -> Total
    ensures none { result ≡ total_of [] }
    ensures few { IsFewOf 0 result }
{
    Total {
        sweeps: 0,
        values: 0,
        counts: no_values(),
        free: None,
        least: None,
        most: 0,
    }
}

// What two ranges have in common, where the one or the other need not be there.
fn common(one: Option<Between>, other: Option<Between>) -> Option<Between>
    ensures { result ≡ common one other }
{
    match (one, other) {
        (None, _) => other,
        (_, None) => one,
        (Some(one), Some(other)) => Some(Between {
            least: one.least.max(other.least),
            greatest: one.greatest.min(other.greatest),
        }),
    }
}

fn nearer(one: Option<u64>, other: Option<u64>) -> Option<u64>
    ensures { result ≡ nearer one other }
{
    match (one, other) {
        (None, _) => other,
        (_, None) => one,
        (Some(one), Some(other)) => Some(one.min(other)),
    }
}

// How far the greatest value of a range lies from 0, and the least.
fn depth_of(values: Option<Between>) -> Option<u64>
    ensures { result ≡ depth_of values }
{
    match values {
        Some(values) => Some(values.greatest.unsigned_abs()),
        None => None,
    }
}

fn height_of(values: Option<Between>) -> Option<u64>
    ensures { result ≡ height_of values }
{
    match values {
        Some(values) => Some(values.least.unsigned_abs()),
        None => None,
    }
}

fn nearest(margin: &Margin) -> Option<u64>
    ensures { result ≡ nearest margin.now }
{
    nearer(depth_of(margin.below), height_of(margin.above))
}

fn counts_with(one: CostCounts, other: CostCounts) -> CostCounts
    requires one { AreCountsUpTo (2 ^ 62) one }
    requires other { AreCountsUpTo (2 ^ 62) other }
    ensures { result ≡ counts_with one other }
{
    CostCounts {
        nobody: one.nobody + other.nobody,
        itself: one.itself + other.itself,
        others: one.others + other.others,
    }
}

/// What some sweeps come to, with one more.
pub fn with_margin(total: &Total, margin: &Margin) -> Total
    requires total { IsFewOf (2 ^ 61) total.now }
    requires margin { AreCountsUpTo (2 ^ 59) margin.now.counts }
    ensures total { (margins : List Margin) → total.now ≡ total_of margins → result ≡ total_of (margins ++ margin.now ∷ []) }
    ensures few { (most values : ℕ) → IsFewOf most total.now → AreCountsUpTo values margin.now.counts
        → IsFewOf (most + 3 * values + 1) result }
{
    let counts = margin.counts;
    Total {
        sweeps: total.sweeps + 1,
        values: total.values + (counts.nobody + counts.itself + counts.others),
        counts: counts_with(total.counts, counts),
        free: common(total.free, margin.free),
        least: nearer(total.least, nearest(margin)),
        most: total.most.max(margin.most),
    }
}
