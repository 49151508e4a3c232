//! The range of values that is open.
ghost use Rattle.std.specs.Prelude.{◌≡◌, ◌<◌, ◌==◌, length};
ghost use Rattle.std.specs.Str.{bytes_eq};
ghost use Rattle.ttp_base.specs.NodeSet.{most_nodes};
ghost use Rattle.clock_margins.specs.Outcomes.{whom_it_costs};
ghost use Rattle.clock_margins.specs.Ranges.{is_same_truth, are_same_sets, is_same_outcome, is_told_as, range_alone};
ghost use Rattle.margin_text.specs.Taken.{range_of, value_told};

use crate::told::Told;
use clock_margins::{Costs, Outcome};
use line_form::Text;
use ttp_base::NodeSet;

/// Values from one to another that are told alike, and what is told of them.
#[derive(Drop)]
pub struct OpenRange {
    pub(crate) from: i64,
    pub(crate) to: i64,
    pub(crate) test: Text<64>,
    pub(crate) outcome: Outcome,
}

/// Whom an outcome costs, where this node is swept.
pub(crate) fn whom_it_costs(node: u8, outcome: &Outcome) -> Costs
    requires { node < most_nodes }
    ensures { result ≡ whom_it_costs node outcome.now }
{
    if outcome.hurt.count() != 0 {
        Costs::Others
    } else if outcome.left.has(node) {
        Costs::Itself
    } else {
        Costs::Nobody
    }
}

// Whether both are true, or neither.
fn is_same_truth(one: bool, other: bool) -> bool
    ensures { result ≡ is_same_truth one other }
{
    if one { other } else { !other }
}

// Whether two sets have the same nodes.
fn is_same_set(one: NodeSet, other: NodeSet) -> bool
    ensures { result ≡ bytes_eq one other }
{
    one == other
}

fn have_same_count(one: &[NodeSet], other: &[NodeSet]) -> bool
    ensures { result ≡ (length one.now == length other.now) }
{
    one.len() == other.len()
}

// Whether these are the same memberships in the same order.
fn are_same_sets(one: &[NodeSet], other: &[NodeSet]) -> bool
    ensures { result ≡ are_same_sets one.now other.now }
{
    if !have_same_count(one, other) {
        return false;
    }
    for place in 0..one.len() {
        if !is_same_set(one[place], other[place]) {
            return false;
        }
    }
    true
}

fn is_same_outcome(one: &Outcome, other: &Outcome) -> bool
    ensures { result ≡ is_same_outcome one.now other.now }
{
    is_same_set(one.left, other.left)
        && (is_same_set(one.hurt, other.hurt)
            && (is_same_truth(one.split, other.split)
                && are_same_sets(one.end.as_slice(), other.end.as_slice())))
}

// Whether two texts have the same bytes.
fn is_same_text(one: &Text<64>, other: &Text<64>) -> bool
    ensures { result ≡ bytes_eq one.now other.now }
{
    one.bytes() == other.bytes()
}

impl OpenRange {
    /// A value alone.
    pub(crate) fn alone(told: Told) -> OpenRange
        ensures { range_of result ≡ range_alone (value_told told) }
    {
        OpenRange {
            from: told.value,
            to: told.value,
            test: told.test,
            outcome: told.outcome,
        }
    }

    /// Whether a value is told as those of the range.
    pub(crate) fn has_alike(&self, told: &Told) -> bool
        ensures { result ≡ is_told_as (value_told told.now) (range_of self.now) }
    {
        is_same_text(&told.test, &self.test) && is_same_outcome(&told.outcome, &self.outcome)
    }
}
