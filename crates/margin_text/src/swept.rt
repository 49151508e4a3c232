//! The values of a sweep, taken one after another.
ghost use Rattle.std.specs.Prelude.{◌≡◌, ◌+◌, ◌^◌, ◌<◌, ◌≤◌, [], ◌∷◌, ◌++◌, ℕ, List, length, option_map, Some};
ghost use Rattle.ttp_base.specs.NodeSet.{most_nodes};
ghost use Rattle.clock_margins.specs.Outcomes.{ValueTold};
ghost use Rattle.clock_margins.specs.Ranges.{Range, ranges_of};
ghost use Rattle.clock_margins.specs.Sums.{margin_of};
ghost use Rattle.margin_laws.specs.Behind.{closed_ranges, open_range, range_behind};
ghost use Rattle.margin_text.specs.Taken.{value_told, range_of, ranges_closed, IsSweptOf, HasFew};

use crate::fold::SweepFold;
use crate::range::OpenRange;
use crate::told::Told;
use clock_margins::Margin;

/// The values of a sweep that were taken so far.
#[derive(Drop)]
pub struct Swept {
    pub(crate) fold: SweepFold,
    // The range of the newest value, which the next one may join.
    last: Option<OpenRange>,
    // How many ranges are closed.
    closed: u64,
}

// The range that a value closes, if it does, and the one that is open behind it.
struct Joined {
    closed: Option<OpenRange>,
    last: OpenRange,
}

// A value joins the range, or closes it.
fn step_from(range: OpenRange, told: Told) -> Joined
    ensures { range_behind (value_told told) (range_of range ∷ [])
        ≡ ranges_closed result.closed ++ range_of result.last ∷ [] }
{
    let mut range = range;
    if range.has_alike(&told) {
        range.to = told.value;
        Joined {
            closed: None,
            last: range,
        }
    } else {
        Joined {
            closed: Some(range),
            last: OpenRange::alone(told),
        }
    }
}

// A value behind the range that is open, or behind none.
fn step(last: Option<OpenRange>, told: Told) -> Joined
    ensures { (ranges : List Range) → option_map range_of last ≡ open_range ranges
        → range_behind (value_told told) ranges
        ≡ (closed_ranges ranges ++ ranges_closed result.closed) ++ range_of result.last ∷ [] }
{
    match last {
        Some(range) => step_from(range, told),
        None => Joined {
            closed: None,
            last: OpenRange::alone(told),
        },
    }
}

// How many ranges are closed, with one more if there is one.
fn count_with(count: u64, closed: &Option<OpenRange>) -> u64
    requires { count < 2 ^ 63 }
    ensures { result ≡ count + length (ranges_closed closed.now) }
{
    if closed.is_some() { count + 1 } else { count }
}

impl Swept {
    /// Before the first value of this node.
    pub fn new(node: u8) -> Swept
        requires { node < most_nodes }
        ensures swept { IsSweptOf [] result }
        ensures node { result.fold.node ≡ node }
        ensures few { HasFew 0 result }
    {
        Swept {
            fold: SweepFold::new(node),
            last: None,
            closed: 0,
        }
    }

    /// Takes the next value. Returns the range that ends before it, if one does.
    pub fn take(&mut self, told: Told) -> Option<OpenRange>
        requires few { HasFew (2 ^ 62) self.old }
        requires node { self.old.fold.node < most_nodes }
        ensures swept { (tolds : List ValueTold) → IsSweptOf tolds self.old
            → IsSweptOf (tolds ++ value_told told ∷ []) self.new }
        ensures closed { (tolds : List ValueTold) → IsSweptOf tolds self.old
            → closed_ranges (ranges_of (tolds ++ value_told told ∷ []))
            ≡ closed_ranges (ranges_of tolds) ++ ranges_closed result }
        ensures node { self.new.fold.node ≡ self.old.fold.node }
        ensures few { (most : ℕ) → HasFew most self.old → HasFew (most + 1) self.new }
    {
        self.fold = self.fold.with(&told);
        let Joined { closed, last } = step(self.last.take(), told);
        self.closed = count_with(self.closed, &closed);
        self.last = Some(last);
        closed
    }

    /// The range that is open, if there was a value.
    pub fn last(&self) -> Option<&OpenRange>
        ensures { (tolds : List ValueTold) → IsSweptOf tolds self.now
            → option_map (λ range. range_of range.now) result ≡ open_range (ranges_of tolds) }
    {
        self.last.as_ref()
    }

    // How many ranges there are.
    fn ranges(&self) -> u64
        requires few { HasFew (2 ^ 62) self.now }
        ensures { (tolds : List ValueTold) → IsSweptOf tolds self.now → result ≡ length (ranges_of tolds) }
    {
        if self.last.is_some() {
            self.closed + 1
        } else {
            self.closed
        }
    }

    /// What sums it up.
    pub fn margin(&self, reach: u32) -> Margin
        requires reach { reach ≤ 1000000 }
        requires few { HasFew (2 ^ 62) self.now }
        requires swept { (tolds : List ValueTold) × IsSweptOf tolds self.now }
        ensures { (tolds : List ValueTold) → IsSweptOf tolds self.now → result ≡ margin_of reach self.now.fold.node tolds }
    {
        self.fold.margin(reach, self.ranges())
    }
}
