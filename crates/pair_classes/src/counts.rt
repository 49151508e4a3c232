//! How many pairs are of which class.
ghost use Rattle.std.specs.Prelude.{◌≡◌, ◌+◌, ◌<◌, ◌^◌, [], ◌∷◌, ◌++◌, ℕ, List as Items, if◌then◌else◌};
ghost use Rattle.fault_pairs.specs.Classes.{is_sum, is_less, is_own, is_divided, is_third, is_torn_pair, is_dead_pair};
ghost use Rattle.fault_pairs.specs.Sums.{PairTold, pair_counts};
ghost use Rattle.pair_classes.specs.Ordered.{AreFewPairs};

use fault_pairs::{PairClass, PairCounts};

/// The counts of no pairs.
pub fn no_pairs() -> PairCounts
    ensures few { AreFewPairs 0 result }
    ensures counts { result ≡ pair_counts [] }
{
    PairCounts {
        pairs: 0,
        sum: 0,
        less: 0,
        own: 0,
        divided: 0,
        third: 0,
        torn: 0,
        dead: 0,
    }
}

// A count, with one more where it is one of those that are counted.
fn more(count: u64, is: bool) -> u64
    requires { count < 2 ^ 63 }
    ensures { result ≡ count + (if is then 1 else 0) }
{
    if is { count + 1 } else { count }
}

// Which class it is.

fn is_sum(class: PairClass) -> bool
    ensures { result ≡ is_sum class }
{
    matches!(class, PairClass::Sum)
}

fn is_less(class: PairClass) -> bool
    ensures { result ≡ is_less class }
{
    matches!(class, PairClass::Less)
}

fn is_own(class: PairClass) -> bool
    ensures { result ≡ is_own class }
{
    matches!(class, PairClass::Own)
}

fn is_divided(class: PairClass) -> bool
    ensures { result ≡ is_divided class }
{
    matches!(class, PairClass::Divided)
}

fn is_third(class: PairClass) -> bool
    ensures { result ≡ is_third class }
{
    matches!(class, PairClass::Third)
}

fn is_torn(class: PairClass) -> bool
    ensures { result ≡ is_torn_pair class }
{
    matches!(class, PairClass::Torn)
}

fn is_dead(class: PairClass) -> bool
    ensures { result ≡ is_dead_pair class }
{
    matches!(class, PairClass::Dead)
}

/// One pair more, of this class. No count is to be 2^62 or more.
pub fn with_pair(counts: &PairCounts, class: PairClass) -> PairCounts
    requires { AreFewPairs (2 ^ 62) counts.now }
    ensures few { (most : ℕ) → AreFewPairs most counts.now → AreFewPairs (most + 1) result }
    ensures counts { (tolds : Items PairTold) (told : PairTold) → counts.now ≡ pair_counts tolds → class ≡ told.class
        → result ≡ pair_counts (tolds ++ told ∷ []) }
{
    PairCounts {
        pairs: counts.pairs + 1,
        sum: more(counts.sum, is_sum(class)),
        less: more(counts.less, is_less(class)),
        own: more(counts.own, is_own(class)),
        divided: more(counts.divided, is_divided(class)),
        third: more(counts.third, is_third(class)),
        torn: more(counts.torn, is_torn(class)),
        dead: more(counts.dead, is_dead(class)),
    }
}
