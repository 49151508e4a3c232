//! The pairs so far, counted: those of the first fault, and all.
ghost use Rattle.std.specs.Prelude.{◌≡◌, ◌+◌, ◌<◌, ◌^◌, [], ◌∷◌, ◌++◌, ℕ, List as Items, IfOk};
ghost use Rattle.fault_pairs.specs.Sums.{PairTold, pair_counts};
ghost use Rattle.pair_classes.specs.Ordered.{AreFewPairs};
ghost use Rattle.pair_classes.specs.Summed.{AreSumsOf};
ghost use Rattle.pair_runs.specs.Counted.{HasFewPairs, AddsTo};

use fault_pairs::{PairClass, PairCounts};
use pair_classes::{Sums, no_pairs, with_pair};
use std::alloc::Global;
use ttp_base::Memory;

/// How many pairs of a first fault there are so far, and how many in all.
#[derive(Drop)]
pub(crate) struct Tally {
    pub(crate) counts: PairCounts,
    pub(crate) sums: Sums,
}

impl Tally {
    /// Before the first pair, for so many distances.
    pub(crate) fn new(alloc: Global, distances: u32) -> Result<Tally, Memory>
        ensures few { IfOk result (λ tally. HasFewPairs distances 0 tally) }
        ensures none { IfOk result (λ tally. AreSumsOf distances [] tally.sums) }
    {
        Ok(Tally {
            counts: no_pairs(),
            sums: Sums::new(alloc, distances)?,
        })
    }

    /// Before the first pair of a first fault more.
    pub(crate) fn begin(&mut self)
        ensures few { AreFewPairs 0 self.new.counts }
        ensures counts { self.new.counts ≡ pair_counts [] }
        ensures sums { self.new.sums ≡ self.old.sums }
    {
        self.counts = no_pairs();
    }

    /// One pair more, whose faults are so many slots apart, whose test says this and whose class is this.
    pub(crate) fn count(&mut self, apart: u32, yes: bool, class: PairClass)
        requires few { (distances : ℕ) × (most : ℕ) × HasFewPairs distances most self.old × (apart < distances) × (most < 2 ^ 62) }
        ensures few { (most : ℕ) → AreFewPairs most self.old.counts → AreFewPairs (most + 1) self.new.counts }
        ensures counts { (some : Items PairTold) (told : PairTold) → self.old.counts ≡ pair_counts some → class ≡ told.class
            → self.new.counts ≡ pair_counts (some ++ told ∷ []) }
        ensures sums { (told : PairTold) → told.apart ≡ apart → told.yes ≡ yes → class ≡ told.class
            → AddsTo self.old.sums self.new.sums (told ∷ []) }
    {
        self.counts = with_pair(&self.counts, class);
        self.sums.count(apart, yes, class);
    }
}
