//! The sums of pairs: by how far their faults are apart, and by what the test says.
ghost use Rattle.std.specs.Prelude.{◌≡◌, ◌+◌, ◌<◌, ◌^◌, [], ◌∷◌, ◌++◌, ℕ, List as Items, length, replicate, IfOk};
ghost use Rattle.fault_pairs.specs.Sums.{PairTold, pair_counts};
ghost use Rattle.pair_classes.specs.Summed.{AreSumsOf, AreFewSums};

use crate::counts::{no_pairs, with_pair};
use fault_pairs::{PairClass, PairCounts};
use std::alloc::Global;
use ttp_base::Memory;

/// The counts of the pairs so far: those of each distance, and those whose test says yes or no.
#[derive(Drop)]
pub struct Sums {
    pub apart: Vec<PairCounts>,
    pub kept: PairCounts,
    pub broken: PairCounts,
}

// So many counts of no pairs.
fn none_apart(alloc: Global, distances: u32) -> Result<Vec<PairCounts>, Memory>
    ensures { IfOk result (λ counts. counts.items ≡ replicate distances (pair_counts [])) }
{
    match vec![in alloc; no_pairs(); distances as usize] {
        Ok(counts) => Ok(counts),
        Err(_) => Err(Memory),
    }
}

impl Sums {
    /// Before the first pair, for so many distances. Only this call takes memory: a few numbers for each distance.
    ///
    /// # Errors
    ///
    /// Where memory was refused.
    pub fn new(alloc: Global, distances: u32) -> Result<Sums, Memory>
        ensures few { IfOk result (λ sums. AreFewSums 0 sums) }
        ensures none { IfOk result (λ sums. AreSumsOf distances [] sums) }
    {
        Ok(Sums {
            apart: none_apart(alloc, distances)?,
            kept: no_pairs(),
            broken: no_pairs(),
        })
    }

    /// One pair more, whose faults are so many slots apart, whose test says this and whose class is this. No count is to be 2^62
    /// or more.
    pub fn count(&mut self, apart: u32, yes: bool, class: PairClass)
        requires room { apart < length self.old.apart.items }
        requires few { AreFewSums (2 ^ 62) self.old }
        ensures few { (most : ℕ) → AreFewSums most self.old → AreFewSums (most + 1) self.new }
        ensures told { (distances : ℕ) (tolds : Items PairTold) (told : PairTold) → told.apart ≡ apart → told.yes ≡ yes
            → class ≡ told.class → AreSumsOf distances tolds self.old → AreSumsOf distances (tolds ++ told ∷ []) self.new }
    {
        let place = apart as usize;
        self.apart[place] = with_pair(&self.apart[place], class);
        if yes {
            self.kept = with_pair(&self.kept, class);
        } else {
            self.broken = with_pair(&self.broken, class);
        }
    }
}
