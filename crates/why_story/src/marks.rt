//! Marks of entries.
ghost use Rattle.std.specs.Prelude.{List as Items, ◌≡◌, ◌<◌, ◌∷◌, ◌++◌, [], ℕ, IfOk};
ghost use Rattle.std.specs.List.{list_any};
ghost use Rattle.ttp_base.specs.NodeSet.{most_nodes};
ghost use Rattle.causes.specs.declared.cause.Spot.{Spot};
ghost use Rattle.causes.specs.Story.{has_spot};
ghost use Rattle.why_story.specs.Marks.{AreMarked, AreInSlots};

use causes::Spot;
use std::alloc::Global;
use ttp_base::{Memory, NodeSet};

// Sets have nodes below this number.
const MOST_NODES: u8 = 24;

/// Marks of entries: a set of nodes for each slot. What lies outside has no mark.
#[derive(Drop)]
pub struct Marks {
    pub sets: Vec<NodeSet>,
}

impl Marks {
    /// No mark, in so many slots.
    pub(crate) fn new(alloc: Global, slots: u32) -> Result<Marks, Memory>
        ensures { IfOk result (AreMarked slots []) }
    {
        Ok(Marks {
            sets: vec![in alloc; NodeSet::empty(); slots as usize]?,
        })
    }

    /// Whether an entry is marked.
    pub(crate) fn has(&self, spot: Spot) -> bool
        ensures inside { (count : ℕ) (spots : Items Spot) → AreMarked count spots self.now → spot.slot < count
            → spot.node < most_nodes → result ≡ has_spot spots spot }
        ensures whole { (count : ℕ) (spots : Items Spot) → AreMarked count spots self.now → AreInSlots count spots
            → result ≡ has_spot spots spot }
    {
        let slot = spot.slot as usize;
        slot < self.sets.len() && spot.node < MOST_NODES && self.sets[slot].has(spot.node)
    }

    /// Whether one of some is.
    pub(crate) fn has_any(&self, spots: &[Spot]) -> bool
        ensures { (count : ℕ) (marked : Items Spot) → AreMarked count marked self.now → AreInSlots count marked
            → result ≡ list_any (has_spot marked) spots.now }
    {
        for spot in spots {
            if self.has(*spot) {
                return true;
            }
        }
        false
    }

    /// Marks an entry.
    pub(crate) fn mark(&mut self, spot: Spot)
        ensures { (count : ℕ) (spots : Items Spot) → AreMarked count spots self.old → AreMarked count (spot ∷ spots) self.new }
    {
        let slot = spot.slot as usize;
        if slot < self.sets.len() && spot.node < MOST_NODES {
            self.sets[slot] = self.sets[slot].with(spot.node);
        }
    }

    /// Marks some.
    pub(crate) fn mark_all(&mut self, spots: &[Spot])
        ensures { (count : ℕ) (marked : Items Spot) → AreMarked count marked self.old
            → AreMarked count (spots.now ++ marked) self.new }
    {
        for spot in spots {
            self.mark(*spot);
        }
    }
}
