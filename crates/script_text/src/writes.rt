//! How often hosts write in a slot.
ghost use Rattle.std.specs.Prelude.{◌≡◌, ◌+◌, ◌*◌, ◌<◌, ◌≤◌, ℕ, OnOk, slice_index, vec_len};
ghost use Rattle.script_text.specs.SoFar.{writes_at, CountsMore};

use std::alloc::Global;
use ttp_base::Memory;

/// How often each node's host writes in each slot: `writes_at` of `specs/SoFar.antt`. It takes memory with
/// the first write, a byte for each node and slot of the run.
#[derive(Drop)]
pub(crate) struct WriteCounts {
    pub(crate) nodes: u8,
    pub(crate) counts: Vec<u8>,
}

impl WriteCounts {
    /// No host writes.
    pub(crate) fn new(alloc: Global, nodes: u8) -> WriteCounts
        ensures nodes { result.nodes ≡ nodes }
        ensures none { (k t : ℕ) → writes_at result k t ≡ 0 }
    {
        WriteCounts {
            nodes,
            counts: Vec::new(alloc),
        }
    }

    // Where the count of a node and a slot stands.
    fn place(&self, node: u8, slot: u32) -> usize
        ensures { result ≡ slot * self.now.nodes + node }
    {
        slot as usize * self.nodes as usize + node as usize
    }

    /// How often a node's host writes in a slot.
    pub(crate) fn at(&self, node: u8, slot: u32) -> u8
        ensures { result ≡ writes_at self.now node slot }
    {
        match self.counts.get(self.place(node, slot)) {
            Some(count) => *count,
            None => 0,
        }
    }

    // Makes room for the counts of a run of so many slots.
    fn grow(&mut self, slots: u32) -> Result<(), Memory>
        ensures room { OnOk result (slots * self.old.nodes ≤ vec_len self.new.counts) }
        ensures same { (i : ℕ) → slice_index self.new.counts.items i ≡ slice_index self.old.counts.items i }
        ensures nodes { self.new.nodes ≡ self.old.nodes }
    {
        let all = slots as usize * self.nodes as usize;
        if self.counts.len() < all {
            self.counts.resize(all, 0)?;
        }
        Ok(())
    }

    /// Counts one write more of a node's host in a slot, of a run of so many.
    pub(crate) fn add(&mut self, node: u8, slot: u32, slots: u32) -> Result<(), Memory>
        requires node { node < self.old.nodes }
        requires slot { slot < slots }
        requires few { writes_at self.old node slot < 255 }
        ensures more { OnOk result (CountsMore self.old self.new node slot) }
        ensures nodes { self.new.nodes ≡ self.old.nodes }
    {
        self.grow(slots)?;
        let place = self.place(node, slot);
        self.counts[place] += 1;
        Ok(())
    }
}
