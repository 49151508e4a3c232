//! How often hosts write in a slot.
ghost use Rattle.std.specs.Prelude.{◌≡◌, ◌+◌, ◌*◌, ◌<◌, ◌≤◌, ℕ, OnOk, slice_index, vec_len};
ghost use Rattle.ttp_base.specs.NodeSet.{most_nodes};
ghost use Rattle.script_errors.specs.SoFar.{counted_writes, CountsOneMore};

use std::alloc::Global;
use ttp_base::Memory;

/// How often each node's host writes in each slot: `counted_writes` of `specs/SoFar.antt`. It takes memory with
/// the first write, a byte for each node and slot of the run.
#[derive(Drop)]
pub(crate) struct WriteCounts {
    pub(crate) counts: Vec<u8>,
}

impl WriteCounts {
    /// No host writes.
    pub(crate) fn new(alloc: Global) -> WriteCounts
        ensures { (k t : ℕ) → counted_writes result k t ≡ 0 }
    {
        WriteCounts {
            counts: Vec::new(alloc),
        }
    }

    // Where the count of a node and a slot stands.
    fn place(&self, node: u32, slot: u32) -> usize
        ensures { result ≡ slot * most_nodes + node }
    {
        slot as usize * 24 + node as usize
    }

    /// How often a node's host writes in a slot.
    pub(crate) fn at(&self, node: u32, slot: u32) -> u8
        ensures { result ≡ counted_writes self.now node slot }
    {
        match self.counts.get(self.place(node, slot)) {
            Some(count) => *count,
            None => 0,
        }
    }

    // Makes room for the counts of a run of so many slots.
    fn grow(&mut self, slots: u32) -> Result<(), Memory>
        ensures room { OnOk result (slots * most_nodes ≤ vec_len self.new.counts) }
        ensures same { (i : ℕ) → slice_index self.new.counts.items i ≡ slice_index self.old.counts.items i }
    {
        let all = slots as usize * 24;
        if self.counts.len() < all {
            self.counts.resize(all, 0)?;
        }
        Ok(())
    }

    /// Counts one write more of a node's host in a slot, of a run of so many.
    pub(crate) fn add(&mut self, node: u32, slot: u32, slots: u32) -> Result<(), Memory>
        requires node { node < most_nodes }
        requires slot { slot < slots }
        requires few { counted_writes self.old node slot < 255 }
        ensures { OnOk result (CountsOneMore self.old self.new node slot) }
    {
        self.grow(slots)?;
        let place = self.place(node, slot);
        self.counts[place] += 1;
        Ok(())
    }
}
