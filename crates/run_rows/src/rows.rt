//! The rows of a run.
ghost use Rattle.std.specs.Prelude.{◌≡◌, ◌+◌, ◌<◌, ◌≤◌, ◌++◌, length, unsigned_abs, IfOk, OnOk};
ghost use Rattle.ttp_world.specs.Medl.{IsValid};
ghost use Rattle.ttp_world.specs.Script.{IsValidScript};
ghost use Rattle.ttp_world.specs.World.{node_of};
ghost use Rattle.controller.specs.Limits.{most_clock};
ghost use Rattle.run_costs.specs.Standing.{IsRunAfter};
ghost use Rattle.run_rows.specs.Begun.{AreBegun};
ghost use Rattle.run_rows.specs.Rows.{AreRowsNear, node_row, rows_in, rows_of, run_slot, slot_in};

use crate::begun::{all_begun, first_begun};
use crate::kept::{all_kept_after, first_kept};
use crate::row::{NodeBegun, NodeRow};
use run_costs::Run;
use std::alloc::Global;
use std::marker::Model;
use ttp_base::{List, Memory};
use ttp_world::{Medl, Script};

/// A run of a list by a script, of which a row is kept for each slot and node.
#[derive(Drop)]
pub struct RunRows<'a> {
    list: &'a Medl,
    script: &'a Script,
    slots: u32,
    // Slot after slot, in each those of the nodes in their order.
    rows: List<NodeRow>,
}

impl<'a> Model for RunRows<'a> {
    ghost use Rattle.run_rows.specs.Rows.{AreRows, RunShown};

    ghost Value = { RunShown };

    ghost view = { λ r. record { list = r.list.now; script = r.script.now; slots = r.slots } };

    ghost invariant = { λ r. AreRows r.list.now r.script.now r.slots r.rows };
}

// Adds the rows of the slot that a run has done last, of which this is kept as it began.
fn push_rows(
    list: &Medl,
    script: &Script,
    slot: u32,
    run: &Run,
    begun: &[NodeBegun; 24],
    rows: &mut List<NodeRow>,
) -> Result<(), Memory>
    requires list { IsValid list.now }
    requires run { IsRunAfter run.now list.now script.now (slot + 1) }
    requires begun { AreBegun list.now script.now slot (length list.now.slots) begun.now }
    ensures { OnOk result (rows.new ≡ rows.old ++ rows_of list.now (slot_in list.now script.now slot)) }
{
    let states = run.states(list);
    for node in 0..list.nodes() {
        let at = usize::from(node);
        rows.push(NodeRow {
            begun: begun[at],
            entry: states[at].entry,
        })?;
    }
    Ok(())
}

// The rows of so many slots.
fn rows_of_run(
    alloc: Global,
    list: &Medl,
    script: &Script,
    slots: u32,
) -> Result<List<NodeRow>, Memory>
    requires list { IsValid list.now }
    requires script { IsValidScript list.now script.now }
    requires slots { slots ≤ script.now.slots }
    ensures rows { IfOk result (λ rows. rows ≡ rows_in list.now script.now slots) }
    ensures near { OnOk result (AreRowsNear list.now script.now slots) }
{
    let mut rows = List::new(alloc);
    let mut run = Run::new(alloc, list)?;
    let mut kept = first_kept(list, script);
    let mut begun = first_begun(list, script, &kept);
    for slot in 0..slots {
        run.step(list, script, slot);
        push_rows(list, script, slot, &run, &begun, &mut rows)?;
        kept = all_kept_after(list, script, slot, &run, &kept);
        begun = all_begun(list, script, slot + 1, &run, &kept);
    }
    Ok(rows)
}

impl<'a> RunRows<'a> {
    /// The first slots of a run, so many. Only this call takes memory.
    ///
    /// # Errors
    ///
    /// Where memory was refused.
    pub fn new(
        alloc: Global,
        list: &'a Medl,
        script: &'a Script,
        slots: u32,
    ) -> Result<RunRows<'a>, Memory>
        requires list { IsValid list.now }
        requires script { IsValidScript list.now script.now }
        requires slots { slots ≤ script.now.slots }
        ensures { IfOk result (λ run. run ≡ record { list = list.now; script = script.now; slots = slots }) }
    {
        Ok(RunRows {
            list,
            script,
            slots,
            rows: rows_of_run(alloc, list, script, slots)?,
        })
    }

    /// The list.
    pub fn list(&self) -> &'a Medl
        ensures value { result.now ≡ self.now.list }
        ensures valid { IsValid self.now.list }
    {
        self.list
    }

    /// The script.
    pub fn script(&self) -> &'a Script
        ensures value { result.now ≡ self.now.script }
        ensures valid { IsValidScript self.now.list self.now.script }
    {
        self.script
    }

    /// How many slots it has.
    pub fn slots(&self) -> u32
        ensures value { result ≡ self.now.slots }
        ensures within { result ≤ self.now.script.slots }
    {
        self.slots
    }

    /// How many nodes.
    pub fn nodes(&self) -> u8
        ensures { result ≡ length self.now.list.slots }
    {
        self.list.nodes()
    }

    /// The row of a node in a slot.
    pub fn row(&self, slot: u32, node: u8) -> &NodeRow
        requires slot { slot < self.now.slots }
        requires node { node < length self.now.list.slots }
        ensures { result.now ≡ node_row node (run_slot self.now slot) }
    {
        let nodes = usize::from(self.list.nodes());
        self.rows.get(slot as usize * nodes + usize::from(node))
    }

    /// How far a node's clock is ahead in a slot, with the slot's jumps, in microticks.
    pub fn clock(&self, slot: u32, node: u8) -> i64
        requires slot { slot < self.now.slots }
        requires node { node < length self.now.list.slots }
        ensures value { result ≡ (node_of (run_slot self.now slot).begun node).clock }
        ensures near { unsigned_abs result ≤ most_clock }
    {
        let nodes = usize::from(self.list.nodes());
        self.rows
            .get(slot as usize * nodes + usize::from(node))
            .begun
            .clock
    }
}
