//! What is kept of the lines before.
ghost use Rattle.std.specs.Prelude.{List as Items, ◌≡◌, ◌<◌, ℕ, ℤ, Option, OnOk, is_some, true, false};
ghost use Rattle.ttp_base.specs.NodeSet.{most_nodes};
ghost use Rattle.script_text.specs.Statement.{says_slots, says_on, says_drift, says_event};
ghost use Rattle.script_errors.specs.Errors.{Before, no_line_before, slots_or_most, with_taken, line_stating_slots, line_stating_on, line_stating_drift};
ghost use Rattle.script_errors.specs.SoFar.{StandsFor, counted_writes};
ghost use Rattle.script_text.specs.Faults.{is_write_at};
ghost use Rattle.ttp_world.specs.declared.medl.Medl.{Medl};
ghost use Rattle.ttp_world.specs.declared.script.Event.{Event};
ghost use Rattle.ttp_world.specs.declared.script.Event.TheVariants as event;

use crate::writes::WriteCounts;
use std::alloc::Global;
use ttp_base::Memory;
use ttp_world::SLOT_LIMIT;

/// The slots of the run, and the line that says it.
#[derive(Clone, Copy)]
pub(crate) struct RunSlots {
    pub(crate) count: u32,
    pub(crate) line: u32,
}

/// What the lines before state: whether one names a form, the slots of the run, for each node the lines that say when
/// it is on and how its clock drifts, and how often hosts write.
#[derive(Drop)]
pub(crate) struct SoFar {
    pub(crate) named: bool,
    pub(crate) slots: Option<RunSlots>,
    pub(crate) on: [Option<u32>; 24],
    pub(crate) drift: [Option<u32>; 24],
    pub(crate) writes: WriteCounts,
}

impl SoFar {
    /// No line came before.
    pub(crate) fn new(alloc: Global) -> SoFar
        ensures { (list : Option Medl) → StandsFor list result no_line_before }
    {
        SoFar {
            named: false,
            slots: None,
            on: [None; 24],
            drift: [None; 24],
            writes: WriteCounts::new(alloc),
        }
    }

    /// The slots of the run, which are as many as may be where no line says it.
    pub(crate) fn slots_or_most(&self) -> u32
        ensures { (list : Option Medl) (before : Before) → StandsFor list self.now before → result ≡ slots_or_most before }
    {
        match self.slots {
            Some(slots) => slots.count,
            None => SLOT_LIMIT,
        }
    }

    /// The line that says the slots of the run.
    pub(crate) fn line_stating_slots(&self) -> Option<u32>
        ensures { (list : Option Medl) (before : Before) → StandsFor list self.now before → result ≡ line_stating_slots before }
    {
        match self.slots {
            Some(slots) => Some(slots.line),
            None => None,
        }
    }

    /// The line that says when a node is on.
    pub(crate) fn line_stating_on(&self, node: u32) -> Option<u32>
        requires { node < most_nodes }
        ensures { (list : Option Medl) (before : Before) → StandsFor list self.now before → result ≡ line_stating_on before node }
    {
        self.on[node as usize]
    }

    /// The line that says how a node's clock drifts.
    pub(crate) fn line_stating_drift(&self, node: u32) -> Option<u32>
        requires { node < most_nodes }
        ensures { (list : Option Medl) (before : Before) → StandsFor list self.now before → result ≡ line_stating_drift before node }
    {
        self.drift[node as usize]
    }

    /// Keeps what a `slots` line states.
    pub(crate) fn take_slots(&mut self, line: u32, count: u32)
        ensures { (list : Option Medl) (before : Before) → StandsFor list self.old before
            → StandsFor list self.new (with_taken before line (says_slots count)) }
    {
        self.named = true;
        self.slots = Some(RunSlots { count, line });
    }

    /// Keeps what an `on` line states.
    pub(crate) fn take_on(&mut self, line: u32, node: u32)
        requires { node < most_nodes }
        ensures { (list : Option Medl) (before : Before) (slot : ℕ) → StandsFor list self.old before
            → StandsFor list self.new (with_taken before line (says_on node slot)) }
    {
        self.named = true;
        self.on[node as usize] = Some(line);
    }

    /// Keeps what a `drift` line states.
    pub(crate) fn take_drift(&mut self, line: u32, node: u32)
        requires { node < most_nodes }
        ensures { (list : Option Medl) (before : Before) (value : ℤ) → StandsFor list self.old before
            → StandsFor list self.new (with_taken before line (says_drift node value)) }
    {
        self.named = true;
        self.drift[node as usize] = Some(line);
    }

    /// Keeps that a line names a form, of which nothing is taken.
    pub(crate) fn name(&mut self)
        ensures { (list : Option Medl) (before : Before) → StandsFor list self.old before
            → StandsFor list self.new (record before { named = true }) }
    {
        self.named = true;
    }

    /// Keeps what a line states that says no more of the run and of nodes, and writes nothing.
    pub(crate) fn take_other(&mut self, line: u32)
        ensures { (list : Option Medl) (before : Before) (e : Event) → ((k t : ℕ) → is_write_at k t (says_event e) ≡ false)
            → StandsFor list self.old before → StandsFor list self.new (with_taken before line (says_event e)) }
    {
        self.named = true;
    }

    /// Keeps what a `write` line states, in a run of so many slots. It is counted where the list says how many writes
    /// there may be.
    pub(crate) fn take_write(
        &mut self,
        line: u32,
        node: u32,
        slot: u32,
        slots: u32,
        counts: bool,
    ) -> Result<(), Memory>
        requires node { node < most_nodes }
        requires slot { slot < slots }
        requires few { counts ≡ true → counted_writes self.old.writes node slot < 255 }
        ensures { OnOk result ((list : Option Medl) (before : Before) (payload : Items ℕ) → is_some list ≡ counts
            → StandsFor list self.old before
            → StandsFor list self.new (with_taken before line (says_event (event.Write node slot payload)))) }
    {
        if counts {
            self.writes.add(node, slot, slots)?;
        }
        self.named = true;
        Ok(())
    }
}
