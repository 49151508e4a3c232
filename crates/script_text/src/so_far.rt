//! What is kept of the lines that were read.
ghost use Rattle.std.specs.Prelude.{List as Items, ℕ, ◌≡◌, ◌+◌, ◌<◌, [], ◌∷◌, ◌++◌, true, IfOk, IfErr, OnOk};
ghost use Rattle.std.specs.Prelude.{nat_lt, unwrap_or, length, slice_index_or, slice_set, is_some, Some, None};
ghost use Rattle.ttp_world.specs.Medl.{IsValid};
ghost use Rattle.ttp_world.specs.declared.medl.Medl.{Medl};
ghost use Rattle.ttp_world.specs.declared.script.Event.TheVariants as event;
ghost use Rattle.script_text.specs.declared.keyword.Keyword.{Keyword};
ghost use Rattle.script_text.specs.declared.keyword.Keyword.TheVariants as keyword;
ghost use Rattle.script_text.specs.SoFar.{LinesStandFor, HasNodes, writes_at, CountsMore, is_uncounted};
ghost use Rattle.script_text.specs.SoFar.{ReadsEvent, TakesStated, RefusesStated};

use crate::error::{LineFault, Refusal};
use crate::event::{drift_in, number_at_word, on_in};
use crate::host::{Message, message_in};
use crate::words::Words;
use crate::writes::WriteCounts;
use std::alloc::Global;
use ttp_base::{List, Memory};
use ttp_world::{Event, Medl, SLOT_LIMIT};

/// The slots of the run, for each node the slot in which it is switched on and its drift, where
/// lines said so, what happens in slots, in the order of the lines, and how often hosts write there.
#[derive(Drop)]
pub(crate) struct SoFar {
    pub(crate) slots: Option<u32>,
    pub(crate) on: Vec<Option<u32>>,
    pub(crate) drift: Vec<Option<i64>>,
    pub(crate) events: List<Event>,
    pub(crate) writes: WriteCounts,
}

impl SoFar {
    /// Nothing was said, of this list's nodes or of the run.
    pub(crate) fn new(alloc: Global, list: &Medl) -> Result<SoFar, Memory>
        requires { IsValid list.now }
        ensures stands { IfOk result (λ so_far. LinesStandFor so_far []) }
        ensures nodes { IfOk result (HasNodes list.now) }
    {
        let nodes = list.nodes();
        Ok(SoFar {
            slots: None,
            on: vec![in alloc; None; nodes as usize]?,
            drift: vec![in alloc; None; nodes as usize]?,
            events: List::new(alloc),
            writes: WriteCounts::new(alloc, nodes),
        })
    }

    /// Takes what a `slots` line states.
    #[tactic(auto, unfolding(crate::specs::Faults::stated_faults, crate::specs::Faults::statement_faults))]
    pub(crate) fn take_slots(&mut self, words: &Words, list: &Medl) -> Result<(), Refusal>
        requires { HasNodes list.now self.old }
        ensures ok { OnOk result (TakesStated list.now words.now self.old self.new keyword.Slots) }
        ensures err { IfErr result (RefusesStated list.now words.now self.old keyword.Slots) }
        ensures nodes { HasNodes list.now self.new }
    {
        let count = number_at_word(words, 1)?;
        if count < 1 || SLOT_LIMIT < count {
            return Err(LineFault::Range.into());
        }
        if self.slots.is_some() {
            return Err(LineFault::Repeat.into());
        }
        self.slots = Some(count);
        Ok(())
    }

    // Whether a line said in which slot a node is switched on.
    fn says_on(&self, node: u8) -> bool
        ensures { result ≡ is_some (slice_index_or self.now.on.items node None) }
    {
        match self.on.get(node as usize) {
            Some(slot) => slot.is_some(),
            None => false,
        }
    }

    // Whether a line said how a node's clock drifts.
    fn says_drift(&self, node: u8) -> bool
        ensures { result ≡ is_some (slice_index_or self.now.drift.items node None) }
    {
        match self.drift.get(node as usize) {
            Some(value) => value.is_some(),
            None => false,
        }
    }

    fn set_drift(&mut self, node: u8, value: i64)
        requires { node < length self.old.drift.items }
        ensures value { self.new ≡ record self.old { drift = self.new.drift } }
        ensures drift { self.new.drift.items ≡ slice_set self.old.drift.items node (Some value) }
    {
        self.drift[node as usize] = Some(value);
    }

    /// Takes what an `on` line states.
    #[tactic(auto, using(crate::proofs::Kept::refused))]
    pub(crate) fn take_on(&mut self, words: &Words, list: &Medl) -> Result<(), Refusal>
        requires valid { IsValid list.now }
        requires nodes { HasNodes list.now self.old }
        ensures ok { OnOk result (TakesStated list.now words.now self.old self.new keyword.On) }
        ensures err { IfErr result (RefusesStated list.now words.now self.old keyword.On) }
        ensures nodes { HasNodes list.now self.new }
    {
        let said = on_in(words, list, self.slots.unwrap_or(0))?;
        if self.says_on(said.node) {
            return Err(LineFault::Repeat.into());
        }
        self.on[said.node as usize] = Some(said.slot);
        Ok(())
    }

    /// Takes what a `drift` line states.
    #[tactic(auto, using(crate::proofs::Kept::refused))]
    pub(crate) fn take_drift(&mut self, words: &Words, list: &Medl) -> Result<(), Refusal>
        requires valid { IsValid list.now }
        requires nodes { HasNodes list.now self.old }
        ensures ok { OnOk result (TakesStated list.now words.now self.old self.new keyword.Drift) }
        ensures err { IfErr result (RefusesStated list.now words.now self.old keyword.Drift) }
        ensures nodes { HasNodes list.now self.new }
    {
        let said = drift_in(words, list, self.slots.unwrap_or(0))?;
        if self.says_drift(said.node) {
            return Err(LineFault::Repeat.into());
        }
        self.set_drift(said.node, said.value);
        Ok(())
    }

    /// Takes the event that a line states, which is not counted, or tells what is wrong with that line.
    #[inline(always)]
    pub(crate) fn take_event(&mut self, event: Result<Event, LineFault>) -> Result<(), Refusal>
        ensures ok { (list : Medl) (words : Items (Items ℕ)) (form : Keyword) → is_uncounted form ≡ true
            → ReadsEvent list (unwrap_or self.old.slots 0) words form event
            → OnOk result (TakesStated list words self.old self.new form) }
        ensures err { (list : Medl) (words : Items (Items ℕ)) (form : Keyword) → is_uncounted form ≡ true
            → ReadsEvent list (unwrap_or self.old.slots 0) words form event
            → IfErr result (RefusesStated list words self.old form) }
        ensures nodes { (list : Medl) → HasNodes list self.old → HasNodes list self.new }
    {
        match event {
            Ok(event) => {
                self.events.push(event)?;
                Ok(())
            }
            Err(fault) => Err(Refusal::Fault(fault)),
        }
    }

    // Whether the buffers have room for one message more of a node's host in a slot.
    fn has_room(&self, list: &Medl, node: u8, slot: u32) -> bool
        requires { IsValid list.now }
        ensures { result ≡ nat_lt (writes_at self.now.writes node slot + 1) list.now.buffers }
    {
        self.writes.at(node, slot) < list.buffers - 1
    }

    // Keeps a message of a node's host, in a run of so many slots, and counts it.
    fn keep(&mut self, message: Message, slots: u32) -> Result<(), Memory>
        requires node { message.node < self.old.writes.nodes }
        requires slot { message.slot < slots }
        requires few { writes_at self.old.writes message.node message.slot < 255 }
        ensures value { OnOk result (self.new ≡ record self.old {
          events = self.old.events ++ event.Write message.node message.slot message.payload ∷ [];
          writes = self.new.writes;
        }) }
        ensures writes { OnOk result (CountsMore self.old.writes self.new.writes message.node message.slot) }
        ensures nodes { (list : Medl) → HasNodes list self.old → HasNodes list self.new }
    {
        let Message {
            node,
            slot,
            payload,
        } = message;
        self.writes.add(node, slot, slots)?;
        self.events.push(Event::Write {
            node,
            slot,
            payload,
        })?;
        Ok(())
    }

    /// Takes what a `write` line states.
    #[tactic(auto, using(crate::proofs::Kept::refused))]
    pub(crate) fn take_write(&mut self, words: &Words, list: &Medl) -> Result<(), Refusal>
        requires valid { IsValid list.now }
        requires nodes { HasNodes list.now self.old }
        ensures ok { OnOk result (TakesStated list.now words.now self.old self.new keyword.Write) }
        ensures err { IfErr result (RefusesStated list.now words.now self.old keyword.Write) }
        ensures nodes { HasNodes list.now self.new }
    {
        let slots = self.slots.unwrap_or(0);
        let message = message_in(words, list, slots)?;
        if list.buffers == 1 {
            return Err(LineFault::NoBuffer.into());
        }
        if !self.has_room(list, message.node, message.slot) {
            return Err(LineFault::TooMany.into());
        }
        self.keep(message, slots)?;
        Ok(())
    }
}
