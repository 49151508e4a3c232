//! A run by the message numbers that its trace names.
ghost use Rattle.std.specs.Prelude.{◌≡◌, ◌+◌, ◌<◌, [], length, IfOk};
ghost use Rattle.ttp_world.specs.declared.script.Script.{Script as Said};
ghost use Rattle.ttp_world.specs.Medl.{IsValid};
ghost use Rattle.ttp_world.specs.Script.{writes_in, IsValidScript};
ghost use Rattle.ttp_world.specs.World.{Numbers};
ghost use Rattle.trace_check.specs.Outgoing.{HasChosen, HoldsNewest};
ghost use Rattle.trace_run.specs.Run.{TraceStandsFor, IsTraceAt, IsMade, IsTraceSomewhere, IsMadeSomewhere};

use crate::skip::skip_slot;
use controller::Plant;
use std::alloc::Global;
use trace_check::Outgoing;
use ttp_base::Memory;
use ttp_world::{Chosen, Medl, Script};

/// A run of a list, between two slots or where a slot was made.
#[derive(Drop)]
pub struct TraceRun {
    plant: Plant,
    outgoing: Outgoing,
}

// Hosts write what the script says of a slot. Returns how many messages these are.
fn write_all(outgoing: &mut Outgoing, list: &Medl, script: &Script, slot: u32) -> usize
    requires list { IsValid list.now }
    requires script { IsValidScript list.now script.now }
    requires slot { slot < script.now.slots }
    requires chosen { HasChosen outgoing.old list.now script.now slot }
    ensures holds { HoldsNewest outgoing.new list.now script.now (slot + 1) }
    ensures count { result ≡ length (writes_in script.now slot) }
{
    let places = script.writes(slot);
    let mut count = 0;
    for at in places {
        if let Some(written) = script.write(*at) {
            outgoing.write(written.host, written.payload);
            count += 1;
        }
    }
    count
}

impl TraceRun {
    /// The run of a list before its first slot. Only this call takes memory; `Memory` where that was
    /// refused.
    pub fn new(alloc: Global, list: &Medl) -> Result<TraceRun, Memory>
        requires { IsValid list.now }
        ensures { (script : Said) → IfOk result (λ run. TraceStandsFor run list.now script []) }
    {
        Ok(TraceRun {
            plant: Plant::new(alloc, list)?,
            outgoing: Outgoing::new(alloc, list)?,
        })
    }

    /// Makes one slot, by the numbers that the text names in its lines, with which it begins.
    pub fn make(&mut self, list: &Medl, script: &Script, slot: u32, text: &[u8])
        requires list { IsValid list.now }
        requires script { IsValidScript list.now script.now }
        requires slot { slot < script.now.slots }
        requires at { IsTraceSomewhere self.old list.now script.now slot text.now }
        ensures { (whole : Numbers) → IsTraceAt self.old list.now script.now whole slot text.now
            → IsMade self.new list.now script.now whole slot text.now }
    {
        self.outgoing.choose(list, script, slot, text);
        self.plant.slot(list, script, self.outgoing.chosen());
    }

    /// The cluster.
    pub fn plant(&self) -> &Plant
        ensures { result.now ≡ self.now.plant }
    {
        &self.plant
    }

    /// The messages that were chosen for the slot that was made, one for each node. That of a node whose
    /// frame carries none in it means nothing.
    pub fn chosen(&self) -> &[Chosen]
        ensures { result.now ≡ self.now.outgoing.chosen.items }
    {
        self.outgoing.chosen()
    }

    /// Goes on behind the slot that was made. Returns what is left of the text behind its lines.
    pub fn pass<'a>(&mut self, list: &Medl, script: &Script, slot: u32, text: &'a [u8]) -> &'a [u8]
        requires list { IsValid list.now }
        requires script { IsValidScript list.now script.now }
        requires slot { slot < script.now.slots }
        requires made { IsMadeSomewhere self.old list.now script.now slot text.now }
        ensures plant { self.new.plant ≡ self.old.plant }
        ensures at { (whole : Numbers) → IsMade self.old list.now script.now whole slot text.now
            → IsTraceAt self.new list.now script.now whole (slot + 1) result.now }
    {
        let writes = write_all(&mut self.outgoing, list, script, slot);
        skip_slot(list, script, slot, text, writes)
    }
}
