//! What hosts have written for their nodes to send.
ghost use Rattle.std.specs.Prelude.{◌≡◌, ℕ, ◌+◌, ◌<◌, ◌^◌, length, get_or, slice_get, slice_set, option_map};
ghost use Rattle.std.specs.Prelude.{IfOk, Some, if◌then◌else◌, ◌==◌};
ghost use Rattle.ttp_world.specs.declared.medl.Medl.{Medl as List_};
ghost use Rattle.ttp_world.specs.declared.script.Script.{Script as Said};
ghost use Rattle.ttp_world.specs.Medl.{IsValid};
ghost use Rattle.ttp_world.specs.Script.{messages_written};
ghost use Rattle.trace_check.specs.Outgoing.{Chooses, HoldsNewest, number_by_text, number_taken, oldest_number};

use crate::text::number_by_line;
use line_text::cut_line;
use std::alloc::Global;
use ttp_base::{List, Memory};
use ttp_world::{Chosen, Medl, Payload, Script};

// The message that a node's host writes in a slot as one of several, the first of which is 0.
fn written_in<'a>(script: &'a Script, slot: u32, host: u8, place: u64) -> Option<&'a Payload>
    ensures { option_map (λ p. p.now) result ≡ slice_get (messages_written script.now host slot) place }
{
    let places = script.writes(slot);
    let mut before = place;
    for at in places {
        if let Some(written) = script.write(*at) {
            if written.host == host {
                if before == 0 {
                    return Some(written.payload);
                }
                before -= 1;
            }
        }
    }
    None
}

/// The messages that nodes can send: of each node's host the newest, and in a slot in place of it the one
/// that is chosen.
#[derive(Drop)]
pub struct Outgoing {
    // The number of each host's newest message.
    newest: Vec<u64>,
    // The message that each node sends, if it sends one.
    chosen: Vec<Chosen>,
}

impl Outgoing {
    /// Each host has written nothing but the zeros. Only this call takes memory; `Memory` where that was
    /// refused.
    pub fn new(alloc: Global, list: &Medl) -> Result<Outgoing, Memory>
        requires { IsValid list.now }
        ensures { (script : Said) → IfOk result (λ o. HoldsNewest o list.now script 0) }
    {
        let mut newest = List::new(alloc);
        let mut chosen = List::new(alloc);
        for node in 0..list.nodes() {
            newest.push(0u64)?;
            let payload = Payload::zeros(list.slots.get(usize::from(node)).payload);
            chosen.push(Chosen { number: 0, payload })?;
        }
        Ok(Outgoing {
            newest: newest.into_vec(),
            chosen: chosen.into_vec(),
        })
    }

    /// The messages for a slot.
    pub fn chosen(&self) -> &[Chosen]
        ensures { result.now ≡ self.now.chosen.items }
    {
        &self.chosen
    }

    // Chooses the message of this number for a node, if its host writes it in the slot. So far its host's
    // newest message before the slot is chosen for it.
    fn take(&mut self, script: &Script, slot: u32, node: u8, number: u64)
        requires newest { node < length self.old.newest.items }
        requires chosen { node < length self.old.chosen.items }
        ensures { (list : List_) (f : ℕ → ℕ) → Chooses self.old list script.now slot f → node < length list.slots
            → f node ≡ oldest_number list script.now slot node
            → Chooses self.new list script.now slot
            (λ k. if k == node then number_taken list script.now slot node (Some number) else f k) }
    {
        let newest = self.newest[usize::from(node)];
        if number <= newest {
            return;
        }
        if let Some(payload) = written_in(script, slot, node, number - newest - 1) {
            self.chosen[usize::from(node)] = Chosen {
                number,
                payload: Payload::of(payload.bytes()),
            };
        }
    }

    /// Chooses the messages that the lines of the nodes name in a slot with which a text begins, where
    /// these are legal. Only the lines of nodes whose hosts write in the slot are looked at: each other one
    /// sends its host's newest message.
    pub fn choose(&mut self, list: &Medl, script: &Script, slot: u32, text: &[u8])
        requires list { IsValid list.now }
        requires holds { HoldsNewest self.old list.now script.now slot }
        ensures { Chooses self.new list.now script.now slot (number_by_text list.now script.now slot text.now) }
    {
        if script.writes(slot).is_empty() {
            return;
        }
        let mut rest = text;
        for node in 0..list.nodes() {
            let (line, behind) = cut_line(rest);
            rest = behind;
            if written_in(script, slot, node, 0).is_some() {
                if let Some(number) = number_by_line(line) {
                    self.take(script, slot, node, number);
                }
            }
        }
    }

    /// A host writes a message. Returns its number.
    pub fn write(&mut self, host: u8, payload: &Payload) -> u64
        requires newest { host < length self.old.newest.items }
        requires chosen { host < length self.old.chosen.items }
        requires few { get_or self.old.newest.items host 0 + 1 < 2 ^ 64 }
        ensures number { result ≡ get_or self.old.newest.items host 0 + 1 }
        ensures newest { self.new.newest.items ≡ slice_set self.old.newest.items host result }
        ensures chosen { self.new.chosen.items
            ≡ slice_set self.old.chosen.items host (record { number = result; payload = payload.now }) }
    {
        let number = self.newest[usize::from(host)] + 1;
        self.newest[usize::from(host)] = number;
        self.chosen[usize::from(host)] = Chosen {
            number,
            payload: Payload::of(payload.bytes()),
        };
        number
    }
}
