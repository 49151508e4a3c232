//! The slots of a trace, one after another.
ghost use Rattle.std.specs.Prelude.{◌≡◌, ◌∷◌, ◌≤◌, [], length, is_some, IfSome, IsNone, IsTrue};
ghost use Rattle.ttp_base.specs.Text.{lines_of};
ghost use Rattle.line_text.specs.Labels.{after_label};
ghost use Rattle.whole_trace.specs.Steps.{GoesOn, host_front, is_node_due, IsHostPlace, IsHostStep, IsInSlot};
ghost use Rattle.whole_trace.specs.Steps.{IsNodeStep, IsSlotPlace};
ghost use Rattle.whole_trace.specs.Whole.{SlotLines, slots_from, with_shown_node};

use crate::alike::Alike;
use crate::due::Due;
use crate::place::{Place, Step, behind_node};
use crate::shown::{HostLine, NodeShown};
use line_reader::TraceLine;
use line_text::after_label;
use std::marker::Model;
use ttp_base::Line;

// The most nodes of a trace.
const MOST_NODES: usize = 24;

// Whether a text may begin with the line of a host in this slot.
#[tactic(auto, using(ttp_base::proofs::Room::room))]
fn may_be_host(slot: u32, text: &[u8]) -> bool
    ensures { result ≡ is_some (after_label (host_front slot) text.now) }
{
    let mut front = Line::new();
    front.put_text("slot ");
    front.put_number(u64::from(slot));
    front.put_text(" host ");
    after_label(front.bytes(), text).is_some()
}

// Whether no line of a host comes next, by what the lines of hosts begin with.
fn is_past_hosts(at: &Place) -> bool
    ensures { IsTrue result → GoesOn at.now.due (lines_of at.now.rest.now)
        → (slots_from (lines_of at.now.rest.now)).front.hosts ≡ [] }
{
    match at.due {
        Due::Host { slot, .. } => !may_be_host(slot, at.rest),
        _ => false,
    }
}

/// The lines of hosts in a slot that are still to come. Contracts see it as the list of them.
#[derive(Drop)]
pub struct Hosts<'a> {
    at: Place<'a>,
}

impl<'a> Model for Hosts<'a> {
    ghost use Rattle.std.specs.Prelude.{List};
    ghost use Rattle.ttp_base.specs.Text.{lines_of};
    ghost use Rattle.whole_trace.specs.declared.shown.HostLine.{HostLine};
    ghost use Rattle.whole_trace.specs.Steps.{IsHostPlace};
    ghost use Rattle.whole_trace.specs.Whole.{slots_from};

    ghost Value = { List HostLine };

    ghost view = { λ h. (slots_from (lines_of h.at.rest.now)).front.hosts };

    ghost invariant = { λ h. IsHostPlace h.at.due (lines_of h.at.rest.now) };
}

impl<'a> Hosts<'a> {
    /// The next line, if one is left. Takes no memory.
    pub fn next_line(&mut self) -> Option<HostLine>
        ensures some { IfSome result (λ line. self.old ≡ line ∷ self.new) }
        ensures none { IsNone result → self.old ≡ [] }
    {
        if is_past_hosts(&self.at) {
            return None;
        }
        let Step { line, behind } = self.at.next()?;
        match line {
            TraceLine::Write { host, number, .. } => {
                self.at = behind;
                Some(HostLine::Write { host, number })
            }
            TraceLine::Read {
                host,
                source,
                number,
                payload,
                ..
            } => {
                self.at = behind;
                Some(HostLine::Read {
                    host,
                    source,
                    number,
                    payload,
                })
            }
            _ => None,
        }
    }
}

/// The lines of a slot. Contracts see it as those of its nodes and those of hosts.
#[derive(Drop)]
pub struct SlotShown<'a> {
    count: usize,
    nodes: [NodeShown; MOST_NODES],
    // Before the first line of a host.
    at: Place<'a>,
}

impl<'a> Model for SlotShown<'a> {
    ghost use Rattle.std.specs.Prelude.{take};
    ghost use Rattle.ttp_base.specs.Text.{lines_of};
    ghost use Rattle.whole_trace.specs.Steps.{IsShown};
    ghost use Rattle.whole_trace.specs.Whole.{SlotLines, slots_from};

    ghost Value = { SlotLines };

    ghost view = { λ s. record {
      nodes = take s.count s.nodes;
      hosts = (slots_from (lines_of s.at.rest.now)).front.hosts;
    } };

    ghost invariant = { λ s. IsShown s.count s.at.due (lines_of s.at.rest.now) };
}

impl<'a> SlotShown<'a> {
    /// What the lines of the nodes say, the first one of node 0.
    pub fn nodes(&self) -> &[NodeShown]
        ensures value { result.now ≡ self.now.nodes }
        ensures few { length result.now ≤ 24 }
    {
        &self.nodes[..self.count]
    }

    /// What the lines of hosts say.
    pub fn hosts(&self) -> Hosts<'a>
        ensures { result ≡ self.now.hosts }
    {
        Hosts { at: self.at }
    }
}

// The next line of a node, behind lines of hosts.
#[inline(always)]
fn next_node<'a>(at: Place<'a>, alike: &mut Alike) -> Option<(NodeShown, Place<'a>)>
    ensures some { IfSome result (λ r. IsNodeStep at.entry.due at.entry.rest.now r.0 r.1.due r.1.rest.now) }
    ensures node { IsNone result → IsTrue (is_node_due at.entry.due)
        → ¬ (GoesOn at.entry.due (lines_of at.entry.rest.now)) }
    ensures none { IsNone result → IsSlotPlace at.entry.due (lines_of at.entry.rest.now)
        → (slots_from (lines_of at.entry.rest.now)).front.hosts ≡ []
        → (slots_from (lines_of at.entry.rest.now)).slots ≡ [] }
{
    if let Some(found) = at.next_shown(alike) {
        return Some(found);
    }
    let Step { line, behind } = at.next()?;
    match line {
        TraceLine::Node {
            word,
            peer,
            message,
            members,
            accepted,
            rejected,
            ack,
            offset,
            ..
        } => {
            let node = NodeShown {
                word,
                peer,
                message,
                members,
                accepted,
                rejected,
                ack,
                offset,
            };
            Some((node, behind))
        }
        _ => None,
    }
}

// The lines of a slot, from behind that of node 0, and the place behind those of its nodes.
fn shown_from<'a>(
    first: NodeShown,
    from: Place<'a>,
    alike: &mut Alike,
) -> (SlotShown<'a>, Place<'a>)
    requires { IsInSlot 1 from.due (lines_of from.rest.now) }
    ensures slot { result.0 ≡ with_shown_node first (slots_from (lines_of from.entry.rest.now)).front }
    ensures others { (slots_from (lines_of result.1.rest.now)).slots ≡ (slots_from (lines_of from.entry.rest.now)).slots }
    ensures place { IsSlotPlace result.1.due (lines_of result.1.rest.now) }
{
    let mut nodes = [first; MOST_NODES];
    let mut count = 1;
    let mut at = from;
    while let Due::Node { .. } = at.due {
        match next_node(at, alike) {
            Some((node, behind)) => {
                nodes[count] = node;
                count += 1;
                at = behind;
            }
            None => unreachable!(),
        }
    }
    (SlotShown { count, nodes, at }, at)
}

// The place behind the lines of a slot's nodes, from behind that of node 0. Only the ends of these lines are looked for.
fn behind_nodes<'a>(from: Place<'a>) -> Place<'a>
    requires { IsInSlot 1 from.due (lines_of from.rest.now) }
    ensures hosts { (slots_from (lines_of result.rest.now)).front.hosts ≡ (slots_from (lines_of from.entry.rest.now)).front.hosts }
    ensures others { (slots_from (lines_of result.rest.now)).slots ≡ (slots_from (lines_of from.entry.rest.now)).slots }
    ensures place { IsHostPlace result.due (lines_of result.rest.now) }
    ensures between { IsSlotPlace result.due (lines_of result.rest.now) }
{
    let mut at = from;
    while let Due::Node { head, slot, node } = at.due {
        at = behind_node(head, slot, node, at.rest);
    }
    at
}

// The place behind a line of a host, if one comes next.
fn behind_host<'a>(at: Place<'a>) -> Option<Place<'a>>
    ensures some { IfSome result (λ p. IsHostStep at.entry.due at.entry.rest.now p.due p.rest.now) }
    ensures none { IsNone result → IsSlotPlace at.entry.due (lines_of at.entry.rest.now)
        → (slots_from (lines_of at.entry.rest.now)).front.hosts ≡ [] }
{
    if is_past_hosts(&at) {
        return None;
    }
    let Step { line, behind } = at.next()?;
    match line {
        TraceLine::Write { .. } | TraceLine::Read { .. } => Some(behind),
        _ => None,
    }
}

// The place before the next slot or the test, behind the lines of hosts.
fn behind_hosts<'a>(from: Place<'a>) -> Place<'a>
    requires { IsSlotPlace from.due (lines_of from.rest.now) }
    ensures slots { (slots_from (lines_of result.rest.now)).slots ≡ (slots_from (lines_of from.entry.rest.now)).slots }
    ensures hosts { (slots_from (lines_of result.rest.now)).front.hosts ≡ [] }
    ensures place { IsSlotPlace result.due (lines_of result.rest.now) }
{
    let mut at = from;
    while let Some(behind) = behind_host(at) {
        at = behind;
    }
    at
}

/// The slots of a trace that are still to come, the oldest one first. Contracts see it as the list of them.
#[derive(Drop)]
pub struct Slots<'a> {
    at: Place<'a>,
    alike: Alike,
}

impl<'a> Model for Slots<'a> {
    ghost use Rattle.std.specs.Prelude.{List};
    ghost use Rattle.ttp_base.specs.Text.{lines_of};
    ghost use Rattle.whole_trace.specs.Steps.{IsSlotPlace};
    ghost use Rattle.whole_trace.specs.Whole.{SlotLines, slots_from};

    ghost Value = { List SlotLines };

    ghost view = { λ s. (slots_from (lines_of s.at.rest.now)).slots };

    ghost invariant = { λ s. IsSlotPlace s.at.due (lines_of s.at.rest.now) };
}

impl<'a> Slots<'a> {
    /// The same slots once more, for a second walk from here on.
    pub fn again(&self) -> Slots<'a>
        ensures { result ≡ self.now }
    {
        Slots {
            at: self.at,
            alike: Alike::new(),
        }
    }

    /// The slots from a place on.
    pub(crate) fn starting(at: Place<'a>) -> Slots<'a>
        requires { IsSlotPlace at.due (lines_of at.rest.now) }
        ensures { result ≡ (slots_from (lines_of at.entry.rest.now)).slots }
    {
        Slots {
            at,
            alike: Alike::new(),
        }
    }

    /// What hosts do in the next slot, if one is left. Of what its nodes do nothing is read but the line of node 0, so
    /// this costs a fraction of [`Slots::next_slot`]. Takes no memory.
    pub fn next_hosts(&mut self) -> Option<Hosts<'a>>
        ensures some { IfSome result (λ hosts. (slot : SlotLines) × (self.old ≡ slot ∷ self.new) × (hosts ≡ slot.hosts)) }
        ensures none { IsNone result → self.old ≡ [] }
    {
        let at = behind_hosts(self.at);
        match next_node(at, &mut self.alike) {
            Some((_, behind)) => {
                let hosts = behind_nodes(behind);
                self.at = hosts;
                Some(Hosts { at: hosts })
            }
            None => None,
        }
    }

    /// The lines of the next slot, if one is left. Takes no memory.
    pub fn next_slot(&mut self) -> Option<SlotShown<'a>>
        ensures some { IfSome result (λ slot. self.old ≡ slot ∷ self.new) }
        ensures none { IsNone result → self.old ≡ [] }
    {
        let at = behind_hosts(self.at);
        match next_node(at, &mut self.alike) {
            Some((node, behind)) => {
                let (slot, rest) = shown_from(node, behind, &mut self.alike);
                self.at = rest;
                Some(slot)
            }
            None => None,
        }
    }
}
