//! What was seen of a run so far.
ghost use Rattle.std.specs.Prelude.{◌≡◌, ◌+◌, ◌<◌, ◌≤◌, [], ◌++◌, ◌||◌, ℕ, Bool, true, None, is_some, length, map, filter, get_or};
ghost use Rattle.std.specs.Prelude.{IfOk, OnOk};
ghost use Rattle.std.specs.List.{filter_map, cons_option};
ghost use Rattle.ttp_base.specs.NodeSet.{below, has_node};
ghost use Rattle.ttp_world.specs.declared.script.Script.{Script};
ghost use Rattle.ttp_world.specs.Medl.{IsValid};
ghost use Rattle.ttp_world.specs.Returning.{is_sound};
ghost use Rattle.ttp_world.specs.Script.{IsValidScript};
ghost use Rattle.campaign.specs.Cost.{cost_of, leaves, leave_after, span_with, span_after};
ghost use Rattle.campaign.specs.Tried.{with_fault};
ghost use Rattle.ttp_world.specs.ZerosWorld.{zeros_world};
ghost use Rattle.run_costs.specs.Later.{comes_later};
ghost use Rattle.run_costs.specs.States.{state_at, AreShown};
ghost use Rattle.run_costs.specs.Told.{is_hurt_by, AreSound, IsSeenOf};

use crate::seen_costs::faulty::Faulty;
use crate::seen_costs::sets::{are_split, memberships};
use campaign::{Cost, Leave, Span};
use hypothesis::is_sound;
use std::alloc::Global;
use ttp_base::{List, Memory, NodeSet};
use ttp_world::{Entry, Event, Medl, NodeState, Script};

/// What was seen of a run so far. It takes no memory.
#[derive(Clone, Copy)]
pub struct SeenCost {
    faulty: Faulty,
    // For each node the newest time that it left.
    left: [Option<Leave>; 24],
    hurt: NodeSet,
    split: Option<Span>,
}

// The newest time that a node left, with one slot more.
fn leave_after(node: u8, slot: u32, entry: &Entry, before: Option<Leave>) -> Option<Leave>
    ensures { result ≡ leave_after node slot entry.now before }
{
    match entry {
        Entry::Left { reason, .. } => Some(Leave {
            node,
            slot,
            reason: *reason,
        }),
        _ => before,
    }
}

// Those of all nodes.
fn note_leaves(left: &mut [Option<Leave>; 24], states: &[NodeState], slot: u32)
    requires { length states.now ≤ 24 }
    ensures { (k : ℕ) → k < length states.now
        → get_or left.new k None ≡ leave_after k slot (state_at states.now k).entry (get_or left.old k None) }
{
    for (k, state) in states.iter().enumerate() {
        left[k] = leave_after(k as u8, slot, &state.entry, left[k]);
    }
}

// Whether a node left in a slot after which it was correct.
fn is_hurt(entry: &Entry, is_correct: bool) -> bool
    ensures { result ≡ is_hurt_by entry.now is_correct }
{
    matches!(entry, Entry::Left { .. }) && is_correct
}

// These nodes, and those that were hurt in a slot after which these are correct.
fn hurt_with(hurt: NodeSet, states: &[NodeState], correct: NodeSet) -> NodeSet
    requires { length states.now ≤ 24 }
    ensures { (p : ℕ → Bool) → hurt ≡ filter p (below (length states.now))
        → result ≡ filter (λ k. is_hurt_by (state_at states.now k).entry (has_node correct k) || p k)
        (below (length states.now)) }
{
    let mut all = hurt;
    for (k, state) in states.iter().enumerate() {
        if is_hurt(&state.entry, correct.has(k as u8)) {
            all = all.with(k as u8);
        }
    }
    all
}

// The nodes that are on in a slot and not faulty after it.
fn correct_in(list: &Medl, script: &Script, faulty: NodeSet, slot: u32) -> NodeSet
    requires valid { IsValid list.now }
    requires script { IsValidScript list.now script.now }
    ensures { result ≡ filter (is_sound script.now faulty slot) (below (length list.now.slots)) }
{
    let mut correct = NodeSet::empty();
    for node in 0..list.nodes() {
        if is_sound(script, faulty, slot, node) {
            correct = correct.with(node);
        }
    }
    correct
}

// The first and the last of some slots, with one more.
fn span_with(slot: u32, before: Option<Span>) -> Span
    ensures { result ≡ span_with slot before }
{
    match before {
        Some(span) => Span {
            first: span.first,
            last: slot,
        },
        None => Span {
            first: slot,
            last: slot,
        },
    }
}

fn span_after(slot: u32, is_split: bool, before: Option<Span>) -> Option<Span>
    ensures { result ≡ span_after slot is_split before }
{
    if is_split {
        Some(span_with(slot, before))
    } else {
        before
    }
}

// Adds the newest time that a node left, if it ever did.
fn push_leave(leaves: &mut List<Leave>, leave: Option<Leave>) -> Result<(), Memory>
    ensures { OnOk result (leaves.new ≡ leaves.old ++ cons_option leave []) }
{
    match leave {
        Some(leave) => leaves.push(leave),
        None => Ok(()),
    }
}

// The nodes that left, in their order.
fn leaves(alloc: Global, left: &[Option<Leave>; 24], nodes: u8) -> Result<List<Leave>, Memory>
    requires { nodes ≤ 24 }
    ensures { IfOk result (λ leaves. leaves ≡ filter_map (λ k. get_or left.now k None) (below nodes)) }
{
    let mut leaves = List::new(alloc);
    for node in 0..nodes {
        push_leave(&mut leaves, left[usize::from(node)])?;
    }
    Ok(leaves)
}

// The nodes that ever left.
fn left_nodes(left: &[Option<Leave>; 24], nodes: u8) -> NodeSet
    requires { nodes ≤ 24 }
    ensures { result ≡ filter (λ k. is_some (get_or left.now k None)) (below nodes) }
{
    let mut all = NodeSet::empty();
    for node in 0..nodes {
        if left[usize::from(node)].is_some() {
            all = all.with(node);
        }
    }
    all
}

impl SeenCost {
    /// Before the first slot.
    pub fn new(list: &Medl, script: &Script) -> SeenCost
        requires valid { IsValid list.now }
        requires script { IsValidScript list.now script.now }
        ensures { IsSeenOf list.now script.now 0 result }
    {
        SeenCost {
            faulty: Faulty::new(list, script),
            left: [None; 24],
            hurt: NodeSet::empty(),
            split: None,
        }
    }

    /// The next slot, by what is shown of all nodes after it. Returns the nodes that are correct after it.
    pub fn add(&mut self, list: &Medl, script: &Script, states: &[NodeState], slot: u32) -> NodeSet
        requires valid { IsValid list.now }
        requires script { IsValidScript list.now script.now }
        requires slot { slot < script.now.slots }
        requires seen { IsSeenOf list.now script.now slot self.old }
        requires shown { AreShown list.now script.now (zeros_world list.now script.now (slot + 1)) states.now }
        ensures seen { IsSeenOf list.now script.now (slot + 1) self.new }
        ensures correct { AreSound list.now script.now slot result }
    {
        let faulty = self.faulty.step(list, script, slot);
        let correct = correct_in(list, script, faulty, slot);
        note_leaves(&mut self.left, states, slot);
        self.hurt = hurt_with(self.hurt, states, correct);
        self.split = span_after(slot, are_split(states, correct), self.split);
        correct
    }

    /// What was seen of the same slots, where the run is that of a script with one event more, which comes
    /// later. It takes no memory, and for a loss no time; for a jump the faulty nodes of these slots are told
    /// again.
    pub fn with_later(&self, list: &Medl, more: &Script, event: &Event, slots: u32) -> SeenCost
        requires valid { IsValid list.now }
        requires script { IsValidScript list.now more.now }
        requires slots { slots ≤ more.now.slots }
        ensures { (script : Script) → more.now ≡ with_fault script event.now → comes_later slots event.now ≡ true
            → IsSeenOf list.now script slots self.now → IsSeenOf list.now more.now slots result }
    {
        SeenCost {
            faulty: self.faulty.with_later(list, more, event, slots),
            left: self.left,
            hurt: self.hurt,
            split: self.split,
        }
    }

    /// The nodes that left so far.
    pub fn left(&self, list: &Medl) -> NodeSet
        requires { IsValid list.now }
        ensures { (script : Script) (slots : ℕ) → IsSeenOf list.now script slots self.now
            → result ≡ map (λ leave. leave.node) (leaves list.now (zeros_world list.now script slots)) }
    {
        left_nodes(&self.left, list.nodes())
    }

    /// What the run cost so far, where these are the states after its newest slot.
    ///
    /// # Errors
    ///
    /// Where memory was refused.
    pub fn cost(&self, alloc: Global, list: &Medl, states: &[NodeState]) -> Result<Cost, Memory>
        requires { IsValid list.now }
        ensures { (script : Script) (slots : ℕ) → IsSeenOf list.now script slots self.now
            → AreShown list.now script (zeros_world list.now script slots) states.now
            → IfOk result (λ cost. cost ≡ cost_of list.now script (zeros_world list.now script slots)) }
    {
        Ok(Cost {
            left: leaves(alloc, &self.left, list.nodes())?,
            hurt: self.hurt,
            split: self.split,
            end: memberships(alloc, states)?,
        })
    }
}
