//! Memberships, each told once.
ghost use Rattle.std.specs.Prelude.{◌≡◌, ◌≤◌, [], ◌∷◌, ◌++◌, List as Items, ℕ, true, length, IfOk, OnOk};
ghost use Rattle.std.specs.List.{list_any};
ghost use Rattle.std.specs.Str.{bytes_eq};
ghost use Rattle.ttp_base.specs.NodeSet.{has_node};
ghost use Rattle.campaign.specs.Cost.{each_once, has_two};
ghost use Rattle.run_costs.specs.States.{firm_of, firm_sets, IsHeld};

use std::alloc::Global;
use ttp_base::{List, Memory, NodeSet};
use ttp_world::{Ack, NodeState, Phase};

// The members of a node that is one of those meant, where it is active and not in doubt.
fn firm_members(state: &NodeState, is_meant: bool) -> Option<NodeSet>
    ensures { result ≡ firm_of state.now is_meant }
{
    match (state.phase, state.ack) {
        (Phase::Active, Ack::Closed | Ack::First) if is_meant => Some(state.members),
        _ => None,
    }
}

// Whether two memberships are the same.
fn are_same(one: NodeSet, other: NodeSet) -> bool
    ensures { result ≡ bytes_eq one other }
{
    one == other
}

/// So much of some memberships as tells whether they are two or more.
#[derive(Clone, Copy)]
struct Held {
    first: Option<NodeSet>,
    are_two: bool,
}

impl Held {
    fn none() -> Held
        ensures { IsHeld result [] }
    {
        Held {
            first: None,
            are_two: false,
        }
    }

    // One membership more.
    fn add(&mut self, set: NodeSet)
        ensures { (sets : Items (Items ℕ)) → IsHeld self.old sets → IsHeld self.new (sets ++ set ∷ []) }
    {
        match self.first {
            Some(first) => self.are_two = self.are_two || !are_same(first, set),
            None => self.first = Some(set),
        }
    }
}

/// Whether those of some nodes hold two memberships or more that are active and not in doubt.
pub(crate) fn are_split(states: &[NodeState], among: NodeSet) -> bool
    requires { length states.now ≤ 24 }
    ensures { result ≡ has_two (each_once (firm_sets states.now (has_node among) (length states.now))) }
{
    let mut held = Held::none();
    for (k, state) in states.iter().enumerate() {
        if let Some(members) = firm_members(state, among.has(k as u8)) {
            held.add(members);
        }
    }
    held.are_two
}

// Whether a membership is one of these.
fn has_set(sets: &[NodeSet], set: NodeSet) -> bool
    ensures { result ≡ list_any (bytes_eq set) sets.now }
{
    for other in sets {
        if are_same(set, *other) {
            return true;
        }
    }
    false
}

// Adds a membership, unless it is there.
fn add_once(sets: &mut List<NodeSet>, set: NodeSet) -> Result<(), Memory>
    ensures { (all : Items (Items ℕ)) → sets.old ≡ each_once all
        → OnOk result (sets.new ≡ each_once (all ++ set ∷ [])) }
{
    if has_set(sets.as_slice(), set) {
        return Ok(());
    }
    sets.push(set)
}

/// The memberships that nodes hold that are active and not in doubt, each once.
pub(crate) fn memberships(alloc: Global, states: &[NodeState]) -> Result<List<NodeSet>, Memory>
    ensures { IfOk result (λ sets. sets ≡ each_once (firm_sets states.now (λ k. true) (length states.now))) }
{
    let mut sets = List::new(alloc);
    for (k, state) in states.iter().enumerate() {
        if let Some(members) = firm_members(state, true) {
            add_once(&mut sets, members)?;
        }
    }
    Ok(sets)
}
