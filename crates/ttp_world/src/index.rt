//! The index by which events are found.
ghost use Rattle.std.specs.Prelude.{◌≡◌, ℕ, ◌-◌, ◌<◌, ◌≤◌, [], true, length, slice_index_or, IfOk};
ghost use Rattle.std.specs.List.Sorted.{IsNonDecreasingBy};
ghost use Rattle.ttp_world.specs.Index.{first_step, no_incidents, incidents_before, step_is_by, AreFew};
ghost use Rattle.ttp_world.specs.Index.{IsIndexOf};
ghost use Rattle.ttp_world.specs.Sorted.{key_of, SplitsAt};

use crate::events::{FlippedBit, Incidents};
use crate::flips::flips_of;
use crate::host_lines::{HostRead, reads_of, writes_of};
use crate::points::sorted_steps;
use crate::script::{Channels, Event};
use crate::sorted::Sorted;
use std::alloc::Global;
use ttp_base::{List, Memory};

/// How many keys a node has: one for each slot.
pub(crate) const NODE_KEYS: u64 = 4_294_967_296;

// How many steps a look-up goes on from where it begins.
const FEW: usize = 2;

/// What the events make of a node from a key on, up to the key of the next step.
#[derive(Clone, Copy)]
pub(crate) struct Step {
    pub(crate) key: u64,
    pub(crate) incidents: Incidents,
}

/// The steps of all nodes, the flipped bits, and what hosts do, each in the order of its keys.
#[derive(Drop)]
pub(crate) struct Index {
    pub(crate) steps: List<Step>,
    pub(crate) flips: Sorted<FlippedBit>,
    /// The places of the writes among the events, by their slots.
    pub(crate) writes: Sorted<usize>,
    /// The reads, by their slots.
    pub(crate) reads: Sorted<HostRead>,
}

/// The key of a node and slot.
pub(crate) fn key_of(node: u8, slot: u32) -> u64
    ensures { result ≡ key_of node slot }
{
    u64::from(node) * NODE_KEYS + u64::from(slot)
}

/// Nothing happens.
pub fn no_incidents() -> Incidents
    ensures { result ≡ no_incidents }
{
    let none = Channels { a: false, b: false };
    Incidents {
        send_silence: none,
        send_noise: none,
        receive_silence: none,
        receive_noise: none,
        has_flip: false,
        armed: false,
        error: 0,
        jump: 0,
    }
}

// How many of all steps have keys up to this one.
fn all_up_to(steps: &[Step], key: u64) -> usize
    requires { IsNonDecreasingBy (λ step. step.key) steps.now }
    ensures bound { result ≤ length steps.now }
    ensures place { SplitsAt (step_is_by key) steps.now result }
{
    steps.partition_point(|step| step.key <= key)
}

// The place that is reached from another one over a few steps with keys up to this one.
fn advanced(steps: &[Step], from: usize, key: u64) -> usize
    ensures { result ≤ length steps.now }
{
    let mut place = from.min(steps.len());
    for _ in 0..FEW {
        if place < steps.len() && steps[place].key <= key {
            place += 1;
        }
    }
    place
}

// Whether the last step before a place has a key up to this one, if there is a step.
fn is_behind(steps: &[Step], place: usize, key: u64) -> bool
    requires { place ≤ length steps.now }
    ensures { result ≡ true → 1 ≤ place → (slice_index_or steps.now (place - 1) first_step).key ≤ key }
{
    if place == 0 {
        return true;
    }
    steps[place - 1].key <= key
}

// Whether the step at a place has a key above this one, if there is a step.
fn is_before(steps: &[Step], place: usize, key: u64) -> bool
    requires { place ≤ length steps.now }
    ensures { result ≡ true → place < length steps.now → key < (slice_index_or steps.now place first_step).key }
{
    if place == steps.len() {
        return true;
    }
    key < steps[place].key
}

// Whether the steps with keys up to this one end at a place.
fn is_end(steps: &[Step], place: usize, key: u64) -> bool
    requires { IsNonDecreasingBy (λ step. step.key) steps.now }
    ensures bound { result ≡ true → place ≤ length steps.now }
    ensures place { result ≡ true → SplitsAt (step_is_by key) steps.now place }
{
    if place <= steps.len() && is_behind(steps, place, key) && is_before(steps, place, key) {
        return true;
    }
    false
}

/// How many steps have keys up to this one. They are looked for at this place first, then shortly behind
/// it, and then among all.
pub(crate) fn steps_up_to(steps: &[Step], near: usize, key: u64) -> usize
    requires { IsNonDecreasingBy (λ step. step.key) steps.now }
    ensures bound { result ≤ length steps.now }
    ensures place { SplitsAt (step_is_by key) steps.now result }
{
    // Here a compiler sees that a script without events needs no look-ups.
    if steps.is_empty() {
        return 0;
    }
    if is_end(steps, near, key) {
        return near;
    }
    let place = advanced(steps, near, key);
    if is_end(steps, place, key) {
        place
    } else {
        all_up_to(steps, key)
    }
}

/// What the newest of so many steps says.
pub(crate) fn incidents_before(steps: &[Step], place: usize) -> Incidents
    requires { place ≤ length steps.now }
    ensures { result ≡ incidents_before steps.now place }
{
    if place == 0 {
        no_incidents()
    } else {
        steps[place - 1].incidents
    }
}

/// The first slot for which the step at a place tells something else of a node, or the largest number where
/// there is no such step: the node's slots before it have keys before the step.
pub(crate) fn slot_of_step(steps: &[Step], place: usize, node: u8) -> u32
    requires { place ≤ length steps.now }
    ensures before { (slot : ℕ) → slot < result → place < length steps.now
        → key_of node slot < (slice_index_or steps.now place first_step).key }
    ensures behind { (slot : ℕ) → slot < u32.MAX
        → (place < length steps.now → key_of node slot < (slice_index_or steps.now place first_step).key)
        → slot < result }
{
    if place == steps.len() {
        return u32::MAX;
    }
    let slots = steps[place].key.saturating_sub(key_of(node, 0));
    slots.min(u64::from(u32::MAX)) as u32
}

impl Index {
    /// The index of no events. Takes no memory.
    pub(crate) fn empty(alloc: Global) -> Index
        ensures { IsIndexOf [] result }
    {
        Index {
            steps: List::new(alloc),
            flips: Sorted::empty(alloc),
            writes: Sorted::empty(alloc),
            reads: Sorted::empty(alloc),
        }
    }

    /// The index of these events.
    pub(crate) fn of(alloc: Global, events: &[Event]) -> Result<Index, Memory>
        requires { AreFew events.now }
        ensures { IfOk result (λ index. IsIndexOf events.now index) }
    {
        let steps = sorted_steps(alloc, events)?;
        let flips = Sorted::of(alloc, flips_of(alloc, events)?)?;
        let writes = Sorted::of(alloc, writes_of(alloc, events)?)?;
        let reads = Sorted::of(alloc, reads_of(alloc, events)?)?;
        Ok(Index {
            steps,
            flips,
            writes,
            reads,
        })
    }
}
