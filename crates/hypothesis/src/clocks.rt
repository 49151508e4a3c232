//! Clocks and the window: each drift and each sum of reading errors is within its bound, and the
//! window is as wide as a deviation between correct nodes needs.
ghost use Rattle.std.specs.Prelude.{◌≡◌, ℕ, ◌*◌, ◌<◌, ◌≤◌, pos, ◌*ℤ◌, ◌≤ℤ◌, true, length, All, is_some, IfSome};
ghost use Rattle.std.specs.List.{list_any};
ghost use Rattle.ttp_world.specs.Hypothesis.{is_within_bound, drifts_hold, errors_hold_in, clocks_broken};
ghost use Rattle.ttp_world.specs.Hypothesis.{window_broken};
ghost use Rattle.ttp_world.specs.Medl.{IsWithin, IsValid};
ghost use Rattle.ttp_world.specs.Returning.{needed_back, back_window_broken};
ghost use Rattle.ttp_world.specs.Script.{drift_of, IsWithinSpan, IsValidScript};
ghost use Rattle.hypothesis.specs.Errors.{errors_hold_within, is_error};

use crate::incidents::{LastLookUps, no_look_ups};
use precision::needed;
use ttp_world::{DRIFT_LIMIT, Event, Medl, Script};

// Whether a number lies within plus or minus a bound.
fn is_within_bound(bound: i64, value: i64) -> bool
    requires { pos 0 ≤ℤ bound }
    ensures { result ≡ is_within_bound bound value }
{
    -bound <= value && value <= bound
}

// A node's drift, in microticks a slot.
fn drift_of(script: &Script, node: u8) -> i64
    requires count { node < length script.now.drift }
    requires bound { All (IsWithinSpan DRIFT_LIMIT) script.now.drift }
    ensures { result ≡ drift_of script.now node }
{
    *script.drift.get(node as usize)
}

/// Whether each node's drift in a slot is no further from 0 than the list's bound, in microticks.
/// Takes no memory.
pub fn drifts_hold(list: &Medl, script: &Script) -> bool
    requires valid { IsValid list.now }
    requires script { IsValidScript list.now script.now }
    ensures { result ≡ drifts_hold list.now script.now }
{
    for node in 0..list.nodes() {
        if !is_within_bound(list.drift, drift_of(script, node)) {
            return false;
        }
    }
    true
}

// Where each node's reading errors of a slot add up to no more than a bound, the first slot after it in
// which one's may add up to something else. They are looked up after the last slot's.
fn errors_within(
    list: &Medl,
    script: &Script,
    bound: i64,
    slot: u32,
    last: &mut LastLookUps,
) -> Option<u32>
    requires valid { IsValid list.now }
    requires bound { pos 0 ≤ℤ bound }
    ensures value { is_some result ≡ errors_hold_within list.now script.now bound slot }
    ensures stands { IfSome result (λ until. (t : ℕ) → slot ≤ t → t < until
        → errors_hold_within list.now script.now bound t ≡ true) }
{
    let mut until = u32::MAX;
    for node in 0..list.nodes() {
        let standing = script.incidents_from(node, slot, &mut last.nodes[node as usize]);
        if !is_within_bound(bound, standing.incidents.error) {
            return None;
        }
        until = until.min(standing.until);
    }
    Some(until)
}

/// Whether each node's reading errors of a slot add up to no more than a bound, either way, in
/// microticks. Costs a binary search for each node.
pub fn errors_hold_within(list: &Medl, script: &Script, bound: i64, slot: u32) -> bool
    requires valid { IsValid list.now }
    requires bound { pos 0 ≤ℤ bound }
    ensures { result ≡ errors_hold_within list.now script.now bound slot }
{
    errors_within(list, script, bound, slot, &mut no_look_ups()).is_some()
}

// Whether each node's reading errors of a slot add up to no more than the list's. It is asked anew where they
// were not known to do so up to a later slot.
fn errors_hold_in(
    list: &Medl,
    script: &Script,
    slot: u32,
    until: &mut u32,
    last: &mut LastLookUps,
) -> bool
    requires valid { IsValid list.now }
    requires known { (t : ℕ) → slot ≤ t → t < until.old → errors_hold_in list.now script.now t ≡ true }
    ensures known { (t : ℕ) → slot ≤ t → t < until.new → errors_hold_in list.now script.now t ≡ true }
    ensures value { result ≡ errors_hold_in list.now script.now slot }
{
    if slot < *until {
        return true;
    }
    match errors_within(list, script, list.error, slot, last) {
        Some(next) => {
            *until = next;
            true
        }
        None => false,
    }
}

// Whether an event is a reading error.
fn is_error(event: &Event) -> bool
    ensures { result ≡ is_error event.now }
{
    matches!(event, Event::Error { .. })
}

// Whether one of these events is.
fn has_errors(events: &[Event]) -> bool
    ensures { result ≡ list_any is_error events.now }
{
    events.iter().any(|event| is_error(event))
}

/// The slot that is named where a drift or a sum of reading errors is past its bound: 0 for a
/// drift, else the first with such a sum. Where no event is a reading error, no slot is looked at.
pub(crate) fn clocks_broken(list: &Medl, script: &Script) -> Option<u32>
    requires valid { IsValid list.now }
    requires script { IsValidScript list.now script.now }
    ensures { result ≡ clocks_broken list.now script.now }
{
    if !drifts_hold(list, script) {
        return Some(0);
    }
    if !has_errors(script.events.as_slice()) {
        return None;
    }
    let mut until = 0;
    let mut last = no_look_ups();
    for slot in 0..script.slots {
        if !errors_hold_in(list, script, slot, &mut until, &mut last) {
            return Some(slot);
        }
    }
    None
}

/// Slot 0 where the window is too narrow.
pub(crate) fn window_broken(list: &Medl) -> Option<u32>
    requires { IsValid list.now }
    ensures { result ≡ window_broken list.now }
{
    if needed(list) <= list.window {
        None
    } else {
        Some(0)
    }
}

// What drifts make of it where a node came back: 8 D n.
fn back_drift_share(list: &Medl) -> i64
    requires { IsValid list.now }
    ensures value { result ≡ list.now.drift *ℤ pos (8 * length list.now.slots) }
    ensures within { IsWithin 0 192000 result }
{
    list.drift * (8 * list.nodes()) as i64
}

/// How far a deviation may lie from 0 between nodes of which one came back, in microticks.
pub fn needed_back(list: &Medl) -> i64
    requires { IsValid list.now }
    ensures { result ≡ needed_back list.now }
{
    back_drift_share(list) + (list.error * 6 + 2)
}

/// Slot 0 where the window is too narrow for nodes that come back.
pub(crate) fn back_window_broken(list: &Medl) -> Option<u32>
    requires { IsValid list.now }
    ensures { result ≡ back_window_broken list.now }
{
    if needed_back(list) <= list.window {
        None
    } else {
        Some(0)
    }
}
