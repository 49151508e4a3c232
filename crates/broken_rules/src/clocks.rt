//! Drifts and reading errors past their bounds, and the window that clocks need.
ghost use Rattle.std.specs.Prelude.{◌≡◌, ◌<◌, pos, ◌≤ℤ◌, length, filter, All};
ghost use Rattle.ttp_world.specs.Hypothesis.{nodes_of};
ghost use Rattle.ttp_world.specs.Medl.{IsValid};
ghost use Rattle.ttp_world.specs.Script.{drift_of, IsValidScript, IsWithinSpan};
ghost use Rattle.broken_rules.specs.Clocks.{is_past, past_bound_in, errors_past, narrow_window, narrow_window_back};

use hypothesis::{drifts_hold, needed_back};
use precision::needed;
use ttp_base::NodeSet;
use ttp_world::{DRIFT_LIMIT, Medl, Script};

/// Clocks that are past a bound of the list.
#[derive(Clone, Copy)]
pub enum PastBound {
    /// The clocks of these nodes drift further than the list's bound.
    Drifts { nodes: NodeSet },
    /// In this slot, the first of such slots, the reading errors of this node add up to so many microticks, which is
    /// past the list's bound. It is the least such node.
    Errors { slot: u32, node: u8, sum: i64 },
}

// Whether a number lies further from 0 than a bound.
fn is_past(bound: i64, value: i64) -> bool
    requires { pos 0 ≤ℤ bound }
    ensures { result ≡ is_past bound value }
{
    value < -bound || bound < value
}

// A node's drift, in microticks a slot.
fn drift_of(script: &Script, node: u8) -> i64
    requires count { node < length script.now.drift }
    requires bound { All (IsWithinSpan DRIFT_LIMIT) script.now.drift }
    ensures { result ≡ drift_of script.now node }
{
    *script.drift.get(node as usize)
}

// The nodes that drift further than the list's bound.
fn drifts_past(list: &Medl, script: &Script) -> NodeSet
    requires valid { IsValid list.now }
    requires script { IsValidScript list.now script.now }
    ensures { result ≡ filter (λ k. is_past list.now.drift (drift_of script.now k)) (nodes_of list.now) }
{
    let mut past = NodeSet::empty();
    for node in 0..list.nodes() {
        if is_past(list.drift, drift_of(script, node)) {
            past = past.with(node);
        }
    }
    past
}

// The least node whose reading errors in a slot are past the list's bound, if there is one.
fn errors_past(list: &Medl, script: &Script, slot: u32) -> Option<PastBound>
    requires valid { IsValid list.now }
    ensures { result ≡ errors_past list.now script.now slot }
{
    for node in 0..list.nodes() {
        let sum = script.incidents(node, slot).error;
        if is_past(list.error, sum) {
            return Some(PastBound::Errors { slot, node, sum });
        }
    }
    None
}

/// What is past a bound, where the rule on clocks names this slot.
pub(crate) fn past_bound(list: &Medl, script: &Script, broken: Option<u32>) -> Option<PastBound>
    requires valid { IsValid list.now }
    requires script { IsValidScript list.now script.now }
    ensures { result ≡ past_bound_in list.now script.now broken }
{
    match broken {
        Some(slot) => {
            if drifts_hold(list, script) {
                errors_past(list, script, slot)
            } else {
                Some(PastBound::Drifts {
                    nodes: drifts_past(list, script),
                })
            }
        }
        None => None,
    }
}

/// How wide the window has to be, where it is narrower.
pub fn narrow_window(list: &Medl) -> Option<i64>
    requires { IsValid list.now }
    ensures { result ≡ narrow_window list.now }
{
    let due = needed(list);
    if due <= list.window { None } else { Some(due) }
}

/// How wide it has to be where nodes come back.
pub(crate) fn narrow_window_back(list: &Medl) -> Option<i64>
    requires { IsValid list.now }
    ensures { result ≡ narrow_window_back list.now }
{
    let due = needed_back(list);
    if due <= list.window { None } else { Some(due) }
}
