//! The class of a pair.
ghost use Rattle.std.specs.Prelude.{◌≡◌, ◌<◌, ◌==◌, ◌&&◌, not, filter, length};
ghost use Rattle.std.specs.List.{list_any};
ghost use Rattle.ttp_base.specs.NodeSet.{most_nodes, has_node};
ghost use Rattle.fault_pairs.specs.Classes.{only_both, leaves_by_both, third_nodes, has_third, has_own, has_less};
ghost use Rattle.fault_pairs.specs.Classes.{mild_class, pair_class, has_line};
ghost use Rattle.fault_pairs.specs.PairText.{newly_left};
ghost use Rattle.pair_classes.specs.Ordered.{IsOrdered, AreOrdered};

use fault_pairs::{Harm, PairClass};
use ttp_base::NodeSet;

/// What three runs did: with both faults, with the first alone, and with the second alone.
#[derive(Clone, Copy)]
pub struct Harms {
    pub both: Harm,
    pub one: Harm,
    pub two: Harm,
}

// Whether something is so with both, and with neither alone.
fn only_both(both: bool, one: bool, two: bool) -> bool
    ensures { result ≡ only_both both one two }
{
    both && !one && !two
}

// Whether a node leaves so.
fn leaves_by_both(harms: &Harms, node: u8) -> bool
    requires { node < most_nodes }
    ensures { result ≡ leaves_by_both harms.now.both harms.now.one harms.now.two node }
{
    only_both(
        harms.both.left.has(node),
        harms.one.left.has(node),
        harms.two.left.has(node),
    )
}

// Whether a node leaves so and has neither fault.
fn is_third(first: u8, second: u8, harms: &Harms, node: u8) -> bool
    requires { node < most_nodes }
    ensures { result ≡ (has_node harms.now.both.left node
        && ((not (node == first) && not (node == second)) && leaves_by_both harms.now.both harms.now.one harms.now.two node)) }
{
    let leaves = leaves_by_both(harms, node);
    let is_other = node != first && node != second;
    harms.both.left.has(node) && (is_other && leaves)
}

/// The nodes that leave with both faults and with neither alone, and have neither of them.
pub fn third_nodes(first: u8, second: u8, harms: &Harms) -> NodeSet
    requires { AreOrdered harms.now }
    ensures third { result ≡ third_nodes first second harms.now.both harms.now.one harms.now.two }
    ensures ordered { IsOrdered result }
{
    let mut third = NodeSet::empty();
    for node in 0..24u8 {
        if is_third(first, second, harms, node) {
            third = third.with(node);
        }
    }
    third
}

// Whether a node is a member of one set and not of another.
fn is_member_but(one: NodeSet, other: NodeSet, node: u8) -> bool
    requires { node < most_nodes }
    ensures { result ≡ (has_node one node && not (has_node other node)) }
{
    one.has(node) && !other.has(node)
}

// The members of one set that are not of another.
fn members_but(one: NodeSet, other: NodeSet) -> NodeSet
    requires { IsOrdered one }
    ensures { result ≡ filter (λ k. not (has_node other k)) one }
{
    let mut members = NodeSet::empty();
    for node in 0..24u8 {
        if is_member_but(one, other, node) {
            members = members.with(node);
        }
    }
    members
}

// Whether there are third nodes.
fn has_third(first: u8, second: u8, harms: &Harms) -> bool
    requires { AreOrdered harms.now }
    ensures { result ≡ has_third first second harms.now.both harms.now.one harms.now.two }
{
    third_nodes(first, second, harms).count() != 0
}

// Whether one of the nodes of the faults leaves with both and with neither alone.
fn has_own(first: u8, second: u8, harms: &Harms) -> bool
    requires first { first < most_nodes }
    requires second { second < most_nodes }
    ensures { result ≡ has_own first second harms.now.both harms.now.one harms.now.two }
{
    leaves_by_both(harms, first) || leaves_by_both(harms, second)
}

// Whether a set has a member that is not one of another.
fn has_member_but(one: NodeSet, other: NodeSet) -> bool
    requires { IsOrdered one }
    ensures { result ≡ list_any (λ k. not (has_node other k)) one }
{
    members_but(one, other).count() != 0
}

// Whether a node stays that leaves with one of the faults alone.
#[tactic(auto, using(crate::proofs::Members::any_append))]
fn has_less(harms: &Harms) -> bool
    requires { AreOrdered harms.now }
    ensures { result ≡ has_less harms.now.both harms.now.one harms.now.two }
{
    let by_one = has_member_but(harms.one.left, harms.both.left);
    let by_two = has_member_but(harms.two.left, harms.both.left);
    by_one || by_two
}

// The class of a pair that costs no third node.
fn mild_class(first: u8, second: u8, harms: &Harms) -> PairClass
    requires ordered { AreOrdered harms.now }
    requires first { first < most_nodes }
    requires second { second < most_nodes }
    ensures { result ≡ mild_class first second harms.now.both harms.now.one harms.now.two }
{
    if only_both(harms.both.split, harms.one.split, harms.two.split) {
        return PairClass::Divided;
    }
    if has_own(first, second, harms) {
        return PairClass::Own;
    }
    if has_less(harms) {
        return PairClass::Less;
    }
    PairClass::Sum
}

/// The class of two faults of these nodes: the first that applies.
pub fn pair_class(first: u8, second: u8, harms: &Harms) -> PairClass
    requires ordered { AreOrdered harms.now }
    requires first { first < most_nodes }
    requires second { second < most_nodes }
    ensures { result ≡ pair_class first second harms.now.both harms.now.one harms.now.two }
{
    if only_both(harms.both.dead, harms.one.dead, harms.two.dead) {
        return PairClass::Dead;
    }
    if only_both(harms.both.torn, harms.one.torn, harms.two.torn) {
        return PairClass::Torn;
    }
    if has_third(first, second, harms) {
        return PairClass::Third;
    }
    mild_class(first, second, harms)
}

/// Whether a pair of this class has a line.
pub fn has_line(class: PairClass) -> bool
    ensures { result ≡ has_line class }
{
    matches!(class, PairClass::Third | PairClass::Torn | PairClass::Dead)
}

/// How many nodes left in a run that did not leave in the script's own.
pub fn newly_left(own: &Harm, alone: &Harm) -> u8
    requires { IsOrdered alone.now.left }
    ensures { result ≡ newly_left own.now alone.now }
{
    members_but(alone.left, own.left).count()
}
