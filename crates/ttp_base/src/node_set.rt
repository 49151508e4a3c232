//! Sets of node numbers.
#![tactic(auto, using(crate::proofs::NodeSets::words))]

ghost use Rattle.std.specs.Prelude.{◌≡◌, ◌<◌, ◌≤◌, ◌↔◌, All, [], length, slice_get, IfSome, IsNone};
ghost use Rattle.ttp_base.specs.NodeSet.{most_nodes, has_node, with_node, without_node, set_bits};

use std::marker::Model;

/// A set of node numbers below 24, which contracts see as the list of its members in ascending
/// order.
///
/// It lies in one word: no call takes memory, and each takes the same few steps whatever the set.
#[derive(Clone, Copy, PartialEq, Eq)]
pub struct NodeSet {
    bits: u32,
}

impl Model for NodeSet {
    ghost use Rattle.std.specs.Prelude.{List, ℕ, ◌<◌, ◌^◌};
    ghost use Rattle.ttp_base.specs.NodeSet.{most_nodes, members_in, set_bits};

    ghost Value = { List ℕ };

    ghost view = { λ s. members_in s.bits };

    ghost invariant = { λ s. s.bits < 2 ^ most_nodes };

    ghost inverse = { λ members. record { bits = set_bits members } };

    ghost use Rattle.ttp_base.specs.NodeSetWord.{word_of_members};

    ghost inverse_ok = { word_of_members };
}

impl NodeSet {
    /// The set without members.
    pub fn empty() -> NodeSet
        ensures { result ≡ [] }
    {
        NodeSet { bits: 0 }
    }

    /// The set with this node put in.
    pub fn with(self, k: u8) -> NodeSet
        requires { k < most_nodes }
        ensures { result ≡ with_node self k }
    {
        NodeSet {
            bits: self.bits | (1 << k),
        }
    }

    /// The set with this node taken out.
    pub fn without(self, k: u8) -> NodeSet
        requires { k < most_nodes }
        ensures { result ≡ without_node self k }
    {
        NodeSet {
            bits: self.bits & !(1 << k),
        }
    }

    /// Whether a node is a member.
    pub fn has(self, k: u8) -> bool
        requires { k < most_nodes }
        ensures { result ≡ has_node self k }
    {
        self.bits & (1 << k) != 0
    }

    /// How many members there are.
    pub fn count(self) -> u8
        ensures { result ≡ length self }
    {
        self.bits.count_ones() as u8
    }

    /// The least member, if there is one.
    pub fn first(self) -> Option<u8>
        ensures value { result ≡ slice_get self 0 }
        ensures least { IfSome result (λ k. All (λ j. k ≤ j) self) }
        ensures none { IsNone result ↔ (self ≡ []) }
    {
        if self.bits == 0 {
            None
        } else {
            Some(self.bits.trailing_zeros() as u8)
        }
    }

    /// The members as a word in which bit k, counted from the least significant, stands for node k.
    pub fn bits(self) -> u32
        ensures { result ≡ set_bits self }
    {
        self.bits
    }
}
