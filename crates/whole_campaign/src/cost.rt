//! What a run cost, in its nine words.
ghost use Rattle.std.specs.Prelude.{◌≡◌, ◌≤◌};
ghost use Rattle.whole_campaign.specs.Runs.{cost_in};

use crate::cut::word_behind;
use crate::listed::{Kind, nodes_listed, sets_listed, split_in};
use line_text::after_label;

/// What a run cost.
#[derive(Clone, Copy)]
pub struct CostShown {
    /// How many nodes were hurt.
    pub hurt: u8,
    pub split: bool,
    /// How many memberships are left.
    pub memberships: u64,
    /// Whether one of them has two members or more.
    pub company: bool,
}

/// What these words say of a run in a cluster of so many nodes and in so many slots.
#[tactic(auto, unfolding(crate::specs::Runs::cost_in))]
pub(crate) fn cost_in(nodes: u8, slots: u32, words: &[u8]) -> Option<CostShown>
    requires { nodes ≤ 24 }
    ensures { result ≡ cost_in nodes slots words.now }
{
    let (left, rest) = word_behind(b' ', "left ", words)?;
    let (hurt, rest) = word_behind(b' ', " hurt ", rest)?;
    let (first, rest) = word_behind(b' ', " split ", rest)?;
    let (last, rest) = word_behind(b' ', " ", rest)?;
    let end = after_label(b" end ".as_slice(), rest)?;
    let _leaving = nodes_listed(Kind::Leaving(slots), nodes, left)?;
    let count = nodes_listed(Kind::Hurt, nodes, hurt)?;
    let split = split_in(slots, first, last)?;
    let sets = sets_listed(nodes, end)?;
    Some(CostShown {
        hurt: count,
        split,
        memberships: sets.count,
        company: sets.company,
    })
}
