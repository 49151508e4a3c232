//! Nodes of a set, as a line tells them.
ghost use Rattle.std.specs.Prelude.{◌≡◌, ◌<◌, ◌++◌, OnOk};
ghost use Rattle.std.specs.List.{AllByRecursion};
ghost use Rattle.ttp_base.specs.NodeSet.{most_nodes};
ghost use Rattle.check_words.specs.Nodes.{more_nodes, nodes_among, nodes_text};

use crate::Text;
use ttp_base::{Memory, NodeSet};

// The numbers that a node may have.
const NUMBERS: [u8; 24] = [
    0, 1, 2, 3, 4, 5, 6, 7, 8, 9, 10, 11, 12, 13, 14, 15, 16, 17, 18, 19, 20, 21, 22, 23,
];

// Adds those of some numbers that are members, each behind a comma.
fn put_more(text: &mut Text, members: NodeSet, numbers: &[u8]) -> Result<(), Memory>
    requires { AllByRecursion (λ k. k < most_nodes) numbers.now }
    ensures { OnOk result (text.new ≡ text.old ++ more_nodes members numbers.now) }
{
    match numbers {
        [] => Ok(()),
        [node, rest @ ..] => {
            if members.has(*node) {
                text.put(", ")?;
                text.put_number(*node as u64)?;
            }
            put_more(text, members, rest)
        }
    }
}

// Adds those of some numbers that are members, with commas between them.
fn put_among(text: &mut Text, members: NodeSet, numbers: &[u8]) -> Result<(), Memory>
    requires { AllByRecursion (λ k. k < most_nodes) numbers.now }
    ensures { OnOk result (text.new ≡ text.old ++ nodes_among members numbers.now) }
{
    match numbers {
        [] => text.put("none"),
        [node, rest @ ..] => {
            if members.has(*node) {
                text.put_number(*node as u64)?;
                return put_more(text, members, rest);
            }
            put_among(text, members, rest)
        }
    }
}

/// Adds the members of a set in their order, or `none`.
#[tactic(auto, unfolding(crate::specs::Nodes::nodes_text))]
pub(crate) fn put_nodes(text: &mut Text, members: NodeSet) -> Result<(), Memory>
    ensures { OnOk result (text.new ≡ text.old ++ nodes_text members) }
{
    put_among(text, members, &NUMBERS)
}
