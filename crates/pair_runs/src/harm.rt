//! What a run did, as far as it is compared.
ghost use Rattle.std.specs.Prelude.{◌≡◌};
ghost use Rattle.fault_pairs.specs.Classes.{left_nodes, harm_of};
ghost use Rattle.pair_classes.specs.Ordered.{IsOrdered};

use campaign::{Cost, Leave};
use fault_pairs::Harm;
use fault_runs::{has_pair, is_torn};
use ttp_base::NodeSet;

// The nodes that left, which stand in their order.
fn left_nodes(leaves: &[Leave]) -> NodeSet
    requires { IsOrdered (left_nodes leaves.now) }
    ensures { result ≡ left_nodes leaves.now }
{
    let mut left = NodeSet::empty();
    for leave in leaves {
        left = left.with(leave.node);
    }
    left
}

/// What of a cost is compared.
pub(crate) fn harm_of(cost: &Cost) -> Harm
    requires { IsOrdered (left_nodes cost.now.left) }
    ensures { result ≡ harm_of cost.now }
{
    Harm {
        left: left_nodes(cost.left.as_slice()),
        split: cost.split.is_some(),
        torn: is_torn(cost),
        dead: !has_pair(cost.end.as_slice()),
    }
}
