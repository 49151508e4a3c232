//! The set that a word of members is.
ghost use Rattle.std.specs.Prelude.{◌≡◌};
ghost use Rattle.ttp_base.specs.NodeSet.{members_in};

use crate::node_set::NodeSet;

/// The set whose members are the bits of a word, of which bit k, counted from the least significant, stands
/// for node k. Bits from 24 on are left out.
pub fn members_of(word: u32) -> NodeSet
    ensures { result ≡ members_in word }
{
    let mut members = NodeSet::empty();
    for node in 0..24u8 {
        if (word >> node) % 2 == 1 {
            members = members.with(node);
        }
    }
    members
}
