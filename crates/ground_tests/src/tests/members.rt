//! Members and counts after each move, worked out by hand.
ghost use Rattle.node_parts.specs.Moves.{IsNodeMove};

use node_parts::acknowledgement::AckMove;
use node_parts::members::{Clique, Membership};
use ttp_base::NodeSet;

// Whether these are the members after a move in the slot of sender 5, where nodes 1 and 4 are members before it.
fn has_members(asked: AckMove, bits: u32) -> bool
    requires { IsNodeMove asked }
{
    let mut members = Membership::of(NodeSet::empty().with(1).with(4));
    members.apply(asked, 5);
    members.set().bits() == bits
}

fn has_counts(asked: AckMove, accepted: u8, rejected: u8) -> bool {
    let mut clique = Clique::fresh();
    clique.count(asked);
    clique.accepted() == accepted && clique.rejected() == rejected
}

fn members_change() -> bool {
    has_members(AckMove::Accept, 0b11_0010)
        && has_members(AckMove::Hold, 0b11_0010)
        && has_members(AckMove::Reject { counted: true }, 0b01_0010)
        && has_members(AckMove::Reject { counted: false }, 0b01_0010)
        && has_members(AckMove::Resolve { other: 4 }, 0b10_0010)
        && has_members(AckMove::Leave, 0b01_0010)
}

fn counts_change() -> bool {
    has_counts(AckMove::Accept, 2, 0)
        && has_counts(AckMove::Hold, 1, 0)
        && has_counts(AckMove::Reject { counted: true }, 1, 1)
        && has_counts(AckMove::Reject { counted: false }, 1, 0)
        && has_counts(AckMove::Resolve { other: 4 }, 2, 1)
        && has_counts(AckMove::Leave, 1, 0)
}

#[test]
fn moves_change_members_and_counts(rt: HostRuntime) {
    assert!(rt; members_change() && counts_change());
}

#[test]
fn a_tie_does_not_send(rt: HostRuntime) {
    let mut clique = Clique::fresh();
    let may_send = clique.may_send();
    clique.count(AckMove::Reject { counted: true });
    assert!(rt; may_send && !clique.may_send());
}

#[test]
fn a_node_that_sends_is_its_own_member(rt: HostRuntime) {
    let mut members = Membership::of(NodeSet::empty());
    members.add(23);
    assert!(rt; members.set().has(23) && members.set().count() == 1);
}
