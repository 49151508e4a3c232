//! Verdicts on pairs of views, worked out by hand.
use node_parts::reception::ChannelView::{self, Bad, First, Other, Second, Silent};
use node_parts::reception::slot_verdict;
use ttp_world::{Ack, Verdict};

const ROWS: &[(ChannelView, ChannelView, Ack, Verdict)] = &[
    (Silent, Silent, Ack::First, Verdict::Null),
    (Silent, Bad, Ack::Closed, Verdict::Invalid),
    (Other, Bad, Ack::Closed, Verdict::Incorrect),
    (Other, First, Ack::Closed, Verdict::Correct),
    (First, Second, Ack::First, Verdict::Correct),
    (Second, Other, Ack::First, Verdict::Tentative),
    (Silent, Second, Ack::Doubt(3), Verdict::Denied),
    (First, Silent, Ack::Doubt(3), Verdict::Correct),
    (Second, Silent, Ack::Closed, Verdict::Incorrect),
    (Bad, Second, Ack::Closed, Verdict::Incorrect),
];

#[test]
fn better_view_decides(rt: HostRuntime) {
    for (a, b, ack, verdict) in ROWS {
        assert!(rt; slot_verdict(*a, *b, *ack) == *verdict);
    }
}
