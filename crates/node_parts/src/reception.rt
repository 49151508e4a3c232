//! Reception: what an active node makes of the slot of another node, from how it sees each of the two
//! channels.
//!
//! [`slot_verdict`] takes the views of channels A and B and the receiver's acknowledgement of its own
//! newest frame, and answers with the verdict. `judged_by` of controller asks for it where channel A's
//! view does not settle it:
//!
//! ```text
//! let on_b = see(list, expected, reading, b);
//! let taken_from_a = is_taken_from_a(on_a.view, on_b.view);
//! Judgement {
//!     verdict: slot_verdict(on_a.view, on_b.view, ack),
//! ```
//!
//! It promises exactly the verdict of the protocol's definition, `verdict_of` of `ttp_world`: the
//! better view of the two decides, in the order First, Second, Other, Bad, Silent. So a frame of the
//! first candidate on one channel outweighs noise on the other (SAE AS6003).
//!
//! The module neither hears nor judges a frame: how a channel is seen is for the layer above to say, and
//! what a verdict changes of the receiver is the work of the modules on acknowledgement and membership.
//! It keeps nothing, shares nothing between threads, takes no memory, and answers at all arguments, in
//! a few steps.

ghost use Rattle.std.specs.Prelude.{◌≡◌};
ghost use Rattle.ttp_world.specs.Reception.{rank_of, is_taken_from_a, better_view, verdict_of_view, verdict_of};

pub use ttp_world::ChannelView;
use ttp_world::{Ack, Verdict};

/// The place of a view in the order from the best, 0, to the worst.
pub fn rank_of(view: ChannelView) -> u8
    ensures { result ≡ rank_of view }
{
    match view {
        ChannelView::First => 0,
        ChannelView::Second => 1,
        ChannelView::Other => 2,
        ChannelView::Bad => 3,
        ChannelView::Silent => 4,
    }
}

/// Whether the view of channel A is taken, of these of A and B: it is the better, or they are equal.
pub fn is_taken_from_a(a: ChannelView, b: ChannelView) -> bool
    ensures { result ≡ is_taken_from_a a b }
{
    rank_of(a) <= rank_of(b)
}

fn better_view(a: ChannelView, b: ChannelView) -> ChannelView
    ensures { result ≡ better_view a b }
{
    if is_taken_from_a(a, b) { a } else { b }
}

fn verdict_of_view(view: ChannelView, ack: Ack) -> Verdict
    ensures { result ≡ verdict_of_view view ack }
{
    match (view, ack) {
        (ChannelView::First, _) => Verdict::Correct,
        (ChannelView::Second, Ack::First) => Verdict::Tentative,
        (ChannelView::Second, Ack::Doubt(_)) => Verdict::Denied,
        (ChannelView::Second | ChannelView::Other, _) => Verdict::Incorrect,
        (ChannelView::Bad, _) => Verdict::Invalid,
        (ChannelView::Silent, _) => Verdict::Null,
    }
}

/// The verdict on a slot that the receiver sees so on channels A and B, with this acknowledgement of
/// its own newest frame. A closed acknowledgement has no second candidate, and a view of it counts as
/// another frame.
pub fn slot_verdict(a: ChannelView, b: ChannelView, ack: Ack) -> Verdict
    ensures { result ≡ verdict_of a b ack }
{
    verdict_of_view(better_view(a, b), ack)
}
