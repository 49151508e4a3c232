//! What a node sends in a slot.
ghost use Rattle.std.specs.Prelude.{◌≡◌, ◌<◌, length};
ghost use Rattle.ttp_base.specs.NodeSet.{with_node};
ghost use Rattle.ttp_world.specs.declared.node.Chosen.{Chosen as ChosenValue};
ghost use Rattle.ttp_world.specs.Conduct.{cold_start_frame, node_frames};
ghost use Rattle.ttp_world.specs.Medl.{IsValid, payload_length, schedule_limit};
ghost use Rattle.ttp_world.specs.Membership.{AreNodes};
ghost use Rattle.node_parts.specs.ClockStandsFor.{ClockStandsFor};
ghost use Rattle.ttp_frame.specs.FrameBytes.{bytes_of};
ghost use Rattle.ttp_frame.specs.Shape.{IsFrameShape, HaveRoom};
ghost use Rattle.controller.specs.Limits.{intent_by, loaded_length, message_carried};
ghost use Rattle.controller.specs.ControllerWithin.{IsPossible};
ghost use Rattle.controller.specs.Sending.{frame_at};
ghost use Rattle.controller.specs.StandsFor.{frames_planned, payload_planned};
ghost use Rattle.controller.specs.Within.{IsPastWithin};

use crate::controller::Intent;
use crate::form::form_of;
use crate::node::Node;
use medium::Outgoing;
use node_parts::slot_clock::SlotClock;
use ttp_base::NodeSet;
use ttp_frame::{FrameIn, encode};
use ttp_world::{Act, CState, Medl};

const COLD_START: u8 = 3;

/// The bytes of a frame, ready to be sent.
pub fn outgoing(frame: &FrameIn, start: u32) -> Outgoing
    requires shape { IsFrameShape frame.now.header (length frame.now.payload.now) }
    requires start { start < schedule_limit }
    requires members { HaveRoom frame.now.wide frame.now.cstate.members }
    ensures { result ≡ bytes_of frame.now start }
{
    let mut bytes = [0; 256];
    let len = encode(frame, start, &mut bytes) as u16;
    Outgoing { len, bytes }
}

/// The cold-start frame of node k.
#[tactic(auto, using(crate::proofs::Sets::rooms))]
pub fn cold_start(list: &Medl, k: u8) -> Outgoing
    requires valid { IsValid list.now }
    requires node { k < length list.now.slots }
    ensures { result ≡ cold_start_frame list.now k }
{
    let cstate = CState {
        time: 0,
        round: 0,
        slot: k,
        members: NodeSet::empty().with(k),
    };
    let frame = FrameIn {
        wide: list.is_wide(),
        header: COLD_START,
        cstate,
        payload: &[],
    };
    outgoing(&frame, list.schedule)
}

// The frame of node k in its own slot, with this payload, where `members` are those that it holds.
#[tactic(auto, using(crate::proofs::Sets::rooms))]
fn own_frame(list: &Medl, k: u8, coming: &SlotClock, members: NodeSet, payload: &[u8]) -> Outgoing
    requires valid { IsValid list.now }
    requires node { k < length list.now.slots }
    requires members { AreNodes list.now members }
    requires place { ClockStandsFor coming.now list.now coming.now.place }
    requires payload { length payload.now ≡ payload_length list.now coming.now.place.round coming.now.place.slot }
    ensures { result ≡ frame_at list.now coming.now.place (with_node members k) payload.now }
{
    let form = form_of(list, coming);
    let frame = FrameIn {
        wide: form.wide,
        header: form.header,
        cstate: coming.cstate(members.with(k)),
        payload,
    };
    outgoing(&frame, list.schedule)
}

/// Whether node k sends nothing, a frame without payload, or one with payload, by what it does.
pub(crate) fn intent_of(list: &Medl, k: u8, node: &Node, act: Act) -> Intent
    requires valid { IsValid list.now }
    requires within { IsPastWithin list.now k node.now }
    ensures { result ≡ intent_by list.now node.now act }
{
    match act {
        Act::Start => Intent::Bare,
        Act::Send if form_of(list, &node.coming(list)).payload > 0 => Intent::Loaded,
        Act::Send => Intent::Bare,
        _ => Intent::Quiet,
    }
}

/// The number of the message in the frame of a node that sends this, of the one chosen for it.
pub(crate) fn message_of(intent: Intent, message: u64) -> Option<u64>
    ensures { result ≡ message_carried intent message }
{
    match intent {
        Intent::Loaded => Some(message),
        Intent::Quiet | Intent::Bare => None,
    }
}

/// The frame that node k sends by what it does, if it sends one, with this payload where it carries
/// one.
pub(crate) fn frame_of(
    list: &Medl,
    k: u8,
    node: &Node,
    act: Act,
    payload: &[u8],
) -> Option<Outgoing>
    requires valid { IsValid list.now }
    requires node { k < length list.now.slots }
    requires within { IsPastWithin list.now k node.now }
    requires possible { IsPossible list.now k node.now act }
    requires payload { length payload.now ≡ loaded_length list.now k (intent_by list.now node.now act) }
    ensures { (chosen : ChosenValue) → payload_planned list.now node.now chosen act ≡ payload.now
        → frames_planned k result ≡ node_frames list.now k node.now chosen act }
{
    match act {
        Act::Start => Some(cold_start(list, k)),
        Act::Send => Some(own_frame(list, k, &node.coming(list), node.members(), payload)),
        _ => None,
    }
}
