//! The status that a controller publishes after each slot.
ghost use Rattle.std.specs.Prelude.{◌≡◌, ◌<◌};
ghost use Rattle.ttp_base.specs.NodeSet.{set_bits};
ghost use Rattle.ttp_world.specs.Acknowledgement.{is_doubt};
ghost use Rattle.ttp_world.specs.Diary.{is_active_phase};
ghost use Rattle.ttp_world.specs.Fitting.{number_in};
ghost use Rattle.ttp_world.specs.Frame.{cstate_bytes};
ghost use Rattle.ttp_world.specs.Medium.{is_sending};
ghost use Rattle.ttp_world.specs.Medl.{IsValid, member_limit, member_width};
ghost use Rattle.ttp_world.specs.Messages.{flags_of, is_left_phase, is_listening_phase, status_words};
ghost use Rattle.ttp_world.specs.Past.{state_of};
ghost use Rattle.controller.specs.Within.{IsPastWithin};

use crate::node::Node;
use bitflags::{Flag, Flags, bitflag_items};
use ttp_world::{Ack, CState, Entry, Medl, NodeState, Phase, StatusWords};

/// The flags of a status: what a node is after a slot, and what it did in it.
#[derive(Clone, Copy)]
pub struct StatusFlags(u64);

bitflag_items! {
    impl StatusFlags: u64 {
        const ACTIVE = 1;
        const LISTENING = 2;
        const LEFT = 4;
        const SENT = 8;
        const DELIVERED = 16;
        const ACK_OPEN = 32;
        const DOUBT = 64;
        const CORRECTED = 128;
    }
}

impl Flags for StatusFlags {
    type Bits = u64;

    ghost use Rattle.std.specs.Prelude.{⊤, [], ◌∷◌, codes};

    ghost exact = { ⊤ };

    ghost table = { (codes "ACTIVE", 1) ∷ (codes "LISTENING", 2) ∷ (codes "LEFT", 4) ∷ (codes "SENT", 8)
        ∷ (codes "DELIVERED", 16) ∷ (codes "ACK_OPEN", 32) ∷ (codes "DOUBT", 64) ∷ (codes "CORRECTED", 128) ∷ [] };

    ghost set_of = { λ f. f.0 };

    fn flags<'a>() -> &'a [Flag<StatusFlags>] {
        StatusFlags::FLAGS
    }

    fn bits(&self) -> u64 {
        self.0
    }

    fn from_bits_retain(bits: u64) -> StatusFlags {
        StatusFlags(bits)
    }
}

fn is_active(phase: Phase) -> bool
    ensures { result ≡ is_active_phase phase }
{
    matches!(phase, Phase::Active)
}

fn is_listening(phase: Phase) -> bool
    ensures { result ≡ is_listening_phase phase }
{
    matches!(phase, Phase::Listening)
}

fn is_left(phase: Phase) -> bool
    ensures { result ≡ is_left_phase phase }
{
    matches!(phase, Phase::Left)
}

// Whether an entry is of a frame that the node sent.
fn is_sending(entry: Entry) -> bool
    ensures { result ≡ is_sending entry }
{
    matches!(entry, Entry::Started | Entry::Sent { .. })
}

// Whether a successor is in doubt.
fn is_doubt(ack: Ack) -> bool
    ensures { result ≡ is_doubt ack }
{
    matches!(ack, Ack::Doubt(_))
}

// The flags after a slot, in which the node delivered a payload or not, by what is shown of it.
#[inline(always)]
fn flags_of(list: &Medl, node: &Node, state: &NodeState, delivers: bool) -> StatusFlags
    requires valid { IsValid list.now }
    requires state { state.now ≡ state_of node.now }
    ensures { result.0 ≡ flags_of list.now node.now delivers }
{
    let mut flags = StatusFlags::empty();
    flags.set(StatusFlags::ACTIVE, is_active(state.phase));
    flags.set(StatusFlags::LISTENING, is_listening(state.phase));
    flags.set(StatusFlags::LEFT, is_left(state.phase));
    flags.set(StatusFlags::SENT, is_sending(state.entry));
    flags.set(StatusFlags::DELIVERED, delivers);
    flags.set(StatusFlags::ACK_OPEN, node.acknowledgement().is_open());
    flags.set(StatusFlags::DOUBT, is_doubt(state.ack));
    flags.set(StatusFlags::CORRECTED, node.has_averaged(list));
    flags
}

// A C-state as a number: its bytes, the most significant first.
fn cstate_number(list: &Medl, c: CState) -> u64
    requires { set_bits c.members < member_limit list.now }
    ensures { result ≡ number_in (cstate_bytes (member_width list.now) c) }
{
    let place = (u64::from(c.time) * 256 + u64::from(c.round)) * 256 + u64::from(c.slot);
    let members = u64::from(c.members.bits());
    if list.is_wide() {
        place * 16_777_216 + members
    } else {
        place * 65_536 + members
    }
}

/// The status words of a node after a slot: the slot's number, the flags, the C-state of an active
/// node, and the counts.
#[tactic(auto, using(crate::proofs::Sets::rooms))]
#[inline(always)]
pub(crate) fn status_words(
    list: &Medl,
    k: u8,
    slot: u64,
    node: &Node,
    delivers: bool,
) -> StatusWords
    requires valid { IsValid list.now }
    requires within { IsPastWithin list.now k node.now }
    ensures { result.words ≡ status_words list.now slot node.now delivers }
{
    let state = node.state();
    let cstate = if is_active(state.phase) {
        cstate_number(list, node.cstate())
    } else {
        0
    };
    let counts = 256 * u64::from(state.accepted) + u64::from(state.rejected);
    StatusWords {
        words: [
            slot,
            flags_of(list, node, &state, delivers).0,
            cstate,
            counts,
        ],
    }
}
