//! What is on the channels of a slot, and what it was found to be.
//!
//! Most receivers of a frame expect it with one C-state, and its check word is computed for the first of
//! them alone.
ghost use Rattle.std.specs.Prelude.{◌≡◌, true};
ghost use Rattle.ttp_frame.specs.Shape.{HaveRoom};
ghost use Rattle.ttp_world.specs.Diary.{cstate_at, joined_place};
ghost use Rattle.ttp_world.specs.Medl.{IsValid, is_wide};
ghost use Rattle.node_parts.specs.ClockStandsFor.{ClockStandsFor};
ghost use Rattle.controller.specs.KnownFrame.{BytesAre, IsKnownOf, IsSameState, found_by};
ghost use Rattle.controller.specs.KnownFrames.{AreKnownOf};

use crate::form::form_of;
use medium::Arrival;
use node_parts::slot_clock::SlotClock;
use std::marker::Model;
use std::snapshot::Snapshot;
use ttp_base::NodeSet;
use ttp_frame::{FrameMatch, judge};
use ttp_world::{CState, Medl};

/// What is on a channel, and what it was last found to be, and by which C-state.
///
/// Contracts see it as the list and the bytes there: what was found is a matter of cost alone.
#[derive(Drop)]
pub(crate) struct KnownFrame<'a> {
    // The list that it is judged by. Proofs alone read it, and it takes no bytes.
    given: Snapshot<Medl>,
    bytes: &'a [u8],
    is_judged: bool,
    cstate: CState,
    found: FrameMatch,
}

impl<'a> Model for KnownFrame<'a> {
    ghost use Rattle.controller.specs.KnownFrame.{KnownView, IsFound};

    ghost Value = { KnownView };

    ghost view = { λ k. record { list = k.given.value; bytes = k.bytes.now } };

    ghost invariant = { λ k. IsFound k.given.value k.bytes.now k.is_judged k.cstate k.found };
}

/// What is on both channels.
#[derive(Drop)]
pub(crate) struct KnownFrames<'a> {
    pub(crate) a: KnownFrame<'a>,
    pub(crate) b: KnownFrame<'a>,
}

// The bytes that came, if any did.
fn bytes_of<'a>(came: &Arrival<'a>) -> &'a [u8]
    ensures { BytesAre came.now result.now }
{
    match came {
        Arrival::Silence | Arrival::Noise => &[],
        Arrival::Bits { bytes, .. } => bytes,
    }
}

// Whether what was judged, if it was, was judged by this C-state.
fn is_known(is_judged: bool, judged: &CState, cstate: &CState) -> bool
    ensures { result ≡ true → (is_judged ≡ true) × IsSameState judged.now cstate.now }
{
    is_judged && *judged == *cstate
}

impl<'a> KnownFrame<'a> {
    // What is on a channel, of which nothing is found yet.
    fn of(list: &Medl, came: &Arrival<'a>) -> KnownFrame<'a>
        ensures { IsKnownOf list.now came.now result }
    {
        KnownFrame {
            given: Snapshot::of(list),
            bytes: bytes_of(came),
            is_judged: false,
            cstate: CState {
                time: 0,
                round: 0,
                slot: 0,
                members: NodeSet::empty(),
            },
            found: FrameMatch::Invalid,
        }
    }

    // Judges the bytes by a C-state of this place, and keeps what is found. It stands apart, so that a look at
    // what is known is inlined.
    #[inline(never)]
    fn judge_anew(&mut self, list: &Medl, place: &SlotClock, cstate: CState) -> FrameMatch
        requires list { self.old.list ≡ list.now }
        requires valid { IsValid list.now }
        requires place { ClockStandsFor place.now list.now place.now.place }
        requires at { joined_place cstate ≡ place.now.place }
        requires members { HaveRoom (is_wide list.now) cstate.members }
        ensures keeps { self.new ≡ self.old }
        ensures answer { result ≡ found_by self.old.list self.old.bytes cstate }
    {
        let found = judge(self.bytes, list.schedule, &form_of(list, place), &cstate);
        self.is_judged = true;
        self.cstate = cstate;
        self.found = found;
        found
    }

    /// Whether the bytes are the frame of a place with these members, with others, or no frame of its
    /// form.
    ///
    /// It costs a check word, where it is not known yet.
    #[inline(always)]
    pub(crate) fn judge(&mut self, list: &Medl, place: &SlotClock, members: NodeSet) -> FrameMatch
        requires list { self.old.list ≡ list.now }
        requires valid { IsValid list.now }
        requires place { ClockStandsFor place.now list.now place.now.place }
        requires members { HaveRoom (is_wide list.now) members }
        ensures keeps { self.new ≡ self.old }
        ensures answer { result ≡ found_by self.old.list self.old.bytes (cstate_at place.now.place members) }
    {
        let expected = place.cstate(members);
        if is_known(self.is_judged, &self.cstate, &expected) {
            self.found
        } else {
            self.judge_anew(list, place, expected)
        }
    }
}

impl<'a> KnownFrames<'a> {
    /// What is on both channels, of which nothing is found yet.
    pub(crate) fn of(list: &Medl, a: &Arrival<'a>, b: &Arrival<'a>) -> KnownFrames<'a>
        ensures { AreKnownOf list.now a.now b.now result }
    {
        KnownFrames {
            a: KnownFrame::of(list, a),
            b: KnownFrame::of(list, b),
        }
    }
}
