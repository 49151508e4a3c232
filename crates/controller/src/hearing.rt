//! What a node makes of what comes to it in a slot: its entry, and what it hands to its host.
ghost use Rattle.std.specs.Prelude.{◌≡◌, ◌↔◌, ◌+◌, ◌≤◌, ◌<◌, ℕ, ℤ, ◌-ℤ◌, ◌+ℤ◌, not, IsTrue, length};
ghost use Rattle.std.specs.Prelude.{unsigned_abs, if◌then◌else◌};
ghost use Rattle.ttp_frame.specs.Shape.{HaveRoom};
ghost use Rattle.ttp_world.specs.Act.{coming_place};
ghost use Rattle.ttp_world.specs.Conduct.{channel_join, delivery, join_entry, judging_entry, listening_entry};
ghost use Rattle.ttp_world.specs.Conduct.{verdict_entry};
ghost use Rattle.ttp_world.specs.Fitting.{payload_in};
ghost use Rattle.ttp_world.specs.Medl.{IsValid, is_wide, member_bytes};
ghost use Rattle.ttp_world.specs.Past.{NodePast};
ghost use Rattle.ttp_world.specs.Reception.{Hearing, entry_deviation, expected_of, fits_members, fits_second};
ghost use Rattle.ttp_world.specs.Reception.{is_expected_form, is_first_view, is_within_window, payload_heard};
ghost use Rattle.ttp_world.specs.Reception.{view_of_bits, view_of_frame};
ghost use Rattle.node_parts.specs.ClockStandsFor.{ClockStandsFor};
ghost use Rattle.controller.specs.Hearing.{ForSignals, ForHearings, ReadingFits, IsReceiver, Receives, awaited_by};
ghost use Rattle.controller.specs.Hearing.{awaited_meant, IsExpected, IsFormOf, IsSeen, IsJudgement};
ghost use Rattle.controller.specs.KnownFrame.{IsKnownOf};
ghost use Rattle.controller.specs.KnownFrames.{AreKnownOf};
ghost use Rattle.ttp_world.specs.declared.medl.Medl.{Medl};
ghost use Rattle.ttp_world.specs.Diary.{Place};
ghost use Rattle.controller.specs.Limits.{most_clock};
ghost use Rattle.controller.specs.Within.{IsPastWithin};

use crate::form::form_of;
use crate::known_frames::{KnownFrame, KnownFrames};
use crate::node::Node;
use medium::Arrival;
use node_parts::acknowledgement::AckState;
use node_parts::reception::{is_taken_from_a, slot_verdict};
use node_parts::slot_clock::SlotClock;
use ttp_base::NodeSet;
use ttp_frame::{Expect, FrameMatch, read_explicit};
use ttp_world::{Ack, CState, ChannelView, Delivered, Entry, Medl, Payload, Reason, Verdict};

/// What a node measures by how late a frame comes to it: its clock in this slot, and its reading error, in
/// microticks.
#[derive(Clone, Copy)]
pub(crate) struct Reading {
    pub(crate) own: i64,
    pub(crate) error: i64,
}

/// What an active node judges the slot of another node by.
#[derive(Clone, Copy)]
pub(crate) struct Receiver {
    /// The node's own number.
    pub(crate) number: u8,
    /// The place of the slot that it judges.
    pub(crate) coming: SlotClock,
    pub(crate) ack: AckState,
    pub(crate) members: NodeSet,
}

/// What an active node makes of what it hears in the slot of another node.
#[derive(Clone, Copy)]
pub(crate) struct Judgement {
    pub(crate) verdict: Verdict,
    /// How late the frame came whose view is taken, in microticks; 0 where no channel carried bits.
    pub(crate) deviation: i64,
    /// Whether the frame on channel A is of the first candidate.
    pub(crate) from_a: bool,
}

// The frame that a receiver expects: that of a place, with the members of one of two candidates.
#[derive(Clone, Copy)]
struct Expected {
    place: SlotClock,
    first: NodeSet,
    second: Option<NodeSet>,
}

// How a channel is seen, and how late what came on it is, if it is bits.
#[derive(Clone, Copy)]
struct Seen {
    view: ChannelView,
    deviation: Option<i64>,
}

// How late bits came whose sender's clock is so far ahead.
fn deviation_of(offset: i64, reading: &Reading) -> i64
    requires { unsigned_abs reading.now.own + unsigned_abs offset + unsigned_abs reading.now.error ≤ most_clock }
    ensures { result ≡ (offset -ℤ reading.now.own) +ℤ reading.now.error }
{
    let Reading { own, error } = *reading;
    offset - own + error
}

// Listening.

// The entry by which a node joins by a C-state, if it can.
fn join_entry(deviation: i64, joinable: Option<CState>) -> Option<Entry>
    ensures { result ≡ join_entry deviation joinable }
{
    match joinable {
        Some(cstate) => Some(Entry::Joined {
            sender: cstate.slot,
            cstate,
            deviation,
        }),
        None => None,
    }
}

// The entry by which a node joins on what came on a channel, if it can.
fn channel_join(list: &Medl, reading: &Reading, came: &Arrival) -> Option<Entry>
    requires valid { IsValid list.now }
    requires fits { ReadingFits reading.now.own came.now reading.now.error }
    ensures { ForSignals came.now reading.now.own reading.now.error (λ sent deviation.
        result ≡ channel_join list.now deviation sent) }
{
    match came {
        Arrival::Silence | Arrival::Noise => None,
        Arrival::Bits { bytes, offset } => {
            join_entry(deviation_of(*offset, reading), read_explicit(bytes, list))
        }
    }
}

/// The entry of a listening node: it joins on what came on channel A, or else on B, or waits.
pub(crate) fn listening_entry(list: &Medl, reading: &Reading, a: &Arrival, b: &Arrival) -> Entry
    requires valid { IsValid list.now }
    requires a { ReadingFits reading.now.own a.now reading.now.error }
    requires b { ReadingFits reading.now.own b.now reading.now.error }
    ensures { ForHearings a.now b.now reading.now.own reading.now.error (λ h. result ≡ listening_entry list.now h) }
{
    match channel_join(list, reading, a) {
        Some(entry) => entry,
        None => channel_join(list, reading, b).unwrap_or(Entry::Waited),
    }
}

// Judging.

/// What node k judges its coming slot by.
pub(crate) fn receiver_of(list: &Medl, k: u8, node: &Node) -> Receiver
    requires valid { IsValid list.now }
    requires number { k < length list.now.slots }
    requires within { IsPastWithin list.now k node.now }
    ensures number { result.number ≡ k }
    ensures receives { Receives list.now node.now result }
    ensures receiver { IsReceiver list.now result }
{
    let coming = node.coming(list);
    Receiver {
        number: k,
        coming,
        ack: node.acknowledgement(),
        members: node.members(),
    }
}

// What a receiver expects.
fn expected_of(list: &Medl, receiver: &Receiver) -> Expected
    requires valid { IsValid list.now }
    requires receiver { IsReceiver list.now receiver.now }
    ensures value { awaited_meant result ≡ awaited_by receiver.now }
    ensures expected { IsExpected list.now result }
{
    let sender = receiver.coming.sender();
    let (first, second) = receiver
        .ack
        .candidates(receiver.number, receiver.members, sender);
    Expected {
        place: receiver.coming,
        first,
        second,
    }
}

// Whether the bytes are the expected frame with these members, with others, or no frame of its form.
#[inline(always)]
fn match_with(
    list: &Medl,
    expected: &Expected,
    members: NodeSet,
    known: &mut KnownFrame,
) -> FrameMatch
    requires valid { IsValid list.now }
    requires place { ClockStandsFor expected.now.place list.now expected.now.place.place }
    requires members { HaveRoom (is_wide list.now) members }
    requires known { known.old.list ≡ list.now }
    ensures keeps { known.new ≡ known.old }
    ensures fits { (result ≡ FrameMatch.Match)
        ↔ IsTrue (fits_members list.now (awaited_meant expected.now) known.old.bytes members) }
    ensures formed { (result ≡ FrameMatch.Invalid)
        ↔ IsTrue (not (is_expected_form list.now (awaited_meant expected.now) known.old.bytes)) }
{
    known.judge(list, &expected.place, members)
}

// Whether the bytes are the expected frame with the members of the second candidate.
#[inline(always)]
fn fits_second(list: &Medl, expected: &Expected, known: &mut KnownFrame) -> bool
    requires valid { IsValid list.now }
    requires expected { IsExpected list.now expected.now }
    requires known { known.old.list ≡ list.now }
    ensures keeps { known.new ≡ known.old }
    ensures value { result ≡ fits_second list.now (awaited_meant expected.now) known.old.bytes }
{
    match expected.second {
        Some(members) => match_with(list, expected, members, known) == FrameMatch::Match,
        None => false,
    }
}

// How bytes are seen that came within the window.
#[inline(always)]
fn view_of_frame(list: &Medl, expected: &Expected, known: &mut KnownFrame) -> ChannelView
    requires valid { IsValid list.now }
    requires expected { IsExpected list.now expected.now }
    requires known { known.old.list ≡ list.now }
    ensures keeps { known.new ≡ known.old }
    ensures view { result
        ≡ if is_expected_form list.now (awaited_meant expected.now) known.old.bytes
        then view_of_frame list.now (awaited_meant expected.now) known.old.bytes else ChannelView.Bad }
{
    match match_with(list, expected, expected.first, known) {
        FrameMatch::Match => ChannelView::First,
        FrameMatch::Invalid => ChannelView::Bad,
        FrameMatch::Differs => {
            if fits_second(list, expected, known) {
                ChannelView::Second
            } else {
                ChannelView::Other
            }
        }
    }
}

fn is_within_window(list: &Medl, deviation: i64) -> bool
    requires { IsValid list.now }
    ensures { result ≡ is_within_window list.now deviation }
{
    -list.window <= deviation && deviation <= list.window
}

#[inline(always)]
fn view_of_bits(
    list: &Medl,
    expected: &Expected,
    known: &mut KnownFrame,
    deviation: i64,
) -> ChannelView
    requires valid { IsValid list.now }
    requires expected { IsExpected list.now expected.now }
    requires known { known.old.list ≡ list.now }
    ensures keeps { known.new ≡ known.old }
    ensures view { result ≡ view_of_bits list.now (awaited_meant expected.now) known.old.bytes deviation }
{
    if is_within_window(list, deviation) {
        view_of_frame(list, expected, known)
    } else {
        ChannelView::Bad
    }
}

// What a receiver sees on a channel.
#[inline(always)]
fn see(
    list: &Medl,
    expected: &Expected,
    reading: &Reading,
    came: &Arrival,
    known: &mut KnownFrame,
) -> Seen
    requires valid { IsValid list.now }
    requires expected { IsExpected list.now expected.now }
    requires fits { ReadingFits reading.now.own came.now reading.now.error }
    requires known { IsKnownOf list.now came.now known.old }
    ensures keeps { known.new ≡ known.old }
    ensures seen { ForSignals came.now reading.now.own reading.now.error (λ sent deviation.
        IsSeen result list.now (awaited_meant expected.now) sent deviation) }
{
    match came {
        Arrival::Silence => Seen {
            view: ChannelView::Silent,
            deviation: None,
        },
        Arrival::Noise => Seen {
            view: ChannelView::Bad,
            deviation: None,
        },
        Arrival::Bits { offset, .. } => {
            let deviation = deviation_of(*offset, reading);
            Seen {
                view: view_of_bits(list, expected, known, deviation),
                deviation: Some(deviation),
            }
        }
    }
}

// The deviation of the channel that carried bits, and where both did, of the one that is taken.
fn entry_deviation(from_a: bool, a: Option<i64>, b: Option<i64>) -> i64
    ensures { result ≡ entry_deviation from_a a b }
{
    match (a, b) {
        (None, None) => 0,
        (Some(deviation), None) | (None, Some(deviation)) => deviation,
        (Some(of_a), Some(of_b)) => { if from_a { of_a } else { of_b } }
    }
}

fn is_first_view(view: ChannelView) -> bool
    ensures { result ≡ is_first_view view }
{
    view == ChannelView::First
}

// A check word costs time, so channel B is judged only where A's view does not settle the verdict.
#[inline(always)]
fn judged_by(
    list: &Medl,
    expected: &Expected,
    ack: Ack,
    reading: &Reading,
    a: &Arrival,
    b: &Arrival,
    known: &mut KnownFrames,
) -> Judgement
    requires valid { IsValid list.now }
    requires expected { IsExpected list.now expected.now }
    requires a { ReadingFits reading.now.own a.now reading.now.error }
    requires b { ReadingFits reading.now.own b.now reading.now.error }
    requires known { AreKnownOf list.now a.now b.now known.old }
    ensures keeps { known.new ≡ known.old }
    ensures judgement { ForHearings a.now b.now reading.now.own reading.now.error (λ h.
        IsJudgement result list.now (awaited_meant expected.now) ack h) }
{
    let on_a = see(list, expected, reading, a, &mut known.a);
    if is_first_view(on_a.view) {
        return Judgement {
            verdict: Verdict::Correct,
            deviation: on_a.deviation.unwrap_or(0),
            from_a: true,
        };
    }
    let on_b = see(list, expected, reading, b, &mut known.b);
    let taken_from_a = is_taken_from_a(on_a.view, on_b.view);
    Judgement {
        verdict: slot_verdict(on_a.view, on_b.view, ack),
        deviation: entry_deviation(taken_from_a, on_a.deviation, on_b.deviation),
        from_a: false,
    }
}

/// What a receiver makes of what came on both channels: the verdict and the deviation of its entry.
///
/// It costs at most two check words for each channel.
#[inline(always)]
pub(crate) fn judging(
    list: &Medl,
    receiver: &Receiver,
    reading: &Reading,
    a: &Arrival,
    b: &Arrival,
    known: &mut KnownFrames,
) -> Judgement
    requires valid { IsValid list.now }
    requires receiver { IsReceiver list.now receiver.now }
    requires a { ReadingFits reading.now.own a.now reading.now.error }
    requires b { ReadingFits reading.now.own b.now reading.now.error }
    requires known { AreKnownOf list.now a.now b.now known.old }
    ensures keeps { known.new ≡ known.old }
    ensures judgement { (past : NodePast) → Receives list.now past receiver.now
        → ForHearings a.now b.now reading.now.own reading.now.error (λ h.
        IsJudgement result list.now (expected_of list.now receiver.now.number past) past.ack h) }
{
    let expected = expected_of(list, receiver);
    judged_by(list, &expected, receiver.ack.value(), reading, a, b, known)
}

/// The entry of a verdict on this sender. A node that is denied leaves.
pub(crate) fn judged_entry(sender: u8, judgement: &Judgement) -> Entry
    ensures value { result ≡ verdict_entry sender judgement.now.verdict judgement.now.deviation }
    ensures judging { (list : Medl) (k : ℕ) (past : NodePast) (h : Hearing) → sender ≡ (coming_place list past).slot
        → IsJudgement judgement.now list (expected_of list k past) past.ack h → result ≡ judging_entry list k past h }
{
    match judgement.verdict {
        Verdict::Denied => Entry::Left {
            reason: Reason::Denied,
            peer: sender,
        },
        verdict => Entry::Judged {
            sender,
            verdict,
            deviation: judgement.deviation,
        },
    }
}

// Delivery.

// The bytes that stand in the payload's place in a frame of this form.
fn payload_in<'a>(form: &Expect, bytes: &'a [u8]) -> &'a [u8]
    ensures value { result.now ≡ payload_in (member_bytes form.now.wide) form.now.header form.now.payload bytes.now }
    ensures bound { length result.now ≤ form.now.payload }
{
    let carried = match (form.header, form.wide) {
        (0, _) => 0,
        (_, true) => 7,
        (_, false) => 6,
    };
    let behind = &bytes[bytes.len().min(1 + carried)..];
    &behind[..behind.len().min(form.payload as usize)]
}

// The payload that came on a channel, in a frame of this form, as it lies there.
fn payload_heard<'a>(form: &Expect, came: &Arrival<'a>) -> &'a [u8]
    ensures value { (list : Medl) (place : Place) (own error : ℤ) → IsFormOf list place form.now
        → ForSignals came.now own error (λ sent deviation. result.now ≡ payload_heard list place sent) }
    ensures bound { length result.now ≤ form.now.payload }
{
    match came {
        Arrival::Silence | Arrival::Noise => &[],
        Arrival::Bits { bytes, .. } => payload_in(form, bytes),
    }
}

/// Takes away what a slot left for a host. A payload is large, so where nothing was left, nothing is
/// written.
pub(crate) fn take_away(delivered: &mut Option<Delivered>)
    ensures { delivered.new ≡ None }
{
    if delivered.is_some() {
        *delivered = None;
    }
}

/// What a receiver hands to its host: the payload of a correct frame, if it carries payload, from
/// channel A where A's frame was of the first candidate, and else from B. It is written in place.
pub(crate) fn deliver(
    list: &Medl,
    receiver: &Receiver,
    judgement: &Judgement,
    a: &Arrival,
    b: &Arrival,
    delivered: &mut Option<Delivered>,
)
    requires valid { IsValid list.now }
    requires receiver { IsReceiver list.now receiver.now }
    ensures { (k : ℕ) (past : NodePast) (own error : ℤ)
        → ClockStandsFor receiver.now.coming list.now (coming_place list.now past)
        → ForHearings a.now b.now own error (λ h.
        IsJudgement judgement.now list.now (expected_of list.now k past) past.ack h
        → delivered.new ≡ delivery list.now k past h (judging_entry list.now k past h)) }
{
    let form = form_of(list, &receiver.coming);
    if judgement.verdict != Verdict::Correct || form.payload == 0 {
        take_away(delivered);
        return;
    }
    let payload = if judgement.from_a {
        payload_heard(&form, a)
    } else {
        payload_heard(&form, b)
    };
    *delivered = Some(Delivered {
        sender: receiver.coming.sender(),
        payload: Payload::of(payload),
    });
}
