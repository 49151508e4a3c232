//! How a node sees what comes on a channel.
ghost use Rattle.causes.specs.LinesOf.{bytes_sent, heard_in};
ghost use Rattle.causes.specs.Members.{members_due};
ghost use Rattle.causes.specs.Missed.{view_of_signal};
ghost use Rattle.causes.specs.RunSlots.{past_in, place_of_node};
ghost use Rattle.entry_causes.specs.Differences.{IfDoubted};
ghost use Rattle.entry_causes.specs.Hearing.{IsHeardInSlot, signal_heard};
ghost use Rattle.entry_causes.specs.Seeing.{expected_at, view_within};
ghost use Rattle.entry_causes.specs.Senders.{sends_in};
ghost use Rattle.run_rows.specs.Rows.{run_slot};
ghost use Rattle.std.specs.Prelude.{IfSome, IsTrue, List, None, [], length, not, unsigned_abs, ℕ, ◌+ℤ◌, ◌+◌, ◌-ℤ◌, ◌<◌, ◌^◌, ◌↔◌, ◌≡◌};
ghost use Rattle.ttp_frame.specs.Match.{match_of};
ghost use Rattle.ttp_frame.specs.Shape.{HaveRoom};
ghost use Rattle.ttp_world.specs.Diary.{cstate_at, joined_place};
ghost use Rattle.ttp_world.specs.Medium.{Bits};
ghost use Rattle.ttp_world.specs.Medl.{IsValid, is_wide};
ghost use Rattle.ttp_world.specs.Reception.{candidates, expected_header, expected_length, expected_of};
ghost use Rattle.ttp_world.specs.Reception.{fits_members, fits_second, is_expected_form, is_within_window};
ghost use Rattle.ttp_world.specs.World.{deviation_in};

use crate::bus::{Heard, heard_in};
use crate::frames::frame_sent;
use crate::places::cstate_in;
use medium::Outgoing;
use run_rows::RunRows;
use ttp_base::NodeSet;
use ttp_frame::{Expect, FrameMatch, judge};
use ttp_world::{Ack, CState, Channel, ChannelView, Medl};

/// The members of the candidates for a sender of a node, by its acknowledgement.
pub(crate) fn candidates(
    ack: Ack,
    own: u8,
    members: NodeSet,
    sender: u8,
) -> (NodeSet, Option<NodeSet>)
    requires own { own < 24 }
    requires sender { sender < 24 }
    requires doubt { IfDoubted ack (λ x. x < 24) }
    ensures { record { first = result.0; second = result.1 } ≡ candidates ack own members sender }
{
    let members = members.with(sender);
    match ack {
        Ack::Closed => (members, None),
        Ack::First => (members.with(own), Some(members.without(own))),
        Ack::Doubt(doubted) => (
            members.with(own).without(doubted),
            Some(members.without(own).with(doubted)),
        ),
    }
}

// The members of a node's candidates in a slot that it judges, for the sender by its place.
fn candidates_at(run: &RunRows, slot: u32, node: u8, sender: u8) -> (NodeSet, Option<NodeSet>)
    requires valid { IsValid run.now.list }
    requires slot { slot < run.now.slots }
    requires node { node < length run.now.list.slots }
    requires place { sender ≡ (place_of_node node (run_slot run.now slot)).slot }
    requires sender { sender < length run.now.list.slots }
    ensures value { record { first = result.0; second = result.1 }
        ≡ (expected_of (run_slot run.now slot).begun.list node (past_in node (run_slot run.now slot))).candidates }
    ensures first { HaveRoom (is_wide run.now.list) result.0 }
    ensures second { IfSome result.1 (HaveRoom (is_wide run.now.list)) }
{
    let begun = &run.row(slot, node).begun;
    candidates(begun.ack, node, begun.cstate.members, sender)
}

/// The members of a node's first candidate in a slot that it judges.
pub(crate) fn members_due(run: &RunRows, slot: u32, node: u8) -> NodeSet
    requires slot { slot < run.now.slots }
    requires node { node < length run.now.list.slots }
    ensures { result ≡ members_due node (run_slot run.now slot) }
{
    let place = cstate_in(run, slot, node, NodeSet::empty());
    let (first, _) = candidates_at(run, slot, node, place.slot);
    first
}

// How late a frame comes, by the clocks of its sender and its receiver and the receiver's reading error.
fn deviation_of(sender: &i64, own: &i64, error: &i64) -> i64
    requires { unsigned_abs own.now + unsigned_abs sender.now + unsigned_abs error.now < 2 ^ 63 }
    ensures { result ≡ (sender.now -ℤ own.now) +ℤ error.now }
{
    *sender - *own + *error
}

/// How late a frame of a sender comes to a node in a slot.
pub(crate) fn deviation_in(run: &RunRows, slot: u32, node: u8, sender: u8) -> i64
    requires slot { slot < run.now.slots }
    requires node { node < length run.now.list.slots }
    requires sender { sender < length run.now.list.slots }
    ensures { result ≡ deviation_in (run_slot run.now slot).begun node sender }
{
    let incidents = run.script().incidents(node, slot);
    let from = run.clock(slot, sender);
    let own = run.clock(slot, node);
    deviation_of(&from, &own, &incidents.error)
}

/// A deviation lies within the list's window.
pub(crate) fn is_within_window(list: &Medl, deviation: &i64) -> bool
    requires { IsValid list.now }
    ensures { result ≡ is_within_window list.now deviation.now }
{
    -list.window <= *deviation && *deviation <= list.window
}

// How bytes are found by a node that expects a frame with this C-state.
fn found(list: &Medl, bytes: &[u8], cstate: &CState) -> FrameMatch
    requires valid { IsValid list.now }
    requires round { cstate.now.round < list.now.rounds }
    requires slot { cstate.now.slot < length list.now.slots }
    requires members { HaveRoom (is_wide list.now) cstate.now.members }
    ensures { result ≡ match_of (is_wide list.now) bytes.now (expected_header list.now (joined_place cstate.now))
        (expected_length list.now (joined_place cstate.now)) list.now.schedule cstate.now }
{
    let expect = Expect {
        wide: list.is_wide(),
        header: list.kind_at(cstate.round, cstate.slot).header(),
        payload: list.payload_length(cstate.round, cstate.slot),
    };
    judge(bytes, list.schedule, &expect, cstate)
}

// How bytes are found by a node that expects a frame of a place with these members.
fn found_with(list: &Medl, bytes: &[u8], place: &CState, members: NodeSet) -> FrameMatch
    requires valid { IsValid list.now }
    requires round { place.now.round < list.now.rounds }
    requires slot { place.now.slot < length list.now.slots }
    requires members { HaveRoom (is_wide list.now) members }
    ensures fits { (result ≡ FrameMatch.Match)
        ↔ IsTrue (fits_members list.now (expected_at (joined_place place.now) [] None) bytes.now members) }
    ensures formed { (result ≡ FrameMatch.Invalid)
        ↔ IsTrue (not (is_expected_form list.now (expected_at (joined_place place.now) [] None) bytes.now)) }
{
    let cstate = CState {
        time: place.time,
        round: place.round,
        slot: place.slot,
        members,
    };
    found(list, bytes, &cstate)
}

// Bytes are found to be the frame of a second candidate, if there is one.
fn fits_second(list: &Medl, bytes: &[u8], place: &CState, second: Option<NodeSet>) -> bool
    requires valid { IsValid list.now }
    requires round { place.now.round < list.now.rounds }
    requires slot { place.now.slot < length list.now.slots }
    requires members { IfSome second (HaveRoom (is_wide list.now)) }
    ensures { (first : List ℕ) → result ≡ fits_second list.now (expected_at (joined_place place.now) first second) bytes.now }
{
    match second {
        Some(members) => found_with(list, bytes, place, members) == FrameMatch::Match,
        None => false,
    }
}

// How bytes are seen that come within the window.
fn view_of_frame(
    list: &Medl,
    bytes: &[u8],
    place: &CState,
    first: NodeSet,
    second: Option<NodeSet>,
) -> ChannelView
    requires valid { IsValid list.now }
    requires round { place.now.round < list.now.rounds }
    requires slot { place.now.slot < length list.now.slots }
    requires first { HaveRoom (is_wide list.now) first }
    requires second { IfSome second (HaveRoom (is_wide list.now)) }
    ensures { result ≡ view_within list.now (expected_at (joined_place place.now) first second) bytes.now }
{
    match found_with(list, bytes, place, first) {
        FrameMatch::Match => ChannelView::First,
        FrameMatch::Invalid => ChannelView::Bad,
        FrameMatch::Differs => {
            if fits_second(list, bytes, place, second) {
                ChannelView::Second
            } else {
                ChannelView::Other
            }
        }
    }
}

// How a node sees bytes that come within the window.
fn view_in_window(run: &RunRows, slot: u32, node: u8, bytes: &[u8]) -> ChannelView
    requires slot { slot < run.now.slots }
    requires node { node < length run.now.list.slots }
    ensures { result ≡ view_within (run_slot run.now slot).begun.list
        (expected_of (run_slot run.now slot).begun.list node (past_in node (run_slot run.now slot))) bytes.now }
{
    let place = cstate_in(run, slot, node, NodeSet::empty());
    let (first, second) = candidates_at(run, slot, node, place.slot);
    view_of_frame(run.list(), bytes, &place, first, second)
}

/// How a node sees bytes of a sender.
pub(crate) fn view_of_bytes(
    run: &RunRows,
    slot: u32,
    node: u8,
    sender: u8,
    bytes: &[u8],
) -> ChannelView
    requires slot { slot < run.now.slots }
    requires node { node < length run.now.list.slots }
    requires sender { sender < length run.now.list.slots }
    ensures { result ≡ view_of_signal node (run_slot run.now slot) (Bits sender bytes.now) }
{
    let deviation = deviation_in(run, slot, node, sender);
    if is_within_window(run.list(), &deviation) {
        view_in_window(run, slot, node, bytes)
    } else {
        ChannelView::Bad
    }
}

/// How a node sees the frame of a sender as it was sent.
pub(crate) fn view_of_sent(run: &RunRows, slot: u32, node: u8, sender: u8) -> ChannelView
    requires slot { slot < run.now.slots }
    requires node { node < length run.now.list.slots }
    requires sender { sender < length run.now.list.slots }
    requires sends { IsTrue (sends_in (run_slot run.now slot) sender) }
    ensures { result ≡ view_of_signal node (run_slot run.now slot) (Bits sender (bytes_sent (run_slot run.now slot).frames sender)) }
{
    let sent: Outgoing = frame_sent(run, slot, sender);
    view_of_bytes(run, slot, node, sender, sent.as_slice())
}

/// How a node sees what it hears.
pub(crate) fn view_of(run: &RunRows, slot: u32, node: u8, heard: &Heard) -> ChannelView
    requires slot { slot < run.now.slots }
    requires node { node < length run.now.list.slots }
    requires heard { IsHeardInSlot run.now.list (run_slot run.now slot) heard.now }
    ensures { result ≡ view_of_signal node (run_slot run.now slot) (signal_heard heard.now) }
{
    match heard {
        Heard::Silence => ChannelView::Silent,
        Heard::Noise => ChannelView::Bad,
        Heard::Bits { sender, frame, .. } => {
            view_of_bytes(run, slot, node, *sender, frame.as_slice())
        }
    }
}

/// How a node sees a channel.
pub(crate) fn view_on(run: &RunRows, slot: u32, node: u8, channel: Channel) -> ChannelView
    requires slot { slot < run.now.slots }
    requires node { node < length run.now.list.slots }
    ensures { result ≡ view_of_signal node (run_slot run.now slot) (heard_in node (run_slot run.now slot) channel) }
{
    view_of(run, slot, node, &heard_in(run, slot, node, channel))
}
