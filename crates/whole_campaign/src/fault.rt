//! The line of a fault.
ghost use Rattle.whole_campaign.specs.Own.{common_of};
ghost use Rattle.std.specs.Prelude.{◌≡◌, ◌+◌, ◌≤◌, ◌<◌, ◌++◌, length, codes, is_some, IfSome, option_map};
ghost use Rattle.campaign.specs.CostText.{channels_word, kind_word, loss_words};
ghost use Rattle.whole_campaign.specs.Runs.{run_words_of};
ghost use Rattle.whole_campaign.specs.Words.{line_said};
ghost use Rattle.whole_campaign.specs.Faults.{channels_at, loss_at, loss_end, doing_label, doing_in, is_loss_of};
ghost use Rattle.whole_campaign.specs.Faults.{jump_form, jump_told, is_jump_value, is_jump_of, is_fault_of, first_place};
ghost use Rattle.whole_campaign.specs.Faults.{is_last_place, place_behind};
ghost use Rattle.whole_campaign.specs.Faults.{is_same_node, is_later, is_same_doing, stands_behind, lies_in};
ghost use Rattle.whole_campaign.specs.Faults.{fault_words_of, fault_words_in, spot_in, is_spot_due};
ghost use Rattle.whole_campaign.specs.Faults.{shown_at, fault_line_in};

use crate::cost::cost_in;
use crate::cut::word_behind;
use crate::listed::{node_numeral, slot_numeral};
use crate::own::Frame;
use crate::run_words::{RunWords, run_words_in};
use crate::shown::{Doing, FaultShown, Piece};
use crate::spot::Spot;
use crate::test::{is_same_test, test_in, test_says_yes};
use line_form::{Reader, put_number};
use line_text::after_label;
use ttp_base::Line;

// The place behind the last loss, and behind the losses of one slot.
const LOSSES: u8 = 12;

const SLOT_LOSSES: u8 = 6;

// The last places of a group of losses and of one of jumps.
const LAST_LOSS: u8 = 11;

const LAST_JUMP: u8 = 15;

fn doing_label(doing: Doing) -> &'static str
    ensures value { result.now ≡ doing_label doing }
    ensures short { length result.now ≤ 8 }
{
    match doing {
        Doing::Send => "send ",
        Doing::Receive => "receive ",
        Doing::Jump => "jump ",
    }
}

// The first word of a fault.
#[tactic(auto, unfolding(crate::specs::Faults::doing_in))]
fn doing_in(words: &[u8]) -> Option<Doing>
    ensures { result ≡ doing_in words.now }
{
    if after_label(b"send ".as_slice(), words).is_some() {
        Some(Doing::Send)
    } else if after_label(b"receive ".as_slice(), words).is_some() {
        Some(Doing::Receive)
    } else if after_label(b"jump ".as_slice(), words).is_some() {
        Some(Doing::Jump)
    } else {
        None
    }
}

// The channels of a place, as a word.
fn channels_text(place: u8) -> &'static str
    requires { place < 12 }
    ensures value { result.now ≡ channels_word (channels_at place) }
    ensures short { length result.now ≤ 2 }
{
    match place % SLOT_LOSSES / 2 {
        0 => "AB",
        1 => "A",
        _ => "B",
    }
}

fn loss_text(place: u8) -> &'static str
    ensures value { result.now ≡ kind_word (loss_at place) }
    ensures short { length result.now ≤ 7 }
{
    if place % 2 == 0 { "silence" } else { "noise" }
}

fn loss_end(slots: u32, slot: u32, place: u8) -> u32
    requires { 1 ≤ slots }
    ensures { result ≡ loss_end slots slot place }
{
    if place < SLOT_LOSSES { slot } else { slots - 1 }
}

// Adds the words of the channels and of the loss of a place.
#[tactic(auto, using(ttp_base::proofs::Room::room))]
fn put_loss(line: &mut Line, place: u8)
    requires loss { place < 12 }
    requires room { length line.old + 20 ≤ 640 }
    ensures text { line.new ≡ line.old ++ codes " " ++ channels_word (channels_at place) ++ codes " "
        ++ kind_word (loss_at place) }
    ensures few { length line.new ≤ length line.old + 20 }
{
    line.put_text(" ");
    line.put_text(channels_text(place));
    line.put_text(" ");
    line.put_text(loss_text(place));
}

// Whether a fault is the loss of this spot, in a run of so many slots.
#[tactic(auto, unfolding(crate::specs::Faults::is_loss_of, line_form::specs::Forms::worded))]
fn is_loss_of(slots: u32, spot: &Spot, words: &[u8]) -> bool
    requires slots { 1 ≤ slots }
    requires loss { spot.now.place < 12 }
    ensures { result ≡ is_loss_of slots spot.now words.now }
{
    let end = loss_end(slots, spot.slot, spot.place);
    let mut due = Line::new();
    put_number(&mut due, doing_label(spot.doing), u64::from(spot.node));
    put_loss(&mut due, spot.place);
    put_number(&mut due, " ", u64::from(spot.slot));
    put_number(&mut due, " ", u64::from(end));
    words == due.bytes()
}

// Whether a clock jumps as at this place.
fn is_jump_value(place: u8, value: i64) -> bool
    ensures { result ≡ is_jump_value place value }
{
    if place % 2 == 1 { value < 0 } else { 0 < value }
}

// The node, the value and the slot of a jump.
#[derive(Clone, Copy)]
struct JumpWords {
    node: u8,
    value: i64,
    slot: u32,
}

fn jump_words_in(words: &[u8]) -> Option<JumpWords>
    ensures { result ≡ line_said jump_form jump_told words.now }
{
    let mut line = Reader::of(words);
    let node = line.byte("jump ");
    let value = line.signed(" ", 1_000_000_000);
    let slot = line.number(" ", 100_000) as u32;
    line.close(JumpWords { node, value, slot })
}

// Whether a jump is that of this spot.
fn is_jump_of(spot: &Spot, jump: &Option<JumpWords>) -> bool
    ensures { result ≡ is_jump_of spot.now jump.now }
{
    match jump {
        Some(jump) => {
            jump.node == spot.node
                && jump.slot == spot.slot
                && is_jump_value(spot.place, jump.value)
        }
        None => false,
    }
}

fn is_fault_of(slots: u32, spot: &Spot, words: &[u8]) -> bool
    requires { 1 ≤ slots }
    ensures { result ≡ is_fault_of slots spot.now words.now }
{
    if spot.place < LOSSES {
        is_loss_of(slots, spot, words)
    } else {
        is_jump_of(spot, &jump_words_in(words))
    }
}

fn first_place(doing: Doing) -> u8
    ensures { result ≡ first_place doing }
{
    match doing {
        Doing::Jump => LOSSES,
        _ => 0,
    }
}

/// Whether a place is the last of a group.
pub(crate) fn is_last_place(place: u8) -> bool
    ensures { result ≡ is_last_place place }
{
    place == LAST_LOSS || place == LAST_JUMP
}

// The place of a fault behind another.
fn place_behind(before: &Option<Spot>, doing: Doing) -> u8
    requires { IfSome before.now (λ s. s.place < 16) }
    ensures value { result ≡ place_behind before.now doing }
    ensures few { result < 16 }
{
    match before {
        None => first_place(doing),
        Some(before) => {
            if is_last_place(before.place) {
                first_place(doing)
            } else {
                before.place + 1
            }
        }
    }
}

fn is_same_node(before: &Spot, spot: &Spot) -> bool
    ensures { result ≡ is_same_node before.now spot.now }
{
    spot.slot == before.slot && spot.node == before.node
}

fn is_later(before: &Spot, spot: &Spot) -> bool
    ensures { result ≡ is_later before.now spot.now }
{
    before.slot < spot.slot || (spot.slot == before.slot && before.node < spot.node)
}

fn is_same_doing(one: Doing, other: Doing) -> bool
    ensures { result ≡ is_same_doing one other }
{
    match (one, other) {
        (Doing::Send, Doing::Send) => true,
        (Doing::Receive, Doing::Receive) => true,
        (Doing::Jump, Doing::Jump) => true,
        _ => false,
    }
}

// Whether a fault may stand behind another.
fn stands_behind(before: &Option<Spot>, spot: &Spot) -> bool
    ensures { result ≡ stands_behind before.now spot.now }
{
    match before {
        None => true,
        Some(before) => {
            if is_last_place(before.place) {
                is_later(before, spot)
                    || (is_same_node(before, spot)
                        && before.place == LAST_LOSS
                        && spot.place == LOSSES)
            } else {
                is_same_node(before, spot) && is_same_doing(before.doing, spot.doing)
            }
        }
    }
}

// Whether the node is one of the cluster, and the slot one of the range that there is.
fn lies_in(frame: &Frame, piece: &Piece, spot: &Spot) -> bool
    ensures { result ≡ lies_in (common_of frame.now) piece.now spot.now }
{
    spot.node < frame.nodes
        && spot.slot < frame.slots
        && piece.first <= spot.slot
        && spot.slot <= piece.last
}

// The slot and the node of a fault, and the words of its run.
#[derive(Clone, Copy)]
struct FaultWords<'a> {
    slot: u32,
    node: u8,
    run: RunWords<'a>,
}

#[tactic(auto, unfolding(crate::specs::Faults::fault_words_in))]
fn fault_words_in<'a>(bytes: &'a [u8]) -> Option<FaultWords<'a>>
    ensures { option_map fault_words_of result ≡ fault_words_in bytes.now }
{
    let (s, rest) = word_behind(b' ', "slot ", bytes)?;
    let (k, rest) = word_behind(b' ', " node ", rest)?;
    let run = run_words_in(rest)?;
    let slot = slot_numeral(s)?;
    let node = node_numeral(k)?;
    Some(FaultWords { slot, node, run })
}

// Where a fault stands behind another.
#[tactic(auto, unfolding(crate::specs::Faults::spot_in))]
fn spot_in(before: &Option<Spot>, words: &FaultWords) -> Option<Spot>
    requires { IfSome before.now (λ s. s.place < 16) }
    ensures value { result ≡ spot_in before.now (fault_words_of words.now) }
    ensures few { IfSome result (λ s. s.place < 16) }
{
    let doing = doing_in(words.run.fault)?;
    Some(Spot {
        slot: words.slot,
        node: words.node,
        doing,
        place: place_behind(before, doing),
    })
}

fn is_spot_due(
    frame: &Frame,
    piece: &Piece,
    before: &Option<Spot>,
    spot: &Spot,
    fault: &[u8],
) -> bool
    requires { 1 ≤ frame.now.slots }
    ensures { result ≡ is_spot_due (common_of frame.now) piece.now before.now spot.now fault.now }
{
    lies_in(frame, piece, spot)
        && stands_behind(before, spot)
        && is_fault_of(frame.slots, spot, fault)
}

// What a line says of the fault of a spot.
#[tactic(auto, unfolding(crate::specs::Faults::shown_at))]
fn shown_at(frame: &Frame, spot: &Spot, run: &RunWords) -> Option<FaultShown>
    requires { frame.now.nodes ≤ 24 }
    ensures value { result ≡ shown_at (common_of frame.now) spot.now (run_words_of run.now) }
    ensures place { IfSome result (λ f. f.place ≡ spot.now.place) }
{
    let test = test_in(run.test)?;
    let cost = cost_in(frame.nodes, frame.slots, run.cost)?;
    if !is_same_test(frame.own.test, test) {
        return None;
    }
    Some(FaultShown {
        slot: spot.slot,
        node: spot.node,
        doing: spot.doing,
        place: spot.place,
        yes: test_says_yes(test),
        same: run.cost == frame.own.cost,
        hurt: cost.hurt,
        split: cost.split,
        memberships: cost.memberships,
        company: cost.company,
    })
}

/// What a line says, without its line feed, if it is that of a fault which is due behind another.
#[tactic(auto, unfolding(crate::specs::Faults::fault_line_in))]
pub(crate) fn fault_line_in(
    frame: &Frame,
    piece: &Piece,
    before: &Option<Spot>,
    bytes: &[u8],
) -> Option<FaultShown>
    requires nodes { frame.now.nodes ≤ 24 }
    requires slots { 1 ≤ frame.now.slots }
    requires place { IfSome before.now (λ s. s.place < 16) }
    ensures value { result ≡ fault_line_in (common_of frame.now) piece.now before.now bytes.now }
    ensures few { IfSome result (λ f. f.place < 16) }
{
    let words = fault_words_in(bytes)?;
    let spot = spot_in(before, &words)?;
    let shown = shown_at(frame, &spot, &words.run)?;
    if is_spot_due(frame, piece, before, &spot, words.run.fault) {
        Some(shown)
    } else {
        None
    }
}
