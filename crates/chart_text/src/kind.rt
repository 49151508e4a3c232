//! The kinds of faults: their words, and where the marks of their places stand.
#![tactic(auto, using(ttp_base::proofs::Room::room))]

ghost use Rattle.std.specs.Prelude.{◌≡◌, ◌+◌, ◌<◌, ◌≤◌, ◌++◌, length};
ghost use Rattle.whole_campaign.specs.Faults.{first_place};
ghost use Rattle.chart_text.specs.Key.{key_said, kind_number, many_places};
ghost use Rattle.chart_text.specs.Looks.{doing_word, jump_said, loss_said, channels_said, stays_said, kind_said};
ghost use Rattle.chart_text.specs.Looks.{marks_left, marks_above};

use ttp_base::Line;
use whole_campaign::Doing;

/// The first word of a fault.
pub(crate) fn doing_word(doing: Doing) -> &'static str
    ensures text { result.now ≡ doing_word doing }
    ensures short { length result.now ≤ 7 }
{
    match doing {
        Doing::Send => "send",
        Doing::Receive => "receive",
        Doing::Jump => "jump",
    }
}

fn jump_said(place: u8) -> &'static str
    ensures text { result.now ≡ jump_said place }
    ensures short { length result.now ≤ 4 }
{
    match place {
        13 => "-4 W",
        14 => "W",
        15 => "-W",
        _ => { if place <= 12 { "4 W" } else { "" } }
    }
}

fn loss_said(place: u8) -> &'static str
    ensures text { result.now ≡ loss_said place }
    ensures short { length result.now ≤ 7 }
{
    if place % 2 == 0 { "silence" } else { "noise" }
}

fn channels_said(place: u8) -> &'static str
    ensures text { result.now ≡ channels_said place }
    ensures short { length result.now ≤ 2 }
{
    match place % 6 / 2 {
        0 => "AB",
        1 => "A",
        _ => "B",
    }
}

fn stays_said(place: u8) -> &'static str
    ensures text { result.now ≡ stays_said place }
    ensures short { length result.now ≤ 7 }
{
    if place < 6 { "" } else { ", stays" }
}

/// Adds what the key says of a place.
pub(crate) fn put_key_said(line: &mut Line, place: u8)
    requires { length line.old ≤ 600 }
    ensures text { line.new ≡ line.old ++ key_said place }
    ensures short { length line.new ≤ length line.old + 10 }
{
    if place < 12 {
        line.put_text(channels_said(place));
        line.put_text(" ");
        line.put_text(loss_said(place));
    } else {
        line.put_text("jump ");
        line.put_text(jump_said(place));
    }
}

/// Adds the fault of a place, in words.
pub(crate) fn put_kind(line: &mut Line, place: u8)
    requires { length line.old ≤ 600 }
    ensures text { line.new ≡ line.old ++ kind_said place }
    ensures short { length line.new ≤ length line.old + 20 }
{
    if place < 12 {
        line.put_text(channels_said(place));
        line.put_text(" ");
        line.put_text(loss_said(place));
        line.put_text(stays_said(place));
    } else {
        line.put_text(jump_said(place));
    }
}

/// How many marks are to the left of that of a place.
pub(crate) fn marks_left(place: u8) -> u8
    ensures value { result ≡ marks_left place }
    ensures few { result ≤ 7 }
{
    if place < 12 { place % 6 } else { 6 + place % 2 }
}

/// How many are above it.
pub(crate) fn marks_above(place: u8) -> u8
    ensures value { result ≡ marks_above place }
    ensures few { result ≤ 121 }
{
    if place < 12 {
        place / 6
    } else {
        (place - 12) / 2
    }
}

/// The number of a kind.
pub(crate) fn kind_number(doing: Doing, place: u8) -> u16
    ensures value { result ≡ kind_number doing place }
    ensures few { result ≤ 267 }
{
    match doing {
        Doing::Send => u16::from(place),
        Doing::Receive | Doing::Jump => 12 + u16::from(place),
    }
}

/// The first place of a word.
pub(crate) fn first_place(doing: Doing) -> u8
    ensures value { result ≡ first_place doing }
    ensures few { result ≤ 12 }
{
    match doing {
        Doing::Jump => 12,
        _ => 0,
    }
}

/// How many places it has.
pub(crate) fn many_places(doing: Doing) -> u8
    ensures value { result ≡ many_places doing }
    ensures few { result ≤ 12 }
{
    match doing {
        Doing::Jump => 4,
        _ => 12,
    }
}
