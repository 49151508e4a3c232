//! How to read a chart: its key and its legend.
#![tactic(auto, using(ttp_base::proofs::Room::room))]

ghost use Rattle.std.specs.Prelude.{◌≡◌, ◌^◌, ◌<◌, ◌≤◌, map};
ghost use Rattle.ttp_base.specs.NodeSet.{below};
ghost use Rattle.ttp_base.specs.Text.{lines_below};
ghost use Rattle.ttp_base.specs.Sheet.{Puts};
ghost use Rattle.chart_text.specs.Key.{how_to_read, words_meant, key_x, key_y, key_square, key_lines, look_x, look_y, look_entry};
ghost use Rattle.chart_text.specs.Key.{look_legend};

use crate::element::{make_look_cell, make_words};
use crate::kind::{marks_above, marks_left, put_key_said};
use crate::look::{LOOKS, look_at, look_meaning};
use picture_text::{Corner, close_cell, make_text, make_text_of, put_place};
use ttp_base::{Line, Sheet, Sink};

// The places of faults.
const PLACES: u8 = 16;

fn key_x(place: u8) -> u64
    ensures value { result ≡ key_x place }
    ensures low { result ≤ 1000 }
{
    let left = marks_left(place);
    132 + 82 * u64::from(left) + if 5 < left { 8 } else { 0 }
}

fn key_y(top: u64, place: u8) -> u64
    requires { top ≤ 2 ^ 31 }
    ensures value { result ≡ key_y top place }
    ensures low { result ≤ 2 ^ 32 }
{
    top + 90 + 20 * u64::from(marks_above(place))
}

// Makes the square of a place.
fn make_key_square(line: &mut Line, top: u64, place: u8)
    requires { top ≤ 2 ^ 31 }
    ensures { line.new ≡ key_square top place }
{
    let x = key_x(place);
    let y = key_y(top, place);
    line.clear();
    line.put_text("<g class=\"key\"><rect");
    put_place(line, x, y);
    line.put_text(" width=\"82\" height=\"20\"/><text");
    put_place(line, x + 41, y + 14);
    line.put_text(">");
    put_key_said(line, place);
    close_cell(line);
}

// Writes the squares of all places.
#[tactic(auto, using(ttp_base::proofs::Puts::puts))]
fn put_key_squares<K: Sink>(top: u64, sheet: &mut Sheet, out: &mut K)
    requires { top ≤ 2 ^ 31 }
    ensures { Puts sheet.old.failed (K.output out.old) sheet.new.failed (K.output out.new)
        (map (key_square top) (below 16)) }
{
    for place in 0..PLACES {
        make_key_square(&mut sheet.line, top, place);
        sheet.write(out);
    }
}

/// Writes the key.
pub(crate) fn put_key<K: Sink>(top: u64, sheet: &mut Sheet, out: &mut K)
    requires { top ≤ 2 ^ 31 }
    ensures { Puts sheet.old.failed (K.output out.old) sheet.new.failed (K.output out.new) (key_lines top) }
{
    put_key_squares(top, sheet, out);
    make_text_of(&mut sheet.line, "row", 124, top + 104, "this slot alone");
    sheet.write(out);
    make_text_of(&mut sheet.line, "row", 124, top + 124, "to the end");
    sheet.write(out);
}

/// Writes how to read a chart.
pub(crate) fn put_how_to_read<K: Sink>(top: u64, sheet: &mut Sheet, out: &mut K)
    requires { top ≤ 2 ^ 31 }
    ensures { Puts sheet.old.failed (K.output out.old) sheet.new.failed (K.output out.new) (how_to_read top) }
{
    make_text_of(&mut sheet.line, "said", 12, top + 8, "how to read it");
    sheet.write(out);
    let words =
        "A cell is a node in a slot: up to sixteen faults that begin there, each tried in a run of its own. Its colour says what the worst of them does, its number how";
    make_words(&mut sheet.line, 12, top + 28, words);
    sheet.write(out);
    let words =
        "many healthy nodes that one costs. A blue frame: the node sends in this slot. Below a cell stands a mark for each fault that changed something; the pointer over";
    make_words(&mut sheet.line, 12, top + 44, words);
    sheet.write(out);
    let words =
        "it shows its line. harmful: hurt, split, torn or dead. healthy: not faulty by the rules of the hypothesis; it may be the fault's own node. worst: dead before";
    make_words(&mut sheet.line, 12, top + 60, words);
    sheet.write(out);
    let words = "torn, split and hurt, and then by the number of healthy nodes lost.";
    make_words(&mut sheet.line, 12, top + 76, words);
    sheet.write(out);
}

/// Writes what the words of a campaign mean.
pub(crate) fn put_words_meant<K: Sink>(top: u64, sheet: &mut Sheet, out: &mut K)
    requires { top ≤ 2 ^ 31 }
    ensures { Puts sheet.old.failed (K.output out.old) sheet.new.failed (K.output out.new) (words_meant top) }
{
    let words =
        "silence: a frame is lost. noise: it comes spoilt. AB, A, B: on both channels, or on one. If the node sends in the slot, for all; otherwise for this node alone.";
    make_words(&mut sheet.line, 12, top + 152, words);
    sheet.write(out);
    let words =
        "jump: the clock of the node jumps ahead, or back (-). W: the window of the list; a frame that is further from its receiver's clock is not taken.";
    make_words(&mut sheet.line, 12, top + 168, words);
    sheet.write(out);
    let words =
        "without any of them: left: who left, as NODE:SLOT:WHY; hurt: the healthy ones of them; split: first and last slot in which healthy nodes held different members;";
    make_words(&mut sheet.line, 12, top + 184, words);
    sheet.write(out);
    let words =
        "end: the memberships at the end, each as a number in base 16, in which bit k is node k.";
    make_words(&mut sheet.line, 12, top + 200, words);
    sheet.write(out);
}

// Where the entry of a look stands.
fn look_corner(top: u64, number: u8) -> Corner
    requires { top ≤ 2 ^ 31 }
    ensures x { result.x ≡ look_x number }
    ensures y { result.y ≡ look_y top number }
    ensures near { (result.x ≤ 2 ^ 31) × (result.y ≤ 2 ^ 32) }
{
    Corner {
        x: 12 + 560 * u64::from(number / 5),
        y: top + 214 + 20 * u64::from(number % 5),
    }
}

/// Writes the legend.
#[tactic(auto, using(ttp_base::proofs::Puts::puts_none, ttp_base::proofs::Puts::puts_below))]
pub(crate) fn put_legend<K: Sink>(top: u64, sheet: &mut Sheet, out: &mut K)
    requires { top ≤ 2 ^ 31 }
    ensures { Puts sheet.old.failed (K.output out.old) sheet.new.failed (K.output out.new)
        (look_legend top) }
{
    for number in 0..LOOKS {
        let look = look_at(number);
        let at = look_corner(top, number);
        make_look_cell(&mut sheet.line, look, at);
        sheet.write(out);
        make_text(&mut sheet.line, at.x + 32, at.y + 12, look_meaning(look));
        sheet.write(out);
    }
}
