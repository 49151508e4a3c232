//! The flags of the tests.
#![tactic(auto, using(ttp_base::proofs::Room::room))]

ghost use Rattle.std.specs.Prelude.{◌≡◌, ◌+◌, ◌-◌, ◌*◌, ◌<◌, ◌≤◌, [], ◌∷◌, ◌++◌, length, codes};
ghost use Rattle.picture_text.specs.Picture.{class_of, text_line, is_shown, keep_flag, back_flag, flag_pole};
ghost use Rattle.ttp_base.specs.Sheet.{Puts};
ghost use Rattle.picture_text.specs.Tables.{keep_name, keep_slot, back_name, back_slot};
ghost use Rattle.picture_text.specs.Window.{column_x, row_y};

use crate::element::{close_text, open_text_of, put_field};
use crate::grid::{column_x, row_y};
use crate::layout::Layout;
use ttp_base::{Line, Sheet, Sink};
use ttp_world::{Back, Keep};

fn is_shown(layout: Layout, slot: u32) -> bool
    ensures { result ≡ is_shown layout.span slot }
{
    layout.span.first <= slot && slot <= layout.span.last
}

// Makes the line that stands for the flag of a slot.
fn make_pole(line: &mut Line, layout: Layout, slot: u32)
    ensures { line.new ≡ flag_pole layout.head.nodes layout.span slot }
{
    line.clear();
    let words = "<path class=\"flag\" d=\"M";
    put_field(line, words, column_x(layout, slot) - 1);
    put_field(line, " ", row_y(layout, slot, 0) - 26);
    put_field(line, "v", 20 * u64::from(layout.head.nodes) + 26);
    line.put_text("\"/>\n");
}

// Adds what the flag of the hypothesis test shows.
fn put_keep_name(line: &mut Line, keep: &Keep)
    requires { length line.old ≤ 600 }
    ensures text { line.new ≡ line.old ++ keep_name keep.now }
    ensures short { length line.new ≤ length line.old + 21 }
{
    match keep {
        Keep::Yes { .. } => line.put_text("start"),
        Keep::No { rule, .. } => put_field(line, "H", u64::from(*rule)),
    }
}

// The slot that the hypothesis test names.
fn keep_slot(keep: &Keep) -> u32
    ensures { result ≡ keep_slot keep.now }
{
    match keep {
        Keep::Yes { start } => *start,
        Keep::No { slot, .. } => *slot,
    }
}

// Makes what the flag shows.
fn make_keep_flag(line: &mut Line, layout: Layout, slot: u32, keep: &Keep)
    ensures { line.new ≡ text_line (class_of (codes "keep")) (column_x layout.head.nodes layout.span slot - 4)
        (row_y layout.head.nodes layout.span slot 0 - 17) (keep_name keep.now) }
{
    let x = column_x(layout, slot) - 4;
    let y = row_y(layout, slot, 0) - 17;
    open_text_of(line, "keep", x, y);
    put_keep_name(line, keep);
    close_text(line);
}

/// Writes the flag of the hypothesis test, where its slot is shown.
pub(crate) fn put_keep_flag<K: Sink>(layout: Layout, keep: Keep, sheet: &mut Sheet, out: &mut K)
    ensures { Puts sheet.old.failed (K.output out.old) sheet.new.failed (K.output out.new)
        (keep_flag layout.head.nodes layout.span keep) }
{
    let slot = keep_slot(&keep);
    if is_shown(layout, slot) {
        make_pole(&mut sheet.line, layout, slot);
        sheet.write(out);
        make_keep_flag(&mut sheet.line, layout, slot, &keep);
        sheet.write(out);
    }
}

// Adds what the flag of the test on armed nodes shows.
fn put_back_name(line: &mut Line, back: &Back)
    requires { length line.old ≤ 600 }
    ensures text { line.new ≡ line.old ++ back_name back.now }
    ensures short { length line.new ≤ length line.old + 21 }
{
    match back {
        Back::Yes { .. } => line.put_text("start"),
        Back::No { rule, .. } => put_field(line, "Q", u64::from(*rule)),
    }
}

// The slot that the answer on armed nodes names.
fn back_slot(back: &Back) -> u32
    ensures { result ≡ back_slot back.now }
{
    match back {
        Back::Yes { start } => *start,
        Back::No { slot, .. } => *slot,
    }
}

// Makes what the flag shows.
fn make_back_flag(line: &mut Line, layout: Layout, slot: u32, back: &Back)
    ensures { line.new ≡ text_line (class_of (codes "back")) (column_x layout.head.nodes layout.span slot + 3)
        (row_y layout.head.nodes layout.span slot 0 - 17) (back_name back.now) }
{
    let x = column_x(layout, slot) + 3;
    let y = row_y(layout, slot, 0) - 17;
    open_text_of(line, "back", x, y);
    put_back_name(line, back);
    close_text(line);
}

// Writes the flag of the answer on armed nodes, where its slot is shown.
fn put_flag_of<K: Sink>(layout: Layout, back: Back, sheet: &mut Sheet, out: &mut K)
    ensures { Puts sheet.old.failed (K.output out.old) sheet.new.failed (K.output out.new)
        (back_flag layout.head.nodes layout.span (Some back)) }
{
    let slot = back_slot(&back);
    if is_shown(layout, slot) {
        make_pole(&mut sheet.line, layout, slot);
        sheet.write(out);
        make_back_flag(&mut sheet.line, layout, slot, &back);
        sheet.write(out);
    }
}

/// Writes it where the trace has such an answer.
#[tactic(auto, using(ttp_base::proofs::Puts::puts_then, ttp_base::proofs::Puts::puts_none))]
pub(crate) fn put_back_flag<K: Sink>(
    layout: Layout,
    back: Option<Back>,
    sheet: &mut Sheet,
    out: &mut K,
)
    ensures { Puts sheet.old.failed (K.output out.old) sheet.new.failed (K.output out.new)
        (back_flag layout.head.nodes layout.span back) }
{
    if let Some(back) = back {
        put_flag_of(layout, back, sheet, out);
    }
}
