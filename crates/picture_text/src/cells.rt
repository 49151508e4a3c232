//! The cells of a slot.
#![tactic(auto, using(ttp_base::proofs::Room::room))]

ghost use Rattle.std.specs.Prelude.{◌≡◌, ◌+◌, ◌-◌, ◌*◌, ◌<◌, ◌≤◌, [], ◌∷◌, ◌++◌, length, map, codes, decimal};
ghost use Rattle.ttp_base.specs.NodeSet.{below};
ghost use Rattle.shown_slot.specs.Nodes.{clock_range, node_apart};
ghost use Rattle.shown_slot.specs.Trace.{node_at};
ghost use Rattle.picture_text.specs.Cells.{doubt_class, other_class, data_class, refused_class, node_class, node_cell};
ghost use Rattle.picture_text.specs.Cells.{apart_text, short_number, apart_shown, clocks_cell, far_text, far_shown, far_cell};
ghost use Rattle.picture_text.specs.Picture.{number_lines, round_start_lines, cell_lines};
ghost use Rattle.ttp_base.specs.Sheet.{Puts};
ghost use Rattle.picture_text.specs.Window.{row_y, column_x};

use crate::element::{
    close_cell, close_title, make_number_of, make_round, open_cell, open_title, put_field,
};
use crate::grid::{column_x, corner, row_y};
use crate::layout::{Corner, Layout};
use crate::members::{held_by_most, memberships_of};
use crate::members_cell::put_members_cell;
use crate::tables::letter;
use crate::titles::put_node_text;
use shown_slot::{
    ClockRange, clock_range, is_holder, is_refused, node_apart, node_at, sends, starts_round,
    word_text,
};
use ttp_base::{Line, Sheet, Sink};
use ttp_world::Ack;
use whole_trace::{NodeShown, SlotShown};

// What the class of a node's cell says of doubt about its own frame.
fn doubt_class(node: &NodeShown) -> &'static str
    ensures text { result.now ≡ doubt_class node.now }
    ensures short { length result.now ≤ 6 }
{
    match node.ack {
        Ack::Doubt(_) => " doubt",
        _ => "",
    }
}

// That it holds other members than most.
fn other_class(node: &NodeShown, most: Option<u32>) -> &'static str
    ensures text { result.now ≡ other_class node.now most }
    ensures short { length result.now ≤ 6 }
{
    match most {
        Some(members) => {
            if is_holder(node) && node.members.bits() != members {
                " other"
            } else {
                ""
            }
        }
        None => "",
    }
}

// That it has a message.
fn data_class(node: &NodeShown) -> &'static str
    ensures text { result.now ≡ data_class node.now }
    ensures short { length result.now ≤ 5 }
{
    if node.message.is_some() { " data" } else { "" }
}

// That it sent a frame that is refused.
fn refused_class(node: &NodeShown, refused: bool) -> &'static str
    ensures text { result.now ≡ refused_class node.now refused }
    ensures short { length result.now ≤ 8 }
{
    if sends(node.word) && refused {
        " refused"
    } else {
        ""
    }
}

/// What the cells of a slot's nodes say of the slot: the members that most holders hold, and whether the frame is
/// refused.
#[derive(Clone, Copy)]
struct SlotFacts {
    most: Option<u32>,
    refused: bool,
}

// Adds the class of a node's cell.
fn put_class(line: &mut Line, node: &NodeShown, common: SlotFacts)
    requires { length line.old ≤ 20 }
    ensures text { line.new ≡ line.old ++ node_class node.now common.most common.refused }
    ensures short { length line.new ≤ length line.old + 39 }
{
    line.put_text(word_text(node.word));
    line.put_text(doubt_class(node));
    line.put_text(other_class(node, common.most));
    line.put_text(data_class(node));
    line.put_text(refused_class(node, common.refused));
}

// Makes the cell of a node.
fn make_node_cell(
    line: &mut Line,
    layout: Layout,
    slot: u32,
    number: u8,
    shown: &SlotShown<'_>,
    common: SlotFacts,
)
    ensures { line.new ≡ node_cell layout.head slot number (node_at shown.now number) common.most common.refused
        (column_x layout.head.nodes layout.span slot) (row_y layout.head.nodes layout.span slot number) }
{
    let node = node_at(shown, number);
    open_cell(line);
    put_class(line, &node, common);
    open_title(line);
    put_node_text(line, &layout.head, slot, number, &node);
    close_title(line, corner(layout, slot, number));
    line.put_text(letter(node.word));
    close_cell(line);
}

// Writes the cells of the nodes.
#[tactic(auto, using(ttp_base::proofs::Puts::puts))]
fn put_node_cells<K: Sink>(
    layout: Layout,
    slot: u32,
    shown: &SlotShown<'_>,
    common: SlotFacts,
    sheet: &mut Sheet,
    out: &mut K,
)
    ensures { Puts sheet.old.failed (K.output out.old) sheet.new.failed (K.output out.new)
        (map (λ k. node_cell layout.head slot k (node_at shown.now k) common.most common.refused (column_x layout.head.nodes layout.span slot)
        (row_y layout.head.nodes layout.span slot k)) (below layout.head.nodes)) }
{
    for number in 0..layout.head.nodes {
        make_node_cell(&mut sheet.line, layout, slot, number, shown, common);
        sheet.write(out);
    }
}

// Adds how far the clocks are apart.
fn put_apart(line: &mut Line, range: Option<ClockRange>)
    requires { length line.old ≤ 600 }
    ensures text { line.new ≡ line.old ++ apart_text range }
    ensures short { length line.new ≤ length line.old + 20 }
{
    match range {
        Some(range) => line.put_number(range.spread()),
        None => line.put_text("-"),
    }
}

// Adds a number in at most four characters.
fn put_short(line: &mut Line, number: u64)
    requires { length line.old ≤ 600 }
    ensures text { line.new ≡ line.old ++ short_number number }
    ensures short { length line.new ≤ length line.old + 21 }
{
    if number < 10_000 {
        line.put_number(number);
    } else if number < 1_000_000 {
        line.put_number(number / 1000);
        line.put_text("k");
    } else {
        line.put_text("1M+");
    }
}

// Adds it as it is shown.
fn put_apart_shown(line: &mut Line, range: Option<ClockRange>)
    requires { length line.old ≤ 600 }
    ensures text { line.new ≡ line.old ++ apart_shown range }
    ensures short { length line.new ≤ length line.old + 21 }
{
    match range {
        Some(range) => put_short(line, range.spread()),
        None => line.put_text("-"),
    }
}

// Makes the cell of the clocks, whose range is this.
fn make_clocks_cell(
    line: &mut Line,
    layout: Layout,
    slot: u32,
    shown: &SlotShown<'_>,
    range: Option<ClockRange>,
)
    requires { range ≡ clock_range shown.now.nodes }
    ensures { line.new ≡ clocks_cell slot shown.now (column_x layout.head.nodes layout.span slot)
        (row_y layout.head.nodes layout.span slot (layout.head.nodes + 1) + 4) }
{
    let at = Corner {
        x: column_x(layout, slot),
        y: row_y(layout, slot, layout.head.nodes + 1) + 4,
    };
    open_cell(line);
    line.put_text("none\"><title>");
    put_field(line, "slot ", u64::from(slot));
    line.put_text(" clocks apart ");
    put_apart(line, range);
    close_title(line, at);
    put_apart_shown(line, range);
    close_cell(line);
}

// Adds the node whose clock is far from most.
fn put_far(line: &mut Line, far: Option<usize>)
    requires { length line.old ≤ 600 }
    ensures text { line.new ≡ line.old ++ far_text far }
    ensures short { length line.new ≤ length line.old + 25 }
{
    match far {
        Some(number) => put_field(line, "node ", number as u64),
        None => line.put_text("-"),
    }
}

// Adds it as it is shown.
fn put_far_shown(line: &mut Line, far: Option<usize>)
    requires { length line.old ≤ 600 }
    ensures text { line.new ≡ line.old ++ far_shown far }
    ensures short { length line.new ≤ length line.old + 20 }
{
    match far {
        Some(number) => line.put_number(number as u64),
        None => line.put_text("-"),
    }
}

// Makes the cell of the node whose clock is far from most, where the range of the clocks is this.
fn make_far_cell(
    line: &mut Line,
    layout: Layout,
    slot: u32,
    shown: &SlotShown<'_>,
    range: Option<ClockRange>,
)
    requires { range ≡ clock_range shown.now.nodes }
    ensures { line.new ≡ far_cell slot shown.now (column_x layout.head.nodes layout.span slot)
        (row_y layout.head.nodes layout.span slot (layout.head.nodes + 2) + 4) }
{
    let far = node_apart(range, shown.nodes());
    let at = Corner {
        x: column_x(layout, slot),
        y: row_y(layout, slot, layout.head.nodes + 2) + 4,
    };
    open_cell(line);
    line.put_text("apart\"><title>");
    put_field(line, "slot ", u64::from(slot));
    line.put_text(" clock apart from most ");
    put_far(line, far);
    close_title(line, at);
    put_far_shown(line, far);
    close_cell(line);
}

// Writes the cells of the clocks.
#[tactic(auto, using(ttp_base::proofs::Puts::puts))]
fn put_clocks_cells<K: Sink>(
    layout: Layout,
    slot: u32,
    shown: &SlotShown<'_>,
    sheet: &mut Sheet,
    out: &mut K,
)
    ensures { Puts sheet.old.failed (K.output out.old) sheet.new.failed (K.output out.new)
        (clocks_cell slot shown.now (column_x layout.head.nodes layout.span slot)
        (row_y layout.head.nodes layout.span slot (layout.head.nodes + 1) + 4)
        ∷ far_cell slot shown.now (column_x layout.head.nodes layout.span slot)
        (row_y layout.head.nodes layout.span slot (layout.head.nodes + 2) + 4) ∷ []) }
{
    let range = clock_range(shown.nodes());
    make_clocks_cell(&mut sheet.line, layout, slot, shown, range);
    sheet.write(out);
    make_far_cell(&mut sheet.line, layout, slot, shown, range);
    sheet.write(out);
}

// Writes the number of a slot, where it is due.
fn put_number<K: Sink>(layout: Layout, slot: u32, sheet: &mut Sheet, out: &mut K)
    ensures { Puts sheet.old.failed (K.output out.old) sheet.new.failed (K.output out.new)
        (number_lines layout.head.nodes layout.span slot) }
{
    if slot % 5 == 0 {
        let x = column_x(layout, slot) + 9;
        let y = row_y(layout, slot, 0) - 5;
        make_number_of(&mut sheet.line, "slot", x, y, u64::from(slot));
        sheet.write(out);
    }
}

// Writes the line of a round, where one begins in the slot.
fn put_round<K: Sink>(
    layout: Layout,
    slot: u32,
    shown: &SlotShown<'_>,
    sheet: &mut Sheet,
    out: &mut K,
)
    ensures { Puts sheet.old.failed (K.output out.old) sheet.new.failed (K.output out.new)
        (round_start_lines layout.head.nodes layout.span slot shown.now) }
{
    if starts_round(shown.nodes()) {
        let x = column_x(layout, slot) - 1;
        let y = row_y(layout, slot, 0) - 3;
        make_round(&mut sheet.line, x, y, 20 * u64::from(layout.head.nodes) + 6);
        sheet.write(out);
    }
}

/// Writes the cells of a slot.
#[tactic(auto, using(ttp_base::proofs::Puts::puts))]
pub(crate) fn put_cells<K: Sink>(
    layout: Layout,
    slot: u32,
    shown: &SlotShown<'_>,
    sheet: &mut Sheet,
    out: &mut K,
)
    ensures { Puts sheet.old.failed (K.output out.old) sheet.new.failed (K.output out.new)
        (cell_lines layout.head layout.span slot shown.now) }
{
    let found = memberships_of(shown.nodes());
    let common = SlotFacts {
        most: held_by_most(shown, &found),
        refused: is_refused(shown.nodes()),
    };
    put_number(layout, slot, sheet, out);
    put_round(layout, slot, shown, sheet, out);
    put_node_cells(layout, slot, shown, common, sheet, out);
    put_members_cell(layout, slot, shown, &found, sheet, out);
    put_clocks_cells(layout, slot, shown, sheet, out);
}
