//! The cell of the members that nodes hold.
#![tactic(auto, using(ttp_base::proofs::Room::room))]

ghost use Rattle.std.specs.Prelude.{◌≡◌, ◌+◌, ◌*◌, ◌<◌, ◌≤◌, [], ◌∷◌, ◌++◌, length, codes, decimal, flat_map};
ghost use Rattle.picture_text.specs.Cells.{shown_memberships, holders_of, each_node, membership_text, count_of, cell};
ghost use Rattle.picture_text.specs.Cells.{members_title, members_cell};
ghost use Rattle.ttp_base.specs.Sheet.{Puts};
ghost use Rattle.picture_text.specs.Window.{column_x, row_y};

use crate::element::{close_cell, close_title, open_cell, open_title, put_field};
use crate::grid::{column_x, row_y};
use crate::layout::{Corner, Layout};
use crate::members::{Memberships, holds};
use shown_slot::is_holder;
use ttp_base::{Line, Sheet, Sink, Text};
use whole_trace::{Head, NodeShown, SlotShown, put_members};

// Adds the numbers of the nodes of a slot that hold these members.
fn put_holders(line: &mut Line, slot: &SlotShown<'_>, members: u32)
    requires { length line.old ≤ 20 }
    ensures text { line.new ≡ line.old ++ each_node (holders_of members slot.now) }
    ensures short { length line.new ≤ length line.old + 96 }
{
    let nodes = slot.nodes();
    for k in 0..nodes.len() {
        if holds(members, &nodes[k]) {
            line.put_text(" ");
            line.put_number(k as u64);
        }
    }
}

// Makes the text of a membership.
fn make_membership(line: &mut Line, head: &Head, slot: &SlotShown<'_>, members: u32)
    ensures text { line.new ≡ membership_text head.now slot.now members }
    ensures short { length line.new ≤ 110 }
{
    line.clear();
    line.put_text(" ");
    put_members(line, head.version == 2, members);
    line.put_text(" of");
    put_holders(line, slot, members);
}

// Adds the texts of memberships to a long line.
fn put_memberships(
    long: &mut Text<4096>,
    line: &mut Line,
    head: &Head,
    slot: &SlotShown<'_>,
    words: &[u32],
)
    requires room { length long.old ≤ 100 }
    requires few { length words.now ≤ 24 }
    ensures text { long.new ≡ long.old ++ flat_map (membership_text head.now slot.now) words.now }
    ensures short { length long.new ≤ length long.old + 2640 }
{
    for members in words {
        make_membership(line, head, slot, *members);
        long.put_bytes(line.bytes());
    }
}

// Adds how many nodes the members of the first holder are.
fn put_count(line: &mut Line, nodes: &[NodeShown])
    requires { length line.old ≤ 600 }
    ensures text { line.new ≡ line.old ++ count_of nodes.now }
    ensures short { length line.new ≤ length line.old + 3 }
{
    match nodes {
        [] => line.put_text("0"),
        [node, rest @ ..] => {
            if is_holder(node) {
                line.put_number(u64::from(node.members.count()));
            } else {
                put_count(line, rest);
            }
        }
    }
}

// Begins the cell of members that some nodes hold, up to its title and with it.
fn open_members(
    sheet: &mut Sheet,
    class: &str,
    head: &Head,
    slot: u32,
    shown: &SlotShown<'_>,
    found: &Memberships,
)
    requires class { length class.now ≤ 10 }
    requires found { found.now ≡ shown_memberships shown.now.nodes }
    ensures text { sheet.new.long ≡ codes "<g class=\"" ++ class.now ++ codes "\"><title>"
        ++ members_title head.now slot shown.now }
    ensures short { length sheet.new.long ≤ 2740 }
    ensures same { sheet.new.failed ≡ sheet.old.failed }
{
    let line = &mut sheet.line;
    open_cell(line);
    line.put_text(class);
    open_title(line);
    put_field(line, "slot ", u64::from(slot));
    line.put_text(" members");
    sheet.long.clear();
    sheet.long.put_bytes(sheet.line.bytes());
    put_memberships(&mut sheet.long, &mut sheet.line, head, shown, found.words());
}

// Makes the cell of members that all holders hold.
fn make_agreed(
    sheet: &mut Sheet,
    head: &Head,
    slot: u32,
    shown: &SlotShown<'_>,
    found: &Memberships,
    at: Corner,
)
    requires { found.now ≡ shown_memberships shown.now.nodes }
    ensures text { sheet.new.long ≡ cell (codes "agree") at.x at.y (members_title head.now slot shown.now)
        (count_of shown.now.nodes) }
    ensures same { sheet.new.failed ≡ sheet.old.failed }
{
    open_members(sheet, "agree", head, slot, shown, found);
    sheet.line.clear();
    close_title(&mut sheet.line, at);
    put_count(&mut sheet.line, shown.nodes());
    close_cell(&mut sheet.line);
    sheet.long.put_bytes(sheet.line.bytes());
}

// Makes the cell of different members.
fn make_different(
    sheet: &mut Sheet,
    head: &Head,
    slot: u32,
    shown: &SlotShown<'_>,
    found: &Memberships,
    at: Corner,
)
    requires { found.now ≡ shown_memberships shown.now.nodes }
    ensures text { sheet.new.long ≡ cell (codes "differ") at.x at.y (members_title head.now slot shown.now)
        (codes "!") }
    ensures same { sheet.new.failed ≡ sheet.old.failed }
{
    open_members(sheet, "differ", head, slot, shown, found);
    sheet.line.clear();
    close_title(&mut sheet.line, at);
    sheet.line.put_text("!");
    close_cell(&mut sheet.line);
    sheet.long.put_bytes(sheet.line.bytes());
}

// Makes the cell of a slot without holders.
fn make_none(line: &mut Line, slot: u32, at: Corner)
    ensures { line.new ≡ cell (codes "none") at.x at.y (codes "slot " ++ decimal slot ++ codes " members -")
        (codes "-") }
{
    open_cell(line);
    put_field(line, "none\"><title>slot ", u64::from(slot));
    line.put_text(" members -");
    close_title(line, at);
    line.put_text("-");
    close_cell(line);
}

/// Writes the cell of the members that the nodes of a slot hold, where `found` are its memberships.
#[tactic(auto, using(ttp_base::proofs::Puts::puts_then, ttp_base::proofs::Puts::puts_none))]
pub(crate) fn put_members_cell<K: Sink>(
    layout: Layout,
    slot: u32,
    shown: &SlotShown<'_>,
    found: &Memberships,
    sheet: &mut Sheet,
    out: &mut K,
)
    requires { found.now ≡ shown_memberships shown.now.nodes }
    ensures { Puts sheet.old.failed (K.output out.old) sheet.new.failed (K.output out.new)
        (members_cell layout.head slot shown.now (column_x layout.head.nodes layout.span slot)
        (row_y layout.head.nodes layout.span slot layout.head.nodes + 4) ∷ []) }
{
    let at = Corner {
        x: column_x(layout, slot),
        y: row_y(layout, slot, layout.head.nodes) + 4,
    };
    match found.words() {
        [] => {
            make_none(&mut sheet.line, slot, at);
            sheet.write(out);
        }
        [_] => {
            make_agreed(sheet, &layout.head, slot, shown, found, at);
            sheet.write_long(out);
        }
        _ => {
            make_different(sheet, &layout.head, slot, shown, found, at);
            sheet.write_long(out);
        }
    }
}
