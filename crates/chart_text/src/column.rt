//! The column of a slot.
#![tactic(auto, using(ttp_base::proofs::Room::room))]

ghost use Rattle.std.specs.Prelude.{◌≡◌, ℕ, ◌+◌, ◌-◌, ◌*◌, ◌^◌, ◌<◌, ◌≤◌, true, [], ◌∷◌, ◌++◌, length, flat_map, codes, decimal};
ghost use Rattle.ttp_base.specs.NodeSet.{below};
ghost use Rattle.ttp_base.specs.Text.{lines_below};
ghost use Rattle.whole_campaign.specs.Readable.{in_order_from};
ghost use Rattle.ttp_base.specs.Sheet.{Puts};
ghost use Rattle.picture_text.specs.Picture.{class_of, text_line};
ghost use Rattle.chart_text.specs.Column.{is_gap, has_number, number_line, gap_line, faults_told_in, mark_lines};
ghost use Rattle.chart_text.specs.Column.{column_of, column_lines};
ghost use Rattle.chart_text.specs.Columns.{chart_x, chart_y};
ghost use Rattle.chart_text.specs.Elements.{pole};
ghost use Rattle.chart_text.specs.Steps.{SameFrom, longest_text, marked_slots};
ghost use Rattle.chart_text.specs.Walks.{AreTallies};

use crate::ahead::Ahead;
use crate::block::{put_blocks, put_end};
use crate::buffer::Buffer;
use crate::element::make_pole;
use crate::extent::{Extent, chart_x, chart_y};
use crate::fault_mark::put_fault_mark;
use crate::marks::has_mark;
use crate::size::Size;
use crate::tally::Tallies;
use picture_text::{Corner, make_number_of};
use ttp_base::{Sheet, Sink};

/// Where a column stands: its number, its slot, and the slot of the column before it, if there is one.
#[derive(Clone, Copy)]
pub(crate) struct Column {
    pub(crate) number: u32,
    pub(crate) slot: u32,
    pub(crate) before: Option<u32>,
    ghost low: { (number ≤ 20000) × (slot < 20000) },
}

// Whether slots are left out before the one of a column.
fn is_gap(column: Column) -> bool
    ensures { result ≡ is_gap column.before column.slot }
{
    match column.before {
        Some(before) => before as u64 + 1 != column.slot as u64,
        None => false,
    }
}

fn has_number(column: Column) -> bool
    ensures { result ≡ has_number column.before column.slot }
{
    match column.before {
        Some(before) => column.slot % 5 == 0 || before as u64 + 1 != column.slot as u64,
        None => true,
    }
}

// Writes the number of a slot, where it has one.
fn put_number<K: Sink>(nodes: u8, column: Column, sheet: &mut Sheet, out: &mut K)
    requires { (4 ≤ nodes) × (nodes ≤ 24) }
    ensures { Puts sheet.old.failed (K.output out.old) sheet.new.failed (K.output out.new)
        (number_line nodes column.number column.before column.slot) }
{
    if has_number(column) {
        let x = chart_x(nodes, column.number) + 11;
        let y = chart_y(nodes, column.number, 0) - 5;
        make_number_of(&mut sheet.line, "slot", x, y, u64::from(column.slot));
        sheet.write(out);
    }
}

// Writes the line before a column, where slots are left out.
fn put_gap<K: Sink>(nodes: u8, column: Column, sheet: &mut Sheet, out: &mut K)
    requires { (4 ≤ nodes) × (nodes ≤ 24) }
    ensures { Puts sheet.old.failed (K.output out.old) sheet.new.failed (K.output out.new)
        (gap_line nodes column.number column.before column.slot) }
{
    if is_gap(column) {
        let at = Corner {
            x: chart_x(nodes, column.number) - 1,
            y: chart_y(nodes, column.number, 0),
        };
        make_pole(&mut sheet.line, "gap", at, 30 * u64::from(nodes) - 4);
        sheet.write(out);
    }
}

// Passes faults of earlier slots.
fn pass_before(slot: u32, ahead: &mut Ahead<'_>)
    requires { in_order_from 0 ahead.old ≡ true }
    ensures same { SameFrom slot ahead.old ahead.new }
    ensures order { in_order_from slot ahead.new ≡ true }
    ensures few { length ahead.new ≤ length ahead.old }
    ensures short { longest_text ahead.new ≤ longest_text ahead.old }
{
    while let Some(fault) = ahead.first() {
        if slot <= fault.shown.slot {
            return;
        }
        ahead.pass();
    }
}

// The tallies of the faults of a slot, which come next.
fn tally_slot(size: Size, slot: u32, from: &Ahead<'_>) -> Tallies
    requires order { in_order_from slot from.now ≡ true }
    requires few { length from.now < 2 ^ 63 }
    ensures { AreTallies size result [] (faults_told_in slot from.now) }
{
    let mut ahead = from.again();
    let mut tallies = Tallies::new(size);
    while let Some(fault) = ahead.first() {
        if fault.shown.slot != slot {
            return tallies;
        }
        tallies.note(size, &fault);
        ahead.pass();
    }
    tallies
}

// Writes the marks of the faults of a slot, which come next, and passes them.
#[tactic(auto, using(ttp_base::proofs::Puts::puts))]
fn put_marks<K: Sink>(
    extent: Extent,
    column: Column,
    ahead: &mut Ahead<'_>,
    buffer: &mut Buffer,
    sheet: &mut Sheet,
    out: &mut K,
)
    requires order { in_order_from column.slot ahead.old ≡ true }
    requires room { longest_text ahead.old + 200 ≤ buffer.old.room }
    ensures puts { Puts sheet.old.failed (K.output out.old) sheet.new.failed (K.output out.new)
        (flat_map (mark_lines extent.size column.number) (faults_told_in column.slot ahead.old)) }
    ensures same { SameFrom (column.slot + 1) ahead.old ahead.new }
    ensures order { in_order_from column.slot ahead.new ≡ true }
    ensures few { length ahead.new ≤ length ahead.old }
    ensures short { longest_text ahead.new ≤ longest_text ahead.old }
    ensures room { buffer.new.room ≡ buffer.old.room }
{
    while let Some(fault) = ahead.first() {
        if fault.shown.slot != column.slot {
            return;
        }
        put_fault_mark(extent, column.number, &fault, buffer, sheet, out);
        ahead.pass();
    }
}

// Writes the column of a slot.
#[tactic(auto, using(ttp_base::proofs::Puts::puts))]
fn put_column<K: Sink>(
    extent: Extent,
    column: Column,
    ahead: &mut Ahead<'_>,
    buffer: &mut Buffer,
    sheet: &mut Sheet,
    out: &mut K,
)
    requires order { in_order_from 0 ahead.old ≡ true }
    requires few { length ahead.old < 2 ^ 63 }
    requires room { longest_text ahead.old + 200 ≤ buffer.old.room }
    ensures puts { Puts sheet.old.failed (K.output out.old) sheet.new.failed (K.output out.new)
        (column_of extent.size column.number column.before column.slot (faults_told_in column.slot ahead.old)) }
    ensures same { SameFrom (column.slot + 1) ahead.old ahead.new }
    ensures order { in_order_from 0 ahead.new ≡ true }
    ensures few { length ahead.new ≤ length ahead.old }
    ensures short { longest_text ahead.new ≤ longest_text ahead.old }
    ensures room { buffer.new.room ≡ buffer.old.room }
{
    put_number(extent.size.nodes, column, sheet, out);
    put_gap(extent.size.nodes, column, sheet, out);
    pass_before(column.slot, ahead);
    let tallies = tally_slot(extent.size, column.slot, ahead);
    put_blocks(extent, column.number, column.slot, &tallies, sheet, out);
    put_marks(extent, column, ahead, buffer, sheet, out);
    put_end(extent, column.number, column.slot, &tallies.all, sheet, out);
}

/// Writes the columns of all marked slots.
#[tactic(auto, using(ttp_base::proofs::Puts::puts))]
pub(crate) fn put_columns<K: Sink>(
    extent: Extent,
    marks: &[bool],
    ahead: &mut Ahead<'_>,
    buffer: &mut Buffer,
    sheet: &mut Sheet,
    out: &mut K,
)
    requires marks { length marks.now ≡ extent.size.slots }
    requires order { in_order_from 0 ahead.old ≡ true }
    requires few { length ahead.old < 2 ^ 63 }
    requires room { longest_text ahead.old + 200 ≤ buffer.old.room }
    ensures puts { Puts sheet.old.failed (K.output out.old) sheet.new.failed (K.output out.new)
        (lines_below (column_lines extent.size (marked_slots marks.now) ahead.old) (length (marked_slots marks.now))) }
    ensures room { buffer.new.room ≡ buffer.old.room }
{
    let mut number = 0;
    let mut before = None;
    for slot in 0..extent.size.slots {
        if has_mark(marks, slot) {
            let column = Column {
                number,
                slot,
                before,
            };
            put_column(extent, column, ahead, buffer, sheet, out);
            number += 1;
            before = Some(slot);
        }
    }
}
