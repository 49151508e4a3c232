//! The marks of faults.
#![tactic(auto, using(ttp_base::proofs::Room::room))]

ghost use Rattle.std.specs.Prelude.{◌≡◌, ◌+◌, ◌*◌, ◌≤◌, length};
ghost use Rattle.ttp_base.specs.Sheet.{Puts};
ghost use Rattle.chart_text.specs.Column.{mark_of, is_plain, mark_lines};
ghost use Rattle.chart_text.specs.Columns.{chart_x, chart_y};
ghost use Rattle.chart_text.specs.Elements.{fault_shape};
ghost use Rattle.chart_text.specs.Looks.{marks_left, marks_above};
ghost use Rattle.picture_text.specs.Cells.{mark};
ghost use Rattle.whole_campaign.specs.Steps.{told_of};

use crate::buffer::Buffer;
use crate::extent::{Extent, chart_x, chart_y};
use crate::kind::{marks_above, marks_left};
use crate::look::{Look, fault_look, look_text};
use picture_text::{Corner, close_mark, open_mark};
use ttp_base::{Line, Sheet, Sink};
use whole_campaign::{FaultLine, FaultShown};

// Makes a mark with a line of the campaign.
fn form_mark(buffer: &mut Buffer, line: &mut Line, class: &str, at: Corner, text: &[u8])
    requires class { length class.now ≤ 8 }
    requires room { length text.now + 200 ≤ buffer.old.room }
    ensures text { buffer.new.text ≡ mark class.now fault_shape at.x at.y text.now }
    ensures room { buffer.new.room ≡ buffer.old.room }
{
    open_mark(line, class, "h2v4h-2z", at);
    buffer.clear();
    buffer.put_bytes(line.bytes());
    buffer.put_bytes(text);
    line.clear();
    close_mark(line);
    buffer.put_bytes(line.bytes());
}

// Where the mark of a fault stands.
fn mark_corner(nodes: u8, column: u32, fault: FaultShown) -> Corner
    requires { (4 ≤ nodes) × (nodes ≤ 24) }
    ensures x { result.x ≡ chart_x nodes column + 3 * marks_left fault.place }
    ensures y { result.y ≡ chart_y nodes column fault.node + 17 + 5 * marks_above fault.place }
{
    Corner {
        x: chart_x(nodes, column) + 3 * u64::from(marks_left(fault.place)),
        y: chart_y(nodes, column, fault.node) + 17 + 5 * u64::from(marks_above(fault.place)),
    }
}

// Makes the mark of a fault.
fn make_fault_mark(
    buffer: &mut Buffer,
    line: &mut Line,
    nodes: u8,
    column: u32,
    look: Look,
    fault: &FaultLine<'_>,
)
    requires nodes { (4 ≤ nodes) × (nodes ≤ 24) }
    requires room { length fault.now.text.now + 200 ≤ buffer.old.room }
    ensures text { buffer.new.text ≡ mark_of nodes column look (told_of fault.now) }
    ensures room { buffer.new.room ≡ buffer.old.room }
{
    let at = mark_corner(nodes, column, fault.shown);
    form_mark(buffer, line, look_text(look), at, fault.text);
}

fn is_plain(look: Look) -> bool
    ensures { result ≡ is_plain look }
{
    match look {
        Look::Same => true,
        _ => false,
    }
}

/// Writes the mark of a fault, where it has one.
#[tactic(auto, using(ttp_base::proofs::Puts::puts_then, ttp_base::proofs::Puts::puts_none))]
pub(crate) fn put_fault_mark<K: Sink>(
    extent: Extent,
    column: u32,
    fault: &FaultLine<'_>,
    buffer: &mut Buffer,
    sheet: &mut Sheet,
    out: &mut K,
)
    requires room { length fault.now.text.now + 200 ≤ buffer.old.room }
    ensures puts { Puts sheet.old.failed (K.output out.old) sheet.new.failed (K.output out.new)
        (mark_lines extent.size column (told_of fault.now)) }
    ensures room { buffer.new.room ≡ buffer.old.room }
{
    let look = fault_look(extent.size, fault.shown);
    if !is_plain(look) {
        make_fault_mark(
            buffer,
            &mut sheet.line,
            extent.size.nodes,
            column,
            look,
            fault,
        );
        sheet.put(buffer.bytes(), out);
    }
}
