//! What stands beside the cells of a slot: why nodes left, and what hosts did.
#![tactic(auto, using(ttp_base::proofs::Room::room))]

ghost use Rattle.std.specs.Prelude.{◌≡◌, ◌≤◌, length, map};
ghost use Rattle.ttp_base.specs.Text.{lines_below};
ghost use Rattle.picture_text.specs.Cells.{host_of, mark, host_mark};
ghost use Rattle.shown_slot.specs.Trace.{host_text};
ghost use Rattle.picture_text.specs.Picture.{why_box, why_lines, beside_lines};
ghost use Rattle.ttp_base.specs.Sheet.{Puts};
ghost use Rattle.picture_text.specs.Window.{row_y, column_x};

use crate::element::{close_mark, make_text_of, open_mark, put_field, put_place};
use crate::grid::{beside, corner};
use crate::layout::{Corner, Layout};
use crate::titles::put_host_text;
use line_reader::Word;
use shown_slot::{is_leaving_word, node_at, word_text};
use ttp_base::{Line, Sheet, Sink};
use ttp_world::Source;
use whole_trace::{HostLine, SlotShown};

// Makes the box behind the word of a node that left.
fn make_why_box(line: &mut Line, word: Word, x: u64, y: u64)
    ensures { line.new ≡ why_box word x y }
{
    let letters = word_text(word).len() as u64;
    line.clear();
    line.put_text("<rect class=\"why\"");
    put_place(line, x, y);
    put_field(line, " width=\"", 7 * letters + 6);
    line.put_text("\" height=\"19\"/>\n");
}

// Writes why a node left, if it did.
fn put_why<K: Sink>(
    layout: Layout,
    slot: u32,
    shown: &SlotShown<'_>,
    number: u8,
    sheet: &mut Sheet,
    out: &mut K,
)
    ensures { Puts sheet.old.failed (K.output out.old) sheet.new.failed (K.output out.new)
        (why_lines layout.head.nodes layout.span slot shown.now number) }
{
    let word = node_at(shown, number).word;
    if is_leaving_word(word) {
        let at = corner(layout, slot, number);
        make_why_box(&mut sheet.line, word, at.x + 20, at.y);
        sheet.write(out);
        make_text_of(
            &mut sheet.line,
            "why",
            at.x + 23,
            at.y + 14,
            word_text(word),
        );
        sheet.write(out);
    }
}

// Writes why nodes left.
#[tactic(auto, using(ttp_base::proofs::Puts::puts_none, ttp_base::proofs::Puts::puts_below))]
fn put_whys<K: Sink>(
    layout: Layout,
    slot: u32,
    shown: &SlotShown<'_>,
    sheet: &mut Sheet,
    out: &mut K,
)
    ensures { Puts sheet.old.failed (K.output out.old) sheet.new.failed (K.output out.new)
        (lines_below (why_lines layout.head.nodes layout.span slot shown.now) layout.head.nodes) }
{
    for number in 0..layout.head.nodes {
        put_why(layout, slot, shown, number, sheet, out);
    }
}

// Whose line it is.
fn host_of(host_line: &HostLine) -> u8
    ensures { result ≡ host_of host_line.now }
{
    match host_line {
        HostLine::Write { host, .. } => *host,
        HostLine::Read { host, .. } => *host,
    }
}

// Makes a mark whose title is the line of a host.
fn make_mark_of(
    line: &mut Line,
    class: &str,
    shape: &str,
    at: Corner,
    slot: u32,
    host_line: &HostLine,
)
    requires { (length class.now ≤ 6) × (length shape.now ≤ 11) }
    ensures { line.new ≡ mark class.now shape.now at.x at.y (host_text slot host_line.now) }
{
    open_mark(line, class, shape, at);
    put_host_text(line, slot, host_line);
    close_mark(line);
}

// Makes the mark of a host's line, beside the cell of its node.
fn make_host_mark(line: &mut Line, layout: Layout, slot: u32, host_line: &HostLine)
    ensures { line.new ≡ host_mark slot host_line.now (column_x layout.head.nodes layout.span slot)
        (row_y layout.head.nodes layout.span slot (host_of host_line.now)) }
{
    let cell = corner(layout, slot, host_of(host_line));
    match host_line {
        HostLine::Write { .. } => {
            let at = beside(cell, 0, 19);
            make_mark_of(line, "write", "v-10l10 10z", at, slot, host_line);
        }
        HostLine::Read { source, .. } => match source {
            Source::Status => {
                let at = beside(cell, 19, 0);
                make_mark_of(line, "status", "v10l-10-10z", at, slot, host_line);
            }
            Source::Node(_) => {
                let at = beside(cell, 19, 19);
                make_mark_of(line, "read", "h-10l10-10z", at, slot, host_line);
            }
        },
    }
}

// Writes the marks of the lines of hosts.
#[tactic(auto, using(ttp_base::proofs::Puts::puts))]
fn put_marks<K: Sink>(
    layout: Layout,
    slot: u32,
    shown: &SlotShown<'_>,
    sheet: &mut Sheet,
    out: &mut K,
)
    ensures { Puts sheet.old.failed (K.output out.old) sheet.new.failed (K.output out.new)
        (map (λ line. host_mark slot line (column_x layout.head.nodes layout.span slot)
        (row_y layout.head.nodes layout.span slot (host_of line)))
        shown.now.hosts) }
{
    let mut hosts = shown.hosts();
    while let Some(host_line) = hosts.next_line() {
        make_host_mark(&mut sheet.line, layout, slot, &host_line);
        sheet.write(out);
    }
}

/// Writes what stands beside the cells of a slot.
#[tactic(auto, using(ttp_base::proofs::Puts::puts_then))]
pub(crate) fn put_beside<K: Sink>(
    layout: Layout,
    slot: u32,
    shown: &SlotShown<'_>,
    sheet: &mut Sheet,
    out: &mut K,
)
    ensures { Puts sheet.old.failed (K.output out.old) sheet.new.failed (K.output out.new)
        (beside_lines layout.head.nodes layout.span slot shown.now) }
{
    put_whys(layout, slot, shown, sheet, out);
    put_marks(layout, slot, shown, sheet, out);
}
