//! The names of the rows of each band.
#![tactic(auto, using(ttp_base::proofs::Room::room))]

ghost use Rattle.std.specs.Prelude.{◌≡◌, ◌+◌, ◌*◌, ◌<◌, ◌≤◌, [], ◌++◌, length, map, codes, decimal};
ghost use Rattle.ttp_base.specs.NodeSet.{below};
ghost use Rattle.ttp_base.specs.Text.{lines_below};
ghost use Rattle.picture_text.specs.Picture.{row_line, band_lines};
ghost use Rattle.ttp_base.specs.Sheet.{Puts};
ghost use Rattle.picture_text.specs.Window.{columns, bands, row_y};

use crate::element::{close_text, make_text_of, open_text_of, put_field};
use crate::grid::{bands, columns, row_y};
use crate::layout::Layout;
use ttp_base::{Line, Sheet, Sink};

/// Makes the name of the row of a node.
pub fn make_node_row(line: &mut Line, y: u64, number: u8)
    ensures { line.new ≡ row_line y (codes "node " ++ decimal number) }
{
    open_text_of(line, "row", 64, y);
    put_field(line, "node ", u64::from(number));
    close_text(line);
}

// Makes the name of another row.
fn make_row(line: &mut Line, y: u64, name: &str)
    requires { length name.now ≤ 100 }
    ensures { line.new ≡ row_line y name.now }
{
    make_text_of(line, "row", 64, y, name);
}

// Writes the names of the nodes beside the band that begins with this slot.
#[tactic(auto, using(ttp_base::proofs::Puts::puts))]
fn put_node_rows<K: Sink>(layout: Layout, slot: u32, sheet: &mut Sheet, out: &mut K)
    ensures { Puts sheet.old.failed (K.output out.old) sheet.new.failed (K.output out.new)
        (map (λ k. row_line (row_y layout.head.nodes layout.span slot k + 14) (codes "node " ++ decimal k))
        (below layout.head.nodes)) }
{
    for number in 0..layout.head.nodes {
        make_node_row(&mut sheet.line, row_y(layout, slot, number) + 14, number);
        sheet.write(out);
    }
}

// Writes the names of the rows of a band.
#[tactic(auto, using(ttp_base::proofs::Puts::puts))]
fn put_band<K: Sink>(layout: Layout, band: u32, sheet: &mut Sheet, out: &mut K)
    requires { band < bands layout.head.nodes layout.span }
    ensures { Puts sheet.old.failed (K.output out.old) sheet.new.failed (K.output out.new)
        (band_lines layout.head.nodes layout.span band) }
{
    let nodes = layout.head.nodes;
    let slot = layout.span.first + columns(nodes) * band;
    put_node_rows(layout, slot, sheet, out);
    make_row(&mut sheet.line, row_y(layout, slot, nodes) + 18, "members");
    sheet.write(out);
    make_row(
        &mut sheet.line,
        row_y(layout, slot, nodes + 1) + 18,
        "clocks",
    );
    sheet.write(out);
    make_row(
        &mut sheet.line,
        row_y(layout, slot, nodes + 2) + 18,
        "apart",
    );
    sheet.write(out);
}

/// Writes the names of the rows of all bands.
#[tactic(auto, using(ttp_base::proofs::Puts::puts_none, ttp_base::proofs::Puts::puts_below))]
pub(crate) fn put_bands<K: Sink>(layout: Layout, sheet: &mut Sheet, out: &mut K)
    ensures { Puts sheet.old.failed (K.output out.old) sheet.new.failed (K.output out.new)
        (lines_below (band_lines layout.head.nodes layout.span) (bands layout.head.nodes layout.span)) }
{
    for band in 0..bands(layout) {
        put_band(layout, band, sheet, out);
    }
}
