//! The names of the rows of each band.
#![tactic(auto, using(ttp_base::proofs::Room::room))]

ghost use Rattle.std.specs.Prelude.{◌+◌, ◌≤◌, ◌++◌, map, codes, decimal};
ghost use Rattle.ttp_base.specs.NodeSet.{below};
ghost use Rattle.ttp_base.specs.Text.{lines_below};
ghost use Rattle.picture_text.specs.Picture.{row_line};
ghost use Rattle.ttp_base.specs.Sheet.{Puts};
ghost use Rattle.chart_text.specs.Chart.{row_names};
ghost use Rattle.chart_text.specs.Columns.{chart_bands, chart_y};

use crate::extent::{Extent, chart_bands, chart_y};
use picture_text::{columns, make_node_row, make_text_of};
use ttp_base::{Sheet, Sink};

// Writes the names of the nodes beside the band that begins with this column.
#[tactic(auto, using(ttp_base::proofs::Puts::puts))]
fn put_node_names<K: Sink>(nodes: u8, column: u32, sheet: &mut Sheet, out: &mut K)
    requires { (4 ≤ nodes) × (nodes ≤ 24) }
    ensures { Puts sheet.old.failed (K.output out.old) sheet.new.failed (K.output out.new)
        (map (λ k. row_line (chart_y nodes column k + 13) (codes "node " ++ decimal k)) (below nodes)) }
{
    for node in 0..nodes {
        make_node_row(&mut sheet.line, chart_y(nodes, column, node) + 13, node);
        sheet.write(out);
    }
}

// Writes the names of the rows of a band.
fn put_names<K: Sink>(nodes: u8, band: u32, sheet: &mut Sheet, out: &mut K)
    requires nodes { (4 ≤ nodes) × (nodes ≤ 24) }
    requires band { band ≤ 20000 }
    ensures { Puts sheet.old.failed (K.output out.old) sheet.new.failed (K.output out.new) (row_names nodes band) }
{
    let column = columns(nodes) * band;
    put_node_names(nodes, column, sheet, out);
    let y = chart_y(nodes, column, nodes);
    make_text_of(&mut sheet.line, "row", 64, y + 17, "worst");
    sheet.write(out);
    make_text_of(&mut sheet.line, "row", 64, y + 35, "harmful");
    sheet.write(out);
}

/// Writes the names of the rows of all bands.
#[tactic(auto, using(ttp_base::proofs::Puts::puts))]
pub(crate) fn put_bands<K: Sink>(extent: Extent, sheet: &mut Sheet, out: &mut K)
    ensures { Puts sheet.old.failed (K.output out.old) sheet.new.failed (K.output out.new)
        (lines_below (row_names extent.size.nodes) (chart_bands extent.size.nodes extent.many)) }
{
    for band in 0..chart_bands(extent) {
        put_names(extent.size.nodes, band, sheet, out);
    }
}
