//! The cells of the nodes of a slot, those that sum up a slot, and those that sum up each node.
#![tactic(auto, using(ttp_base::proofs::Room::room))]

ghost use Rattle.std.specs.Prelude.{◌≡◌, ◌+◌, ℕ, ◌<◌, ◌≤◌, [], ◌∷◌, length, List};
ghost use Rattle.ttp_base.specs.Text.{lines_below};
ghost use Rattle.whole_campaign.specs.Whole.{FaultTold};
ghost use Rattle.ttp_base.specs.Sheet.{Puts};
ghost use Rattle.chart_text.specs.Chart.{node_sum_lines, of_all_slots_lines};
ghost use Rattle.chart_text.specs.Column.{block_lines, slot_sum_lines};
ghost use Rattle.chart_text.specs.Columns.{beside_x};
ghost use Rattle.chart_text.specs.Sums.{sends_class, faults_told_of};
ghost use Rattle.chart_text.specs.Walks.{IsTally, AreTallies};

use crate::extent::{Extent, beside_x, chart_corner, chart_x, chart_y};
use crate::sum::{Summed, make_harmful, make_sum};
use crate::tally::{Tallies, Tally};
use picture_text::{Corner, make_text_of};
use ttp_base::{Sheet, Sink};
use whole_campaign::Doing;

// What stands behind the class of a cell of a node and a slot.
fn sends_class(first: Option<Doing>) -> &'static str
    ensures text { result.now ≡ sends_class first }
    ensures short { length result.now ≤ 6 }
{
    match first {
        Some(Doing::Send) => " sends",
        _ => "",
    }
}

// Writes the cell of a node in a slot, where the slot has a fault of it.
fn put_block<K: Sink>(
    extent: Extent,
    column: u32,
    slot: u32,
    node: u8,
    tally: &Tally,
    sheet: &mut Sheet,
    out: &mut K,
)
    ensures { (faults : List FaultTold) → IsTally extent.size tally.now [] (faults_told_of node faults)
        → Puts sheet.old.failed (K.output out.old) sheet.new.failed (K.output out.new)
        (block_lines extent.size column slot faults node) }
{
    if tally.many != 0 {
        let at = chart_corner(extent.size.nodes, column, node);
        let of = Summed::OfCell { slot, node };
        make_sum(
            &mut sheet.line,
            extent.size,
            of,
            sends_class(tally.first),
            tally,
            at,
        );
        sheet.write(out);
    }
}

/// Writes the cells of all nodes of a slot.
pub(crate) fn put_blocks<K: Sink>(
    extent: Extent,
    column: u32,
    slot: u32,
    tallies: &Tallies,
    sheet: &mut Sheet,
    out: &mut K,
)
    ensures { (faults : List FaultTold) → AreTallies extent.size tallies.now [] faults
        → Puts sheet.old.failed (K.output out.old) sheet.new.failed (K.output out.new)
        (lines_below (block_lines extent.size column slot faults) extent.size.nodes) }
{
    for node in 0..extent.size.nodes {
        let tally = &tallies.nodes[usize::from(node)];
        put_block(extent, column, slot, node, tally, sheet, out);
    }
}

/// Writes what all faults of a slot come to.
pub(crate) fn put_end<K: Sink>(
    extent: Extent,
    column: u32,
    slot: u32,
    tally: &Tally,
    sheet: &mut Sheet,
    out: &mut K,
)
    ensures { (faults : List FaultTold) → IsTally extent.size tally.now [] faults
        → Puts sheet.old.failed (K.output out.old) sheet.new.failed (K.output out.new)
        (slot_sum_lines extent.size column slot faults) }
{
    let nodes = extent.size.nodes;
    let x = chart_x(nodes, column);
    let y = chart_y(nodes, column, nodes);
    let at = Corner { x, y: y + 5 };
    let of = Summed::OfSlot { slot };
    make_sum(&mut sheet.line, extent.size, of, "", tally, at);
    sheet.write(out);
    let at = Corner {
        x: x + 11,
        y: y + 35,
    };
    make_harmful(&mut sheet.line, tally.harmful, at);
    sheet.write(out);
}

// Writes what all faults of a node come to.
fn put_node<K: Sink>(
    extent: Extent,
    x: u64,
    node: u8,
    tally: &Tally,
    sheet: &mut Sheet,
    out: &mut K,
)
    requires { x ≤ 1400 }
    ensures { (faults : List FaultTold) → IsTally extent.size tally.now [] (faults_told_of node faults)
        → Puts sheet.old.failed (K.output out.old) sheet.new.failed (K.output out.new)
        (node_sum_lines extent.size x faults node) }
{
    let y = chart_y(extent.size.nodes, 0, node);
    let at = Corner { x, y };
    let of = Summed::OfNode { node };
    make_sum(&mut sheet.line, extent.size, of, "", tally, at);
    sheet.write(out);
    let at = Corner {
        x: x + 53,
        y: y + 12,
    };
    make_harmful(&mut sheet.line, tally.harmful, at);
    sheet.write(out);
}

// Writes this for each node.
fn put_nodes<K: Sink>(extent: Extent, x: u64, tallies: &Tallies, sheet: &mut Sheet, out: &mut K)
    requires { x ≤ 1400 }
    ensures { (faults : List FaultTold) → AreTallies extent.size tallies.now [] faults
        → Puts sheet.old.failed (K.output out.old) sheet.new.failed (K.output out.new)
        (lines_below (node_sum_lines extent.size x faults) extent.size.nodes) }
{
    for node in 0..extent.size.nodes {
        let tally = &tallies.nodes[usize::from(node)];
        put_node(extent, x, node, tally, sheet, out);
    }
}

/// Writes what all faults of each node come to, beside the first band.
pub(crate) fn put_beside<K: Sink>(extent: Extent, tallies: &Tallies, sheet: &mut Sheet, out: &mut K)
    ensures { (faults : List FaultTold) → AreTallies extent.size tallies.now [] faults
        → Puts sheet.old.failed (K.output out.old) sheet.new.failed (K.output out.new)
        (of_all_slots_lines extent.size extent.many faults) }
{
    let x = beside_x(extent);
    make_text_of(&mut sheet.line, "keep", x - 4, 143, "of all slots:");
    sheet.write(out);
    make_text_of(&mut sheet.line, "slot", x + 11, 155, "worst");
    sheet.write(out);
    make_text_of(&mut sheet.line, "slot", x + 53, 155, "harmful");
    sheet.write(out);
    put_nodes(extent, x, tallies, sheet, out);
}
