//! The cell that sums up faults, and how many of them are harmful.
#![tactic(auto, using(ttp_base::proofs::Room::room))]

ghost use Rattle.std.specs.Prelude.{◌≡◌, ◌+◌, ◌<◌, ◌≤◌, ◌++◌, length, flat_map};
ghost use Rattle.ttp_base.specs.NodeSet.{below};
ghost use Rattle.chart_text.specs.Sums.{summed_name, look_told, sum_told, worst_class, worst_shown, tally_cell, many_shown, harmful_line};

use crate::element::close_wide_title;
use crate::look::{LOOKS, does_harm, fault_look, look_at, look_text};
use crate::size::Size;
use crate::tally::Tally;
use picture_text::{
    Corner, close_cell, close_text, open_cell, open_text_of, open_title, put_field,
};
use ttp_base::Line;
use whole_campaign::FaultShown;

/// Whose faults are summed up.
#[derive(Clone, Copy)]
pub enum Summed {
    /// Those of a node in a slot.
    OfCell { slot: u32, node: u8 },
    /// Those of a slot.
    OfSlot { slot: u32 },
    /// Those of a node, over the whole campaign.
    OfNode { node: u8 },
}

// Adds whose faults are summed up.
fn put_summed(line: &mut Line, of: Summed)
    requires { length line.old ≤ 400 }
    ensures text { line.new ≡ line.old ++ summed_name of }
    ensures short { length line.new ≤ length line.old + 60 }
{
    match of {
        Summed::OfCell { slot, node } => {
            put_field(line, "slot ", u64::from(slot));
            put_field(line, " node ", u64::from(node));
        }
        Summed::OfSlot { slot } => put_field(line, "slot ", u64::from(slot)),
        Summed::OfNode { node } => put_field(line, "node ", u64::from(node)),
    }
}

// Adds how many faults have the look of this number, where there are any.
fn put_look_told(line: &mut Line, counts: &[u64; 9], number: u8)
    requires room { length line.old ≤ 500 }
    requires number { number < 9 }
    ensures text { line.new ≡ line.old ++ look_told counts.now number }
    ensures short { length line.new ≤ length line.old + 31 }
{
    let many = counts[usize::from(number)];
    if many != 0 {
        line.put_text(", ");
        line.put_text(look_text(look_at(number)));
        put_field(line, " ", many);
    }
}

// Adds this for all looks.
fn put_looks_told(line: &mut Line, counts: &[u64; 9])
    requires room { length line.old ≤ 200 }
    ensures text { line.new ≡ line.old ++ flat_map (look_told counts.now) (below 9) }
    ensures short { length line.new ≤ length line.old + 279 }
{
    for number in 0..LOOKS {
        put_look_told(line, counts, number);
    }
}

// Adds what came of them.
fn put_told(line: &mut Line, of: Summed, tally: &Tally)
    requires { length line.old ≤ 60 }
    ensures text { line.new ≡ line.old ++ sum_told of tally.now.many tally.now.counts }
    ensures short { length line.new ≤ length line.old + 368 }
{
    put_summed(line, of);
    put_field(line, " faults ", tally.many);
    put_looks_told(line, &tally.counts);
}

// The class of the worst of them.
fn worst_class(size: Size, worst: Option<FaultShown>) -> &'static str
    ensures text { result.now ≡ worst_class size worst }
    ensures short { length result.now ≤ 8 }
{
    match worst {
        Some(fault) => look_text(fault_look(size, fault)),
        None => "none",
    }
}

// Adds how many healthy nodes the worst costs, where it is harmful.
fn put_worst(line: &mut Line, size: Size, worst: Option<FaultShown>)
    requires { length line.old ≤ 600 }
    ensures text { line.new ≡ line.old ++ worst_shown size worst }
    ensures short { length line.new ≤ length line.old + 3 }
{
    match worst {
        None => line.put_text("-"),
        Some(fault) => {
            if does_harm(size, fault) {
                line.put_number(u64::from(fault.hurt));
            }
        }
    }
}

/// Makes the cell that sums up faults; `also` stands behind its class.
pub(crate) fn make_sum(
    line: &mut Line,
    size: Size,
    of: Summed,
    also: &str,
    tally: &Tally,
    at: Corner,
)
    requires { length also.now ≤ 6 }
    ensures { line.new ≡ tally_cell size of also.now tally.now.many tally.now.counts tally.now.worst at.x at.y }
{
    open_cell(line);
    line.put_text(worst_class(size, tally.worst));
    line.put_text(also);
    open_title(line);
    put_told(line, of, tally);
    close_wide_title(line, at);
    put_worst(line, size, tally.worst);
    close_cell(line);
}

// Adds a number, if there is one.
fn put_many_shown(line: &mut Line, many: u64)
    requires { length line.old ≤ 600 }
    ensures text { line.new ≡ line.old ++ many_shown many }
    ensures short { length line.new ≤ length line.old + 20 }
{
    if many != 0 {
        line.put_number(many);
    }
}

/// Makes the line of how many are harmful.
pub(crate) fn make_harmful(line: &mut Line, many: u64, at: Corner)
    ensures { line.new ≡ harmful_line many at.x at.y }
{
    open_text_of(line, "slot", at.x, at.y);
    put_many_shown(line, many);
    close_text(line);
}
