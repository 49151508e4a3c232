//! The flag of the script's test.
#![tactic(auto, using(ttp_base::proofs::Room::room))]

ghost use Rattle.std.specs.Prelude.{◌≡◌, ◌+◌, ◌-◌, ◌*◌, ◌<◌, ◌≤◌, [], ◌∷◌, ◌++◌, length, codes, decimal, Some};
ghost use Rattle.picture_text.specs.Picture.{class_of, text_line};
ghost use Rattle.ttp_base.specs.Sheet.{Puts};
ghost use Rattle.picture_text.specs.Tables.{keep_name, keep_slot, back_name, back_slot};
ghost use Rattle.chart_text.specs.Chart.{test_slot, test_name, test_flag};
ghost use Rattle.chart_text.specs.Columns.{chart_x, chart_y};

use crate::element::make_pole;
use crate::extent::{chart_x, chart_y};
use picture_text::{Corner, close_text, open_text_of, put_field};
use ttp_base::{Line, Sheet, Sink};
use ttp_world::{Back, Keep};
use whole_campaign::Test;

/// The slot that a test names.
pub(crate) fn test_slot(test: &Test) -> u32
    ensures { result ≡ test_slot test.now }
{
    match test {
        Test::Keep(keep) => match keep {
            Keep::Yes { start } => *start,
            Keep::No { slot, .. } => *slot,
        },
        Test::Back(back) => match back {
            Back::Yes { start } => *start,
            Back::No { slot, .. } => *slot,
        },
    }
}

// Adds what the flag shows.
fn put_name(line: &mut Line, test: &Test)
    requires { length line.old ≤ 600 }
    ensures text { line.new ≡ line.old ++ test_name test.now }
    ensures short { length line.new ≤ length line.old + 21 }
{
    match test {
        Test::Keep(keep) => match keep {
            Keep::Yes { .. } => line.put_text("start"),
            Keep::No { rule, .. } => put_field(line, "H", u64::from(*rule)),
        },
        Test::Back(back) => match back {
            Back::Yes { .. } => line.put_text("start"),
            Back::No { rule, .. } => put_field(line, "Q", u64::from(*rule)),
        },
    }
}

fn make_name(line: &mut Line, x: u64, y: u64, test: &Test)
    ensures { line.new ≡ text_line (class_of (codes "keep")) x y (test_name test.now) }
{
    open_text_of(line, "keep", x, y);
    put_name(line, test);
    close_text(line);
}

/// Writes the flag, where its slot has a column.
#[tactic(auto, using(ttp_base::proofs::Puts::puts_none))]
pub(crate) fn put_flag<K: Sink>(
    nodes: u8,
    column: Option<u32>,
    test: &Test,
    sheet: &mut Sheet,
    out: &mut K,
)
    requires { (4 ≤ nodes) × (nodes ≤ 24) }
    ensures { Puts sheet.old.failed (K.output out.old) sheet.new.failed (K.output out.new)
        (test_flag nodes column test.now) }
{
    if let Some(column) = column {
        let x = chart_x(nodes, column);
        let y = chart_y(nodes, column, 0);
        let at = Corner {
            x: x - 1,
            y: y - 26,
        };
        make_pole(&mut sheet.line, "flag", at, 30 * u64::from(nodes) + 22);
        sheet.write(out);
        make_name(&mut sheet.line, x + 2, y - 17, test);
        sheet.write(out);
    }
}
