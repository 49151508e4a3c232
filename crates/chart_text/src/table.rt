//! The table of what came of each kind of fault.
#![tactic(auto, using(ttp_base::proofs::Room::room))]

ghost use Rattle.std.specs.Prelude.{◌≡◌, ◌+◌, ◌*◌, ◌^◌, ◌<◌, ◌≤◌, [], ◌∷◌, ◌++◌, length, get_or, map, codes, decimal};
ghost use Rattle.whole_campaign.specs.declared.shown.Doing.TheVariants as doing;
ghost use Rattle.ttp_base.specs.NodeSet.{below};
ghost use Rattle.whole_campaign.specs.Faults.{first_place};
ghost use Rattle.ttp_base.specs.Text.{lines_below};
ghost use Rattle.picture_text.specs.Picture.{text_line, class_of};
ghost use Rattle.ttp_base.specs.Sheet.{Puts};
ghost use Rattle.chart_text.specs.declared.look.Look.TheVariants as look;
ghost use Rattle.chart_text.specs.Elements.{look_cell};
ghost use Rattle.chart_text.specs.Key.{many_class, count_line, kind_lines, many_places, part_lines, table_lines};
ghost use Rattle.chart_text.specs.Key.{kind_number};
ghost use Rattle.chart_text.specs.Looks.{looks, kind_said, doing_word};

use crate::element::make_look_cell;
use crate::kind::{doing_word, first_place, kind_number, many_places, put_kind};
use crate::look::{LOOKS, look_at};
use picture_text::{Corner, close_text, make_number_of, make_text_of, open_text};
use ttp_base::{Line, Sheet, Sink};
use whole_campaign::Doing;

fn many_class(many: u64) -> &'static str
    ensures text { result.now ≡ many_class many }
    ensures short { length result.now ≤ 4 }
{
    if many == 0 { "zero" } else { "many" }
}

// How many faults of a kind have the look of this number.
fn count_of(counts: &[u64; 252], kind: u16, number: u8) -> u64
    ensures { result ≡ get_or counts.now (9 * kind + number) 0 }
{
    match counts.get(9 * usize::from(kind) + usize::from(number)) {
        Some(many) => *many,
        None => 0,
    }
}

// Makes it.
fn make_count(line: &mut Line, counts: &[u64; 252], at: Corner, kind: u16, number: u8)
    requires { at.x ≤ 2 ^ 31 }
    ensures { line.new ≡ count_line counts.now at.x at.y kind number }
{
    let many = count_of(counts, kind, number);
    let x = at.x + 152 + 30 * u64::from(number);
    make_number_of(line, many_class(many), x, at.y, many);
}

// Writes these numbers for each look.
#[tactic(auto, using(ttp_base::proofs::Puts::puts))]
fn put_counts<K: Sink>(counts: &[u64; 252], at: Corner, kind: u16, sheet: &mut Sheet, out: &mut K)
    requires { at.x ≤ 2 ^ 31 }
    ensures { Puts sheet.old.failed (K.output out.old) sheet.new.failed (K.output out.new)
        (map (count_line counts.now at.x at.y kind) (below 9)) }
{
    for number in 0..LOOKS {
        make_count(&mut sheet.line, counts, at, kind, number);
        sheet.write(out);
    }
}

// Makes the name of the kind of a place.
fn make_kind(line: &mut Line, at: Corner, place: u8)
    ensures { line.new ≡ text_line [] at.x at.y (kind_said place) }
{
    open_text(line, at.x, at.y);
    put_kind(line, place);
    close_text(line);
}

// Writes the row of a kind.
#[tactic(auto, using(ttp_base::proofs::Puts::puts))]
fn put_kind_row<K: Sink>(
    counts: &[u64; 252],
    doing: Doing,
    at: Corner,
    place: u8,
    sheet: &mut Sheet,
    out: &mut K,
)
    requires { at.x ≤ 2 ^ 31 }
    ensures { Puts sheet.old.failed (K.output out.old) sheet.new.failed (K.output out.new)
        (kind_lines counts.now doing at.x at.y place) }
{
    make_kind(&mut sheet.line, at, place);
    sheet.write(out);
    put_counts(counts, at, kind_number(doing, place), sheet, out);
}

// Writes the rows of a word.
#[tactic(auto, using(ttp_base::proofs::Puts::puts))]
fn put_kind_rows<K: Sink>(
    counts: &[u64; 252],
    top: u64,
    x: u64,
    doing: Doing,
    sheet: &mut Sheet,
    out: &mut K,
)
    requires { (top ≤ 2 ^ 31) × (x ≤ 2 ^ 31) }
    ensures { Puts sheet.old.failed (K.output out.old) sheet.new.failed (K.output out.new)
        (lines_below (λ j. kind_lines counts.now doing x (top + 359 + 14 * j) (first_place doing + j)) (many_places doing)) }
{
    for number in 0..many_places(doing) {
        let at = Corner {
            x,
            y: top + 359 + 14 * u64::from(number),
        };
        put_kind_row(counts, doing, at, first_place(doing) + number, sheet, out);
    }
}

// Writes the head of the part of a word.
#[tactic(auto, using(ttp_base::proofs::Puts::puts))]
fn put_part_head<K: Sink>(top: u64, x: u64, sheet: &mut Sheet, out: &mut K)
    requires { (top ≤ 2 ^ 31) × (x ≤ 2 ^ 31) }
    ensures { Puts sheet.old.failed (K.output out.old) sheet.new.failed (K.output out.new)
        (map (λ i. look_cell (get_or looks i look.Same) (x + 133 + 30 * i) (top + 330)) (below 9)) }
{
    for number in 0..LOOKS {
        let at = Corner {
            x: x + 133 + 30 * u64::from(number),
            y: top + 330,
        };
        make_look_cell(&mut sheet.line, look_at(number), at);
        sheet.write(out);
    }
}

// Writes the part of a word.
#[tactic(auto, using(ttp_base::proofs::Puts::puts))]
fn put_part<K: Sink>(
    counts: &[u64; 252],
    top: u64,
    x: u64,
    doing: Doing,
    sheet: &mut Sheet,
    out: &mut K,
)
    requires { (top ≤ 2 ^ 31) × (x ≤ 2 ^ 31) }
    ensures { Puts sheet.old.failed (K.output out.old) sheet.new.failed (K.output out.new)
        (part_lines counts.now top x doing) }
{
    make_text_of(&mut sheet.line, "said", x, top + 341, doing_word(doing));
    sheet.write(out);
    put_part_head(top, x, sheet, out);
    put_kind_rows(counts, top, x, doing, sheet, out);
}

/// Writes the table of these counts.
#[tactic(auto, using(ttp_base::proofs::Puts::puts))]
pub(crate) fn put_table<K: Sink>(counts: &[u64; 252], top: u64, sheet: &mut Sheet, out: &mut K)
    requires { top ≤ 2 ^ 31 }
    ensures { Puts sheet.old.failed (K.output out.old) sheet.new.failed (K.output out.new)
        (table_lines counts.now top) }
{
    put_part(counts, top, 12, Doing::Send, sheet, out);
    put_part(counts, top, 442, Doing::Receive, sheet, out);
    put_part(counts, top, 872, Doing::Jump, sheet, out);
}
