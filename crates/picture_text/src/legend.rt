//! The legend: words, classes and marks.
#![tactic(auto, using(ttp_base::proofs::Room::room))]

ghost use Rattle.std.specs.Prelude.{◌≡◌, ◌+◌, ◌*◌, ◌^◌, ◌<◌, ◌≤◌, [], ◌∷◌, length, get_or};
ghost use Rattle.picture_text.specs.Cells.{cell};
ghost use Rattle.line_reader.specs.declared.trace_line.Word.TheVariants as word;
ghost use Rattle.picture_text.specs.Picture.{legend_x, legend_y, legend_text, cell_entry, round_entry};
ghost use Rattle.picture_text.specs.Picture.{mark_entry, word_entries, class_entries, mark_entries};
ghost use Rattle.ttp_base.specs.Sheet.{Puts};
ghost use Rattle.picture_text.specs.Tables.{words};

use crate::element::{make_cell, make_mark, make_round, make_text};
use crate::grid::beside;
use crate::layout::Corner;
use crate::tables::{WORDS, letter, word_meaning, word_number};
use shown_slot::word_text;
use ttp_base::{Sheet, Sink};

// The place of an entry of the legend whose upper edge this is.
fn entry_corner(top: u64, number: u8) -> Corner
    requires { top ≤ 2 ^ 43 }
    ensures x { result.x ≡ legend_x number }
    ensures y { result.y ≡ legend_y top number }
    ensures near { (result.x ≤ 1000) × (result.y ≤ 2 ^ 44) }
{
    Corner {
        x: 72 + 345 * u64::from(number % 3),
        y: top + 22 * u64::from(number / 3),
    }
}

// Writes an entry: a cell and its text.
fn put_entry<K: Sink>(
    top: u64,
    number: u8,
    class: &str,
    title: &str,
    shown: &str,
    text: &str,
    sheet: &mut Sheet,
    out: &mut K,
)
    requires cell { (length class.now ≤ 20) × (length title.now ≤ 100) × (length shown.now ≤ 20) }
    requires text { length text.now ≤ 100 }
    requires top { top ≤ 2 ^ 43 }
    ensures { Puts sheet.old.failed (K.output out.old) sheet.new.failed (K.output out.new)
        (cell class.now (legend_x number) (legend_y top number) title.now shown.now
        ∷ legend_text (legend_x number) (legend_y top number) text.now ∷ []) }
{
    let at = entry_corner(top, number);
    make_cell(&mut sheet.line, class, at, title, shown);
    sheet.write(out);
    make_text(&mut sheet.line, at.x + 25, at.y + 14, text);
    sheet.write(out);
}

/// Writes the entries of the words, from this edge on.
#[tactic(auto, using(ttp_base::proofs::Puts::puts))]
pub(crate) fn put_words<K: Sink>(top: u64, sheet: &mut Sheet, out: &mut K)
    requires { top ≤ 2 ^ 43 }
    ensures { Puts sheet.old.failed (K.output out.old) sheet.new.failed (K.output out.new) (word_entries top 0 words) }
{
    for number in 0..WORDS {
        let word = word_number(number);
        let name = word_text(word);
        put_entry(
            top,
            number,
            name,
            name,
            letter(word),
            word_meaning(word),
            sheet,
            out,
        );
    }
}

// Writes the entry of a class of cells.
fn put_class<K: Sink>(
    top: u64,
    number: u8,
    class: &str,
    shown: &str,
    meaning: &str,
    sheet: &mut Sheet,
    out: &mut K,
)
    requires texts { (length class.now ≤ 20) × (length shown.now ≤ 20) × (length meaning.now ≤ 100) }
    requires top { top ≤ 2 ^ 43 }
    ensures { Puts sheet.old.failed (K.output out.old) sheet.new.failed (K.output out.new)
        (cell_entry top number class.now shown.now meaning.now) }
{
    put_entry(top, number, class, meaning, shown, meaning, sheet, out);
}

// Writes the entry of the line of a round.
fn put_round_entry<K: Sink>(top: u64, number: u8, meaning: &str, sheet: &mut Sheet, out: &mut K)
    requires text { length meaning.now ≤ 100 }
    requires top { top ≤ 2 ^ 43 }
    ensures { Puts sheet.old.failed (K.output out.old) sheet.new.failed (K.output out.new)
        (round_entry top number meaning.now) }
{
    let at = entry_corner(top, number);
    make_round(&mut sheet.line, at.x + 9, at.y, 19);
    sheet.write(out);
    make_text(&mut sheet.line, at.x + 25, at.y + 14, meaning);
    sheet.write(out);
}

// Writes the entry of a mark, so far to the right and below.
fn put_mark_entry<K: Sink>(
    top: u64,
    number: u8,
    class: &str,
    shape: &str,
    right: u8,
    down: u8,
    meaning: &str,
    sheet: &mut Sheet,
    out: &mut K,
)
    requires texts { (length class.now ≤ 6) × (length shape.now ≤ 11) × (length meaning.now ≤ 100) }
    requires top { top ≤ 2 ^ 43 }
    ensures { Puts sheet.old.failed (K.output out.old) sheet.new.failed (K.output out.new)
        (mark_entry top number class.now shape.now right down meaning.now) }
{
    let at = entry_corner(top, number);
    let corner = beside(at, right, down);
    make_mark(&mut sheet.line, class, shape, corner, meaning);
    sheet.write(out);
    make_text(&mut sheet.line, at.x + 25, at.y + 14, meaning);
    sheet.write(out);
}

/// Writes the entries of classes, from this edge on.
pub(crate) fn put_classes<K: Sink>(top: u64, sheet: &mut Sheet, out: &mut K)
    requires { top ≤ 2 ^ 43 }
    ensures { Puts sheet.old.failed (K.output out.old) sheet.new.failed (K.output out.new) (class_entries top) }
{
    let words = "members: how many all nodes hold";
    put_class(top, 0, "agree", "4", words, sheet, out);
    let words = "members: nodes hold different ones";
    put_class(top, 1, "differ", "!", words, sheet, out);
    put_round_entry(top, 2, "a round begins: node 0 is due", sheet, out);
    let words = "clocks: microticks between them";
    put_class(top, 3, "none", "7", words, sheet, out);
    let words = "12k: 12000 to 12999, 1M+: 1000000 up";
    put_class(top, 4, "none", "12k", words, sheet, out);
    let words = "apart: its clock is far from most";
    put_class(top, 5, "apart", "3", words, sheet, out);
    let words = "a message was sent or delivered";
    put_class(top, 6, "correct data", "c", words, sheet, out);
    let words = "holds other members than most";
    put_class(top, 7, "correct other", "c", words, sheet, out);
    let words = "in doubt about its own frame";
    put_class(top, 8, "correct doubt", "c", words, sheet, out);
    let words = "few took the frame of this sender";
    put_class(top, 9, "send refused", "s", words, sheet, out);
}

/// Writes those of marks, from the same edge on.
pub(crate) fn put_mark_entries<K: Sink>(top: u64, sheet: &mut Sheet, out: &mut K)
    requires { top ≤ 2 ^ 43 }
    ensures { Puts sheet.old.failed (K.output out.old) sheet.new.failed (K.output out.new) (mark_entries top) }
{
    let words = "its host writes a message";
    put_mark_entry(top, 10, "write", "v-10l10 10z", 0, 19, words, sheet, out);
    let words = "its host reads a node's message";
    put_mark_entry(top, 11, "read", "h-10l10-10z", 19, 19, words, sheet, out);
    let words = "its host reads its status";
    put_mark_entry(top, 12, "status", "v10l-10-10z", 19, 0, words, sheet, out);
}
