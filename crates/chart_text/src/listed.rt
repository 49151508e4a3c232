//! The list of the worst faults.
#![tactic(auto, using(ttp_base::proofs::Room::room))]

ghost use Rattle.std.specs.Prelude.{◌≡◌, ◌+◌, ◌^◌, ◌≤◌, [], ◌++◌, length, codes, decimal, ◌==◌, if◌then◌else◌};
ghost use Rattle.picture_text.specs.Picture.{class_of, text_line};
ghost use Rattle.ttp_base.specs.Sheet.{Puts};
ghost use Rattle.chart_text.specs.Elements.{wide_cell};
ghost use Rattle.chart_text.specs.Looks.{look_text};
ghost use Rattle.chart_text.specs.Steps.{longest_text};
ghost use Rattle.chart_text.specs.Worst.{fault_in_line, hurt_word, lost_said, listed_lines, list_lines, list_title, worst_lines};
ghost use Rattle.whole_campaign.specs.Steps.{told_of};

use crate::buffer::Buffer;
use crate::element::close_wide_title;
use crate::line_words::{fault_in_line, hurt_word};
use crate::look::{fault_look, look_text};
use crate::size::Size;
use crate::worst::Worst;
use picture_text::{
    Corner, close_cell, close_text, open_cell, open_text, open_text_of, open_title, put_field,
};
use ttp_base::{Line, Sheet, Sink};
use whole_campaign::FaultLine;

// Makes the cell of a look with a number.
fn make_look_number(line: &mut Line, name: &str, number: u8, at: Corner)
    requires { length name.now ≤ 8 }
    ensures { line.new ≡ wide_cell name.now at.x at.y name.now (decimal number) }
{
    open_cell(line);
    line.put_text(name);
    open_title(line);
    line.put_text(name);
    close_wide_title(line, at);
    line.put_number(u64::from(number));
    close_cell(line);
}

// Makes the line of a fault, as a script has it.
fn make_fault(buffer: &mut Buffer, line: &mut Line, y: u64, text: &[u8])
    requires { length text.now + 200 ≤ buffer.old.room }
    ensures text { buffer.new.text ≡ text_line [] 44 y (fault_in_line text.now) }
    ensures room { buffer.new.room ≡ buffer.old.room }
{
    open_text(line, 44, y);
    buffer.clear();
    buffer.put_bytes(line.bytes());
    buffer.put_bytes(fault_in_line(text));
    buffer.put_bytes(b"</text>\n");
}

// Adds which healthy nodes were lost, if any were.
fn put_lost_nodes(buffer: &mut Buffer, hurt: u8, text: &[u8])
    requires { length buffer.old.text + length text.now + 3 ≤ buffer.old.room }
    ensures text { buffer.new.text ≡ buffer.old.text ++ (if hurt == 0 then [] else codes " (" ++ hurt_word text.now ++ codes ")") }
    ensures room { buffer.new.room ≡ buffer.old.room }
    ensures short { length buffer.new.text ≤ length buffer.old.text + length text.now + 3 }
{
    if hurt != 0 {
        buffer.put_bytes(b" (");
        buffer.put_bytes(hurt_word(text));
        buffer.put_bytes(b")");
    }
}

// Makes the line of what it costs.
fn make_lost(buffer: &mut Buffer, line: &mut Line, size: Size, y: u64, fault: &FaultLine<'_>)
    requires { length fault.now.text.now + 200 ≤ buffer.old.room }
    ensures text { buffer.new.text ≡ text_line [] 300 y (lost_said size (told_of fault.now)) }
    ensures room { buffer.new.room ≡ buffer.old.room }
{
    open_text(line, 300, y);
    line.put_text(look_text(fault_look(size, fault.shown)));
    put_field(line, ", healthy nodes lost: ", u64::from(fault.shown.hurt));
    buffer.clear();
    buffer.put_bytes(line.bytes());
    put_lost_nodes(buffer, fault.shown.hurt, fault.text);
    buffer.put_bytes(b"</text>\n");
}

// Writes the lines of one of the worst.
#[tactic(auto, using(ttp_base::proofs::Puts::puts))]
fn put_listed<K: Sink>(
    size: Size,
    y: u64,
    fault: &FaultLine<'_>,
    buffer: &mut Buffer,
    sheet: &mut Sheet,
    out: &mut K,
)
    requires y { y ≤ 2 ^ 40 }
    requires room { length fault.now.text.now + 200 ≤ buffer.old.room }
    ensures puts { Puts sheet.old.failed (K.output out.old) sheet.new.failed (K.output out.new)
        (listed_lines size y (told_of fault.now)) }
    ensures room { buffer.new.room ≡ buffer.old.room }
{
    let look = look_text(fault_look(size, fault.shown));
    make_look_number(&mut sheet.line, look, fault.shown.hurt, Corner { x: 12, y });
    sheet.write(out);
    make_fault(buffer, &mut sheet.line, y + 12, fault.text);
    sheet.put(buffer.bytes(), out);
    make_lost(buffer, &mut sheet.line, size, y + 12, fault);
    sheet.put(buffer.bytes(), out);
}

// Writes the lines of all of them.
#[tactic(auto, using(ttp_base::proofs::Puts::puts))]
fn put_list<K: Sink>(
    size: Size,
    top: u64,
    worst: &Worst<'_>,
    buffer: &mut Buffer,
    sheet: &mut Sheet,
    out: &mut K,
)
    requires top { top ≤ 2 ^ 31 }
    requires room { longest_text worst.now + 200 ≤ buffer.old.room }
    ensures puts { Puts sheet.old.failed (K.output out.old) sheet.new.failed (K.output out.new)
        (list_lines size top worst.now) }
    ensures room { buffer.new.room ≡ buffer.old.room }
{
    for number in 0..worst.len() {
        let Some(fault) = worst.get(number) else {
            return;
        };
        put_listed(size, top + 20 * number as u64, &fault, buffer, sheet, out);
    }
}

// Adds how many faults are harmful.
fn put_list_title(line: &mut Line, harmful: u64)
    requires { length line.old ≤ 400 }
    ensures text { line.new ≡ line.old ++ list_title harmful }
    ensures short { length line.new ≤ length line.old + 60 }
{
    if harmful == 0 {
        line.put_text("no fault is harmful");
    } else {
        put_field(line, "the worst of ", harmful);
        line.put_text(" harmful faults");
    }
}

// Makes the line above them.
fn make_list_title(line: &mut Line, y: u64, harmful: u64)
    ensures { line.new ≡ text_line (class_of (codes "said")) 12 y (list_title harmful) }
{
    open_text_of(line, "said", 12, y);
    put_list_title(line, harmful);
    close_text(line);
}

/// Writes the list of the worst of so many harmful faults.
#[tactic(auto, using(ttp_base::proofs::Puts::puts))]
pub(crate) fn put_worst<K: Sink>(
    size: Size,
    top: u64,
    harmful: u64,
    worst: &Worst<'_>,
    buffer: &mut Buffer,
    sheet: &mut Sheet,
    out: &mut K,
)
    requires top { top ≤ 2 ^ 30 }
    requires room { longest_text worst.now + 200 ≤ buffer.old.room }
    ensures puts { Puts sheet.old.failed (K.output out.old) sheet.new.failed (K.output out.new)
        (worst_lines size top harmful worst.now) }
    ensures room { buffer.new.room ≡ buffer.old.room }
{
    make_list_title(&mut sheet.line, top + 8, harmful);
    sheet.write(out);
    put_list(size, top + 20, worst, buffer, sheet, out);
}
