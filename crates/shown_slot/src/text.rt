//! The lines of a trace beside those of its slots, without their line feeds.
ghost use Rattle.std.specs.Prelude.{◌≡◌, ◌+◌, ◌-◌, ◌≤◌, ◌++◌, decimal, length, take};
ghost use Rattle.line_reader.specs.TraceLines.{keep_text, back_text};
ghost use Rattle.shown_slot.specs.Trace.{header_text};

use line_text::{back_line, keep_line};
use ttp_base::Line;
use ttp_world::{Back, Keep};
use whole_trace::Head;

// Adds a number behind its label.
#[tactic(auto, using(ttp_base::proofs::Room::room))]
fn put_field(line: &mut Line, label: &str, number: u32)
    requires { length line.old + length label.now + 20 ≤ 640 }
    ensures text { line.new ≡ line.old ++ label.now ++ decimal number }
    ensures short { length line.new ≤ length line.old + length label.now + 20 }
{
    line.put_text(label);
    line.put_number(u64::from(number));
}

/// The first line of a trace.
#[tactic(auto, using(ttp_base::proofs::Room::room, ttp_base::proofs::Hex::six_digits))]
pub fn header_text(head: &Head) -> Line
    ensures text { result ≡ header_text head.now }
    ensures short { length result ≤ 140 }
{
    let mut line = Line::new();
    put_field(&mut line, "ttpbench trace ", u32::from(head.version));
    put_field(&mut line, " nodes ", u32::from(head.nodes));
    put_field(&mut line, " rounds ", u32::from(head.rounds));
    put_field(&mut line, " slots ", head.slots);
    line.put_text(" schedule ");
    // Six digits show no more of it.
    line.put_hex(u64::from(head.schedule % 16_777_216), 6);
    line
}

fn without_feed(line: Line) -> Line
    requires { 1 ≤ length line }
    ensures { result ≡ take (length line - 1) line }
{
    let mut text = line;
    text.cut(text.len() - 1);
    text
}

/// The line of the hypothesis test.
#[tactic(auto, using(crate::proofs::Texts::keep_feed))]
pub fn keep_text(keep: &Keep) -> Line
    ensures text { result ≡ keep_text keep.now }
    ensures short { length result ≤ 60 }
{
    without_feed(keep_line(keep))
}

/// The line on armed nodes.
#[tactic(auto, using(crate::proofs::Texts::back_feed))]
pub fn back_text(back: &Back) -> Line
    ensures text { result ≡ back_text back.now }
    ensures short { length result ≤ 60 }
{
    without_feed(back_line(back))
}
