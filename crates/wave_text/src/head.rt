//! What stands before the declarations, written.
#![tactic(auto, using(ttp_base::proofs::Puts::puts))]

ghost use Rattle.std.specs.Prelude.{◌≡◌, ◌≤◌, [], ◌∷◌, length};
ghost use Rattle.ttp_base.specs.Sheet.{Puts};
ghost use Rattle.shown_slot.specs.Trace.{first_text, keeps_text, returns_text};
ghost use Rattle.wave_text.specs.Wave.{comment_line, comment_lines, wave_head_lines};

use crate::draft::Draft;
use crate::page::Page;
use shown_slot::{back_text, header_text, keep_text};
use ttp_base::Sink;
use whole_trace::Whole;

#[tactic(auto)]
fn make_comment(line: &mut Draft, text: &[u8])
    requires { length text.now ≤ 640 }
    ensures { line.new ≡ comment_line text.now }
{
    line.clear();
    line.put_text("$comment ");
    line.put_bytes(text);
    line.put_text(" $end\n");
}

// Writes a text as a comment.
fn put_comment<K: Sink>(text: &[u8], page: &mut Page, out: &mut K)
    requires { length text.now ≤ 640 }
    ensures { Puts page.old.sheet.failed (K.output out.old) page.new.sheet.failed (K.output out.new)
        (comment_line text.now ∷ []) }
{
    make_comment(&mut page.now, text);
    page.write(out);
}

// Writes the line on armed nodes as a comment, if there is one.
fn put_back<K: Sink>(trace: &Whole, page: &mut Page, out: &mut K)
    ensures { Puts page.old.sheet.failed (K.output out.old) page.new.sheet.failed (K.output out.new)
        (comment_lines (returns_text trace.now)) }
{
    match trace.back() {
        None => {}
        Some(back) => put_comment(back_text(&back).bytes(), page, out),
    }
}

/// Writes what stands before the declarations.
pub(crate) fn put_head<K: Sink>(trace: &Whole, page: &mut Page, out: &mut K)
    ensures { Puts page.old.sheet.failed (K.output out.old) page.new.sheet.failed (K.output out.new)
        (wave_head_lines (first_text trace.now) (keeps_text trace.now) (returns_text trace.now)) }
{
    page.sheet.put(b"$version ttplab wave $end\n", out);
    put_comment(header_text(&trace.head()).bytes(), page, out);
    put_comment(keep_text(&trace.keep()).bytes(), page, out);
    put_back(trace, page, out);
    page.sheet.put(b"$timescale 1 s $end\n", out);
}
