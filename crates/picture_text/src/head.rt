//! The head of a picture: its size, its styles and what the tests say.
#![tactic(auto, using(ttp_base::proofs::Room::room))]

ghost use Rattle.std.specs.Prelude.{◌≡◌, ◌+◌, ◌<◌, ◌≤◌, ◌^◌, [], ◌∷◌, ◌++◌, length, codes, decimal};
ghost use Rattle.line_reader.specs.TraceLines.{keep_text, back_text};
ghost use Rattle.shown_slot.specs.Trace.{header_text};
ghost use Rattle.picture_text.specs.Cells.{title_element};
ghost use Rattle.picture_text.specs.Picture.{ended, svg_line, ground_line, style_lines, before_text, behind_text, more_text};
ghost use Rattle.picture_text.specs.Picture.{window_text, said_line, back_said, text_line};
ghost use Rattle.ttp_base.specs.Sheet.{Puts};
ghost use Rattle.picture_text.specs.Tables.{keep_meaning, back_meaning};
ghost use Rattle.picture_text.specs.Window.{height};

use crate::element::{close_text, open_text, open_text_of, put_field};
use crate::grid::height;
use crate::layout::Layout;
use crate::tables::{STYLE_LINES, returning_meaning, rule_meaning};
use crate::window::Span;
use shown_slot::{back_text, header_text, keep_text};
use ttp_base::{Line, Sheet, Sink};
use ttp_world::{Back, Keep};
use whole_trace::Head;

fn make_svg(line: &mut Line, height: u64)
    ensures { line.new ≡ svg_line height }
{
    line.clear();
    let words = "<svg xmlns=\"http://www.w3.org/2000/svg\" width=\"1140\" height=\"";
    put_field(line, words, height);
    put_field(line, "\" viewBox=\"0 0 1140 ", height);
    line.put_text("\">\n");
}

fn make_title(line: &mut Line, head: &Head)
    ensures { line.new ≡ ended (title_element (header_text head.now)) }
{
    line.clear();
    line.put_text("<title>");
    let text = header_text(head);
    line.put_bytes(text.bytes());
    line.put_text("</title>\n");
}

// Writes all styles.
fn put_styles<K: Sink>(sheet: &mut Sheet, out: &mut K)
    ensures { Puts sheet.old.failed (K.output out.old) sheet.new.failed (K.output out.new) style_lines }
{
    sheet.put_lines(&STYLE_LINES, out);
}

fn make_ground(line: &mut Line, height: u64)
    ensures { line.new ≡ ground_line height }
{
    line.clear();
    put_field(line, "<rect width=\"1140\" height=\"", height);
    line.put_text("\" fill=\"#ffffff\"/>\n");
}

// Adds what is left out before the first slot shown.
fn put_before(line: &mut Line, first: u32, quiet: bool)
    requires { length line.old ≤ 400 }
    ensures text { line.new ≡ line.old ++ before_text first quiet }
    ensures short { length line.new ≤ length line.old + 60 }
{
    if first == 0 {
        return;
    }
    if quiet {
        line.put_text("; before: all nodes off or listening");
    } else {
        let words = "; before: ttplab picture TRACE 0 ";
        put_field(line, words, u64::from(first - 1));
    }
}

// Adds what is left out behind the last one of so many.
fn put_behind(line: &mut Line, last: u32, slots: u32)
    requires line { length line.old ≤ 400 }
    requires slots { (last < 2 ^ 31) × (1 ≤ slots) }
    ensures text { line.new ≡ line.old ++ behind_text last slots }
    ensures short { length line.new ≤ length line.old + 80 }
{
    if last + 1 != slots {
        put_field(line, "; behind: ttplab picture TRACE ", u64::from(last + 1));
        put_field(line, " ", u64::from(slots - 1));
    }
}

// Adds that more happens past the slots shown.
fn put_more(line: &mut Line, strange: Option<u32>)
    requires { length line.old ≤ 500 }
    ensures text { line.new ≡ line.old ++ more_text strange }
    ensures short { length line.new ≤ length line.old + 50 }
{
    if let Some(slot) = strange {
        put_field(line, "; more happens in slot ", u64::from(slot));
    }
}

// Makes the first line of the trace as a text.
fn make_first(line: &mut Line, head: &Head)
    ensures { line.new ≡ text_line [] 12 20 (header_text head.now) }
{
    open_text(line, 12, 20);
    let text = header_text(head);
    line.put_bytes(text.bytes());
    close_text(line);
}

// Makes the line of what is shown and what is left out.
fn make_shown(line: &mut Line, layout: Layout, quiet: bool, strange: Option<u32>)
    ensures { line.new ≡ text_line [] 12 40 (window_text layout.span layout.head.slots quiet strange) }
{
    let Span { first, last } = layout.span;
    let slots = layout.head.slots;
    open_text(line, 12, 40);
    put_field(line, "shown: slots ", u64::from(first));
    put_field(line, " to ", u64::from(last));
    put_field(line, " of 0 to ", u64::from(slots - 1));
    put_before(line, first, quiet);
    put_behind(line, last, slots);
    put_more(line, strange);
    close_text(line);
}

/// Adds what the answer of the hypothesis test means.
pub fn put_keep_meaning(line: &mut Line, keep: &Keep)
    requires { length line.old ≤ 400 }
    ensures text { line.new ≡ line.old ++ keep_meaning keep.now }
    ensures short { length line.new ≤ length line.old + 130 }
{
    match keep {
        Keep::Yes { start } => {
            put_field(line, "from slot ", u64::from(*start));
            line.put_text(
                " on the correct nodes agree and stay; a faulty one may differ until it leaves",
            );
        }
        Keep::No { rule, .. } => line.put_text(rule_meaning(*rule)),
    }
}

fn make_keep_said(line: &mut Line, keep: &Keep)
    ensures { line.new ≡ said_line 60 (keep_text keep.now) (keep_meaning keep.now) }
{
    open_text_of(line, "said", 12, 60);
    let text = keep_text(keep);
    line.put_bytes(text.bytes());
    line.put_text(": ");
    put_keep_meaning(line, keep);
    close_text(line);
}

/// What the answer on armed nodes means.
pub fn back_meaning(back: &Back) -> &'static str
    ensures text { result.now ≡ back_meaning back.now }
    ensures short { length result.now ≤ 100 }
{
    match back {
        Back::Yes { .. } => "each armed node is owed its place",
        Back::No { rule, .. } => returning_meaning(*rule),
    }
}

fn make_back_said(line: &mut Line, back: &Back)
    ensures { line.new ≡ said_line 78 (back_text back.now) (back_meaning back.now) }
{
    open_text_of(line, "said", 12, 78);
    let text = back_text(back);
    line.put_bytes(text.bytes());
    line.put_text(": ");
    line.put_text(back_meaning(back));
    close_text(line);
}

// Writes what the test on armed nodes says, where the trace has it.
#[tactic(auto, using(ttp_base::proofs::Puts::puts))]
fn put_back_said<K: Sink>(back: Option<Back>, sheet: &mut Sheet, out: &mut K)
    ensures { Puts sheet.old.failed (K.output out.old) sheet.new.failed (K.output out.new) (back_said back) }
{
    if let Some(back) = back {
        make_back_said(&mut sheet.line, &back);
        sheet.write(out);
    }
}

/// Writes the head, where only quiet slots are before those shown or others too, and `strange` is the first strange slot
/// past them.
pub(crate) fn put_head<K: Sink>(
    layout: Layout,
    quiet: bool,
    strange: Option<u32>,
    keep: Keep,
    back: Option<Back>,
    sheet: &mut Sheet,
    out: &mut K,
)
    ensures { Puts sheet.old.failed (K.output out.old) sheet.new.failed (K.output out.new)
        (svg_line (height layout.head.nodes layout.span) ∷ ended (title_element (header_text layout.head)) ∷ style_lines
        ++ ground_line (height layout.head.nodes layout.span)
        ∷ text_line [] 12 20 (header_text layout.head)
        ∷ text_line [] 12 40 (window_text layout.span layout.head.slots quiet strange)
        ∷ said_line 60 (keep_text keep) (keep_meaning keep) ∷ back_said back) }
{
    let high = height(layout);
    make_svg(&mut sheet.line, high);
    sheet.write(out);
    make_title(&mut sheet.line, &layout.head);
    sheet.write(out);
    put_styles(sheet, out);
    make_ground(&mut sheet.line, high);
    sheet.write(out);
    make_first(&mut sheet.line, &layout.head);
    sheet.write(out);
    make_shown(&mut sheet.line, layout, quiet, strange);
    sheet.write(out);
    make_keep_said(&mut sheet.line, &keep);
    sheet.write(out);
    put_back_said(back, sheet, out);
}
