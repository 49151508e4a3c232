//! The picture of a trace.
#![tactic(auto, using(ttp_base::proofs::Puts::puts))]

ghost use Rattle.std.specs.Prelude.{◌≡◌, ◌+◌, ◌<◌, ◌≤◌, [], ◌∷◌, ◌++◌, codes, length, flat_map, drop, IfSome, OnOk};
ghost use Rattle.std.specs.Prelude.{None, OnErr, IsTrue, position};
ghost use Rattle.ttp_base.specs.Outside.{WroteLines, CutShort};
ghost use Rattle.ttp_base.specs.Text.{lines_below};
ghost use Rattle.picture_text.specs.Picture.{ended, band_lines, cell_lines, beside_lines, slot_at, shown_slots};
ghost use Rattle.picture_text.specs.Picture.{keep_flag, back_flag, word_entries, class_entries, mark_entries, picture_of};
ghost use Rattle.picture_text.specs.Picture.{picture_lines};
ghost use Rattle.ttp_base.specs.Sheet.{Puts};
ghost use Rattle.picture_text.specs.Tables.{words};
ghost use Rattle.picture_text.specs.Window.{bands, legend_top, is_strange, is_quiet_before};

use crate::band::put_bands;
use crate::beside::put_beside;
use crate::cells::put_cells;
use crate::flag::{put_back_flag, put_keep_flag};
use crate::grid::legend_top;
use crate::head::put_head;
use crate::layout::Layout;
use crate::legend::{put_classes, put_mark_entries, put_words};
use crate::walk::{Selection, skipped, span_shown, strange_past};
use crate::window::Span;
use ttp_base::{Failed, Sheet, Sink};
use ttp_world::{Back, Keep};
use whole_trace::{Slots, Whole};

// Writes the cells of the slots shown, which begin with these.
fn put_all_cells<K: Sink>(
    trace: &Whole<'_>,
    layout: Layout,
    first: &Slots<'_>,
    sheet: &mut Sheet,
    out: &mut K,
)
    requires shown { layout.span.last < length trace.now.slots }
    requires first { first.now ≡ drop layout.span.first trace.now.slots }
    ensures { Puts sheet.old.failed (K.output out.old) sheet.new.failed (K.output out.new)
        (flat_map (λ t. cell_lines layout.head layout.span t (slot_at trace.now t)) (shown_slots layout.span)) }
{
    let mut left = first.again();
    for passed in 0..layout.span.last + 1 - layout.span.first {
        match left.next_slot() {
            Some(shown) => put_cells(layout, layout.span.first + passed, &shown, sheet, out),
            None => unreachable!(),
        }
    }
}

// Writes what stands beside them.
fn put_all_beside<K: Sink>(
    trace: &Whole<'_>,
    layout: Layout,
    first: &Slots<'_>,
    sheet: &mut Sheet,
    out: &mut K,
)
    requires shown { layout.span.last < length trace.now.slots }
    requires first { first.now ≡ drop layout.span.first trace.now.slots }
    ensures { Puts sheet.old.failed (K.output out.old) sheet.new.failed (K.output out.new)
        (flat_map (λ t. beside_lines layout.head.nodes layout.span t (slot_at trace.now t)) (shown_slots layout.span)) }
{
    let mut left = first.again();
    for passed in 0..layout.span.last + 1 - layout.span.first {
        match left.next_slot() {
            Some(shown) => put_beside(layout, layout.span.first + passed, &shown, sheet, out),
            None => unreachable!(),
        }
    }
}

// Writes the rows of the picture: their names, their cells and what stands beside them.
fn put_rows<K: Sink>(
    trace: &Whole<'_>,
    layout: Layout,
    first: &Slots<'_>,
    sheet: &mut Sheet,
    out: &mut K,
)
    requires shown { layout.span.last < length trace.now.slots }
    requires first { first.now ≡ drop layout.span.first trace.now.slots }
    ensures { Puts sheet.old.failed (K.output out.old) sheet.new.failed (K.output out.new)
        (lines_below (band_lines layout.head.nodes layout.span) (bands layout.head.nodes layout.span)
        ++ flat_map (λ t. cell_lines layout.head layout.span t (slot_at trace.now t)) (shown_slots layout.span)
        ++ flat_map (λ t. beside_lines layout.head.nodes layout.span t (slot_at trace.now t)) (shown_slots layout.span)) }
{
    put_bands(layout, sheet, out);
    put_all_cells(trace, layout, first, sheet, out);
    put_all_beside(trace, layout, first, sheet, out);
}

// Writes what stands behind the rows.
fn put_rest<K: Sink>(layout: Layout, keep: Keep, back: Option<Back>, sheet: &mut Sheet, out: &mut K)
    ensures { Puts sheet.old.failed (K.output out.old) sheet.new.failed (K.output out.new)
        (keep_flag layout.head.nodes layout.span keep ++ back_flag layout.head.nodes layout.span back
        ++ word_entries (legend_top layout.head.nodes layout.span) 0 words
        ++ class_entries (legend_top layout.head.nodes layout.span + 118)
        ++ mark_entries (legend_top layout.head.nodes layout.span + 118) ++ ended (codes "</svg>") ∷ []) }
{
    let top = legend_top(layout);
    put_keep_flag(layout, keep, sheet, out);
    put_back_flag(layout, back, sheet, out);
    put_words(top, sheet, out);
    put_classes(top + 118, sheet, out);
    put_mark_entries(top + 118, sheet, out);
    sheet.put(b"</svg>\n", out);
}

// Writes the picture of these slots.
fn put_span<K: Sink>(trace: &Whole<'_>, shown: Selection, sheet: &mut Sheet, out: &mut K)
    requires shown { (shown.span.first ≤ shown.span.last) × (shown.span.last < length trace.now.slots) }
    requires quiet { shown.is_quiet_before ≡ is_quiet_before shown.span.first trace.now.slots }
    requires calm { IsTrue shown.is_calm → position is_strange trace.now.slots ≡ None }
    ensures { Puts sheet.old.failed (K.output out.old) sheet.new.failed (K.output out.new)
        (picture_of trace.now shown.span) }
{
    let head = trace.head();
    let span = shown.span;
    let layout = Layout { head, span };
    let first = skipped(trace.slots(), span.first);
    let strange = strange_past(trace, shown, first.again());
    put_head(
        layout,
        shown.is_quiet_before,
        strange,
        trace.keep(),
        trace.back(),
        sheet,
        out,
    );
    put_rows(trace, layout, &first, sheet, out);
    put_rest(layout, trace.keep(), trace.back(), sheet, out);
}

/// Writes the picture of a trace: of the slots that were asked for, as far as there are any, or of those that are
/// chosen where none are. The first one has to be a slot of the trace, and none after the last.
///
/// Each line is one piece. `Failed` is the sink's: some first lines were written, or none, and some first bytes of
/// the next one. The trace is gone over at most a few times, and no memory is taken.
pub fn put_picture<K: Sink>(
    trace: &Whole<'_>,
    asked: Option<Span>,
    out: &mut K,
) -> Result<(), Failed>
    requires { IfSome asked (λ span. (span.first ≤ span.last) × (span.first < length trace.now.slots)) }
    ensures ok { OnOk result (WroteLines (K.output out.old) (K.output out.new) (picture_lines trace.now asked)) }
    ensures failed { OnErr result (CutShort (K.output out.old) (K.output out.new) (picture_lines trace.now asked)) }
{
    let shown = span_shown(trace, asked);
    let mut sheet = Sheet::new();
    put_span(trace, shown, &mut sheet, out);
    sheet.end()
}
