//! The chart of a campaign.
#![tactic(auto)]

ghost use Rattle.std.specs.Prelude.{◌≡◌, ◌+◌, ◌-◌, ◌^◌, ◌<◌, ◌≤◌, [], ◌∷◌, ◌++◌, codes, decimal, length, map, IfOk, OnOk};
ghost use Rattle.std.specs.Prelude.{ℕ, true, false, Err, IfErr, IfSome, List};
ghost use Rattle.ttp_base.specs.Outside.{WroteLines, CutShort};
ghost use Rattle.whole_campaign.specs.Readable.{counts_fit, counts_sum, IsReadable};
ghost use Rattle.ttp_base.specs.Sheet.{Puts};
ghost use Rattle.picture_text.specs.Picture.{ended, text_line};
ghost use Rattle.chart_text.specs.Chart.{slots_shown_text, many_listed, chart_head, chart_body, chart_end, chart_of, chart_lines};
ghost use Rattle.chart_text.specs.Columns.{size_of_campaign, first_told_slot, slots_shown, chosen_slots, tried_slots, place_of_harm, shown_among};
ghost use Rattle.chart_text.specs.Key.{all_counts, key_and_table};
ghost use Rattle.chart_text.specs.Looks.{does_harm};
ghost use Rattle.chart_text.specs.Steps.{has_mark, marked_slots, longest_text};
ghost use Rattle.chart_text.specs.Walks.{LeftOfChart, AreTallies};
ghost use Rattle.chart_text.specs.Worst.{most_lost, ten_worst};
ghost use Rattle.whole_campaign.specs.Whole.{FaultTold};
ghost use Rattle.chart_text.specs.declared.chart.ChartFault.TheVariants as fault;

use crate::ahead::Ahead;
use crate::band::put_bands;
use crate::block::put_beside;
use crate::buffer::Buffer;
use crate::column::put_columns;
use crate::element::put_many;
use crate::extent::{Extent, chart_height, key_top, list_top, most_columns};
use crate::flag::{put_flag, test_slot};
use crate::head::{make_harm, put_front, put_hidden, put_own, put_sums};
use crate::key::{put_how_to_read, put_key, put_legend, put_words_meant};
use crate::listed::put_worst;
use crate::marks::{count_marks, keep_asked, keep_from, marked_slot, place_in};
use crate::size::Size;
use crate::sums::{CountsByTest, sums_of};
use crate::survey::{Overview, first_hidden, survey_of};
use crate::table::put_table;
use crate::tally::Tallies;
use crate::worst::Worst;
use picture_text::{Span, close_text, open_text};
use std::alloc::Global;
use ttp_base::{Line, Memory, Sheet, Sink};
use whole_campaign::{Campaign, Pieces};

/// Why a chart was not written whole.
#[derive(Clone, Copy, PartialEq, Eq)]
pub enum ChartFault {
    /// No slot is to be shown, and nothing was written.
    NoSlot,
    /// Memory was refused, and nothing was written.
    Memory,
    /// The sink's count of faults rose.
    Failed,
}

// Marks the slots in which faults are tried, and gives the sums of what their pieces count.
fn mark_tried(pieces: Pieces<'_>, marks: &mut [bool]) -> CountsByTest
    requires none { (t : ℕ) → has_mark marks.old t ≡ false }
    requires kept { counts_fit (counts_sum (map (λ piece. piece.kept) pieces)) ≡ true }
    requires broken { counts_fit (counts_sum (map (λ piece. piece.broken) pieces)) ≡ true }
    ensures marks { marked_slots marks.new ≡ tried_slots (length marks.old) pieces.entry }
    ensures kept { result.kept ≡ counts_sum (map (λ piece. piece.kept) pieces.entry) }
    ensures broken { result.broken ≡ counts_sum (map (λ piece. piece.broken) pieces.entry) }
{
    sums_of(pieces, marks)
}

// A mark for each slot of a run in which faults are tried, and the sums of what their pieces count.
#[tactic(auto, using(crate::proofs::Slots::none_marked))]
fn tried_marks(
    alloc: Global,
    slots: u32,
    pieces: Pieces<'_>,
) -> Result<(Vec<bool>, CountsByTest), Memory>
    requires kept { counts_fit (counts_sum (map (λ piece. piece.kept) pieces)) ≡ true }
    requires broken { counts_fit (counts_sum (map (λ piece. piece.broken) pieces)) ≡ true }
    ensures length { IfOk result (λ r. length r.0.items ≡ slots) }
    ensures marks { IfOk result (λ r. marked_slots r.0.items ≡ tried_slots slots pieces.entry) }
    ensures kept { IfOk result (λ r. r.1.kept ≡ counts_sum (map (λ piece. piece.kept) pieces.entry)) }
    ensures broken { IfOk result (λ r. r.1.broken ≡ counts_sum (map (λ piece. piece.broken) pieces.entry)) }
{
    match vec![in alloc; false; slots as usize] {
        Ok(mut marks) => {
            let sums = mark_tried(pieces, &mut marks);
            Ok((marks, sums))
        }
        Err(_) => Err(Memory),
    }
}

// The place of the slot of the first harm among those that are marked, or 0.
fn place_of_harm(marks: &[bool], harm: Option<u32>) -> u32
    requires { length marks.now ≤ 20000 }
    ensures { result ≡ place_of_harm (marked_slots marks.now) harm }
{
    match harm {
        Some(slot) => match place_in(marks, slot) {
            Some(place) => place,
            None => 0,
        },
        None => 0,
    }
}

// Takes away the marks of slots that are not chosen.
fn keep_chosen(marks: &mut [bool], nodes: u8, harm: Option<u32>)
    requires few { length marks.old ≤ 20000 }
    requires nodes { (4 ≤ nodes) × (nodes ≤ 24) }
    ensures { marked_slots marks.new ≡ chosen_slots nodes harm (marked_slots marks.old) }
{
    let all = count_marks(marks);
    let most = most_columns(nodes);
    if most < all {
        let earlier = place_of_harm(marks, harm).saturating_sub(u32::from(nodes));
        keep_from(marks, earlier.min(all - most), most);
    }
}

// Takes away the marks of slots that are not shown.
fn keep_shown(marks: &mut [bool], nodes: u8, harm: Option<u32>, asked: Option<Span>)
    requires few { length marks.old ≤ 20000 }
    requires nodes { (4 ≤ nodes) × (nodes ≤ 24) }
    ensures { marked_slots marks.new ≡ shown_among nodes harm asked (marked_slots marks.old) }
{
    match asked {
        Some(asked) => keep_asked(marks, asked),
        None => keep_chosen(marks, nodes, harm),
    }
}

// Makes the line of what is shown.
#[tactic(auto, using(ttp_base::proofs::Room::room))]
fn make_shown(line: &mut Line, extent: Extent, marks: &[bool], hidden: Option<u32>)
    requires marks { length marks.now ≤ 20000 }
    requires many { extent.many ≡ length (marked_slots marks.now) }
    requires some { 1 ≤ extent.many }
    ensures { line.new ≡ text_line [] 12 40 (slots_shown_text extent.size (marked_slots marks.now) hidden) }
{
    let first = marked_slot(marks, 0);
    let last = marked_slot(marks, extent.many - 1);
    open_text(line, 12, 40);
    put_many(line, u64::from(extent.size.nodes), " nodes, ");
    put_many(line, u64::from(extent.size.slots), " slots, shown: ");
    put_many(line, u64::from(extent.many), " of them, ");
    put_many(line, u64::from(first), " to ");
    line.put_number(u64::from(last));
    put_hidden(line, hidden);
    close_text(line);
}

// Writes the head.
fn put_head<K: Sink>(
    campaign: &Campaign<'_>,
    extent: Extent,
    marks: &[bool],
    sums: CountsByTest,
    found: &Overview,
    buffer: &mut Buffer,
    sheet: &mut Sheet,
    out: &mut K,
)
    requires size { extent.size ≡ size_of_campaign campaign.now }
    requires marks { length marks.now ≤ 20000 }
    requires shown { extent.many ≡ length (marked_slots marks.now) }
    requires some { 1 ≤ extent.many }
    requires listed { extent.listed ≡ many_listed extent.size campaign.now.faults }
    requires tallies { AreTallies extent.size found.now.tallies [] campaign.now.faults }
    requires most { found.now.survey.most ≡ most_lost extent.size campaign.now.faults }
    requires kept { sums.kept ≡ counts_sum (map (λ piece. piece.kept) campaign.now.pieces) }
    requires broken { sums.broken ≡ counts_sum (map (λ piece. piece.broken) campaign.now.pieces) }
    requires own { length campaign.now.own.text + length campaign.now.own.cost + 200 ≤ buffer.old.room }
    requires test { length campaign.now.own.test_text + 300 ≤ buffer.old.room }
    ensures puts { Puts sheet.old.failed (K.output out.old) sheet.new.failed (K.output out.new)
        (chart_head extent.size campaign.now.own (marked_slots marks.now) campaign.now.faults
        (counts_sum (map (λ piece. piece.kept) campaign.now.pieces))
        (counts_sum (map (λ piece. piece.broken) campaign.now.pieces))) }
    ensures room { buffer.new.room ≡ buffer.old.room }
{
    let hidden = first_hidden(extent.size, marks, campaign.faults());
    let all = found.tallies.all;
    put_front(extent.size, chart_height(extent), sheet, out);
    make_harm(
        &mut sheet.line,
        all.harmful,
        all.many,
        found.survey.most,
        extent.size.nodes,
    );
    sheet.write(out);
    make_shown(&mut sheet.line, extent, marks, hidden);
    sheet.write(out);
    put_own(campaign.own(), buffer, sheet, out);
    put_sums(sums, sheet, out);
}

// Writes the columns and what stands beside them.
fn put_body<K: Sink>(
    campaign: &Campaign<'_>,
    extent: Extent,
    marks: &[bool],
    tallies: &Tallies,
    buffer: &mut Buffer,
    sheet: &mut Sheet,
    out: &mut K,
)
    requires readable { IsReadable campaign.now }
    requires marks { length marks.now ≡ extent.size.slots }
    requires shown { extent.many ≡ length (marked_slots marks.now) }
    requires tallies { AreTallies extent.size tallies.now [] campaign.now.faults }
    requires room { longest_text campaign.now.faults + 200 ≤ buffer.old.room }
    ensures puts { Puts sheet.old.failed (K.output out.old) sheet.new.failed (K.output out.new)
        (chart_body extent.size campaign.now.own.test (marked_slots marks.now) campaign.now.faults) }
    ensures room { buffer.new.room ≡ buffer.old.room }
{
    put_bands(extent, sheet, out);
    let mut ahead = Ahead::new(campaign.faults());
    put_columns(extent, marks, &mut ahead, buffer, sheet, out);
    put_beside(extent, tallies, sheet, out);
    let own = campaign.own();
    let column = place_in(marks, test_slot(&own.test));
    put_flag(extent.size.nodes, column, &own.test, sheet, out);
}

// Writes the key and the table.
fn put_key_and_table<K: Sink>(top: u64, counts: &[u64; 252], sheet: &mut Sheet, out: &mut K)
    requires { top ≤ 2 ^ 31 }
    ensures { Puts sheet.old.failed (K.output out.old) sheet.new.failed (K.output out.new)
        (key_and_table top counts.now) }
{
    put_how_to_read(top, sheet, out);
    put_key(top, sheet, out);
    put_words_meant(top, sheet, out);
    put_legend(top, sheet, out);
    put_table(counts, top, sheet, out);
}

// Writes the list of the worst, the key and the table.
fn put_end<K: Sink>(
    extent: Extent,
    found: &Overview,
    worst: &Worst<'_>,
    buffer: &mut Buffer,
    sheet: &mut Sheet,
    out: &mut K,
)
    requires room { longest_text worst.now + 200 ≤ buffer.old.room }
    ensures { (faults : List FaultTold) → extent.listed ≡ many_listed extent.size faults
        → AreTallies extent.size found.now.tallies [] faults → found.now.survey.counts ≡ all_counts extent.size faults
        → worst.now ≡ ten_worst extent.size faults
        → Puts sheet.old.failed (K.output out.old) sheet.new.failed (K.output out.new)
        (chart_end extent.size extent.many faults) }
{
    let harmful = found.tallies.all.harmful;
    put_worst(
        extent.size,
        list_top(extent),
        harmful,
        worst,
        buffer,
        sheet,
        out,
    );
    put_key_and_table(key_top(extent), &found.survey.counts, sheet, out);
    sheet.put(b"</svg>\n", out);
}

// How much room the longest line with a text of the campaign takes.
fn room_for(campaign: &Campaign<'_>, longest: usize) -> Option<usize>
    ensures own { IfSome result (λ room. length campaign.now.own.text + length campaign.now.own.cost + 200 ≤ room) }
    ensures test { IfSome result (λ room. length campaign.now.own.test_text + 300 ≤ room) }
    ensures longest { IfSome result (λ room. longest + 200 ≤ room) }
{
    let own = campaign.own();
    let words = own.text.len().checked_add(own.cost.len())?;
    let all = words.checked_add(own.test_text.len())?;
    longest.max(all).checked_add(300)
}

// Writes the chart of the marked slots, with room for the longest line.
fn put_with_room<K: Sink>(
    alloc: Global,
    campaign: &Campaign<'_>,
    extent: Extent,
    marks: &[bool],
    sums: CountsByTest,
    found: &Overview,
    worst: &Worst<'_>,
    out: &mut K,
) -> Result<(), ChartFault>
    requires readable { IsReadable campaign.now }
    requires size { extent.size ≡ size_of_campaign campaign.now }
    requires marks { length marks.now ≡ extent.size.slots }
    requires shown { extent.many ≡ length (marked_slots marks.now) }
    requires some { 1 ≤ extent.many }
    requires listed { extent.listed ≡ many_listed extent.size campaign.now.faults }
    requires counts { found.now.survey.counts ≡ all_counts extent.size campaign.now.faults }
    requires longest { found.now.survey.longest ≡ longest_text campaign.now.faults }
    requires most { found.now.survey.most ≡ most_lost extent.size campaign.now.faults }
    requires tallies { AreTallies extent.size found.now.tallies [] campaign.now.faults }
    requires kept { sums.kept ≡ counts_sum (map (λ piece. piece.kept) campaign.now.pieces) }
    requires broken { sums.broken ≡ counts_sum (map (λ piece. piece.broken) campaign.now.pieces) }
    requires worst { worst.now ≡ ten_worst extent.size campaign.now.faults }
    ensures ok { OnOk result (WroteLines (K.output out.old) (K.output out.new)
        (chart_of extent.size campaign.now.own (marked_slots marks.now) campaign.now.faults
        (counts_sum (map (λ piece. piece.kept) campaign.now.pieces))
        (counts_sum (map (λ piece. piece.broken) campaign.now.pieces)))) }
    ensures failed { IfErr result (λ why. LeftOfChart why (marked_slots marks.now) (K.output out.old) (K.output out.new)
        (chart_of extent.size campaign.now.own (marked_slots marks.now) campaign.now.faults
        (counts_sum (map (λ piece. piece.kept) campaign.now.pieces))
        (counts_sum (map (λ piece. piece.broken) campaign.now.pieces)))) }
{
    let Some(room) = room_for(campaign, found.survey.longest) else {
        return Err(ChartFault::Memory);
    };
    let Ok(mut buffer) = Buffer::with_room(alloc, room) else {
        return Err(ChartFault::Memory);
    };
    let mut sheet = Sheet::new();
    put_head(
        campaign,
        extent,
        marks,
        sums,
        found,
        &mut buffer,
        &mut sheet,
        out,
    );
    put_body(
        campaign,
        extent,
        marks,
        &found.tallies,
        &mut buffer,
        &mut sheet,
        out,
    );
    put_end(extent, found, worst, &mut buffer, &mut sheet, out);
    match sheet.end() {
        Ok(()) => Ok(()),
        Err(_) => Err(ChartFault::Failed),
    }
}

// The nodes and slots of a campaign's runs.
fn size_of_campaign(campaign: &Campaign<'_>) -> Size
    ensures size { result ≡ size_of_campaign campaign.now }
    ensures nodes { (4 ≤ result.nodes) × (result.nodes ≤ 24) }
    ensures slots { result.slots ≤ 20000 }
{
    Size {
        nodes: campaign.nodes(),
        slots: campaign.slots(),
    }
}

// A mark for each slot of a run that is shown, and the sums of what the pieces count.
fn shown_marks(
    alloc: Global,
    campaign: &Campaign<'_>,
    size: Size,
    harm: Option<u32>,
    asked: Option<Span>,
) -> Result<(Vec<bool>, CountsByTest), Memory>
    requires readable { IsReadable campaign.now }
    requires size { size ≡ size_of_campaign campaign.now }
    requires nodes { (4 ≤ size.nodes) × (size.nodes ≤ 24) }
    requires slots { size.slots ≤ 20000 }
    requires harm { harm ≡ first_told_slot (does_harm size) campaign.now.faults }
    ensures length { IfOk result (λ r. length r.0.items ≡ size.slots) }
    ensures marks { IfOk result (λ r. marked_slots r.0.items ≡ slots_shown campaign.now asked) }
    ensures kept { IfOk result (λ r. r.1.kept ≡ counts_sum (map (λ piece. piece.kept) campaign.now.pieces)) }
    ensures broken { IfOk result (λ r. r.1.broken ≡ counts_sum (map (λ piece. piece.broken) campaign.now.pieces)) }
{
    match tried_marks(alloc, size.slots, campaign.pieces()) {
        Ok((mut marks, sums)) => {
            keep_shown(&mut marks, size.nodes, harm, asked);
            Ok((marks, sums))
        }
        Err(_) => Err(Memory),
    }
}

/// Writes the chart of a campaign: of the slots that were asked for, as far as faults of them are tried, or of those that
/// are chosen where none were asked for.
///
/// Each line is one piece. `NoSlot` comes exactly where no slot is to be shown, and `Memory` where memory was refused;
/// with both nothing was written. `Failed` is the sink's: some first lines were written, or none, and some first bytes of
/// the next one. The campaign is gone over a few times, that of a shown slot
/// twice. Memory is taken for a mark for each slot, the longest line and the ten worst faults.
///
/// Its faults have to stand by their slots, and their number and the counts of its pieces to fit 64 bits, as in each
/// campaign that `read_campaign` gives (`readable` of it).
pub fn put_chart<K: Sink>(
    alloc: Global,
    campaign: &Campaign<'_>,
    asked: Option<Span>,
    out: &mut K,
) -> Result<(), ChartFault>
    requires { IsReadable campaign.now }
    ensures ok { OnOk result (WroteLines (K.output out.old) (K.output out.new) (chart_lines campaign.now asked)) }
    ensures shown { OnOk result (¬ (slots_shown campaign.now asked ≡ [])) }
    ensures failed { result ≡ Err fault.Failed → ¬ (slots_shown campaign.now asked ≡ []) }
    ensures left { IfErr result (λ why. LeftOfChart why (slots_shown campaign.now asked) (K.output out.old)
        (K.output out.new) (chart_lines campaign.now asked)) }
{
    let size = size_of_campaign(campaign);
    let Ok(mut worst) = Worst::new(alloc) else {
        return Err(ChartFault::Memory);
    };
    let found = survey_of(size, campaign.faults(), &mut worst);
    let Ok((marks, sums)) = shown_marks(alloc, campaign, size, found.survey.harm, asked) else {
        return Err(ChartFault::Memory);
    };
    let many = count_marks(&marks);
    if many == 0 {
        return Err(ChartFault::NoSlot);
    }
    let listed = worst.len() as u8;
    let extent = Extent { size, many, listed };
    put_with_room(alloc, campaign, extent, &marks, sums, &found, &worst, out)
}
