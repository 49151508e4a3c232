//! The slots that a chart shows, as marks: one for each slot of a run.
#![tactic(auto)]

ghost use Rattle.std.specs.Prelude.{◌≡◌, ℕ, ◌+◌, ◌-◌, ◌<◌, ◌≤◌, ◌&&◌, ◌||◌, false, get_or, length, filter, take, drop, min};
ghost use Rattle.std.specs.Prelude.{nat_le, nat_lt, ◌==◌, Bool};
ghost use Rattle.whole_campaign.specs.Due.{as_count};
ghost use Rattle.ttp_base.specs.NodeSet.{below};
ghost use Rattle.chart_text.specs.Columns.{is_of_piece, is_asked, place_in};
ghost use Rattle.chart_text.specs.Steps.{marked_slots, has_mark};

use picture_text::Span;
use whole_campaign::Piece;

/// Whether a slot is marked.
pub(crate) fn has_mark(marks: &[bool], slot: u32) -> bool
    ensures { result ≡ has_mark marks.now slot }
{
    match marks.get(slot as usize) {
        Some(mark) => *mark,
        None => false,
    }
}

/// Marks the slots of a piece, as far as there are any.
pub(crate) fn mark_piece(marks: &mut [bool], piece: &Piece)
    ensures { (t : ℕ) → t < length marks.old
        → has_mark marks.new t ≡ (has_mark marks.old t || is_of_piece t piece.now) }
{
    let end = marks.len().min(piece.last as usize + 1);
    for t in piece.first as usize..end {
        marks[t] = true;
    }
}

fn is_asked(asked: Span, slot: u32) -> bool
    ensures { result ≡ is_asked asked slot }
{
    asked.first <= slot && slot <= asked.last
}

// Whether the mark of a slot stays where these were asked for.
fn stays_asked(is_marked: bool, asked: Span, slot: u32) -> bool
    ensures { result ≡ (is_marked && is_asked asked slot) }
{
    is_marked && is_asked(asked, slot)
}

/// Takes away the marks of slots that were not asked for.
pub(crate) fn keep_asked(marks: &mut [bool], asked: Span)
    requires { length marks.old ≤ 20000 }
    ensures { marked_slots marks.new ≡ filter (is_asked asked) (marked_slots marks.old) }
{
    for t in 0..marks.len() {
        marks[t] = stays_asked(marks[t], asked, t as u32);
    }
}

// Whether the mark of this number stays, where so many do from number `first` on.
fn stays_of(is_marked: bool, first: u32, most: u32, number: u32) -> bool
    requires { (first ≤ 20000) × (most ≤ 20000) }
    ensures { result ≡ (is_marked && (nat_le first number && nat_lt number (first + most))) }
{
    is_marked && first <= number && number < first + most
}

// One more where this is so.
fn one_more(count: u32, is: bool) -> u32
    requires { count ≤ 20000 }
    ensures { result ≡ count + as_count is }
{
    if is { count + 1 } else { count }
}

/// Takes away all marks but so many, from number `first` of them on.
pub(crate) fn keep_from(marks: &mut [bool], first: u32, most: u32)
    requires few { length marks.old ≤ 20000 }
    requires low { (first ≤ 20000) × (most ≤ 20000) }
    ensures { marked_slots marks.new ≡ take most (drop first (marked_slots marks.old)) }
{
    let mut number = 0;
    for t in 0..marks.len() {
        let is_marked = marks[t];
        marks[t] = stays_of(is_marked, first, most, number);
        number = one_more(number, is_marked);
    }
}

/// How many slots before one are marked.
pub(crate) fn count_before(marks: &[bool], end: u32) -> u32
    requires few { end ≤ 20000 }
    ensures count { result ≡ length (filter (has_mark marks.now) (below end)) }
    ensures low { result ≤ 20000 }
{
    let mut count = 0;
    for t in 0..end {
        count = one_more(count, has_mark(marks, t));
    }
    count
}

/// How many slots are marked.
pub(crate) fn count_marks(marks: &[bool]) -> u32
    requires few { length marks.now ≤ 20000 }
    ensures count { result ≡ length (marked_slots marks.now) }
    ensures low { result ≤ 20000 }
{
    count_before(marks, marks.len() as u32)
}

// Whether a slot is marked and so many were before it.
fn is_it(is_marked: bool, passed: u32, number: u32) -> bool
    ensures { result ≡ (is_marked && passed == number) }
{
    is_marked && passed == number
}

/// The marked slot of this number, counted from 0.
pub(crate) fn marked_slot(marks: &[bool], number: u32) -> u32
    requires few { length marks.now ≤ 20000 }
    requires within { number < length (marked_slots marks.now) }
    ensures { result ≡ get_or (marked_slots marks.now) number 0 }
{
    let mut passed = 0;
    for t in 0..marks.len() as u32 {
        let is_marked = has_mark(marks, t);
        if is_it(is_marked, passed, number) {
            return t;
        }
        passed = one_more(passed, is_marked);
    }
    0
}

/// The number of a slot among those that are marked, if it is.
pub(crate) fn place_in(marks: &[bool], slot: u32) -> Option<u32>
    requires few { length marks.now ≤ 20000 }
    ensures { result ≡ place_in (marked_slots marks.now) slot }
{
    if has_mark(marks, slot) {
        Some(count_before(marks, slot))
    } else {
        None
    }
}
