//! The slots that a picture is to show, found in the trace.
ghost use Rattle.std.specs.Prelude.{◌≡◌, ◌+◌, ◌*◌, ◌<◌, ◌≤◌, ◌^◌, length, drop, position, None, Some, IfSome};
ghost use Rattle.std.specs.Prelude.{IsTrue};
ghost use Rattle.picture_text.specs.Window.{is_sought, is_strange, first_or_0, strange_past, columns};
ghost use Rattle.picture_text.specs.Window.{rounds_left_out, span_from, chosen_span, span_shown, is_quiet_before};

use crate::grid::columns;
use crate::window::{Sought, Span, is_sought};
use whole_trace::{Slots, Whole};

/// The slots that a picture shows, and whether only quiet slots are before them.
#[derive(Clone, Copy)]
pub(crate) struct Selection {
    pub(crate) span: Span,
    pub(crate) is_quiet_before: bool,
    /// No slot of the trace is strange, where that came out when they were chosen.
    pub(crate) is_calm: bool,
}

// The first slot that is sought, or else 0, and whether there is none.
#[derive(Clone, Copy)]
struct FirstSought {
    slot: u32,
    is_none: bool,
}

// The first of these slots that is sought, counted from 0.
fn first_sought(slots: Slots<'_>, sought: Sought) -> Option<u32>
    requires { length slots < 2 ^ 32 }
    ensures { result ≡ position (is_sought sought) slots.entry }
{
    let mut left = slots;
    let mut passed = 0;
    while let Some(slot) = left.next_slot() {
        if is_sought(sought, &slot) {
            return Some(passed);
        }
        passed += 1;
    }
    None
}

/// The slots behind so many.
pub(crate) fn skipped<'a>(slots: Slots<'a>, count: u32) -> Slots<'a>
    requires { count ≤ length slots }
    ensures { result ≡ drop count slots.entry }
{
    let mut left = slots;
    for _passed in 0..count {
        let Some(_hosts) = left.next_hosts() else {
            unreachable!();
        };
    }
    left
}

fn first_or_0(trace: &Whole<'_>, sought: Sought) -> FirstSought
    requires { (1 ≤ length trace.now.slots) × (length trace.now.slots < 2 ^ 32) }
    ensures slot { result.slot ≡ first_or_0 sought trace.now.slots }
    ensures within { result.slot < length trace.now.slots }
    ensures none { IsTrue result.is_none → position (is_sought sought) trace.now.slots ≡ None }
{
    match first_sought(trace.slots(), sought) {
        Some(slot) => FirstSought {
            slot,
            is_none: false,
        },
        None => FirstSought {
            slot: 0,
            is_none: true,
        },
    }
}

// The first strange slot past a slot, where `from` are the slots from another one on.
fn strange_behind(trace: &Whole<'_>, last: u32, from: Slots<'_>, first: u32) -> Option<u32>
    requires last { (first ≤ last) × (last < length trace.now.slots) }
    requires few { length trace.now.slots < 2 ^ 32 }
    requires from { from ≡ drop first trace.now.slots }
    ensures { result ≡ strange_past last trace.now.slots }
{
    let after = skipped(from, last + 1 - first);
    match first_sought(after, Sought::Strange) {
        Some(passed) => Some(last + 1 + passed),
        None => None,
    }
}

/// The first strange slot past the slots that are shown, of which the first ones of `from` are.
pub(crate) fn strange_past(trace: &Whole<'_>, shown: Selection, from: Slots<'_>) -> Option<u32>
    requires last { (shown.span.first ≤ shown.span.last) × (shown.span.last < length trace.now.slots) }
    requires few { length trace.now.slots < 2 ^ 32 }
    requires from { from ≡ drop shown.span.first trace.now.slots }
    requires calm { IsTrue shown.is_calm → position is_strange trace.now.slots ≡ None }
    ensures { result ≡ strange_past shown.span.last trace.now.slots }
{
    if shown.is_calm {
        None
    } else {
        strange_behind(trace, shown.span.last, from, shown.span.first)
    }
}

// Whether only quiet slots are before one; where it is the first, nothing is looked at.
fn is_quiet_before(trace: &Whole<'_>, first: u32) -> bool
    requires { (1 ≤ length trace.now.slots) × (length trace.now.slots < 2 ^ 32) }
    ensures { result ≡ is_quiet_before first trace.now.slots }
{
    if first == 0 {
        return true;
    }
    first <= first_or_0(trace, Sought::Busy).slot
}

// How many whole rounds behind the quiet slots of a long trace are left out.
fn rounds_left_out(nodes: u8, slots: u32, quiet: u32, strange: u32) -> u32
    requires nodes { (1 ≤ nodes) × (nodes ≤ 24) }
    requires long { (quiet + 4 * columns nodes < slots) × (slots ≤ 2 ^ 30) × (strange ≤ 2 ^ 30) }
    ensures { result ≡ rounds_left_out nodes slots quiet strange }
{
    let many = 4 * columns(nodes);
    let nodes = u32::from(nodes);
    let to_trouble = strange.saturating_sub(quiet + 2 * nodes) / nodes;
    let to_end = (slots - (quiet + many) + nodes - 1) / nodes;
    to_trouble.min(to_end)
}

// At most four bands of slots from one on.
fn span_from(nodes: u8, slots: u32, first: u32) -> Span
    requires nodes { (1 ≤ nodes) × (nodes ≤ 24) }
    requires first { (first < slots) × (slots ≤ 2 ^ 30) }
    ensures value { result ≡ span_from nodes slots first }
    ensures within { (result.first ≤ result.last) × (result.last < slots) }
{
    Span {
        first,
        last: (first + 4 * columns(nodes)).min(slots) - 1,
    }
}

fn chosen_span(trace: &Whole<'_>) -> Selection
    ensures value { result.span ≡ chosen_span trace.now.head.nodes trace.now.slots }
    ensures within { (result.span.first ≤ result.span.last) × (result.span.last < length trace.now.slots) }
    ensures quiet { result.is_quiet_before ≡ is_quiet_before result.span.first trace.now.slots }
    ensures calm { IsTrue result.is_calm → position is_strange trace.now.slots ≡ None }
{
    let head = trace.head();
    let quiet = first_or_0(trace, Sought::Busy).slot;
    if head.slots <= quiet + 4 * columns(head.nodes) {
        return Selection {
            span: span_from(head.nodes, head.slots, quiet),
            is_quiet_before: true,
            is_calm: false,
        };
    }
    let strange = first_or_0(trace, Sought::Strange);
    let rounds = rounds_left_out(head.nodes, head.slots, quiet, strange.slot);
    let first = quiet + u32::from(head.nodes) * rounds;
    Selection {
        span: span_from(head.nodes, head.slots, first),
        is_quiet_before: first <= quiet,
        is_calm: strange.is_none,
    }
}

// The slots that were asked for, as far as there are any.
fn asked_span(trace: &Whole<'_>, asked: Span) -> Selection
    requires { (asked.first ≤ asked.last) × (asked.first < length trace.now.slots) }
    ensures value { result.span ≡ span_shown trace.now.head.nodes trace.now.slots (Some asked) }
    ensures within { (result.span.first ≤ result.span.last) × (result.span.last < length trace.now.slots) }
    ensures quiet { result.is_quiet_before ≡ is_quiet_before result.span.first trace.now.slots }
    ensures calm { IsTrue result.is_calm → position is_strange trace.now.slots ≡ None }
{
    Selection {
        span: Span {
            first: asked.first,
            last: asked.last.min(trace.head().slots - 1),
        },
        is_quiet_before: is_quiet_before(trace, asked.first),
        is_calm: false,
    }
}

/// The slots that were asked for, as far as there are any, or else those that are chosen.
pub(crate) fn span_shown(trace: &Whole<'_>, asked: Option<Span>) -> Selection
    requires { IfSome asked (λ span. (span.first ≤ span.last) × (span.first < length trace.now.slots)) }
    ensures value { result.span ≡ span_shown trace.now.head.nodes trace.now.slots asked }
    ensures within { (result.span.first ≤ result.span.last) × (result.span.last < length trace.now.slots) }
    ensures quiet { result.is_quiet_before ≡ is_quiet_before result.span.first trace.now.slots }
    ensures calm { IsTrue result.is_calm → position is_strange trace.now.slots ≡ None }
{
    match asked {
        Some(asked) => asked_span(trace, asked),
        None => chosen_span(trace),
    }
}
