//! The lines of a script that state something.
ghost use Rattle.std.specs.Prelude.{◌≡◌, ◌<◌, ◌≤◌, ◌++◌, length, filter, position, option_to_list, IfOk, OnOk};
ghost use Rattle.warning_words.specs.SaidLines.{number_behind, said_with, said_of, is_slots_form, is_on_form, is_drift_form, is_slot_form, says_event, is_node_of};
ghost use Rattle.warning_words.specs.SaidLines.{says_other, event_lines, stating_lines, is_wanted, no_line, line_at};
ghost use Rattle.warning_words.specs.SaidLines.{first_wanted, cause_line};

use script_errors::{Form, Spot, cut, form_named, spot_text};
use script_text::{decimal_value, next_line};
use std::alloc::Global;
use ttp_base::{List, Memory, NodeSet};

/// A line of a script whose first word names a form.
#[derive(Clone, Copy)]
pub struct SaidLine {
    /// The line and the column of its first word, counted from 1.
    pub line: u32,
    pub column: u32,
    pub form: Form,
    /// The number that its second word is, as of a node.
    pub number: u32,
}

/// The lines of a script whose first word names a form: those that say what happens in slots, and the others.
#[derive(Drop)]
pub struct SaidLines {
    pub events: List<SaidLine>,
    pub others: List<SaidLine>,
}

/// A line that is looked for.
#[derive(Clone, Copy)]
pub enum Wanted {
    /// The slots of the run.
    Slots,
    /// That this node is on, or one of these.
    On { node: u32 },
    OnAmong { nodes: NodeSet },
    /// How the clock of one of these nodes drifts.
    DriftAmong { nodes: NodeSet },
}

// The number that the second word of a line is.
fn number_behind(line: &[u8], words: &[Spot]) -> u32
    ensures { result ≡ number_behind line.now words.now }
{
    match words {
        [word, ..] => match decimal_value(spot_text(line, *word)) {
            Some(number) => number,
            None => 0,
        },
        [] => 0,
    }
}

// Whether a form is that of the line on slots, on when a node is on, or on how its clock drifts.
fn is_slots(form: Form) -> bool
    ensures { result ≡ is_slots_form form }
{
    match form {
        Form::Slots => true,
        _ => false,
    }
}

fn is_on(form: Form) -> bool
    ensures { result ≡ is_on_form form }
{
    match form {
        Form::On => true,
        _ => false,
    }
}

fn is_drift(form: Form) -> bool
    ensures { result ≡ is_drift_form form }
{
    match form {
        Form::Drift => true,
        _ => false,
    }
}

// Whether a line of this form says what happens in slots.
fn is_event(form: Form) -> bool
    ensures { result ≡ is_slot_form form }
{
    !(is_slots(form) || is_on(form) || is_drift(form))
}

// A line of this number with this first word, which names a form, and those behind it.
fn said_with(number: u32, line: &[u8], first: Spot, form: Form, words: &[Spot]) -> SaidLine
    requires { first.start < 1048576 }
    ensures { result ≡ said_with number line.now first words.now form }
{
    SaidLine {
        line: number,
        column: first.start + 1,
        form,
        number: number_behind(line, words),
    }
}

// A line of this number with these words, if the first names a form.
fn said_of(number: u32, line: &[u8], words: &[Spot]) -> Option<SaidLine>
    requires { length line.now ≤ 1048576 }
    ensures { option_to_list result ≡ said_of number line.now words.now }
{
    match words {
        [] => None,
        [first, rest @ ..] => match form_named(spot_text(line, *first)) {
            Some(form) => Some(said_with(number, line, *first, form, rest)),
            None => None,
        },
    }
}

// Adds a line to those of its kind, if there is one.
fn add_line(said: Option<SaidLine>, lines: &mut SaidLines) -> Result<(), Memory>
    ensures events { OnOk result (lines.new.events ≡ lines.old.events ++ filter says_event (option_to_list said)) }
    ensures others { OnOk result (lines.new.others ≡ lines.old.others ++ filter says_other (option_to_list said)) }
{
    match said {
        Some(said) => {
            if is_event(said.form) {
                lines.events.push(said)
            } else {
                lines.others.push(said)
            }
        }
        None => Ok(()),
    }
}

/// The lines of a text whose first word names a form, in their order, 16 bytes for each.
///
/// # Errors
///
/// Where memory was refused.
#[tactic(auto, unfolding(crate::specs::SaidLines::event_lines, crate::specs::SaidLines::stating_lines))]
pub fn said_lines(alloc: Global, text: &[u8]) -> Result<SaidLines, Memory>
    requires { length text.now ≤ 1048576 }
    ensures events { IfOk result (λ lines. lines.events ≡ event_lines text.now) }
    ensures others { IfOk result (λ lines. lines.others ≡ stating_lines text.now) }
{
    let mut lines = SaidLines {
        events: List::new(alloc),
        others: List::new(alloc),
    };
    let mut words = Vec::new(alloc);
    let mut rest = text;
    let mut number: u32 = 1;
    while let Some(line) = next_line(rest) {
        cut(line.piece, &mut words)?;
        add_line(said_of(number, line.piece, &words), &mut lines)?;
        rest = line.rest;
        number += 1;
    }
    Ok(lines)
}

// Whether a number is that of a node of a set.
fn has_number(nodes: NodeSet, number: u32) -> bool
    ensures { result ≡ is_node_of nodes number }
{
    number < 24 && nodes.has(number as u8)
}

// Whether a line is one that is wanted.
fn answers(wanted: Wanted, said: &SaidLine) -> bool
    ensures { result ≡ is_wanted wanted said.now }
{
    match wanted {
        Wanted::Slots => is_slots(said.form),
        Wanted::On { node } => is_on(said.form) && said.number == node,
        Wanted::OnAmong { nodes } => is_on(said.form) && has_number(nodes, said.number),
        Wanted::DriftAmong { nodes } => is_drift(said.form) && has_number(nodes, said.number),
    }
}

// The line where there is none.
fn no_line() -> SaidLine
    ensures { result ≡ no_line }
{
    SaidLine {
        line: 1,
        column: 1,
        form: Form::Slots,
        number: 0,
    }
}

// The line at a place among some.
fn line_at(lines: &[SaidLine], place: Option<usize>) -> SaidLine
    ensures { result ≡ line_at lines.now place }
{
    match place {
        Some(place) => match lines.get(place) {
            Some(said) => *said,
            None => no_line(),
        },
        None => no_line(),
    }
}

// Where the first line is that is wanted.
fn place_of_wanted(wanted: Wanted, others: &[SaidLine]) -> Option<usize>
    ensures { result ≡ position (is_wanted wanted) others.now }
{
    others.iter().position(|said| answers(wanted, said))
}

/// The first line that is wanted, of those that say nothing of slots.
pub(crate) fn first_line(wanted: Wanted, others: &[SaidLine]) -> SaidLine
    ensures { result ≡ first_wanted wanted others.now }
{
    line_at(others, place_of_wanted(wanted, others))
}

/// The line of an event, or that of the slots of the run.
pub(crate) fn cause_line(cause: Option<usize>, events: &[SaidLine], others: &[SaidLine]) -> SaidLine
    ensures { result ≡ cause_line cause events.now others.now }
{
    match cause {
        Some(_) => line_at(events, cause),
        None => first_line(Wanted::Slots, others),
    }
}
