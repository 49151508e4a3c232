//! A line on a fault.
ghost use Rattle.std.specs.Prelude.{◌≡◌, ◌+◌, ℕ, List as Items, OnOk};
ghost use Rattle.check_words.specs.Lines.{last_line};
ghost use Rattle.check_text.specs.Lines.{list_line, line_numbered, script_line, too_large_line};
ghost use Rattle.check_text.specs.Sides.{asked_answer};

use broken_rules::Answer;
use check_words::{Place, Text, put_last, put_place, put_said, wrong_fault};
use line_text::{back_line, keep_line};
use list_errors::Wrong;
use list_words::{Measures, put_wrong_fault};
use script_errors::{ScriptError, spot_text};
use std::alloc::Global;
use ttp_base::Memory;

/// The line on a fault of a list.
pub(crate) fn form_list_line(
    alloc: Global,
    name: &[u8],
    measures: Measures,
    stop: &[u8],
    place: Place,
    wrong: &Wrong,
    line: &mut Text,
) -> Result<(), Memory>
    ensures { OnOk result (line.new ≡ list_line name.now measures.rounds measures.modes stop.now place wrong.now) }
{
    line.clear();
    put_place(line, name, place)?;
    line.put("error: ")?;
    put_wrong_fault(line, wrong)?;
    line.put(": ")?;
    list_words::put_said(alloc, line, measures, stop, wrong)?;
    line.put("\n")
}

/// The line on a fault of a script, whose line is this one.
pub(crate) fn form_script_line(
    alloc: Global,
    name: &[u8],
    piece: &[u8],
    error: &ScriptError,
    line: &mut Text,
) -> Result<(), Memory>
    ensures { (lines : Items (Items ℕ)) → piece.now ≡ line_numbered lines error.now.line
        → OnOk result (line.new ≡ script_line name.now lines error.now) }
{
    line.clear();
    let place = Place {
        line: error.line as usize,
        column: error.at.start as usize + 1,
    };
    put_place(line, name, place)?;
    line.put("error: ")?;
    line.put(wrong_fault(error.wrong))?;
    line.put(": ")?;
    put_said(alloc, line, spot_text(piece, error.at), error.wrong)?;
    line.put("\n")
}

/// The line on a script that is too large.
pub(crate) fn form_too_large(name: &[u8], line: &mut Text) -> Result<(), Memory>
    ensures { OnOk result (line.new ≡ too_large_line name.now) }
{
    line.clear();
    put_place(line, name, Place { line: 1, column: 1 })?;
    line.put("error: ")?;
    line.put("too large")?;
    line.put(": ")?;
    line.put("wanted at most 1048576 bytes")?;
    line.put("\n")
}

// The last line, which counts these errors and warnings.
fn form_counts(
    errors: u64,
    warnings: u64,
    answer: &Option<Answer>,
    line: &mut Text,
) -> Result<(), Memory>
    ensures { OnOk result (line.new ≡ last_line errors warnings (asked_answer answer.now)) }
{
    line.clear();
    match answer {
        Some(Answer::Keeps { keep }) => put_last(line, errors, warnings, keep_line(keep).bytes()),
        Some(Answer::Returns { back }) => put_last(line, errors, warnings, back_line(back).bytes()),
        None => put_last(line, errors, warnings, b"keeps -\n"),
    }
}

/// The last line. More errors than there are numbers are refused as want of memory.
pub(crate) fn form_last(
    list: usize,
    script: usize,
    warnings: usize,
    answer: &Option<Answer>,
    line: &mut Text,
) -> Result<(), Memory>
    ensures { OnOk result (line.new ≡ last_line (list + script) warnings (asked_answer answer.now)) }
{
    match list.checked_add(script) {
        Some(errors) => form_counts(errors as u64, warnings as u64, answer, line),
        None => Err(Memory),
    }
}
