//! What `check` writes, line by line.
ghost use Rattle.std.specs.Prelude.{◌≡◌, ◌<◌, ◌∷◌, [], ◌+◌, ℕ, List as Items, length, map, get_or, Some, option_map, OnOk, IfOk, IfErr};
ghost use Rattle.ttp_base.specs.Outside.{WroteLines};
ghost use Rattle.ttp_base.specs.Text.{Lines};
ghost use Rattle.script_text.specs.Lines.{lines_of_file};
ghost use Rattle.fault_runs.specs.Ends.{LeftFewerBy};
ghost use Rattle.list_errors.specs.declared.error.Wrong.TheVariants as wrongs;
ghost use Rattle.check_words.specs.Lines.{last_line};
ghost use Rattle.check_text.specs.At.{IsLineAt};
ghost use Rattle.check_text.specs.Check.{check_found, check_lines, check_status, lines_with_last, named_by, status_by_list};
ghost use Rattle.check_text.specs.Found.{IsAllFound, side_lines};
ghost use Rattle.check_text.specs.Lines.{list_line, nth_place, line_numbered, script_line};
ghost use Rattle.check_text.specs.Page.{PutsOn};
ghost use Rattle.check_text.specs.Sides.{list_side_lines, script_side_lines, asked_answer};

use crate::found::{Found, find};
use crate::line_at::{LineAt, before_lines, line_from};
use crate::lines::{form_last, form_list_line, form_script_line, form_too_large};
use crate::list_side::{ListSide, nth_place};
use crate::named::Named;
use crate::page::Page;
use crate::rules::Rules;
use crate::script_side::ScriptSide;
use check_words::Text;
use fault_runs::CampaignFault;
use script_errors::ScriptError;
use std::alloc::Global;
use ttp_base::{Memory, Sink};

// The line on the fault of this number of a list.
fn form_nth(
    alloc: Global,
    name: &[u8],
    side: &ListSide,
    i: usize,
    line: &mut Text,
) -> Result<(), Memory>
    requires { i < length side.now.wrongs }
    ensures { OnOk result (line.new ≡ list_line name.now side.now.measures.rounds side.now.measures.modes side.now.stop
        (nth_place side.now.places i) (get_or side.now.wrongs i wrongs.NotToml)) }
{
    let place = nth_place(side.places.as_slice(), i);
    let wrong = &side.wrongs.as_slice()[i];
    form_list_line(
        alloc,
        name,
        side.measures,
        side.stop.bytes(),
        place,
        wrong,
        line,
    )
}

// Writes it.
fn put_list_line<K: Sink>(
    alloc: Global,
    name: &[u8],
    side: &ListSide,
    i: usize,
    page: &mut Page,
    out: &mut K,
)
    requires { i < length side.now.wrongs }
    ensures { PutsOn page.old.ended (K.output out.old) page.new.ended (K.output out.new)
        (list_line name.now side.now.measures.rounds side.now.measures.modes side.now.stop (nth_place side.now.places i)
        (get_or side.now.wrongs i wrongs.NotToml) ∷ []) }
{
    let formed = form_nth(alloc, name, side, i, &mut page.line);
    page.write(formed, out);
}

// The lines on the faults of a list.
fn put_list_lines<K: Sink>(
    alloc: Global,
    name: &[u8],
    side: &ListSide,
    page: &mut Page,
    out: &mut K,
)
    ensures { PutsOn page.old.ended (K.output out.old) page.new.ended (K.output out.new) (list_side_lines name.now side.now) }
{
    for i in 0..side.wrongs.len() {
        put_list_line(alloc, name, side, i, page, out);
    }
}

// The line on a fault of a script, behind the line of another.
fn put_script_line<'a, K: Sink>(
    alloc: Global,
    file: Named<'a>,
    at: LineAt<'a>,
    error: &ScriptError,
    page: &mut Page,
    out: &mut K,
) -> LineAt<'a>
    requires { IsLineAt file.text.now at }
    ensures at { IsLineAt file.entry.text.now result }
    ensures line { PutsOn page.old.ended (K.output out.old) page.new.ended (K.output out.new)
        (script_line file.entry.name.now (lines_of_file file.entry.text.now) error.now ∷ []) }
{
    let at = line_from(file.text, at, error.line);
    let formed = form_script_line(alloc, file.name, at.piece, error, &mut page.line);
    page.write(formed, out);
    at
}

// The lines on these faults of a script.
fn put_script_errors<K: Sink>(
    alloc: Global,
    file: Named<'_>,
    errors: &[ScriptError],
    page: &mut Page,
    out: &mut K,
)
    ensures { PutsOn page.old.ended (K.output out.old) page.new.ended (K.output out.new)
        (map (script_line file.entry.name.now (lines_of_file file.entry.text.now)) errors.now) }
{
    let mut at = before_lines(file.text);
    for error in errors {
        at = put_script_line(alloc, file, at, error, page, out);
    }
}

// The lines on what is wrong with a script.
fn put_script_side<K: Sink>(
    alloc: Global,
    file: Named<'_>,
    side: &ScriptSide,
    page: &mut Page,
    out: &mut K,
)
    ensures { PutsOn page.old.ended (K.output out.old) page.new.ended (K.output out.new)
        (script_side_lines file.entry.name.now file.entry.text.now side.now) }
{
    match side {
        ScriptSide::TooLarge => {
            let formed = form_too_large(file.name, &mut page.line);
            page.write(formed, out);
        }
        ScriptSide::Errors { errors } => {
            put_script_errors(alloc, file, errors.as_slice(), page, out);
        }
    }
}

// Writes the lines on the script, where one is looked at.
fn put_script_lines<K: Sink>(
    alloc: Global,
    script: Option<Named<'_>>,
    side: &Option<ScriptSide>,
    page: &mut Page,
    out: &mut K,
)
    ensures { PutsOn page.old.ended (K.output out.old) page.new.ended (K.output out.new)
        (side_lines (option_map named_by script.entry) side.now) }
{
    if let (Some(file), Some(side)) = (script, side) {
        put_script_side(alloc, file, side, page, out);
    }
}

// Lines that were formed before.
fn put_texts<K: Sink>(lines: &[Text], page: &mut Page, out: &mut K)
    ensures { PutsOn page.old.ended (K.output out.old) page.new.ended (K.output out.new) lines.now }
{
    for line in lines {
        page.put(line.bytes(), out);
    }
}

// How many lines a script's faults have, where one is looked at.
fn script_count(script: Option<Named<'_>>, side: &Option<ScriptSide>) -> usize
    ensures { result ≡ length (side_lines (option_map named_by script.entry) side.now) }
{
    match (script, side) {
        (Some(_), Some(side)) => side.count(),
        _ => 0,
    }
}

// The last line.
fn put_last_line<K: Sink>(list: usize, script: usize, rules: &Rules, page: &mut Page, out: &mut K)
    ensures { PutsOn page.old.ended (K.output out.old) page.new.ended (K.output out.new)
        (last_line (list + script) (length rules.now.lines) (asked_answer rules.now.answer) ∷ []) }
{
    let formed = form_last(
        list,
        script,
        rules.lines.len(),
        &rules.answer,
        &mut page.line,
    );
    page.write(formed, out);
}

// All lines.
fn put_found<K: Sink>(
    alloc: Global,
    list: Named<'_>,
    script: Option<Named<'_>>,
    found: &Found,
    page: &mut Page,
    out: &mut K,
)
    requires { IsAllFound (named_by list) (option_map named_by script) found.now }
    ensures { PutsOn page.old.ended (K.output out.old) page.new.ended (K.output out.new)
        (lines_with_last (check_found (named_by list.entry) (option_map named_by script.entry))) }
{
    let side = &found.beside.script;
    put_list_lines(alloc, list.name, &found.list, page, out);
    put_script_lines(alloc, script, side, page, out);
    put_texts(found.beside.rules.lines.as_slice(), page, out);
    let list_count = found.list.wrongs.len();
    let script_count = script_count(script, side);
    put_last_line(list_count, script_count, &found.beside.rules, page, out);
}

// The status by how many faults and broken rules there are.
fn status_of(list: usize, script: usize, warnings: usize) -> u8
    ensures { (l s w : Lines) → length l ≡ list → length s ≡ script → length w ≡ warnings
        → result ≡ status_by_list l s w }
{
    if list != 0 {
        3
    } else if script != 0 {
        4
    } else if warnings != 0 {
        1
    } else {
        0
    }
}

/// Writes what is wrong with a list, and with a script beside it, each line as one piece, and answers the status.
///
/// Both texts are gone over a few times. Where both are right it costs one `keeps`, or `returns` where a node is armed, and
/// where a rule is not kept a walk over the slots more for each of those on faults.
///
/// # Errors
///
/// `Failed` where the sink's count of faults rose: then the text is cut short. `Memory` where memory was refused: then some of
/// its first lines were written, or none, and never all.
pub fn put_check<K: Sink>(
    alloc: Global,
    list: Named<'_>,
    script: Option<Named<'_>>,
    out: &mut K,
) -> Result<u8, CampaignFault>
    ensures status { IfOk result (λ status. status ≡ check_status (named_by list.entry) (option_map named_by script.entry)) }
    ensures wrote { IfOk result (λ status. WroteLines (K.output out.old) (K.output out.new)
        (check_lines (named_by list.entry) (option_map named_by script.entry))) }
    ensures left { IfErr result (λ why. LeftFewerBy why (K.output out.old) (K.output out.new)
        (check_lines (named_by list.entry) (option_map named_by script.entry))) }
{
    let Ok(found) = find(alloc, list, script) else {
        return Err(CampaignFault::Memory);
    };
    let mut page = Page::new(alloc);
    put_found(alloc, list, script, &found, &mut page, out);
    match page.end() {
        Ok(()) => Ok(status_of(
            found.list.wrongs.len(),
            script_count(script, &found.beside.script),
            found.beside.rules.lines.len(),
        )),
        Err(why) => Err(why),
    }
}
