//! The lines on rules that right files do not keep.
ghost use Rattle.std.specs.Prelude.{◌≡◌, ◌≤◌, [], Some, None, length, IfOk};
ghost use Rattle.ttp_world.specs.Medl.{IsValid};
ghost use Rattle.ttp_world.specs.Script.{IsValidScript};
ghost use Rattle.broken_rules.specs.Clocks.{narrow_window};
ghost use Rattle.broken_rules.specs.Rules.{broken_rules, first_broken, first_named};
ghost use Rattle.warning_words.specs.Warnings.{line_if, warning_lines, window_alone};
ghost use Rattle.check_text.specs.Check.{files_with, named_by};
ghost use Rattle.check_text.specs.Lines.{window_place};

use crate::list_side::key_places;
use crate::named::Named;
use broken_rules::{Answer, BrokenRules, broken_rules, narrow_window, says_yes};
use check_words::Text;
use hypothesis::has_arm;
use std::alloc::Global;
use ttp_base::{List, Memory};
use ttp_world::{Medl, Script};
use warning_words::{Files, said_lines, warning_lines, window_alone};

/// The lines on rules that are not kept, and the answer of the test, if it was asked.
#[derive(Drop)]
pub(crate) struct Rules {
    pub(crate) lines: List<Text>,
    pub(crate) answer: Option<Answer>,
}

/// No rule is asked.
pub(crate) fn no_rules(alloc: Global) -> Rules
    ensures lines { result.lines ≡ [] }
    ensures answer { result.answer ≡ None }
{
    Rules {
        lines: List::new(alloc),
        answer: None,
    }
}

// The line on the window of a list, where it is narrower.
fn window_lines(alloc: Global, file: Named<'_>, list: &Medl) -> Result<List<Text>, Memory>
    requires { IsValid list.now }
    ensures { IfOk result (λ lines. lines
        ≡ line_if (window_alone list.now file.entry.name.now (window_place file.entry.text.now)) (narrow_window list.now)) }
{
    match narrow_window(list) {
        Some(due) => {
            let keys = key_places(alloc, file.text)?;
            let line = window_alone(alloc, list, file.name, keys.window, &due)?;
            let mut lines = List::new(alloc);
            lines.push(line)?;
            Ok(lines)
        }
        None => Ok(List::new(alloc)),
    }
}

/// The rule that a right list alone may break.
pub(crate) fn rules_alone(alloc: Global, file: Named<'_>, list: &Medl) -> Result<Rules, Memory>
    requires { IsValid list.now }
    ensures lines { IfOk result (λ rules. rules.lines
        ≡ line_if (window_alone list.now file.entry.name.now (window_place file.entry.text.now)) (narrow_window list.now)) }
    ensures answer { IfOk result (λ rules. rules.answer ≡ None) }
{
    let lines = window_lines(alloc, file, list)?;
    Ok(Rules {
        lines,
        answer: None,
    })
}

// The lines on rules of which something is told.
fn told_lines(
    alloc: Global,
    file: Named<'_>,
    beside: Named<'_>,
    list: &Medl,
    script: &Script,
    broken: &BrokenRules,
) -> Result<List<Text>, Memory>
    requires valid { IsValid list.now }
    requires size { length beside.text.now ≤ 1048576 }
    ensures { IfOk result (λ lines. lines
        ≡ warning_lines (files_with (named_by file.entry) (named_by beside.entry) list.now script.now) broken.now) }
{
    let said = said_lines(alloc, beside.text)?;
    let keys = key_places(alloc, file.text)?;
    let files = Files {
        list,
        script,
        armed: has_arm(script),
        list_name: file.name,
        script_name: beside.name,
        window: keys.window,
        slot: keys.slots,
        events: said.events.as_slice(),
        others: said.others.as_slice(),
    };
    warning_lines(alloc, &files, broken)
}

// The lines on the broken rules of a right script, none where the test says yes.
fn broken_lines(
    alloc: Global,
    file: Named<'_>,
    beside: Named<'_>,
    list: &Medl,
    script: &Script,
    broken: &BrokenRules,
) -> Result<List<Text>, Memory>
    requires valid { IsValid list.now }
    requires size { length beside.text.now ≤ 1048576 }
    requires named { first_broken broken.now ≡ first_named broken.now.answer }
    ensures { IfOk result (λ lines. lines
        ≡ warning_lines (files_with (named_by file.entry) (named_by beside.entry) list.now script.now) broken.now) }
{
    if says_yes(broken.answer) {
        return Ok(List::new(alloc));
    }
    told_lines(alloc, file, beside, list, script, broken)
}

/// The rules that a right list and a right script break.
pub(crate) fn rules_of(
    alloc: Global,
    file: Named<'_>,
    beside: Named<'_>,
    list: &Medl,
    script: &Script,
) -> Result<Rules, Memory>
    requires valid { IsValid list.now }
    requires script { IsValidScript list.now script.now }
    requires size { length beside.text.now ≤ 1048576 }
    ensures lines { IfOk result (λ rules. rules.lines
        ≡ warning_lines (files_with (named_by file.entry) (named_by beside.entry) list.now script.now)
        (broken_rules list.now script.now)) }
    ensures answer { IfOk result (λ rules. rules.answer ≡ Some (broken_rules list.now script.now).answer) }
{
    let broken = broken_rules(list, script);
    let lines = broken_lines(alloc, file, beside, list, script, &broken)?;
    Ok(Rules {
        lines,
        answer: Some(broken.answer),
    })
}
