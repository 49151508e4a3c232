//! The lines of the script that a story names.
ghost use Rattle.std.specs.Prelude.{◌≡◌, ◌++◌, ◌&&◌, ◌∷◌, [], ◌<◌, length, map, Some, None, Option, Bool, IfOk, OnOk};
ghost use Rattle.ttp_world.specs.Medl.{IsValid};
ghost use Rattle.ttp_world.specs.Script.{IsValidScript, on_slot, drift_of};
ghost use Rattle.ttp_world.specs.Trace.{number_or_dash};
ghost use Rattle.causes.specs.WhyText.{line_words, needed_word, script_line_line};

use causes::{LineNumbers, ScriptLine};
use reduced_runs::is_needed;
use std::alloc::Global;
use ttp_base::{GrowingText, List, Memory};
use ttp_world::{Entry, Medl, Script};
use why_story::states_fault;
use why_words::{number_of, put_event};

// The slot in which a node is switched on.
fn on_slot(script: &Script, node: u8) -> Option<u32>
    ensures { result ≡ on_slot script.now node }
{
    match script.on.as_slice().get(usize::from(node)) {
        Some(slot) => *slot,
        None => None,
    }
}

fn drift_of(script: &Script, node: u8) -> i64
    ensures { result ≡ drift_of script.now node }
{
    match script.drift.as_slice().get(usize::from(node)) {
        Some(drift) => *drift,
        None => 0,
    }
}

fn put_or_dash(text: &mut GrowingText, number: Option<u32>) -> Result<(), Memory>
    ensures { OnOk result (text.new ≡ text.old ++ number_or_dash number) }
{
    match number {
        Some(number) => text.put_number(u64::from(number)),
        None => text.put("-"),
    }
}

// Adds a line as a script may have it.
fn put_line_words(text: &mut GrowingText, script: &Script, line: ScriptLine) -> Result<(), Memory>
    ensures { OnOk result (text.new ≡ text.old ++ line_words script.now line) }
{
    match line {
        ScriptLine::Event(place) => match script.events.as_slice().get(place) {
            Some(event) => put_event(text, event),
            None => Ok(()),
        },
        ScriptLine::On(node) => {
            text.put("on ")?;
            text.put_number(u64::from(node))?;
            text.put(" ")?;
            put_or_dash(text, on_slot(script, node))
        }
        ScriptLine::Drift(node) => {
            text.put("drift ")?;
            text.put_number(u64::from(node))?;
            text.put(" ")?;
            text.put_signed(drift_of(script, node))
        }
    }
}

// The word for whether a line is needed.
fn needed_word(
    alloc: Global,
    list: &Medl,
    script: &Script,
    lines: &[ScriptLine],
    slot: u32,
    node: u8,
    entry: &Entry,
    suffices: bool,
    line: &ScriptLine,
) -> Result<&'static str, Memory>
    requires valid { IsValid list.now }
    requires script { IsValidScript list.now script.now }
    requires slot { slot < script.now.slots }
    requires node { node < length list.now.slots }
    ensures { IfOk result (λ word. word.now
        ≡ needed_word list.now script.now lines.now slot node entry.now suffices line.now) }
{
    if !suffices || !states_fault(script, line) {
        return Ok("-");
    }
    if is_needed(alloc, list, script, lines, line, slot, node, entry)? {
        return Ok("yes");
    }
    Ok("no")
}

// The line on a line of the script.
fn named_line(
    alloc: Global,
    script: &Script,
    numbers: &LineNumbers,
    line: ScriptLine,
    needed: &str,
) -> Result<GrowingText, Memory>
    ensures { IfOk result (λ text. text ≡ script_line_line script.now numbers.now line needed.now) }
{
    let mut text = GrowingText::new(alloc);
    text.put("line ")?;
    text.put_number(u64::from(number_of(numbers, line)))?;
    text.put(" needed ")?;
    text.put(needed)?;
    text.put(" ")?;
    put_line_words(&mut text, script, line)?;
    text.put("\n")?;
    Ok(text)
}

/// Adds a line for each of some lines of the script.
///
/// # Errors
///
/// Where memory was refused; some of them may have been added.
pub(crate) fn put_named(
    alloc: Global,
    list: &Medl,
    script: &Script,
    numbers: &LineNumbers,
    named: &[ScriptLine],
    slot: u32,
    node: u8,
    entry: &Entry,
    suffices: bool,
    lines: &mut List<GrowingText>,
) -> Result<(), Memory>
    requires valid { IsValid list.now }
    requires script { IsValidScript list.now script.now }
    requires slot { slot < script.now.slots }
    requires node { node < length list.now.slots }
    ensures { OnOk result (lines.new ≡ lines.old ++ map (λ l. script_line_line script.now numbers.now l
        (needed_word list.now script.now named.now slot node entry.now suffices l)) named.now) }
{
    for line in named {
        let needed = needed_word(
            alloc, list, script, named, slot, node, entry, suffices, line,
        )?;
        lines.push(named_line(alloc, script, numbers, *line, needed)?)?;
    }
    Ok(())
}
