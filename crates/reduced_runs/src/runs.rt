//! Entries of runs of scripts with fewer faults.
ghost use Rattle.std.specs.Prelude.{◌≡◌, ◌+◌, ◌<◌, [], ◌∷◌, ◌++◌, length, IfOk, OnOk};
ghost use Rattle.std.specs.List.{filter_map};
ghost use Rattle.ttp_world.specs.Medl.{IsValid};
ghost use Rattle.ttp_world.specs.Script.{IsValidScript};
ghost use Rattle.run_costs.specs.Standing.{IsRunAfter};
ghost use Rattle.causes.specs.Reduced.{entry_in_run, is_same_word, is_same_line, place_of_line, places_of_lines};
ghost use Rattle.causes.specs.Reduced.{entry_alone, without_line, is_needed};

use crate::laws::fewer_is_valid;
use crate::script::with_faults_at;
use crate::words::entry_word;
use causes::ScriptLine;
use run_costs::Run;
use std::alloc::Global;
use ttp_base::{List, Memory};
use ttp_world::{Entry, Medl, Script};

// The entry of a node in the newest slot of a run.
fn entry_shown(list: &Medl, script: &Script, slot: u32, run: &Run, node: u8) -> Entry
    requires valid { IsValid list.now }
    requires node { node < length list.now.slots }
    requires run { IsRunAfter run.now list.now script.now (slot + 1) }
    ensures { result ≡ entry_in_run list.now script.now slot node }
{
    run.states(list)[usize::from(node)].entry
}

/// The entry of a node in a slot of a script's run.
///
/// # Errors
///
/// Where memory was refused.
pub fn entry_in_run(
    alloc: Global,
    list: &Medl,
    script: &Script,
    slot: u32,
    node: u8,
) -> Result<Entry, Memory>
    requires valid { IsValid list.now }
    requires script { IsValidScript list.now script.now }
    requires slot { slot < script.now.slots }
    requires node { node < length list.now.slots }
    ensures { IfOk result (λ entry. entry ≡ entry_in_run list.now script.now slot node) }
{
    let mut run = Run::new(alloc, list)?;
    for at in 0..slot + 1 {
        run.step(list, script, at);
    }
    Ok(entry_shown(list, script, slot, &run, node))
}

// The place of a line that states an event.
fn place_of(line: &ScriptLine) -> Option<usize>
    ensures { result ≡ place_of_line line.now }
{
    match line {
        ScriptLine::Event(place) => Some(*place),
        ScriptLine::On(_) | ScriptLine::Drift(_) => None,
    }
}

// Adds the place of a line, if it states an event.
fn add_place(places: &mut List<usize>, line: &ScriptLine) -> Result<(), Memory>
    ensures { OnOk result (places.new ≡ places.old ++ filter_map place_of_line (line.now ∷ [])) }
{
    if let Some(place) = place_of(line) {
        places.push(place)?;
    }
    Ok(())
}

// The places of the lines that state events.
fn places_of(alloc: Global, lines: &[ScriptLine]) -> Result<List<usize>, Memory>
    ensures { IfOk result (λ places. places ≡ places_of_lines lines.now) }
{
    let mut places = List::new(alloc);
    for line in lines {
        add_place(&mut places, line)?;
    }
    Ok(places)
}

/// The entry of a node in a slot of the run in which of all fault lines these alone are left.
///
/// # Errors
///
/// Where memory was refused.
pub fn entry_alone(
    alloc: Global,
    list: &Medl,
    script: &Script,
    lines: &[ScriptLine],
    slot: u32,
    node: u8,
) -> Result<Entry, Memory>
    requires valid { IsValid list.now }
    requires script { IsValidScript list.now script.now }
    requires slot { slot < script.now.slots }
    requires node { node < length list.now.slots }
    ensures { IfOk result (λ entry. entry ≡ entry_alone list.now script.now lines.now slot node) }
{
    let places = places_of(alloc, lines)?;
    fewer_is_valid(list, script, places.as_slice());
    let fewer = with_faults_at(alloc, script, places.as_slice())?;
    entry_in_run(alloc, list, &fewer, slot, node)
}

// Whether two lines are equal.
fn is_same(a: &ScriptLine, b: &ScriptLine) -> bool
    ensures { result ≡ is_same_line a.now b.now }
{
    match (a, b) {
        (ScriptLine::Event(a), ScriptLine::Event(b)) => *a == *b,
        (ScriptLine::On(a), ScriptLine::On(b)) => *a == *b,
        (ScriptLine::Drift(a), ScriptLine::Drift(b)) => *a == *b,
        _ => false,
    }
}

// The lines without one.
fn without(
    alloc: Global,
    lines: &[ScriptLine],
    line: &ScriptLine,
) -> Result<List<ScriptLine>, Memory>
    ensures { IfOk result (λ others. others ≡ without_line lines.now line.now) }
{
    let mut others = List::new(alloc);
    for other in lines {
        if !is_same(other, line) {
            others.push(*other)?;
        }
    }
    Ok(others)
}

// Two entries have one word.
fn is_same_word(a: &Entry, b: &Entry) -> bool
    ensures { result ≡ is_same_word a.now b.now }
{
    entry_word(a) == entry_word(b)
}

/// Whether a line is needed: without it too, the entry has another word.
///
/// # Errors
///
/// Where memory was refused.
pub fn is_needed(
    alloc: Global,
    list: &Medl,
    script: &Script,
    lines: &[ScriptLine],
    line: &ScriptLine,
    slot: u32,
    node: u8,
    entry: &Entry,
) -> Result<bool, Memory>
    requires valid { IsValid list.now }
    requires script { IsValidScript list.now script.now }
    requires slot { slot < script.now.slots }
    requires node { node < length list.now.slots }
    ensures { IfOk result (λ needed. needed ≡ is_needed list.now script.now lines.now slot node entry.now line.now) }
{
    let others = without(alloc, lines, line)?;
    let alone = entry_alone(alloc, list, script, others.as_slice(), slot, node)?;
    Ok(!is_same_word(entry, &alone))
}
