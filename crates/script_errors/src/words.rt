//! The errors of a line's words.
ghost use Rattle.std.specs.Prelude.{◌≡◌, ◌<◌, ◌≤◌, ◌++◌, [], ◌∷◌, length, OnOk, IfSome};
ghost use Rattle.ttp_world.specs.Medl.{IsValid};
ghost use Rattle.script_errors.specs.Spots.{spot_text};
ghost use Rattle.script_errors.specs.Words.{node_count, parts_of};
ghost use Rattle.script_errors.specs.Errors.{error_of_word, errors_of_word, word_errors, line_node, backwards};
ghost use Rattle.script_errors.specs.Errors.{span_errors, own_errors};

use crate::error::{Form, Part, ScriptError, Wrong};
use crate::form::parts_of;
use crate::spots::{Spot, spot_text};
use crate::word::{right_node, word_wrong};
use script_text::decimal_value;
use ttp_base::{List, Memory};
use ttp_world::Medl;

/// Adds an error at a word.
pub(crate) fn tell(
    found: &mut List<ScriptError>,
    line: u32,
    at: Spot,
    wrong: Wrong,
) -> Result<(), Memory>
    ensures { OnOk result (found.new ≡ found.old ++ error_of_word line at wrong ∷ []) }
{
    found.push(ScriptError { line, at, wrong })
}

/// Adds the error of a word, where something is wrong with it.
pub(crate) fn tell_if(
    found: &mut List<ScriptError>,
    line: u32,
    at: Spot,
    wrong: Option<Wrong>,
) -> Result<(), Memory>
    ensures { OnOk result (found.new ≡ found.old ++ errors_of_word line at wrong) }
{
    match wrong {
        Some(wrong) => tell(found, line, at, wrong),
        None => Ok(()),
    }
}

// Adds the errors of words that say such parts of a line, of which this is the node.
fn tell_words(
    list: &Option<Medl>,
    slots: u32,
    node: Option<u32>,
    number: u32,
    line: &[u8],
    parts: &[Part],
    words: &[Spot],
    found: &mut List<ScriptError>,
) -> Result<(), Memory>
    requires valid { IfSome list.now IsValid }
    requires node { IfSome node (λ k. k < node_count list.now) }
    requires size { length line.now ≤ 1048576 }
    requires full { length parts.now ≡ length words.now }
    ensures { OnOk result (found.new
        ≡ found.old ++ word_errors list.now slots node number line.now parts.now words.now) }
{
    for i in 0..words.len() {
        let wrong = word_wrong(list, slots, node, parts[i], spot_text(line, words[i]));
        tell_if(found, number, words[i], wrong)?;
    }
    Ok(())
}

// The node of a line, where it is right.
fn line_node(list: &Option<Medl>, line: &[u8], parts: &[Part], words: &[Spot]) -> Option<u32>
    requires { IfSome list.now IsValid }
    ensures named { result ≡ line_node list.now line.now parts.now words.now }
    ensures node { IfSome result (λ k. k < node_count list.now) }
{
    match (parts.first(), words.first()) {
        (Some(part), Some(word)) => right_node(list, *part, spot_text(line, *word)),
        _ => None,
    }
}

// Whether the last slot lies before the first, and both are slots of the run.
fn backwards(slots: u32, from: &[u8], to: &[u8]) -> Option<Wrong>
    ensures { result ≡ backwards slots from.now to.now }
{
    let last = slots.saturating_sub(1);
    match (decimal_value(from), decimal_value(to)) {
        (Some(from), Some(to)) if from <= last && to <= last && to < from => {
            Some(Wrong::Backwards { from, to })
        }
        _ => None,
    }
}

// Adds the error of a first and a last slot, which stands at the last.
fn tell_backwards(
    slots: u32,
    number: u32,
    line: &[u8],
    from: Spot,
    to: Spot,
    found: &mut List<ScriptError>,
) -> Result<(), Memory>
    ensures { OnOk result (found.new
        ≡ found.old ++ errors_of_word number to (backwards slots (spot_text line.now from) (spot_text line.now to))) }
{
    let wrong = backwards(slots, spot_text(line, from), spot_text(line, to));
    tell_if(found, number, to, wrong)
}

// Adds the error of the first and the last slot of a line.
#[tactic(auto, using(crate::proofs::Spans::spans))]
fn tell_span(
    slots: u32,
    number: u32,
    line: &[u8],
    form: Form,
    words: &[Spot],
    found: &mut List<ScriptError>,
) -> Result<(), Memory>
    requires { length words.now ≡ length (parts_of form) }
    ensures { OnOk result (found.new ≡ found.old ++ span_errors slots number line.now (parts_of form) words.now) }
{
    match form {
        Form::Send | Form::Receive => {
            tell_backwards(slots, number, line, words[3], words[4], found)
        }
        Form::Error => tell_backwards(slots, number, line, words[2], words[3], found),
        _ => Ok(()),
    }
}

// Adds the errors of a line's words by themselves.
#[tactic(auto, unfolding(crate::specs::Errors::own_errors))]
pub(crate) fn tell_own(
    list: &Option<Medl>,
    slots: u32,
    number: u32,
    line: &[u8],
    form: Form,
    words: &[Spot],
    found: &mut List<ScriptError>,
) -> Result<(), Memory>
    requires valid { IfSome list.now IsValid }
    requires size { length line.now ≤ 1048576 }
    requires full { length words.now ≡ length (parts_of form) }
    ensures { OnOk result (found.new ≡ found.old ++ own_errors list.now slots number line.now form words.now) }
{
    let parts = parts_of(form);
    let node = line_node(list, line, parts, words);
    tell_words(list, slots, node, number, line, parts, words, found)?;
    tell_span(slots, number, line, form, words, found)
}
