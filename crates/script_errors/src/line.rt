//! The errors of one line, and what it says to those behind it.
ghost use Rattle.std.specs.Prelude.{◌≡◌, ◌+◌, ◌^◌, ◌<◌, ◌≤◌, [], length, true, false, OnOk, IfSome, Option, is_some};
ghost use Rattle.std.specs.Prelude.{◌++◌, ◌∷◌, drop, IfNone, None, slice_get, slice_index_or, take};
ghost use Rattle.ttp_base.specs.NodeSet.{most_nodes};
ghost use Rattle.ttp_world.specs.declared.medl.Medl.{Medl};
ghost use Rattle.ttp_world.specs.Medl.{IsValid};
ghost use Rattle.script_text.specs.Numbers.{decimal_value, is_number};
ghost use Rattle.script_errors.specs.declared.error.Form.TheVariants as form;
ghost use Rattle.script_errors.specs.Spots.{spot, spot_text, spots_of, behind_mark};
ghost use Rattle.script_errors.specs.Words.{parts_of};
ghost use Rattle.script_errors.specs.Errors.{Before, own_errors, is_full, is_marked, says_something, buffer_wrong};
ghost use Rattle.script_errors.specs.Errors.{comment_of, before_comment, slots_errors};
ghost use Rattle.script_errors.specs.SoFar.{StandsFor, Finishes, TellsFull, TellsLength, TellsForm, TellsWords};
ghost use Rattle.script_errors.specs.SoFar.{TellsLine, counted_writes};

use crate::error::{Form, ScriptError, Wrong};
use crate::form::{form_named, parts_of};
use crate::so_far::SoFar;
use crate::spots::{Spot, begins_with_mark, spot_text};
use crate::words::{tell, tell_own};
use script_text::{decimal_value, is_comment};
use ttp_base::{List, Memory};
use ttp_world::Medl;

// The number that a word is, where it is one.
fn number_at(line: &[u8], word: Spot) -> u32
    ensures { is_number (spot_text line.now word) ≡ true → result ≡ decimal_value (spot_text line.now word) }
{
    decimal_value(spot_text(line, word)).unwrap_or(0)
}

// TellsFault or keeps what a `slots` line states.
fn finish_slots(
    number: u32,
    line: &[u8],
    first: Spot,
    words: &[Spot],
    so_far: &mut SoFar,
    found: &mut List<ScriptError>,
) -> Result<(), Memory>
    requires full { length words.now ≡ 1 }
    requires number { is_number (spot_text line.now (slice_index_or words.now 0 (spot 0 0))) ≡ true }
    ensures { OnOk result ((list : Option Medl) (before : Before) → StandsFor list so_far.old before
        → Finishes list before number line.now form.Slots first words.now so_far.new found.old found.new) }
{
    if let Some(line) = so_far.line_stating_slots() {
        so_far.name();
        return tell(found, number, first, Wrong::SlotsAgain { line });
    }
    so_far.take_slots(number, number_at(line, words[0]));
    Ok(())
}

// TellsFault or keeps what an `on` line states.
fn finish_on(
    number: u32,
    line: &[u8],
    first: Spot,
    words: &[Spot],
    so_far: &mut SoFar,
    found: &mut List<ScriptError>,
) -> Result<(), Memory>
    requires full { length words.now ≡ 2 }
    requires number { is_number (spot_text line.now (slice_index_or words.now 0 (spot 0 0))) ≡ true }
    requires node { decimal_value (spot_text line.now (slice_index_or words.now 0 (spot 0 0))) < most_nodes }
    ensures { OnOk result ((list : Option Medl) (before : Before) → StandsFor list so_far.old before
        → Finishes list before number line.now form.On first words.now so_far.new found.old found.new) }
{
    let node = number_at(line, words[0]);
    if let Some(line) = so_far.line_stating_on(node) {
        so_far.name();
        return tell(found, number, first, Wrong::OnAgain { node, line });
    }
    so_far.take_on(number, node);
    Ok(())
}

// TellsFault or keeps what a `drift` line states.
fn finish_drift(
    number: u32,
    line: &[u8],
    first: Spot,
    words: &[Spot],
    so_far: &mut SoFar,
    found: &mut List<ScriptError>,
) -> Result<(), Memory>
    requires full { length words.now ≡ 2 }
    requires number { is_number (spot_text line.now (slice_index_or words.now 0 (spot 0 0))) ≡ true }
    requires node { decimal_value (spot_text line.now (slice_index_or words.now 0 (spot 0 0))) < most_nodes }
    ensures { OnOk result ((list : Option Medl) (before : Before) → StandsFor list so_far.old before
        → Finishes list before number line.now form.Drift first words.now so_far.new found.old found.new) }
{
    let node = number_at(line, words[0]);
    if let Some(line) = so_far.line_stating_drift(node) {
        so_far.name();
        return tell(found, number, first, Wrong::DriftAgain { node, line });
    }
    so_far.take_drift(number, node);
    Ok(())
}

// What is wrong with one write more of a node's host in a slot, beside the list's buffers.
fn buffer_wrong(list: &Option<Medl>, node: u32, slot: u32, so_far: &SoFar) -> Option<Wrong>
    requires valid { IfSome list.now IsValid }
    ensures wrong { result ≡ buffer_wrong list.now node slot (counted_writes so_far.now.writes node slot + 1) }
    ensures few { result ≡ None → is_some list.now ≡ true → counted_writes so_far.now.writes node slot < 255 }
{
    let Some(list) = list else {
        return None;
    };
    let most = u32::from(list.buffers) - 1;
    if most == 0 {
        return Some(Wrong::NoBuffer);
    }
    if most <= u32::from(so_far.writes.at(node, slot)) {
        return Some(Wrong::TooMany { node, slot, most });
    }
    None
}

// TellsFault or keeps what a `write` line states.
fn finish_write(
    list: &Option<Medl>,
    number: u32,
    line: &[u8],
    first: Spot,
    words: &[Spot],
    so_far: &mut SoFar,
    found: &mut List<ScriptError>,
) -> Result<(), Memory>
    requires valid { IfSome list.now IsValid }
    requires full { length words.now ≡ 3 }
    requires number { is_number (spot_text line.now (slice_index_or words.now 0 (spot 0 0))) ≡ true }
    requires node { decimal_value (spot_text line.now (slice_index_or words.now 0 (spot 0 0))) < most_nodes }
    requires slot_number { is_number (spot_text line.now (slice_index_or words.now 1 (spot 0 0))) ≡ true }
    requires slot { decimal_value (spot_text line.now (slice_index_or words.now 1 (spot 0 0))) + 1 < 2 ^ 32 }
    ensures { OnOk result ((before : Before) → StandsFor list.now so_far.old before
        → Finishes list.now before number line.now form.Write first words.now so_far.new found.old found.new) }
{
    let node = number_at(line, words[0]);
    let slot = number_at(line, words[1]);
    if let Some(wrong) = buffer_wrong(list, node, slot, so_far) {
        so_far.name();
        return tell(found, number, first, wrong);
    }
    let slots = so_far.slots_or_most().max(slot + 1);
    so_far.take_write(number, node, slot, slots, list.is_some())
}

// TellsFault or keeps what a line states whose words are right by themselves, in a run of so many slots.
fn finish(
    list: &Option<Medl>,
    slots: u32,
    number: u32,
    line: &[u8],
    form: Form,
    first: Spot,
    words: &[Spot],
    so_far: &mut SoFar,
    found: &mut List<ScriptError>,
) -> Result<(), Memory>
    requires valid { IfSome list.now IsValid }
    requires full { length words.now ≡ length (parts_of form) }
    requires right { own_errors list.now slots number line.now form words.now ≡ [] }
    ensures { OnOk result ((before : Before) → StandsFor list.now so_far.old before
        → Finishes list.now before number line.now form first words.now so_far.new found.old found.new) }
{
    match form {
        Form::Slots => finish_slots(number, line, first, words, so_far, found),
        Form::On => finish_on(number, line, first, words, so_far, found),
        Form::Drift => finish_drift(number, line, first, words, so_far, found),
        Form::Write => finish_write(list, number, line, first, words, so_far, found),
        _ => {
            so_far.take_other(number);
            Ok(())
        }
    }
}

// Takes a line that has as many words as its form.
fn take_full(
    list: &Option<Medl>,
    number: u32,
    line: &[u8],
    form: Form,
    first: Spot,
    words: &[Spot],
    so_far: &mut SoFar,
    found: &mut List<ScriptError>,
) -> Result<(), Memory>
    requires valid { IfSome list.now IsValid }
    requires size { length line.now ≤ 1048576 }
    requires full { length words.now ≡ length (parts_of form) }
    ensures { OnOk result ((before : Before) → StandsFor list.now so_far.old before
        → TellsFull list.now before number line.now form first words.now so_far.new found.old found.new) }
{
    let slots = so_far.slots_or_most();
    let told = found.len();
    tell_own(list, slots, number, line, form, words, found)?;
    if told < found.len() {
        so_far.name();
        return Ok(());
    }
    finish(list, slots, number, line, form, first, words, so_far, found)
}

// Where the first of some words stands that begins a comment.
fn comment_place(line: &[u8], words: &[Spot]) -> Option<usize>
    ensures within { IfSome result (λ place. place < length words.now) }
    ensures comment { IfSome result (λ place. slice_get words.now place ≡ comment_of line.now words.now) }
    ensures front { IfSome result (λ place. take place words.now ≡ before_comment line.now words.now) }
    ensures none { IfNone result (comment_of line.now words.now ≡ None) }
    ensures all { IfNone result (before_comment line.now words.now ≡ words.now) }
{
    for place in 0..words.len() {
        if is_comment(spot_text(line, words[place])) {
            return Some(place);
        }
    }
    None
}

// Takes a line that has another number of words than its form.
fn take_other_length(
    list: &Option<Medl>,
    number: u32,
    line: &[u8],
    form: Form,
    first: Spot,
    words: &[Spot],
    so_far: &mut SoFar,
    found: &mut List<ScriptError>,
) -> Result<(), Memory>
    requires valid { IfSome list.now IsValid }
    requires size { length line.now ≤ 1048576 }
    requires count { length words.now < 2 ^ 31 }
    requires other { is_full form words.now ≡ false }
    ensures { OnOk result ((before : Before) → StandsFor list.now so_far.old before
        → TellsLength list.now before number line.now form first words.now so_far.new found.old found.new) }
{
    let Some(place) = comment_place(line, words) else {
        so_far.name();
        let words = words.len() as u32 + 1;
        return tell(found, number, first, Wrong::WordCount { words, form });
    };
    tell(found, number, words[place], Wrong::Comment)?;
    let here = &words[..place];
    if here.len() == parts_of(form).len() {
        return take_full(list, number, line, form, first, here, so_far, found);
    }
    so_far.name();
    Ok(())
}

// Adds the error that no line before names the slots of the run.
fn tell_no_slots(
    number: u32,
    form: Form,
    first: Spot,
    so_far: &SoFar,
    found: &mut List<ScriptError>,
) -> Result<(), Memory>
    ensures { OnOk result ((list : Option Medl) (before : Before) → StandsFor list so_far.now before
        → found.new ≡ found.old ++ slots_errors before number form first) }
{
    if so_far.named || form == Form::Slots {
        return Ok(());
    }
    tell(found, number, first, Wrong::NoSlots)
}

// Takes a line of a form.
fn take_form(
    list: &Option<Medl>,
    number: u32,
    line: &[u8],
    form: Form,
    first: Spot,
    words: &[Spot],
    so_far: &mut SoFar,
    found: &mut List<ScriptError>,
) -> Result<(), Memory>
    requires valid { IfSome list.now IsValid }
    requires size { length line.now ≤ 1048576 }
    requires count { length words.now < 2 ^ 31 }
    ensures { OnOk result ((before : Before) → StandsFor list.now so_far.old before
        → TellsForm list.now before number line.now form first words.now so_far.new found.old found.new) }
{
    tell_no_slots(number, form, first, so_far, found)?;
    if words.len() == parts_of(form).len() {
        return take_full(list, number, line, form, first, words, so_far, found);
    }
    take_other_length(list, number, line, form, first, words, so_far, found)
}

// Takes a line with this first word and the words behind it.
fn take_first(
    list: &Option<Medl>,
    number: u32,
    line: &[u8],
    first: Spot,
    words: &[Spot],
    so_far: &mut SoFar,
    found: &mut List<ScriptError>,
) -> Result<(), Memory>
    requires valid { IfSome list.now IsValid }
    requires size { length line.now ≤ 1048576 }
    requires count { length words.now < 2 ^ 31 }
    ensures { OnOk result ((before : Before) → StandsFor list.now so_far.old before
        → TellsWords list.now before number line.now (first ∷ words.now) so_far.new found.old found.new) }
{
    let name = spot_text(line, first);
    if is_comment(name) {
        return Ok(());
    }
    match form_named(name) {
        Some(form) => take_form(list, number, line, form, first, words, so_far, found),
        None => tell(found, number, first, Wrong::NoForm),
    }
}

// Takes a line with these words.
fn take_words(
    list: &Option<Medl>,
    number: u32,
    line: &[u8],
    words: &[Spot],
    so_far: &mut SoFar,
    found: &mut List<ScriptError>,
) -> Result<(), Memory>
    requires valid { IfSome list.now IsValid }
    requires size { length line.now ≤ 1048576 }
    requires count { length words.now < 2 ^ 31 }
    ensures { OnOk result ((before : Before) → StandsFor list.now so_far.old before
        → TellsWords list.now before number line.now words.now so_far.new found.old found.new) }
{
    if words.is_empty() {
        return Ok(());
    }
    take_first(list, number, line, words[0], &words[1..], so_far, found)
}

// The first of some words of line 1, where it begins with a byte order mark.
fn marked_word(number: u32, line: &[u8], words: &[Spot]) -> Option<Spot>
    ensures none { IfNone result (is_marked number line.now words.now ≡ false) }
    ensures marked { IfSome result (λ first. is_marked number line.now words.now ≡ true) }
    ensures first { IfSome result (λ first. words.now ≡ first ∷ drop 1 words.now) }
    ensures room { IfSome result (λ first. first.start + 3 ≤ length line.now) }
{
    if number != 1 || words.is_empty() {
        return None;
    }
    let first = words[0];
    if begins_with_mark(spot_text(line, first)) {
        return Some(first);
    }
    None
}

/// Whether a line with these words says something.
pub(crate) fn says_something(line: &[u8], words: &[Spot]) -> bool
    ensures { result ≡ says_something line.now words.now }
{
    match words.first() {
        Some(first) => !is_comment(spot_text(line, *first)),
        None => false,
    }
}

// Takes a line whose first word begins with a byte order mark.
fn take_marked(
    list: &Option<Medl>,
    number: u32,
    line: &[u8],
    first: Spot,
    words: &[Spot],
    so_far: &mut SoFar,
    found: &mut List<ScriptError>,
) -> Result<(), Memory>
    requires valid { IfSome list.now IsValid }
    requires size { length line.now ≤ 1048576 }
    requires count { length words.now < 2 ^ 31 }
    requires room { first.start + 3 ≤ length line.now }
    ensures { OnOk result ((before : Before) → StandsFor list.now so_far.old before
        → TellsWords list.now before number line.now (behind_mark (first ∷ words.now)) so_far.new found.old found.new) }
{
    let start = first.start + 3;
    if start == first.end {
        return take_words(list, number, line, words, so_far, found);
    }
    let rest = Spot {
        start,
        end: first.end,
    };
    take_first(list, number, line, rest, words, so_far, found)
}

/// Takes a line with these words.
pub(crate) fn take_line(
    list: &Option<Medl>,
    number: u32,
    line: &[u8],
    words: &[Spot],
    so_far: &mut SoFar,
    found: &mut List<ScriptError>,
) -> Result<(), Memory>
    requires valid { IfSome list.now IsValid }
    requires size { length line.now ≤ 1048576 }
    requires words { words.now ≡ spots_of line.now }
    ensures { OnOk result ((before : Before) → StandsFor list.now so_far.old before
        → TellsLine list.now before number line.now so_far.new found.old found.new) }
{
    let Some(first) = marked_word(number, line, words) else {
        return take_words(list, number, line, words, so_far, found);
    };
    tell(found, number, first, Wrong::Mark)?;
    take_marked(list, number, line, first, &words[1..], so_far, found)
}
