//! From the bytes of a file to the script.
ghost use Rattle.std.specs.Prelude.{List as Items, ◌≡◌, ◌⊎◌, ◌≤◌, [], length, pos, Err};
ghost use Rattle.std.specs.Prelude.{IfOk, IfErr, OnOk, All, map, unwrap_or};
ghost use Rattle.ttp_world.specs.Medl.{IsValid};
ghost use Rattle.ttp_world.specs.Script.{IsValidScript, IsBounded};
ghost use Rattle.script_text.specs.declared.keyword.Keyword.TheVariants as keyword;
ghost use Rattle.script_text.specs.Lines.{is_comment, lines_of_file, words_of_line};
ghost use Rattle.script_text.specs.Statement.{Statement};
ghost use Rattle.script_text.specs.Faults.{is_after_slots};
ghost use Rattle.script_text.specs.ScriptFile.{script_faults, end_faults, statements_of};
ghost use Rattle.script_text.specs.ScriptFile.{stated_script, script_or_fault, script_of};
ghost use Rattle.script_text.specs.SoFar.{LinesStandFor, HasNodes, TakesStated, RefusesStated};
ghost use Rattle.script_text.specs.SoFar.{TakesForm, RefusesForm, TakesLine, RefusesLine};

use crate::error::{LineFault, Refusal, ScriptError};
use crate::event::{arm_in, error_in, flip_in, jump_in, receive_in, send_in};
use crate::first::{error_word, first_word};
use crate::form::is_spelled;
use crate::host::read_in;
use crate::keyword::Keyword;
use crate::lines::next_line;
use crate::so_far::SoFar;
use crate::words::{Words, error_words_after, words_after};
use std::alloc::Global;
use ttp_base::{List, Memory};
use ttp_world::{EVENT_LIMIT, Events, Medl, Script};

// Whether a line of a form may stand where lines before said these slots of the run, or none.
fn is_after_slots(form: Keyword, slots: Option<u32>) -> bool
    ensures { result ≡ is_after_slots form slots }
{
    form == Keyword::Slots || slots.is_some()
}

// Takes what an `error` line states.
#[inline(always)]
fn take_error(list: &Medl, words: &Words, so_far: &mut SoFar) -> Result<(), Refusal>
    requires valid { IsValid list.now }
    requires nodes { HasNodes list.now so_far.old }
    ensures ok { OnOk result (TakesStated list.now words.now so_far.old so_far.new keyword.Error) }
    ensures err { IfErr result (RefusesStated list.now words.now so_far.old keyword.Error) }
    ensures nodes { HasNodes list.now so_far.new }
{
    let slots = so_far.slots.unwrap_or(0);
    so_far.take_event(error_in(words, list, slots))
}

// Takes what a line of a form states.
#[inline(always)]
fn take_stated(list: &Medl, form: Keyword, words: &Words, so_far: &mut SoFar) -> Result<(), Refusal>
    requires valid { IsValid list.now }
    requires nodes { HasNodes list.now so_far.old }
    ensures ok { OnOk result (TakesStated list.now words.now so_far.old so_far.new form) }
    ensures err { IfErr result (RefusesStated list.now words.now so_far.old form) }
    ensures nodes { HasNodes list.now so_far.new }
{
    let slots = so_far.slots.unwrap_or(0);
    match form {
        Keyword::Slots => so_far.take_slots(words, list),
        Keyword::On => so_far.take_on(words, list),
        Keyword::Drift => so_far.take_drift(words, list),
        Keyword::Send => so_far.take_event(send_in(words, list, slots)),
        Keyword::Receive => so_far.take_event(receive_in(words, list, slots)),
        Keyword::Flip => so_far.take_event(flip_in(words, list, slots)),
        Keyword::Error => take_error(list, words, so_far),
        Keyword::Jump => so_far.take_event(jump_in(words, list, slots)),
        Keyword::Arm => so_far.take_event(arm_in(words, list, slots)),
        Keyword::Read => so_far.take_event(read_in(words, list, slots)),
        Keyword::Write => so_far.take_write(words, list),
    }
}

// Takes a line of a form.
#[inline(always)]
#[tactic(auto, using(crate::proofs::Kept::kept))]
fn take_form(list: &Medl, form: Keyword, words: &Words, so_far: &mut SoFar) -> Result<(), Refusal>
    requires valid { IsValid list.now }
    requires nodes { HasNodes list.now so_far.old }
    ensures ok { OnOk result (TakesForm list.now words.now so_far.old so_far.new form) }
    ensures err { IfErr result (RefusesForm list.now words.now so_far.old form) }
    ensures nodes { HasNodes list.now so_far.new }
{
    if !is_spelled(form, words) {
        return Err(LineFault::Word.into());
    }
    if !is_after_slots(form, so_far.slots) {
        return Err(LineFault::NoSlots.into());
    }
    take_stated(list, form, words, so_far)
}

// Takes an `error` line.
#[inline(always)]
#[tactic(auto, using(crate::proofs::Kept::kept))]
fn take_error_line(list: &Medl, words: &Words, so_far: &mut SoFar) -> Result<(), Refusal>
    requires valid { IsValid list.now }
    requires nodes { HasNodes list.now so_far.old }
    ensures ok { OnOk result (TakesForm list.now words.now so_far.old so_far.new keyword.Error) }
    ensures err { IfErr result (RefusesForm list.now words.now so_far.old keyword.Error) }
    ensures nodes { HasNodes list.now so_far.new }
{
    if !is_spelled(Keyword::Error, words) {
        return Err(LineFault::Word.into());
    }
    if !is_after_slots(Keyword::Error, so_far.slots) {
        return Err(LineFault::NoSlots.into());
    }
    take_error(list, words, so_far)
}

// Takes a line of any form.
#[tactic(auto, using(crate::proofs::Kept::kept), unfolding(crate::specs::Faults::line_faults, crate::specs::Faults::statements_after))]
fn take_any_line(list: &Medl, line: &[u8], so_far: &mut SoFar) -> Result<(), Refusal>
    requires valid { IsValid list.now }
    requires nodes { HasNodes list.now so_far.old }
    ensures ok { OnOk result (TakesLine list.now (words_of_line line.now) so_far.old so_far.new) }
    ensures err { IfErr result (RefusesLine list.now (words_of_line line.now) so_far.old) }
    ensures nodes { HasNodes list.now so_far.new }
{
    let first = first_word(line);
    if first.cut.piece.is_empty() || is_comment(first.cut.piece) {
        return Ok(());
    }
    let Some(form) = first.form else {
        return Err(LineFault::Word.into());
    };
    let Some(words) = words_after(first.cut) else {
        return Err(LineFault::Word.into());
    };
    take_form(list, form, &words, so_far)
}

// Takes a line. An `error` line without a fault in its words is taken in place: as a line of any form it would cost
// `keeps` 5 percent more instructions on 23,500 such lines in 20,000 slots, and 19 percent more on 30,900 in 100 slots.
#[tactic(auto, using(crate::proofs::Kept::kept), unfolding(crate::specs::Faults::line_faults, crate::specs::Faults::statements_after))]
fn take_line(list: &Medl, line: &[u8], so_far: &mut SoFar) -> Result<(), Refusal>
    requires valid { IsValid list.now }
    requires nodes { HasNodes list.now so_far.old }
    ensures ok { OnOk result (TakesLine list.now (words_of_line line.now) so_far.old so_far.new) }
    ensures err { IfErr result (RefusesLine list.now (words_of_line line.now) so_far.old) }
    ensures nodes { HasNodes list.now so_far.new }
{
    if let Some(first) = error_word(line) {
        if let Some(words) = error_words_after(first) {
            return take_error_line(list, &words, so_far);
        }
    }
    take_any_line(list, line, so_far)
}

/// Whether a word begins a comment.
pub fn is_comment(word: &[u8]) -> bool
    ensures { result ≡ is_comment word.now }
{
    match word.first() {
        Some(byte) => *byte == b'#',
        None => false,
    }
}

// Takes all lines of a file, and gives the number after the last one's.
#[tactic(auto, using(crate::proofs::Reading::reading))]
fn take_lines(list: &Medl, text: &[u8], so_far: &mut SoFar) -> Result<u32, ScriptError>
    requires valid { IsValid list.now }
    requires stands { LinesStandFor so_far.old [] }
    requires nodes { HasNodes list.now so_far.old }
    requires size { length text.now ≤ 1048576 }
    ensures stands { OnOk result (LinesStandFor so_far.new (statements_of [] (lines_of_file text.now))) }
    ensures faults { IfOk result (λ number.
        script_faults list.now 1 [] (lines_of_file text.now)
        ≡ end_faults number (statements_of [] (lines_of_file text.now))) }
    ensures err { IfErr result (λ e. (e ≡ ScriptError.Memory) ⊎ (script_of list.now text.now ≡ Err e)) }
    ensures nodes { HasNodes list.now so_far.new }
    ensures count { OnOk result (length so_far.new.events ≤ EVENT_LIMIT) }
    ensures values { OnOk result (All IsBounded so_far.new.events) }
{
    let mut rest = text;
    let mut number: u32 = 1;
    while let Some(cut) = next_line(rest) {
        if let Err(refusal) = take_line(list, cut.piece, so_far) {
            return Err(refusal.at_line(number));
        }
        rest = cut.rest;
        number += 1;
    }
    Ok(number)
}

// How each clock drifts, which is not at all where no line says so.
fn all_drifts(alloc: Global, said: &[Option<i64>]) -> Result<List<i64>, Memory>
    ensures { IfOk result (λ drift. drift ≡ map (λ d. unwrap_or d (pos 0)) said.now) }
{
    let mut drift = List::new(alloc);
    for value in said {
        drift.push(value.unwrap_or(0))?;
    }
    Ok(drift)
}

// The script of all lines, of which the last has the number before this one.
fn script_from(
    alloc: Global,
    list: &Medl,
    so_far: SoFar,
    number: u32,
) -> Result<Script, ScriptError>
    requires nodes { HasNodes list.now so_far }
    requires count { length so_far.events ≤ EVENT_LIMIT }
    requires values { All IsBounded so_far.events }
    ensures { (said : Items Statement) → LinesStandFor so_far said
        → (result ≡ Err ScriptError.Memory)
        ⊎ (result ≡ script_or_fault (end_faults number said) (stated_script list.now said)) }
{
    let Some(slots) = so_far.slots else {
        let fault = LineFault::NoSlots;
        return Err(ScriptError::Line { number, fault });
    };
    let drift = all_drifts(alloc, &so_far.drift)?;
    let events = Events::index(alloc, so_far.events)?;
    Ok(Script {
        slots,
        on: List::from_vec(so_far.on),
        drift,
        events,
    })
}

/// The script that the bytes of a file say, for a list.
///
/// The answer is `script_of` of these bytes, which is the script or the first faulty line with its
/// first fault; but for want of memory, which may be answered for any text. What is read meets
/// `IsValidScript`. The file has at most 1,048,576 bytes.
///
/// The file is gone over once, a line after another, and a line once for its end and once for its
/// words.
/// Memory is taken for what is said of each node, for what happens in slots, and once, where a host
/// writes, a byte for each node and slot; none for other lines. At the end what happens in slots is
/// put into an index, at the cost of a sort.
#[tactic(auto, unfolding(crate::specs::ScriptFile::script_of, crate::specs::ScriptFile::lines_script))]
pub fn read_script(alloc: Global, list: &Medl, text: &[u8]) -> Result<Script, ScriptError>
    requires valid { IsValid list.now }
    requires size { length text.now ≤ 1048576 }
    ensures exact { (result ≡ Err ScriptError.Memory) ⊎ (result ≡ script_of list.now text.now) }
    ensures valid { IfOk result (IsValidScript list.now) }
{
    let mut so_far = SoFar::new(alloc, list)?;
    let number = take_lines(list, text, &mut so_far)?;
    script_from(alloc, list, so_far, number)
}
