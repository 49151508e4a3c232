//! What a line says of a fault of a script.
ghost use Rattle.std.specs.Prelude.{◌≡◌, ◌+◌, ◌++◌, length, OnOk};
ghost use Rattle.script_errors.specs.declared.error.Wrong.TheVariants as wrong;
ghost use Rattle.script_errors.specs.Words.{parts_of};
ghost use Rattle.check_words.specs.Shown.{meant};
ghost use Rattle.check_words.specs.Script.{part_name, form_words, all_form_words, wrong_fault, spelling, nodes_from, stands_text};
ghost use Rattle.check_words.specs.Script.{script_said};

use crate::Text;
use crate::nearest::put_meant;
use crate::pieces::{Piece, put_pieces};
use script_errors::{Form, Part, Wrong};
use std::alloc::Global;
use ttp_base::Memory;

// The name of a part of a line.
fn part_name(part: Part) -> &'static str
    ensures { result.now ≡ part_name part }
{
    match part {
        Part::Slots => "T",
        Part::Node | Part::Writer => "NODE",
        Part::Slot => "SLOT",
        Part::From => "FROM",
        Part::To => "TO",
        Part::Channels => "CHANNELS",
        Part::Fault => "FAULT",
        Part::Bit => "BIT",
        Part::Drift | Part::Reading | Part::Jump => "VALUE",
        Part::Message => "HEX",
        Part::Source => "SOURCE",
    }
}

// A form as it is written down.
fn form_words(form: Form) -> &'static str
    ensures { result.now ≡ form_words form }
{
    match form {
        Form::Slots => "slots T",
        Form::On => "on NODE SLOT",
        Form::Drift => "drift NODE VALUE",
        Form::Send => "send NODE CHANNELS FAULT FROM TO",
        Form::Receive => "receive NODE CHANNELS FAULT FROM TO",
        Form::Flip => "flip NODE CHANNELS BIT SLOT",
        Form::Error => "error NODE VALUE FROM TO",
        Form::Jump => "jump NODE VALUE SLOT",
        Form::Arm => "arm NODE SLOT",
        Form::Write => "write NODE SLOT HEX",
        Form::Read => "read NODE SLOT SOURCE",
    }
}

// How many words a form has.
fn word_count(form: Form) -> u32
    ensures { result ≡ length (parts_of form) + 1 }
{
    match form {
        Form::Slots => 2,
        Form::On | Form::Drift | Form::Arm => 3,
        Form::Jump | Form::Write | Form::Read => 4,
        Form::Flip | Form::Error => 5,
        Form::Send | Form::Receive => 6,
    }
}

/// What `ttpbench` calls a fault of a script.
pub fn wrong_fault(wrong: Wrong) -> &'static str
    ensures { result.now ≡ wrong_fault wrong }
{
    match wrong {
        Wrong::Mark
        | Wrong::Utf16
        | Wrong::IsList
        | Wrong::NoForm
        | Wrong::Comment
        | Wrong::WordCount { .. }
        | Wrong::Misspelt { .. } => "word",
        Wrong::NoSlots | Wrong::NothingSaid => "no slots",
        Wrong::NoNumber { .. } | Wrong::NoSource { .. } | Wrong::NoDigits => "number",
        Wrong::OutOfRange { .. }
        | Wrong::ReadsItself { .. }
        | Wrong::DigitCount { .. }
        | Wrong::Backwards { .. } => "range",
        Wrong::NoNode { .. } => "no node",
        Wrong::NoData { .. } => "no data",
        Wrong::SlotsAgain { .. } | Wrong::OnAgain { .. } | Wrong::DriftAgain { .. } => "repeat",
        Wrong::NoBuffer => "no buffer",
        Wrong::TooMany { .. } => "too many",
    }
}

// What is due for a part that is one of a few words.
fn spelling(part: Part) -> &'static str
    ensures { result.now ≡ spelling part }
{
    match part {
        Part::Channels => ", wanted A, B or AB",
        Part::Fault => ", wanted silence or noise",
        _ => "",
    }
}

// The first of the nodes that are wanted.
fn nodes_from(part: Part) -> &'static str
    ensures { result.now ≡ nodes_from part }
{
    match part {
        Part::Source => ", wanted status or 0 to ",
        _ => ", wanted 0 to ",
    }
}

// The words that name the forms.
const FORM_WORDS: [&str; 11] = [
    "slots", "on", "drift", "send", "receive", "flip", "error", "jump", "arm", "write", "read",
];

fn put_no_form(alloc: Global, text: &mut Text, word: &[u8]) -> Result<(), Memory>
    ensures { OnOk result (text.new ≡ text.old ++ meant word.now all_form_words) }
{
    put_meant(alloc, text, word, &FORM_WORDS)
}

#[tactic(auto, unfolding(crate::specs::Script::script_said))]
fn put_comment(text: &mut Text, word: &[u8]) -> Result<(), Memory>
    ensures { OnOk result (text.new ≡ text.old ++ script_said word.now wrong.Comment) }
{
    let pieces = [
        Piece::Shown(word),
        Piece::Words(", a comment has a line of its own"),
    ];
    put_pieces(text, &pieces)
}

#[tactic(auto, unfolding(crate::specs::Script::script_said))]
fn put_word_count(text: &mut Text, word: &[u8], words: u32, form: Form) -> Result<(), Memory>
    ensures { OnOk result (text.new ≡ text.old ++ script_said word.now (wrong.WordCount words form)) }
{
    let pieces = [
        Piece::Words("words "),
        Piece::Number(words as u64),
        Piece::Words(", wanted "),
        Piece::Number(word_count(form) as u64),
        Piece::Words(": "),
        Piece::Words(form_words(form)),
    ];
    put_pieces(text, &pieces)
}

#[tactic(auto, unfolding(crate::specs::Script::script_said))]
fn put_misspelt(text: &mut Text, word: &[u8], part: Part) -> Result<(), Memory>
    ensures { OnOk result (text.new ≡ text.old ++ script_said word.now (wrong.Misspelt part)) }
{
    let pieces = [
        Piece::Words(part_name(part)),
        Piece::Words(" is "),
        Piece::Shown(word),
        Piece::Words(spelling(part)),
    ];
    put_pieces(text, &pieces)
}

#[tactic(auto, unfolding(crate::specs::Script::script_said))]
fn put_no_number(
    text: &mut Text,
    word: &[u8],
    part: Part,
    low: i64,
    high: i64,
) -> Result<(), Memory>
    ensures { OnOk result (text.new ≡ text.old ++ script_said word.now (wrong.NoNumber part low high)) }
{
    let pieces = [
        Piece::Words(part_name(part)),
        Piece::Words(" is "),
        Piece::Shown(word),
        Piece::Words(", wanted a number "),
        Piece::Signed(low),
        Piece::Words(" to "),
        Piece::Signed(high),
    ];
    put_pieces(text, &pieces)
}

#[tactic(auto, unfolding(crate::specs::Script::script_said))]
fn put_out_of_range(
    text: &mut Text,
    word: &[u8],
    part: Part,
    value: i64,
    low: i64,
    high: i64,
) -> Result<(), Memory>
    ensures { OnOk result (text.new ≡ text.old ++ script_said word.now (wrong.OutOfRange part value low high)) }
{
    let pieces = [
        Piece::Words(part_name(part)),
        Piece::Words(" is "),
        Piece::Signed(value),
        Piece::Words(", wanted "),
        Piece::Signed(low),
        Piece::Words(" to "),
        Piece::Signed(high),
    ];
    put_pieces(text, &pieces)
}

#[tactic(auto, unfolding(crate::specs::Script::script_said))]
fn put_no_node(text: &mut Text, word: &[u8], part: Part, node: u32, high: u32) -> Result<(), Memory>
    ensures { OnOk result (text.new ≡ text.old ++ script_said word.now (wrong.NoNode part node high)) }
{
    let pieces = [
        Piece::Words(part_name(part)),
        Piece::Words(" is "),
        Piece::Number(node as u64),
        Piece::Words(nodes_from(part)),
        Piece::Number(high as u64),
    ];
    put_pieces(text, &pieces)
}

#[tactic(auto, unfolding(crate::specs::Script::script_said))]
fn put_no_data(text: &mut Text, word: &[u8], part: Part, node: u32) -> Result<(), Memory>
    ensures { OnOk result (text.new ≡ text.old ++ script_said word.now (wrong.NoData part node)) }
{
    let pieces = [
        Piece::Words(part_name(part)),
        Piece::Words(" is "),
        Piece::Number(node as u64),
        Piece::Words(", whose data is 0 in the list"),
    ];
    put_pieces(text, &pieces)
}

#[tactic(auto, unfolding(crate::specs::Script::script_said))]
fn put_no_source(text: &mut Text, word: &[u8], high: u32) -> Result<(), Memory>
    ensures { OnOk result (text.new ≡ text.old ++ script_said word.now (wrong.NoSource high)) }
{
    let pieces = [
        Piece::Words("SOURCE is "),
        Piece::Shown(word),
        Piece::Words(", wanted status or a number 0 to "),
        Piece::Number(high as u64),
    ];
    put_pieces(text, &pieces)
}

#[tactic(auto, unfolding(crate::specs::Script::script_said))]
fn put_reads_itself(text: &mut Text, word: &[u8], node: u32) -> Result<(), Memory>
    ensures { OnOk result (text.new ≡ text.old ++ script_said word.now (wrong.ReadsItself node)) }
{
    let pieces = [
        Piece::Words("SOURCE is "),
        Piece::Number(node as u64),
        Piece::Words(", the node itself, wanted status or another node"),
    ];
    put_pieces(text, &pieces)
}

#[tactic(auto, unfolding(crate::specs::Script::script_said))]
fn put_no_digits(text: &mut Text, word: &[u8]) -> Result<(), Memory>
    ensures { OnOk result (text.new ≡ text.old ++ script_said word.now wrong.NoDigits) }
{
    let pieces = [
        Piece::Words("HEX is "),
        Piece::Shown(word),
        Piece::Words(", wanted hexadecimal digits, two for each byte"),
    ];
    put_pieces(text, &pieces)
}

#[tactic(auto, unfolding(crate::specs::Script::script_said))]
fn put_digit_count(
    text: &mut Text,
    word: &[u8],
    digits: u32,
    due: u32,
    node: u32,
) -> Result<(), Memory>
    ensures { OnOk result (text.new ≡ text.old ++ script_said word.now (wrong.DigitCount digits due node)) }
{
    let pieces = [
        Piece::Words("HEX has digits "),
        Piece::Number(digits as u64),
        Piece::Words(", wanted "),
        Piece::Number(due as u64),
        Piece::Words(" for data = "),
        Piece::Number((due / 2) as u64),
        Piece::Words(" of node "),
        Piece::Number(node as u64),
    ];
    put_pieces(text, &pieces)
}

#[tactic(auto, unfolding(crate::specs::Script::script_said))]
fn put_backwards(text: &mut Text, word: &[u8], from: u32, to: u32) -> Result<(), Memory>
    ensures { OnOk result (text.new ≡ text.old ++ script_said word.now (wrong.Backwards from to)) }
{
    let pieces = [
        Piece::Words("TO is "),
        Piece::Number(to as u64),
        Piece::Words(", wanted "),
        Piece::Number(from as u64),
        Piece::Words(" or more, since FROM is "),
        Piece::Number(from as u64),
    ];
    put_pieces(text, &pieces)
}

#[tactic(auto, unfolding(crate::specs::Script::script_said))]
fn put_slots_again(text: &mut Text, word: &[u8], line: u32) -> Result<(), Memory>
    ensures { OnOk result (text.new ≡ text.old ++ script_said word.now (wrong.SlotsAgain line)) }
{
    let pieces = [
        Piece::Words("slots stands in line "),
        Piece::Number(line as u64),
    ];
    put_pieces(text, &pieces)
}

#[tactic(auto, unfolding(crate::specs::Script::script_said))]
fn put_on_again(text: &mut Text, word: &[u8], node: u32, line: u32) -> Result<(), Memory>
    ensures { OnOk result (text.new ≡ text.old ++ script_said word.now (wrong.OnAgain node line)) }
{
    let pieces = [
        Piece::Words("on "),
        Piece::Number(node as u64),
        Piece::Words(" stands in line "),
        Piece::Number(line as u64),
    ];
    put_pieces(text, &pieces)
}

#[tactic(auto, unfolding(crate::specs::Script::script_said))]
fn put_drift_again(text: &mut Text, word: &[u8], node: u32, line: u32) -> Result<(), Memory>
    ensures { OnOk result (text.new ≡ text.old ++ script_said word.now (wrong.DriftAgain node line)) }
{
    let pieces = [
        Piece::Words("drift "),
        Piece::Number(node as u64),
        Piece::Words(" stands in line "),
        Piece::Number(line as u64),
    ];
    put_pieces(text, &pieces)
}

#[tactic(auto, unfolding(crate::specs::Script::script_said))]
fn put_too_many(text: &mut Text, word: &[u8], node: u32, slot: u32, most: u32) -> Result<(), Memory>
    ensures { OnOk result (text.new ≡ text.old ++ script_said word.now (wrong.TooMany node slot most)) }
{
    let pieces = [
        Piece::Words("writes of node "),
        Piece::Number(node as u64),
        Piece::Words(" in slot "),
        Piece::Number(slot as u64),
        Piece::Words(" reach buffers, wanted at most "),
        Piece::Number(most as u64),
    ];
    put_pieces(text, &pieces)
}

/// Adds what is said of a word of a script, or of a line that begins with this word, beside what the fault is called.
///
/// # Errors
///
/// Where memory was refused; some of it may have been added.
#[tactic(auto, unfolding(crate::specs::Script::script_said))]
pub fn put_said(alloc: Global, text: &mut Text, word: &[u8], wrong: Wrong) -> Result<(), Memory>
    ensures { OnOk result (text.new ≡ text.old ++ script_said word.now wrong) }
{
    match wrong {
        Wrong::Mark => text.put("a byte order mark, save the file without one"),
        Wrong::Utf16 => text.put("the file is UTF-16, save it as UTF-8"),
        Wrong::IsList => text.put("this file is a list, the script comes second"),
        Wrong::NoForm => put_no_form(alloc, text, word),
        Wrong::NoSlots => text.put("wanted a line slots T before this one"),
        Wrong::NothingSaid => text.put("no line says anything, wanted slots T"),
        Wrong::Comment => put_comment(text, word),
        Wrong::WordCount { words, form } => put_word_count(text, word, words, form),
        Wrong::Misspelt { part } => put_misspelt(text, word, part),
        Wrong::NoNumber { part, low, high } => put_no_number(text, word, part, low, high),
        Wrong::OutOfRange {
            part,
            value,
            low,
            high,
        } => put_out_of_range(text, word, part, value, low, high),
        Wrong::NoNode { part, node, high } => put_no_node(text, word, part, node, high),
        Wrong::NoData { part, node } => put_no_data(text, word, part, node),
        Wrong::NoSource { high } => put_no_source(text, word, high),
        Wrong::ReadsItself { node } => put_reads_itself(text, word, node),
        Wrong::NoDigits => put_no_digits(text, word),
        Wrong::DigitCount { digits, due, node } => put_digit_count(text, word, digits, due, node),
        Wrong::Backwards { from, to } => put_backwards(text, word, from, to),
        Wrong::SlotsAgain { line } => put_slots_again(text, word, line),
        Wrong::OnAgain { node, line } => put_on_again(text, word, node, line),
        Wrong::DriftAgain { node, line } => put_drift_again(text, word, node, line),
        Wrong::NoBuffer => text.put("buffers is 1 in the list, wanted 2 or more"),
        Wrong::TooMany { node, slot, most } => put_too_many(text, word, node, slot, most),
    }
}
