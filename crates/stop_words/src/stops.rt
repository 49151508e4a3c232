//! What a line says of a text that is no TOML.
ghost use Rattle.std.specs.Prelude.{◌≡◌, ◌++◌, take, drop, codes, OnOk};
ghost use Rattle.check_words.specs.Shown.{shown_word};
ghost use Rattle.check_words.specs.Pieces.{piece_text};
ghost use Rattle.stop_words.specs.Stops.{due_words, token_words, no_value_words, brackets_words, why_words};
ghost use Rattle.stop_words.specs.Stops.{stop_words};
ghost use Rattle.toml_walk.specs.declared.stop.Why.TheVariants as why;

use check_words::{Piece, Text, put_pieces};
use toml_walk::{Due, NoValue, Stop, Token, Why};
use ttp_base::Memory;

// So many bytes of a text from a place on, as far as it goes.
fn part_of(text: &[u8], at: usize, len: usize) -> &[u8]
    ensures { result.now ≡ take len (drop at text.now) }
{
    let start = at.min(text.len());
    let left = text.len() - start;
    &text[start..start + len.min(left)]
}

// What is due.
fn due_words(due: Due) -> &'static str
    ensures { result.now ≡ due_words due }
{
    match due {
        Due::Key => "a key",
        Due::Equals => "=",
        Due::HeaderEnd => "]",
        Due::ElementEnd => ", or ]",
        Due::MemberEnd => ", or }",
        Due::LineEnd => "the end of the line",
        Due::Value => "a value",
    }
}

// What stands at a place of a text.
fn token_piece<'a>(text: &'a [u8], at: usize, token: Token) -> Piece<'a>
    ensures { piece_text result ≡ token_words text.now at token }
{
    match token {
        Token::FileEnd => Piece::Words("the end of the file"),
        Token::LineEnd => Piece::Words("the end of the line"),
        Token::DoubleQuote => Piece::Words("a double quote"),
        Token::Shown { len } => Piece::Shown(part_of(text, at, len)),
    }
}

fn put_due(line: &mut Text, text: &[u8], at: usize, due: Due, token: Token) -> Result<(), Memory>
    ensures { OnOk result (line.new ≡ line.old ++ why_words text.now at (why.Due due token)) }
{
    let pieces = [
        Piece::Words(due_words(due)),
        Piece::Words(" is due, not "),
        token_piece(text, at, token),
    ];
    put_pieces(line, &pieces)
}

// Why a word is no value.
fn no_value_words(reason: NoValue) -> &'static str
    ensures { result.now ≡ no_value_words reason }
{
    match reason {
        NoValue::NearTrue => "nearest true",
        NoValue::NearFalse => "nearest false",
        NoValue::TooLarge => "the number is too large",
        NoValue::NoDigits => "wanted digits with no unit and no leading zero",
        NoValue::NoWord => "wanted a number, true, false or a text in quotes",
    }
}

fn put_no_value(
    line: &mut Text,
    text: &[u8],
    at: usize,
    len: usize,
    reason: NoValue,
) -> Result<(), Memory>
    ensures { OnOk result (line.new ≡ line.old ++ why_words text.now at (why.NoValue len reason)) }
{
    let pieces = [
        Piece::Shown(part_of(text, at, len)),
        Piece::Words(" is no value, "),
        Piece::Words(no_value_words(reason)),
    ];
    put_pieces(line, &pieces)
}

// What is said of a key in the single brackets of a header.
fn brackets_words(in_brackets: bool) -> &'static str
    ensures { result.now ≡ brackets_words in_brackets }
{
    if in_brackets {
        ", elements of an array take double brackets"
    } else {
        ""
    }
}

fn put_defined(line: &mut Text, key: &[u8], in_brackets: bool) -> Result<(), Memory>
    ensures { OnOk result (line.new ≡ line.old ++ (shown_word key.now ++ (codes " is defined already" ++ brackets_words in_brackets))) }
{
    let pieces = [
        Piece::Shown(key),
        Piece::Words(" is defined already"),
        Piece::Words(brackets_words(in_brackets)),
    ];
    put_pieces(line, &pieces)
}

// Adds why a text is no TOML, which stops being one at a place.
fn put_why(line: &mut Text, text: &[u8], at: usize, why: &Why) -> Result<(), Memory>
    ensures { OnOk result (line.new ≡ line.old ++ why_words text.now at why.now) }
{
    match why {
        Why::Due { due, token } => put_due(line, text, at, *due, *token),
        Why::NoString => line.put("the string that begins here has no end or a wrong character"),
        Why::NoValue { len, reason } => put_no_value(line, text, at, *len, *reason),
        Why::Defined { key, in_brackets } => put_defined(line, key.as_slice(), *in_brackets),
    }
}

/// Adds why a text is no TOML, if it stops being one somewhere.
///
/// # Errors
///
/// As of the other functions, where memory was refused; some of it may have been added.
#[tactic(auto, unfolding(crate::specs::Stops::stop_words))]
pub fn put_stop(line: &mut Text, text: &[u8], stop: &Option<Stop>) -> Result<(), Memory>
    ensures { OnOk result (line.new ≡ line.old ++ stop_words text.now stop.now) }
{
    match stop {
        Some(stop) => put_why(line, text, stop.at, &stop.why),
        None => line.put(""),
    }
}
