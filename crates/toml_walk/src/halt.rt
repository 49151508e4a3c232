//! What stops the reading of a text.
ghost use Rattle.std.specs.Prelude.{◌≡◌, ◌≤◌, length};
ghost use Rattle.std.specs.List.{list_all};
ghost use Rattle.std.specs.Char.{is_ascii_digit};
ghost use Rattle.toml_parser.specs.Numbers.{word_len};
ghost use Rattle.toml_walk.specs.Halting.{halted, word_length, token_at, due, reason_of, no_value_there};

use crate::stop::{Due, NoValue, Token, Why};
use std::alloc::{AllocError, AllocFailed};
use toml_parser::ParseError;
use toml_parser::bytes::{byte_at, is_word};
use toml_parser::text::{first, starts_newline};
use ttp_base::Memory;

/// Where a text stops being TOML, by how many bytes are left there.
#[derive(Drop)]
pub struct Halted {
    pub left: usize,
    pub why: Why,
}

/// Why a reading ended before its end: memory was refused, or the text stops being TOML.
#[derive(Drop)]
pub enum Halt {
    Memory,
    Stop(Halted),
}

impl From<Memory> for Halt {
    ghost use Rattle.std.specs.Prelude.{◌≡◌};
    ghost use Rattle.toml_walk.specs.declared.halt.Halt.TheVariants as halts;

    ghost from_gives = { λ _ e. e ≡ halts.Memory };

    fn from(_memory: Memory) -> Halt {
        Halt::Memory
    }
}

impl From<AllocError> for Halt {
    ghost use Rattle.std.specs.Prelude.{◌≡◌};
    ghost use Rattle.toml_walk.specs.declared.halt.Halt.TheVariants as halts;

    ghost from_gives = { λ _ e. e ≡ halts.Memory };

    fn from(_refused: AllocError) -> Halt {
        Halt::Memory
    }
}

impl<T: Drop> From<AllocFailed<T>> for Halt {
    ghost use Rattle.std.specs.Prelude.{◌≡◌};
    ghost use Rattle.toml_walk.specs.declared.halt.Halt.TheVariants as halts;

    ghost from_gives = { λ _ e. e ≡ halts.Memory };

    fn from(_refused: AllocFailed<T>) -> Halt {
        Halt::Memory
    }
}

/// The reading stops at the front of a text.
pub(crate) fn halt_at(text: &str, why: Why) -> Halt
    ensures { result ≡ Halt.Stop (halted text.now why) }
{
    Halt::Stop(Halted {
        left: text.len(),
        why,
    })
}

// How long the word at the front of a text is.
fn word_length(text: &[u8]) -> usize
    ensures len { result ≡ word_length text.now }
    ensures within { result ≤ length text.now }
{
    text.iter().take_while(|byte| is_word(**byte)).count()
}

// How long the word of a value at the front of a text is: it goes on behind one space where a digit follows.
#[tactic(auto, unfolding(toml_parser::specs::Numbers::word_len))]
fn value_length(text: &[u8]) -> usize
    ensures len { result ≡ word_len text.now }
    ensures within { result ≤ length text.now }
{
    let len = word_length(text);
    if byte_at(text, len) == b' ' && byte_at(text, len + 1).is_ascii_digit() {
        len + 1 + word_length(&text[len + 1..])
    } else {
        len
    }
}

// What stands at the front of a text.
#[tactic(auto, unfolding(crate::specs::Halting::token_at))]
fn token(text: &str) -> Token
    ensures { result ≡ token_at text.now }
{
    let len = word_length(text.as_bytes());
    if 0 < len {
        Token::Shown { len }
    } else if text.is_empty() {
        Token::FileEnd
    } else if starts_newline(text) {
        Token::LineEnd
    } else if first(text) == b'"' {
        Token::DoubleQuote
    } else {
        Token::Shown { len: 1 }
    }
}

/// Something else stands at the front of a text than is due there.
pub(crate) fn due(text: &str, what: Due) -> Halt
    ensures { result ≡ Halt.Stop (due what text.now) }
{
    let token = token(text);
    halt_at(text, Why::Due { due: what, token })
}

/// What a reader of toml_parser answers, where it stops for a reason of its own.
pub(crate) fn refused(error: ParseError, otherwise: Halt) -> Halt
    ensures memory { error ≡ ParseError.OutOfMemory → result ≡ Halt.Memory }
    ensures other { ¬ (error ≡ ParseError.OutOfMemory) → result ≡ otherwise }
{
    match error {
        ParseError::OutOfMemory => Halt::Memory,
        ParseError::At(_, _, _) => otherwise,
    }
}

fn are_digits(word: &[u8]) -> bool
    ensures { result ≡ list_all is_ascii_digit word.now }
{
    word.iter().all(|byte| byte.is_ascii_digit())
}

// Why a word is no value.
#[tactic(auto, unfolding(crate::specs::Halting::reason_of))]
fn reason(word: &[u8]) -> NoValue
    ensures { result ≡ reason_of word.now }
{
    let first = byte_at(word, 0);
    if word.eq_ignore_ascii_case(b"true") {
        NoValue::NearTrue
    } else if word.eq_ignore_ascii_case(b"false") {
        NoValue::NearFalse
    } else if !first.is_ascii_digit() {
        NoValue::NoWord
    } else if first != b'0' && are_digits(word) {
        NoValue::TooLarge
    } else {
        NoValue::NoDigits
    }
}

/// No value stands at the front of a text.
#[tactic(auto, unfolding(crate::specs::Halting::no_value_there))]
pub(crate) fn no_value(text: &str) -> Halt
    ensures { result ≡ Halt.Stop (no_value_there text.now) }
{
    let bytes = text.as_bytes();
    if word_length(bytes) == 0 {
        return due(text, Due::Value);
    }
    let len = value_length(bytes);
    let reason = reason(&bytes[..len]);
    halt_at(text, Why::NoValue { len, reason })
}
