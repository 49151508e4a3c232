//! The form of a line, and whether its words are those of the form.
ghost use Rattle.std.specs.Prelude.{◌≡◌};
ghost use Rattle.script_text.specs.Numbers.{is_text, is_channels, channels_in, is_fault, fault_in};
ghost use Rattle.script_text.specs.Statement.{keyword_of, form_word_count, has_channels, is_spelled};

use crate::keyword::Keyword;
use crate::words::Words;
use ttp_world::{Channels, Fault};

/// Whether a word is spelled like a text. A compiler that knows the text makes a few tests of bytes of it.
#[inline(always)]
pub fn is_text(text: &[u8], word: &[u8]) -> bool
    ensures { result ≡ is_text text.now word.now }
{
    if word.len() != text.len() {
        return false;
    }
    for place in 0..text.len() {
        if word[place] != text[place] {
            return false;
        }
    }
    true
}

/// The form that a line's first word names.
pub(crate) fn keyword_of(word: &[u8]) -> Option<Keyword>
    ensures { result ≡ keyword_of word.now }
{
    if is_text(b"slots", word) {
        Some(Keyword::Slots)
    } else if is_text(b"on", word) {
        Some(Keyword::On)
    } else if is_text(b"drift", word) {
        Some(Keyword::Drift)
    } else if is_text(b"send", word) {
        Some(Keyword::Send)
    } else if is_text(b"receive", word) {
        Some(Keyword::Receive)
    } else if is_text(b"flip", word) {
        Some(Keyword::Flip)
    } else if is_text(b"error", word) {
        Some(Keyword::Error)
    } else if is_text(b"jump", word) {
        Some(Keyword::Jump)
    } else if is_text(b"arm", word) {
        Some(Keyword::Arm)
    } else if is_text(b"write", word) {
        Some(Keyword::Write)
    } else if is_text(b"read", word) {
        Some(Keyword::Read)
    } else {
        None
    }
}

#[inline(always)]
fn form_word_count(form: Keyword) -> usize
    ensures { result ≡ form_word_count form }
{
    match form {
        Keyword::Slots => 2,
        Keyword::On | Keyword::Drift | Keyword::Arm => 3,
        Keyword::Jump | Keyword::Write | Keyword::Read => 4,
        Keyword::Flip | Keyword::Error => 5,
        Keyword::Send | Keyword::Receive => 6,
    }
}

/// Whether a word spells channels.
pub fn is_channels(word: &[u8]) -> bool
    ensures { result ≡ is_channels word.now }
{
    word == b"A".as_slice() || word == b"B".as_slice() || word == b"AB".as_slice()
}

/// Whether a word spells a fault.
pub fn is_fault(word: &[u8]) -> bool
    ensures { result ≡ is_fault word.now }
{
    word == b"silence".as_slice() || word == b"noise".as_slice()
}

/// The channels that a word spells.
pub(crate) fn channels_in(word: &[u8]) -> Channels
    ensures { result ≡ channels_in word.now }
{
    let both = word == b"AB".as_slice();
    Channels {
        a: word == b"A".as_slice() || both,
        b: word == b"B".as_slice() || both,
    }
}

/// The fault that a word spells.
pub(crate) fn fault_in(word: &[u8]) -> Fault
    ensures { result ≡ fault_in word.now }
{
    if word == b"silence".as_slice() {
        Fault::Silence
    } else {
        Fault::Noise
    }
}

// Whether channels and faults are spelled as they are due.
#[inline(always)]
fn has_channels(form: Keyword, words: &Words) -> bool
    ensures { result ≡ has_channels form words.now }
{
    match form {
        Keyword::Send | Keyword::Receive => is_channels(words.at(2).text())
            && is_fault(words.at(3).text()),
        Keyword::Flip => is_channels(words.at(2).text()),
        _ => true,
    }
}

/// Whether a line has the words of its form, as many, and spelled as they are due.
#[inline(always)]
pub(crate) fn is_spelled(form: Keyword, words: &Words) -> bool
    ensures { result ≡ is_spelled form words.now }
{
    words.len() == form_word_count(form) && has_channels(form, words)
}
