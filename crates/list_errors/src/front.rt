//! What a file is that is no list.
ghost use Rattle.std.specs.Prelude.{◌≡◌, ◌≤◌, false, length, drop};
ghost use Rattle.list_errors.specs.Errors.{has_utf16_mark, ends_word, is_word_end, said_from, begins_script, not_toml};

use crate::error::Wrong;
use std::str;

// Whether a text begins with the mark of UTF-16.
fn has_utf16_mark(text: &[u8]) -> bool
    ensures { result ≡ has_utf16_mark text.now }
{
    2 <= text.len()
        && ((text[0] == 0xff && text[1] == 0xfe) || (text[0] == 0xfe && text[1] == 0xff))
}

// Whether no word goes on with a byte in front of such a text.
fn ends_word(byte: u8, behind: &[u8]) -> bool
    ensures { result ≡ ends_word byte behind.now }
{
    match byte {
        b' ' | b'\t' | b'\n' => true,
        b'\r' => behind.is_empty() || behind[0] == b'\n',
        _ => false,
    }
}

// Whether no word goes on at the front of a text.
fn is_word_end(text: &[u8]) -> bool
    ensures { result ≡ is_word_end text.now }
{
    match text {
        [byte, behind @ ..] => ends_word(*byte, behind),
        [] => true,
    }
}

// Where the first word of the first line of a script that says something begins, or the end of the text.
fn said_from(text: &[u8]) -> usize
    ensures rest { drop result text.now ≡ said_from false text.now }
    ensures within { result ≤ length text.now }
{
    let mut inside = false;
    for at in 0..text.len() {
        if inside {
            inside = text[at] != b'\n';
        } else if text[at] == b'#' {
            inside = true;
        } else if !ends_word(text[at], &text[at + 1..]) {
            return at;
        }
    }
    text.len()
}

// Whether the word at the front of a text is `slots`.
fn begins_script(text: &[u8]) -> bool
    ensures { result ≡ begins_script text.now }
{
    text.starts_with(b"slots") && is_word_end(&text[5..])
}

/// What is wrong with a text that is no TOML.
pub(crate) fn not_toml(text: &[u8]) -> Wrong
    ensures { result ≡ not_toml text.now }
{
    if has_utf16_mark(text) {
        return Wrong::Utf16;
    }
    let at = said_from(text);
    if begins_script(&text[at..]) {
        return Wrong::IsScript { at };
    }
    match str::from_utf8(text) {
        Ok(_) => Wrong::NotToml,
        Err(error) => {
            let at = error.valid_up_to();
            Wrong::NotUtf8 { at, byte: text[at] }
        }
    }
}
