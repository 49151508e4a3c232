//! Words of a file, as they are shown.
ghost use Rattle.std.specs.Prelude.{◌≡◌, ◌<◌, ◌++◌, take, codes, OnOk};
ghost use Rattle.std.specs.List.{flat_map};
ghost use Rattle.ttp_base.specs.Text.{hex_digit, byte_hex};
ghost use Rattle.check_words.specs.Shown.{is_plain_byte, shown_byte, shown_most, dots_for, shown_word};

use crate::Text;
use ttp_base::Memory;

// So many bytes of a word are shown.
const SHOWN_MOST: usize = 40;

// Whether a byte is shown as it is.
fn is_plain(byte: u8) -> bool
    ensures { result ≡ is_plain_byte byte }
{
    32 <= byte && byte <= 126 && byte != b'"' && byte != b'\\'
}

// The lower-case hexadecimal digit of a number.
fn digit_of(number: u8) -> u8
    requires { number < 16 }
    ensures { result ≡ hex_digit number }
{
    if number < 10 {
        b'0' + number
    } else {
        b'a' + (number - 10)
    }
}

/// Adds the two lower-case hexadecimal digits of a byte.
pub fn put_byte_hex(text: &mut Text, byte: u8) -> Result<(), Memory>
    ensures { OnOk result (text.new ≡ text.old ++ byte_hex byte) }
{
    text.put_bytes(&[digit_of(byte / 16), digit_of(byte % 16)])
}

// Adds a byte that is not shown as it is.
fn put_escaped(text: &mut Text, byte: u8) -> Result<(), Memory>
    ensures { OnOk result (text.new ≡ text.old ++ (codes "\\x" ++ byte_hex byte)) }
{
    text.put("\\x")?;
    put_byte_hex(text, byte)
}

// Adds a byte as it is shown.
fn put_byte(text: &mut Text, byte: u8) -> Result<(), Memory>
    ensures { OnOk result (text.new ≡ text.old ++ shown_byte byte) }
{
    if is_plain(byte) {
        text.put_bytes(&[byte])
    } else {
        put_escaped(text, byte)
    }
}

// Adds bytes as they are shown.
fn put_each(text: &mut Text, bytes: &[u8]) -> Result<(), Memory>
    ensures { OnOk result (text.new ≡ text.old ++ flat_map shown_byte bytes.now) }
{
    for byte in bytes {
        put_byte(text, *byte)?;
    }
    Ok(())
}

// Adds what stands behind a word that is shown in part.
fn put_dots(text: &mut Text, word: &[u8]) -> Result<(), Memory>
    ensures { OnOk result (text.new ≡ text.old ++ dots_for word.now) }
{
    if SHOWN_MOST < word.len() {
        text.put("...")
    } else {
        Ok(())
    }
}

// The bytes of a word that are shown.
fn front_of(word: &[u8]) -> &[u8]
    ensures { result.now ≡ take shown_most word.now }
{
    if SHOWN_MOST < word.len() {
        &word[..SHOWN_MOST]
    } else {
        word
    }
}

/// Adds a word of a file in double quotes: its first 40 bytes, each that is no plain character of ASCII in hexadecimal
/// digits.
///
/// # Errors
///
/// Where memory was refused; some of it may have been added.
#[tactic(auto, unfolding(crate::specs::Shown::shown_word))]
pub fn put_shown(text: &mut Text, word: &[u8]) -> Result<(), Memory>
    ensures { OnOk result (text.new ≡ text.old ++ shown_word word.now) }
{
    text.put("\"")?;
    put_each(text, front_of(word))?;
    text.put("\"")?;
    put_dots(text, word)
}
