//! Words that are messages: hexadecimal digits of either case, two for each byte.
ghost use Rattle.std.specs.Prelude.{◌≡◌, ◌*◌, ◌≤◌, length, take, SomeIff, IsTrue};
ghost use Rattle.std.specs.Char.{digit_value};
ghost use Rattle.script_text.specs.Numbers.{is_hex_word, digit_bytes_in};

use ttp_world::{PAYLOAD_LIMIT, Payload};

// For each byte the digit that it is, a letter of either case from 10 on, and 36 where it is none.
static DIGITS: [u8; 256] = [
    36, 36, 36, 36, 36, 36, 36, 36, 36, 36, 36, 36, 36, 36, 36, 36, 36, 36, 36, 36, 36, 36, 36, 36,
    36, 36, 36, 36, 36, 36, 36, 36, 36, 36, 36, 36, 36, 36, 36, 36, 36, 36, 36, 36, 36, 36, 36, 36,
    0, 1, 2, 3, 4, 5, 6, 7, 8, 9, 36, 36, 36, 36, 36, 36, 36, 10, 11, 12, 13, 14, 15, 16, 17, 18,
    19, 20, 21, 22, 23, 24, 25, 26, 27, 28, 29, 30, 31, 32, 33, 34, 35, 36, 36, 36, 36, 36, 36, 10,
    11, 12, 13, 14, 15, 16, 17, 18, 19, 20, 21, 22, 23, 24, 25, 26, 27, 28, 29, 30, 31, 32, 33, 34,
    35, 36, 36, 36, 36, 36, 36, 36, 36, 36, 36, 36, 36, 36, 36, 36, 36, 36, 36, 36, 36, 36, 36, 36,
    36, 36, 36, 36, 36, 36, 36, 36, 36, 36, 36, 36, 36, 36, 36, 36, 36, 36, 36, 36, 36, 36, 36, 36,
    36, 36, 36, 36, 36, 36, 36, 36, 36, 36, 36, 36, 36, 36, 36, 36, 36, 36, 36, 36, 36, 36, 36, 36,
    36, 36, 36, 36, 36, 36, 36, 36, 36, 36, 36, 36, 36, 36, 36, 36, 36, 36, 36, 36, 36, 36, 36, 36,
    36, 36, 36, 36, 36, 36, 36, 36, 36, 36, 36, 36, 36, 36, 36, 36, 36, 36, 36, 36, 36, 36, 36, 36,
    36, 36, 36, 36, 36, 36, 36, 36, 36, 36, 36, 36, 36, 36,
];

// The digit that a byte is: below 16 where it is a hexadecimal one.
fn digit_of(byte: u8) -> u8
    ensures { result ≡ digit_value byte }
{
    DIGITS[byte as usize]
}

/// Whether a word has no bytes but hexadecimal digits.
pub fn is_hex_word(word: &[u8]) -> bool
    ensures { result ≡ is_hex_word word.now }
{
    for byte in word {
        if 16 <= digit_of(*byte) {
            return false;
        }
    }
    true
}

/// The message of so many bytes whose digits stand at the front of a text, if they are digits.
pub(crate) fn front_payload(text: &[u8], size: u8) -> Option<Payload>
    requires small { size ≤ PAYLOAD_LIMIT }
    requires within { 2 * size ≤ length text.now }
    ensures { SomeIff result (IsTrue (is_hex_word (take (2 * size) text.now)))
        (digit_bytes_in (take (2 * size) text.now)) }
{
    let mut bytes = [0; PAYLOAD_LIMIT];
    for i in 0..size as usize {
        let (high, low) = (digit_of(text[2 * i]), digit_of(text[2 * i + 1]));
        if 16 <= high || 16 <= low {
            return None;
        }
        bytes[i] = 16 * high + low;
    }
    Some(Payload { len: size, bytes })
}
