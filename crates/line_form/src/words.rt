//! Words, each read for itself.
ghost use Rattle.std.specs.Prelude.{◌≡◌, ◌≤◌, ◌<◌, ◌==◌, ◌^◌, ◌∷◌, ℕ, [], map, IsTrue, IfSome, option_map, length, take, drop, position};
ghost use Rattle.std.specs.Str.{bytes_eq};
ghost use Rattle.line_form.specs.Kinds.{behind_prefix, front, back, has_leading_zero, numeral_in, numeral, signed_numeral};
ghost use Rattle.line_form.specs.Kinds.{is_hex, hex_value, hex_number, hex_payload, is_even, place_among, read, or_dash, number, named, hexed_or};
ghost use Rattle.line_form.specs.Forms.{FitsNamed};

use crate::named::Named;
use ttp_base::Text;

/// What follows a label at the front of bytes, if they begin with it.
pub(crate) fn behind_prefix<'a>(label: &[u8], bytes: &'a [u8]) -> Option<&'a [u8]>
    ensures { option_map (λ p. p.now) result ≡ behind_prefix label.now bytes.now }
{
    bytes.strip_prefix(label)
}

fn position_of(bytes: &[u8], stop: u8) -> Option<usize>
    ensures { result ≡ position (λ b. b == stop) bytes.now }
{
    bytes.iter().position(|byte| *byte == stop)
}

/// Where the first word of bytes ends, before a byte.
#[tactic(auto, using(crate::proofs::Cuts::ends))]
pub(crate) fn end_at(bytes: &[u8], stop: u8) -> usize
    ensures within { result ≤ length bytes.now }
    ensures front { take result bytes.now ≡ front stop bytes.now }
    ensures back { drop result bytes.now ≡ back stop bytes.now }
{
    match position_of(bytes, stop) {
        Some(end) => end,
        None => bytes.len(),
    }
}

/// Where the first word ends, before a space.
pub(crate) fn word_end(bytes: &[u8]) -> usize
    ensures within { result ≤ length bytes.now }
    ensures front { take result bytes.now ≡ front 32 bytes.now }
    ensures back { drop result bytes.now ≡ back 32 bytes.now }
{
    end_at(bytes, b' ')
}

fn has_leading_zero(word: &[u8]) -> bool
    ensures { result ≡ has_leading_zero word.now }
{
    1 < word.len() && word[0] == b'0'
}

/// The number that a word of decimal digits is, at most so many and none that leads and is 0.
#[tactic(auto, unfolding(crate::specs::Kinds::numeral_in))]
pub fn numeral_in(word: &[u8], most: usize) -> Option<u64>
    requires { most ≤ 18 }
    ensures value { result ≡ numeral_in most word.now }
    ensures small { IfSome result (λ n. n < 10 ^ most) }
{
    if word.is_empty() || most < word.len() || has_leading_zero(word) {
        return None;
    }
    let mut number: u64 = 0;
    for byte in word {
        if !byte.is_ascii_digit() {
            return None;
        }
        number = number * 10 + u64::from(*byte - b'0');
    }
    Some(number)
}

/// A number below a limit.
#[tactic(auto, unfolding(crate::specs::Kinds::numeral))]
pub(crate) fn number_in(word: &[u8], limit: u64) -> Option<u64>
    ensures value { result ≡ numeral limit word.now }
    ensures small { IfSome result (λ n. n < limit) }
{
    let number = numeral_in(word, 18)?;
    if number < limit { Some(number) } else { None }
}

/// A number with a `-` before a negative one. Takes no memory.
#[tactic(auto, unfolding(crate::specs::Kinds::signed_numeral))]
pub fn signed_in(word: &[u8], limit: u64) -> Option<i64>
    requires { limit ≤ 10 ^ 18 }
    ensures { result ≡ signed_numeral limit word.now }
{
    if let Some(b'-') = word.first() {
        let number = number_in(&word[1..], limit)?;
        return if number == 0 {
            None
        } else {
            Some(-(number as i64))
        };
    }
    let number = number_in(word, limit)?;
    Some(number as i64)
}

fn is_hex(digit: u8) -> bool
    ensures { result ≡ is_hex digit }
{
    (b'0' <= digit && digit <= b'9') || (b'a' <= digit && digit <= b'f')
}

fn hex_value(digit: u8) -> u8
    requires { IsTrue (is_hex digit) }
    ensures value { result ≡ hex_value digit }
    ensures small { result < 16 }
{
    if digit <= b'9' {
        digit - b'0'
    } else {
        digit - b'a' + 10
    }
}

/// The number of exactly so many hexadecimal digits.
#[tactic(auto, unfolding(crate::specs::Kinds::hex_number))]
pub(crate) fn hex_in(word: &[u8], digits: u8) -> Option<u64>
    requires { digits ≤ 15 }
    ensures value { result ≡ hex_number digits word.now }
    ensures small { IfSome result (λ n. n < 16 ^ digits) }
{
    if word.len() != digits as usize {
        return None;
    }
    let mut number: u64 = 0;
    for digit in word {
        if !is_hex(*digit) {
            return None;
        }
        number = number * 16 + u64::from(hex_value(*digit));
    }
    Some(number)
}

/// The number of as many hexadecimal digits as one count or another, and whether it is the other. Takes no memory.
pub fn hex_or_in(word: &[u8], few: u8, many: u8) -> Option<(bool, u64)>
    requires { (few ≤ many) × (many ≤ 15) }
    ensures value { result ≡ read (hexed_or few many) word.now }
    ensures small { IfSome result (λ v. v.1 < 16 ^ many) }
{
    let wide = word.len() == many as usize;
    let digits = if wide { many } else { few };
    let number = hex_in(word, digits)?;
    Some((wide, number))
}

/// A number below a limit, or none where a dash stands.
pub(crate) fn number_or_dash_in(word: &[u8], limit: u64) -> Option<Option<u64>>
    ensures { result ≡ read (or_dash (number limit)) word.now }
{
    if b"-".as_slice() == word {
        return Some(None);
    }
    let number = number_in(word, limit)?;
    Some(Some(number))
}

/// A number below 256, or none where a dash stands.
pub(crate) fn byte_or_dash_in(word: &[u8]) -> Option<Option<u8>>
    ensures { result ≡ read (or_dash (number 256)) word.now }
{
    if b"-".as_slice() == word {
        return Some(None);
    }
    let number = number_in(word, 256)?;
    Some(Some(number as u8))
}

fn is_text(text: &str, word: &[u8]) -> bool
    ensures { result ≡ bytes_eq text.now word.now }
{
    text.as_bytes() == word
}

/// The place of a text.
#[tactic(auto, using(crate::proofs::Places::places))]
pub(crate) fn place_among(texts: &[&str], word: &[u8]) -> Option<usize>
    ensures value { result ≡ place_among (map (λ p. p.now) texts.now) word.now }
    ensures small { IfSome result (λ i. i < length texts.now) }
{
    for place in 0..texts.len() {
        if is_text(texts[place], word) {
            return Some(place);
        }
    }
    None
}

/// One of some texts, or a number behind a prefix.
pub(crate) fn named_in(texts: &[&str], prefix: &str, word: &[u8], limit: u64) -> Option<Named<u64>>
    ensures value { result ≡ read (named (map (λ p. p.now) texts.now) prefix.now (number limit)) word.now }
    ensures small { IfSome result (λ v. FitsNamed (length texts.now) limit v) }
{
    if let Some(place) = place_among(texts, word) {
        return Some(Named::Told(place));
    }
    let rest = behind_prefix(prefix.as_bytes(), word)?;
    let number = number_in(rest, limit)?;
    Some(Named::Other(number))
}

fn is_even(word: &[u8]) -> bool
    ensures { result ≡ is_even word.now }
{
    word.len() % 2 == 0
}

/// The bytes of hexadecimal digits, two for each, of at most so many.
#[tactic(auto, unfolding(crate::specs::Kinds::hex_payload))]
pub(crate) fn payload_in<const MOST: usize>(word: &[u8]) -> Option<Text<MOST>>
    ensures { result ≡ hex_payload MOST word.now }
{
    let count = word.len() / 2;
    if !is_even(word) || MOST < count {
        return None;
    }
    let mut bytes = Text::new();
    for i in 0..count {
        let (high, low) = (word[2 * i], word[2 * i + 1]);
        if !is_hex(high) || !is_hex(low) {
            return None;
        }
        bytes.put_bytes(&[16 * hex_value(high) + hex_value(low)]);
    }
    Some(bytes)
}
