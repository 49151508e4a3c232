//! Lines, written a word after another.
ghost use Rattle.std.specs.Prelude.{◌≡◌, ℕ, ◌+◌, ◌*◌, ◌^◌, ◌<◌, ◌≤◌, [], ◌++◌, length, map, get_or, decimal};
ghost use Rattle.std.specs.Fmt.{signed_decimal};
ghost use Rattle.ttp_base.specs.Text.{hex, hex_bytes};
ghost use Rattle.line_form.specs.Kinds.{spell, number, or_dash, named, commas, joined_by, comma_before, longest_of};
ghost use Rattle.line_form.specs.Forms.{worded};

use crate::named::Named;
use ttp_base::Text;

/// A number behind a label.
#[tactic(auto, using(ttp_base::proofs::Room::room), unfolding(crate::specs::Forms::worded))]
#[inline(always)]
pub fn put_number<const ROOM: usize>(line: &mut Text<ROOM>, label: &str, n: u64)
    requires { length line.old + length label.now + 20 ≤ ROOM }
    ensures text { line.new ≡ worded line.old label.now (decimal n) }
    ensures short { length line.new ≤ length line.old + length label.now + 20 }
{
    line.put_text(label);
    line.put_number(n);
}

#[tactic(auto, using(ttp_base::proofs::Room::room), unfolding(crate::specs::Forms::worded))]
#[inline(always)]
pub fn put_signed<const ROOM: usize>(line: &mut Text<ROOM>, label: &str, z: i64)
    requires { length line.old + length label.now + 20 ≤ ROOM }
    ensures text { line.new ≡ worded line.old label.now (signed_decimal z) }
    ensures short { length line.new ≤ length line.old + length label.now + 20 }
{
    line.put_text(label);
    line.put_signed(z);
}

#[tactic(auto, using(ttp_base::proofs::Room::room), unfolding(crate::specs::Forms::worded))]
#[inline(always)]
pub fn put_hexed<const ROOM: usize>(line: &mut Text<ROOM>, label: &str, v: u64, digits: u8)
    requires count { (1 ≤ digits) × (digits ≤ 16) }
    requires value { v < 16 ^ digits }
    requires room { length line.old + length label.now + 16 ≤ ROOM }
    ensures text { line.new ≡ worded line.old label.now (hex digits v) }
    ensures short { length line.new ≤ length line.old + length label.now + 16 }
{
    line.put_text(label);
    line.put_hex(v, digits);
}

#[tactic(auto, using(ttp_base::proofs::Room::room), unfolding(crate::specs::Forms::worded))]
#[inline(always)]
pub fn put_number_or_dash<const ROOM: usize>(line: &mut Text<ROOM>, label: &str, n: Option<u64>)
    requires { length line.old + length label.now + 20 ≤ ROOM }
    ensures text { line.new ≡ worded line.old label.now (spell (or_dash (number 0)) n) }
    ensures short { length line.new ≤ length line.old + length label.now + 20 }
{
    line.put_text(label);
    match n {
        Some(n) => line.put_number(n),
        None => line.put_text("-"),
    }
}

#[tactic(auto, using(ttp_base::proofs::Room::room), unfolding(crate::specs::Forms::worded))]
#[inline(always)]
pub fn put_byte_or_dash<const ROOM: usize>(line: &mut Text<ROOM>, label: &str, n: Option<u8>)
    requires { length line.old + length label.now + 20 ≤ ROOM }
    ensures text { line.new ≡ worded line.old label.now (spell (or_dash (number 0)) n) }
    ensures short { length line.new ≤ length line.old + length label.now + 20 }
{
    line.put_text(label);
    match n {
        Some(n) => line.put_number(n as u64),
        None => line.put_text("-"),
    }
}

#[tactic(auto, using(ttp_base::proofs::Room::room), unfolding(crate::specs::Forms::worded))]
#[inline(always)]
pub fn put_word<const ROOM: usize>(line: &mut Text<ROOM>, label: &str, word: &str)
    requires { length line.old + length label.now + length word.now ≤ ROOM }
    ensures text { line.new ≡ worded line.old label.now word.now }
    ensures short { length line.new ≤ length line.old + length label.now + length word.now }
{
    line.put_text(label);
    line.put_text(word);
}

/// One of some texts, or a number behind a prefix.
#[tactic(auto, using(ttp_base::proofs::Room::room), unfolding(crate::specs::Forms::worded))]
pub fn put_named<const ROOM: usize>(
    line: &mut Text<ROOM>,
    label: &str,
    texts: &[&str],
    prefix: &str,
    v: Named<u64>,
)
    requires room { length line.old + length label.now + 40 ≤ ROOM }
    requires texts { longest_of (map (λ p. p.now) texts.now) ≤ 20 }
    requires prefix { length prefix.now ≤ 20 }
    ensures text { line.new ≡ worded line.old label.now
        (spell (named (map (λ p. p.now) texts.now) prefix.now (number 0)) v) }
    ensures short { length line.new ≤ length line.old + length label.now + 40 }
{
    line.put_text(label);
    match v {
        Named::Told(place) => line.put_text(text_at(texts, place)),
        Named::Other(n) => {
            line.put_text(prefix);
            line.put_number(n);
        }
    }
}

// The text at a place, and none past the last.
#[tactic(auto, using(crate::proofs::Places::texts_at))]
fn text_at<'a>(texts: &[&'a str], place: usize) -> &'a str
    ensures text { result.now ≡ get_or (map (λ p. p.now) texts.now) place [] }
    ensures short { length result.now ≤ longest_of (map (λ p. p.now) texts.now) }
{
    if place < texts.len() {
        texts[place]
    } else {
        ""
    }
}

/// Two hexadecimal digits for each byte.
#[tactic(auto, using(ttp_base::proofs::Room::room), unfolding(crate::specs::Forms::worded))]
pub fn put_payload<const ROOM: usize>(line: &mut Text<ROOM>, label: &str, bytes: &[u8])
    requires { length line.old + length label.now + 2 * length bytes.now ≤ ROOM }
    ensures text { line.new ≡ worded line.old label.now (hex_bytes bytes.now) }
    ensures short { length line.new ≤ length line.old + length label.now + 2 * length bytes.now }
{
    line.put_text(label);
    line.put_hex_bytes(bytes);
}

/// Bytes as they are, which are the rest of a line.
#[tactic(auto, using(ttp_base::proofs::Room::room), unfolding(crate::specs::Forms::worded))]
pub fn put_rest<const ROOM: usize>(line: &mut Text<ROOM>, label: &str, rest: &[u8])
    requires { length line.old + length label.now + length rest.now ≤ ROOM }
    ensures text { line.new ≡ worded line.old label.now rest.now }
    ensures short { length line.new ≤ length line.old + length label.now + length rest.now }
{
    line.put_text(label);
    line.put_bytes(rest);
}

// A comma, unless the word of this place is the first.
fn put_comma<const ROOM: usize>(line: &mut Text<ROOM>, place: usize)
    requires { length line.old + 1 ≤ ROOM }
    ensures text { line.new ≡ line.old ++ comma_before place }
    ensures short { length line.new ≤ length line.old + 1 }
{
    if place != 0 {
        line.put_text(",");
    }
}

// Numbers with commas between them.
#[tactic(auto, using(ttp_base::proofs::Room::room))]
fn put_joined<const ROOM: usize>(line: &mut Text<ROOM>, numbers: &[u8])
    requires { length line.old + 4 * length numbers.now ≤ ROOM }
    ensures text { line.new ≡ line.old ++ joined_by 44 (map (spell (number 0)) numbers.now) }
    ensures short { length line.new ≤ length line.old + 4 * length numbers.now }
{
    for place in 0..numbers.len() {
        put_comma(line, place);
        line.put_number(numbers[place] as u64);
    }
}

/// Numbers with commas between them, or a dash where there are none.
#[tactic(auto, using(ttp_base::proofs::Room::room, crate::proofs::Lists::lists), unfolding(crate::specs::Forms::worded))]
pub fn put_numbers<const ROOM: usize>(line: &mut Text<ROOM>, label: &str, numbers: &[u8])
    requires { length line.old + length label.now + 1 + 4 * length numbers.now ≤ ROOM }
    ensures text { line.new ≡ worded line.old label.now (spell (commas 0 (number 0)) numbers.now) }
    ensures short { length line.new ≤ length line.old + length label.now + 1 + 4 * length numbers.now }
{
    line.put_text(label);
    if numbers.is_empty() {
        line.put_text("-");
    } else {
        put_joined(line, numbers);
    }
}
