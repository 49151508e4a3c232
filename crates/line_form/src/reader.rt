//! A line, read a word after another.
ghost use Rattle.std.specs.Prelude.{◌≡◌, ◌≤◌, ◌<◌, ◌^◌, ◌∷◌, [], ℕ, map, Option, Some, None, is_some, false, length, take, drop, cond, unwrap_or};
ghost use Rattle.line_form.specs.Kinds.{number, signed, hexed, hexed_or, one_of, or_dash, named, payload, front, back};
ghost use Rattle.line_form.specs.Forms.{field_value, past, is_end, closed_line, labelled, next_word, left_behind, FitsNamed};

use crate::named::Named;
use crate::words::{
    behind_prefix, byte_or_dash_in, hex_in, hex_or_in, named_in, number_in, number_or_dash_in,
    payload_in, place_among, signed_in, word_end,
};
use std::marker::Model;
use ttp_base::Text;

/// What is left of a line that is read, which is nothing once a word was none. Contracts see that.
#[derive(Drop)]
pub struct Reader<'a> {
    rest: &'a [u8],
    good: bool,
}

impl<'a> Model for Reader<'a> {
    ghost use Rattle.std.specs.Prelude.{List, ℕ, Option, Some, None, cond};

    ghost Value = { Option (List ℕ) };

    ghost view = { λ r. cond r.good (Some r.rest.now) None };
}

// Bytes from a place on.
fn from<'a>(bytes: &'a [u8], place: usize) -> &'a [u8]
    requires { place ≤ length bytes.now }
    ensures { result.now ≡ drop place bytes.now }
{
    &bytes[place..]
}

impl<'a> Reader<'a> {
    /// All of a line.
    pub fn of(bytes: &'a [u8]) -> Reader<'a>
        ensures { result ≡ Some bytes.now }
    {
        Reader {
            rest: bytes,
            good: true,
        }
    }

    /// A value, if all was read and nothing is left.
    #[tactic(auto, unfolding(crate::specs::Forms::closed_line))]
    pub fn close<T: Drop>(&self, value: T) -> Option<T>
        ensures { result ≡ closed_line self.now value }
    {
        if self.is_end() { Some(value) } else { None }
    }

    /// Whether all was read, and nothing is left.
    pub fn is_end(&self) -> bool
        ensures { result ≡ is_end self.now }
    {
        self.good && self.rest.is_empty()
    }

    // Goes behind a label, and gives the word there, up to the next space.
    #[tactic(auto, unfolding(crate::specs::Forms::labelled, crate::specs::Forms::next_word))]
    pub fn word(&mut self, label: &str) -> &'a [u8]
        ensures word { result.now ≡ next_word false (labelled label.now self.old) }
        ensures left { self.new ≡ labelled label.now self.old }
    {
        if !self.good {
            return &[];
        }
        match behind_prefix(label.as_bytes(), self.rest) {
            Some(rest) => {
                self.rest = rest;
                &rest[..word_end(rest)]
            }
            None => {
                self.good = false;
                &[]
            }
        }
    }

    // Goes behind that word, if it was read.
    #[tactic(auto, using(crate::proofs::Cuts::cuts), unfolding(crate::specs::Forms::next_word, crate::specs::Forms::left_behind))]
    pub fn behind(&mut self, word: &[u8], read: bool)
        requires { word.now ≡ next_word false self.old }
        ensures { self.new ≡ left_behind false read self.old }
    {
        if !self.good {
            return;
        }
        if !read {
            self.good = false;
            return;
        }
        self.rest = from(self.rest, word.len());
    }

    /// A number below a limit behind a label, and 0 where there is none.
    #[tactic(auto, unfolding(crate::specs::Forms::past, crate::specs::Forms::field_value))]
    pub fn number(&mut self, label: &str, limit: u64) -> u64
        requires { (0 < limit) × (limit ≤ 10 ^ 18) }
        ensures small { result < limit }
        ensures value { result ≡ field_value label.now (number limit) self.old }
        ensures left { self.new ≡ past label.now (number limit) self.old }
    {
        let word = self.word(label);
        let read = number_in(word, limit);
        self.behind(word, read.is_some());
        read.unwrap_or(0)
    }

    /// A number below 256.
    pub fn byte(&mut self, label: &str) -> u8
        ensures value { result ≡ field_value label.now (number 256) self.old }
        ensures left { self.new ≡ past label.now (number 256) self.old }
    {
        self.number(label, 256) as u8
    }

    /// A number below 256, or none where a dash stands.
    #[tactic(auto, unfolding(crate::specs::Forms::past, crate::specs::Forms::field_value))]
    pub fn byte_or_dash(&mut self, label: &str) -> Option<u8>
        ensures value { result ≡ field_value label.now (or_dash (number 256)) self.old }
        ensures left { self.new ≡ past label.now (or_dash (number 256)) self.old }
    {
        let word = self.word(label);
        let read = byte_or_dash_in(word);
        self.behind(word, read.is_some());
        read.unwrap_or(None)
    }

    #[tactic(auto, unfolding(crate::specs::Forms::past, crate::specs::Forms::field_value))]
    pub fn signed(&mut self, label: &str, limit: u64) -> i64
        requires { limit ≤ 10 ^ 18 }
        ensures value { result ≡ field_value label.now (signed limit) self.old }
        ensures left { self.new ≡ past label.now (signed limit) self.old }
    {
        let word = self.word(label);
        let read = signed_in(word, limit);
        self.behind(word, read.is_some());
        read.unwrap_or(0)
    }

    #[tactic(auto, unfolding(crate::specs::Forms::past, crate::specs::Forms::field_value))]
    pub fn hexed(&mut self, label: &str, digits: u8) -> u64
        requires { digits ≤ 15 }
        ensures small { result < 16 ^ digits }
        ensures value { result ≡ field_value label.now (hexed digits) self.old }
        ensures left { self.new ≡ past label.now (hexed digits) self.old }
    {
        let word = self.word(label);
        let read = hex_in(word, digits);
        self.behind(word, read.is_some());
        read.unwrap_or(0)
    }

    /// A number in as many hexadecimal digits as one count or another, and whether it is the other.
    #[tactic(auto, unfolding(crate::specs::Forms::past, crate::specs::Forms::field_value))]
    pub fn hexed_or(&mut self, label: &str, few: u8, many: u8) -> (bool, u64)
        requires { (few ≤ many) × (many ≤ 15) }
        ensures small { result.1 < 16 ^ many }
        ensures value { result ≡ field_value label.now (hexed_or few many) self.old }
        ensures left { self.new ≡ past label.now (hexed_or few many) self.old }
    {
        let word = self.word(label);
        let read = hex_or_in(word, few, many);
        self.behind(word, read.is_some());
        read.unwrap_or((false, 0))
    }

    #[tactic(auto, unfolding(crate::specs::Forms::past, crate::specs::Forms::field_value))]
    pub fn number_or_dash(&mut self, label: &str, limit: u64) -> Option<u64>
        requires { limit ≤ 10 ^ 18 }
        ensures value { result ≡ field_value label.now (or_dash (number limit)) self.old }
        ensures left { self.new ≡ past label.now (or_dash (number limit)) self.old }
    {
        let word = self.word(label);
        let read = number_or_dash_in(word, limit);
        self.behind(word, read.is_some());
        read.unwrap_or(None)
    }

    #[tactic(auto, unfolding(crate::specs::Forms::past, crate::specs::Forms::field_value))]
    pub fn one_of(&mut self, label: &str, texts: &[&str]) -> usize
        requires { 0 < length texts.now }
        ensures small { result < length texts.now }
        ensures value { result ≡ field_value label.now (one_of (map (λ p. p.now) texts.now)) self.old }
        ensures left { self.new ≡ past label.now (one_of (map (λ p. p.now) texts.now)) self.old }
    {
        let word = self.word(label);
        let read = place_among(texts, word);
        self.behind(word, read.is_some());
        read.unwrap_or(0)
    }

    #[tactic(auto, unfolding(crate::specs::Forms::past, crate::specs::Forms::field_value))]
    pub fn named(&mut self, label: &str, texts: &[&str], prefix: &str, limit: u64) -> Named<u64>
        requires { (0 < length texts.now) × (limit ≤ 10 ^ 18) }
        ensures small { FitsNamed (length texts.now) limit result }
        ensures value { result ≡ field_value label.now (named (map (λ p. p.now) texts.now) prefix.now (number limit)) self.old }
        ensures left { self.new ≡ past label.now (named (map (λ p. p.now) texts.now) prefix.now (number limit)) self.old }
    {
        let word = self.word(label);
        let read = named_in(texts, prefix, word, limit);
        self.behind(word, read.is_some());
        read.unwrap_or(Named::Told(0))
    }

    /// The bytes of hexadecimal digits, two for each, of at most so many, and none where there are none.
    #[tactic(auto, unfolding(crate::specs::Forms::past, crate::specs::Forms::field_value))]
    pub fn payload<const MOST: usize>(&mut self, label: &str) -> Text<MOST>
        ensures value { result ≡ field_value label.now (payload MOST) self.old }
        ensures left { self.new ≡ past label.now (payload MOST) self.old }
    {
        let word = self.word(label);
        let read = payload_in(word);
        self.behind(word, read.is_some());
        match read {
            Some(bytes) => bytes,
            None => Text::new(),
        }
    }
}
