//! The check word of bytes that come in pieces.
ghost use Rattle.std.specs.Prelude.{◌≡◌, ℕ, ◌^◌, ◌<◌, List, [], ◌∷◌, ◌++◌};
ghost use Rattle.ttp_world.specs.CheckWord.{check_word};
ghost use Rattle.ttp_frame.specs.StandsFor.{CheckStandsFor};

use crate::check_word::table::word_of;
use std::marker::Model;

/// The check word of bytes that come in pieces.
///
/// It stands for a start and all bytes that it was fed since, and contracts see it as the word of
/// these. It is one word of 32 bits: a copy stands for the same, and goes on by itself.
#[derive(Clone, Copy, PartialEq, Eq)]
pub struct Check {
    word: u32,
}

impl Model for Check {
    ghost use Rattle.std.specs.Prelude.{ℕ, ◌<◌, ◌^◌};

    ghost Value = { ℕ };

    ghost view = { λ c. c.word };

    ghost invariant = { λ c. c.word < 2 ^ 24 };

    ghost inverse = { λ word. record { word = word } };
}

// The word after one byte more.
fn next_word(word: u32, byte: u8) -> u32
    requires { word < 2 ^ 24 }
    ensures fits { result < 2 ^ 24 }
    ensures value { result ≡ check_word word (byte ∷ []) }
{
    let front = (word >> 16) as u8;
    ((word << 8) & 0xff_ffff) ^ word_of(front ^ byte)
}

// The word after these bytes more.
fn word_after(word: u32, bytes: &[u8]) -> u32
    requires { word < 2 ^ 24 }
    ensures fits { result < 2 ^ 24 }
    ensures value { result ≡ check_word word bytes.now }
{
    let mut word = word;
    for byte in bytes {
        word = next_word(word, *byte);
    }
    word
}

impl Check {
    /// A check that was fed nothing yet. The start is a number below 2^24, and is the word until then.
    pub fn new(start: u32) -> Check
        requires { start < 2 ^ 24 }
        ensures stands { CheckStandsFor result start [] }
        ensures value { result ≡ start }
    {
        Check { word: start }
    }

    /// Takes more bytes behind those before. It costs one table step for each byte.
    pub fn feed(&mut self, bytes: &[u8])
        ensures stands { (start : ℕ) (fed : List ℕ)
            → CheckStandsFor self.old start fed → CheckStandsFor self.new start (fed ++ bytes.now) }
        ensures value { self.new ≡ check_word self.old bytes.now }
    {
        self.word = word_after(self.word, bytes);
    }

    /// The check word of all bytes so far: a number below 2^24. A frame carries it in three bytes, the
    /// most significant first.
    pub fn word(&self) -> u32
        ensures fits { result < 2 ^ 24 }
        ensures value { result ≡ self.now }
    {
        self.word
    }
}
