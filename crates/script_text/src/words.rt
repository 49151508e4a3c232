//! A line cut into words.
ghost use Rattle.std.specs.Prelude.{◌≡◌, ◌<◌, ◌≤◌, ◌∷◌, true, false, length, take, drop, slice_index, position};
ghost use Rattle.std.specs.Prelude.{IfSome, IfNone, SomeIff, IsTrue, if◌then◌else◌};
ghost use Rattle.std.specs.List.{list_all};
ghost use Rattle.script_text.specs.Lines.{is_blank, is_part, has_bytes, words_of_line, word_at};
ghost use Rattle.script_text.specs.Numbers.{is_number, decimal_value, is_value, value_in};
ghost use Rattle.script_text.specs.Words.{FrontDigits, CutsWord};

use crate::lines::{Cut, cut_at, is_blank};
use crate::number::{Digits, decimal_value, front_digits, whole_number};
use std::marker::Model;

/// A word of a line, and the number that it is, if it is one. Contracts see it as its bytes.
#[derive(Drop)]
pub(crate) struct Word<'a> {
    text: &'a [u8],
    number: Option<u32>,
}

impl<'a> Model for Word<'a> {
    ghost use Rattle.std.specs.Prelude.{ℕ, List, SomeIff, IsTrue};
    ghost use Rattle.script_text.specs.Numbers.{is_number, decimal_value};

    ghost Value = { List ℕ };

    ghost view = { λ w. w.text.now };

    ghost invariant = { λ w. SomeIff w.number (IsTrue (is_number w.text.now)) (decimal_value w.text.now) };
}

impl<'a> Word<'a> {
    /// The bytes.
    pub(crate) fn text(&self) -> &'a [u8]
        ensures { result.now ≡ self.now }
    {
        self.text
    }

    /// The number that the word is.
    pub(crate) fn number(&self) -> Option<u32>
        ensures { SomeIff result (IsTrue (is_number self.now)) (decimal_value self.now) }
    {
        self.number
    }

    /// The number, with or without a `-` before it, that the word is.
    #[inline(always)]
    pub(crate) fn value(&self) -> Option<i64>
        ensures { SomeIff result (IsTrue (is_value self.now)) (value_in self.now) }
    {
        match self.text.first() {
            Some(b'-') => Some(-i64::from(decimal_value(&self.text[1..])?)),
            _ => Some(i64::from(self.number?)),
        }
    }

    /// Whether there is such a word.
    pub(crate) fn has_bytes(&self) -> bool
        ensures { result ≡ has_bytes self.now }
    {
        !self.text.is_empty()
    }

    // 1 for such a word, and else 0.
    fn count(&self) -> usize
        ensures { result ≡ (if has_bytes self.now then 1 else 0) }
    {
        if self.has_bytes() { 1 } else { 0 }
    }
}

// The first word of a line, which has no bytes where the line has none, and what follows it.
#[derive(Drop)]
struct WordCut<'a> {
    word: Word<'a>,
    rest: &'a [u8],
}

// Where the first word of a line begins, if it has one.
fn word_start(line: &[u8]) -> Option<usize>
    ensures { result ≡ position is_part line.now }
{
    line.iter().position(|byte| !is_blank(*byte))
}

// How many blanks stand before the first word of a line.
#[inline(never)]
#[tactic(auto, using(crate::proofs::Cuts::cuts))]
fn blanks(line: &[u8]) -> usize
    ensures within { result ≤ length line.now }
    ensures first { is_blank (slice_index (drop result line.now) 0) ≡ false }
    ensures words { words_of_line (drop result line.now) ≡ words_of_line line.now }
{
    match word_start(line) {
        Some(start) => start,
        None => line.len(),
    }
}

/// A line from its first word on.
#[inline(always)]
pub(crate) fn past_blanks(line: &[u8]) -> &[u8]
    ensures first { is_blank (slice_index result.now 0) ≡ false }
    ensures words { words_of_line result.now ≡ words_of_line line.now }
{
    if line.is_empty() || b' ' < line[0] {
        return line;
    }
    &line[blanks(line)..]
}

/// Whether a word that has come to this place of a line ends there.
#[inline(always)]
pub(crate) fn is_end(line: &[u8], place: usize) -> bool
    requires { place ≤ length line.now }
    ensures { result ≡ true → place < length line.now → is_blank (slice_index line.now place) ≡ true }
{
    place == line.len() || is_blank(line[place])
}

/// Where the word at the front of a line ends, of which so many bytes are known.
#[inline(always)]
pub(crate) fn word_end(line: &[u8], known: usize) -> usize
    requires within { known ≤ length line.now }
    requires known { list_all is_part (take known line.now) ≡ true }
    ensures within { result ≤ length line.now }
    ensures more { known ≤ result }
    ensures word { list_all is_part (take result line.now) ≡ true }
    ensures end { result < length line.now → is_blank (slice_index line.now result) ≡ true }
{
    let mut end = known;
    while end < line.len() && !is_blank(line[end]) {
        end += 1;
    }
    end
}

/// What follows the word at the front of a line, which ends here.
#[inline(always)]
pub(crate) fn past_word(line: &[u8], end: usize) -> &[u8]
    requires first { is_blank (slice_index line.now 0) ≡ false }
    requires within { end ≤ length line.now }
    requires word { list_all is_part (take end line.now) ≡ true }
    requires end { end < length line.now → is_blank (slice_index line.now end) ≡ true }
    ensures { CutsWord line.now (take end line.now) result.now }
{
    if end == line.len() {
        return &[];
    }
    cut_at(line, end).rest
}

// The word at the front of a line, which ends here and has these digits at its front.
#[inline(always)]
fn cut_word(line: &[u8], end: usize, digits: Digits) -> WordCut<'_>
    requires first { is_blank (slice_index line.now 0) ≡ false }
    requires digits { FrontDigits line.now digits.count digits.number }
    requires more { digits.count ≤ end }
    requires within { end ≤ length line.now }
    requires word { list_all is_part (take end line.now) ≡ true }
    requires end { end < length line.now → is_blank (slice_index line.now end) ≡ true }
    ensures { CutsWord line.now result.word result.rest.now }
{
    let text = &line[..end];
    let word = Word {
        text,
        number: whole_number(text, digits),
    };
    WordCut {
        word,
        rest: past_word(line, end),
    }
}

// The word at the front of a line.
#[inline(always)]
fn front_word(line: &[u8]) -> WordCut<'_>
    requires { is_blank (slice_index line.now 0) ≡ false }
    ensures { CutsWord line.now result.word result.rest.now }
{
    let digits = front_digits(line);
    if 0 < digits.count && is_end(line, digits.count) {
        return cut_word(line, digits.count, digits);
    }
    cut_word(line, word_end(line, digits.count), digits)
}

// The first word of a line.
#[inline(always)]
fn next_word(line: &[u8]) -> WordCut<'_>
    ensures { CutsWord line.now result.word result.rest.now }
{
    front_word(past_blanks(line))
}

// The word at the front of a line, and what follows it.
fn cut_front(line: &[u8]) -> Cut<'_>
    requires { is_blank (slice_index line.now 0) ≡ false }
    ensures { CutsWord line.now result.piece.now result.rest.now }
{
    let end = word_end(line, 0);
    Cut {
        piece: &line[..end],
        rest: past_word(line, end),
    }
}

/// The first word of a line, which has no bytes where the line has none, and what follows it.
pub fn cut_first_word(line: &[u8]) -> Cut<'_>
    ensures { CutsWord line.now result.piece.now result.rest.now }
{
    cut_front(past_blanks(line))
}

// The first word of a line, where it is a number.
#[inline(always)]
fn number_word(line: &[u8]) -> Option<WordCut<'_>>
    ensures { IfSome result (λ cut. CutsWord line.now cut.word cut.rest.now) }
{
    let line = past_blanks(line);
    let digits = front_digits(line);
    if digits.count == 0 || !is_end(line, digits.count) {
        return None;
    }
    Some(cut_word(line, digits.count, digits))
}

/// At most six words of a line, of which those behind the last have no bytes. Contracts see them as the list of words.
#[derive(Drop)]
pub(crate) struct Words<'a> {
    first: &'a [u8],
    second: Word<'a>,
    third: Word<'a>,
    fourth: Word<'a>,
    fifth: Word<'a>,
    sixth: Word<'a>,
}

impl<'a> Model for Words<'a> {
    ghost use Rattle.std.specs.Prelude.{ℕ, List, [], ◌∷◌};
    ghost use Rattle.script_text.specs.Words.{held, AreHeld};

    ghost Value = { List (List ℕ) };

    ghost view = { λ w. w.first.now ∷ held (w.second ∷ w.third ∷ w.fourth ∷ w.fifth ∷ w.sixth ∷ []) };

    ghost invariant = { λ w. AreHeld (w.second ∷ w.third ∷ w.fourth ∷ w.fifth ∷ w.sixth ∷ []) };
}

impl<'a> Words<'a> {
    /// How many words there are.
    #[inline(always)]
    pub(crate) fn len(&self) -> usize
        ensures { result ≡ length self.now }
    {
        1 + self.second.count()
            + self.third.count()
            + self.fourth.count()
            + self.fifth.count()
            + self.sixth.count()
    }

    /// The word at a place after the first, which has no bytes where there is none.
    #[inline(always)]
    pub(crate) fn at(&self, i: usize) -> &Word<'a>
        requires low { 1 ≤ i }
        requires high { i ≤ 5 }
        ensures { result.now ≡ word_at self.now i }
    {
        match i {
            1 => &self.second,
            2 => &self.third,
            3 => &self.fourth,
            4 => &self.fifth,
            _ => &self.sixth,
        }
    }
}

/// All words of a line, of which the first was cut off. `None` where there are more than six.
#[inline(always)]
pub(crate) fn words_after(first: Cut<'_>) -> Option<Words<'_>>
    ensures some { IfSome result (λ words. words ≡ first.entry.piece.now ∷ words_of_line first.entry.rest.now) }
    ensures none { IfNone result (6 < length (first.entry.piece.now ∷ words_of_line first.entry.rest.now)) }
{
    let second = next_word(first.rest);
    let third = next_word(second.rest);
    let fourth = next_word(third.rest);
    let fifth = next_word(fourth.rest);
    let sixth = next_word(fifth.rest);
    if next_word(sixth.rest).word.has_bytes() {
        return None;
    }
    Some(Words {
        first: first.piece,
        second: second.word,
        third: third.word,
        fourth: fourth.word,
        fifth: fifth.word,
        sixth: sixth.word,
    })
}

/// All words of a line, of which the first was cut off, where four follow and all but the second of these are numbers.
#[inline(always)]
pub(crate) fn error_words_after(first: Cut<'_>) -> Option<Words<'_>>
    ensures { IfSome result (λ words. words ≡ first.entry.piece.now ∷ words_of_line first.entry.rest.now) }
{
    let Some(second) = number_word(first.rest) else {
        return None;
    };
    let third = next_word(second.rest);
    let Some(fourth) = number_word(third.rest) else {
        return None;
    };
    let Some(fifth) = number_word(fourth.rest) else {
        return None;
    };
    let sixth = next_word(fifth.rest);
    if sixth.word.has_bytes() {
        return None;
    }
    Some(Words {
        first: first.piece,
        second: second.word,
        third: third.word,
        fourth: fourth.word,
        fifth: fifth.word,
        sixth: sixth.word,
    })
}
