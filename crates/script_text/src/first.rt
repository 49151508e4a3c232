//! The first word of a line, and the form that it names.
ghost use Rattle.std.specs.Prelude.{◌≡◌, ◌≤◌, ◌∷◌, true, false, length, slice_index, Some, IfSome};
ghost use Rattle.std.specs.List.{list_all};
ghost use Rattle.script_text.specs.declared.keyword.Keyword.TheVariants as keyword;
ghost use Rattle.script_text.specs.Lines.{is_blank, is_comment, is_part, words_of_line};
ghost use Rattle.script_text.specs.Statement.{keyword_of};
ghost use Rattle.script_text.specs.Words.{CutsWord};

use crate::form::{is_text, keyword_of};
use crate::keyword::Keyword;
use crate::lines::Cut;
use crate::words::{is_end, past_blanks, past_word, word_end};

/// The first word of a line, which has no bytes where the line has none, what follows it, and the form that it names.
#[derive(Clone, Copy)]
pub(crate) struct FirstWord<'a> {
    pub(crate) cut: Cut<'a>,
    pub(crate) form: Option<Keyword>,
}

// The word at the front of a line, where it is this text, which names this form.
#[inline(always)]
fn word_at_front<'a>(form: Keyword, text: &[u8], line: &'a [u8]) -> Option<FirstWord<'a>>
    requires some { 1 ≤ length text.now }
    requires word { list_all is_part text.now ≡ true }
    requires names { keyword_of text.now ≡ Some form }
    requires first { is_blank (slice_index line.now 0) ≡ false }
    ensures cut { IfSome result (λ first. CutsWord line.now first.cut.piece.now first.cut.rest.now) }
    ensures form { IfSome result (λ first. first.form ≡ keyword_of first.cut.piece.now) }
    ensures piece { IfSome result (λ first. first.cut.piece.now ≡ text.now) }
{
    let end = text.len();
    if line.len() < end {
        return None;
    }
    let piece = &line[..end];
    if !is_text(text, piece) || !is_end(line, end) {
        return None;
    }
    let rest = past_word(line, end);
    Some(FirstWord {
        cut: Cut { piece, rest },
        form: Some(form),
    })
}

// The word at the front of a line, where it is the text that names a form whose lines say what happens in slots.
#[inline(always)]
fn event_word(line: &[u8]) -> Option<FirstWord<'_>>
    requires { is_blank (slice_index line.now 0) ≡ false }
    ensures cut { IfSome result (λ first. CutsWord line.now first.cut.piece.now first.cut.rest.now) }
    ensures form { IfSome result (λ first. first.form ≡ keyword_of first.cut.piece.now) }
{
    match line.first() {
        Some(b's') => word_at_front(Keyword::Send, b"send", line),
        Some(b'r') => match word_at_front(Keyword::Receive, b"receive", line) {
            Some(first) => Some(first),
            None => word_at_front(Keyword::Read, b"read", line),
        },
        Some(b'f') => word_at_front(Keyword::Flip, b"flip", line),
        Some(b'e') => word_at_front(Keyword::Error, b"error", line),
        Some(b'j') => word_at_front(Keyword::Jump, b"jump", line),
        Some(b'a') => word_at_front(Keyword::Arm, b"arm", line),
        Some(b'w') => word_at_front(Keyword::Write, b"write", line),
        _ => None,
    }
}

// Any word at the front of a line.
#[inline(never)]
fn any_word(line: &[u8]) -> FirstWord<'_>
    requires { is_blank (slice_index line.now 0) ≡ false }
    ensures cut { CutsWord line.now result.cut.piece.now result.cut.rest.now }
    ensures form { result.form ≡ keyword_of result.cut.piece.now }
{
    let end = word_end(line, 0);
    let piece = &line[..end];
    FirstWord {
        cut: Cut {
            piece,
            rest: past_word(line, end),
        },
        form: keyword_of(piece),
    }
}

/// The first word of a line and what follows it, where that word is `error`.
#[inline(always)]
pub(crate) fn error_word(line: &[u8]) -> Option<Cut<'_>>
    ensures words { IfSome result (λ cut. words_of_line line.now ≡ cut.piece.now ∷ words_of_line cut.rest.now) }
    ensures form { IfSome result (λ cut. keyword_of cut.piece.now ≡ Some keyword.Error) }
    ensures told { IfSome result (λ cut. is_comment cut.piece.now ≡ false) }
{
    match word_at_front(Keyword::Error, b"error", past_blanks(line)) {
        Some(first) => Some(first.cut),
        None => None,
    }
}

/// The first word of a line. Those that most lines begin with are told by their bytes in place.
#[inline(always)]
pub(crate) fn first_word(line: &[u8]) -> FirstWord<'_>
    ensures cut { CutsWord line.now result.cut.piece.now result.cut.rest.now }
    ensures form { result.form ≡ keyword_of result.cut.piece.now }
{
    let line = past_blanks(line);
    match event_word(line) {
        Some(first) => first,
        None => any_word(line),
    }
}
