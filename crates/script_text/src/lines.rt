//! A text cut into lines.
ghost use Rattle.std.specs.Prelude.{◌≡◌, ◌+◌, ◌<◌, ◌≤◌, [], ◌∷◌, length, take, drop, position, IfSome, IfNone};
ghost use Rattle.script_text.specs.Lines.{is_line_feed, is_blank, without_return, lines_of_file};

use memchr::memchr;

/// A first piece of a text, and what follows it.
#[derive(Clone, Copy)]
pub struct Cut<'a> {
    pub piece: &'a [u8],
    pub rest: &'a [u8],
}

/// Whether a byte stands between words.
pub fn is_blank(byte: u8) -> bool
    ensures { result ≡ is_blank byte }
{
    byte <= b' ' && (byte == b' ' || byte == b'\t')
}

// A line without the carriage return at its end, of which one is dropped.
fn without_return(line: &[u8]) -> &[u8]
    ensures line { result.now ≡ without_return line.now }
    ensures shorter { length result.now ≤ length line.now }
{
    match line.last() {
        Some(b'\r') => &line[..line.len() - 1],
        _ => line,
    }
}

// Where the first line of a text ends, if a line feed ends it.
#[tactic(auto, using(crate::proofs::Cuts::first_line_feed))]
fn line_end(text: &[u8]) -> Option<usize>
    ensures { result ≡ position is_line_feed text.now }
{
    memchr(b'\n', text)
}

/// A text cut at a place, without the byte there.
pub(crate) fn cut_at(text: &[u8], place: usize) -> Cut<'_>
    requires { place < length text.now }
    ensures piece { result.piece.now ≡ take place text.now }
    ensures rest { result.rest.now ≡ drop (place + 1) text.now }
{
    Cut {
        piece: &text[..place],
        rest: &text[place + 1..],
    }
}

/// The first line of a text, if it has one.
#[tactic(auto, using(crate::proofs::Cuts::cuts))]
pub fn next_line(text: &[u8]) -> Option<Cut<'_>>
    ensures none { IfNone result (lines_of_file text.now ≡ []) }
    ensures some { IfSome result (λ cut. lines_of_file text.now ≡ cut.piece.now ∷ lines_of_file cut.rest.now) }
    ensures shorter { IfSome result (λ cut. length cut.rest.now < length text.now) }
    ensures within { IfSome result (λ cut. length cut.piece.now ≤ length text.now) }
{
    if let Some(end) = line_end(text) {
        let Cut { piece, rest } = cut_at(text, end);
        return Some(Cut {
            piece: without_return(piece),
            rest,
        });
    }
    let last = without_return(text);
    if last.is_empty() {
        return None;
    }
    Some(Cut {
        piece: last,
        rest: &[],
    })
}
