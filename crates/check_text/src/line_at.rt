//! The lines of a text by their numbers.
ghost use Rattle.std.specs.Prelude.{◌≡◌, ◌<◌, ◌≤◌, ℕ, List};
ghost use Rattle.script_text.specs.Lines.{lines_of_file};
ghost use Rattle.check_text.specs.At.{IsLineAt};
ghost use Rattle.check_text.specs.Lines.{line_numbered};

use script_text::next_line;

/// A line of a text, with its number, counted from 1, and what follows it. Before the first line the number is 0.
#[derive(Clone, Copy)]
pub(crate) struct LineAt<'a> {
    pub(crate) number: u32,
    pub(crate) piece: &'a [u8],
    pub(crate) rest: &'a [u8],
}

/// Before the first line of a text.
pub(crate) fn before_lines(text: &[u8]) -> LineAt<'_>
    ensures at { IsLineAt text.now result }
    ensures first { result.number ≡ 0 }
{
    LineAt {
        number: 0,
        piece: &[],
        rest: text,
    }
}

// The line behind one, and for the lines past the last one of this number.
fn line_behind(at: LineAt<'_>, number: u32) -> LineAt<'_>
    requires { at.number < number }
    ensures at { (text : List ℕ) → IsLineAt text at.entry → IsLineAt text result }
    ensures nearer { at.entry.number < result.number }
    ensures within { result.number ≤ number }
{
    match next_line(at.rest) {
        Some(line) => LineAt {
            number: at.number + 1,
            piece: line.piece,
            rest: line.rest,
        },
        None => LineAt {
            number,
            piece: &[],
            rest: at.rest,
        },
    }
}

// Where to begin for the line of a number: at a line that is not past it, or else before the first.
fn not_past<'a>(text: &'a [u8], at: LineAt<'a>, number: u32) -> LineAt<'a>
    requires { IsLineAt text.now at }
    ensures at { IsLineAt text.now result }
    ensures within { result.number ≤ number }
{
    if number < at.number {
        before_lines(text)
    } else {
        at
    }
}

/// The line of a number: forward from a line of the text, or else from its front. Past the last line it is empty.
pub(crate) fn line_from<'a>(text: &'a [u8], at: LineAt<'a>, number: u32) -> LineAt<'a>
    requires { IsLineAt text.now at }
    ensures at { IsLineAt text.now result }
    ensures piece { result.piece.now ≡ line_numbered (lines_of_file text.now) number }
{
    let mut at = not_past(text, at, number);
    while at.number < number {
        at = line_behind(at, number);
    }
    at
}
