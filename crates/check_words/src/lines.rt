//! Lines of the output: a place, and what is said of it.
ghost use Rattle.std.specs.Prelude.{◌≡◌, ◌++◌, OnOk};
ghost use Rattle.check_words.specs.Lines.{file_place, counts_text, last_line};

use crate::Text;
use crate::pieces::{Piece, put_pieces};
use ttp_base::Memory;

/// A byte of a file by its line and its column, both counted from 1.
#[derive(Clone, Copy, PartialEq, Eq)]
pub struct Place {
    pub line: usize,
    pub column: usize,
}

/// Adds a place of a file of this name.
///
/// # Errors
///
/// As of the other function, where memory was refused; some of it may have been added.
pub fn put_place(text: &mut Text, name: &[u8], place: Place) -> Result<(), Memory>
    ensures { OnOk result (text.new ≡ text.old ++ file_place name.now place) }
{
    text.put_bytes(name)?;
    let pieces = [
        Piece::Words(":"),
        Piece::Number(place.line as u64),
        Piece::Words(":"),
        Piece::Number(place.column as u64),
        Piece::Words(": "),
    ];
    put_pieces(text, &pieces)
}

// Adds how many errors and warnings there are.
fn put_counts(text: &mut Text, errors: u64, warnings: u64) -> Result<(), Memory>
    ensures { OnOk result (text.new ≡ text.old ++ counts_text errors warnings) }
{
    let pieces = [
        Piece::Words("errors "),
        Piece::Number(errors),
        Piece::Words(" warnings "),
        Piece::Number(warnings),
        Piece::Words(" "),
    ];
    put_pieces(text, &pieces)
}

/// Adds the last line: how many errors and warnings there are, and the line that the test answers.
#[tactic(auto, unfolding(crate::specs::Lines::last_line))]
pub fn put_last(text: &mut Text, errors: u64, warnings: u64, answer: &[u8]) -> Result<(), Memory>
    ensures { OnOk result (text.new ≡ text.old ++ last_line errors warnings answer.now) }
{
    put_counts(text, errors, warnings)?;
    text.put_bytes(answer)
}
