//! A text in pieces.
ghost use Rattle.std.specs.Prelude.{◌≡◌, ◌++◌, OnOk};
ghost use Rattle.check_words.specs.Pieces.{piece_text, pieces_text};

use crate::Text;
use crate::nodes::put_nodes;
use crate::shown::put_shown;
use ttp_base::{Memory, NodeSet};

/// A piece of a text.
#[derive(Clone, Copy)]
pub enum Piece<'a> {
    /// These words.
    Words(&'a str),
    /// A number, with a `-` before a negative one.
    Number(u64),
    Signed(i64),
    /// A word of a file, as it is shown.
    Shown(&'a [u8]),
    /// Nodes in their order, or `none`.
    Nodes(NodeSet),
}

fn put_piece(text: &mut Text, piece: &Piece<'_>) -> Result<(), Memory>
    ensures { OnOk result (text.new ≡ text.old ++ piece_text piece.now) }
{
    match piece {
        Piece::Words(words) => text.put(words),
        Piece::Number(number) => text.put_number(*number),
        Piece::Signed(number) => text.put_signed(*number),
        Piece::Shown(word) => put_shown(text, word),
        Piece::Nodes(nodes) => put_nodes(text, *nodes),
    }
}

/// Adds pieces, one behind the other.
///
/// # Errors
///
/// Where memory was refused; some of it may have been added.
pub fn put_pieces(text: &mut Text, pieces: &[Piece<'_>]) -> Result<(), Memory>
    ensures { OnOk result (text.new ≡ text.old ++ pieces_text pieces.now) }
{
    match pieces {
        [] => Ok(()),
        [piece] => put_piece(text, piece),
        [piece, rest @ ..] => {
            put_piece(text, piece)?;
            put_pieces(text, rest)
        }
    }
}
