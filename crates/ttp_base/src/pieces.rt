//! The pieces that a sink took.
ghost use Rattle.std.specs.Prelude.{◌≡◌, ℕ, List, [], ◌∷◌, ◌++◌};
ghost use Rattle.std.specs.Borrow.{ftrue};

use std::marker::Model;

/// The pieces that a sink took whole so far, the first one first. Clauses alone read them: a value
/// takes no bytes, and its calls do nothing when the program runs.
#[derive(Drop)]
pub(crate) struct Pieces {
    pub(crate) ghost given: { List (List ℕ) },
}

impl Model for Pieces {
    ghost also_owns = { λ _. ftrue };
}

/// One piece.
#[derive(Clone, Copy, Drop)]
pub(crate) struct Piece<'a> {
    pub(crate) bytes: &'a [u8],
}

impl Pieces {
    pub(crate) fn nothing() -> Pieces
        ensures { result.given ≡ [] }
    {
        Pieces {}
    }

    pub(crate) fn and(_before: &Pieces, _piece: &Piece<'_>) -> Pieces
        ensures { result.given ≡ _before.now.given ++ _piece.now.bytes.now ∷ [] }
    {
        Pieces {}
    }
}
