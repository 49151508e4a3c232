//! The loads that a library was asked for.
ghost use Rattle.std.specs.Prelude.{◌≡◌, List, [], ◌∷◌, ◌++◌};
ghost use Rattle.std.specs.Borrow.{ftrue};
ghost use Rattle.ttp_base.specs.Outside.{Load};

use std::marker::Model;

/// The loads that a library was asked for so far, the first one first. Clauses alone read them: a
/// value takes no bytes, and its calls do nothing when the program runs.
#[derive(Drop)]
pub(crate) struct Asked {
    pub(crate) ghost loads: { List Load },
}

impl Model for Asked {
    ghost also_owns = { λ _. ftrue };
}

/// One load.
#[derive(Clone, Copy, Drop)]
pub(crate) struct Request<'a> {
    pub(crate) name: &'a str,
    pub(crate) limit: usize,
}

impl Asked {
    pub(crate) fn nothing() -> Asked
        ensures { result.loads ≡ [] }
    {
        Asked {}
    }

    pub(crate) fn and(_before: &Asked, _load: &Request<'_>) -> Asked
        ensures { result.loads
            ≡ _before.now.loads ++ record { name = _load.now.name.now; limit = _load.now.limit } ∷ [] }
    {
        Asked {}
    }
}
