//! The rule of the table, and what each step tells.
ghost use Rattle.std.specs.Prelude.{None, ◌≡◌};
ghost use Rattle.errand.specs.declared.note.Role.TheVariants.{Alone, Fresh, Works};
ghost use Rattle.errand.specs.Turns.{note, Turns, fetched, began, asked, looked, took, brought, gave, stopped};

use crate::note::Note;
use atomic_table::{Play, Shared, Split, TableRule};
use std::marker::PhantomData;

/// Work on a job: `needs` is what it asks of a job, and `does` holds between the job as it was given and as it
/// comes back. Whoever serves brings the work itself.
pub trait Errand<J> {
    ghost needs: { J → Type 0 };

    ghost does: { J → J → Type 0 };
}

/// The rule of a table for jobs of one errand.
pub struct ByTurns<D> {
    errand: PhantomData<D>,
}

impl<J, D: Errand<J>> TableRule<Option<J>, Note<J>, ()> for ByTurns<D> {
    ghost holds = { λ _. Turns D.needs D.does };

    ghost first = { λ _. note Alone None };
}

/// What both ends share.
pub type Board<J, D> = Shared<Option<J>, Note<J>, (), ByTurns<D>>;

pub(crate) struct Hire;

impl<J> Split<Note<J>> for Hire {
    ghost left = { λ v. note Fresh None };

    ghost right = { λ v. note Works None };
}

pub(crate) struct Begin;

impl<J> Play<Option<J>, Note<J>> for Begin {
    ghost then = { λ s m n m'. began m' };
}

pub(crate) struct Ask;

impl<J> Play<Option<J>, Note<J>> for Ask {
    ghost then = { λ s m n m'. asked m m' };
}

pub(crate) struct Fetch<D> {
    errand: PhantomData<D>,
}

impl<J, D: Errand<J>> Play<Option<J>, Note<J>> for Fetch<D> {
    ghost then = { λ s m n m'. fetched D.needs D.does m n m' };
}

pub(crate) struct Back<D> {
    errand: PhantomData<D>,
}

impl<J, D: Errand<J>> Play<Option<J>, Note<J>> for Back<D> {
    ghost then = { λ s m n m'. brought D.needs D.does m n m' };
}

pub(crate) struct Look;

impl<J> Play<Option<J>, Note<J>> for Look {
    ghost then = { λ s m n m'. looked m n m' };
}

pub(crate) struct Take<D> {
    errand: PhantomData<D>,
}

impl<J, D: Errand<J>> Play<Option<J>, Note<J>> for Take<D> {
    ghost then = { λ s m n m'. took D.needs D.does m n m' };
}

pub(crate) struct Give;

impl<J> Play<Option<J>, Note<J>> for Give {
    ghost then = { λ s m n m'. gave m' };
}

pub(crate) struct Stop;

impl<J> Play<Option<J>, Note<J>> for Stop {
    ghost then = { λ s m n m'. stopped m' };
}

pub(crate) struct Same;

impl<J> Play<Option<J>, Note<J>> for Same {
    ghost then = { λ s m n m'. m' ≡ m };
}
