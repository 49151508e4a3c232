//! What a ring shares with its writer and its readers.

use crate::steps::Words;
use crate::view::Shape;
use std::alloc::Global;
use std::marker::Model;

/// The words of a ring. The ring, its writer and each of its readers hold them.
#[derive(Drop)]
pub(crate) struct RingWords {
    pub(crate) table: Words,
    pub(crate) shape: Shape,
    pub(crate) alloc: Global,
}

impl Model for RingWords {
    ghost use Rattle.nbw_ring.specs.States.{RingState};

    ghost Value = { RingState };

    ghost use Rattle.nbw_ring.specs.Seats.{ring_of, IsTableOf};

    ghost view = { λ r. ring_of r.table.shared.table_id r.shape };

    ghost invariant = { λ r. IsTableOf r.shape r.table.shared.key r.table.shared.table_id };
}
