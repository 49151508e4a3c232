//! The two ends of a port.

use nbw_ring::Writer;
use std::alloc::Global;
use std::marker::Model;

/// A controller's end of its port: it alone writes the rings that the host reads.
///
/// Contracts see the writer of each of these rings, at the place of its source. The status ring is there.
#[derive(Drop)]
pub struct ControllerEnd {
    pub(crate) writers: Vec<Option<Writer>>,
    pub(crate) alloc: Global,
}

impl Model for ControllerEnd {
    ghost use Rattle.host_port.specs.Rings.{ControllerState, HasStatus};

    ghost Value = { ControllerState };

    ghost view = { λ end. end.writers.items };

    ghost invariant = { λ end. HasStatus end.writers.items };
}

/// A host's end of its node's port: it alone writes the outgoing ring, if there is one.
///
/// Contracts see the writer of that ring.
#[derive(Drop)]
pub struct HostEnd {
    pub(crate) writer: Option<Writer>,
}

impl Model for HostEnd {
    ghost use Rattle.host_port.specs.Rings.{HostState};

    ghost Value = { HostState };

    ghost view = { λ end. end.writer };
}
