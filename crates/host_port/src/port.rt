//! A port: its rings.
ghost use Rattle.std.specs.Prelude.{◌≡◌, ◌<◌, length, map, option_map, IfOk};
ghost use Rattle.ttp_world.specs.declared.script.Source.{Source};
ghost use Rattle.ttp_world.specs.declared.script.Source.TheVariants as source;
ghost use Rattle.ttp_world.specs.Medl.{IsValid};
ghost use Rattle.host_port.specs.Rings.{at_source, HasStatus, HaveBuffers, IsControllerEndOf, IsHostEndOf};
ghost use Rattle.host_port.specs.Rings.{IsNew, message_shape, incoming_shape};

use crate::ends::{ControllerEnd, HostEnd};
use nbw_ring::{Ring, Writer};
use std::alloc::Global;
use std::marker::Model;
use ttp_base::{List, Memory};
use ttp_world::Medl;

// The words of a status message.
const STATUS_WORDS: usize = 4;

/// The rings between a node's controller and its host, which threads share by reference.
///
/// Contracts see which node's it is, how many buffers its rings have, and which rings there are.
#[derive(Drop)]
pub struct Port {
    pub(crate) node: u8,
    pub(crate) buffers: u8,
    pub(crate) incoming: Vec<Option<Ring>>,
    pub(crate) outgoing: Option<Ring>,
}

impl Model for Port {
    ghost use Rattle.host_port.specs.Rings.{PortState};

    ghost Value = { PortState };

    ghost use Rattle.host_port.specs.Rings.{port_of, HaveBuffers};

    ghost view = { λ p. port_of p.node p.buffers p.incoming.items p.outgoing };

    ghost invariant = { λ p. HaveBuffers p.buffers p.incoming.items };
}

// The ring of a node's messages with its writer, if the node sends payload.
fn message_ring(alloc: Global, list: &Medl, k: u8) -> Result<(Option<Ring>, Option<Writer>), Memory>
    requires valid { IsValid list.now }
    requires node { k < length list.now.slots }
    ensures own { IfOk result (λ r. option_map (λ w. w.ring) r.1 ≡ r.0) }
    ensures writer { IfOk result (λ r. IsNew (message_shape list.now k) r.1) }
{
    let payload = list.slots.get(k as usize).payload as usize;
    if payload == 0 {
        return Ok((None, None));
    }
    let (ring, writer) = Ring::new(alloc, (payload + 7) / 8, list.buffers as usize)?;
    Ok((Some(ring), Some(writer)))
}

// The ring in which a node's host reads another node's messages.
fn sender_ring(
    alloc: Global,
    list: &Medl,
    node: u8,
    k: u8,
) -> Result<(Option<Ring>, Option<Writer>), Memory>
    requires valid { IsValid list.now }
    requires node { k < length list.now.slots }
    ensures own { IfOk result (λ r. option_map (λ w. w.ring) r.1 ≡ r.0) }
    ensures writer { IfOk result (λ r. IsNew (incoming_shape list.now node (source.Node k)) r.1) }
{
    if k == node {
        return Ok((None, None));
    }
    message_ring(alloc, list, k)
}

// The rings that a node's host reads, with their writers.
fn incoming_rings(
    alloc: Global,
    list: &Medl,
    node: u8,
) -> Result<(Vec<Option<Ring>>, Vec<Option<Writer>>), Memory>
    requires valid { IsValid list.now }
    ensures own { IfOk result (λ r. map (option_map (λ w. w.ring)) r.1.items ≡ r.0.items) }
    ensures status { IfOk result (λ r. HasStatus r.1.items) }
    ensures buffers { IfOk result (λ r. HaveBuffers list.now.buffers r.0.items) }
    ensures writers { IfOk result (λ r. (from : Source)
        → IsNew (incoming_shape list.now node from) (at_source r.1.items from)) }
{
    let mut rings = List::new(alloc);
    let mut writers = List::new(alloc);
    let (ring, writer) = Ring::new(alloc, STATUS_WORDS, list.buffers as usize)?;
    rings.push(Some(ring))?;
    writers.push(Some(writer))?;
    for k in 0..list.nodes() {
        let (ring, writer) = sender_ring(alloc, list, node, k)?;
        rings.push(ring)?;
        writers.push(writer)?;
    }
    Ok((rings.into_vec(), writers.into_vec()))
}

impl Port {
    /// The port of a node of a list, with both its ends. Each ring has the message of zeros.
    ///
    /// It has a status ring of four words, a ring for each other node with payload, and an outgoing
    /// ring where the node itself has payload, each with the list's number of buffers. `Memory`
    /// where memory was refused.
    pub fn new(
        alloc: Global,
        list: &Medl,
        node: u8,
    ) -> Result<(Port, ControllerEnd, HostEnd), Memory>
        requires valid { IsValid list.now }
        requires node { node < length list.now.slots }
        ensures node { IfOk result (λ r. r.0.node ≡ node) }
        ensures buffers { IfOk result (λ r. r.0.buffers ≡ list.now.buffers) }
        ensures own { IfOk result (λ r. IsControllerEndOf r.0 r.1 × IsHostEndOf r.0 r.2) }
        ensures incoming { IfOk result (λ r. (from : Source)
            → IsNew (incoming_shape list.now node from) (at_source r.1 from)) }
        ensures outgoing { IfOk result (λ r. IsNew (message_shape list.now node) r.2) }
    {
        let (incoming, writers) = incoming_rings(alloc, list, node)?;
        let (outgoing, writer) = message_ring(alloc, list, node)?;
        Ok((
            Port {
                node,
                buffers: list.buffers,
                incoming,
                outgoing,
            },
            ControllerEnd { writers, alloc },
            HostEnd { writer },
        ))
    }
}
