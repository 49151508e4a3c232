//! How the nodes of a cluster are made: all memory but that of a slot's readers, fetchers and report.
ghost use Rattle.std.specs.Prelude.{◌≡◌, length, IfOk};
ghost use Rattle.ttp_world.specs.Medl.{IsValid};
ghost use Rattle.cluster_run.specs.Ends.{AreNewEnds, desk_ends};
ghost use Rattle.cluster_run.specs.Nodes.{AreNewNodes};

use crate::nodes::{Desk, Nodes};
use controller::seats_of;
use host_port::{HostEnd, Port};
use medium::Medium;
use std::alloc::Global;
use ttp_base::{List, Memory};
use ttp_world::{Chosen, Medl, PAYLOAD_LIMIT, Payload};

// A desk for each node of a list, and its host's end. Both ends keep their rings, so that no port is kept.
fn desks_of(alloc: Global, list: &Medl) -> Result<(Vec<Desk>, Vec<HostEnd>), Memory>
    requires { IsValid list.now }
    ensures desks { IfOk result (λ r. length r.0.items ≡ length list.now.slots) }
    ensures host_ends { IfOk result (λ r. length r.1.items ≡ length list.now.slots) }
    ensures new { IfOk result (λ r. AreNewEnds list.now (length list.now.slots) (desk_ends r.0.items) r.1.items) }
{
    let mut desks = List::new(alloc);
    let mut host_ends = List::new(alloc);
    for k in 0..list.nodes() {
        let (_, end, host_end) = Port::new(alloc, list, k)?;
        desks.push(Desk {
            end,
            delivered: None,
        })?;
        host_ends.push(host_end)?;
    }
    Ok((desks.into_vec(), host_ends.into_vec()))
}

// A place for the message in each node's frame.
fn nothing_chosen(alloc: Global, list: &Medl) -> Result<Vec<Chosen>, Memory>
    requires { IsValid list.now }
    ensures { IfOk result (λ chosen. length chosen.items ≡ length list.now.slots) }
{
    let mut chosen = List::new(alloc);
    for _ in 0..list.nodes() {
        let payload = Payload {
            len: 0,
            bytes: [0; PAYLOAD_LIMIT],
        };
        chosen.push(Chosen { number: 0, payload })?;
    }
    Ok(chosen.into_vec())
}

/// The nodes of a list before the first slot.
pub(crate) fn nodes_of(alloc: Global, list: &Medl) -> Result<Nodes, Memory>
    requires { IsValid list.now }
    ensures { IfOk result (AreNewNodes list.now) }
{
    let (desks, host_ends) = desks_of(alloc, list)?;
    Ok(Nodes {
        medium: Medium::new(alloc, list)?,
        seats: seats_of(alloc, list)?,
        chosen: nothing_chosen(alloc, list)?,
        desks,
        host_ends,
    })
}
