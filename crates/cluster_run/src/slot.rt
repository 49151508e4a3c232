//! A slot of all nodes.
ghost use Rattle.std.specs.Prelude.{◌≡◌, ◌+◌, IfOk, OnOk};
ghost use Rattle.ttp_world.specs.Script.{reads_in};
ghost use Rattle.ttp_world.specs.World.{Numbers};
ghost use Rattle.cluster_run.specs.Choosing.{AreBytesBefore};
ghost use Rattle.cluster_run.specs.Clusters.{AreClusterNodes};
ghost use Rattle.cluster_run.specs.Nodes.{AreNodesOf};
ghost use Rattle.cluster_run.specs.Slots.{NodesStandAt, AreReady, AllHaveEnded, MayEndSlot, IsSlotPlanned, IsSlotEnded};
ghost use Rattle.cluster_run.specs.Slots.{TellsReads, IsNextOf};
ghost use Rattle.cluster_run.specs.Standing.{nodes_view};

use crate::beside::end_and_read;
use crate::choosing::choose;
use crate::current::CurrentSlot;
use crate::ending::{Common, end_from};
use crate::nodes::Nodes;
use crate::reading::{lend_readers, read_lines};
use crate::reporting::node_lines;
use crate::staff::Hired;
use controller::{begin_all, plan_all};
use host_port::{NodeLine, ReadLine, SlotReport, WriteLine};
use std::sync::Wait;
use ttp_base::{Gate, List, Memory};
use ttp_world::HostRead;

// Controllers begin the slot, hosts write, and what is to be sent is planned and put on the medium. The
// lines of the writes are handed out.
fn plan<'b, 'a, R: Wait, G: Gate>(
    rt: &R,
    staff: &mut Option<Hired<'b, 'a>>,
    at: &CurrentSlot<'a>,
    nodes: &mut Nodes,
    gate: &G,
) -> Result<Vec<WriteLine>, Memory>
    requires nodes { AreClusterNodes at.now.list.now at.now.script.now at.now.slot nodes.old }
    requires bytes { AreBytesBefore at.now.list.now at.now.script.now at.now.slot }
    ensures { IfOk result (λ lines. IsSlotPlanned at.now nodes.old nodes.new lines.items) }
{
    let seats = nodes.seats.as_mut_slice();
    let chosen = nodes.chosen.as_mut_slice();
    begin_all(seats, at.list, at.script, 0, at.slot);
    let writes = choose(rt, staff, at, &mut nodes.host_ends, seats, chosen, gate)?;
    plan_all(
        seats,
        &mut nodes.medium,
        at.list,
        at.script,
        at.slot,
        chosen,
    );
    Ok(writes)
}

// Controllers end the slot, and no host reads in it.
fn end_unread<'a, G: Gate>(at: &CurrentSlot<'a>, nodes: &mut Nodes, gate: &G)
    requires { AreReady at.now nodes.old }
    ensures { AllHaveEnded at.now nodes.old nodes.new }
{
    let common = Common {
        list: at.list,
        script: at.script,
        medium: &nodes.medium,
    };
    end_from(0, &mut nodes.seats, &mut nodes.desks, &common, gate);
}

// Controllers end the slot, and hosts read in it. The lines of the reads are the answer.
fn end_read<'b, 'a, R: Wait, G: Gate>(
    rt: &R,
    staff: &mut Option<Hired<'b, 'a>>,
    at: &CurrentSlot<'a>,
    nodes: &mut Nodes,
    reads: &'a [HostRead],
    gate: &G,
) -> Result<List<ReadLine>, Memory>
    requires may { MayEndSlot at.now nodes.old }
    requires reads { reads.now ≡ reads_in at.now.script.now at.now.slot }
    ensures ends { OnOk result (IsSlotEnded at.now nodes.old nodes.new) }
    ensures tells { IfOk result (TellsReads at.now nodes.old nodes.new) }
{
    let lent = lend_readers(at.alloc, &mut nodes.desks, reads)?;
    let readers = end_and_read(rt, staff, at, nodes, lent, reads, gate)?;
    let lines = read_lines(at.alloc, &mut nodes.desks, readers, reads)?;
    Ok(lines)
}

// Controllers end the slot. Readers are lent only where a host reads.
fn end_slot<'b, 'a, R: Wait, G: Gate>(
    rt: &R,
    staff: &mut Option<Hired<'b, 'a>>,
    at: &CurrentSlot<'a>,
    nodes: &mut Nodes,
    gate: &G,
) -> Result<List<ReadLine>, Memory>
    requires { MayEndSlot at.now nodes.old }
    ensures ends { OnOk result (IsSlotEnded at.now nodes.old nodes.new) }
    ensures tells { IfOk result (TellsReads at.now nodes.old nodes.new) }
{
    let reads = at.script.reads(at.slot);
    if reads.is_empty() {
        end_unread(at, nodes, gate);
        return Ok(List::new(at.alloc));
    }
    end_read(rt, staff, at, nodes, reads, gate)
}

/// Takes all nodes through a slot, and answers its report, whose lines of nodes are written over `spare`.
pub(crate) fn slot_of<'b, 'a, R: Wait, G: Gate>(
    rt: &R,
    staff: &mut Option<Hired<'b, 'a>>,
    at: &CurrentSlot<'a>,
    nodes: &mut Nodes,
    spare: Vec<NodeLine>,
    gate: &G,
) -> Result<SlotReport, Memory>
    requires nodes { AreClusterNodes at.now.list.now at.now.script.now at.now.slot nodes.old }
    requires bytes { AreBytesBefore at.now.list.now at.now.script.now at.now.slot }
    ensures nodes { OnOk result (AreNodesOf at.now.list.now (at.now.slot + 1) nodes.new) }
    ensures bytes { OnOk result (AreBytesBefore at.now.list.now at.now.script.now (at.now.slot + 1)) }
    ensures steps { IfOk result (λ report. (numbers : Numbers)
        → NodesStandAt at.now.list.now at.now.script.now at.now.slot (nodes_view nodes.old) numbers
        → IsNextOf at.now.list.now at.now.script.now numbers (nodes_view nodes.new) report) }
{
    let writes = plan(rt, staff, at, nodes, gate)?;
    let reads = end_slot(rt, staff, at, nodes, gate)?;
    let lines = node_lines(at.alloc, spare, &nodes.seats, &nodes.desks)?;
    Ok(SlotReport {
        slot: at.slot,
        nodes: lines,
        writes: List::from_vec(writes),
        reads,
    })
}
