//! Both sides of a slot at work, one beside the other where workers are hired.
ghost use Rattle.std.specs.Prelude.{◌≡◌, ◌≤◌, length, IfOk, OnOk};
ghost use Rattle.std.specs.Arc.{arc_value};
ghost use Rattle.cluster_run.specs.Halves.{AreHalves, ArePutBack};
ghost use Rattle.cluster_run.specs.Jobs.{MayDo, HasDone};
ghost use Rattle.cluster_run.specs.Reading.{HaveRoomForReads, HaveRead};
ghost use Rattle.cluster_run.specs.Slots.{AreReady, AllHaveEnded};

use crate::current::CurrentSlot;
use crate::jobs::{EndJob, Job, do_job, part_of};
use crate::nodes::Nodes;
use crate::staff::{Hired, finish};
use host_port::HostReaders;
use medium::Medium;
use std::mem;
use std::sync::{Arc, Wait};
use ttp_base::{Gate, Memory};
use ttp_world::HostRead;

/// Does two jobs. The first one is for the hosts' worker; where nobody is hired, both are done here, one after the other.
pub(crate) fn do_both<'b, 'a, R: Wait, G: Gate>(
    rt: &R,
    staff: &mut Option<Hired<'b, 'a>>,
    given: Job<'a>,
    own: Job<'a>,
    gate: &G,
) -> (Job<'a>, Job<'a>)
    requires given { MayDo given }
    requires own { MayDo own }
    ensures given { HasDone given.entry result.0 }
    ensures own { HasDone own.entry result.1 }
{
    let Some(Hired { ends, hosts }) = staff.take() else {
        return (do_job(rt, given, gate), do_job(rt, own, gate));
    };
    let waiting = hosts.ask(given);
    if waiting.goes_first() {
        let (hosts, given) = finish(rt, waiting, gate);
        *staff = Some(Hired { ends, hosts });
        return (given, do_job(rt, own, gate));
    }
    let own = do_job(rt, own, gate);
    let (hosts, given) = finish(rt, waiting, gate);
    *staff = Some(Hired { ends, hosts });
    (given, own)
}

// Does the jobs of a slot's end. The first one is for the hosts' worker, and the second one for the other; where nobody
// is hired, all are done here, one after the other.
fn do_all<'b, 'a, R: Wait, G: Gate>(
    rt: &R,
    staff: &mut Option<Hired<'b, 'a>>,
    read: Job<'a>,
    back: Job<'a>,
    front: Job<'a>,
    gate: &G,
) -> (Job<'a>, (Job<'a>, Job<'a>))
    requires read { MayDo read }
    requires back { MayDo back }
    requires front { MayDo front }
    ensures read { HasDone read.entry result.0 }
    ensures back { HasDone back.entry result.1.0 }
    ensures front { HasDone front.entry result.1.1 }
{
    let Some(Hired { ends, hosts }) = staff.take() else {
        let read = do_job(rt, read, gate);
        return (read, (do_job(rt, back, gate), do_job(rt, front, gate)));
    };
    let reading = hosts.ask(read);
    let ending = ends.ask(back);
    if reading.goes_first() {
        let (hosts, read) = finish(rt, reading, gate);
        let front = do_job(rt, front, gate);
        let (ends, back) = finish(rt, ending, gate);
        *staff = Some(Hired { ends, hosts });
        return (read, (back, front));
    }
    let front = do_job(rt, front, gate);
    let (ends, back) = finish(rt, ending, gate);
    let (hosts, read) = finish(rt, reading, gate);
    *staff = Some(Hired { ends, hosts });
    (read, (back, front))
}

// Takes the medium out, to be read by two. Another one lies there then, which nobody reads before it carries the frames
// of the next slot.
fn share_medium(
    at: &CurrentSlot<'_>,
    medium: &mut Medium,
) -> Result<(Arc<Medium>, Arc<Medium>), Memory>
    ensures { IfOk result (λ r. (arc_value r.0 ≡ medium.old) × (arc_value r.1 ≡ medium.old)) }
{
    let medium = mem::replace(medium, Medium::new(at.alloc, at.list)?);
    let Ok(medium) = Arc::new(at.alloc, medium) else {
        return Err(Memory);
    };
    let shared = Arc::try_clone(&medium)?;
    Ok((medium, shared))
}

// Takes the nodes out in two halves, each with the medium.
fn halves<'a>(at: &CurrentSlot<'a>, nodes: &mut Nodes) -> Result<(EndJob<'a>, EndJob<'a>), Memory>
    requires nodes { length nodes.old.seats.items ≤ 256 }
    requires desks { length nodes.old.desks.items ≡ length nodes.old.seats.items }
    ensures { IfOk result (λ r. AreHalves at.now nodes.old nodes.new r.0 r.1) }
{
    let half = nodes.seats.len() / 2;
    let (medium, shared) = share_medium(at, &mut nodes.medium)?;
    let back = EndJob {
        list: at.list,
        script: at.script,
        medium,
        first: half as u8,
        seats: nodes.seats.split_off(half)?,
        desks: nodes.desks.split_off(half)?,
    };
    let front = EndJob {
        list: at.list,
        script: at.script,
        medium: shared,
        first: 0,
        seats: mem::replace(&mut nodes.seats, Vec::new(at.alloc)),
        desks: mem::replace(&mut nodes.desks, Vec::new(at.alloc)),
    };
    Ok((front, back))
}

// Puts both halves back, one behind the other.
fn join_halves(nodes: &mut Nodes, front: EndJob<'_>, mut back: EndJob<'_>) -> Result<(), Memory>
    ensures { OnOk result (ArePutBack nodes.old front.entry back.entry nodes.new) }
{
    let EndJob { seats, desks, .. } = front;
    nodes.seats = seats;
    nodes.desks = desks;
    nodes.seats.append(&mut back.seats)?;
    nodes.desks.append(&mut back.desks)?;
    Ok(())
}

/// The two halves of the nodes end the slot, and hosts read. The readers are handed out again.
pub(crate) fn end_and_read<'b, 'a, R: Wait, G: Gate>(
    rt: &R,
    staff: &mut Option<Hired<'b, 'a>>,
    at: &CurrentSlot<'a>,
    nodes: &mut Nodes,
    readers: Vec<Option<HostReaders>>,
    reads: &'a [HostRead],
    gate: &G,
) -> Result<Vec<Option<HostReaders>>, Memory>
    requires ready { AreReady at.now nodes.old }
    requires left { HaveRoomForReads reads.now readers.items }
    ensures ended { OnOk result (AllHaveEnded at.now nodes.old nodes.new) }
    ensures read { IfOk result (λ left. HaveRead reads.now readers.items left.items) }
{
    let (front, back) = halves(at, nodes)?;
    let read = Job::Read { reads, readers };
    let (read, (back, front)) = do_all(rt, staff, read, Job::End(back), Job::End(front), gate);
    let Job::Read { readers, .. } = read else {
        unreachable!();
    };
    join_halves(nodes, part_of(front), part_of(back))?;
    Ok(readers)
}
