//! A slot by itself, with two workers that are hired for it.
ghost use Rattle.std.specs.Prelude.{◌<◌};
ghost use Rattle.cluster_run.specs.Progress.{IsOnCourse, HasDoneNext};

use crate::progress::{Course, Progress};
use crate::staff::{Hired, Workers, await_service, serve_both, tables_of};
use errand::ends::hire;
use std::sync::Wait;
use std::thread::{Threads, join_mut};
use ttp_base::{Gate, Memory};
use ttp_world::Script;

// Whether a host does something in a slot.
fn is_busy(script: &Script, slot: u32) -> bool {
    !(script.writes(slot).is_empty() && script.reads(slot).is_empty())
}

// The next slot, with those who were hired. They may go then.
fn slot_staffed<'b, 'a, R: Wait, G: Gate>(
    rt: &R,
    staff: &mut Option<Hired<'b, 'a>>,
    course: &Course<'a>,
    at: &mut Progress,
    gate: &G,
) -> Result<(), Memory>
    requires within { IsOnCourse course.now at.old }
    requires slot { at.old.done < course.now.script.now.slots }
    ensures { HasDoneNext course.now at.old at.new result }
{
    await_service(staff);
    let done = at.slot(rt, staff, course, gate);
    *staff = None;
    done
}

// The next slot, beside both workers.
fn slot_beside<'b, 'a, R: Threads + Wait + Sync, G: Gate>(
    rt: &R,
    mut workers: Workers<'b, 'a>,
    hired: Hired<'b, 'a>,
    course: &Course<'a>,
    at: &mut Progress,
    gate: &G,
) -> Result<(), Memory>
    requires within { IsOnCourse course.now at.old }
    requires slot { at.old.done < course.now.script.now.slots }
    ensures { HasDoneNext course.now at.old at.new result }
{
    let mut staff = Some(hired);
    let mut serves = || serve_both(rt, &mut workers, gate);
    let mut steps = || -> Result<(), Memory>
        requires within { IsOnCourse course.now at.now }
        requires slot { at.now.done < course.now.script.now.slots }
        ensures { HasDoneNext course.entry.now at.entry.now at.exit.now result }
    { slot_staffed(rt, &mut staff, course, at, gate) };
    let (_, done) = join_mut(rt, &mut serves, &mut steps);
    done
}

/// The next slot. Where a host does something in it, two workers are hired for it; where memory is refused for that, all
/// is done without them.
pub(crate) fn slot_by_hand<R: Threads + Wait + Sync, G: Gate>(
    rt: &R,
    course: &Course<'_>,
    at: &mut Progress,
    gate: &G,
) -> Result<(), Memory>
    requires within { IsOnCourse course.now at.old }
    requires slot { at.old.done < course.now.script.now.slots }
    ensures { HasDoneNext course.now at.old at.new result }
{
    if !is_busy(course.script, at.done) {
        return slot_staffed(rt, &mut None, course, at, gate);
    }
    let Ok(((ends_table, ends_seat), (hosts_table, hosts_seat))) = tables_of(course.alloc) else {
        return slot_staffed(rt, &mut None, course, at, gate);
    };
    let (ends, ends_worker) = hire(&ends_table.shared, ends_seat);
    let (hosts, hosts_worker) = hire(&hosts_table.shared, hosts_seat);
    let workers = Workers {
        ends: Some(ends_worker),
        hosts: Some(hosts_worker),
    };
    slot_beside(rt, workers, Hired { ends, hosts }, course, at, gate)
}
