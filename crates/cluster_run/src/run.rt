//! A cluster taken through all its slots, with workers that stay.
ghost use Rattle.std.specs.Prelude.{◌≡◌, ◌+◌, ◌<◌, ◌≤◌, IfErr, OnOk};
ghost use Rattle.cluster_run.specs.Progress.{MayRun, HasRunOn};

use crate::progress::{Course, Progress};
use crate::staff::{Hired, Workers, await_service, serve_both, tables_of};
use errand::ends::hire;
use host_port::SlotReport;
use std::sync::Wait;
use std::thread::{Threads, join_mut};
use ttp_base::Gate;
use ttp_world::{Event, Medl, Script};

/// Who is told what each slot of a run was.
///
/// What it makes of that is in a value apart: of a reference that it held itself, no clause of a run could say what
/// becomes of it.
pub trait Watch {
    ghost use Rattle.ttp_world.specs.declared.medl.Medl.{Medl};
    ghost use Rattle.ttp_world.specs.declared.script.Script.{Script};
    ghost use Rattle.cluster_run.specs.Runs.{IsToldOf, IsInRun};
    ghost use Rattle.cluster_run.specs.Standing.{ClusterView};

    /// What it makes of the slots.
    type Out;

    /// Why it ends a run.
    type Fault: Drop;

    // What is known of a run before its first slot.
    ghost Start: { Type 0 };

    // This was made of all slots that a cluster has done.
    ghost follows: { Start → Self.Out → ClusterView → Type 0 };

    // This was left where a run of a list and a script was ended so.
    ghost leaves: { Start → Self.Out → Self.Fault → Medl → Script → Type 0 };

    /// The slot after those that it was told of: the list, and the slot's report.
    fn told(
        &mut self,
        out: &mut Self::Out,
        list: &Medl,
        report: &SlotReport,
    ) -> Result<(), Self::Fault>
        requires { (start : Start) × (before : ClusterView) × (now : ClusterView)
            × IsToldOf before now list.now report.now × follows start out.old before }
        ensures ok { OnOk result ((start : Start) (before now : ClusterView)
            → IsToldOf before now list.now report.now → follows start out.old before → follows start out.new now) }
        ensures fault { IfErr result (λ fault. (start : Start) (before now : ClusterView)
            → IsToldOf before now list.now report.now → follows start out.old before
            → leaves start out.new fault before.list before.script) };

    /// Memory was refused for the next slot.
    fn refused(&mut self, out: &mut Self::Out) -> Self::Fault
        ensures { (start : Start) (c : ClusterView) → IsInRun c → follows start out.old c
            → leaves start out.new result c.list c.script };
}

// The first slot in which a host does something; where there is none, how many slots there are.
fn first_busy(script: &Script) -> u32
    ensures { result ≤ script.now.slots }
{
    let mut first = script.slots;
    for event in script.events.as_slice() {
        match event {
            Event::Write { slot, .. } => first = first.min(*slot),
            Event::Read { slot, .. } => first = first.min(*slot),
            _ => {}
        }
    }
    first.min(script.slots)
}

// One slot, of which the watcher is told.
fn next_told<'b, 'a, R: Wait, G: Gate, W: Watch>(
    rt: &R,
    staff: &mut Option<Hired<'b, 'a>>,
    course: &Course<'a>,
    at: &mut Progress,
    watch: &mut W,
    out: &mut W::Out,
    gate: &G,
) -> Result<(), W::Fault>
    requires may { MayRun W.follows course.now at.old out.old }
    requires slot { at.old.done < course.now.script.now.slots }
    ensures runs { HasRunOn W.follows W.leaves course.now at.old at.new out.old out.new result }
    ensures done { OnOk result (at.new.done ≡ at.old.done + 1) }
{
    let Ok(()) = at.slot(rt, staff, course, gate) else {
        return Err(watch.refused(out));
    };
    watch.told(out, course.list, &at.report)
}

// The slots before this one that are left.
fn run_slots<'b, 'a, R: Wait, G: Gate, W: Watch>(
    rt: &R,
    staff: &mut Option<Hired<'b, 'a>>,
    course: &Course<'a>,
    end: u32,
    at: &mut Progress,
    watch: &mut W,
    out: &mut W::Out,
    gate: &G,
) -> Result<(), W::Fault>
    requires may { MayRun W.follows course.now at.old out.old }
    requires end { end ≤ course.now.script.now.slots }
    ensures runs { HasRunOn W.follows W.leaves course.now at.old at.new out.old out.new result }
    ensures done { OnOk result (at.old.done ≤ end → at.new.done ≡ end) }
{
    let left = end.saturating_sub(at.done);
    for _ in 0..left {
        next_told(rt, staff, course, at, watch, out, gate)?;
    }
    Ok(())
}

// The slots that are left, with those who were hired. They may go then.
fn run_staffed<'b, 'a, R: Wait, G: Gate, W: Watch>(
    rt: &R,
    staff: &mut Option<Hired<'b, 'a>>,
    course: &Course<'a>,
    at: &mut Progress,
    watch: &mut W,
    out: &mut W::Out,
    gate: &G,
) -> Result<(), W::Fault>
    requires may { MayRun W.follows course.now at.old out.old }
    ensures runs { HasRunOn W.follows W.leaves course.now at.old at.new out.old out.new result }
    ensures done { OnOk result (at.new.done ≡ course.now.script.now.slots) }
{
    await_service(staff);
    let left = run_slots(rt, staff, course, course.script.slots, at, watch, out, gate);
    *staff = None;
    left
}

// The slots that are left, beside both workers.
fn run_beside<'b, 'a, R: Threads + Wait + Sync, G: Gate, W: Watch>(
    rt: &R,
    mut workers: Workers<'b, 'a>,
    hired: Hired<'b, 'a>,
    course: &Course<'a>,
    at: &mut Progress,
    watch: &mut W,
    out: &mut W::Out,
    gate: &G,
) -> Result<(), W::Fault>
    requires may { MayRun W.follows course.now at.old out.old }
    ensures runs { HasRunOn W.follows W.leaves course.now at.old at.new out.old out.new result }
    ensures done { OnOk result (at.new.done ≡ course.now.script.now.slots) }
{
    let mut staff = Some(hired);
    let mut serves = || serve_both(rt, &mut workers, gate);
    let mut runs = || -> Result<(), W::Fault>
        requires { MayRun W.follows course.now at.now out.now }
        ensures runs { HasRunOn W.follows W.leaves course.entry.now at.entry.now at.exit.now out.entry.now out.exit.now
            result }
        ensures done { OnOk result (at.exit.now.done ≡ course.entry.now.script.now.slots) }
    { run_staffed(rt, &mut staff, course, at, watch, out, gate) };
    let (_, left) = join_mut(rt, &mut serves, &mut runs);
    left
}

// The slots that are left, with two workers that are hired for them. Where memory is refused for that, all is done
// without them.
fn run_hired<'a, R: Threads + Wait + Sync, G: Gate, W: Watch>(
    rt: &R,
    course: &Course<'a>,
    at: &mut Progress,
    watch: &mut W,
    out: &mut W::Out,
    gate: &G,
) -> Result<(), W::Fault>
    requires may { MayRun W.follows course.now at.old out.old }
    ensures runs { HasRunOn W.follows W.leaves course.now at.old at.new out.old out.new result }
    ensures done { OnOk result (at.new.done ≡ course.now.script.now.slots) }
{
    let Ok(((ends_table, ends_seat), (hosts_table, hosts_seat))) = tables_of(course.alloc) else {
        return run_staffed(rt, &mut None, course, at, watch, out, gate);
    };
    let (ends, ends_worker) = hire(&ends_table.shared, ends_seat);
    let (hosts, hosts_worker) = hire(&hosts_table.shared, hosts_seat);
    let workers = Workers {
        ends: Some(ends_worker),
        hosts: Some(hosts_worker),
    };
    run_beside(
        rt,
        workers,
        Hired { ends, hosts },
        course,
        at,
        watch,
        out,
        gate,
    )
}

/// All slots that are left. Two workers are hired for them before the first one in which a host does something, and go
/// after the last. Where memory is refused for that, all is done without them.
pub(crate) fn run_all<R: Threads + Wait + Sync, G: Gate, W: Watch>(
    rt: &R,
    course: &Course<'_>,
    at: &mut Progress,
    watch: &mut W,
    out: &mut W::Out,
    gate: &G,
) -> Result<(), W::Fault>
    requires may { MayRun W.follows course.now at.old out.old }
    ensures runs { HasRunOn W.follows W.leaves course.now at.old at.new out.old out.new result }
    ensures done { OnOk result (at.new.done ≡ course.now.script.now.slots) }
{
    let first = first_busy(course.script);
    run_slots(rt, &mut None, course, first, at, watch, out, gate)?;
    if at.done == course.script.slots {
        return Ok(());
    }
    run_hired(rt, course, at, watch, out, gate)
}
