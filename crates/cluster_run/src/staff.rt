//! Workers that stay for a run: one ends slots for the back half of the nodes, and one does what hosts do.
ghost use Rattle.std.specs.Prelude.{◌≡◌, None, Some, IfOk};
ghost use Rattle.errand.specs.declared.note.Role.TheVariants.{Alone};
ghost use Rattle.errand.specs.Ends.{IsSeated};
ghost use Rattle.errand.specs.Turns.{bare};
ghost use Rattle.cluster_run.specs.declared.jobs.Job.{Job};
ghost use Rattle.cluster_run.specs.Jobs.{MayDo, HasDone};

use crate::jobs::{Job, do_job};
use errand::ends::{End, Giver, Waiting, Whole, Worker, open};
use errand::rule::Errand;
use std::alloc::{AllocError, Global};
use std::sync::Wait;
use std::thread::{Threads, join_mut};
use ttp_base::Gate;

/// The work of a slot.
pub(crate) struct Work;

impl<'a> Errand<Job<'a>> for Work {
    ghost needs = { λ j. MayDo j };

    ghost does = { λ j k. HasDone j k };
}

/// Whoever gives jobs to a worker.
pub(crate) type Gives<'b, 'a> = Giver<'b, Job<'a>, Work>;

/// A worker, until it serves.
pub(crate) type Serves<'b, 'a> = Option<Worker<'b, Job<'a>, Work>>;

/// Both workers, until they serve.
#[derive(Drop)]
pub(crate) struct Workers<'b, 'a> {
    pub(crate) ends: Serves<'b, 'a>,
    pub(crate) hosts: Serves<'b, 'a>,
}

/// The ends by which both workers are given work.
#[derive(Drop)]
pub(crate) struct Hired<'b, 'a> {
    pub(crate) ends: Gives<'b, 'a>,
    pub(crate) hosts: Gives<'b, 'a>,
}

/// A table for the jobs of one worker, with its end.
type Table<'a> = (Whole<Job<'a>, Work>, End<Job<'a>>);

/// A table for each worker, before it is hired.
pub(crate) fn tables_of<'a>(alloc: Global) -> Result<(Table<'a>, Table<'a>), AllocError>
    ensures ends { IfOk result (λ r. IsSeated r.0.0.shared.table_id r.0.1.table_id × (r.0.1.me ≡ bare Alone None)) }
    ensures hosts { IfOk result (λ r. IsSeated r.1.0.shared.table_id r.1.1.table_id × (r.1.1.me ≡ bare Alone None)) }
{
    let ends = open(alloc)?;
    let hosts = open(alloc)?;
    Ok((ends, hosts))
}

/// Looks for a while whether both begin to serve.
pub(crate) fn await_service<'b, 'a>(staff: &Option<Hired<'b, 'a>>) {
    if let Some(hired) = staff {
        hired.ends.await_service();
        hired.hosts.await_service();
    }
}

/// A job is done: by the worker, or here.
pub(crate) fn finish<'b, 'a, R: Wait, G: Gate>(
    rt: &R,
    waiting: Waiting<'b, Job<'a>, Work>,
    gate: &G,
) -> (Gives<'b, 'a>, Job<'a>)
    ensures { (job : Job) → waiting.entry.seat.me.0.job ≡ Some job → HasDone job result.1 }
{
    match waiting.take_back() {
        Ok((giver, job)) => (giver, do_job(rt, job, gate)),
        Err(waiting) => waiting.take(rt),
    }
}

// Does the jobs that are given to a worker, until nobody gives one any more.
fn serve<'b, 'a, R: Wait, G: Gate>(rt: &R, worker: &mut Serves<'b, 'a>, gate: &G) {
    if let Some(worker) = worker.take() {
        worker.serve(
            rt,
            &|job|
                requires { MayDo job }
                ensures { HasDone job.entry result }
            { do_job(rt, job, gate) },
        );
    }
}

/// Both workers serve, each in a thread.
pub(crate) fn serve_both<'b, 'a, R: Threads + Wait + Sync, G: Gate>(
    rt: &R,
    workers: &mut Workers<'b, 'a>,
    gate: &G,
) {
    let ends = &mut workers.ends;
    let hosts = &mut workers.hosts;
    let mut serves_ends = || serve(rt, ends, gate);
    let mut serves_hosts = || serve(rt, hosts, gate);
    join_mut(rt, &mut serves_ends, &mut serves_hosts);
}
