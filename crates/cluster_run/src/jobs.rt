//! Work of a slot that may be given away by value, and comes back done.
ghost use Rattle.std.specs.Prelude.{◌≡◌};
ghost use Rattle.cluster_run.specs.declared.jobs.Job.TheVariants as kind;
ghost use Rattle.cluster_run.specs.Jobs.{IsJobReady, HasJobEnded, MayDo, HasDone, IsPart};

use crate::ending::{Common, end_from};
use crate::nodes::Desk;
use crate::reading::read_all;
use crate::sending::{fetch_all, write_all};
use controller::Seat;
use host_port::{Fetcher, HostEnd, HostReaders, WriteLine};
use medium::Medium;
use std::sync::{Arc, Wait};
use ttp_base::Gate;
use ttp_world::{HostRead, Medl, Script};

/// A part of the nodes, those from a first one on, with all that they need to end a slot.
#[derive(Drop)]
pub(crate) struct EndJob<'a> {
    pub(crate) list: &'a Medl,
    pub(crate) script: &'a Script,
    pub(crate) medium: Arc<Medium>,
    pub(crate) first: u8,
    pub(crate) seats: Vec<Seat>,
    pub(crate) desks: Vec<Desk>,
}

/// What there is to do in a slot, on one side or the other.
#[derive(Drop)]
pub(crate) enum Job<'a> {
    /// A part of the nodes ends the slot.
    End(EndJob<'a>),
    /// Controllers fetch.
    Fetch(Vec<Option<Fetcher>>),
    /// Hosts write at these places of the script, each with its line.
    Write {
        script: &'a Script,
        places: &'a [usize],
        ends: Vec<HostEnd>,
        lines: Vec<WriteLine>,
    },
    /// They read.
    Read {
        reads: &'a [HostRead],
        readers: Vec<Option<HostReaders>>,
    },
}

/// The part of the nodes that a job is for.
pub(crate) fn part_of<'a>(job: Job<'a>) -> EndJob<'a>
    requires { IsPart job }
    ensures { job.entry ≡ kind.End result }
{
    match job {
        Job::End(part) => part,
        _ => unreachable!(),
    }
}

// A part ends the slot.
fn end_part<'a, G: Gate>(part: EndJob<'a>, gate: &G) -> EndJob<'a>
    requires { IsJobReady part }
    ensures { HasJobEnded part.entry result }
{
    let EndJob {
        list,
        script,
        medium,
        first,
        mut seats,
        mut desks,
    } = part;
    let common = Common {
        list,
        script,
        medium: &medium,
    };
    end_from(
        first,
        seats.as_mut_slice(),
        desks.as_mut_slice(),
        &common,
        gate,
    );
    EndJob {
        list,
        script,
        medium,
        first,
        seats,
        desks,
    }
}

/// Does a job.
pub(crate) fn do_job<'a, R: Wait, G: Gate>(rt: &R, job: Job<'a>, gate: &G) -> Job<'a>
    requires { MayDo job }
    ensures { HasDone job.entry result }
{
    match job {
        Job::End(part) => Job::End(end_part(part, gate)),
        Job::Fetch(fetchers) => Job::Fetch(fetch_all(fetchers, gate)),
        Job::Write {
            script,
            places,
            ends,
            lines,
        } => {
            let (ends, lines) = write_all(ends, script, places, lines, gate);
            Job::Write {
                script,
                places,
                ends,
                lines,
            }
        }
        Job::Read { reads, mut readers } => {
            read_all(rt, readers.as_mut_slice(), reads, gate);
            Job::Read { reads, readers }
        }
    }
}
