//! The command `run MEDL SCRIPT`, and the lines that it shares with `keeps MEDL SCRIPT`.
ghost use Rattle.std.specs.Prelude.{◌≡◌, [], Some, None};
ghost use Rattle.ttp_world.specs.Medl.{IsValid};
ghost use Rattle.ttp_world.specs.Script.{IsValidScript};
ghost use Rattle.ttp_world.specs.Trace.{back_lines};
ghost use Rattle.cluster_run.specs.Standing.{ClusterStandsFor};
ghost use Rattle.commands.specs.Outcome.{Follows, Says, ShowsEnding};
ghost use Rattle.commands.specs.Plan.{outside, whole_ending};
ghost use Rattle.commands.specs.Texts.{alone, answer, one};
ghost use Rattle.ttp_top.specs.Calls.Answer.{ttpbench, kept_after};
ghost use Rattle.ttp_top.specs.Calls.Forms.{trace_ending, keep_ending, plan_of};
ghost use Rattle.ttp_top.specs.Calls.Words.{run};

use crate::kept::keep_after;
use crate::trace::{RunFault, put_run};
use cluster_run::Cluster;
use commands::load_both;
use hypothesis::{has_arm, keeps as keeps_of, returns};
use line_text::{put_back, put_keep};
use std::alloc::Global;
use std::sync::Wait;
use std::thread::Threads;
use ttp_base::{Gate, Library, Sink};
use ttp_world::{Medl, Script};

// The line on armed nodes, where a node is armed.
fn show_back<K: Sink>(list: &Medl, script: &Script, out: &mut K) -> u8
    requires valid { IsValid list.now }
    requires script { IsValidScript list.now script.now }
    ensures { Says ttpbench (whole_ending 0 (one (back_lines list.now script.now))) (K.output out.old) (K.output out.new)
        (alone result) }
{
    if !has_arm(script) {
        return 0;
    }
    match put_back(&returns(list, script), out) {
        Ok(()) => 0,
        Err(_) => 6,
    }
}

/// The line of the hypothesis test, and the one on armed nodes behind it: the last lines of a trace.
pub(crate) fn show_keep<K: Sink>(list: &Medl, script: &Script, out: &mut K) -> u8
    requires valid { IsValid list.now }
    requires script { IsValidScript list.now script.now }
    ensures { Says ttpbench (keep_ending list.now script.now) (K.output out.old) (K.output out.new) (alone result) }
{
    match put_keep(&keeps_of(list, script), out) {
        Ok(()) => show_back(list, script, out),
        Err(_) => 6,
    }
}

// The trace of a new cluster, whose last lines are those of the tests.
fn put_trace<R: Threads + Wait + Sync, K: Sink, G: Gate>(
    rt: &R,
    cluster: &mut Cluster,
    out: &mut K,
    gate: &G,
) -> u8
    requires valid { IsValid cluster.old.list }
    requires script { IsValidScript cluster.old.list cluster.old.script }
    requires new { ClusterStandsFor cluster.old [] }
    ensures { ShowsEnding ttpbench (trace_ending cluster.old.list cluster.old.script) (K.output out.old)
        (K.output out.new)
        (answer result (kept_after result cluster.new)) }
{
    match put_run(rt, cluster, out, gate) {
        Ok(()) => show_keep(cluster.list(), cluster.script(), out),
        Err(RunFault::Failed) => 6,
        Err(RunFault::Memory) => 7,
    }
}

// The trace of a script. The cluster is made before the first line is written, and kept once the last one
// is.
fn show_trace<R: Threads + Wait + Sync, K: Sink, G: Gate>(
    rt: &R,
    alloc: Global,
    list: Medl,
    script: Script,
    out: &mut K,
    gate: &G,
    kept: &mut Option<Cluster>,
) -> u8
    requires valid { IsValid list }
    requires script { IsValidScript list script }
    requires none { kept.old ≡ None }
    ensures { ShowsEnding ttpbench (trace_ending list script) (K.output out.old) (K.output out.new)
        (answer result kept.new) }
{
    match Cluster::make(alloc, list, script) {
        Ok(mut cluster) => {
            let status = put_trace(rt, &mut cluster, out, gate);
            keep_after(status, cluster, kept);
            status
        }
        Err(_) => 7,
    }
}

/// The trace of the script of this name, for the list of this name. The cluster that ran is kept where all
/// of the trace was written.
pub(crate) fn run<R: Threads + Wait + Sync, L: Library, K: Sink, G: Gate>(
    rt: &R,
    alloc: Global,
    list: &str,
    script: &str,
    library: &mut L,
    out: &mut K,
    gate: &G,
    kept: &mut Option<Cluster>,
) -> u8
    requires { kept.old ≡ None }
    ensures { Follows ttpbench (plan_of (Some (run list.now script.now))) (outside (L.files library.old) (K.output out.old))
        (outside (L.files library.new) (K.output out.new)) (answer result kept.new) }
{
    match load_both(alloc, list, script, library, out) {
        Ok((medl, right)) => show_trace(rt, alloc, medl, right, out, gate, kept),
        Err(status) => status,
    }
}
