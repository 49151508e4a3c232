//! The trace of a run through a cluster, but for its last line.
ghost use Rattle.std.specs.Prelude.{◌≡◌, [], IfErr, OnOk};
ghost use Rattle.ttp_world.specs.Medl.{IsValid};
ghost use Rattle.ttp_world.specs.Script.{IsValidScript};
ghost use Rattle.cluster_run.specs.Standing.{ClusterStandsFor};
ghost use Rattle.ttp_top.specs.Scripts.Written.{HasWritten, Leaves};

use cluster_run::{Cluster, Watch};
use host_port::SlotReport;
use line_text::{NodeLines, put_header};
use std::marker::PhantomData;
use std::sync::Wait;
use std::thread::Threads;
use trace_text::put_slot;
use ttp_base::{Failed, Gate, Sink};
use ttp_world::Medl;

/// Why a trace was not written to its end.
#[derive(Clone, Copy, PartialEq, Eq)]
pub(crate) enum RunFault {
    /// Memory was refused for a slot.
    Memory,
    /// The sink failed.
    Failed,
}

// Writes the lines of each slot once it is done.
#[derive(Drop)]
struct SlotWriter<K> {
    lines: NodeLines,
    of: PhantomData<K>,
}

impl<K: Sink> Watch for SlotWriter<K> {
    ghost use Rattle.ttp_base.specs.Outside.{Output};
    ghost use Rattle.cluster_run.specs.Runs.{IsToldOf, IsInRun};
    ghost use Rattle.cluster_run.specs.Standing.{ClusterView};
    ghost use Rattle.ttp_top.specs.Scripts.Written.{HasWritten, Leaves};

    type Out = K;

    type Fault = RunFault;

    ghost Start = { Output };

    ghost follows = { λ first out c. HasWritten first (K.output out) c };

    ghost leaves = { λ first out fault list script. Leaves fault list script first (K.output out) };

    fn told(&mut self, out: &mut K, list: &Medl, report: &SlotReport) -> Result<(), RunFault>
        requires { (first : Output) × (before : ClusterView) × (now : ClusterView)
            × IsToldOf before now list.now report.now × HasWritten first (K.output out.old) before }
        ensures ok { OnOk result ((first : Output) (before now : ClusterView)
            → IsToldOf before now list.now report.now → HasWritten first (K.output out.old) before
            → HasWritten first (K.output out.new) now) }
        ensures fault { IfErr result (λ fault. (first : Output) (before now : ClusterView)
            → IsToldOf before now list.now report.now → HasWritten first (K.output out.old) before
            → Leaves fault before.list before.script first (K.output out.new)) }
    {
        match put_slot(list, report, &mut self.lines, out) {
            Ok(()) => Ok(()),
            Err(Failed) => Err(RunFault::Failed),
        }
    }

    fn refused(&mut self, _out: &mut K) -> RunFault
        ensures { (first : Output) (c : ClusterView) → IsInRun c → HasWritten first (K.output _out.old) c
            → Leaves result c.list c.script first (K.output _out.new) }
    {
        RunFault::Memory
    }
}

/// Takes a new cluster through all slots of its script, and writes the first line of the trace and then
/// the lines of each slot once it is done, each line as one piece.
///
/// # Errors
///
/// `Memory` where memory was refused for a slot: the lines of the slots before stand. `Failed` where the
/// sink failed: some first lines were written, or none, and perhaps a front of the next.
pub(crate) fn put_run<R: Threads + Wait + Sync, K: Sink, G: Gate>(
    rt: &R,
    cluster: &mut Cluster,
    out: &mut K,
    gate: &G,
) -> Result<(), RunFault>
    requires valid { IsValid cluster.old.list }
    requires script { IsValidScript cluster.old.list cluster.old.script }
    requires new { ClusterStandsFor cluster.old [] }
    ensures list { cluster.new.list ≡ cluster.old.list }
    ensures script { cluster.new.script ≡ cluster.old.script }
    ensures done { OnOk result (cluster.new.done ≡ cluster.old.script.slots) }
    ensures ok { OnOk result (HasWritten (K.output out.old) (K.output out.new) cluster.new) }
    ensures fault { IfErr result (λ fault. Leaves fault cluster.old.list cluster.old.script (K.output out.old)
        (K.output out.new)) }
{
    let Ok(()) = put_header(cluster.list(), cluster.script(), out) else {
        return Err(RunFault::Failed);
    };
    let mut writer = SlotWriter {
        lines: NodeLines::new(),
        of: PhantomData,
    };
    cluster.run(rt, &mut writer, out, gate)
}
