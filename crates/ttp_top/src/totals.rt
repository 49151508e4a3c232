//! What a run through a cluster counts for its summary.
ghost use Rattle.std.specs.Prelude.{◌≡◌, [], count_by, IfOk, OnOk};
ghost use Rattle.ttp_world.specs.Medium.{is_sending};
ghost use Rattle.ttp_world.specs.Medl.{IsValid};
ghost use Rattle.ttp_world.specs.Script.{IsValidScript};
ghost use Rattle.cluster_run.specs.Standing.{ClusterStandsFor};
ghost use Rattle.ttp_top.specs.Samples.Counted.{states_in, with_report, SumsFit, HasCounted};
ghost use Rattle.ttp_top.specs.Samples.Totals.{shows_sent, is_leaving, shows_left, lowest_members, no_totals};

use cluster_run::{Cluster, Watch};
use host_port::{NodeLine, SlotReport};
use std::sync::Wait;
use std::thread::Threads;
use ttp_base::{Gate, Memory, NodeSet};
use ttp_world::{Entry, Medl, Phase};

/// What the slots of a run come to.
#[derive(Clone, Copy)]
pub(crate) struct Totals {
    /// How often a node sent a frame.
    pub(crate) sent: u64,
    /// How often a node left.
    pub(crate) left: u64,
    /// The members of the lowest active node after the newest slot.
    pub(crate) members: NodeSet,
    /// How many messages hosts wrote.
    pub(crate) writes: u64,
    /// How many messages hosts read.
    pub(crate) reads: u64,
}

fn is_sending(entry: &Entry) -> bool
    ensures { result ≡ is_sending entry.now }
{
    matches!(entry, Entry::Started | Entry::Sent { .. })
}

fn is_leaving(entry: &Entry) -> bool
    ensures { result ≡ is_leaving entry.now }
{
    matches!(entry, Entry::Left { .. })
}

// How many of these nodes sent in the slot.
fn count_sent(nodes: &[NodeLine]) -> u64
    ensures { result ≡ count_by (λ line. shows_sent line.state) nodes.now }
{
    let mut count = 0;
    for line in nodes {
        if is_sending(&line.state.entry) {
            count += 1;
        }
    }
    count
}

// How many of them left.
fn count_left(nodes: &[NodeLine]) -> u64
    ensures { result ≡ count_by (λ line. shows_left line.state) nodes.now }
{
    let mut count = 0;
    for line in nodes {
        if is_leaving(&line.state.entry) {
            count += 1;
        }
    }
    count
}

// The members of the first one that is active.
fn lowest_members(nodes: &[NodeLine]) -> NodeSet
    ensures { result ≡ lowest_members (states_in nodes.now) }
{
    for line in nodes {
        if line.state.phase == Phase::Active {
            return line.state.members;
        }
    }
    NodeSet::empty()
}

impl Totals {
    // Those of a run that has not begun.
    fn new() -> Totals
        ensures { result ≡ no_totals }
    {
        Totals {
            sent: 0,
            left: 0,
            members: NodeSet::empty(),
            writes: 0,
            reads: 0,
        }
    }

    // One slot more.
    fn add(&mut self, report: &SlotReport)
        requires { SumsFit self.old report.now }
        ensures { self.new ≡ with_report self.old report.now }
    {
        let nodes = report.nodes.as_slice();
        self.sent += count_sent(nodes);
        self.left += count_left(nodes);
        self.members = lowest_members(nodes);
        self.writes += report.writes.len() as u64;
        self.reads += report.reads.len() as u64;
    }
}

// Counts each slot once it is done.
#[derive(Drop)]
struct SlotCounter;

impl Watch for SlotCounter {
    ghost use Rattle.cluster_run.specs.Runs.{IsToldOf, IsInRun};
    ghost use Rattle.cluster_run.specs.Standing.{ClusterView};
    ghost use Rattle.ttp_top.specs.Samples.Counted.{HasCounted};

    type Out = Totals;

    type Fault = Memory;

    ghost Start = { Unit {0} };

    ghost follows = { λ _ totals c. HasCounted c totals };

    ghost leaves = { λ _ totals fault list script. Unit {0} };

    fn told(&mut self, out: &mut Totals, _list: &Medl, report: &SlotReport) -> Result<(), Memory>
        requires { (start : Unit {0}) × (before : ClusterView) × (now : ClusterView)
            × IsToldOf before now _list.now report.now × HasCounted before out.old }
        ensures ok { OnOk result ((start : Unit {0}) (before now : ClusterView)
            → IsToldOf before now _list.now report.now → HasCounted before out.old → HasCounted now out.new) }
    {
        out.add(report);
        Ok(())
    }

    fn refused(&mut self, _out: &mut Totals) -> Memory {
        Memory
    }
}

/// Takes a new cluster through all slots of its script, and counts what they come to. It takes no memory
/// but the cluster's own and its workers'.
pub(crate) fn count_run<R: Threads + Wait + Sync, G: Gate>(
    rt: &R,
    cluster: &mut Cluster,
    gate: &G,
) -> Result<Totals, Memory>
    requires valid { IsValid cluster.old.list }
    requires script { IsValidScript cluster.old.list cluster.old.script }
    requires new { ClusterStandsFor cluster.old [] }
    ensures list { cluster.new.list ≡ cluster.old.list }
    ensures script { cluster.new.script ≡ cluster.old.script }
    ensures done { OnOk result (cluster.new.done ≡ cluster.old.script.slots) }
    ensures ok { IfOk result (HasCounted cluster.new) }
{
    let mut totals = Totals::new();
    cluster.run(rt, &mut SlotCounter, &mut totals, gate)?;
    Ok(totals)
}
