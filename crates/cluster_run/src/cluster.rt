//! A cluster, slot by slot.
ghost use Rattle.std.specs.Prelude.{◌≡◌, ◌+◌, ◌<◌, [], None, IfOk, IfErr, IsErr, OnOk, OnErr};
ghost use Rattle.ttp_world.specs.Medl.{IsValid};
ghost use Rattle.ttp_world.specs.Script.{IsValidScript};
ghost use Rattle.cluster_run.specs.Choosing.{AreBytesBefore};
ghost use Rattle.cluster_run.specs.Slots.{ClusterSteps};
ghost use Rattle.cluster_run.specs.Standing.{ClusterStandsFor};

use crate::by_hand::slot_by_hand;
use crate::making::nodes_of;
use crate::progress::{Course, Progress};
use crate::run::{Watch, run_all};
use host_port::SlotReport;
use std::alloc::Global;
use std::marker::Model;
use std::sync::Wait;
use std::thread::Threads;
use ttp_base::{Gate, List, Memory};
use ttp_world::{Medl, Script};

/// A cluster of controllers, each with its host, which exchange messages over the rings of their port.
#[derive(Drop)]
pub struct Cluster {
    alloc: Global,
    list: Medl,
    script: Script,
    at: Progress,
}

impl Model for Cluster {
    ghost use Rattle.cluster_run.specs.Standing.{ClusterView, cluster_of};
    ghost use Rattle.cluster_run.specs.Clusters.{IsClusterWithin};

    ghost Value = { ClusterView };

    ghost view = { λ c. cluster_of c.list c.script c.at.done c.at.nodes c.at.report };

    ghost invariant = { λ c. IsClusterWithin c.list c.script c.at.done c.at.nodes };
}

// The report of no slot.
fn no_report(alloc: Global) -> SlotReport {
    SlotReport {
        slot: 0,
        nodes: List::new(alloc),
        writes: List::new(alloc),
        reads: List::new(alloc),
    }
}

impl Cluster {
    /// The cluster of a list before the first slot of a script.
    pub fn make(alloc: Global, list: Medl, script: Script) -> Result<Cluster, Memory>
        requires list { IsValid list }
        requires script { IsValidScript list script }
        ensures list { IfOk result (λ c. c.list ≡ list) }
        ensures script { IfOk result (λ c. c.script ≡ script) }
        ensures done { IfOk result (λ c. c.done ≡ 0) }
        ensures stands { IfOk result (λ c. ClusterStandsFor c []) }
    {
        let nodes = nodes_of(alloc, &list)?;
        Ok(Cluster {
            alloc,
            list,
            script,
            at: Progress {
                done: 0,
                nodes: Some(nodes),
                report: no_report(alloc),
                spare: Vec::new(alloc),
            },
        })
    }

    /// One slot, the first that it has not done yet.
    ///
    /// Whatever numbers it stood for, it then stands for these and those in the slot's report, which
    /// shows the world's slot for them. Where the older ones were legal, all are. What hosts have written is
    /// bytes, so that [`laws::reports_tell_slots`](crate::laws::reports_tell_slots) has the report's text.
    ///
    /// Where a host does something in it, two workers are hired for it, as for the slots of a [`run`](Cluster::run).
    ///
    /// # Errors
    ///
    /// `Memory` where memory was refused, and from then on for good.
    pub fn slot<R: Threads + Wait + Sync, G: Gate>(
        &mut self,
        rt: &R,
        gate: &G,
    ) -> Result<(), Memory>
        requires { self.old.done < self.old.script.slots }
        ensures list { self.new.list ≡ self.old.list }
        ensures script { self.new.script ≡ self.old.script }
        ensures steps { OnOk result (ClusterSteps self.old self.new) }
        ensures bytes { OnOk result (AreBytesBefore self.new.list self.new.script self.new.done) }
        ensures done { OnOk result (self.new.done ≡ self.old.done + 1) }
        ensures undone { OnErr result (self.new.done ≡ self.old.done) }
        ensures gone { OnErr result (self.new.nodes ≡ None) }
        ensures for_good { self.old.nodes ≡ None → IsErr result }
    {
        let course = Course {
            alloc: self.alloc,
            list: &self.list,
            script: &self.script,
        };
        slot_by_hand(rt, &course, &mut self.at, gate)
    }

    /// All slots that are left, as so many calls of [`slot`](Cluster::slot) would do them: who watches is told of each
    /// once it is done.
    ///
    /// Two workers are hired for the slots from the first on in which a host does something: one ends each slot for
    /// half of the nodes, and one does what hosts do. No slot starts a thread; where the system gives none, or no memory
    /// for the workers, all is done without them.
    ///
    /// # Errors
    ///
    /// What the watcher answers, or what it says of refused memory. The slots before were done.
    pub fn run<R: Threads + Wait + Sync, G: Gate, W: Watch>(
        &mut self,
        rt: &R,
        watch: &mut W,
        out: &mut W::Out,
        gate: &G,
    ) -> Result<(), W::Fault>
        requires follows { (start : W.Start) × W.follows start out.old self.old }
        ensures list { self.new.list ≡ self.old.list }
        ensures script { self.new.script ≡ self.old.script }
        ensures done { OnOk result (self.new.done ≡ self.old.script.slots) }
        ensures ok { OnOk result ((start : W.Start) → W.follows start out.old self.old
            → W.follows start out.new self.new) }
        ensures fault { IfErr result (λ fault. (start : W.Start) → W.follows start out.old self.old
            → W.leaves start out.new fault self.old.list self.old.script) }
    {
        let course = Course {
            alloc: self.alloc,
            list: &self.list,
            script: &self.script,
        };
        run_all(rt, &course, &mut self.at, watch, out, gate)
    }

    /// The report of the newest slot.
    pub fn report(&self) -> &SlotReport
        ensures { result.now ≡ self.now.report }
    {
        &self.at.report
    }

    /// The list that it was made with.
    pub fn list(&self) -> &Medl
        ensures value { result.now ≡ self.now.list }
        ensures valid { IsValid result.now }
    {
        &self.list
    }

    /// The script that it was made with.
    pub fn script(&self) -> &Script
        ensures value { result.now ≡ self.now.script }
        ensures valid { IsValidScript self.now.list result.now }
    {
        &self.script
    }

    /// How many slots it has done.
    pub fn done(&self) -> u32
        ensures { result ≡ self.now.done }
    {
        self.at.done
    }

    /// How many slots the run has.
    pub fn slots(&self) -> u32
        ensures { result ≡ self.now.script.slots }
    {
        self.script.slots
    }
}
