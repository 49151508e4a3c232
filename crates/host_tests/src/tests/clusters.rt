//! Clusters of five nodes with hosts. What a host reads beside its controller is compared where the real program runs.
ghost use Rattle.std.specs.Prelude.{◌≡◌, ◌≤◌, length};
ghost use Rattle.ttp_world.specs.Medl.{IsValid};

use super::bench::gate::{Beside, OPEN};
use super::bench::let_go;
use cluster_run::{Cluster, Watch};
use host_port::SlotReport;
use medl_text::read_medl;
use script_text::read_script;
use std::alloc::Global;
use std::sync::Wait;
use std::thread::Threads;
use ttp_base::Memory;
use ttp_world::{Medl, Script};

// Five nodes, of which node 0 may start, and node 2 sends 8 bytes.
const LIST: &[u8] =
    b"version = 1\nrounds = 1\nschedule = 0\nbuffers = 2\ndrift = 0\nerror = 0\nwindow = 1\n
[[slot]]\nkinds = \"I\"\ndata = 0\nsync = true\nstart = true\n
[[slot]]\nkinds = \"I\"\ndata = 0\nsync = true\nstart = false\n
[[slot]]\nkinds = \"N\"\ndata = 8\nsync = true\nstart = false\n
[[slot]]\nkinds = \"I\"\ndata = 0\nsync = true\nstart = false\n
[[slot]]\nkinds = \"I\"\ndata = 0\nsync = true\nstart = false\n";

// All five nodes are on from the first slot on, and the host of node 1 reads its status in slot 11.
const SCRIPT: &[u8] = b"slots 20\non 0 0\non 1 0\non 2 0\non 3 0\non 4 0\nread 1 11 status\n";

// The host of node 2 writes in slot 12, in which its node sends, and that of node 1 reads the message then and once more.
const WRITTEN: &[u8] =
    b"slots 20\non 0 0\non 1 0\non 2 0\non 3 0\non 4 0\nwrite 2 12 0102030405060708\nread 1 12 2\nread 1 13 2\n";

// The cluster of the list and a script, if there is memory.
fn cluster_of(alloc: Global, script: &[u8]) -> Result<Cluster, Memory>
    requires { length script.now ≤ 1048576 }
{
    let Ok(list) = read_medl(alloc, LIST) else {
        return Err(Memory);
    };
    let Ok(script) = read_script(alloc, &list, script) else {
        return Err(Memory);
    };
    Cluster::make(alloc, list, script)
}

// Whether a host has read one message in the slot, that of this number.
fn has_read(report: &SlotReport, number: u64) -> bool {
    report.reads.len() == 1 && report.reads.get(0).pair.number() == number
}

// Whether node 2's frame carries the message of this number.
fn has_carried(report: &SlotReport, number: u64) -> bool {
    report.nodes.len() == 5 && report.nodes.get(2).message == Some(number)
}

// Whether the next slot is a right one: in slot 12 a frame carries what its host writes in the slot, or zeros, and a host
// reads the frame's message, or zeros; in slot 13 it reads that message.
fn steps_on<R: Threads + Wait + Sync>(rt: &R, cluster: &mut Cluster) -> bool {
    if cluster.done() >= cluster.slots() || cluster.slot(rt, &Beside::new(OPEN)).is_err() {
        return false;
    }
    let report = cluster.report();
    match report.slot {
        12 => {
            (has_carried(report, 0) || has_carried(report, 1))
                && (has_read(report, 0) || has_read(report, 1))
        }
        13 => has_read(report, 1),
        _ => report.reads.len() == 0,
    }
}

// Whether a cluster that is stepped by hand does all its slots.
fn goes_by_hand<R: Threads + Wait + Sync>(rt: &R, alloc: Global) -> bool {
    let Ok(mut cluster) = cluster_of(alloc, WRITTEN) else {
        return false;
    };
    let mut is_right = true;
    for _ in 0..20u32 {
        is_right = is_right && steps_on(rt, &mut cluster);
    }
    let is_whole = is_right && cluster.done() == 20;
    let_go(Some(cluster));
    is_whole
}

#[test]
fn a_cluster_goes_by_hand(rt: HostRuntime) {
    assert!(rt; goes_by_hand(&rt, rt.alloc()));
}

// What a watcher was told: of how many slots, and of how many reads in them.
#[derive(Clone, Copy, PartialEq, Eq)]
struct WatchedSlots {
    slots: u32,
    reads: usize,
}

// Counts, and ends the run after the slot that makes so many.
#[derive(Drop)]
struct Counter {
    most: u32,
}

impl Watch for Counter {
    ghost use Rattle.ttp_world.specs.declared.medl.Medl.{Medl};
    ghost use Rattle.ttp_world.specs.declared.script.Script.{Script};
    ghost use Rattle.cluster_run.specs.Standing.{ClusterView};

    type Out = WatchedSlots;

    type Fault = Memory;

    ghost Start = { Unit {0} };

    ghost follows = { λ _ _ _. Unit {0} };

    ghost leaves = { λ _ _ _ _ _. Unit {0} };

    fn told(
        &mut self,
        out: &mut WatchedSlots,
        _list: &Medl,
        report: &SlotReport,
    ) -> Result<(), Memory> {
        out.slots = out.slots.wrapping_add(1);
        out.reads = out.reads.wrapping_add(report.reads.len());
        if out.slots == self.most {
            return Err(Memory);
        }
        Ok(())
    }

    fn refused(&mut self, _out: &mut WatchedSlots) -> Memory {
        Memory
    }
}

// Whether a run ends after the slot that makes so many.
fn is_ended<R: Threads + Wait + Sync>(
    rt: &R,
    cluster: &mut Cluster,
    told: &mut WatchedSlots,
    most: u32,
) -> bool {
    let ended = cluster.run(rt, &mut Counter { most }, told, &Beside::new(OPEN));
    ended.is_err() && told.slots == most && cluster.done() == most
}

// Whether a run goes on to the end.
fn is_whole<R: Threads + Wait + Sync>(
    rt: &R,
    cluster: &mut Cluster,
    told: &mut WatchedSlots,
) -> bool {
    let ended = cluster.run(rt, &mut Counter { most: 0 }, told, &Beside::new(OPEN));
    ended.is_ok() && told.slots == 20 && told.reads == 1 && cluster.done() == 20
}

// Who watches may end a run, and another one goes on.
fn goes_on<R: Threads + Wait + Sync>(rt: &R, alloc: Global, most: u32) -> bool {
    let Ok(mut cluster) = cluster_of(alloc, SCRIPT) else {
        return false;
    };
    let mut told = WatchedSlots { slots: 0, reads: 0 };
    let is_right = is_ended(rt, &mut cluster, &mut told, most)
        && is_whole(rt, &mut cluster, &mut told);
    let_go(Some(cluster));
    is_right
}

#[test]
fn a_run_tells_of_each_slot(rt: HostRuntime) {
    for most in [1u32, 11, 12, 13, 20] {
        assert!(rt; goes_on(&rt, rt.alloc(), most));
    }
}
