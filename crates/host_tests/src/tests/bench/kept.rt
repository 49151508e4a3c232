//! The cluster that ran is kept, until the next call.

use super::gate::{Beside, OPEN};
use super::{Call, RUN, let_go, run_bench, sink_of};
use cluster_run::Cluster;
use std::sync::Wait;
use std::thread::Threads;

// Whether the cluster that is kept after these words has done so many slots, if one is kept.
fn is_done<R: Threads + Wait + Sync + AllocGlobal>(
    rt: &R,
    words: &[&str],
    kept: &mut Option<Cluster>,
    due: Option<u32>,
) -> bool {
    let call = Call { words, ..RUN };
    let Ok(mut out) = sink_of(rt.alloc(), &call) else {
        return false;
    };
    if run_bench(rt, &call, &mut out, &Beside::new(OPEN), kept).is_none() {
        return false;
    }
    match kept {
        Some(cluster) => due == Some(cluster.done()),
        None => due.is_none(),
    }
}

const TWELVE: &[&str] = &["sample", "list", "12", "7"];

const NONE: &[&str] = &["sample", "list", "0", "7"];

#[test]
fn the_cluster_is_kept(rt: HostRuntime) {
    let mut kept = None;
    let keeps = is_done(&rt, TWELVE, &mut kept, Some(12)) && is_done(&rt, NONE, &mut kept, None);
    let_go(kept);
    assert!(rt; keeps);
}
