//! How far a cluster is, and its next slot.
ghost use Rattle.std.specs.Prelude.{◌≡◌, ◌+◌, ◌<◌, None, IsErr, OnOk, OnErr};
ghost use Rattle.cluster_run.specs.Choosing.{AreBytesBefore};
ghost use Rattle.cluster_run.specs.Progress.{cluster_at, IsOnCourse};
ghost use Rattle.cluster_run.specs.Slots.{ClusterSteps};

use crate::current::CurrentSlot;
use crate::nodes::Nodes;
use crate::slot::slot_of;
use crate::staff::Hired;
use host_port::{NodeLine, SlotReport};
use std::alloc::Global;
use std::mem;
use std::sync::Wait;
use ttp_base::{Gate, List, Memory};
use ttp_world::{Medl, Script};

/// What a run is of.
#[derive(Clone, Copy)]
pub(crate) struct Course<'a> {
    pub(crate) alloc: Global,
    pub(crate) list: &'a Medl,
    pub(crate) script: &'a Script,
}

/// How far a cluster is.
#[derive(Drop)]
pub(crate) struct Progress {
    /// How many slots there were.
    pub(crate) done: u32,
    /// None once memory was refused.
    pub(crate) nodes: Option<Nodes>,
    pub(crate) report: SlotReport,
    /// The lines of nodes of the report before, whose memory the next one takes.
    pub(crate) spare: Vec<NodeLine>,
}

impl Progress {
    /// One slot, the first that was not done yet: with those who were hired.
    ///
    /// # Errors
    ///
    /// `Memory` where memory was refused, and from then on for good.
    pub(crate) fn slot<'b, 'a, R: Wait, G: Gate>(
        &mut self,
        rt: &R,
        staff: &mut Option<Hired<'b, 'a>>,
        course: &Course<'a>,
        gate: &G,
    ) -> Result<(), Memory>
        requires within { IsOnCourse course.now self.old }
        requires slot { self.old.done < course.now.script.now.slots }
        ensures within { IsOnCourse course.now self.new }
        ensures steps { OnOk result (ClusterSteps (cluster_at course.now self.old) (cluster_at course.now self.new)) }
        ensures bytes { OnOk result (AreBytesBefore course.now.list.now course.now.script.now self.new.done) }
        ensures done { OnOk result (self.new.done ≡ self.old.done + 1) }
        ensures undone { OnErr result (self.new.done ≡ self.old.done) }
        ensures gone { OnErr result (self.new.nodes ≡ None) }
        ensures for_good { self.old.nodes ≡ None → IsErr result }
    {
        let Some(nodes) = &mut self.nodes else {
            return Err(Memory);
        };
        let at = CurrentSlot {
            alloc: course.alloc,
            list: course.list,
            script: course.script,
            slot: self.done,
        };
        let spare = mem::replace(&mut self.spare, Vec::new(at.alloc));
        let Ok(report) = slot_of(rt, staff, &at, nodes, spare, gate) else {
            self.nodes = None;
            return Err(Memory);
        };
        let told = mem::replace(&mut self.report.nodes, List::new(at.alloc));
        self.report = report;
        self.spare = told.into_vec();
        self.done += 1;
        Ok(())
    }
}
