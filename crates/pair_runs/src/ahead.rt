//! What single faults cost, up to the slot that pairs reach to.
ghost use Rattle.std.specs.Prelude.{◌≡◌, ◌+◌, ◌<◌, ◌≤◌, IfOk, OnOk};
ghost use Rattle.ttp_world.specs.Medl.{IsValid};
ghost use Rattle.ttp_world.specs.Script.{IsValidScript};
ghost use Rattle.run_costs.specs.Standing.{IsRunOfList};
ghost use Rattle.fault_runs.specs.Tries.{IsOwnAfter};
ghost use Rattle.pair_runs.specs.Tries.{MayPair};
ghost use Rattle.pair_runs.specs.Written.{slots_kept, AreSingles, IsAhead, faults_at};

use crate::singles::Singles;
use crate::tried::PairsSetting;
use fault_runs::{OwnRun, row_of};
use run_costs::SeenRun;
use single_faults::faults_in;
use std::alloc::Global;
use ttp_base::{List, Memory};
use ttp_world::{Event, Medl, Script};

// How many slots of single faults are kept at most.
const SLOTS_KEPT: u32 = 256;

/// The script's own run, ahead of the first faults, and what single faults cost in the newest of its slots.
#[derive(Drop)]
pub(crate) struct OwnAhead {
    own: OwnRun,
    next: u32,
    pub(crate) rows: Vec<Singles>,
}

/// The place of a slot among those that are kept.
pub(crate) fn place_of(slot: u32) -> usize
    ensures { result < slots_kept }
{
    (slot % SLOTS_KEPT) as usize
}

/// The faults that are tried in the newest slot of a run.
pub(crate) fn faults_at(
    alloc: Global,
    list: &Medl,
    script: &Script,
    own: &OwnRun,
    slot: u32,
) -> Result<List<Event>, Memory>
    requires valid { IsValid list.now }
    requires script { IsValidScript list.now script.now }
    requires slot { slot < script.now.slots }
    requires own { IsOwnAfter own.now list.now script.now (slot + 1) }
    ensures { IfOk result (λ faults. faults ≡ faults_at list.now script.now slot) }
{
    let row = row_of(alloc, own.states(list))?;
    faults_in(alloc, list, script, row.as_slice(), slot)
}

// No single faults of so many slots.
fn no_rows(alloc: Global) -> Result<Vec<Singles>, Memory>
    ensures { (list : Medl) (script : Script) → IfOk result (λ rows. AreSingles list script rows.items) }
{
    let mut rows = Vec::new(alloc);
    for _ in 0..SLOTS_KEPT {
        rows.push(Singles::none(alloc))?;
    }
    Ok(rows)
}

impl OwnAhead {
    /// Before the first slot.
    pub(crate) fn new(alloc: Global, list: &Medl, script: &Script) -> Result<OwnAhead, Memory>
        requires valid { IsValid list.now }
        requires script { IsValidScript list.now script.now }
        ensures ahead { IfOk result (λ ahead. IsAhead list.now script.now ahead) }
        ensures next { IfOk result (λ ahead. ahead.next ≡ 0) }
    {
        Ok(OwnAhead {
            own: OwnRun::new(alloc, list, script)?,
            next: 0,
            rows: no_rows(alloc)?,
        })
    }

    // Runs the next slot, and its single faults where pairs reach to it.
    fn look_at(&mut self, common: &PairsSetting, slot: u32, run: &mut SeenRun) -> Result<(), Memory>
        requires may { MayPair common.now }
        requires slot { slot < common.now.script.now.slots }
        requires ahead { IsAhead common.now.list.now common.now.script.now self.old }
        requires next { self.old.next ≡ slot }
        requires run { IsRunOfList run.old.run common.now.list.now }
        ensures ahead { OnOk result (IsAhead common.now.list.now common.now.script.now self.new) }
        ensures next { OnOk result (self.new.next ≡ slot + 1) }
        ensures run { OnOk result (IsRunOfList run.new.run common.now.list.now) }
    {
        let (alloc, list, script) = (common.alloc, common.list, common.script);
        self.own.step(list, script, slot);
        self.next = slot + 1;
        if slot < common.first {
            return Ok(());
        }
        let faults = faults_at(alloc, list, script, &self.own, slot)?;
        let singles = Singles::of(
            alloc,
            list,
            script,
            faults.as_slice(),
            &self.own.before,
            run,
        )?;
        self.rows[place_of(slot)] = singles;
        Ok(())
    }

    /// Runs the slots before this one that it has not run yet.
    pub(crate) fn look_to(
        &mut self,
        common: &PairsSetting,
        end: u32,
        run: &mut SeenRun,
    ) -> Result<(), Memory>
        requires may { MayPair common.now }
        requires end { end ≤ common.now.script.now.slots }
        requires ahead { IsAhead common.now.list.now common.now.script.now self.old }
        requires run { IsRunOfList run.old.run common.now.list.now }
        ensures ahead { OnOk result (IsAhead common.now.list.now common.now.script.now self.new) }
        ensures run { OnOk result (IsRunOfList run.new.run common.now.list.now) }
    {
        for slot in self.next..end {
            self.look_at(common, slot, run)?;
        }
        Ok(())
    }
}
