//! The newest slots of a run in which faulty nodes come back.
ghost use Rattle.std.specs.Prelude.{◌≡◌, ◌+◌, ◌<◌, ◌≤◌, ◌^◌};
ghost use Rattle.ttp_world.specs.Hypothesis.{ClusterStart};
ghost use Rattle.ttp_world.specs.declared.medl.Medl.{Medl};
ghost use Rattle.ttp_world.specs.declared.script.Script.{Script};
ghost use Rattle.hypothesis.specs.FaultySlots.{kept_slots, IsFaultySlot, AreNewest};

use ttp_base::NodeSet;

/// A slot of a run.
#[derive(Clone, Copy)]
pub(crate) struct FaultySlot {
    /// The nodes that are faulty at its beginning.
    pub(crate) stayed: NodeSet,
    /// How many become faulty in it.
    pub(crate) joined: u8,
}

/// The newest slots: as many as six rounds of the largest cluster, of which two lie before the slot of an
/// arm line and four from it on. Slot `t` is kept at place `t % 144`.
#[derive(Clone, Copy)]
pub(crate) struct NewestSlots {
    /// The first slot that has not come yet.
    pub(crate) end: u32,
    slots: [FaultySlot; 144],
}

/// Those of a run that has not begun.
pub(crate) fn no_slots() -> NewestSlots
    ensures end { result.end ≡ 0 }
    ensures newest { (list : Medl) (script : Script) (start : ClusterStart) → AreNewest list script start result }
{
    let nothing = FaultySlot {
        stayed: NodeSet::empty(),
        joined: 0,
    };
    NewestSlots {
        end: 0,
        slots: [nothing; 144],
    }
}

/// One of them.
pub(crate) fn slot_at(newest: &NewestSlots, slot: u32) -> FaultySlot
    requires come { slot < newest.now.end }
    requires kept { newest.now.end ≤ slot + kept_slots }
    ensures { (list : Medl) (script : Script) (start : ClusterStart) → AreNewest list script start newest.now
        → IsFaultySlot list script start slot result }
{
    newest.slots[slot as usize % 144]
}

/// Adds the next slot, in the place of the oldest.
pub(crate) fn add_slot(newest: &mut NewestSlots, slot: FaultySlot)
    requires room { newest.old.end + 1 < 2 ^ 32 }
    ensures end { newest.new.end ≡ newest.old.end + 1 }
    ensures newest { (list : Medl) (script : Script) (start : ClusterStart) → AreNewest list script start newest.old
        → IsFaultySlot list script start newest.old.end slot → AreNewest list script start newest.new }
{
    newest.slots[newest.end as usize % 144] = slot;
    newest.end += 1;
}
