//! Where nodes stand in the cluster cycle, and whom they hold.
ghost use Rattle.std.specs.Prelude.{◌≡◌, ◌+◌, ◌<◌, ◌≤◌, length};
ghost use Rattle.causes.specs.Members.{members_sent};
ghost use Rattle.causes.specs.RunSlots.{place_of_node};
ghost use Rattle.run_rows.specs.Rows.{run_slot};
ghost use Rattle.ttp_world.specs.Diary.{cstate_at};
ghost use Rattle.ttp_world.specs.Medl.{IsValid};

use node_parts::slot_clock::SlotClock;
use run_rows::RunRows;
use ttp_base::NodeSet;
use ttp_world::CState;

/// The slot behind one of a run.
pub(crate) fn slot_behind(run: &RunRows, slot: u32) -> u32
    requires { slot < run.now.slots }
    ensures value { result ≡ slot + 1 }
    ensures within { result ≤ run.now.slots }
{
    if slot < run.slots() { slot + 1 } else { slot }
}

/// Where an active node stands in a slot, with some members.
pub(crate) fn cstate_in(run: &RunRows, slot: u32, node: u8, members: NodeSet) -> CState
    requires slot { slot < run.now.slots }
    requires node { node < length run.now.list.slots }
    ensures value { result ≡ cstate_at (place_of_node node (run_slot run.now slot)) members }
    ensures round { result.round < run.now.list.rounds }
    ensures slot { result.slot < length run.now.list.slots }
    ensures nodes { length run.now.list.slots ≤ 24 }
    ensures valid { IsValid run.now.list }
{
    let mut clock = SlotClock::at(run.list(), &run.row(slot, node).begun.cstate);
    clock.next();
    clock.cstate(members)
}

/// The slot of the round in which an active node is.
pub(crate) fn place_slot(run: &RunRows, slot: u32, node: u8) -> u8
    requires slot { slot < run.now.slots }
    requires node { node < length run.now.list.slots }
    ensures value { result ≡ (place_of_node node (run_slot run.now slot)).slot }
    ensures slot { result < length run.now.list.slots }
{
    cstate_in(run, slot, node, NodeSet::empty()).slot
}

/// The members in the C-state of a node's frame.
pub(crate) fn members_sent(run: &RunRows, slot: u32, node: u8) -> NodeSet
    requires slot { slot < run.now.slots }
    requires node { node < length run.now.list.slots }
    ensures { result ≡ members_sent node (run_slot run.now slot) }
{
    let members = run.row(slot, node).begun.cstate.members;
    cstate_in(run, slot, node, members).members.with(node)
}
