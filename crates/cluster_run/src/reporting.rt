//! The lines of nodes.
ghost use Rattle.std.specs.Prelude.{◌≡◌, ◌≤◌, [], List as Items, length, map, vec_capacity, IfOk};
ghost use Rattle.ttp_base.specs.NodeSet.{below};
ghost use Rattle.ttp_world.specs.declared.medl.Medl.{Medl};
ghost use Rattle.ttp_world.specs.declared.script.Script.{Script};
ghost use Rattle.ttp_world.specs.Diary.{History};
ghost use Rattle.cluster_run.specs.Ends.{desk_numbers};
ghost use Rattle.cluster_run.specs.Report.{message_named, node_shown, HaveEndedSlot};

use crate::nodes::Desk;
use controller::Seat;
use host_port::NodeLine;
use std::alloc::Global;
use ttp_base::{List, Memory};
use ttp_world::Entry;

// The message that a node's line names: the one in its frame, or the one that was delivered.
fn message_shown(entry: &Entry, delivered: Option<u64>) -> Option<u64>
    ensures { result ≡ message_named entry.now delivered }
{
    match entry {
        Entry::Sent { message } => *message,
        Entry::Judged { .. } => delivered,
        _ => None,
    }
}

// No lines, with room for so many: in this memory where it suffices, and else in new memory.
fn emptied(alloc: Global, mut lines: Vec<NodeLine>, room: usize) -> Result<Vec<NodeLine>, Memory>
    ensures empty { IfOk result (λ lines. lines.items ≡ []) }
    ensures room { IfOk result (λ lines. room ≤ vec_capacity lines) }
{
    if lines.capacity() < room {
        return Ok(Vec::with_capacity(alloc, room)?);
    }
    lines.clear();
    Ok(lines)
}

/// The lines of all nodes after a slot, by the numbers of what they delivered in it, which their desks keep. They are
/// written over `spare`, lines that are told no more, where these have room.
pub(crate) fn node_lines(
    alloc: Global,
    spare: Vec<NodeLine>,
    seats: &[Seat],
    desks: &[Desk],
) -> Result<List<NodeLine>, Memory>
    requires { length desks.now ≡ length seats.now }
    ensures { IfOk result (λ lines. (list : Medl) (script : Script) (row : Items Entry) (before : History)
        → HaveEndedSlot list script row before seats.now (desk_numbers desks.now)
        → lines ≡ map (node_shown list script row before) (below (length seats.now))) }
{
    let mut lines = emptied(alloc, spare, seats.len())?;
    for k in 0..seats.len() {
        let state = seats[k].controller.state();
        // Its entry is asked for anew: where one state serves both, it is put together piece by piece, and a run
        // takes 1% more instructions.
        let message = message_shown(&seats[k].controller.state().entry, desks[k].delivered);
        lines.push_reserved(NodeLine { state, message });
    }
    Ok(List::from_vec(lines))
}
