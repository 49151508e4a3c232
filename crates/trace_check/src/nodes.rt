//! The lines of the nodes after a slot, looked for in a text.
ghost use Rattle.std.specs.Prelude.{List as Items, ◌≡◌, ◌<◌, length, IfOk, IfErr};
ghost use Rattle.ttp_world.specs.declared.node.Chosen.{Chosen};
ghost use Rattle.ttp_world.specs.declared.script.Script.{Script};
ghost use Rattle.ttp_world.specs.Diary.{History};
ghost use Rattle.ttp_world.specs.Medl.{IsValid};
ghost use Rattle.ttp_world.specs.Trace.{message_shown};
ghost use Rattle.trace_check.specs.Following.{HasEnded, IsPast, BeginsWith, Departs, node_lines, row_after};

use crate::incoming::Incoming;
use crate::text::{Wrong, expect};
use controller::Plant;
use line_text::{NodeLines, behind_node_line};
use ttp_world::{Entry, Medl};

// The message that a node's line names after the slot.
fn message_shown(
    plant: &Plant,
    incoming: &Incoming,
    list: &Medl,
    slot: u32,
    node: u8,
    entry: &Entry,
) -> Option<u64>
    requires list { IsValid list.now }
    requires node { node < length list.now.slots }
    requires past { IsPast plant.now incoming.now list.now slot }
    ensures { (script : Script) (history : History) (chosen : Items Chosen)
        → HasEnded plant.now incoming.now list.now script history chosen
        → result ≡ message_shown list.now script (row_after list.now script history chosen) history node entry.now }
{
    match entry {
        Entry::Sent { message } => *message,
        Entry::Judged { .. } => match plant.delivered(node) {
            Some(delivered) => Some(incoming.payload(node, delivered.sender).number + 1),
            None => None,
        },
        _ => None,
    }
}

/// What is left of a text behind the lines of the nodes after a slot, or from the first of them on that
/// the text doesn't have.
pub(crate) fn follow_nodes<'a>(
    plant: &Plant,
    incoming: &Incoming,
    lines: &mut NodeLines,
    list: &Medl,
    slot: u32,
    text: &'a [u8],
) -> Result<&'a [u8], Wrong<'a>>
    requires list { IsValid list.now }
    requires past { IsPast plant.now incoming.now list.now slot }
    ensures ok { (script : Script) (history : History) (chosen : Items Chosen)
        → HasEnded plant.now incoming.now list.now script history chosen
        → IfOk result (λ rest. BeginsWith text.now (node_lines list.now script history chosen) rest.now) }
    ensures wrong { (script : Script) (history : History) (chosen : Items Chosen)
        → HasEnded plant.now incoming.now list.now script history chosen
        → IfErr result (λ wrong. Departs text.now (node_lines list.now script history chosen) wrong.text.now) }
{
    lines.begin(slot);
    let mut rest = text;
    for node in 0..list.nodes() {
        let state = plant.node(node);
        let message = message_shown(plant, incoming, list, slot, node, &state.entry);
        let behind = behind_node_line(list, node, &state, message, lines, rest);
        rest = expect(behind, rest)?;
    }
    Ok(rest)
}
