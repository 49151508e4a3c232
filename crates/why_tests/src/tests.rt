//! Why node 2 leaves, where the receivers of nodes 3 and 4 are dead on channel A and one frame of it is lost on B.

ghost use Rattle.ttp_world.specs.Medl.{IsValid};
ghost use Rattle.ttp_world.specs.Script.{IsValidScript};

use causes::{Because, Cause, LineNumbers, ScriptLine, Spot};
use entry_causes::{cause, root};
use medl_text::read_medl;
use run_rows::RunRows;
use script_text::read_script;
use std::alloc::Global;
use std::rt::HostRuntime;
use ttp_base::List;
use ttp_world::{Medl, Script};
use why_answers::{laws, why_answer};

// Five nodes in one round, of which node 0 alone may start the cluster.
const LIST: &[u8] =
    b"version = 1\nrounds = 1\nschedule = 0\nbuffers = 2\ndrift = 0\nerror = 0\nwindow = 1\n[[slot]]\nkinds = \"I\"\ndata = 0\nsync = true\nstart = true\n[[slot]]\nkinds = \"I\"\ndata = 0\nsync = true\nstart = false\n[[slot]]\nkinds = \"I\"\ndata = 0\nsync = true\nstart = false\n[[slot]]\nkinds = \"I\"\ndata = 0\nsync = true\nstart = false\n[[slot]]\nkinds = \"I\"\ndata = 0\nsync = true\nstart = false\n";

const SCRIPT: &[u8] =
    b"slots 45\non 0 0\non 1 0\non 2 0\non 3 0\non 4 0\nreceive 3 A silence 0 44\nreceive 4 A silence 0 44\nsend 2 B silence 22 22\n";

fn is_at(spot: &Spot, slot: u32, node: u8) -> bool {
    spot.slot == slot && spot.node == node
}

// The frame of node 4 holds node 3 and not node 2, as node 4 said in slot 22 and node 3 in slot 23.
fn is_denied(cause: &Cause) -> bool {
    let entries = cause.entries.as_slice();
    matches!(
        cause.because,
        Because::HoldsOne {
            sender: 4,
            held: 3,
            lacked: 2
        }
    ) && entries.len() == 2
        && is_at(&entries[0], 22, 4)
        && is_at(&entries[1], 23, 2)
        && cause.lines.len() == 0
}

// The entry of node 2 in slot 24, and where the node comes from: the cold start of node 0.
fn is_told(alloc: Global, list: &Medl, script: &Script) -> bool
    requires list { IsValid list.now }
    requires script { IsValidScript list.now script.now }
{
    if list.nodes() != 5 || script.slots != 45 {
        return false;
    }
    let Ok(run) = RunRows::new(alloc, list, script, 25) else {
        return false;
    };
    let Ok(cause) = cause(alloc, &run, 24, 2) else {
        return false;
    };
    is_denied(&cause) && root(&run, 2, 24).node == 0
}

fn is_right(alloc: Global) -> bool {
    let Ok(list) = read_medl(alloc, LIST) else {
        return false;
    };
    let Ok(script) = read_script(alloc, &list, SCRIPT) else {
        return false;
    };
    is_told(alloc, &list, &script)
}

#[test]
fn a_latent_fault_takes_its_node_out(rt: HostRuntime) {
    assert!(rt; is_right(rt.alloc()));
}

// The whole text on the newest departure of the node: eight lines and whether the lines of the script suffice.
fn is_answered(alloc: Global) -> bool {
    let Ok(list) = read_medl(alloc, LIST) else {
        return false;
    };
    let Ok(script) = read_script(alloc, &list, SCRIPT) else {
        return false;
    };
    let Ok(answer) = why_answer(alloc, &list, &script, SCRIPT, 2, None) else {
        return false;
    };
    let lines = answer.lines.as_slice();
    answer.status == 0
        && lines.len() == 9
        && lines[1].bytes() == b"line 7 needed yes receive 3 A silence 0 44\n".as_slice()
        && lines[8].bytes() == b"alone yes\n".as_slice()
}

#[test]
fn a_departure_is_told_whole(rt: HostRuntime) {
    assert!(rt; is_answered(rt.alloc()));
}

// Each law of the text, called once.
fn call_laws(alloc: Global, list: &Medl, script: &Script)
    requires { IsValidScript list.now script.now }
{
    let numbers = LineNumbers {
        on: List::new(alloc),
        drift: List::new(alloc),
        events: List::new(alloc),
    };
    laws::lines_are_listed(list, script, &numbers);
    laws::stories_hold_together(list, script);
    laws::causes_stand_above(list, script);
    laws::lines_begin_as_in_the_trace(list, script, &numbers);
    laws::all_lines_suffice(list, script, &numbers);
    laws::entries_alone_are_of_a_trace(list, script, &[ScriptLine::Event(0)]);
}

fn are_called(alloc: Global) -> bool {
    let Ok(list) = read_medl(alloc, LIST) else {
        return false;
    };
    let Ok(script) = read_script(alloc, &list, SCRIPT) else {
        return false;
    };
    call_laws(alloc, &list, &script);
    true
}

#[test]
fn laws_of_the_text(rt: HostRuntime) {
    assert!(rt; are_called(rt.alloc()));
}
