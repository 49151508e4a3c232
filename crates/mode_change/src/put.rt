//! The text of modes, written.
ghost use Rattle.std.specs.Prelude.{◌≡◌, [], ◌∷◌, length, OnOk, OnErr, IfErr, IsTrue, List as Items};
ghost use Rattle.ttp_base.specs.Outside.{WroteLines, CutShort, Wrote};
ghost use Rattle.ttp_base.specs.Text.{lines_of};
ghost use Rattle.ttp_world.specs.declared.node.Entry.{Entry};
ghost use Rattle.ttp_world.specs.declared.script.Script.{Script as Said};
ghost use Rattle.ttp_world.specs.Diary.{History};
ghost use Rattle.ttp_world.specs.Medl.{IsValid};
ghost use Rattle.ttp_world.specs.Script.{IsValidScript};
ghost use Rattle.ttp_world.specs.TraceNumbers.{numbers_in};
ghost use Rattle.trace_check.specs.Answer.{is_trace};
ghost use Rattle.trace_run.specs.Run.{TraceStandsFor};
ghost use Rattle.mode_change.specs.Knowing.{IsKnownAfter, KnowAll};
ghost use Rattle.mode_change.specs.ModeText.{mode_slot_lines, mode_lines};

use crate::all_nodes::{know_slot, new_nodes};
use crate::line::{head_line, make_line};
use crate::node::NodeModes;
use line_text::cut_line;
use std::alloc::Global;
use trace_run::TraceRun;
use ttp_base::{Failed, Line, Sink};
use ttp_world::{Medl, Script};

// Writes the lines of the nodes after a slot.
fn put_nodes<K: Sink>(
    list: &Medl,
    slot: u32,
    nodes: &[NodeModes],
    line: &mut Line,
    out: &mut K,
) -> Result<(), Failed>
    requires list { IsValid list.now }
    requires known { IsKnownAfter nodes.now list.now slot }
    ensures ok { (script : Said) (row : Items Entry) (history : History) → slot ≡ length history
        → KnowAll nodes.now list.now script (row ∷ history)
        → OnOk result (WroteLines (K.output out.old) (K.output out.new)
        (mode_slot_lines list.now script row history)) }
    ensures failed { (script : Said) (row : Items Entry) (history : History) → slot ≡ length history
        → KnowAll nodes.now list.now script (row ∷ history)
        → OnErr result (CutShort (K.output out.old) (K.output out.new)
        (mode_slot_lines list.now script row history)) }
{
    for node in 0..list.nodes() {
        let known = &nodes[usize::from(node)];
        make_line(slot, node, &known.modes, known.live, line);
        out.write(line.bytes())?;
    }
    Ok(())
}

// Writes the text of modes by a run that has not begun.
fn put_all<K: Sink>(
    run: TraceRun,
    nodes: Vec<NodeModes>,
    list: &Medl,
    script: &Script,
    text: &[u8],
    out: &mut K,
) -> Result<(), Failed>
    requires list { IsValid list.now }
    requires script { IsValidScript list.now script.now }
    requires trace { IsTrue (is_trace list.now script.now text.now) }
    requires begun { TraceStandsFor run list.now script.now [] }
    requires known { KnowAll nodes.items list.now script.now [] }
    ensures ok { OnOk result (WroteLines (K.output out.old) (K.output out.new)
        (mode_lines list.now script.now (numbers_in list.now script.now (lines_of text.now)))) }
    ensures failed { OnErr result (CutShort (K.output out.old) (K.output out.new)
        (mode_lines list.now script.now (numbers_in list.now script.now (lines_of text.now)))) }
{
    let mut run = run;
    let mut nodes = nodes;
    let mut line = Line::new();
    out.write(head_line(list, script).bytes())?;
    let mut rest = cut_line(text).1;
    for slot in 0..script.slots {
        run.make(list, script, slot, rest);
        know_slot(run.plant(), run.chosen(), &mut nodes, list);
        put_nodes(list, slot, &nodes, &mut line, out)?;
        rest = run.pass(list, script, slot, rest);
    }
    Ok(())
}

/// Why the text of modes was not written whole.
#[derive(Clone, Copy, PartialEq, Eq)]
pub enum ModeFault {
    /// The sink's count of faults rose.
    Failed,
    /// Memory was refused.
    Memory,
}

/// Writes the text of modes for a trace: its first line, and then for each slot the line of each node, each
/// line as one piece. The text is the trace of a run by the message numbers that its lines name; they tell
/// which messages the frames carried, and so what they asked for.
///
/// All memory is taken before the first line is written, and it does not grow with the text.
///
/// # Errors
///
/// `Failed` where the sink failed: some first lines were written, or none, and perhaps some first bytes of
/// the next. `Memory` where memory was refused: nothing was written.
pub fn put_modes<K: Sink>(
    alloc: Global,
    list: &Medl,
    script: &Script,
    text: &[u8],
    out: &mut K,
) -> Result<(), ModeFault>
    requires list { IsValid list.now }
    requires script { IsValidScript list.now script.now }
    requires trace { IsTrue (is_trace list.now script.now text.now) }
    ensures ok { OnOk result (WroteLines (K.output out.old) (K.output out.new)
        (mode_lines list.now script.now (numbers_in list.now script.now (lines_of text.now)))) }
    ensures failed { IfErr result (λ fault. fault ≡ ModeFault.Failed → CutShort (K.output out.old) (K.output out.new)
        (mode_lines list.now script.now (numbers_in list.now script.now (lines_of text.now)))) }
    ensures memory { IfErr result (λ fault. fault ≡ ModeFault.Memory → Wrote (K.output out.old) (K.output out.new) []) }
{
    let (Ok(nodes), Ok(run)) = (new_nodes(alloc, list), TraceRun::new(alloc, list)) else {
        return Err(ModeFault::Memory);
    };
    match put_all(run, nodes, list, script, text, out) {
        Ok(()) => Ok(()),
        Err(_) => Err(ModeFault::Failed),
    }
}
