//! A script, written line by line.
ghost use Rattle.std.specs.Prelude.{◌≡◌, ◌<◌, length, map, OnOk, OnErr};
ghost use Rattle.ttp_base.specs.Outside.{WroteLines, CutShort};
ghost use Rattle.ttp_world.specs.Script.{on_slot, drift_of};
ghost use Rattle.script_lines.specs.ScriptLines.{slots_line, on_line, on_lines, drift_line, drift_lines};
ghost use Rattle.script_lines.specs.ScriptLines.{all_on_lines, all_drift_lines, event_line, script_lines};

use crate::event_line::event_line;
use line_form::{put_number, put_signed};
use ttp_base::{Failed, Line, Sink};
use ttp_world::{Event, Script};

#[tactic(auto, unfolding(crate::specs::ScriptLines::slots_line, line_form::specs::Forms::worded))]
fn slots_line(count: u32) -> Line
    ensures { result ≡ slots_line count }
{
    let mut line = Line::new();
    put_number(&mut line, "slots ", u64::from(count));
    line.put_text("\n");
    line
}

#[tactic(auto, unfolding(crate::specs::ScriptLines::on_line, line_form::specs::Forms::worded))]
fn on_line(node: usize, slot: u32) -> Line
    ensures { result ≡ on_line node slot }
{
    let mut line = Line::new();
    put_number(&mut line, "on ", node as u64);
    put_number(&mut line, " ", u64::from(slot));
    line.put_text("\n");
    line
}

#[tactic(auto, unfolding(crate::specs::ScriptLines::drift_line, line_form::specs::Forms::worded))]
fn drift_line(node: usize, value: i64) -> Line
    ensures { result ≡ drift_line node value }
{
    let mut line = Line::new();
    put_number(&mut line, "drift ", node as u64);
    put_signed(&mut line, " ", value);
    line.put_text("\n");
    line
}

// Writes the line of a node that is switched on.
fn put_on<K: Sink>(node: usize, on: Option<u32>, out: &mut K) -> Result<(), Failed>
    ensures ok { OnOk result (WroteLines (K.output out.old) (K.output out.new) (on_lines node on)) }
    ensures failed { OnErr result (CutShort (K.output out.old) (K.output out.new) (on_lines node on)) }
{
    match on {
        Some(slot) => out.write(on_line(node, slot).bytes()),
        None => Ok(()),
    }
}

// When a node is switched on.
fn on_slot(script: &Script, node: usize) -> Option<u32>
    requires { node < length script.now.on }
    ensures { result ≡ on_slot script.now node }
{
    *script.on.get(node)
}

// How its clock drifts.
fn drift_of(script: &Script, node: usize) -> i64
    requires { node < length script.now.drift }
    ensures { result ≡ drift_of script.now node }
{
    *script.drift.get(node)
}

// Writes the line of a node whose clock drifts.
fn put_drift<K: Sink>(script: &Script, node: usize, out: &mut K) -> Result<(), Failed>
    requires { node < length script.now.drift }
    ensures ok { OnOk result (WroteLines (K.output out.old) (K.output out.new) (drift_lines node (drift_of script.now node))) }
    ensures failed { OnErr result (CutShort (K.output out.old) (K.output out.new) (drift_lines node (drift_of script.now node))) }
{
    let value = drift_of(script, node);
    if value.unsigned_abs() == 0 {
        return Ok(());
    }
    out.write(drift_line(node, value).bytes())
}

// Writes the lines of all nodes that are switched on.
fn put_all_on<K: Sink>(script: &Script, out: &mut K) -> Result<(), Failed>
    ensures ok { OnOk result (WroteLines (K.output out.old) (K.output out.new) (all_on_lines script.now)) }
    ensures failed { OnErr result (CutShort (K.output out.old) (K.output out.new) (all_on_lines script.now)) }
{
    for node in 0..script.on.len() {
        put_on(node, on_slot(script, node), out)?;
    }
    Ok(())
}

// Writes those of all nodes whose clocks drift.
fn put_all_drifts<K: Sink>(script: &Script, out: &mut K) -> Result<(), Failed>
    ensures ok { OnOk result (WroteLines (K.output out.old) (K.output out.new) (all_drift_lines script.now)) }
    ensures failed { OnErr result (CutShort (K.output out.old) (K.output out.new) (all_drift_lines script.now)) }
{
    for node in 0..script.drift.len() {
        put_drift(script, node, out)?;
    }
    Ok(())
}

// Writes those of all events.
fn put_events<K: Sink>(events: &[Event], out: &mut K) -> Result<(), Failed>
    ensures ok { OnOk result (WroteLines (K.output out.old) (K.output out.new) (map event_line events.now)) }
    ensures failed { OnErr result (CutShort (K.output out.old) (K.output out.new) (map event_line events.now)) }
{
    for event in events {
        out.write(event_line(event).bytes())?;
    }
    Ok(())
}

/// Writes the text of a script. Each line is one piece. `Failed` is the sink's: some whole lines of it were written, and some
/// first bytes of the next, or none. Takes no memory; the cost is one write for each line.
#[tactic(auto, unfolding(crate::specs::ScriptLines::script_lines))]
pub fn put_script<K: Sink>(script: &Script, out: &mut K) -> Result<(), Failed>
    ensures ok { OnOk result (WroteLines (K.output out.old) (K.output out.new) (script_lines script.now)) }
    ensures failed { OnErr result (CutShort (K.output out.old) (K.output out.new) (script_lines script.now)) }
{
    out.write(slots_line(script.slots).bytes())?;
    put_all_on(script, out)?;
    put_all_drifts(script, out)?;
    put_events(script.events.as_slice(), out)
}
