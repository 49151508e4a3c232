//! The waveform of a trace, written.
#![tactic(auto, using(ttp_base::proofs::Puts::puts))]

ghost use Rattle.std.specs.Prelude.{◌≡◌, ◌<◌, ◌≤◌, [], ◌∷◌, length, All, Err, OnOk};
ghost use Rattle.ttp_base.specs.Outside.{WroteLines, CutShort};
ghost use Rattle.ttp_base.specs.Sheet.{Puts};
ghost use Rattle.shown_slot.specs.Trace.{member_room, trace_ports};
ghost use Rattle.wave_text.specs.Moment.{ShowsMessages};
ghost use Rattle.wave_text.specs.Variables.{HasLetters};
ghost use Rattle.wave_text.specs.Wave.{all_slots_lines, first_slot_lines, later_lines, slot_change_lines, time_line};
ghost use Rattle.wave_text.specs.Wave.{wave_lines};
ghost use Rattle.wave_text.specs.declared.place.TheConstants.{PLACES};

use crate::declare::put_declarations;
use crate::draft::Draft;
use crate::head::put_head;
use crate::newest::{no_messages, note_slot};
use crate::page::Page;
use crate::ports::find_ports;
use crate::slot::{Moment, put_slot_changes};
use shown_slot::{Message, Port};
use std::alloc::Global;
use ttp_base::Sink;
use whole_trace::{SlotShown, Slots, Whole};

/// Why a waveform was not written whole.
#[derive(Clone, Copy, PartialEq, Eq)]
pub enum WaveFault {
    /// The sink's count of faults rose.
    Failed,
    /// Memory was refused.
    Memory,
}

// For how many nodes members have room.
fn member_room(trace: &Whole) -> u8
    ensures value { result ≡ member_room trace.now }
    ensures few { result ≤ 24 }
{
    if trace.head().version == 2 { 24 } else { 16 }
}

// Makes the line of the time of a slot.
#[tactic(auto, using(ttp_base::proofs::Room::room))]
fn make_time(line: &mut Draft, slot: u32)
    ensures { line.new ≡ time_line slot }
{
    line.clear();
    line.put_text("#");
    line.put_number(u64::from(slot));
    line.put_text("\n");
}

// Writes the time of a slot.
fn put_time<K: Sink>(slot: u32, page: &mut Page, out: &mut K)
    ensures { Puts page.old.sheet.failed (K.output out.old) page.new.sheet.failed (K.output out.new)
        (time_line slot ∷ []) }
{
    make_time(&mut page.now, slot);
    page.write(out);
}

// A slot with its messages, in a table whose entries are written over.
#[tactic(auto)]
fn moment<'a>(slot: SlotShown<'a>, ports: &[Port], table: Vec<Option<Message>>) -> Moment<'a>
    requires size { length table.items ≡ PLACES }
    requires ports { All HasLetters ports.now }
    ensures slot { result.slot ≡ slot.entry }
    ensures messages { ShowsMessages ports.now result }
    ensures size { length result.messages.items ≡ PLACES }
{
    let mut messages = table;
    note_slot(&mut messages, ports, &slot);
    Moment { slot, messages }
}

// Writes the first slot.
fn put_first_slot<K: Sink>(
    width: u8,
    nodes: u8,
    ports: &[Port],
    now: &Moment,
    page: &mut Page,
    out: &mut K,
)
    requires width { width ≤ 24 }
    requires nodes { nodes ≤ 24 }
    requires ports { All HasLetters ports.now }
    requires now { ShowsMessages ports.now now.now }
    ensures { Puts page.old.sheet.failed (K.output out.old) page.new.sheet.failed (K.output out.new)
        (first_slot_lines width nodes ports.now now.now.slot) }
{
    put_time(0, page, out);
    page.sheet.put(b"$dumpvars\n", out);
    put_slot_changes(width, nodes, ports, true, now, now, page, out);
    page.sheet.put(b"$end\n", out);
}

// Writes a later slot.
fn put_slot<'t, K: Sink>(
    width: u8,
    nodes: u8,
    ports: &[Port],
    time: u32,
    before: &Moment<'t>,
    now: &Moment<'t>,
    page: &mut Page,
    out: &mut K,
)
    requires width { width ≤ 24 }
    requires nodes { nodes ≤ 24 }
    requires ports { All HasLetters ports.now }
    requires before { ShowsMessages ports.now before.now }
    requires now { ShowsMessages ports.now now.now }
    ensures { Puts page.old.sheet.failed (K.output out.old) page.new.sheet.failed (K.output out.new)
        (slot_change_lines width nodes ports.now time before.now.slot now.now.slot) }
{
    put_time(time, page, out);
    put_slot_changes(width, nodes, ports, false, before, now, page, out);
}

// Writes the slots behind the first one, and the end of the last.
fn put_later_slots<K: Sink>(
    width: u8,
    nodes: u8,
    ports: &[Port],
    slots: Slots,
    first: Moment,
    table: Vec<Option<Message>>,
    page: &mut Page,
    out: &mut K,
)
    requires width { width ≤ 24 }
    requires nodes { nodes ≤ 24 }
    requires ports { All HasLetters ports.now }
    requires few { length slots < 20000 }
    requires first { ShowsMessages ports.now first }
    requires messages { length first.messages.items ≡ PLACES }
    requires table { length table.items ≡ PLACES }
    ensures { Puts page.old.sheet.failed (K.output out.old) page.new.sheet.failed (K.output out.new)
        (later_lines width nodes ports.now 1 first.entry.slot slots.entry) }
{
    let mut slots = slots;
    let mut before = first;
    let mut spare = table;
    let mut time: u32 = 1;
    while let Some(slot) = slots.next_slot() {
        let now = moment(slot, ports, spare);
        put_slot(width, nodes, ports, time, &before, &now, page, out);
        // What was kept of the slot before is written over with the next.
        spare = before.messages;
        before = now;
        time += 1;
    }
    put_time(time, page, out);
}

// Writes slots, with room for the messages of two of them.
fn put_slots<K: Sink>(
    width: u8,
    nodes: u8,
    ports: &[Port],
    slots: Slots,
    one: Vec<Option<Message>>,
    other: Vec<Option<Message>>,
    page: &mut Page,
    out: &mut K,
)
    requires width { width ≤ 24 }
    requires nodes { nodes ≤ 24 }
    requires ports { All HasLetters ports.now }
    requires few { length slots ≤ 20000 }
    requires one { length one.items ≡ PLACES }
    requires other { length other.items ≡ PLACES }
    ensures { Puts page.old.sheet.failed (K.output out.old) page.new.sheet.failed (K.output out.new)
        (all_slots_lines width nodes ports.now slots.entry) }
{
    let mut slots = slots;
    match slots.next_slot() {
        None => put_time(0, page, out),
        Some(slot) => {
            let first = moment(slot, ports, one);
            put_first_slot(width, nodes, ports, &first, page, out);
            put_later_slots(width, nodes, ports, slots, first, other, page, out);
        }
    }
}

// Writes the waveform, with what hosts do in the trace and room for the messages of two slots.
fn put_all<K: Sink>(
    trace: &Whole,
    ports: &[Port],
    one: Vec<Option<Message>>,
    other: Vec<Option<Message>>,
    page: &mut Page,
    out: &mut K,
)
    requires ports { All HasLetters ports.now }
    requires found { ports.now ≡ trace_ports trace.now }
    requires one { length one.items ≡ PLACES }
    requires other { length other.items ≡ PLACES }
    ensures { Puts page.old.sheet.failed (K.output out.old) page.new.sheet.failed (K.output out.new)
        (wave_lines trace.now) }
{
    let width = member_room(trace);
    let nodes = trace.head().nodes;
    put_head(trace, page, out);
    put_declarations(width, nodes, ports, page, out);
    page.sheet.put(b"$enddefinitions $end\n", out);
    put_slots(width, nodes, ports, trace.slots(), one, other, page, out);
}

/// Writes the waveform of a trace, each of its lines as one piece.
///
/// All memory is taken before the first line is written, less than a mebibyte, however many slots there are. The
/// trace is gone over twice, the first time by the lines of hosts alone. A slot costs the reading of its lines and,
/// for each variable that is read from something else than before, its value after the slot and the one before; what
/// the line of a host costs does not grow with how many things hosts do.
///
/// `Failed` is the sink's: some first lines were written, or none, and perhaps some first bytes of the next.
/// Where memory is refused nothing is written.
#[tactic(auto)]
pub fn put_wave<K: Sink>(alloc: Global, trace: &Whole, out: &mut K) -> Result<(), WaveFault>
    ensures ok { OnOk result (WroteLines (K.output out.old) (K.output out.new) (wave_lines trace.now)) }
    ensures failed { result ≡ Err WaveFault.Failed
        → CutShort (K.output out.old) (K.output out.new) (wave_lines trace.now) }
    ensures memory { result ≡ Err WaveFault.Memory → K.output out.new ≡ K.output out.old }
{
    let Ok(ports) = find_ports(alloc, trace) else {
        return Err(WaveFault::Memory);
    };
    let Ok(one) = no_messages(alloc) else {
        return Err(WaveFault::Memory);
    };
    let Ok(other) = no_messages(alloc) else {
        return Err(WaveFault::Memory);
    };
    let mut page = Page::new();
    put_all(trace, ports.as_slice(), one, other, &mut page, out);
    if page.sheet.failed {
        Err(WaveFault::Failed)
    } else {
        Ok(())
    }
}
