//! The text of frames, written.
ghost use Rattle.std.specs.Prelude.{◌≡◌, ℤ, ◌^◌, ◌<◌, ◌≤◌, ◌&&◌, not, pos, [], false, length, nat_le, unsigned_abs, ◌+ℤ◌};
ghost use Rattle.std.specs.Prelude.{get_or, ℕ, OnOk, OnErr, IfErr, IfOk, IsTrue, List as Items};
ghost use Rattle.ttp_base.specs.Outside.{WroteLines, CutShort, Wrote};
ghost use Rattle.ttp_base.specs.Text.{lines_of};
ghost use Rattle.ttp_world.specs.declared.node.Chosen.{Chosen as Choice};
ghost use Rattle.ttp_world.specs.declared.node.Entry.{Entry as Did};
ghost use Rattle.ttp_world.specs.declared.script.Fault.TheVariants as fault;
ghost use Rattle.ttp_world.specs.declared.script.TheConstants.{SLOT_LIMIT};
ghost use Rattle.ttp_world.specs.Diary.{History, entry_of};
ghost use Rattle.ttp_world.specs.Medium.{Signal, is_sending};
ghost use Rattle.ttp_world.specs.Medl.{IsValid};
ghost use Rattle.ttp_world.specs.Script.{AreBounded, IsValidScript, has_send_fault};
ghost use Rattle.ttp_world.specs.TraceNumbers.{numbers_in};
ghost use Rattle.medium.specs.Shows.{Shows};
ghost use Rattle.trace_check.specs.Answer.{is_trace};
ghost use Rattle.trace_run.specs.Run.{TraceStandsFor};
ghost use Rattle.bus_frames.specs.FrameText.{channel_lines, frame_line, frame_lines, frame_slot_lines};
ghost use Rattle.bus_frames.specs.Standing.{AreNear, AreClocksShown, IsAsLong, IsPastSlot, IsSendable, IsSomeChoice, IsSomePast};
ghost use Rattle.bus_frames.specs.Standing.{SlotStands, frames_there, lines_of_node};

use crate::line::{collision_line, head_line, signal_line};
use crate::sending::{Sending, is_sending, sending_of};
use controller::Plant;
use line_text::cut_line;
use medium::{Arrival, is_among};
use std::alloc::Global;
use trace_run::TraceRun;
use ttp_base::{Failed, Line, List, Memory, Sink};
use ttp_world::{Channel, Incidents, Medl, Script};

// Whether a frame of a node lies on a channel in the slot that the plant is past, be it as noise.
fn lies_on(
    list: &Medl,
    script: &Script,
    slot: u32,
    plant: &Plant,
    node: u8,
    channel: Channel,
) -> bool
    requires list { IsValid list.now }
    requires node { node < length list.now.slots }
    requires past { IsPastSlot plant.now list.now }
    ensures { (chosen : Items Choice) (offsets : Items ℤ) (row : Items Did) (before : History)
        → SlotStands plant.now chosen offsets list.now script.now slot row before
        → result ≡ (is_sending (entry_of row node)
        && not (has_send_fault script.now fault.Silence node channel slot)) }
{
    is_sending(plant.node(node).entry)
        && !is_among(channel, script.incidents(node, slot).send_silence)
}

// How many frames do.
fn count_on(list: &Medl, script: &Script, slot: u32, plant: &Plant, channel: Channel) -> u8
    requires list { IsValid list.now }
    requires past { IsPastSlot plant.now list.now }
    ensures { (chosen : Items Choice) (offsets : Items ℤ) (row : Items Did) (before : History)
        → SlotStands plant.now chosen offsets list.now script.now slot row before
        → result ≡ length (frames_there list.now script.now row before channel) }
{
    let mut many: u8 = 0;
    for node in 0..list.nodes() {
        if lies_on(list, script, slot, plant, node, channel) {
            many += 1;
        }
    }
    many
}

// Forms the line of a frame, where this is on the channel, be it that it meets another.
fn form_line(
    list: &Medl,
    slot: u32,
    channel: Channel,
    sending: &Sending,
    there: &Arrival,
    meets: bool,
    line: &mut Line,
)
    requires valid { IsValid list.now }
    requires sendable { IsSendable list.now sending.now }
    requires long { meets ≡ false → IsAsLong list.now sending.now there.now }
    ensures { (s : Signal) (clock : ℕ → ℤ) → (meets ≡ false → Shows there.now s clock)
        → line.new ≡ frame_line list.now slot channel sending.now meets s }
{
    if meets {
        collision_line(list, slot, channel, sending, line);
    } else {
        signal_line(list, slot, channel, sending, there, line);
    }
}

// The clock of a node with the jumps of a slot.
fn clock_of(offset: i64, incidents: &Incidents) -> i64
    requires near { unsigned_abs offset ≤ 2 ^ 60 }
    requires bounds { AreBounded incidents.now }
    ensures value { result ≡ offset +ℤ incidents.now.jump }
    ensures near { unsigned_abs result ≤ 2 ^ 61 }
{
    offset + incidents.jump
}

// Writes the line of the frame of a node, if it lies on the channel.
fn put_node<K: Sink>(
    list: &Medl,
    script: &Script,
    slot: u32,
    plant: &Plant,
    node: u8,
    offset: i64,
    channel: Channel,
    meets: bool,
    line: &mut Line,
    out: &mut K,
) -> Result<(), Failed>
    requires list { IsValid list.now }
    requires node { node < length list.now.slots }
    requires past { IsSomePast plant.now list.now script.now slot node channel meets offset }
    requires near { unsigned_abs offset ≤ 2 ^ 60 }
    ensures ok { (all : Items Choice) (offsets : Items ℤ) (row : Items Did) (before : History)
        → SlotStands plant.now all offsets list.now script.now slot row before
        → offset ≡ get_or offsets node (pos 0)
        → meets ≡ nat_le 2 (length (frames_there list.now script.now row before channel))
        → OnOk result (WroteLines (K.output out.old) (K.output out.new)
        (lines_of_node list.now script.now row before channel (frames_there list.now script.now row before channel) node)) }
    ensures failed { (all : Items Choice) (offsets : Items ℤ) (row : Items Did) (before : History)
        → SlotStands plant.now all offsets list.now script.now slot row before
        → offset ≡ get_or offsets node (pos 0)
        → meets ≡ nat_le 2 (length (frames_there list.now script.now row before channel))
        → OnErr result (CutShort (K.output out.old) (K.output out.new)
        (lines_of_node list.now script.now row before channel (frames_there list.now script.now row before channel) node)) }
{
    if !lies_on(list, script, slot, plant, node, channel) {
        return Ok(());
    }
    let incidents = script.incidents(node, slot);
    let Some(sending) = sending_of(list, plant, node, clock_of(offset, &incidents)) else {
        return Ok(());
    };
    form_line(
        list,
        slot,
        channel,
        &sending,
        &plant.carried(channel),
        meets,
        line,
    );
    out.write(line.bytes())
}

// Writes the lines of a channel.
fn put_channel<K: Sink>(
    list: &Medl,
    script: &Script,
    slot: u32,
    plant: &Plant,
    offsets: &[i64],
    channel: Channel,
    line: &mut Line,
    out: &mut K,
) -> Result<(), Failed>
    requires list { IsValid list.now }
    requires past { IsSomeChoice plant.now offsets.now list.now script.now slot }
    requires near { AreNear offsets.now }
    requires count { length offsets.now ≡ length list.now.slots }
    ensures ok { (chosen : Items Choice) (row : Items Did) (before : History)
        → SlotStands plant.now chosen offsets.now list.now script.now slot row before
        → OnOk result (WroteLines (K.output out.old) (K.output out.new)
        (channel_lines list.now script.now row before channel)) }
    ensures failed { (chosen : Items Choice) (row : Items Did) (before : History)
        → SlotStands plant.now chosen offsets.now list.now script.now slot row before
        → OnErr result (CutShort (K.output out.old) (K.output out.new)
        (channel_lines list.now script.now row before channel)) }
{
    let meets = count_on(list, script, slot, plant, channel) >= 2;
    for node in 0..list.nodes() {
        let k = usize::from(node);
        put_node(
            list, script, slot, plant, node, offsets[k], channel, meets, line, out,
        )?;
    }
    Ok(())
}

// Writes the lines of a slot.
fn put_slot<K: Sink>(
    list: &Medl,
    script: &Script,
    slot: u32,
    plant: &Plant,
    offsets: &[i64],
    line: &mut Line,
    out: &mut K,
) -> Result<(), Failed>
    requires list { IsValid list.now }
    requires past { IsSomeChoice plant.now offsets.now list.now script.now slot }
    requires near { AreNear offsets.now }
    requires count { length offsets.now ≡ length list.now.slots }
    ensures ok { (chosen : Items Choice) (row : Items Did) (before : History)
        → SlotStands plant.now chosen offsets.now list.now script.now slot row before
        → OnOk result (WroteLines (K.output out.old) (K.output out.new)
        (frame_slot_lines list.now script.now row before)) }
    ensures failed { (chosen : Items Choice) (row : Items Did) (before : History)
        → SlotStands plant.now chosen offsets.now list.now script.now slot row before
        → OnErr result (CutShort (K.output out.old) (K.output out.new)
        (frame_slot_lines list.now script.now row before)) }
{
    put_channel(list, script, slot, plant, offsets, Channel::A, line, out)?;
    put_channel(list, script, slot, plant, offsets, Channel::B, line, out)
}

// Notes the clocks that a plant shows.
fn note_offsets(list: &Medl, plant: &Plant, offsets: &mut [i64])
    requires list { IsValid list.now }
    requires same { plant.now.list ≡ list.now }
    requires count { length offsets.old ≡ length list.now.slots }
    requires early { plant.now.slot ≤ SLOT_LIMIT }
    ensures count { length offsets.new ≡ length offsets.old }
    ensures shown { AreClocksShown offsets.new plant.now }
    ensures near { AreNear offsets.new }
{
    for node in 0..list.nodes() {
        offsets[usize::from(node)] = plant.node(node).offset;
    }
}

// Writes the text of frames by a run that has not begun, and clocks that show 0.
fn put_all<K: Sink>(
    run: TraceRun,
    offsets: Vec<i64>,
    list: &Medl,
    script: &Script,
    text: &[u8],
    out: &mut K,
) -> Result<(), Failed>
    requires list { IsValid list.now }
    requires script { IsValidScript list.now script.now }
    requires trace { IsTrue (is_trace list.now script.now text.now) }
    requires begun { TraceStandsFor run list.now script.now [] }
    requires count { length offsets.items ≡ length list.now.slots }
    requires zeros { (k : ℕ) → get_or offsets.items k (pos 0) ≡ pos 0 }
    ensures ok { OnOk result (WroteLines (K.output out.old) (K.output out.new)
        (frame_lines list.now script.now (numbers_in list.now script.now (lines_of text.now)))) }
    ensures failed { OnErr result (CutShort (K.output out.old) (K.output out.new)
        (frame_lines list.now script.now (numbers_in list.now script.now (lines_of text.now)))) }
{
    let mut run = run;
    let mut offsets = offsets;
    let mut line = Line::new();
    out.write(head_line(list, script).bytes())?;
    let mut rest = cut_line(text).1;
    for slot in 0..script.slots {
        run.make(list, script, slot, rest);
        put_slot(list, script, slot, run.plant(), &offsets, &mut line, out)?;
        note_offsets(list, run.plant(), &mut offsets);
        rest = run.pass(list, script, slot, rest);
    }
    Ok(())
}

/// Why the text of frames was not written whole.
#[derive(Clone, Copy, PartialEq, Eq)]
pub enum FrameFault {
    /// The sink's count of faults rose.
    Failed,
    /// Memory was refused.
    Memory,
}

fn zeros(alloc: Global, list: &Medl) -> Result<Vec<i64>, Memory>
    requires { IsValid list.now }
    ensures count { IfOk result (λ zeros. length zeros.items ≡ length list.now.slots) }
    ensures zeros { IfOk result (λ zeros. (k : ℕ) → get_or zeros.items k (pos 0) ≡ pos 0) }
{
    let mut zeros = List::new(alloc);
    for _ in 0..list.nodes() {
        zeros.push(0)?;
    }
    Ok(zeros.into_vec())
}

/// Writes the text of frames for a trace: its first line, and then for each slot and each channel, A before
/// B, the line of each node that has a frame there, each line as one piece. The text is the trace of a run by
/// the message numbers that its lines name; they tell which messages the frames carried.
///
/// All memory is taken before the first line is written, and it does not grow with the text.
///
/// # Errors
///
/// `Failed` where the sink failed: some first lines were written, or none, and perhaps some first bytes of
/// the next. `Memory` where memory was refused: nothing was written.
pub fn put_frames<K: Sink>(
    alloc: Global,
    list: &Medl,
    script: &Script,
    text: &[u8],
    out: &mut K,
) -> Result<(), FrameFault>
    requires list { IsValid list.now }
    requires script { IsValidScript list.now script.now }
    requires trace { IsTrue (is_trace list.now script.now text.now) }
    ensures ok { OnOk result (WroteLines (K.output out.old) (K.output out.new)
        (frame_lines list.now script.now (numbers_in list.now script.now (lines_of text.now)))) }
    ensures failed { IfErr result (λ fault. fault ≡ FrameFault.Failed → CutShort (K.output out.old) (K.output out.new)
        (frame_lines list.now script.now (numbers_in list.now script.now (lines_of text.now)))) }
    ensures memory { IfErr result (λ fault. fault ≡ FrameFault.Memory → Wrote (K.output out.old) (K.output out.new) []) }
{
    let (Ok(run), Ok(offsets)) = (TraceRun::new(alloc, list), zeros(alloc, list)) else {
        return Err(FrameFault::Memory);
    };
    match put_all(run, offsets, list, script, text, out) {
        Ok(()) => Ok(()),
        Err(_) => Err(FrameFault::Failed),
    }
}
