//! The lines of what hosts write and read in a slot, looked for in a text.
ghost use Rattle.std.specs.Prelude.{List as Items, ◌∷◌, ◌≡◌, ◌+◌, IfOk, IfErr, OnOk, length, option_map};
ghost use Rattle.ttp_world.specs.declared.node.Chosen.{Chosen};
ghost use Rattle.ttp_world.specs.declared.script.Script.{Script as Said};
ghost use Rattle.ttp_world.specs.Diary.{History};
ghost use Rattle.ttp_world.specs.Medl.{IsValid};
ghost use Rattle.ttp_world.specs.Script.{reads_in, IsValidScript};
ghost use Rattle.ttp_world.specs.Trace.{write_lines};
ghost use Rattle.ttp_world.specs.Legal.{ReadMessage};
ghost use Rattle.trace_check.specs.Following.{HasEnded, IsPast, BeginsWith, Departs, ReadsOn, ReadsAmiss, row_after};
ghost use Rattle.trace_check.specs.Following.{KnowsReads, ReadsOne, ReadsNone, behind_read, behind_new_read};
ghost use Rattle.trace_check.specs.Incoming.{HasPlaces, HaveSameMessages, IsHostAndSource, TellsRings, AreFloorsWithin};
ghost use Rattle.trace_check.specs.Incoming.{newest_before};
ghost use Rattle.trace_check.specs.Outgoing.{HasChosen, HoldsNewest};

use crate::incoming::Incoming;
use crate::outgoing::Outgoing;
use crate::text::{Wrong, expect};
use controller::Plant;
use line_text::{behind_payload_line, behind_status_line, behind_write_line};
use ttp_base::Line;
use ttp_world::{HostRead, Medl, Script, Source};

/// What is left of a text behind the lines of what hosts write in a slot, or from the first of them on
/// that the text doesn't have. They have then written it.
pub(crate) fn follow_writes<'a>(
    outgoing: &mut Outgoing,
    line: &mut Line,
    list: &Medl,
    script: &Script,
    slot: u32,
    text: &'a [u8],
) -> Result<&'a [u8], Wrong<'a>>
    requires list { IsValid list.now }
    requires script { IsValidScript list.now script.now }
    requires chosen { HasChosen outgoing.old list.now script.now slot }
    ensures ok { IfOk result (λ rest. BeginsWith text.now (write_lines list.now script.now slot) rest.now) }
    ensures holds { OnOk result (HoldsNewest outgoing.new list.now script.now (slot + 1)) }
    ensures wrong { IfErr result (λ wrong. Departs text.now (write_lines list.now script.now slot) wrong.text.now) }
{
    let places = script.writes(slot);
    let mut rest = text;
    for at in places {
        if let Some(written) = script.write(*at) {
            let number = outgoing.write(written.host, written.payload);
            let behind = behind_write_line(slot, written.host, number, line, rest);
            rest = expect(behind, rest)?;
        }
    }
    Ok(rest)
}

// What follows the line of a read that got the newest message from before the slot, if the text begins
// with it.
fn behind_older<'a>(
    incoming: &Incoming,
    line: &mut Line,
    list: &Medl,
    slot: u32,
    read: &HostRead,
    text: &'a [u8],
) -> Option<&'a [u8]>
    requires places { HasPlaces incoming.now list.now }
    requires ring { IsHostAndSource list.now read.now.host read.now.source }
    ensures { (script : Said) (history : History) (chosen : Items Chosen) → slot ≡ length history
        → TellsRings incoming.now list.now script history
        → option_map (λ p. p.now) result
        ≡ behind_read list.now script history chosen read.now (newest_before list.now script history read.now)
        text.now }
{
    match read.source {
        Source::Status => {
            let status = incoming.status(read.host);
            behind_status_line(slot, read.host, u64::from(slot), status, line, text)
        }
        Source::Node(from) => {
            let newest = incoming.payload(read.host, from);
            let bytes = newest.payload.bytes();
            behind_payload_line(slot, read.host, from, newest.number, bytes, line, text)
        }
    }
}

// What follows the line of a read that got the message that is new in the slot, if there is one and the
// text begins with it.
fn behind_newer<'a>(
    plant: &Plant,
    incoming: &Incoming,
    line: &mut Line,
    list: &Medl,
    slot: u32,
    read: &HostRead,
    text: &'a [u8],
) -> Option<&'a [u8]>
    requires past { IsPast plant.now incoming.now list.now slot }
    requires ring { IsHostAndSource list.now read.now.host read.now.source }
    ensures { (script : Said) (history : History) (chosen : Items Chosen)
        → HasEnded plant.now incoming.now list.now script history chosen → slot ≡ length history
        → option_map (λ p. p.now) result
        ≡ behind_new_read list.now script history chosen read.now text.now }
{
    match read.source {
        Source::Status => {
            let status = plant.status(read.host);
            behind_status_line(slot, read.host, u64::from(slot) + 1, &status, line, text)
        }
        Source::Node(from) => match plant.delivered(read.host) {
            Some(delivered) if delivered.sender == from => {
                let number = incoming.payload(read.host, from).number + 1;
                let bytes = delivered.payload.bytes();
                behind_payload_line(slot, read.host, from, number, bytes, line, text)
            }
            _ => None,
        },
    }
}

// What is left of a text behind the line of a read, by a number that is legal after the reads before it, or
// the text where no legal number gives the line with which it begins.
fn follow_read<'a>(
    plant: &Plant,
    incoming: &mut Incoming,
    line: &mut Line,
    list: &Medl,
    slot: u32,
    read: &HostRead,
    text: &'a [u8],
) -> Result<&'a [u8], Wrong<'a>>
    requires past { IsPast plant.now incoming.old list.now slot }
    requires ring { IsHostAndSource list.now read.now.host read.now.source }
    ensures same { HaveSameMessages incoming.old incoming.new }
    ensures ok { (script : Said) (history : History) (chosen : Items Chosen) (earlier : Items ReadMessage)
        → HasEnded plant.now incoming.old list.now script history chosen → slot ≡ length history
        → KnowsReads incoming.old list.now script history chosen earlier
        → IfOk result (λ rest.
        ReadsOne list.now script history chosen earlier read.now incoming.new text.now rest.now) }
    ensures wrong { (script : Said) (history : History) (chosen : Items Chosen) (earlier : Items ReadMessage)
        → HasEnded plant.now incoming.old list.now script history chosen → slot ≡ length history
        → KnowsReads incoming.old list.now script history chosen earlier
        → IfErr result (λ wrong.
        ReadsNone list.now script history chosen earlier read.now text.now wrong.text.now) }
{
    let before = incoming.newest(slot, read);
    if incoming.may_read(read, before) {
        if let Some(rest) = behind_older(incoming, line, list, slot, read, text) {
            return Ok(rest);
        }
    }
    let behind = behind_newer(plant, incoming, line, list, slot, read, text);
    let rest = expect(behind, text)?;
    incoming.read_new(read, before + 1);
    Ok(rest)
}

/// What is left of a text behind the lines of what hosts read in a slot, by some legal numbers, or from the
/// first line on that no legal numbers give behind those before it.
pub(crate) fn follow_reads<'a>(
    plant: &Plant,
    incoming: &mut Incoming,
    line: &mut Line,
    list: &Medl,
    script: &Script,
    slot: u32,
    text: &'a [u8],
) -> Result<&'a [u8], Wrong<'a>>
    requires list { IsValid list.now }
    requires script { IsValidScript list.now script.now }
    requires past { IsPast plant.now incoming.old list.now slot }
    ensures rings { (history : History) → TellsRings incoming.old list.now script.now history
        → TellsRings incoming.new list.now script.now history }
    ensures floors { (history : History) (chosen : Items Chosen)
        → HasEnded plant.now incoming.old list.now script.now history chosen
        → AreFloorsWithin incoming.old list.now script.now history
        → OnOk result
        (AreFloorsWithin incoming.new list.now script.now (row_after list.now script.now history chosen ∷ history)) }
    ensures ok { (history : History) (chosen : Items Chosen)
        → HasEnded plant.now incoming.old list.now script.now history chosen
        → AreFloorsWithin incoming.old list.now script.now history
        → IfOk result (λ rest.
        ReadsOn list.now script.now history chosen (reads_in script.now slot) text.now rest.now) }
    ensures wrong { (history : History) (chosen : Items Chosen)
        → HasEnded plant.now incoming.old list.now script.now history chosen
        → AreFloorsWithin incoming.old list.now script.now history
        → IfErr result (λ wrong.
        ReadsAmiss list.now script.now history chosen (reads_in script.now slot) text.now wrong.text.now) }
{
    let reads = script.reads(slot);
    let mut rest = text;
    for read in reads {
        rest = follow_read(plant, incoming, line, list, slot, read, rest)?;
    }
    Ok(rest)
}

/// What the slot left for the hosts is there for the next one.
pub(crate) fn settle(plant: &Plant, incoming: &mut Incoming, list: &Medl, slot: u32)
    requires list { IsValid list.now }
    requires past { IsPast plant.now incoming.old list.now slot }
    ensures rings { (script : Said) (history : History) (chosen : Items Chosen)
        → HasEnded plant.now incoming.old list.now script history chosen
        → TellsRings incoming.new list.now script (row_after list.now script history chosen ∷ history) }
    ensures floors { incoming.new.floors ≡ incoming.old.floors }
{
    for node in 0..list.nodes() {
        if let Some(delivered) = plant.delivered(node) {
            incoming.deliver(node, delivered);
        }
        incoming.publish(node, plant.status(node));
    }
}
