//! A line of a trace, read.
ghost use Rattle.std.specs.Prelude.{◌≡◌, IfSome, option_map};
ghost use Rattle.line_reader.specs.TraceLines.{text_of, Fits};
ghost use Rattle.line_reader.specs.declared.trace_line.TraceLine.{TraceLine as Line};
ghost use Rattle.line_reader.specs.declared.trace_line.TraceLine.TheVariants as said;
ghost use Rattle.line_reader.specs.Reading.{head_in, node_in, write_line_in, read_line_in, kept_in, broken_in, owed_in};
ghost use Rattle.line_reader.specs.Reading.{refused_in, line_in};

use crate::line_words::{ack, fits_word, has_size, node_word, source};
use crate::trace_line::{NodeLine, TraceLine};
use line_form::Reader;
use line_text::PEER;
use ttp_base::members_of;
use ttp_world::{Back, Keep, PAYLOAD_LIMIT, Payload};

// Slots have at most 5 digits, message numbers 6, and offsets 18.
const SLOTS: u64 = 100_000;

const MESSAGES: u64 = 1_000_000;

const OFFSETS: u64 = 1_000_000_000_000_000_000;

// The first line.
#[tactic(auto, unfolding(crate::specs::Reading::head_in))]
fn head_in(bytes: &[u8]) -> Option<TraceLine>
    ensures { result ≡ head_in bytes.now }
{
    let mut line = Reader::of(bytes);
    let version = line.byte("ttpbench trace ");
    let nodes = line.byte(" nodes ");
    let rounds = line.byte(" rounds ");
    let slots = line.number(" slots ", SLOTS) as u32;
    let schedule = line.hexed(" schedule ", 6) as u32;
    line.close(TraceLine::Header {
        version,
        nodes,
        rounds,
        slots,
        schedule,
    })
}

/// What the line of a node says, without the line feed; `None` where it is none that [`read_line`] reads. Takes no memory.
#[tactic(auto, unfolding(crate::specs::Reading::node_in))]
pub fn read_node_line(bytes: &[u8]) -> Option<NodeLine>
    ensures { option_map (λ n. said.Node n.slot n.node n.word n.peer n.message n.wide n.members n.accepted n.rejected n.ack
        n.offset) result ≡ node_in bytes.now }
{
    let mut line = Reader::of(bytes);
    let slot = line.number("slot ", SLOTS) as u32;
    let node = line.byte(" node ");
    let word = node_word(&mut line, " ");
    let peer = line.byte_or_dash(PEER);
    let message = line.number_or_dash(" msg ", MESSAGES);
    let members = line.hexed_or(" mem ", 4, 6);
    let accepted = line.byte(" acc ");
    let rejected = line.byte(" rej ");
    let ack = ack(&mut line, " ack ");
    let offset = line.signed(" clock ", OFFSETS);
    if !fits_word(word, peer, message) {
        return None;
    }
    line.close(NodeLine {
        slot,
        node,
        word,
        peer,
        message,
        wide: members.0,
        members: members_of(members.1 as u32),
        accepted,
        rejected,
        ack,
        offset,
    })
}

// The line of a node.
fn node_in(bytes: &[u8]) -> Option<TraceLine>
    ensures { result ≡ node_in bytes.now }
{
    let node = read_node_line(bytes)?;
    Some(TraceLine::Node {
        slot: node.slot,
        node: node.node,
        word: node.word,
        peer: node.peer,
        message: node.message,
        wide: node.wide,
        members: node.members,
        accepted: node.accepted,
        rejected: node.rejected,
        ack: node.ack,
        offset: node.offset,
    })
}

// The line of a message that a host wrote.
#[tactic(auto, unfolding(crate::specs::Reading::write_line_in))]
fn write_line_in(bytes: &[u8]) -> Option<TraceLine>
    ensures { result ≡ write_line_in bytes.now }
{
    let mut line = Reader::of(bytes);
    let slot = line.number("slot ", SLOTS) as u32;
    let host = line.byte(" host ");
    let number = line.number(" write ", MESSAGES);
    line.close(TraceLine::Write { slot, host, number })
}

// The line of a message that a host read.
#[tactic(auto, unfolding(crate::specs::Reading::read_line_in))]
fn read_line_in(bytes: &[u8]) -> Option<TraceLine>
    ensures { result ≡ read_line_in bytes.now }
{
    let mut line = Reader::of(bytes);
    let slot = line.number("slot ", SLOTS) as u32;
    let host = line.byte(" host ");
    let source = source(&mut line, " read ");
    let number = line.number(" ", MESSAGES);
    let payload = line.payload::<PAYLOAD_LIMIT>(" ");
    if !has_size(source, payload.len()) {
        return None;
    }
    line.close(TraceLine::Read {
        slot,
        host,
        source,
        number,
        payload: Payload::of(payload.bytes()),
    })
}

// The line of the hypothesis test where it holds.
#[tactic(auto, unfolding(crate::specs::Reading::kept_in))]
fn kept_in(bytes: &[u8]) -> Option<TraceLine>
    ensures { result ≡ kept_in bytes.now }
{
    let mut line = Reader::of(bytes);
    let start = line.number("keeps yes start ", SLOTS) as u32;
    line.close(TraceLine::Keep(Keep::Yes { start }))
}

// The line of the hypothesis test where it does not.
#[tactic(auto, unfolding(crate::specs::Reading::broken_in))]
fn broken_in(bytes: &[u8]) -> Option<TraceLine>
    ensures { result ≡ broken_in bytes.now }
{
    let mut line = Reader::of(bytes);
    let rule = line.byte("keeps no H");
    let slot = line.number(" ", SLOTS) as u32;
    line.close(TraceLine::Keep(Keep::No { rule, slot }))
}

// The line on armed nodes where each is guaranteed its place.
#[tactic(auto, unfolding(crate::specs::Reading::owed_in))]
fn owed_in(bytes: &[u8]) -> Option<TraceLine>
    ensures { result ≡ owed_in bytes.now }
{
    let mut line = Reader::of(bytes);
    let start = line.number("returns yes start ", SLOTS) as u32;
    line.close(TraceLine::Back(Back::Yes { start }))
}

// The line on armed nodes where a rule is broken.
#[tactic(auto, unfolding(crate::specs::Reading::refused_in))]
fn refused_in(bytes: &[u8]) -> Option<TraceLine>
    ensures { result ≡ refused_in bytes.now }
{
    let mut line = Reader::of(bytes);
    let rule = line.byte("returns no Q");
    let slot = line.number(" ", SLOTS) as u32;
    line.close(TraceLine::Back(Back::No { rule, slot }))
}

// The value of a line, if it is one.
#[tactic(auto, unfolding(crate::specs::Reading::line_in))]
fn line_in(bytes: &[u8]) -> Option<TraceLine>
    ensures { result ≡ line_in bytes.now }
{
    if let Some(line) = node_in(bytes) {
        return Some(line);
    }
    if let Some(line) = read_line_in(bytes) {
        return Some(line);
    }
    if let Some(line) = write_line_in(bytes) {
        return Some(line);
    }
    if let Some(line) = head_in(bytes) {
        return Some(line);
    }
    if let Some(line) = kept_in(bytes) {
        return Some(line);
    }
    if let Some(line) = broken_in(bytes) {
        return Some(line);
    }
    if let Some(line) = owed_in(bytes) {
        return Some(line);
    }
    refused_in(bytes)
}

/// The value whose line these bytes are, without the line feed.
///
/// A value is read exactly where the bytes are the line of one that fits into the widths of the
/// format: a slot has at most 5 digits, a message number 6 and an offset 18, other numbers are below
/// 256, a peer and a message are named exactly where the word allows them, and the message of a sender
/// has 1 to 240 bytes. No two such values have one line. The bytes are gone over once for each form of a
/// line that they begin as. Takes no memory.
pub fn read_line(bytes: &[u8]) -> Option<TraceLine>
    ensures found { IfSome result (λ line. Fits line × (bytes.now ≡ text_of line)) }
    ensures only { (line : Line) → Fits line → bytes.now ≡ text_of line → result ≡ Some line }
    ensures value { result ≡ line_in bytes.now }
{
    line_in(bytes)
}
