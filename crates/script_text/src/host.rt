//! Lines by which hosts write and read.
ghost use Rattle.std.specs.Prelude.{◌≡◌, ◌==◌, ◌<◌, ◌≤◌, [], ◌++◌, true, not, length, Some, IfOk, IfErr};
ghost use Rattle.ttp_base.specs.Faults.{first_fault};
ghost use Rattle.ttp_world.specs.Medl.{IsValid};
ghost use Rattle.script_text.specs.declared.error.LineFault.TheVariants as faults;
ghost use Rattle.script_text.specs.declared.keyword.Keyword.TheVariants as keyword;
ghost use Rattle.script_text.specs.Lines.{word_at};
ghost use Rattle.script_text.specs.Numbers.{is_source, source_named, digit_bytes_in};
ghost use Rattle.script_text.specs.Statement.{number_at_word};
ghost use Rattle.script_text.specs.Faults.{is_node, is_read_node, payload_size, node_sends_payload, fault_unless};
ghost use Rattle.script_text.specs.Faults.{statement_faults};
ghost use Rattle.script_text.specs.SoFar.{ReadsEvent};

use crate::error::LineFault;
use crate::event::{node_of, number_at_word};
use crate::form::is_text;
use crate::hex::{front_payload, is_hex_word};
use crate::words::Words;
use ttp_world::{Event, Medl, PAYLOAD_LIMIT, Payload, Source};

/// The bytes of payload that a node's frames carry.
pub(crate) fn payload_size(list: &Medl, node: u8) -> u8
    requires valid { IsValid list.now }
    requires node { node < length list.now.slots }
    ensures value { result ≡ payload_size list.now node }
    ensures small { result ≤ PAYLOAD_LIMIT }
{
    list.slots.get(node as usize).payload
}

/// Whether what a host reads is its status, or comes from a node that sends payload.
pub(crate) fn node_sends_payload(list: &Medl, source: Source) -> bool
    requires valid { IsValid list.now }
    requires node { is_read_node (is_node list.now) source ≡ true }
    ensures { result ≡ is_read_node (node_sends_payload list.now) source }
{
    match source {
        Source::Status => true,
        Source::Node(node) => 1 <= payload_size(list, node),
    }
}

/// Whether what a node's host reads is its status, or comes from another node.
pub(crate) fn is_of_other(node: u8, source: Source) -> bool
    ensures { result ≡ is_read_node (λ k. not (k == node)) source }
{
    match source {
        Source::Status => true,
        Source::Node(sender) => sender != node,
    }
}

// What a line's word at a place names as read, of the list's nodes.
fn source_at(words: &Words, i: usize, list: &Medl) -> Result<Source, LineFault>
    requires low { 1 ≤ i }
    requires high { i ≤ 5 }
    requires valid { IsValid list.now }
    ensures ok { IfOk result (λ source. (is_source (word_at words.now i) ≡ true)
        × (source ≡ source_named (word_at words.now i)) × (is_read_node (is_node list.now) source ≡ true)) }
    ensures err { IfErr result (λ fault.
        first_fault (fault_unless (is_source (word_at words.now i)) faults.Number
        ++ fault_unless (is_read_node (is_node list.now) (source_named (word_at words.now i))) faults.NoNode)
        ≡ Some fault) }
{
    let word = words.at(i);
    if is_text(b"status", word.text()) {
        return Ok(Source::Status);
    }
    let number = word.number().ok_or(LineFault::Number)?;
    let node = node_of(list, number)?;
    Ok(Source::Node(node))
}

/// The event that a `read` line says, in a run of so many slots.
#[tactic(auto, unfolding(crate::specs::Faults::statement_faults))]
pub(crate) fn read_in(words: &Words, list: &Medl, slots: u32) -> Result<Event, LineFault>
    requires { IsValid list.now }
    ensures { ReadsEvent list.now slots words.now keyword.Read result }
{
    let number = number_at_word(words, 1)?;
    let slot = number_at_word(words, 2)?;
    let source = source_at(words, 3, list)?;
    let node = node_of(list, number)?;
    if !node_sends_payload(list, source) {
        return Err(LineFault::NoData);
    }
    if slots <= slot || !is_of_other(node, source) {
        return Err(LineFault::Range);
    }
    Ok(Event::Read { node, slot, source })
}

/// A message that a node's host writes in a slot.
#[derive(Drop)]
pub(crate) struct Message {
    pub(crate) node: u8,
    pub(crate) slot: u32,
    pub(crate) payload: Payload,
}

/// The message that a `write` line says, in a run of so many slots.
#[tactic(auto, unfolding(crate::specs::Faults::statement_faults))]
pub(crate) fn message_in(words: &Words, list: &Medl, slots: u32) -> Result<Message, LineFault>
    requires { IsValid list.now }
    ensures ok { IfOk result (λ _. statement_faults list.now slots words.now keyword.Write ≡ []) }
    ensures value { IfOk result (λ message. message ≡ record {
      node = number_at_word words.now 1;
      slot = number_at_word words.now 2;
      payload = digit_bytes_in (word_at words.now 3);
    }) }
    ensures node { IfOk result (λ message. message.node < length list.now.slots) }
    ensures slot { IfOk result (λ message. message.slot < slots) }
    ensures err { IfErr result (λ fault.
        first_fault (statement_faults list.now slots words.now keyword.Write) ≡ Some fault) }
{
    let number = number_at_word(words, 1)?;
    let slot = number_at_word(words, 2)?;
    let digits = words.at(3).text();
    if !is_hex_word(digits) {
        return Err(LineFault::Number);
    }
    let node = node_of(list, number)?;
    let size = payload_size(list, node);
    if size == 0 {
        return Err(LineFault::NoData);
    }
    if slots <= slot || digits.len() != 2 * size as usize {
        return Err(LineFault::Range);
    }
    let payload = front_payload(digits, size).ok_or(LineFault::Number)?;
    Ok(Message {
        node,
        slot,
        payload,
    })
}
