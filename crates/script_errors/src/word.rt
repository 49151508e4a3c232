//! What is wrong with a word.
ghost use Rattle.std.specs.Prelude.{◌≡◌, ◌<◌, ◌≤◌, length, IfSome};
ghost use Rattle.ttp_world.specs.Medl.{IsValid};
ghost use Rattle.script_errors.specs.Words.{node_count, payload_of, number_wrong, value_wrong, spelling_wrong};
ghost use Rattle.script_errors.specs.Words.{node_wrong, data_wrong, writer_wrong, itself_wrong, source_wrong};
ghost use Rattle.script_errors.specs.Words.{message_length_wrong, message_wrong, word_wrong, right_node};

use crate::error::{Part, Wrong};
use crate::number::value_in;
use script_text::{decimal_value, is_channels, is_fault, is_hex_word, is_text};
use ttp_world::{
    DRIFT_LIMIT, ERROR_LIMIT, FIRST_FLIPPED_BIT, JUMP_LIMIT, LAST_FLIPPED_BIT, Medl, SLOT_LIMIT,
};

/// How many nodes there are: where the list is at fault, as many as any list may have.
pub(crate) fn node_count(list: &Option<Medl>) -> u32
    requires { IfSome list.now IsValid }
    ensures count { result ≡ node_count list.now }
    ensures few { result < 25 }
{
    match list {
        Some(list) => u32::from(list.nodes()),
        None => 24,
    }
}

// The bytes of payload of a node's frames, where the list says so.
fn payload_of(list: &Option<Medl>, node: u32) -> Option<u8>
    requires valid { IfSome list.now IsValid }
    requires node { node < node_count list.now }
    ensures { result ≡ payload_of list.now node }
{
    match list {
        Some(list) => Some(list.slots.get(node as usize).payload),
        None => None,
    }
}

fn number_wrong(part: Part, low: u32, high: u32, word: &[u8]) -> Option<Wrong>
    ensures { result ≡ number_wrong part low high word.now }
{
    match decimal_value(word) {
        Some(value) if low <= value && value <= high => None,
        Some(value) => Some(Wrong::OutOfRange {
            part,
            value: i64::from(value),
            low: i64::from(low),
            high: i64::from(high),
        }),
        None => Some(Wrong::NoNumber {
            part,
            low: i64::from(low),
            high: i64::from(high),
        }),
    }
}

fn value_wrong(part: Part, bound: u32, word: &[u8]) -> Option<Wrong>
    ensures { result ≡ value_wrong part bound word.now }
{
    let high = i64::from(bound);
    match value_in(word) {
        Some(value) if value.unsigned_abs() <= u64::from(bound) => None,
        Some(value) => Some(Wrong::OutOfRange {
            part,
            value,
            low: -high,
            high,
        }),
        None => Some(Wrong::NoNumber {
            part,
            low: -high,
            high,
        }),
    }
}

fn spelling_wrong(part: Part, spelled: bool) -> Option<Wrong>
    ensures { result ≡ spelling_wrong part spelled }
{
    if spelled {
        return None;
    }
    Some(Wrong::Misspelt { part })
}

fn node_wrong(part: Part, nodes: u32, word: &[u8]) -> Option<Wrong>
    ensures { result ≡ node_wrong part nodes word.now }
{
    let high = nodes.saturating_sub(1);
    match decimal_value(word) {
        Some(node) if node < nodes => None,
        Some(node) => Some(Wrong::NoNode { part, node, high }),
        None => Some(Wrong::NoNumber {
            part,
            low: 0,
            high: i64::from(high),
        }),
    }
}

fn data_wrong(part: Part, node: u32, payload: Option<u8>) -> Option<Wrong>
    ensures { result ≡ data_wrong part node payload }
{
    match payload {
        Some(0) => Some(Wrong::NoData { part, node }),
        _ => None,
    }
}

fn writer_wrong(list: &Option<Medl>, word: &[u8]) -> Option<Wrong>
    requires { IfSome list.now IsValid }
    ensures { result ≡ writer_wrong list.now word.now }
{
    let nodes = node_count(list);
    match decimal_value(word) {
        Some(node) if node < nodes => { data_wrong(Part::Writer, node, payload_of(list, node)) }
        _ => node_wrong(Part::Writer, nodes, word),
    }
}

fn itself_wrong(source: u32, node: Option<u32>) -> Option<Wrong>
    ensures { result ≡ itself_wrong source node }
{
    match node {
        Some(node) if source == node => Some(Wrong::ReadsItself { node: source }),
        _ => None,
    }
}

fn source_wrong(list: &Option<Medl>, node: Option<u32>, word: &[u8]) -> Option<Wrong>
    requires { IfSome list.now IsValid }
    ensures { result ≡ source_wrong list.now node word.now }
{
    if is_text(b"status", word) {
        return None;
    }
    let nodes = node_count(list);
    let high = nodes.saturating_sub(1);
    let Some(source) = decimal_value(word) else {
        return Some(Wrong::NoSource { high });
    };
    if nodes <= source {
        return Some(Wrong::NoNode {
            part: Part::Source,
            node: source,
            high,
        });
    }
    match data_wrong(Part::Source, source, payload_of(list, source)) {
        Some(wrong) => Some(wrong),
        None => itself_wrong(source, node),
    }
}

// What is wrong with the length of a message of a node.
fn message_length_wrong(list: &Option<Medl>, node: Option<u32>, digits: u32) -> Option<Wrong>
    requires valid { IfSome list.now IsValid }
    requires node { IfSome node (λ k. k < node_count list.now) }
    ensures { result ≡ message_length_wrong list.now node digits }
{
    let Some(node) = node else {
        return None;
    };
    let Some(payload) = payload_of(list, node) else {
        return None;
    };
    let due = 2 * u32::from(payload);
    if digits == due {
        return None;
    }
    Some(Wrong::DigitCount { digits, due, node })
}

fn message_wrong(list: &Option<Medl>, node: Option<u32>, word: &[u8]) -> Option<Wrong>
    requires valid { IfSome list.now IsValid }
    requires node { IfSome node (λ k. k < node_count list.now) }
    requires size { length word.now ≤ 1048576 }
    ensures { result ≡ message_wrong list.now node word.now }
{
    if !is_hex_word(word) {
        return Some(Wrong::NoDigits);
    }
    message_length_wrong(list, node, word.len() as u32)
}

/// What is wrong with a word that says such a part of a line, in a run of so many slots, where this is the line's node.
#[tactic(auto, unfolding(crate::specs::Words::word_wrong))]
pub(crate) fn word_wrong(
    list: &Option<Medl>,
    slots: u32,
    node: Option<u32>,
    part: Part,
    word: &[u8],
) -> Option<Wrong>
    requires valid { IfSome list.now IsValid }
    requires node { IfSome node (λ k. k < node_count list.now) }
    requires size { length word.now ≤ 1048576 }
    ensures { result ≡ word_wrong list.now slots node part word.now }
{
    let last = slots.saturating_sub(1);
    match part {
        Part::Slots => number_wrong(part, 1, SLOT_LIMIT, word),
        Part::Node => node_wrong(part, node_count(list), word),
        Part::Writer => writer_wrong(list, word),
        Part::Slot | Part::From | Part::To => number_wrong(part, 0, last, word),
        Part::Channels => spelling_wrong(part, is_channels(word)),
        Part::Fault => spelling_wrong(part, is_fault(word)),
        Part::Bit => number_wrong(
            part,
            u32::from(FIRST_FLIPPED_BIT),
            u32::from(LAST_FLIPPED_BIT),
            word,
        ),
        Part::Drift => value_wrong(part, DRIFT_LIMIT, word),
        Part::Reading => value_wrong(part, ERROR_LIMIT, word),
        Part::Jump => value_wrong(part, JUMP_LIMIT, word),
        Part::Message => message_wrong(list, node, word),
        Part::Source => source_wrong(list, node, word),
    }
}

/// The node that a word names where it says such a part and nothing is wrong with it.
#[tactic(auto, unfolding(crate::specs::Words::word_wrong))]
pub(crate) fn right_node(list: &Option<Medl>, part: Part, word: &[u8]) -> Option<u32>
    requires { IfSome list.now IsValid }
    ensures named { result ≡ right_node list.now part word.now }
    ensures node { IfSome result (λ k. k < node_count list.now) }
{
    let wrong = match part {
        Part::Node => node_wrong(part, node_count(list), word),
        Part::Writer => writer_wrong(list, word),
        _ => return None,
    };
    match wrong {
        Some(_) => None,
        None => decimal_value(word),
    }
}
